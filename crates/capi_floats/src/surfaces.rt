// Surfaces of floats.
ghost use Rattle.std.specs.Prelude.{◌≡◌, List, ℕ, ◌+◌, ◌-◌, Float};
ghost use Rattle.calculus.specs.Kind.{regular};
ghost use Rattle.calculus.specs.Surface.{sum, difference, product, derivative_u, derivative_v};
ghost use Rattle.formulas.specs.Real.{real};
ghost use Rattle.calculus.specs.Rational.{surface_rational};
ghost use Rattle.derivatives.specs.Answer.{surfaces, parameters, curves, entry_at, by_division};
ghost use Rattle.derivatives.specs.Composite.{along_curve_at, along_curve};
ghost use Rattle.given.specs.Values.{to_float};
ghost use Rattle.calculus.specs.JetKind.{by_formula, differentiated};
ghost use Rattle.given.specs.Lists.{over_two_at, over_two, over_one, output, input};

use derivatives::{ParameterCurve, SurfaceDerivatives};
use refusals::number_of;

#[unsafe(no_mangle)]
pub extern "C" fn sugamdely_surface_sum(
    a_order: usize,
    a: &[f64],
    b_order: usize,
    b: &[f64],
    out: &mut [f64],
) -> u8
    ensures { ◌≡◌ {A = ℕ × List Float} (result, out.new) (over_two (input surfaces) (input surfaces) (output surfaces) (by_formula surfaces surfaces surfaces (sum (regular real))) a_order a.now b_order b.now out.old) }
{
    number_of(given::over_two(a_order, a, b_order, b, out, SurfaceDerivatives::sum))
}

#[unsafe(no_mangle)]
pub extern "C" fn sugamdely_surface_difference(
    a_order: usize,
    a: &[f64],
    b_order: usize,
    b: &[f64],
    out: &mut [f64],
) -> u8
    ensures { ◌≡◌ {A = ℕ × List Float} (result, out.new) (over_two (input surfaces) (input surfaces) (output surfaces) (by_formula surfaces surfaces surfaces (difference (regular real))) a_order a.now b_order b.now out.old) }
{
    number_of(given::over_two(a_order, a, b_order, b, out, SurfaceDerivatives::difference))
}

#[unsafe(no_mangle)]
pub extern "C" fn sugamdely_surface_derivative_u(a_order: usize, a: &[f64], out: &mut [f64]) -> u8
    ensures { ◌≡◌ {A = ℕ × List Float} (result, out.new) (over_one (input surfaces) (output surfaces) (a_order - 1) (differentiated surfaces derivative_u) a_order a.now out.old) }
{
    number_of(given::over_one(
        given::lower(a_order),
        a_order,
        a,
        out,
        SurfaceDerivatives::derivative_u,
    ))
}

#[unsafe(no_mangle)]
pub extern "C" fn sugamdely_surface_derivative_v(a_order: usize, a: &[f64], out: &mut [f64]) -> u8
    ensures { ◌≡◌ {A = ℕ × List Float} (result, out.new) (over_one (input surfaces) (output surfaces) (a_order - 1) (differentiated surfaces derivative_v) a_order a.now out.old) }
{
    number_of(given::over_one(
        given::lower(a_order),
        a_order,
        a,
        out,
        SurfaceDerivatives::derivative_v,
    ))
}

// One entry of the product: [m][n].
#[unsafe(no_mangle)]
pub extern "C" fn sugamdely_surface_combinatorial_derivative(
    a_order: usize,
    a: &[f64],
    b_order: usize,
    b: &[f64],
    m: usize,
    n: usize,
    out: &mut [f64],
) -> u8
    ensures { ◌≡◌ {A = ℕ × List Float} (result, out.new) (over_two_at (input surfaces) (input surfaces) to_float (m + n) (λ x y. entry_at surfaces surfaces (λ p q. product real p q m n) x y (m + n)) a_order a.now b_order b.now out.old) }
{
    number_of(given::over_two_at_both(
        m,
        n,
        a_order,
        a,
        b_order,
        b,
        out,
        |x: SurfaceDerivatives, y: SurfaceDerivatives| x.combinatorial_derivative(y, m, n),
    ))
}

#[unsafe(no_mangle)]
pub extern "C" fn sugamdely_surface_combinatorial_derivatives(
    a_order: usize,
    a: &[f64],
    b_order: usize,
    b: &[f64],
    out: &mut [f64],
) -> u8
    ensures { ◌≡◌ {A = ℕ × List Float} (result, out.new) (over_two (input surfaces) (input surfaces) (output surfaces) (by_formula surfaces surfaces surfaces (product real)) a_order a.now b_order b.now out.old) }
{
    number_of(given::over_two(
        a_order,
        a,
        b_order,
        b,
        out,
        SurfaceDerivatives::combinatorial_derivatives,
    ))
}

// The quotient of the surface a by the weights w.
#[unsafe(no_mangle)]
pub extern "C" fn sugamdely_surface_rational_derivatives(
    a_order: usize,
    a: &[f64],
    w_order: usize,
    w: &[f64],
    out: &mut [f64],
) -> u8
    ensures { ◌≡◌ {A = ℕ × List Float} (result, out.new) (over_two (input surfaces) (input surfaces) (output surfaces) (by_division surfaces surfaces surfaces (λ y. y 0 0) (surface_rational (regular real) real.over)) a_order a.now w_order w.now out.old) }
{
    number_of(given::over_two(
        a_order,
        a,
        w_order,
        w,
        out,
        SurfaceDerivatives::rational_derivatives,
    ))
}

// The derivative of order n of the surface a along the curve c in its parameters, which is zero at order 0.
#[unsafe(no_mangle)]
pub extern "C" fn sugamdely_composite_derivative(
    a_order: usize,
    a: &[f64],
    c_order: usize,
    c: &[f64],
    n: usize,
    out: &mut [f64],
) -> u8
    ensures { ◌≡◌ {A = ℕ × List Float} (result, out.new) (over_two_at (input surfaces) (input parameters) to_float n (λ x y. along_curve_at x y n) a_order a.now c_order c.now out.old) }
{
    number_of(given::over_two_at(
        n,
        a_order,
        a,
        c_order,
        c,
        out,
        |x: SurfaceDerivatives, y: ParameterCurve| x.composite_derivative(y, n),
    ))
}

// The derivatives of all orders up to n, with the entry [0][0] of the surface at order 0.
#[unsafe(no_mangle)]
pub extern "C" fn sugamdely_composite_derivatives(
    a_order: usize,
    a: &[f64],
    c_order: usize,
    c: &[f64],
    n: usize,
    out: &mut [f64],
) -> u8
    ensures { ◌≡◌ {A = ℕ × List Float} (result, out.new) (over_two_at (input surfaces) (input parameters) (output curves) n (λ x y. along_curve x y n) a_order a.now c_order c.now out.old) }
{
    number_of(given::over_two_at(
        n,
        a_order,
        a,
        c_order,
        c,
        out,
        |x: SurfaceDerivatives, y: ParameterCurve| x.composite_derivatives(y, n),
    ))
}
