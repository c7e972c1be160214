// Surfaces of vectors.
ghost use Rattle.std.specs.Prelude.{◌≡◌, List, ℕ, ◌+◌, ◌-◌, Float};
ghost use Rattle.ieee_vectors.specs.Vectors.{quotient, multiple, dot, cross};
ghost use Rattle.calculus.specs.Kind.{regular};
ghost use Rattle.calculus.specs.Surface.{sum, difference, product_by, derivative_u, derivative_v, derivative_by};
ghost use Rattle.formulas.specs.Real.{real};
ghost use Rattle.vector_formulas.specs.Vector.{vectors};
ghost use Rattle.vector_derivatives.specs.Composite.{vector_along_curve_at, vector_along_curve};
ghost use Rattle.given.specs.Values.{to_float, to_vector};
ghost use Rattle.vector_surface_formulas.specs.Formulas.{vector_surface_norm};
ghost use Rattle.vector_derivatives.specs.Answer.{vector_surfaces, vector_curves, vector_entry_at, by_norm};
ghost use Rattle.derivatives.specs.Answer.{surfaces, parameters, entry_at, by_division};
ghost use Rattle.calculus.specs.Rational.{surface_rational};
ghost use Rattle.calculus.specs.JetKind.{by_formula, differentiated};
ghost use Rattle.given.specs.Lists.{over_two_at, over_two, over_one, output, input};

use derivatives::{ParameterCurve, SurfaceDerivatives};
use refusals::number_of;
use vector_derivatives::VectorSurfaceDerivatives;

#[unsafe(no_mangle)]
pub extern "C" fn sugamdely_vector_surface_sum(
    a_order: usize,
    a: &[f64],
    b_order: usize,
    b: &[f64],
    out: &mut [f64],
) -> u8
    ensures { ◌≡◌ {A = ℕ × List Float} (result, out.new) (over_two (input vector_surfaces) (input vector_surfaces) (output vector_surfaces) (by_formula vector_surfaces vector_surfaces vector_surfaces (sum vectors)) a_order a.now b_order b.now out.old) }
{
    number_of(given::over_two(a_order, a, b_order, b, out, VectorSurfaceDerivatives::sum))
}

#[unsafe(no_mangle)]
pub extern "C" fn sugamdely_vector_surface_difference(
    a_order: usize,
    a: &[f64],
    b_order: usize,
    b: &[f64],
    out: &mut [f64],
) -> u8
    ensures { ◌≡◌ {A = ℕ × List Float} (result, out.new) (over_two (input vector_surfaces) (input vector_surfaces) (output vector_surfaces) (by_formula vector_surfaces vector_surfaces vector_surfaces (difference vectors)) a_order a.now b_order b.now out.old) }
{
    number_of(given::over_two(
        a_order,
        a,
        b_order,
        b,
        out,
        VectorSurfaceDerivatives::difference,
    ))
}

#[unsafe(no_mangle)]
pub extern "C" fn sugamdely_vector_surface_derivative_u(
    a_order: usize,
    a: &[f64],
    out: &mut [f64],
) -> u8
    ensures { ◌≡◌ {A = ℕ × List Float} (result, out.new) (over_one (input vector_surfaces) (output vector_surfaces) (a_order - 1) (differentiated vector_surfaces derivative_u) a_order a.now out.old) }
{
    number_of(given::over_one(
        given::lower(a_order),
        a_order,
        a,
        out,
        VectorSurfaceDerivatives::derivative_u,
    ))
}

#[unsafe(no_mangle)]
pub extern "C" fn sugamdely_vector_surface_derivative_v(
    a_order: usize,
    a: &[f64],
    out: &mut [f64],
) -> u8
    ensures { ◌≡◌ {A = ℕ × List Float} (result, out.new) (over_one (input vector_surfaces) (output vector_surfaces) (a_order - 1) (differentiated vector_surfaces derivative_v) a_order a.now out.old) }
{
    number_of(given::over_one(
        given::lower(a_order),
        a_order,
        a,
        out,
        VectorSurfaceDerivatives::derivative_v,
    ))
}

// The quotient of the vectors a by the weights w.
#[unsafe(no_mangle)]
pub extern "C" fn sugamdely_vector_surface_rational_derivatives(
    a_order: usize,
    a: &[f64],
    w_order: usize,
    w: &[f64],
    out: &mut [f64],
) -> u8
    ensures { ◌≡◌ {A = ℕ × List Float} (result, out.new) (over_two (input vector_surfaces) (input surfaces) (output vector_surfaces) (by_division vector_surfaces surfaces vector_surfaces (λ y. y 0 0) (surface_rational vectors quotient)) a_order a.now w_order w.now out.old) }
{
    number_of(given::over_two(
        a_order,
        a,
        w_order,
        w,
        out,
        VectorSurfaceDerivatives::rational_derivatives,
    ))
}

// One entry of the product of the vectors a by the floats b: [m][n].
#[unsafe(no_mangle)]
pub extern "C" fn sugamdely_surface_combinatorial_derivative_scaled(
    a_order: usize,
    a: &[f64],
    b_order: usize,
    b: &[f64],
    m: usize,
    n: usize,
    out: &mut [f64],
) -> u8
    ensures { ◌≡◌ {A = ℕ × List Float} (result, out.new) (over_two_at (input vector_surfaces) (input surfaces) to_vector (m + n) (λ x y. vector_entry_at vector_surfaces surfaces (λ p q. product_by vectors multiple p q m n) x y (m + n)) a_order a.now b_order b.now out.old) }
{
    number_of(given::over_two_at_both(
        m,
        n,
        a_order,
        a,
        b_order,
        b,
        out,
        |x: VectorSurfaceDerivatives, y: SurfaceDerivatives| x.combinatorial_derivative_scaled(
            y, m, n,
        ),
    ))
}

// Of the dot product.
#[unsafe(no_mangle)]
pub extern "C" fn sugamdely_surface_combinatorial_derivative_dot(
    a_order: usize,
    a: &[f64],
    b_order: usize,
    b: &[f64],
    m: usize,
    n: usize,
    out: &mut [f64],
) -> u8
    ensures { ◌≡◌ {A = ℕ × List Float} (result, out.new) (over_two_at (input vector_surfaces) (input vector_surfaces) to_float (m + n) (λ x y. entry_at vector_surfaces vector_surfaces (λ p q. product_by (regular real) dot p q m n) x y (m + n)) a_order a.now b_order b.now out.old) }
{
    number_of(given::over_two_at_both(
        m,
        n,
        a_order,
        a,
        b_order,
        b,
        out,
        |x: VectorSurfaceDerivatives, y: VectorSurfaceDerivatives| x.combinatorial_derivative_dot(
            y, m, n,
        ),
    ))
}

// Of the cross product.
#[unsafe(no_mangle)]
pub extern "C" fn sugamdely_surface_combinatorial_derivative_cross(
    a_order: usize,
    a: &[f64],
    b_order: usize,
    b: &[f64],
    m: usize,
    n: usize,
    out: &mut [f64],
) -> u8
    ensures { ◌≡◌ {A = ℕ × List Float} (result, out.new) (over_two_at (input vector_surfaces) (input vector_surfaces) to_vector (m + n) (λ x y. vector_entry_at vector_surfaces vector_surfaces (λ p q. product_by vectors cross p q m n) x y (m + n)) a_order a.now b_order b.now out.old) }
{
    number_of(given::over_two_at_both(
        m,
        n,
        a_order,
        a,
        b_order,
        b,
        out,
        |x: VectorSurfaceDerivatives, y: VectorSurfaceDerivatives| x.combinatorial_derivative_cross(
            y, m, n,
        ),
    ))
}

#[unsafe(no_mangle)]
pub extern "C" fn sugamdely_surface_combinatorial_derivatives_scaled(
    a_order: usize,
    a: &[f64],
    b_order: usize,
    b: &[f64],
    out: &mut [f64],
) -> u8
    ensures { ◌≡◌ {A = ℕ × List Float} (result, out.new) (over_two (input vector_surfaces) (input surfaces) (output vector_surfaces) (by_formula vector_surfaces surfaces vector_surfaces (product_by vectors multiple)) a_order a.now b_order b.now out.old) }
{
    number_of(given::over_two(
        a_order,
        a,
        b_order,
        b,
        out,
        VectorSurfaceDerivatives::combinatorial_derivatives_scaled,
    ))
}

#[unsafe(no_mangle)]
pub extern "C" fn sugamdely_surface_combinatorial_derivatives_dot(
    a_order: usize,
    a: &[f64],
    b_order: usize,
    b: &[f64],
    out: &mut [f64],
) -> u8
    ensures { ◌≡◌ {A = ℕ × List Float} (result, out.new) (over_two (input vector_surfaces) (input vector_surfaces) (output surfaces) (by_formula vector_surfaces vector_surfaces surfaces (product_by (regular real) dot)) a_order a.now b_order b.now out.old) }
{
    number_of(given::over_two(
        a_order,
        a,
        b_order,
        b,
        out,
        VectorSurfaceDerivatives::combinatorial_derivatives_dot,
    ))
}

#[unsafe(no_mangle)]
pub extern "C" fn sugamdely_surface_combinatorial_derivatives_cross(
    a_order: usize,
    a: &[f64],
    b_order: usize,
    b: &[f64],
    out: &mut [f64],
) -> u8
    ensures { ◌≡◌ {A = ℕ × List Float} (result, out.new) (over_two (input vector_surfaces) (input vector_surfaces) (output vector_surfaces) (by_formula vector_surfaces vector_surfaces vector_surfaces (product_by vectors cross)) a_order a.now b_order b.now out.old) }
{
    number_of(given::over_two(
        a_order,
        a,
        b_order,
        b,
        out,
        VectorSurfaceDerivatives::combinatorial_derivatives_cross,
    ))
}

// The norm.
#[unsafe(no_mangle)]
pub extern "C" fn sugamdely_surface_absolute_derivatives(
    a_order: usize,
    a: &[f64],
    out: &mut [f64],
) -> u8
    ensures { ◌≡◌ {A = ℕ × List Float} (result, out.new) (over_one (input vector_surfaces) (output surfaces) a_order (by_norm vector_surfaces surfaces (λ q. q 0 0) vector_surface_norm) a_order a.now out.old) }
{
    number_of(given::over_one(
        a_order,
        a_order,
        a,
        out,
        VectorSurfaceDerivatives::absolute_derivatives,
    ))
}

// The derivative of order n of the surface a along the curve c in its parameters, which is zero at order 0.
#[unsafe(no_mangle)]
pub extern "C" fn sugamdely_vector_composite_derivative(
    a_order: usize,
    a: &[f64],
    c_order: usize,
    c: &[f64],
    n: usize,
    out: &mut [f64],
) -> u8
    ensures { ◌≡◌ {A = ℕ × List Float} (result, out.new) (over_two_at (input vector_surfaces) (input parameters) to_vector n (λ x y. vector_along_curve_at x y n) a_order a.now c_order c.now out.old) }
{
    number_of(given::over_two_at(
        n,
        a_order,
        a,
        c_order,
        c,
        out,
        |x: VectorSurfaceDerivatives, y: ParameterCurve| x.composite_derivative(y, n),
    ))
}

// The derivatives of all orders up to n, with the entry [0][0] of the surface at order 0.
#[unsafe(no_mangle)]
pub extern "C" fn sugamdely_vector_composite_derivatives(
    a_order: usize,
    a: &[f64],
    c_order: usize,
    c: &[f64],
    n: usize,
    out: &mut [f64],
) -> u8
    ensures { ◌≡◌ {A = ℕ × List Float} (result, out.new) (over_two_at (input vector_surfaces) (input parameters) (output vector_curves) n (λ x y. vector_along_curve x y n) a_order a.now c_order c.now out.old) }
{
    number_of(given::over_two_at(
        n,
        a_order,
        a,
        c_order,
        c,
        out,
        |x: VectorSurfaceDerivatives, y: ParameterCurve| x.composite_derivatives(y, n),
    ))
}
