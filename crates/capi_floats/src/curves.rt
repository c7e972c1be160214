// Curves of floats.
ghost use Rattle.std.specs.Prelude.{◌≡◌, List, ℕ, ◌-◌, Float};
ghost use Rattle.calculus.specs.Kind.{regular};
ghost use Rattle.calculus.specs.Curve.{sum, difference, product, derivative};
ghost use Rattle.formulas.specs.Real.{real};
ghost use Rattle.calculus.specs.Rational.{rational};
ghost use Rattle.derivatives.specs.Answer.{curves, entry_at, by_division};
ghost use Rattle.calculus.specs.JetKind.{by_formula, differentiated};
ghost use Rattle.given.specs.Values.{to_float};
ghost use Rattle.given.specs.Lists.{over_two_at, over_two, over_one, output, input};

use derivatives::CurveDerivatives;
use refusals::number_of;

#[unsafe(no_mangle)]
pub extern "C" fn sugamdely_curve_sum(
    a_order: usize,
    a: &[f64],
    b_order: usize,
    b: &[f64],
    out: &mut [f64],
) -> u8
    ensures { ◌≡◌ {A = ℕ × List Float} (result, out.new) (over_two (input curves) (input curves) (output curves) (by_formula curves curves curves (sum (regular real))) a_order a.now b_order b.now out.old) }
{
    number_of(given::over_two(a_order, a, b_order, b, out, CurveDerivatives::sum))
}

#[unsafe(no_mangle)]
pub extern "C" fn sugamdely_curve_difference(
    a_order: usize,
    a: &[f64],
    b_order: usize,
    b: &[f64],
    out: &mut [f64],
) -> u8
    ensures { ◌≡◌ {A = ℕ × List Float} (result, out.new) (over_two (input curves) (input curves) (output curves) (by_formula curves curves curves (difference (regular real))) a_order a.now b_order b.now out.old) }
{
    number_of(given::over_two(a_order, a, b_order, b, out, CurveDerivatives::difference))
}

#[unsafe(no_mangle)]
pub extern "C" fn sugamdely_curve_derivative(a_order: usize, a: &[f64], out: &mut [f64]) -> u8
    ensures { ◌≡◌ {A = ℕ × List Float} (result, out.new) (over_one (input curves) (output curves) (a_order - 1) (differentiated curves derivative) a_order a.now out.old) }
{
    number_of(given::over_one(
        given::lower(a_order),
        a_order,
        a,
        out,
        CurveDerivatives::derivative,
    ))
}

// One entry of the product, of the order m.
#[unsafe(no_mangle)]
pub extern "C" fn sugamdely_curve_combinatorial_derivative(
    a_order: usize,
    a: &[f64],
    b_order: usize,
    b: &[f64],
    m: usize,
    out: &mut [f64],
) -> u8
    ensures { ◌≡◌ {A = ℕ × List Float} (result, out.new) (over_two_at (input curves) (input curves) to_float m (λ x y. entry_at curves curves (λ p q. product real p q m) x y m) a_order a.now b_order b.now out.old) }
{
    number_of(given::over_two_at(
        m,
        a_order,
        a,
        b_order,
        b,
        out,
        |x: CurveDerivatives, y: CurveDerivatives| x.combinatorial_derivative(y, m),
    ))
}

#[unsafe(no_mangle)]
pub extern "C" fn sugamdely_curve_combinatorial_derivatives(
    a_order: usize,
    a: &[f64],
    b_order: usize,
    b: &[f64],
    out: &mut [f64],
) -> u8
    ensures { ◌≡◌ {A = ℕ × List Float} (result, out.new) (over_two (input curves) (input curves) (output curves) (by_formula curves curves curves (product real)) a_order a.now b_order b.now out.old) }
{
    number_of(given::over_two(
        a_order,
        a,
        b_order,
        b,
        out,
        CurveDerivatives::combinatorial_derivatives,
    ))
}

// The quotient of the curve a by the weights w.
#[unsafe(no_mangle)]
pub extern "C" fn sugamdely_curve_rational_derivatives(
    a_order: usize,
    a: &[f64],
    w_order: usize,
    w: &[f64],
    out: &mut [f64],
) -> u8
    ensures { ◌≡◌ {A = ℕ × List Float} (result, out.new) (over_two (input curves) (input curves) (output curves) (by_division curves curves curves (λ y. y 0) (rational (regular real) real.over)) a_order a.now w_order w.now out.old) }
{
    number_of(given::over_two(
        a_order,
        a,
        w_order,
        w,
        out,
        CurveDerivatives::rational_derivatives,
    ))
}
