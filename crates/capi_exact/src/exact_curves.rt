// Exact jets of curves, as lists.
ghost use Rattle.std.specs.Prelude.{◌≡◌, List, ℕ, ◌-◌, ℤ};
ghost use Rattle.calculus.specs.Kind.{regular};
ghost use Rattle.calculus.specs.Curve.{sum as sums, difference as differences, product, quotient as quotients, derivative};
ghost use Rattle.exact_formulas.specs.Kinds.{checked};
ghost use Rattle.exact.specs.Answer.{curves, on_curves, on_curves_at};
ghost use Rattle.given.specs.Values.{to_whole};
ghost use Rattle.given.specs.Lists.{over_two_at, over_two, over_one, output, input};
ghost use Rattle.calculus.specs.JetKind.{differentiated};

use exact::CurveDerivatives;
use refusals::number_of;

#[unsafe(no_mangle)]
pub extern "C" fn sugamdely_exact_curve_sum(
    a_order: usize,
    a: &[i64],
    b_order: usize,
    b: &[i64],
    out: &mut [i64],
) -> u8
    ensures { ◌≡◌ {A = ℕ × List ℤ} (result, out.new) (over_two (input curves) (input curves) (output curves) (on_curves (sums (regular checked))) a_order a.now b_order b.now out.old) }
{
    number_of(given::over_two(a_order, a, b_order, b, out, CurveDerivatives::sum))
}

#[unsafe(no_mangle)]
pub extern "C" fn sugamdely_exact_curve_difference(
    a_order: usize,
    a: &[i64],
    b_order: usize,
    b: &[i64],
    out: &mut [i64],
) -> u8
    ensures { ◌≡◌ {A = ℕ × List ℤ} (result, out.new) (over_two (input curves) (input curves) (output curves) (on_curves (differences (regular checked))) a_order a.now b_order b.now out.old) }
{
    number_of(given::over_two(a_order, a, b_order, b, out, CurveDerivatives::difference))
}

#[unsafe(no_mangle)]
pub extern "C" fn sugamdely_exact_curve_derivative(a_order: usize, a: &[i64], out: &mut [i64]) -> u8
    ensures { ◌≡◌ {A = ℕ × List ℤ} (result, out.new) (over_one (input curves) (output curves) (a_order - 1) (differentiated curves derivative) a_order a.now out.old) }
{
    let k = given::lower(a_order);
    number_of(given::over_one(k, a_order, a, out, CurveDerivatives::derivative))
}

// One entry of the product, of the order m.
#[unsafe(no_mangle)]
pub extern "C" fn sugamdely_exact_curve_combinatorial_derivative(
    a_order: usize,
    a: &[i64],
    b_order: usize,
    b: &[i64],
    m: usize,
    out: &mut [i64],
) -> u8
    ensures { ◌≡◌ {A = ℕ × List ℤ} (result, out.new) (over_two_at (input curves) (input curves) to_whole m (λ x y. on_curves_at (product checked) x y m) a_order a.now b_order b.now out.old) }
{
    number_of(given::over_two_at(
        m,
        a_order,
        a,
        b_order,
        b,
        out,
        |x: CurveDerivatives, y: CurveDerivatives| x.combinatorial_derivative(y, m),
    ))
}

#[unsafe(no_mangle)]
pub extern "C" fn sugamdely_exact_curve_combinatorial_derivatives(
    a_order: usize,
    a: &[i64],
    b_order: usize,
    b: &[i64],
    out: &mut [i64],
) -> u8
    ensures { ◌≡◌ {A = ℕ × List ℤ} (result, out.new) (over_two (input curves) (input curves) (output curves) (on_curves (product checked)) a_order a.now b_order b.now out.old) }
{
    number_of(given::over_two(
        a_order,
        a,
        b_order,
        b,
        out,
        CurveDerivatives::combinatorial_derivatives,
    ))
}

#[unsafe(no_mangle)]
pub extern "C" fn sugamdely_exact_curve_quotient(
    a_order: usize,
    a: &[i64],
    b_order: usize,
    b: &[i64],
    out: &mut [i64],
) -> u8
    ensures { ◌≡◌ {A = ℕ × List ℤ} (result, out.new) (over_two (input curves) (input curves) (output curves) (on_curves (quotients checked)) a_order a.now b_order b.now out.old) }
{
    number_of(given::over_two(a_order, a, b_order, b, out, CurveDerivatives::quotient))
}
