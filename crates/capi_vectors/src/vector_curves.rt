// Curves of vectors.
ghost use Rattle.std.specs.Prelude.{◌≡◌, List, ℕ, ◌-◌, Float};
ghost use Rattle.ieee_vectors.specs.Vectors.{quotient, multiple, dot, cross};
ghost use Rattle.calculus.specs.Kind.{regular};
ghost use Rattle.calculus.specs.Curve.{sum, difference, product_by, derivative};
ghost use Rattle.formulas.specs.Real.{real};
ghost use Rattle.vector_formulas.specs.Vector.{vectors, vector_norm};
ghost use Rattle.given.specs.Values.{to_float, to_vector};
ghost use Rattle.vector_derivatives.specs.Answer.{vector_curves, vector_entry_at, by_norm};
ghost use Rattle.derivatives.specs.Answer.{curves, entry_at, by_division};
ghost use Rattle.calculus.specs.Rational.{rational};
ghost use Rattle.calculus.specs.JetKind.{by_formula, differentiated};
ghost use Rattle.given.specs.Lists.{over_two_at, over_two, over_one, output, input};

use derivatives::CurveDerivatives;
use refusals::number_of;
use vector_derivatives::VectorCurveDerivatives;

#[unsafe(no_mangle)]
pub extern "C" fn sugamdely_vector_curve_sum(
    a_order: usize,
    a: &[f64],
    b_order: usize,
    b: &[f64],
    out: &mut [f64],
) -> u8
    ensures { ◌≡◌ {A = ℕ × List Float} (result, out.new) (over_two (input vector_curves) (input vector_curves) (output vector_curves) (by_formula vector_curves vector_curves vector_curves (sum vectors)) a_order a.now b_order b.now out.old) }
{
    number_of(given::over_two(a_order, a, b_order, b, out, VectorCurveDerivatives::sum))
}

#[unsafe(no_mangle)]
pub extern "C" fn sugamdely_vector_curve_difference(
    a_order: usize,
    a: &[f64],
    b_order: usize,
    b: &[f64],
    out: &mut [f64],
) -> u8
    ensures { ◌≡◌ {A = ℕ × List Float} (result, out.new) (over_two (input vector_curves) (input vector_curves) (output vector_curves) (by_formula vector_curves vector_curves vector_curves (difference vectors)) a_order a.now b_order b.now out.old) }
{
    number_of(given::over_two(
        a_order,
        a,
        b_order,
        b,
        out,
        VectorCurveDerivatives::difference,
    ))
}

#[unsafe(no_mangle)]
pub extern "C" fn sugamdely_vector_curve_derivative(
    a_order: usize,
    a: &[f64],
    out: &mut [f64],
) -> u8
    ensures { ◌≡◌ {A = ℕ × List Float} (result, out.new) (over_one (input vector_curves) (output vector_curves) (a_order - 1) (differentiated vector_curves derivative) a_order a.now out.old) }
{
    number_of(given::over_one(
        given::lower(a_order),
        a_order,
        a,
        out,
        VectorCurveDerivatives::derivative,
    ))
}

// The quotient of the vectors a by the weights w.
#[unsafe(no_mangle)]
pub extern "C" fn sugamdely_vector_curve_rational_derivatives(
    a_order: usize,
    a: &[f64],
    w_order: usize,
    w: &[f64],
    out: &mut [f64],
) -> u8
    ensures { ◌≡◌ {A = ℕ × List Float} (result, out.new) (over_two (input vector_curves) (input curves) (output vector_curves) (by_division vector_curves curves vector_curves (λ y. y 0) (rational vectors quotient)) a_order a.now w_order w.now out.old) }
{
    number_of(given::over_two(
        a_order,
        a,
        w_order,
        w,
        out,
        VectorCurveDerivatives::rational_derivatives,
    ))
}

// One entry of the product of the vectors a by the floats b, of the order m.
#[unsafe(no_mangle)]
pub extern "C" fn sugamdely_curve_combinatorial_derivative_scaled(
    a_order: usize,
    a: &[f64],
    b_order: usize,
    b: &[f64],
    m: usize,
    out: &mut [f64],
) -> u8
    ensures { ◌≡◌ {A = ℕ × List Float} (result, out.new) (over_two_at (input vector_curves) (input curves) to_vector m (λ x y. vector_entry_at vector_curves curves (λ p q. product_by vectors multiple p q m) x y m) a_order a.now b_order b.now out.old) }
{
    number_of(given::over_two_at(
        m,
        a_order,
        a,
        b_order,
        b,
        out,
        |x: VectorCurveDerivatives, y: CurveDerivatives| x.combinatorial_derivative_scaled(y, m),
    ))
}

// Of the dot product.
#[unsafe(no_mangle)]
pub extern "C" fn sugamdely_curve_combinatorial_derivative_dot(
    a_order: usize,
    a: &[f64],
    b_order: usize,
    b: &[f64],
    m: usize,
    out: &mut [f64],
) -> u8
    ensures { ◌≡◌ {A = ℕ × List Float} (result, out.new) (over_two_at (input vector_curves) (input vector_curves) to_float m (λ x y. entry_at vector_curves vector_curves (λ p q. product_by (regular real) dot p q m) x y m) a_order a.now b_order b.now out.old) }
{
    number_of(given::over_two_at(
        m,
        a_order,
        a,
        b_order,
        b,
        out,
        |x: VectorCurveDerivatives, y: VectorCurveDerivatives| x.combinatorial_derivative_dot(y, m),
    ))
}

// Of the cross product.
#[unsafe(no_mangle)]
pub extern "C" fn sugamdely_curve_combinatorial_derivative_cross(
    a_order: usize,
    a: &[f64],
    b_order: usize,
    b: &[f64],
    m: usize,
    out: &mut [f64],
) -> u8
    ensures { ◌≡◌ {A = ℕ × List Float} (result, out.new) (over_two_at (input vector_curves) (input vector_curves) to_vector m (λ x y. vector_entry_at vector_curves vector_curves (λ p q. product_by vectors cross p q m) x y m) a_order a.now b_order b.now out.old) }
{
    number_of(given::over_two_at(
        m,
        a_order,
        a,
        b_order,
        b,
        out,
        |x: VectorCurveDerivatives, y: VectorCurveDerivatives| x.combinatorial_derivative_cross(
            y, m,
        ),
    ))
}

#[unsafe(no_mangle)]
pub extern "C" fn sugamdely_curve_combinatorial_derivatives_scaled(
    a_order: usize,
    a: &[f64],
    b_order: usize,
    b: &[f64],
    out: &mut [f64],
) -> u8
    ensures { ◌≡◌ {A = ℕ × List Float} (result, out.new) (over_two (input vector_curves) (input curves) (output vector_curves) (by_formula vector_curves curves vector_curves (product_by vectors multiple)) a_order a.now b_order b.now out.old) }
{
    number_of(given::over_two(
        a_order,
        a,
        b_order,
        b,
        out,
        VectorCurveDerivatives::combinatorial_derivatives_scaled,
    ))
}

#[unsafe(no_mangle)]
pub extern "C" fn sugamdely_curve_combinatorial_derivatives_dot(
    a_order: usize,
    a: &[f64],
    b_order: usize,
    b: &[f64],
    out: &mut [f64],
) -> u8
    ensures { ◌≡◌ {A = ℕ × List Float} (result, out.new) (over_two (input vector_curves) (input vector_curves) (output curves) (by_formula vector_curves vector_curves curves (product_by (regular real) dot)) a_order a.now b_order b.now out.old) }
{
    number_of(given::over_two(
        a_order,
        a,
        b_order,
        b,
        out,
        VectorCurveDerivatives::combinatorial_derivatives_dot,
    ))
}

#[unsafe(no_mangle)]
pub extern "C" fn sugamdely_curve_combinatorial_derivatives_cross(
    a_order: usize,
    a: &[f64],
    b_order: usize,
    b: &[f64],
    out: &mut [f64],
) -> u8
    ensures { ◌≡◌ {A = ℕ × List Float} (result, out.new) (over_two (input vector_curves) (input vector_curves) (output vector_curves) (by_formula vector_curves vector_curves vector_curves (product_by vectors cross)) a_order a.now b_order b.now out.old) }
{
    number_of(given::over_two(
        a_order,
        a,
        b_order,
        b,
        out,
        VectorCurveDerivatives::combinatorial_derivatives_cross,
    ))
}

// The norm.
#[unsafe(no_mangle)]
pub extern "C" fn sugamdely_curve_absolute_derivatives(
    a_order: usize,
    a: &[f64],
    out: &mut [f64],
) -> u8
    ensures { ◌≡◌ {A = ℕ × List Float} (result, out.new) (over_one (input vector_curves) (output curves) a_order (by_norm vector_curves curves (λ q. q 0) vector_norm) a_order a.now out.old) }
{
    number_of(given::over_one(
        a_order,
        a_order,
        a,
        out,
        VectorCurveDerivatives::absolute_derivatives,
    ))
}
