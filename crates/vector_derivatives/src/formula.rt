// Which of the formulas with vectors divides, and when the norm does.
ghost use Rattle.std.specs.Prelude.{◌≡◌, ◌&&◌, ltb};
ghost use Rattle.formulas.specs.Real.{is_zero};
ghost use Rattle.vector_derivatives.specs.Inner.{vector_division_by_zero};

use vector_formulas::VectorFormula;

// Whether the formula divides by y where that is zero.
pub fn division_by_zero(f: VectorFormula, y: f64) -> bool
    ensures { result ≡ vector_division_by_zero f y }
{
    matches!(f, VectorFormula::Rational) && y == 0.0
}

// Whether the norm of the order n is divided by q, and that is zero.
pub fn norm_divides(n: usize, q: f64) -> bool
    ensures { result ≡ (ltb 0 n && is_zero q) }
{
    0 < n && q == 0.0
}
