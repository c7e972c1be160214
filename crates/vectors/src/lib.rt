// Single floats, vectors and matrices as a tool maker calls their operations: a value, or a refusal. 5: an input is not finite; 6: a determinant
// equals zero; 7: a division by zero is due; 10: a returned float is not finite. The types are those of `ieee_vectors`.
#![tactic(auto)]

ghost use Rattle.std.specs.Prelude.{◌≡◌, ◌&&◌};
ghost use Rattle.std.specs.Float.Ieee.Scale.{finite};
ghost use Rattle.refusals.specs.declared.Refusal.TheVariants.{ZeroDeterminant};
ghost use Rattle.ieee_vectors.specs.Vectors.{sum, difference, multiple, dot, cross, magnitude};
ghost use Rattle.ieee_vectors.specs.Matrices.{determinant2, determinant3, image2, image3};
ghost use Rattle.ieee_vectors.specs.Finite.{finite_vector2, finite_vector, finite_matrix2, finite_matrix3};
ghost use Rattle.vectors.specs.Answers.{answered, answered_from, divided_from, real_from, root_answer, vector2_from, vector_from, quotient_from, inverse_answer2, inverse_answer3};

pub use ieee_vectors::{Finite, Matrix2, Matrix3, Vector2, Vector3};
use refusals::Refusal;

// What is to be returned: 10 where it is not finite.
pub fn returned<T: Finite>(y: T) -> Result<T, Refusal>
    ensures { result ≡ answered T.finite y }
{
    if y.is_finite() {
        return Ok(y);
    }
    Err(Refusal::AnswerNotFinite)
}

// From inputs that are all finite, or not: 5 where they are not.
pub fn from_inputs<T: Finite>(inputs: bool, y: T) -> Result<T, Refusal>
    ensures { result ≡ answered_from T.finite inputs y }
{
    if inputs {
        return returned(y);
    }
    Err(Refusal::InputNotFinite)
}

// What was divided: the refusal r where the divisor d is zero.
fn divided<T: Finite>(inputs: bool, d: f64, r: Refusal, y: T) -> Result<T, Refusal>
    ensures { result ≡ divided_from T.finite inputs d r y }
{
    if !inputs {
        return Err(Refusal::InputNotFinite);
    }
    if d == 0.0 {
        return Err(r);
    }
    returned(y)
}

// The inverse y of the matrix m, whose determinant is d.
fn inverted<M: Finite>(m: M, d: f64, y: M) -> Result<M, Refusal>
    ensures { result ≡ divided_from M.finite (M.finite m) d ZeroDeterminant y }
{
    divided(m.is_finite(), d, Refusal::ZeroDeterminant, y)
}

// The root, or a refusal.
pub fn square_root(x: f64) -> Result<f64, Refusal>
    ensures { result ≡ root_answer x }
{
    from_inputs(ieee::is_finite(x), ieee::unchecked_sqrt(x))
}

pub fn vector_sum(a: Vector3, b: Vector3) -> Result<Vector3, Refusal>
    ensures { result ≡ vector_from (finite_vector a && finite_vector b) (sum a b) }
{
    from_inputs(a.is_finite() && b.is_finite(), a.add(b))
}

pub fn vector_difference(a: Vector3, b: Vector3) -> Result<Vector3, Refusal>
    ensures { result ≡ vector_from (finite_vector a && finite_vector b) (difference a b) }
{
    from_inputs(a.is_finite() && b.is_finite(), a.sub(b))
}

pub fn vector_multiple(a: Vector3, s: f64) -> Result<Vector3, Refusal>
    ensures { result ≡ vector_from (finite_vector a && finite s) (multiple a s) }
{
    from_inputs(a.is_finite() && ieee::is_finite(s), a.mul(s))
}

pub fn vector_quotient(a: Vector3, s: f64) -> Result<Vector3, Refusal>
    ensures { result ≡ quotient_from (finite_vector a && finite s) a s }
{
    let inputs = a.is_finite() && ieee::is_finite(s);
    divided(inputs, s, Refusal::DivisionByZero, a.unchecked_div(s))
}

pub fn vector_cross(a: Vector3, b: Vector3) -> Result<Vector3, Refusal>
    ensures { result ≡ vector_from (finite_vector a && finite_vector b) (cross a b) }
{
    from_inputs(a.is_finite() && b.is_finite(), a.cross(b))
}

pub fn vector_dot(a: Vector3, b: Vector3) -> Result<f64, Refusal>
    ensures { result ≡ real_from (finite_vector a && finite_vector b) (dot a b) }
{
    from_inputs(a.is_finite() && b.is_finite(), a.dot(b))
}

pub fn vector_magnitude(a: Vector3) -> Result<f64, Refusal>
    ensures { result ≡ real_from (finite_vector a) (magnitude a) }
{
    from_inputs(a.is_finite(), a.magnitude())
}

pub fn matrix2_determinant(m: Matrix2) -> Result<f64, Refusal>
    ensures { result ≡ real_from (finite_matrix2 m) (determinant2 m) }
{
    from_inputs(m.is_finite(), m.determinant())
}

pub fn matrix3_determinant(m: Matrix3) -> Result<f64, Refusal>
    ensures { result ≡ real_from (finite_matrix3 m) (determinant3 m) }
{
    from_inputs(m.is_finite(), m.determinant())
}

pub fn matrix2_image(m: Matrix2, v: Vector2) -> Result<Vector2, Refusal>
    ensures { result ≡ vector2_from (finite_matrix2 m && finite_vector2 v) (image2 m v) }
{
    from_inputs(m.is_finite() && v.is_finite(), m.image(v))
}

pub fn matrix3_image(m: Matrix3, v: Vector3) -> Result<Vector3, Refusal>
    ensures { result ≡ vector_from (finite_matrix3 m && finite_vector v) (image3 m v) }
{
    from_inputs(m.is_finite() && v.is_finite(), m.image(v))
}

pub fn matrix2_inverse(m: Matrix2) -> Result<Matrix2, Refusal>
    ensures { result ≡ inverse_answer2 m }
{
    inverted(m, m.determinant(), m.unchecked_inverse())
}

pub fn matrix3_inverse(m: Matrix3) -> Result<Matrix3, Refusal>
    ensures { result ≡ inverse_answer3 m }
{
    inverted(m, m.determinant(), m.unchecked_inverse())
}
