// Single values as lists: a whole number, a count, a float, vectors and matrices. A float past a list's end is NaN: the functions over lists test the lengths first.
ghost use Rattle.std.specs.Prelude.{◌≡◌, ℕ, List, ◌+◌, get_or, Float};
ghost use Rattle.std.specs.Float.{nan};
ghost use Rattle.refusals.specs.Number.{number_of};
ghost use Rattle.given.specs.Values.{written, vector_at, a_vector2, a_vector, a_matrix2, a_matrix3, to_whole, to_count, to_float, to_vector2, to_vector, to_matrix2, to_matrix3};

use crate::{Lent, Listed, count};
use ieee_vectors::{Matrix2, Matrix3, Vector2, Vector3};
use refusals::Refusal;

// The float that stands j after i.
pub fn float_at(list: &[f64], i: usize, j: usize) -> f64
    ensures { result ≡ get_or list.now (i + j) nan }
{
    if list.len() <= i || list.len() - i <= j {
        return 0.0 / 0.0;
    }
    list[i + j]
}

// The vector whose three floats stand from i on.
pub fn vector_at(list: &[f64], i: usize) -> Vector3
    ensures { result ≡ vector_at list.now i }
{
    Vector3 {
        x: float_at(list, i, 0),
        y: float_at(list, i, 1),
        z: float_at(list, i, 2),
    }
}

// Numbers go into a list of just so many.
fn written<T: Copy>(numbers: &[T], out: &mut [T]) -> Result<(), Refusal>
    ensures { ◌≡◌ {A = ℕ × List T} (number_of result, out.new) (written numbers.now out.old) }
{
    if out.len() != numbers.len() {
        return Err(Refusal::Shape);
    }
    out.copy_from_slice(numbers);
    Ok(())
}

impl Listed<f64> for Vector2 {
    ghost input = { a_vector2 };

    fn test(_order: usize, length: usize) -> Result<(), Refusal> {
        count(2, length)
    }

    fn read(_order: usize, list: &[f64]) -> Vector2 {
        Vector2 {
            x: float_at(list, 0, 0),
            y: float_at(list, 0, 1),
        }
    }
}

impl Listed<f64> for Vector3 {
    ghost input = { a_vector };

    fn test(_order: usize, length: usize) -> Result<(), Refusal> {
        count(3, length)
    }

    fn read(_order: usize, list: &[f64]) -> Vector3 {
        vector_at(list, 0)
    }
}

impl Listed<f64> for Matrix2 {
    ghost input = { a_matrix2 };

    fn test(_order: usize, length: usize) -> Result<(), Refusal> {
        count(4, length)
    }

    fn read(_order: usize, list: &[f64]) -> Matrix2 {
        Matrix2 {
            a: float_at(list, 0, 0),
            b: float_at(list, 0, 1),
            c: float_at(list, 0, 2),
            d: float_at(list, 0, 3),
        }
    }
}

impl Listed<f64> for Matrix3 {
    ghost input = { a_matrix3 };

    fn test(_order: usize, length: usize) -> Result<(), Refusal> {
        count(9, length)
    }

    fn read(_order: usize, list: &[f64]) -> Matrix3 {
        Matrix3 {
            c0: vector_at(list, 0),
            c1: vector_at(list, 3),
            c2: vector_at(list, 6),
        }
    }
}

impl Lent<i64> for i64 {
    ghost output = { to_whole };

    fn due(_order: usize, length: usize) -> Result<(), Refusal> {
        count(1, length)
    }

    fn write(answer: Result<i64, Refusal>, out: &mut [i64]) -> Result<(), Refusal>
        ensures number { number_of result ≡ (to_whole.deliver answer out.old).0 }
        ensures list { out.new ≡ (to_whole.deliver answer out.old).1 }
    {
        let z = answer?;
        written(&[z], out)
    }
}

impl Lent<u64> for u64 {
    ghost output = { to_count };

    fn due(_order: usize, length: usize) -> Result<(), Refusal> {
        count(1, length)
    }

    fn write(answer: Result<u64, Refusal>, out: &mut [u64]) -> Result<(), Refusal>
        ensures number { number_of result ≡ (to_count.deliver answer out.old).0 }
        ensures list { out.new ≡ (to_count.deliver answer out.old).1 }
    {
        let n = answer?;
        written(&[n], out)
    }
}

impl Lent<f64> for f64 {
    ghost output = { to_float };

    fn due(_order: usize, length: usize) -> Result<(), Refusal> {
        count(1, length)
    }

    fn write(answer: Result<f64, Refusal>, out: &mut [f64]) -> Result<(), Refusal>
        ensures number { number_of result ≡ (to_float.deliver answer out.old).0 }
        ensures list { out.new ≡ (to_float.deliver answer out.old).1 }
    {
        let x = answer?;
        written(&[x], out)
    }
}

impl Lent<f64> for Vector2 {
    ghost output = { to_vector2 };

    fn due(_order: usize, length: usize) -> Result<(), Refusal> {
        count(2, length)
    }

    fn write(answer: Result<Vector2, Refusal>, out: &mut [f64]) -> Result<(), Refusal>
        ensures number { number_of result ≡ (to_vector2.deliver answer out.old).0 }
        ensures list { out.new ≡ (to_vector2.deliver answer out.old).1 }
    {
        let v = answer?;
        written(&[v.x, v.y], out)
    }
}

impl Lent<f64> for Vector3 {
    ghost output = { to_vector };

    fn due(_order: usize, length: usize) -> Result<(), Refusal> {
        count(3, length)
    }

    fn write(answer: Result<Vector3, Refusal>, out: &mut [f64]) -> Result<(), Refusal>
        ensures number { number_of result ≡ (to_vector.deliver answer out.old).0 }
        ensures list { out.new ≡ (to_vector.deliver answer out.old).1 }
    {
        let v = answer?;
        written(&[v.x, v.y, v.z], out)
    }
}

impl Lent<f64> for Matrix2 {
    ghost output = { to_matrix2 };

    fn due(_order: usize, length: usize) -> Result<(), Refusal> {
        count(4, length)
    }

    fn write(answer: Result<Matrix2, Refusal>, out: &mut [f64]) -> Result<(), Refusal>
        ensures number { number_of result ≡ (to_matrix2.deliver answer out.old).0 }
        ensures list { out.new ≡ (to_matrix2.deliver answer out.old).1 }
    {
        let m = answer?;
        written(&[m.a, m.b, m.c, m.d], out)
    }
}

impl Lent<f64> for Matrix3 {
    ghost output = { to_matrix3 };

    fn due(_order: usize, length: usize) -> Result<(), Refusal> {
        count(9, length)
    }

    fn write(answer: Result<Matrix3, Refusal>, out: &mut [f64]) -> Result<(), Refusal>
        ensures number { number_of result ≡ (to_matrix3.deliver answer out.old).0 }
        ensures list { out.new ≡ (to_matrix3.deliver answer out.old).1 }
    {
        let m = answer?;
        let (x, y, z) = (m.c0, m.c1, m.c2);
        written(&[x.x, x.y, x.z, y.x, y.y, y.z, z.x, z.y, z.z], out)
    }
}
