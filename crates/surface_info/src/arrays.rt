// Jets of vectors in arrays: an entry stored, and products whose factors are formed on the way. An order above those that the arrays have is cut.
ghost use Rattle.std.specs.Prelude.{◌≡◌, min};
ghost use Rattle.ieee_vectors.specs.Vectors.{dot};
ghost use Rattle.calculus.specs.Kind.{regular};
ghost use Rattle.calculus.specs.Curve.{derivative, difference, product_by};
ghost use Rattle.formulas.specs.Real.{real};
ghost use Rattle.vector_formulas.specs.Vector.{vectors, vector_numbers, stored};
ghost use Rattle.surface_info.specs.SurfaceInfo.{first_only};

use ieee_vectors::Vector3;

// The array with the entry m stored, where it has that entry.
pub fn put(a: [f64; 63], m: usize, e: Vector3) -> [f64; 63]
    ensures { result ≡ stored a m e }
{
    let mut r = a;
    vector_formulas::store(&mut r, m, e);
    r
}

// Entry 0, and zeros past it.
pub fn first_only(e: Vector3) -> [f64; 63]
    ensures { result ≡ first_only e }
{
    put([0.0f64; 63], 0, e)
}

// The entry m, at most 20, of d · (a - b).
pub fn dot_difference(d: &[f64; 63], a: &[f64; 63], b: &[f64; 63], m: usize) -> f64
    ensures { result ≡ product_by (regular real) dot (vector_numbers d.now) (difference vectors (vector_numbers a.now) (vector_numbers b.now)) (min m 20) }
{
    let e = vector_formulas::difference(a, b, m);
    vector_formulas::dot(d, &e, m)
}

// The entry m, at most 19, of a' · b.
pub fn derivative_dot(a: &[f64; 63], b: &[f64; 63], m: usize) -> f64
    ensures { result ≡ product_by (regular real) dot (derivative (vector_numbers a.now)) (vector_numbers b.now) (min m 19) }
{
    let k = m.min(19);
    let d = vector_formulas::derivative(a, k);
    vector_formulas::dot(&d, b, k)
}
