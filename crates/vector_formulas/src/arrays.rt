// Arrays of vectors, three floats an entry. Each `requires` is met by the callers.
ghost use Rattle.std.specs.Prelude.{◌≡◌, ◌+◌, ◌*◌, ◌≤◌, ◌<◌, length, get_or};
ghost use Rattle.std.specs.Float.{nan};
ghost use Rattle.vector_formulas.specs.Vector.{put, vector_numbers, all_vectors_finite};

use ieee_vectors::Vector3;

// The entry k of an array.
pub fn vector_at(a: &[f64], k: usize) -> Vector3
    requires { 3 * k + 2 < length a.now }
    ensures { result ≡ vector_numbers a.now k }
{
    let i = 3 * k;
    Vector3 {
        x: a[i],
        y: a[i + 1],
        z: a[i + 2],
    }
}

// The float at i, and NaN where the array ends.
fn float_at(a: &[f64], i: usize) -> f64
    ensures { result ≡ get_or a.now i nan }
{
    if a.len() <= i {
        return 0.0 / 0.0;
    }
    a[i]
}

// The entry k, of which the array has not all three floats.
pub fn vector_at_end(a: &[f64], k: usize) -> Vector3
    requires { length a.now ≤ 3 * k + 2 }
    ensures { result ≡ vector_numbers a.now k }
{
    let none = 0.0 / 0.0;
    if a.len() <= k {
        return Vector3 {
            x: none,
            y: none,
            z: none,
        };
    }
    let i = 3 * k;
    let x = float_at(a, i);
    let y = float_at(a, i + 1);
    Vector3 { x, y, z: none }
}

// A vector is stored as the entry k.
pub fn store(a: &mut [f64], k: usize, v: Vector3)
    requires { 3 * k + 2 < length a.old }
    ensures { a.new ≡ put a.old (3 * k) v }
{
    let i = 3 * k;
    a[i] = v.x;
    a[i + 1] = v.y;
    a[i + 2] = v.z;
}

// Whether the first n vectors are finite, as their floats are.
pub fn all_finite(a: &[f64], n: usize) -> bool
    requires { 3 * n ≤ length a.now }
    ensures { result ≡ all_vectors_finite (vector_numbers a.now) n }
{
    formulas::finite_list(&a[..3 * n])
}
