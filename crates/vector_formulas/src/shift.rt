// The derivatives of surfaces of vectors. Each `requires` is met by the callers.
ghost use Rattle.std.specs.Prelude.{◌≡◌, ◌+◌, ◌≤◌};
ghost use Rattle.vector_formulas.specs.Vector.{vector_surface_numbers, vector_surface_array};

use crate::arrays::store;
use crate::surface_at;
use formulas::index;

// The derivative p times by u and q times by v, of the order n.
pub fn shifted(a: &[f64; 693], n: usize, p: usize, q: usize) -> [f64; 693]
    requires { n + (p + q) ≤ 20 }
    ensures { result ≡ vector_surface_array (λ i j. vector_surface_numbers a.now (i + p) (j + q)) n }
{
    let mut r = [0.0f64; 693];
    for i in 0..n + 1 {
        for j in 0..n + 1 - i {
            store(&mut r, index(i, j), surface_at(a, i + p, j + q));
        }
    }
    r
}
