// The loops that form the norm of a surface of vectors. Each `requires` is met by the callers.
ghost use Rattle.std.specs.Prelude.{◌≡◌, ◌&&◌, ◌||◌, suc, ◌+◌, ◌≤◌, eqb};
ghost use Rattle.ieee.specs.SquareRoot.{square_root};
ghost use Rattle.ieee_vectors.specs.Vectors.{dot, positive_zero};
ghost use Rattle.calculus.specs.InTurn.{in_turn};
ghost use Rattle.calculus.specs.Array.{surface_array};
ghost use Rattle.formulas.specs.Real.{real};
ghost use Rattle.calculus.specs.Norm.{others as others_of, surface_norm_entry};
ghost use Rattle.formulas.specs.Numbers.{surface_numbers};
ghost use Rattle.vector_formulas.specs.Vector.{vector_surface_numbers};
ghost use Rattle.vector_surface_formulas.specs.Formulas.{vector_surface_norm};
ghost use Rattle.vector_surface_formulas.specs.Inner.{with_other};

use crate::entries::dot_entry;
use formulas::{index, number_at, surface_coefficient};
use vector_formulas::surface_at;

// Whether [i][j] is the first or the last of the terms at [m][n].
fn at_end(m: usize, n: usize, i: usize, j: usize) -> bool
    ensures { result ≡ ((eqb i 0 && eqb j 0) || (eqb i m && eqb j n)) }
{
    (i == 0 && j == 0) || (i == m && j == n)
}

fn with_other(sum: f64, q: &[f64; 231], m: usize, n: usize, i: usize, j: usize) -> f64
    requires { (i ≤ m) × (j ≤ n) × (m + n ≤ 20) }
    ensures { result ≡ with_other (surface_numbers q.now) m n sum (i, j) }
{
    if at_end(m, n, i, j) {
        return sum;
    }
    let k = surface_coefficient(m, n, i, j);
    let x = number_at(q, i, j);
    let y = number_at(q, m - i, n - j);
    sum + x * y * k
}

// The terms of one i, j rising, added to a sum.
#[tactic(auto, using(formulas::proofs::Sums::turn_none, formulas::proofs::Sums::turn_more))]
fn others_row(start: f64, q: &[f64; 231], m: usize, n: usize, i: usize) -> f64
    requires { (i ≤ m) × (m + n ≤ 20) }
    ensures { result ≡ in_turn (with_other (surface_numbers q.now) m n) start (λ j. (i, j)) (suc n) }
{
    let mut sum = start;
    for j in 0..n + 1 {
        sum = with_other(sum, q, m, n, i, j);
    }
    sum
}

#[tactic(auto, using(formulas::proofs::Sums::rows_none, formulas::proofs::Sums::rows_more))]
fn others(q: &[f64; 231], m: usize, n: usize) -> f64
    requires { m + n ≤ 20 }
    ensures { result ≡ others_of real square_root dot (surface_numbers q.now) m n }
{
    let mut sum = 0.0f64;
    for i in 0..m + 1 {
        sum = others_row(sum, q, m, n, i);
    }
    sum
}

// The norm's entry [m][n], from the entries q before it.
fn norm_entry(s: &[f64; 693], q: &[f64; 231], m: usize, n: usize) -> f64
    requires { m + n ≤ 20 }
    ensures { result ≡ surface_norm_entry real square_root dot (vector_surface_numbers s.now) (surface_numbers q.now) m n }
{
    if m == 0 && n == 0 {
        let v = surface_at(s, 0, 0);
        return v.magnitude();
    }
    let p = dot_entry(s, s, m, n);
    let o = others(q, m, n);
    let d = number_at(q, 0, 0);
    (p - o) / (d + d)
}

// The norm's entries up to the order n, and zeros past them.
pub fn norms(s: &[f64; 693], n: usize) -> [f64; 231]
    requires { n ≤ 20 }
    ensures { result ≡ surface_array positive_zero (vector_surface_norm (vector_surface_numbers s.now)) n }
{
    let mut r = [0.0f64; 231];
    for i in 0..n + 1 {
        for j in 0..n + 1 - i {
            r[index(i, j)] = norm_entry(s, &r, i, j);
        }
    }
    r
}
