// The loops that form the entries of a surface's jet. Each `requires` is met by the callers.
ghost use Rattle.std.specs.Prelude.{◌≡◌, suc, ◌+◌, ◌≤◌};
ghost use Rattle.calculus.specs.Kind.{regular};
ghost use Rattle.calculus.specs.InTurn.{in_turn};
ghost use Rattle.calculus.specs.Rising.{rising_rows};
ghost use Rattle.calculus.specs.Array.{surface_array};
ghost use Rattle.calculus.specs.Surface.{product, leibniz};
ghost use Rattle.calculus.specs.Rational.{surface_rational_term, surface_rational_entry};
ghost use Rattle.ieee_vectors.specs.Vectors.{positive_zero};
ghost use Rattle.formulas.specs.Real.{real};
ghost use Rattle.formulas.specs.Numbers.{surface_numbers};
ghost use Rattle.formulas.specs.Inner.{surface_formula};

use crate::terms::{index, number_at};
use crate::{coefficient, terms};
use calculus::Operation;

fn leibniz_term(a: &[f64; 231], b: &[f64; 231], m: usize, n: usize, i: usize, j: usize) -> f64
    requires { (i ≤ m) × (j ≤ n) × (m + n ≤ 20) }
    ensures { result ≡ leibniz (regular real) real.times (surface_numbers a.now) (surface_numbers b.now) m n i j }
{
    let k = terms::coefficient(m, n, i, j);
    let x = number_at(a, i, j);
    let y = number_at(b, m - i, n - j);
    x * y * k
}

// The terms of one i, j rising, added to a sum.
#[tactic(auto, using(crate::proofs::Sums::turn_none, crate::proofs::Sums::turn_more))]
fn product_row(start: f64, a: &[f64; 231], b: &[f64; 231], m: usize, n: usize, i: usize) -> f64
    requires { (i ≤ m) × (m + n ≤ 20) }
    ensures { result ≡ in_turn real.plus start (leibniz (regular real) real.times (surface_numbers a.now) (surface_numbers b.now) m n i) (suc n) }
{
    let mut sum = start;
    for j in 0..n + 1 {
        sum = sum + leibniz_term(a, b, m, n, i, j);
    }
    sum
}

#[tactic(auto, using(crate::proofs::Sums::rows_none, crate::proofs::Sums::rows_more))]
pub fn product_entry(a: &[f64; 231], b: &[f64; 231], m: usize, n: usize) -> f64
    requires { m + n ≤ 20 }
    ensures { result ≡ product real (surface_numbers a.now) (surface_numbers b.now) m n }
{
    let mut sum = 0.0f64;
    for i in 0..m + 1 {
        sum = product_row(sum, a, b, m, n, i);
    }
    sum
}

fn rational_term(w: &[f64; 231], q: &[f64; 231], m: usize, n: usize, i: usize, j: usize) -> f64
    requires { (i ≤ m) × (j ≤ n) × (m + n ≤ 20) }
    ensures { result ≡ surface_rational_term (regular real) real.over (surface_numbers w.now) (surface_numbers q.now) m n i j }
{
    let x = coefficient(m, i);
    let y = coefficient(n, j);
    let e = number_at(q, i, j);
    let d = number_at(w, m - i, n - j);
    e * (d * x * y)
}

// The terms of one i, j rising, added to a sum.
#[tactic(auto, using(crate::proofs::Sums::turn_none, crate::proofs::Sums::turn_more))]
fn rational_row(start: f64, w: &[f64; 231], q: &[f64; 231], m: usize, n: usize, i: usize) -> f64
    requires { (i ≤ m) × (m + n ≤ 20) }
    ensures { result ≡ in_turn real.plus start (surface_rational_term (regular real) real.over (surface_numbers w.now) (surface_numbers q.now) m n i) (suc n) }
{
    let mut sum = start;
    for j in 0..n + 1 {
        sum = sum + rational_term(w, q, m, n, i, j);
    }
    sum
}

// The quotient's entry [m][n], from the entries q before it.
#[tactic(auto, using(crate::proofs::Sums::rows_none, crate::proofs::Sums::rows_more))]
fn rational_entry(x: &[f64; 231], w: &[f64; 231], q: &[f64; 231], m: usize, n: usize) -> f64
    requires { m + n ≤ 20 }
    ensures { result ≡ surface_rational_entry (regular real) real.over (surface_numbers x.now) (surface_numbers w.now) (surface_numbers q.now) m n }
{
    let mut sum = 0.0f64;
    for i in 0..m + 1 {
        sum = rational_row(sum, w, q, m, n, i);
    }
    (number_at(x, m, n) - sum) / w[0]
}

fn entry(f: Operation, a: &[f64; 231], b: &[f64; 231], q: &[f64; 231], m: usize, n: usize) -> f64
    requires { m + n ≤ 20 }
    ensures { result ≡ surface_formula f (surface_numbers a.now) (surface_numbers b.now) (surface_numbers q.now) m n }
{
    match f {
        Operation::Sum => number_at(a, m, n) + number_at(b, m, n),
        Operation::Difference => number_at(a, m, n) - number_at(b, m, n),
        Operation::Product => product_entry(a, b, m, n),
        Operation::Quotient => rational_entry(a, b, q, m, n),
    }
}

// The entries up to the order n, with i rising, then j; and zeros past them.
pub fn entries(f: Operation, a: &[f64; 231], b: &[f64; 231], n: usize) -> [f64; 231]
    requires { n ≤ 20 }
    ensures { result ≡ surface_array positive_zero (rising_rows positive_zero (surface_formula f (surface_numbers a.now) (surface_numbers b.now))) n }
{
    let mut r = [0.0f64; 231];
    for i in 0..n + 1 {
        for j in 0..n + 1 - i {
            r[index(i, j)] = entry(f, a, b, &r, i, j);
        }
    }
    r
}
