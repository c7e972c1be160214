// The loops that form the entries of jets of vectors. Each `requires` is met by the callers.
// A sum for each kind of term and of number, not one over a closure: document 01 has separate functions.
ghost use Rattle.std.specs.Prelude.{◌≡◌, suc, ◌+◌, ◌≤◌, ◌<◌};
ghost use Rattle.ieee.specs.SquareRoot.{square_root};
ghost use Rattle.ieee_vectors.specs.Vectors.{multiple, quotient, dot, cross, positive_zero};
ghost use Rattle.calculus.specs.Kind.{regular};
ghost use Rattle.calculus.specs.InTurn.{in_turn};
ghost use Rattle.calculus.specs.Rising.{rising};
ghost use Rattle.calculus.specs.Array.{curve_array};
ghost use Rattle.calculus.specs.Curve.{leibniz, product_by, derivative};
ghost use Rattle.calculus.specs.Rational.{rational_term, rational_entry};
ghost use Rattle.calculus.specs.Norm.{norm_term, norm_entry};
ghost use Rattle.formulas.specs.Real.{real};
ghost use Rattle.formulas.specs.Numbers.{curve_numbers};
ghost use Rattle.vector_formulas.specs.Vector.{origin, vectors, vector_numbers, vector_array};
ghost use Rattle.vector_formulas.specs.Inner.{vector_formula, number_formula};

use crate::arrays::{store, vector_at};
use crate::{VectorFormula, zero};
use formulas::coefficient;
use ieee_vectors::Vector3;

fn scaled_term(a: &[f64; 63], b: &[f64; 21], m: usize, i: usize) -> Vector3
    requires { (i ≤ m) × (m ≤ 20) }
    ensures { result ≡ leibniz vectors multiple (vector_numbers a.now) (curve_numbers b.now) m i }
{
    let k = coefficient(m, i);
    let x = vector_at(a, i);
    let y = b[m - i];
    let p = x.mul(y);
    p.mul(k)
}

#[tactic(auto, using(formulas::proofs::Sums::turn_none, formulas::proofs::Sums::turn_more))]
pub fn scaled_entry(a: &[f64; 63], b: &[f64; 21], m: usize) -> Vector3
    requires { m ≤ 20 }
    ensures { result ≡ product_by vectors multiple (vector_numbers a.now) (curve_numbers b.now) m }
{
    let mut sum = zero();
    for i in 0..m + 1 {
        sum = sum.add(scaled_term(a, b, m, i));
    }
    sum
}

fn cross_term(a: &[f64; 63], b: &[f64; 63], m: usize, i: usize) -> Vector3
    requires { (i ≤ m) × (m ≤ 20) }
    ensures { result ≡ leibniz vectors cross (vector_numbers a.now) (vector_numbers b.now) m i }
{
    let k = coefficient(m, i);
    let x = vector_at(a, i);
    let y = vector_at(b, m - i);
    let p = x.cross(y);
    p.mul(k)
}

#[tactic(auto, using(formulas::proofs::Sums::turn_none, formulas::proofs::Sums::turn_more))]
pub fn cross_entry(a: &[f64; 63], b: &[f64; 63], m: usize) -> Vector3
    requires { m ≤ 20 }
    ensures { result ≡ product_by vectors cross (vector_numbers a.now) (vector_numbers b.now) m }
{
    let mut sum = zero();
    for i in 0..m + 1 {
        sum = sum.add(cross_term(a, b, m, i));
    }
    sum
}

fn dot_term(a: &[f64; 63], b: &[f64; 63], m: usize, i: usize) -> f64
    requires { (i ≤ m) × (m ≤ 20) }
    ensures { result ≡ leibniz (regular real) dot (vector_numbers a.now) (vector_numbers b.now) m i }
{
    let k = coefficient(m, i);
    let x = vector_at(a, i);
    let y = vector_at(b, m - i);
    let p = x.dot(y);
    p * k
}

#[tactic(auto, using(formulas::proofs::Sums::turn_none, formulas::proofs::Sums::turn_more))]
pub fn dot_entry(a: &[f64; 63], b: &[f64; 63], m: usize) -> f64
    requires { m ≤ 20 }
    ensures { result ≡ product_by (regular real) dot (vector_numbers a.now) (vector_numbers b.now) m }
{
    let mut sum = 0.0f64;
    for i in 0..m + 1 {
        sum = sum + dot_term(a, b, m, i);
    }
    sum
}

fn rational_term(w: &[f64; 21], q: &[f64; 63], m: usize, i: usize) -> Vector3
    requires { (i ≤ m) × (m ≤ 20) }
    ensures { result ≡ rational_term vectors quotient (curve_numbers w.now) (vector_numbers q.now) m i }
{
    let k = coefficient(m, i);
    let x = vector_at(q, i);
    let y = w[m - i] * k;
    x.mul(y)
}

// The quotient's entry m, from the entries q before it.
fn rational_entry(x: &[f64; 63], w: &[f64; 21], q: &[f64; 63], m: usize) -> Vector3
    requires { m ≤ 20 }
    ensures { result ≡ rational_entry vectors quotient (vector_numbers x.now) (curve_numbers w.now) (vector_numbers q.now) m }
{
    let first = vector_at(q, 0);
    let mut sum = first.mul(w[m]);
    for i in 1..m {
        sum = sum.add(rational_term(w, q, m, i));
    }
    let e = vector_at(x, m);
    let d = e.sub(sum);
    d.unchecked_div(w[0])
}

// The i-th term of the norm's entry m + 1.
fn norm_term(s: &[f64; 63], q: &[f64; 21], m: usize, i: usize) -> f64
    requires { (i ≤ m) × (m < 20) }
    ensures { result ≡ norm_term real square_root dot (vector_numbers s.now) (curve_numbers q.now) m i }
{
    let k = coefficient(m, i);
    let x = vector_at(s, i + 1);
    let y = vector_at(s, m - i);
    let p = x.dot(y);
    (p - q[i + 1] * q[m - i]) * k
}

#[tactic(auto, using(formulas::proofs::Sums::turn_none, formulas::proofs::Sums::turn_more))]
fn norm_sum(s: &[f64; 63], q: &[f64; 21], m: usize) -> f64
    requires { m < 20 }
    ensures { result ≡ in_turn real.plus positive_zero (norm_term real square_root dot (vector_numbers s.now) (curve_numbers q.now) m) (suc m) }
{
    let mut sum = 0.0f64;
    for i in 0..m + 1 {
        sum = sum + norm_term(s, q, m, i);
    }
    sum
}

// The norm's entry m, from the entries q before it.
fn norm_entry(s: &[f64; 63], q: &[f64; 21], m: usize) -> f64
    requires { m ≤ 20 }
    ensures { result ≡ norm_entry real square_root dot (vector_numbers s.now) (curve_numbers q.now) m }
{
    if m == 0 {
        let v = vector_at(s, 0);
        return v.magnitude();
    }
    let sum = norm_sum(s, q, m - 1);
    sum / q[0]
}

// A formula with floats for its entries: of two jets of vectors, or of one.
#[derive(Clone, Copy)]
pub enum NumberFormula {
    Dot,
    Norm,
}

fn entry(
    f: VectorFormula,
    a: &[f64; 63],
    b: &[f64; 63],
    w: &[f64; 21],
    q: &[f64; 63],
    m: usize,
) -> Vector3
    requires { m ≤ 20 }
    ensures { result ≡ vector_formula f (vector_numbers a.now) (vector_numbers b.now) (curve_numbers w.now) (vector_numbers q.now) m }
{
    match f {
        VectorFormula::Sum => {
            let x = vector_at(a, m);
            let y = vector_at(b, m);
            x.add(y)
        }
        VectorFormula::Difference => {
            let x = vector_at(a, m);
            let y = vector_at(b, m);
            x.sub(y)
        }
        VectorFormula::Cross => cross_entry(a, b, m),
        VectorFormula::Scaled => scaled_entry(a, w, m),
        VectorFormula::Rational => rational_entry(a, w, q, m),
    }
}

fn number(f: NumberFormula, a: &[f64; 63], b: &[f64; 63], q: &[f64; 21], m: usize) -> f64
    requires { m ≤ 20 }
    ensures { result ≡ number_formula f (vector_numbers a.now) (vector_numbers b.now) (curve_numbers q.now) m }
{
    match f {
        NumberFormula::Dot => dot_entry(a, b, m),
        NumberFormula::Norm => norm_entry(a, q, m),
    }
}

// The entries up to the order n, and zeros past them.
pub fn entries(f: VectorFormula, a: &[f64; 63], b: &[f64; 63], w: &[f64; 21], n: usize) -> [f64; 63]
    requires { n ≤ 20 }
    ensures { result ≡ vector_array (rising origin (vector_formula f (vector_numbers a.now) (vector_numbers b.now) (curve_numbers w.now))) n }
{
    let mut r = [0.0f64; 63];
    for m in 0..n + 1 {
        let e = entry(f, a, b, w, &r, m);
        store(&mut r, m, e);
    }
    r
}

pub fn numbers(f: NumberFormula, a: &[f64; 63], b: &[f64; 63], n: usize) -> [f64; 21]
    requires { n ≤ 20 }
    ensures { result ≡ curve_array positive_zero (rising positive_zero (number_formula f (vector_numbers a.now) (vector_numbers b.now))) n }
{
    let mut r = [0.0f64; 21];
    for m in 0..n + 1 {
        r[m] = number(f, a, b, &r, m);
    }
    r
}

// The entries up to the order n of a list, with NaN where it ends: a list may be too short to be copied from.
pub fn read(list: &[f64], n: usize) -> [f64; 63]
    requires { n ≤ 20 }
    ensures { result ≡ vector_array (vector_numbers list.now) n }
{
    let mut r = [0.0f64; 63];
    for m in 0..n + 1 {
        store(&mut r, m, crate::vector_at(list, m));
    }
    r
}

// The entries of the orders 0 to n, and those of the orders 1 to n + 1.
pub fn cut(a: &[f64; 63], n: usize) -> [f64; 63]
    requires { n ≤ 20 }
    ensures { result ≡ vector_array (vector_numbers a.now) n }
{
    let mut r = [0.0f64; 63];
    r[..3 * n + 3].copy_from_slice(&a[..3 * n + 3]);
    r
}

pub fn shifted(a: &[f64; 63], n: usize) -> [f64; 63]
    requires { n < 20 }
    ensures { result ≡ vector_array (derivative (vector_numbers a.now)) n }
{
    let mut r = [0.0f64; 63];
    r[..3 * n + 3].copy_from_slice(&a[3..3 * n + 6]);
    r
}
