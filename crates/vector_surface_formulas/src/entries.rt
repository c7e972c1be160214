// The loops that form the entries of jets of surfaces of vectors. Each `requires` is met by the callers.
// Sums of vectors share their loops by the kind of term; those of floats have their own, as document 01 has separate functions for the kinds of number.
ghost use Rattle.std.specs.Prelude.{◌≡◌, suc, ◌+◌, ◌≤◌};
ghost use Rattle.ieee_vectors.specs.Vectors.{multiple, quotient, dot, cross, positive_zero};
ghost use Rattle.calculus.specs.Kind.{regular};
ghost use Rattle.calculus.specs.InTurn.{in_turn, in_rows};
ghost use Rattle.calculus.specs.Rising.{rising_rows};
ghost use Rattle.calculus.specs.Array.{surface_array};
ghost use Rattle.calculus.specs.Surface.{leibniz, product_by};
ghost use Rattle.calculus.specs.Rational.{surface_rational_term, surface_rational_entry};
ghost use Rattle.formulas.specs.Real.{real};
ghost use Rattle.formulas.specs.Numbers.{surface_numbers};
ghost use Rattle.vector_formulas.specs.Vector.{origin, vectors, vector_surface_numbers, vector_surface_array};
ghost use Rattle.vector_surface_formulas.specs.Inner.{term_by, vector_surface_formula};

use formulas::{coefficient, index, number_at, surface_coefficient};
use ieee_vectors::Vector3;
use vector_formulas::{VectorFormula, store, surface_at, zero};

fn cross_term(a: &[f64; 693], b: &[f64; 693], m: usize, n: usize, i: usize, j: usize) -> Vector3
    requires { (i ≤ m) × (j ≤ n) × (m + n ≤ 20) }
    ensures { result ≡ leibniz vectors cross (vector_surface_numbers a.now) (vector_surface_numbers b.now) m n i j }
{
    let k = surface_coefficient(m, n, i, j);
    let x = surface_at(a, i, j);
    let y = surface_at(b, m - i, n - j);
    let p = x.cross(y);
    p.mul(k)
}

fn dot_term(a: &[f64; 693], b: &[f64; 693], m: usize, n: usize, i: usize, j: usize) -> f64
    requires { (i ≤ m) × (j ≤ n) × (m + n ≤ 20) }
    ensures { result ≡ leibniz (regular real) dot (vector_surface_numbers a.now) (vector_surface_numbers b.now) m n i j }
{
    let k = surface_coefficient(m, n, i, j);
    let x = surface_at(a, i, j);
    let y = surface_at(b, m - i, n - j);
    let p = x.dot(y);
    p * k
}

fn scaled_term(a: &[f64; 693], b: &[f64; 231], m: usize, n: usize, i: usize, j: usize) -> Vector3
    requires { (i ≤ m) × (j ≤ n) × (m + n ≤ 20) }
    ensures { result ≡ leibniz vectors multiple (vector_surface_numbers a.now) (surface_numbers b.now) m n i j }
{
    let k = surface_coefficient(m, n, i, j);
    let x = surface_at(a, i, j);
    let y = number_at(b, m - i, n - j);
    let p = x.mul(y);
    p.mul(k)
}

fn rational_term(w: &[f64; 231], q: &[f64; 693], m: usize, n: usize, i: usize, j: usize) -> Vector3
    requires { (i ≤ m) × (j ≤ n) × (m + n ≤ 20) }
    ensures { result ≡ surface_rational_term vectors quotient (surface_numbers w.now) (vector_surface_numbers q.now) m n i j }
{
    let x = coefficient(m, i);
    let y = coefficient(n, j);
    let e = surface_at(q, i, j);
    let d = number_at(w, m - i, n - j);
    e.mul(d * x * y)
}

// The formulas whose entries are formed from sums of such terms: of a and b; of a and the floats w; of w and the entries b before.
// The operands go beside it: variants that hold them would be matched on in each contract, which is no plainer.
#[derive(Clone, Copy)]
pub enum Summed {
    Cross,
    Scaled,
    Rational,
}

fn term(
    f: Summed,
    a: &[f64; 693],
    b: &[f64; 693],
    w: &[f64; 231],
    m: usize,
    n: usize,
    i: usize,
    j: usize,
) -> Vector3
    requires { (i ≤ m) × (j ≤ n) × (m + n ≤ 20) }
    ensures { result ≡ term_by f (vector_surface_numbers a.now) (vector_surface_numbers b.now) (surface_numbers w.now) m n i j }
{
    match f {
        Summed::Cross => cross_term(a, b, m, n, i, j),
        Summed::Scaled => scaled_term(a, w, m, n, i, j),
        Summed::Rational => rational_term(w, b, m, n, i, j),
    }
}

// The terms of one i, j rising, added to a sum; then all of them, i rising, added to zero.
#[tactic(auto, using(formulas::proofs::Sums::turn_none, formulas::proofs::Sums::turn_more))]
fn row(
    f: Summed,
    start: Vector3,
    a: &[f64; 693],
    b: &[f64; 693],
    w: &[f64; 231],
    m: usize,
    n: usize,
    i: usize,
) -> Vector3
    requires { (i ≤ m) × (m + n ≤ 20) }
    ensures { result ≡ in_turn vectors.plus start (term_by f (vector_surface_numbers a.now) (vector_surface_numbers b.now) (surface_numbers w.now) m n i) (suc n) }
{
    let mut sum = start;
    for j in 0..n + 1 {
        sum = sum.add(term(f, a, b, w, m, n, i, j));
    }
    sum
}

#[tactic(auto, using(formulas::proofs::Sums::rows_none, formulas::proofs::Sums::rows_more))]
pub fn sum_of_terms(
    f: Summed,
    a: &[f64; 693],
    b: &[f64; 693],
    w: &[f64; 231],
    m: usize,
    n: usize,
) -> Vector3
    requires { m + n ≤ 20 }
    ensures { result ≡ in_rows vectors.plus origin (term_by f (vector_surface_numbers a.now) (vector_surface_numbers b.now) (surface_numbers w.now) m n) (suc m) (suc n) }
{
    let mut sum = zero();
    for i in 0..m + 1 {
        sum = row(f, sum, a, b, w, m, n, i);
    }
    sum
}

// The quotient's entry [m][n], from the entries q before it.
fn rational_entry(x: &[f64; 693], w: &[f64; 231], q: &[f64; 693], m: usize, n: usize) -> Vector3
    requires { m + n ≤ 20 }
    ensures { result ≡ surface_rational_entry vectors quotient (vector_surface_numbers x.now) (surface_numbers w.now) (vector_surface_numbers q.now) m n }
{
    let sum = sum_of_terms(Summed::Rational, x, q, w, m, n);
    let e = surface_at(x, m, n);
    let d = e.sub(sum);
    let s = number_at(w, 0, 0);
    d.unchecked_div(s)
}

fn entry(
    f: VectorFormula,
    a: &[f64; 693],
    b: &[f64; 693],
    w: &[f64; 231],
    q: &[f64; 693],
    m: usize,
    n: usize,
) -> Vector3
    requires { m + n ≤ 20 }
    ensures { result ≡ vector_surface_formula f (vector_surface_numbers a.now) (vector_surface_numbers b.now) (surface_numbers w.now) (vector_surface_numbers q.now) m n }
{
    match f {
        VectorFormula::Sum => {
            let x = surface_at(a, m, n);
            let y = surface_at(b, m, n);
            x.add(y)
        }
        VectorFormula::Difference => {
            let x = surface_at(a, m, n);
            let y = surface_at(b, m, n);
            x.sub(y)
        }
        VectorFormula::Cross => sum_of_terms(Summed::Cross, a, b, w, m, n),
        VectorFormula::Scaled => sum_of_terms(Summed::Scaled, a, b, w, m, n),
        VectorFormula::Rational => rational_entry(a, w, q, m, n),
    }
}

// The entries up to the order n, with i rising, then j; and zeros past them.
pub fn entries(
    f: VectorFormula,
    a: &[f64; 693],
    b: &[f64; 693],
    w: &[f64; 231],
    n: usize,
) -> [f64; 693]
    requires { n ≤ 20 }
    ensures { result ≡ vector_surface_array (rising_rows origin (vector_surface_formula f (vector_surface_numbers a.now) (vector_surface_numbers b.now) (surface_numbers w.now))) n }
{
    let mut r = [0.0f64; 693];
    for i in 0..n + 1 {
        for j in 0..n + 1 - i {
            let e = entry(f, a, b, w, &r, i, j);
            store(&mut r, index(i, j), e);
        }
    }
    r
}

// The terms of one i, j rising, added to a sum.
#[tactic(auto, using(formulas::proofs::Sums::turn_none, formulas::proofs::Sums::turn_more))]
fn dot_row(start: f64, a: &[f64; 693], b: &[f64; 693], m: usize, n: usize, i: usize) -> f64
    requires { (i ≤ m) × (m + n ≤ 20) }
    ensures { result ≡ in_turn real.plus start (leibniz (regular real) dot (vector_surface_numbers a.now) (vector_surface_numbers b.now) m n i) (suc n) }
{
    let mut sum = start;
    for j in 0..n + 1 {
        sum = sum + dot_term(a, b, m, n, i, j);
    }
    sum
}

#[tactic(auto, using(formulas::proofs::Sums::rows_none, formulas::proofs::Sums::rows_more))]
pub fn dot_entry(a: &[f64; 693], b: &[f64; 693], m: usize, n: usize) -> f64
    requires { m + n ≤ 20 }
    ensures { result ≡ product_by (regular real) dot (vector_surface_numbers a.now) (vector_surface_numbers b.now) m n }
{
    let mut sum = 0.0f64;
    for i in 0..m + 1 {
        sum = dot_row(sum, a, b, m, n, i);
    }
    sum
}

// The dot product's entries up to the order n, and zeros past them.
pub fn dots(a: &[f64; 693], b: &[f64; 693], n: usize) -> [f64; 231]
    requires { n ≤ 20 }
    ensures { result ≡ surface_array positive_zero (product_by (regular real) dot (vector_surface_numbers a.now) (vector_surface_numbers b.now)) n }
{
    let mut r = [0.0f64; 231];
    for i in 0..n + 1 {
        for j in 0..n + 1 - i {
            r[index(i, j)] = dot_entry(a, b, i, j);
        }
    }
    r
}
