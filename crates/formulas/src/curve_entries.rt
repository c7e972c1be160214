// The loops that form the entries of a curve's jet. Each `requires` is met by the callers.
// A sum for each kind of term, not one over a closure: document 01 has separate functions, and so in surface_entries.
ghost use Rattle.std.specs.Prelude.{◌≡◌, ◌≤◌, ◌<◌};
ghost use Rattle.calculus.specs.Kind.{regular};
ghost use Rattle.calculus.specs.Rising.{rising};
ghost use Rattle.calculus.specs.Array.{curve_array};
ghost use Rattle.calculus.specs.Curve.{product, leibniz, derivative as derivative_of};
ghost use Rattle.calculus.specs.Rational.{rational_term, rational_entry};
ghost use Rattle.ieee_vectors.specs.Vectors.{positive_zero};
ghost use Rattle.formulas.specs.Real.{real};
ghost use Rattle.formulas.specs.Numbers.{curve_numbers};
ghost use Rattle.formulas.specs.Inner.{curve_formula};

use crate::coefficient;
use calculus::Operation;

fn leibniz_term(a: &[f64; 21], b: &[f64; 21], m: usize, i: usize) -> f64
    requires { (i ≤ m) × (m ≤ 20) }
    ensures { result ≡ leibniz (regular real) real.times (curve_numbers a.now) (curve_numbers b.now) m i }
{
    let k = coefficient(m, i);
    a[i] * b[m - i] * k
}

#[tactic(auto, using(crate::proofs::Sums::turn_none, crate::proofs::Sums::turn_more))]
pub fn product_entry(a: &[f64; 21], b: &[f64; 21], m: usize) -> f64
    requires { m ≤ 20 }
    ensures { result ≡ product real (curve_numbers a.now) (curve_numbers b.now) m }
{
    let mut sum = 0.0f64;
    for i in 0..m + 1 {
        sum = sum + leibniz_term(a, b, m, i);
    }
    sum
}

fn rational_term(w: &[f64; 21], q: &[f64; 21], m: usize, i: usize) -> f64
    requires { (i ≤ m) × (m ≤ 20) }
    ensures { result ≡ rational_term (regular real) real.over (curve_numbers w.now) (curve_numbers q.now) m i }
{
    let k = coefficient(m, i);
    q[i] * (w[m - i] * k)
}

// The quotient's entry m, from the entries q before it.
#[tactic(auto, using(crate::proofs::Sums::turn_none, crate::proofs::Sums::turn_more))]
fn rational_entry(x: &[f64; 21], w: &[f64; 21], q: &[f64; 21], m: usize) -> f64
    requires { m ≤ 20 }
    ensures { result ≡ rational_entry (regular real) real.over (curve_numbers x.now) (curve_numbers w.now) (curve_numbers q.now) m }
{
    let mut sum = q[0] * w[m];
    for i in 1..m {
        sum = sum + rational_term(w, q, m, i);
    }
    (x[m] - sum) / w[0]
}

fn entry(f: Operation, a: &[f64; 21], b: &[f64; 21], q: &[f64; 21], m: usize) -> f64
    requires { m ≤ 20 }
    ensures { result ≡ curve_formula f (curve_numbers a.now) (curve_numbers b.now) (curve_numbers q.now) m }
{
    match f {
        Operation::Sum => a[m] + b[m],
        Operation::Difference => a[m] - b[m],
        Operation::Product => product_entry(a, b, m),
        Operation::Quotient => rational_entry(a, b, q, m),
    }
}

// The entries up to the order n, and zeros past them.
pub fn entries(f: Operation, a: &[f64; 21], b: &[f64; 21], n: usize) -> [f64; 21]
    requires { n ≤ 20 }
    ensures { result ≡ curve_array positive_zero (rising positive_zero (curve_formula f (curve_numbers a.now) (curve_numbers b.now))) n }
{
    let mut r = [0.0f64; 21];
    for m in 0..n + 1 {
        r[m] = entry(f, a, b, &r, m);
    }
    r
}

// The entries of the orders 1 to n + 1.
pub fn shifted(a: &[f64; 21], n: usize) -> [f64; 21]
    requires { n < 20 }
    ensures { result ≡ curve_array positive_zero (derivative_of (curve_numbers a.now)) n }
{
    let mut r = [0.0f64; 21];
    r[..n + 1].copy_from_slice(&a[1..n + 2]);
    r
}
