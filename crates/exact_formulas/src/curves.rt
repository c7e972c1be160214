// The formulas on curves.
ghost use Rattle.std.specs.Prelude.{◌≡◌, ◌≤◌};
ghost use Rattle.calculus.specs.Kind.{regular};
ghost use Rattle.calculus.specs.Rising.{rising};
ghost use Rattle.calculus.specs.Curve.{product, leibniz, dividend as dividend_of, quotient_entry};
ghost use Rattle.exact_formulas.specs.Kinds.{checked};
ghost use Rattle.exact_formulas.specs.Entries.{curve_values, formed_curve};
ghost use Rattle.exact_formulas.specs.Inner.{curve_formula};

use calculus::Operation;
use refusals::Refusal;

// The i-th term of Leibniz's rule at the order m.
fn leibniz_term(a: &[i64; 21], b: &[i64; 21], m: usize, i: usize) -> Result<i64, Refusal>
    requires { (i ≤ m) × (m ≤ 20) }
    ensures { result ≡ leibniz (regular checked) checked.times (curve_values a.now) (curve_values b.now) m i }
{
    crate::term(a[i], b[m - i], calculus::choose(m, i))
}

pub fn product_entry(a: &[i64; 21], b: &[i64; 21], m: usize) -> Result<i64, Refusal>
    requires { m ≤ 20 }
    ensures { result ≡ product checked (curve_values a.now) (curve_values b.now) m }
{
    let mut sum = 0;
    for i in 0..m + 1 {
        sum = whole::add(sum, leibniz_term(a, b, m, i)?)?;
    }
    Ok(sum)
}

// What is left of num[m] for d[0] · q[m].
fn dividend(num: &[i64; 21], d: &[i64; 21], q: &[i64; 21], m: usize) -> Result<i64, Refusal>
    requires { m ≤ 20 }
    ensures { result ≡ dividend_of checked (curve_values num.now) (curve_values d.now) (curve_values q.now) m }
{
    let mut rest = num[m];
    for i in 0..m {
        rest = whole::sub(rest, leibniz_term(d, q, m, i + 1)?)?;
    }
    Ok(rest)
}

fn quotient_entry(num: &[i64; 21], d: &[i64; 21], q: &[i64; 21], m: usize) -> Result<i64, Refusal>
    requires { m ≤ 20 }
    ensures { result ≡ quotient_entry checked (curve_values num.now) (curve_values d.now) (curve_values q.now) m }
{
    let y = d[0];
    whole::div(dividend(num, d, q, m)?, y)
}

// The entry of the order m, from two jets and the entries q before it.
fn entry(
    op: Operation,
    a: &[i64; 21],
    b: &[i64; 21],
    q: &[i64; 21],
    m: usize,
) -> Result<i64, Refusal>
    requires { m ≤ 20 }
    ensures { result ≡ curve_formula op (curve_values a.now) (curve_values b.now) (curve_values q.now) m }
{
    match op {
        Operation::Sum => whole::add(a[m], b[m]),
        Operation::Difference => whole::sub(a[m], b[m]),
        Operation::Product => product_entry(a, b, m),
        Operation::Quotient => quotient_entry(a, b, q, m),
    }
}

// The entries of the jet that an operation forms, one by one; the first refusal ends it.
pub fn entries(op: Operation, a: &[i64; 21], b: &[i64; 21], n: usize) -> Result<[i64; 21], Refusal>
    requires { n ≤ 20 }
    ensures { result ≡ formed_curve (rising checked.zero (curve_formula op (curve_values a.now) (curve_values b.now))) n }
{
    let mut r = [0i64; 21];
    for m in 0..n + 1 {
        r[m] = entry(op, a, b, &r, m)?;
    }
    Ok(r)
}
