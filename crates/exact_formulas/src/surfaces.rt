// The formulas on surfaces.
ghost use Rattle.std.specs.Prelude.{◌≡◌, ◌+◌, ◌-◌, ◌≤◌, suc};
ghost use Rattle.calculus.specs.Kind.{regular};
ghost use Rattle.calculus.specs.InTurn.{in_turn};
ghost use Rattle.calculus.specs.Rising.{rising_rows};
ghost use Rattle.calculus.specs.Surface.{product, leibniz, dividend as dividend_of, quotient_entry};
ghost use Rattle.exact_formulas.specs.Kinds.{checked};
ghost use Rattle.exact_formulas.specs.Entries.{surface_values, formed_surface};
ghost use Rattle.exact_formulas.specs.Inner.{surface_formula};

use crate::index;
use calculus::Operation;
use refusals::Refusal;

// The term [i][j] of Leibniz's rule at [m][n].
fn leibniz_term(
    a: &[i64; 231],
    b: &[i64; 231],
    m: usize,
    n: usize,
    i: usize,
    j: usize,
) -> Result<i64, Refusal>
    requires { (i ≤ m) × (j ≤ n) × (m + n ≤ 20) }
    ensures { result ≡ leibniz (regular checked) checked.times (surface_values a.now) (surface_values b.now) m n i j }
{
    let coefficient = calculus::choose(m, i) * calculus::choose(n, j);
    crate::term(a[index(i, j)], b[index(m - i, n - j)], coefficient)
}

// The terms of one i, j rising, added to a sum.
fn product_row(
    start: i64,
    a: &[i64; 231],
    b: &[i64; 231],
    m: usize,
    n: usize,
    i: usize,
) -> Result<i64, Refusal>
    requires { (i ≤ m) × (m + n ≤ 20) }
    ensures { result ≡ in_turn checked.plus (Ok start) (leibniz (regular checked) checked.times (surface_values a.now) (surface_values b.now) m n i) (suc n) }
{
    let mut sum = start;
    for j in 0..n + 1 {
        sum = whole::add(sum, leibniz_term(a, b, m, n, i, j)?)?;
    }
    Ok(sum)
}

pub fn product_entry(a: &[i64; 231], b: &[i64; 231], m: usize, n: usize) -> Result<i64, Refusal>
    requires { m + n ≤ 20 }
    ensures { result ≡ product checked (surface_values a.now) (surface_values b.now) m n }
{
    let mut sum = 0;
    for i in 0..m + 1 {
        sum = product_row(sum, a, b, m, n, i)?;
    }
    Ok(sum)
}

// The terms of one i, j rising from `from` on, subtracted from a number.
fn dividend_row(
    start: i64,
    d: &[i64; 231],
    q: &[i64; 231],
    m: usize,
    n: usize,
    i: usize,
    from: usize,
) -> Result<i64, Refusal>
    requires { (i ≤ m) × (from ≤ suc n) × (m + n ≤ 20) }
    ensures { result ≡ in_turn checked.minus (Ok start) (λ j. leibniz (regular checked) checked.times (surface_values d.now) (surface_values q.now) m n i (from + j)) (suc n - from) }
{
    let mut rest = start;
    for j in from..n + 1 {
        rest = whole::sub(rest, leibniz_term(d, q, m, n, i, j)?)?;
    }
    Ok(rest)
}

// What is left of num[m][n] for d[0][0] · q[m][n].
fn dividend(
    num: &[i64; 231],
    d: &[i64; 231],
    q: &[i64; 231],
    m: usize,
    n: usize,
) -> Result<i64, Refusal>
    requires { m + n ≤ 20 }
    ensures { result ≡ dividend_of checked (surface_values num.now) (surface_values d.now) (surface_values q.now) m n }
{
    let mut rest = dividend_row(num[index(m, n)], d, q, m, n, 0, 1)?;
    for i in 0..m {
        rest = dividend_row(rest, d, q, m, n, i + 1, 0)?;
    }
    Ok(rest)
}

fn quotient_entry(
    num: &[i64; 231],
    d: &[i64; 231],
    q: &[i64; 231],
    m: usize,
    n: usize,
) -> Result<i64, Refusal>
    requires { m + n ≤ 20 }
    ensures { result ≡ quotient_entry checked (surface_values num.now) (surface_values d.now) (surface_values q.now) m n }
{
    let y = d[0];
    whole::div(dividend(num, d, q, m, n)?, y)
}

// The entry [m][n], from two jets and the entries q before it.
fn entry(
    op: Operation,
    a: &[i64; 231],
    b: &[i64; 231],
    q: &[i64; 231],
    m: usize,
    n: usize,
) -> Result<i64, Refusal>
    requires { m + n ≤ 20 }
    ensures { result ≡ surface_formula op (surface_values a.now) (surface_values b.now) (surface_values q.now) m n }
{
    let k = index(m, n);
    match op {
        Operation::Sum => whole::add(a[k], b[k]),
        Operation::Difference => whole::sub(a[k], b[k]),
        Operation::Product => product_entry(a, b, m, n),
        Operation::Quotient => quotient_entry(a, b, q, m, n),
    }
}

// The entries of the jet that an operation forms, one by one, i rising, then j; the first refusal ends it.
pub fn entries(
    op: Operation,
    a: &[i64; 231],
    b: &[i64; 231],
    n: usize,
) -> Result<[i64; 231], Refusal>
    requires { n ≤ 20 }
    ensures { result ≡ formed_surface (rising_rows checked.zero (surface_formula op (surface_values a.now) (surface_values b.now))) n }
{
    let mut r = [0i64; 231];
    for i in 0..n + 1 {
        for j in 0..n + 1 - i {
            r[index(i, j)] = entry(op, a, b, &r, i, j)?;
        }
    }
    Ok(r)
}
