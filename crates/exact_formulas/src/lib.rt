// The formulas of sums, differences, products and quotients of jets, on arrays of signed 64-bit whole numbers: an entry that leaves their range, or
// that a division does not give, is refused. The entries of a jet stand in the arrays as in the jets of `exact`, with zeros past the order. Any bits will
// do: an array has room for 20 orders, and an order above is cut to 20.
#![tactic(auto)]

ghost use Rattle.std.specs.Prelude.{◌≡◌, ◌+◌, ◌-◌, ◌≤◌, ◌<◌, min};
ghost use Rattle.calculus.specs.Curve.{product as product_of};
ghost use Rattle.calculus.specs.Surface.{product as surface_product_of};
ghost use Rattle.calculus.specs.Operation.{curve_operation, surface_operation};
ghost use Rattle.calculus.specs.Graded.{index as index_of};
ghost use Rattle.exact_formulas.specs.Kinds.{checked};
ghost use Rattle.exact_formulas.specs.Entries.{curve_values, surface_values, formed_curve, formed_surface};

use calculus::Operation;
use refusals::Refusal;

mod curves;
mod surfaces;

// What an operation forms of two curves, up to the order n.
pub fn curve(op: Operation, a: &[i64; 21], b: &[i64; 21], n: usize) -> Result<[i64; 21], Refusal>
    ensures { result ≡ formed_curve (curve_operation checked op (curve_values a.now) (curve_values b.now)) (min n 20) }
{
    curves::entries(op, a, b, n.min(20))
}

// What it forms of two surfaces.
pub fn surface(
    op: Operation,
    a: &[i64; 231],
    b: &[i64; 231],
    n: usize,
) -> Result<[i64; 231], Refusal>
    ensures { result ≡ formed_surface (surface_operation checked op (surface_values a.now) (surface_values b.now)) (min n 20) }
{
    surfaces::entries(op, a, b, n.min(20))
}

// One entry of the product of two curves.
pub fn curve_product(a: &[i64; 21], b: &[i64; 21], m: usize) -> Result<i64, Refusal>
    ensures { result ≡ product_of checked (curve_values a.now) (curve_values b.now) (min m 20) }
{
    curves::product_entry(a, b, m.min(20))
}

// One entry of the product of two surfaces: [m][n], m cut first, and n to the orders left.
pub fn surface_product(a: &[i64; 231], b: &[i64; 231], m: usize, n: usize) -> Result<i64, Refusal>
    ensures { result ≡ surface_product_of checked (surface_values a.now) (surface_values b.now) (min m 20) (min n (20 - min m 20)) }
{
    let k = m.min(20);
    surfaces::product_entry(a, b, k, n.min(20 - k))
}

// Where [i][j] stands in a surface's array.
fn index(i: usize, j: usize) -> usize
    requires { i + j ≤ 20 }
    ensures value { result ≡ index_of i j }
    ensures inside { result < 231 }
{
    let n = i + j;
    n * (n + 1) / 2 + i
}

// A term of Leibniz's rule.
fn term(x: i64, y: i64, c: u32) -> Result<i64, Refusal>
    ensures { result ≡ checked.times (checked.times (Ok x) (Ok y)) (checked.of_nat c) }
{
    whole::mul(whole::mul(x, y)?, c as i64)
}
