// The formulas on derivatives, on arrays of floats, each rounded as the source rounds it. There are no refusals here: NaN and infinities pass through,
// as a function that forms many jets on its way needs it. An order above 20, for which an array has no entries, is cut to 20.
#![tactic(auto)]

ghost use Rattle.std.specs.Prelude.{◌≡◌, ◌-◌, ◌*◌, cond, ltb, min};
ghost use Rattle.std.specs.List.{list_all};
ghost use Rattle.std.specs.Float.Ieee.Scale.{finite};
ghost use Rattle.calculus.specs.Array.{curve_array, surface_array};
ghost use Rattle.calculus.specs.Choose.{choose};
ghost use Rattle.calculus.specs.Graded.{index as index_of};
ghost use Rattle.calculus.specs.Curve.{product as product_of, derivative as derivative_of};
ghost use Rattle.calculus.specs.Surface.{product as surface_product_of, derivative_u, derivative_v};
ghost use Rattle.ieee_vectors.specs.Vectors.{positive_zero};
ghost use Rattle.formulas.specs.Real.{real};
ghost use Rattle.formulas.specs.Numbers.{curve_numbers, surface_numbers, finite_list, finite_curve, finite_surface};
ghost use Rattle.formulas.specs.Operations.{curve_by, surface_by};

use calculus::{Operation, places};

mod curve_entries;
mod surface_entries;
mod terms;

// The entries up to the order n of the sum, the difference, the product or the quotient of two curves, and zeros past them.
pub fn curve(f: Operation, a: &[f64; 21], b: &[f64; 21], n: usize) -> [f64; 21]
    ensures { result ≡ curve_array positive_zero (curve_by f (curve_numbers a.now) (curve_numbers b.now)) (min n 20) }
{
    curve_entries::entries(f, a, b, n.min(20))
}

// The entry m of the product.
pub fn product(a: &[f64; 21], b: &[f64; 21], m: usize) -> f64
    ensures { result ≡ product_of real (curve_numbers a.now) (curve_numbers b.now) (min m 20) }
{
    curve_entries::product_entry(a, b, m.min(20))
}

// The entries up to the order n of the derivative, of which the last reads the order n + 1: n is cut to 19.
pub fn derivative(a: &[f64; 21], n: usize) -> [f64; 21]
    ensures { result ≡ curve_array positive_zero (derivative_of (curve_numbers a.now)) (min n 19) }
{
    curve_entries::shifted(a, n.min(19))
}

// The same for two surfaces: the entries up to the order n, one entry of the product, and the derivatives by u and by v.
pub fn surface(f: Operation, a: &[f64; 231], b: &[f64; 231], n: usize) -> [f64; 231]
    ensures { result ≡ surface_array positive_zero (surface_by f (surface_numbers a.now) (surface_numbers b.now)) (min n 20) }
{
    surface_entries::entries(f, a, b, n.min(20))
}

pub fn surface_product(a: &[f64; 231], b: &[f64; 231], m: usize, n: usize) -> f64
    ensures { result ≡ surface_product_of real (surface_numbers a.now) (surface_numbers b.now) (min m 20) (min n (20 - min m 20)) }
{
    let k = m.min(20);
    surface_entries::product_entry(a, b, k, n.min(20 - k))
}

pub fn derivative_u(a: &[f64; 231], n: usize) -> [f64; 231]
    ensures { result ≡ surface_array positive_zero (derivative_u (surface_numbers a.now)) (min n 19) }
{
    places::derivative_u(a, n, 0.0)
}

pub fn derivative_v(a: &[f64; 231], n: usize) -> [f64; 231]
    ensures { result ≡ surface_array positive_zero (derivative_v (surface_numbers a.now)) (min n 19) }
{
    places::derivative_v(a, n, 0.0)
}

// Where [i][j] stands in a surface's array: i is cut to 20, and j to 20 - i.
pub fn index(i: usize, j: usize) -> usize
    ensures { result ≡ index_of (min i 20) (min j (20 - min i 20)) }
{
    let k = i.min(20);
    terms::index(k, j.min(20 - k))
}

// The entry [i][j] of a surface, with i and j cut so.
pub fn number_at(a: &[f64; 231], i: usize, j: usize) -> f64
    ensures { result ≡ surface_numbers a.now (min i 20) (min j (20 - min i 20)) }
{
    let k = i.min(20);
    terms::number_at(a, k, j.min(20 - k))
}

// The coefficient of the i-th term of Leibniz's rule at the order m; 0 where the order is above 20.
pub fn coefficient(m: usize, i: usize) -> f64
    ensures { result ≡ real.of_nat (cond (ltb 20 m) 0 (choose m i)) }
{
    calculus::choose(m, i) as f64
}

// The i-th binomial coefficient of the order m: m is cut to 20, and i to m.
pub fn binomial(m: usize, i: usize) -> u32
    ensures { result ≡ choose (min m 20) (min i (min m 20)) }
{
    let k = m.min(20);
    calculus::choose(k, i.min(k))
}

// That of the term [i][j] at [m][n], with m and n cut as an index is.
pub fn surface_coefficient(m: usize, n: usize, i: usize, j: usize) -> f64
    ensures { result ≡ real.of_nat (choose (min m 20) i * choose (min n (20 - min m 20)) j) }
{
    let k = m.min(20);
    terms::coefficient(k, n.min(20 - k), i, j)
}

// What the three tests below share, over a slice.
fn each_finite(a: &[f64]) -> bool
    ensures { result ≡ list_all finite a.now }
{
    a.iter().all(|x| ieee::is_finite(*x))
}

// Whether the floats of a list are finite.
pub fn finite_list(a: &[f64]) -> bool
    ensures { result ≡ finite_list a.now }
{
    each_finite(a)
}

// Whether a curve's entries up to the order n are.
pub fn finite_curve(a: &[f64; 21], n: usize) -> bool
    ensures { result ≡ finite_curve (curve_numbers a.now) (min n 20) }
{
    each_finite(&a[..n.min(20) + 1])
}

// Whether a surface's entries up to the order n are.
pub fn finite_surface(a: &[f64; 231], n: usize) -> bool
    ensures { result ≡ finite_surface (surface_numbers a.now) (min n 20) }
{
    each_finite(&a[..calculus::surface_count(n.min(20))])
}
