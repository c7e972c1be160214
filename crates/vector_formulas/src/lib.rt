// The formulas on derivatives, on arrays of vectors, three floats an entry. There are no refusals here: NaN and infinities pass through, as a function
// that forms many jets on its way needs it. An order above 20, for which an array has no entries, is cut to 20. The products and norms of surfaces stand
// in vector_surface_formulas, the carry in float_carry.
#![tactic(auto)]

ghost use Rattle.std.specs.Prelude.{◌≡◌, ◌-◌, min};
ghost use Rattle.ieee_vectors.specs.Vectors.{multiple, quotient, dot as dot_of, cross as cross_of, positive_zero};
ghost use Rattle.calculus.specs.Kind.{regular};
ghost use Rattle.calculus.specs.Array.{curve_array};
ghost use Rattle.calculus.specs.Curve.{product_by, difference as differences, derivative as derivative_of};
ghost use Rattle.calculus.specs.Surface.{derivative_u, derivative_v};
ghost use Rattle.calculus.specs.Rational.{rational as rational_of};
ghost use Rattle.formulas.specs.Real.{real};
ghost use Rattle.formulas.specs.Numbers.{curve_numbers};
ghost use Rattle.vector_formulas.specs.Vector.{origin, vectors, vector_numbers, vector_surface_numbers, stored, vector_array, vector_surface_array, vector_norm, finite_vector_curve, finite_vector_surface};
ghost use Rattle.vector_formulas.specs.Formulas.{vectors_by};

use entries::NumberFormula;
use ieee_vectors::Vector3;

mod arrays;
mod entries;
mod shift;

// A formula with vectors for its entries: of two jets of vectors, or of one and a jet of floats.
#[derive(Clone, Copy)]
pub enum VectorFormula {
    Sum,
    Difference,
    Cross,
    Scaled,
    Rational,
}

// The vector that a sum starts from.
pub fn zero() -> Vector3
    ensures { result ≡ origin }
{
    Vector3 {
        x: 0.0,
        y: 0.0,
        z: 0.0,
    }
}

// The entry k of an array, with NaN where the array ends.
pub fn vector_at(a: &[f64], k: usize) -> Vector3
    ensures { result ≡ vector_numbers a.now k }
{
    if k < a.len() / 3 {
        return arrays::vector_at(a, k);
    }
    arrays::vector_at_end(a, k)
}

// The entry [i][j] of a surface: i is cut to 20, and j to 20 - i.
pub fn surface_at(a: &[f64; 693], i: usize, j: usize) -> Vector3
    ensures { result ≡ vector_surface_numbers a.now (min i 20) (min j (20 - min i 20)) }
{
    arrays::vector_at(a, formulas::index(i, j))
}

// A vector is stored as the entry k, where the array has that entry.
pub fn store(a: &mut [f64], k: usize, v: Vector3)
    ensures { a.new ≡ stored a.old k v }
{
    if k < a.len() / 3 {
        arrays::store(a, k, v);
    }
}

// One entry of a product: by dot, by cross, and by floats.
pub fn dot(a: &[f64; 63], b: &[f64; 63], m: usize) -> f64
    ensures { result ≡ product_by (regular real) dot_of (vector_numbers a.now) (vector_numbers b.now) (min m 20) }
{
    entries::dot_entry(a, b, m.min(20))
}

pub fn cross(a: &[f64; 63], b: &[f64; 63], m: usize) -> Vector3
    ensures { result ≡ product_by vectors cross_of (vector_numbers a.now) (vector_numbers b.now) (min m 20) }
{
    entries::cross_entry(a, b, m.min(20))
}

pub fn scaled(a: &[f64; 63], b: &[f64; 21], m: usize) -> Vector3
    ensures { result ≡ product_by vectors multiple (vector_numbers a.now) (curve_numbers b.now) (min m 20) }
{
    entries::scaled_entry(a, b, m.min(20))
}

// The entries up to the order n of a formula, and zeros past them.
pub fn curve(f: VectorFormula, a: &[f64; 63], b: &[f64; 63], w: &[f64; 21], n: usize) -> [f64; 63]
    ensures { result ≡ vector_array (vectors_by f (vector_numbers a.now) (vector_numbers b.now) (curve_numbers w.now)) (min n 20) }
{
    entries::entries(f, a, b, w, n.min(20))
}

// Those of a difference, of the products by cross and by dot, of a quotient by floats, and of the norm.
pub fn difference(a: &[f64; 63], b: &[f64; 63], n: usize) -> [f64; 63]
    ensures { result ≡ vector_array (differences vectors (vector_numbers a.now) (vector_numbers b.now)) (min n 20) }
{
    let z = [0.0f64; 21];
    curve(VectorFormula::Difference, a, b, &z, n)
}

pub fn crosses(a: &[f64; 63], b: &[f64; 63], n: usize) -> [f64; 63]
    ensures { result ≡ vector_array (product_by vectors cross_of (vector_numbers a.now) (vector_numbers b.now)) (min n 20) }
{
    let z = [0.0f64; 21];
    curve(VectorFormula::Cross, a, b, &z, n)
}

pub fn dots(a: &[f64; 63], b: &[f64; 63], n: usize) -> [f64; 21]
    ensures { result ≡ curve_array positive_zero (product_by (regular real) dot_of (vector_numbers a.now) (vector_numbers b.now)) (min n 20) }
{
    entries::numbers(NumberFormula::Dot, a, b, n.min(20))
}

pub fn rational(a: &[f64; 63], w: &[f64; 21], n: usize) -> [f64; 63]
    ensures { result ≡ vector_array (rational_of vectors quotient (vector_numbers a.now) (curve_numbers w.now)) (min n 20) }
{
    curve(VectorFormula::Rational, a, a, w, n)
}

pub fn norm(a: &[f64; 63], n: usize) -> [f64; 21]
    ensures { result ≡ curve_array positive_zero (vector_norm (vector_numbers a.now)) (min n 20) }
{
    entries::numbers(NumberFormula::Norm, a, a, n.min(20))
}

// Those of a list, with NaN where it ends, and of a jet that is cut at the order n.
pub fn read(list: &[f64], n: usize) -> [f64; 63]
    ensures { result ≡ vector_array (vector_numbers list.now) (min n 20) }
{
    entries::read(list, n.min(20))
}

pub fn cut(a: &[f64; 63], n: usize) -> [f64; 63]
    ensures { result ≡ vector_array (vector_numbers a.now) (min n 20) }
{
    entries::cut(a, n.min(20))
}

// Those of the derivative, of which the last reads the order n + 1: n is cut to 19. So it is for the derivatives of a surface by u and by v.
pub fn derivative(a: &[f64; 63], n: usize) -> [f64; 63]
    ensures { result ≡ vector_array (derivative_of (vector_numbers a.now)) (min n 19) }
{
    entries::shifted(a, n.min(19))
}

pub fn derivative_u(a: &[f64; 693], n: usize) -> [f64; 693]
    ensures { result ≡ vector_surface_array (derivative_u (vector_surface_numbers a.now)) (min n 19) }
{
    shift::shifted(a, n.min(19), 1, 0)
}

pub fn derivative_v(a: &[f64; 693], n: usize) -> [f64; 693]
    ensures { result ≡ vector_surface_array (derivative_v (vector_surface_numbers a.now)) (min n 19) }
{
    shift::shifted(a, n.min(19), 0, 1)
}

// Whether the entries up to the order n are finite, of a curve and of a surface.
pub fn finite_vectors(a: &[f64; 63], n: usize) -> bool
    ensures { result ≡ finite_vector_curve (vector_numbers a.now) (min n 20) }
{
    arrays::all_finite(a, n.min(20) + 1)
}

pub fn finite_surface(a: &[f64; 693], n: usize) -> bool
    ensures { result ≡ finite_vector_surface (vector_surface_numbers a.now) (min n 20) }
{
    arrays::all_finite(a, calculus::surface_count(n.min(20)))
}
