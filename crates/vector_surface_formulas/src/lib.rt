// The products, quotients and norms of surfaces of vectors, on arrays, three floats an entry; as in vector_formulas, any floats pass through, and an order above
// 20 is cut to 20. Of an entry [m][n], m is cut to 20 and n to 20 - m.
#![tactic(auto)]

ghost use Rattle.std.specs.Prelude.{◌≡◌, ◌-◌, min};
ghost use Rattle.ieee_vectors.specs.Vectors.{multiple, dot as dot_of, cross as cross_of, positive_zero};
ghost use Rattle.calculus.specs.Kind.{regular};
ghost use Rattle.calculus.specs.Array.{surface_array};
ghost use Rattle.calculus.specs.Surface.{product_by};
ghost use Rattle.formulas.specs.Real.{real};
ghost use Rattle.formulas.specs.Numbers.{surface_numbers};
ghost use Rattle.vector_formulas.specs.Vector.{vectors, vector_surface_numbers, vector_surface_array};
ghost use Rattle.vector_surface_formulas.specs.Formulas.{vector_surface_by, vector_surface_norm};

use entries::Summed;
use ieee_vectors::Vector3;
use vector_formulas::VectorFormula;

mod entries;
mod norms;

// One entry of a product: by dot, by cross, and by floats.
pub fn dot(a: &[f64; 693], b: &[f64; 693], m: usize, n: usize) -> f64
    ensures { result ≡ product_by (regular real) dot_of (vector_surface_numbers a.now) (vector_surface_numbers b.now) (min m 20) (min n (20 - min m 20)) }
{
    let k = m.min(20);
    entries::dot_entry(a, b, k, n.min(20 - k))
}

pub fn cross(a: &[f64; 693], b: &[f64; 693], m: usize, n: usize) -> Vector3
    ensures { result ≡ product_by vectors cross_of (vector_surface_numbers a.now) (vector_surface_numbers b.now) (min m 20) (min n (20 - min m 20)) }
{
    let w = [0.0f64; 231];
    let k = m.min(20);
    entries::sum_of_terms(Summed::Cross, a, b, &w, k, n.min(20 - k))
}

pub fn scaled(a: &[f64; 693], b: &[f64; 231], m: usize, n: usize) -> Vector3
    ensures { result ≡ product_by vectors multiple (vector_surface_numbers a.now) (surface_numbers b.now) (min m 20) (min n (20 - min m 20)) }
{
    let k = m.min(20);
    entries::sum_of_terms(Summed::Scaled, a, a, b, k, n.min(20 - k))
}

// The entries up to the order n of a formula, and zeros past them.
pub fn surface(
    f: VectorFormula,
    a: &[f64; 693],
    b: &[f64; 693],
    w: &[f64; 231],
    n: usize,
) -> [f64; 693]
    ensures { result ≡ vector_surface_array (vector_surface_by f (vector_surface_numbers a.now) (vector_surface_numbers b.now) (surface_numbers w.now)) (min n 20) }
{
    entries::entries(f, a, b, w, n.min(20))
}

// Those of the product by dot, and of the norm.
pub fn dots(a: &[f64; 693], b: &[f64; 693], n: usize) -> [f64; 231]
    ensures { result ≡ surface_array positive_zero (product_by (regular real) dot_of (vector_surface_numbers a.now) (vector_surface_numbers b.now)) (min n 20) }
{
    entries::dots(a, b, n.min(20))
}

pub fn norm(a: &[f64; 693], n: usize) -> [f64; 231]
    ensures { result ≡ surface_array positive_zero (vector_surface_norm (vector_surface_numbers a.now)) (min n 20) }
{
    norms::norms(a, n.min(20))
}
