// The steps along the edge: from the entries up to one order, those of the next. NaN and infinities pass through. Each `requires` is met by the callers.
ghost use Rattle.std.specs.Prelude.{◌≡◌, ◌<◌, Ok};
ghost use Rattle.ieee_vectors.specs.Vectors.{dot};
ghost use Rattle.ieee_vectors.specs.Matrices.{columns, transposed};
ghost use Rattle.calculus.specs.Kind.{regular};
ghost use Rattle.calculus.specs.Curve.{derivative, difference, product_by};
ghost use Rattle.formulas.specs.Real.{real};
ghost use Rattle.vector_formulas.specs.Vector.{vectors, vector_numbers, vector_surface_numbers};
ghost use Rattle.contacts.specs.Center.{edge, radii, jet0, jet1, start as start_of, planes as planes_of, right_side, next_center, next as next_of, formed as formed_of, if_regular};

use crate::Place;
use ieee_vectors::{Matrix3, Vector3};
use refusals::Refusal;
use surface_info::{SurfaceInfo, arrays};

// The entries formed so far: of the centre, and of both surfaces.
#[derive(Clone, Copy)]
pub struct Formed {
    pub center: [f64; 63],
    pub info0: SurfaceInfo,
    pub info1: SurfaceInfo,
}

// The entries of order 0.
#[tactic(auto, unfolding(crate::specs::Center::start))]
pub fn start(p: &Place) -> Formed
    ensures { result ≡ start_of p.now }
{
    Formed {
        center: arrays::first_only(p.center),
        info0: surface_info::initial(&p.surface0, p.foot0, p.normal0),
        info1: surface_info::initial(&p.surface1, p.foot1, p.normal1),
    }
}

// A matrix by its rows.
fn by_rows(a: Vector3, b: Vector3, c: Vector3) -> Matrix3
    ensures { result ≡ transposed (columns a b c) }
{
    let columns = Matrix3 {
        c0: a,
        c1: b,
        c2: c,
    };
    columns.transpose()
}

// The edge's direction and both normals, as rows.
pub fn planes(p: &Place) -> Matrix3
    ensures { result ≡ planes_of p.now }
{
    let e = vector_formulas::vector_at(&p.edge, 1);
    by_rows(e, p.normal0, p.normal1)
}

// The entry m of a' · (a - b).
fn derivative_dot_difference(a: &[f64; 63], b: &[f64; 63], m: usize) -> f64
    requires { m < 20 }
    ensures { result ≡ product_by (regular real) dot (derivative (vector_numbers a.now)) (difference vectors (vector_numbers a.now) (vector_numbers b.now)) m }
{
    let d = vector_formulas::derivative(a, m);
    arrays::dot_difference(&d, a, b, m)
}

// What the known entries give at the order m.
fn right_side(p: &Place, k: &Formed, m: usize) -> Vector3
    requires { (0 < m) × (m < 20) }
    ensures { result ≡ right_side (edge p.now) (radii p.now) k.now m }
{
    let x = derivative_dot_difference(&p.edge, &k.center, m);
    let y = arrays::derivative_dot(&k.center, &k.info0.normal.unit, m - 1);
    let z = arrays::derivative_dot(&k.center, &k.info1.normal.unit, m - 1);
    let r = p.radius[m];
    Vector3 {
        x,
        y: r - y,
        z: r - z,
    }
}

// The centre with the entry of order m; then, with it, all of that order.
#[tactic(auto, unfolding(crate::specs::Center::next_center))]
fn next_center(p: &Place, inverse: Matrix3, k: &Formed, m: usize) -> [f64; 63]
    requires { (0 < m) × (m < 20) }
    ensures { result ≡ next_center (edge p.now) (radii p.now) inverse k.now m }
{
    let b = right_side(p, k, m);
    arrays::put(k.center, m, inverse.image(b))
}

#[tactic(auto, unfolding(crate::specs::Center::next))]
fn next(p: &Place, inverse: Matrix3, k: &Formed, m: usize) -> Formed
    requires { (0 < m) × (m < 20) }
    ensures { result ≡ next_of (edge p.now) (radii p.now) (jet0 p.now) (jet1 p.now) inverse k.now m }
{
    let center = next_center(p, inverse, k, m);
    Formed {
        center,
        info0: surface_info::routine(&p.surface0, &center, k.info0, m - 1),
        info1: surface_info::routine(&p.surface1, &center, k.info1, m - 1),
    }
}

// All entries up to the order n.
#[tactic(auto, unfolding(crate::specs::Center::after))]
pub fn up_to(p: &Place, n: usize) -> Formed
    requires { n < 20 }
    ensures { result ≡ formed_of p.now n }
{
    let inverse = planes(p).unchecked_inverse();
    let mut k = start(p);
    for m in 0..n {
        k = next(p, inverse, &k, m + 1);
    }
    k
}

// Whether a surface's parameters can be solved for, and its normal divided.
pub fn regular(s: &[f64; 693], center: &[f64; 63], info: &SurfaceInfo) -> Result<(), Refusal>
    ensures { result ≡ if_regular (vector_surface_numbers s.now) center.now info.now (Ok tt) }
{
    let form = surface_info::form(s, surface_info::offset(&info.carried.point, center));
    if form.determinant() == 0.0 {
        return Err(Refusal::ZeroDeterminant);
    }
    if info.normal.norm[0] == 0.0 {
        return Err(Refusal::DivisionByZero);
    }
    Ok(())
}
