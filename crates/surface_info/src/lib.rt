// What is known of one surface along the edge of a rolling-ball fillet: the parameters of the ball's contact point, the surface carried along them, and its
// unit normal. NaN and infinities pass through; an order above those that the arrays have is cut.
#![tactic(auto)]

ghost use Rattle.std.specs.Prelude.{◌≡◌, suc, ◌≤◌, ◌<◌, min};
ghost use Rattle.ieee_vectors.specs.Vectors.{plus, dot};
ghost use Rattle.calculus.specs.Kind.{regular};
ghost use Rattle.calculus.specs.Curve.{product_by};
ghost use Rattle.formulas.specs.Real.{real};
ghost use Rattle.vector_formulas.specs.Vector.{vector_numbers, vector_surface_numbers};
ghost use Rattle.surface_info.specs.SurfaceInfo.{initial as initial_of, offset as offset_of, form as form_of, parameters as parameters_of, routine as routine_of, next_parameters, next_carried, next_norm, next_normal};

use ieee_vectors::{Matrix2, Vector2, Vector3};

pub mod arrays;
mod products;

// The parameters of the contact point along the edge.
#[derive(Clone, Copy)]
pub struct Parameters {
    pub u: [f64; 21],
    pub v: [f64; 21],
}

// The surface carried along the parameters: the contact point, and the derivatives by u and by v there.
#[derive(Clone, Copy)]
pub struct Carried {
    pub point: [f64; 63],
    pub du: [f64; 63],
    pub dv: [f64; 63],
}

// The cross product of these derivatives, its norm, and the unit normal.
#[derive(Clone, Copy)]
pub struct Normal {
    pub cross: [f64; 63],
    pub norm: [f64; 21],
    pub unit: [f64; 63],
}

// All of it as jets along the edge, with zeros for what is not formed yet.
#[derive(Clone, Copy)]
pub struct SurfaceInfo {
    pub uv: Parameters,
    pub carried: Carried,
    pub normal: Normal,
}

// The entries of order 0.
#[tactic(auto, unfolding(crate::specs::SurfaceInfo::initial, calculus::specs::Graded::index))]
pub fn initial(s: &[f64; 693], foot: Vector2, normal: Vector3) -> SurfaceInfo
    ensures { result ≡ initial_of (vector_surface_numbers s.now) foot normal }
{
    let t = vector_formulas::vector_at(s, 0);
    let dv = vector_formulas::vector_at(s, 1);
    let du = vector_formulas::vector_at(s, 2);
    let c = du.cross(dv);
    SurfaceInfo {
        uv: Parameters {
            u: products::first_number_only(foot.x),
            v: products::first_number_only(foot.y),
        },
        carried: Carried {
            point: arrays::first_only(t),
            du: arrays::first_only(du),
            dv: arrays::first_only(dv),
        },
        normal: Normal {
            cross: arrays::first_only(c),
            norm: products::first_number_only(c.magnitude()),
            unit: arrays::first_only(normal),
        },
    }
}

// The offset of the contact point from the centre, at order 0.
pub fn offset(point: &[f64; 63], center: &[f64; 63]) -> Vector3
    ensures { result ≡ offset_of center.now point.now 0 }
{
    let a = vector_formulas::vector_at(point, 0);
    let b = vector_formulas::vector_at(center, 0);
    a.sub(b)
}

// What the known entries give at the order m: d · offset, with the surface and its derivative carried along the known parameters.
fn known(
    d: &[f64; 63],
    point: &[f64; 63],
    center: &[f64; 63],
    carried: Vector3,
    derived: Vector3,
    m: usize,
) -> f64
    requires { m ≤ 20 }
    ensures { result ≡ plus (product_by (regular real) dot (vector_numbers d.now) (offset_of center.now point.now) m) (plus (dot (vector_numbers d.now 0) carried) (dot derived (offset_of center.now point.now 0))) }
{
    let p = arrays::dot_difference(d, point, center, m);
    let e = vector_formulas::vector_at(d, 0);
    let q = e.dot(carried);
    p + (q + derived.dot(offset(point, center)))
}

// The matrix of the parameters, for the offset e.
#[tactic(auto, unfolding(calculus::specs::Graded::index))]
pub fn form(s: &[f64; 693], e: Vector3) -> Matrix2
    ensures { result ≡ form_of (vector_surface_numbers s.now) e }
{
    let v = vector_formulas::vector_at(s, 1);
    let u = vector_formulas::vector_at(s, 2);
    let vv = vector_formulas::vector_at(s, 3);
    let uv = vector_formulas::vector_at(s, 4);
    let uu = vector_formulas::vector_at(s, 5);
    let a = u.dot(u) + uu.dot(e);
    let b = u.dot(v) + uv.dot(e);
    let d = v.dot(v) + vv.dot(e);
    Matrix2 { a, b, c: b, d }
}

// The parameters of the order m.
#[tactic(auto, unfolding(crate::specs::SurfaceInfo::parameters))]
fn parameters_at(s: &[f64; 693], center: &[f64; 63], info: &SurfaceInfo, m: usize) -> Vector2
    requires { m < 20 }
    ensures { result ≡ parameters_of (vector_surface_numbers s.now) center.now info.now m }
{
    let point = &info.carried.point;
    let carried = products::along(s, &info.uv, m);
    let by_u = products::along_u(s, &info.uv, m);
    let by_v = products::along_v(s, &info.uv, m);
    let x = known(&info.carried.du, point, center, carried, by_u, m);
    let y = known(&info.carried.dv, point, center, carried, by_v, m);
    let matrix = form(s, offset(point, center));
    let inverse = matrix.unchecked_inverse();
    inverse.neg().image(Vector2 { x, y })
}

// The arrays with their entries of the order m.
#[tactic(auto, unfolding(crate::specs::SurfaceInfo::next_parameters))]
fn next_parameters(s: &[f64; 693], center: &[f64; 63], info: &SurfaceInfo, m: usize) -> Parameters
    requires { m < 20 }
    ensures { result ≡ next_parameters (vector_surface_numbers s.now) center.now info.now m }
{
    let p = parameters_at(s, center, info, m);
    Parameters {
        u: products::put_number(info.uv.u, m, p.x),
        v: products::put_number(info.uv.v, m, p.y),
    }
}

#[tactic(auto, unfolding(crate::specs::SurfaceInfo::next_carried))]
fn next_carried(s: &[f64; 693], uv: &Parameters, a: &Carried, m: usize) -> Carried
    requires { m < 20 }
    ensures { result ≡ next_carried (vector_surface_numbers s.now) uv.now a.now m }
{
    Carried {
        point: arrays::put(a.point, m, products::along(s, uv, m)),
        du: arrays::put(a.du, m, products::along_u(s, uv, m)),
        dv: arrays::put(a.dv, m, products::along_v(s, uv, m)),
    }
}

fn next_norm(cross: &[f64; 63], norm: &[f64; 21], m: usize) -> [f64; 21]
    requires { (0 < m) × (m < 20) }
    ensures { result ≡ next_norm cross.now norm.now m }
{
    let p = arrays::derivative_dot(cross, cross, m - 1);
    let q = products::derivative_product(norm, norm, m - 1);
    products::put_number(*norm, m, (p - q) / norm[0])
}

fn next_normal(c: &Carried, a: &Normal, m: usize) -> Normal
    requires { (0 < m) × (m < 20) }
    ensures { result ≡ next_normal c.now a.now m }
{
    let cross = arrays::put(a.cross, m, products::cross_entry(&c.du, &c.dv, m));
    let norm = next_norm(&cross, &a.norm, m);
    let unit = arrays::put(a.unit, m, products::rational_entry(&cross, &norm, m));
    Normal { cross, norm, unit }
}

// From the entries up to the order n, at most 18, and the centre up to the next: all entries of the order n + 1.
#[tactic(auto, unfolding(crate::specs::SurfaceInfo::routine))]
pub fn routine(s: &[f64; 693], center: &[f64; 63], info: SurfaceInfo, n: usize) -> SurfaceInfo
    ensures { result ≡ routine_of (vector_surface_numbers s.now) center.now info (suc (min n 18)) }
{
    let m = n.min(18) + 1;
    let uv = next_parameters(s, center, &info, m);
    let carried = next_carried(s, &uv, &info.carried, m);
    let normal = next_normal(&carried, &info.normal, m);
    SurfaceInfo {
        uv,
        carried,
        normal,
    }
}
