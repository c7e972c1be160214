// The fillet's partial derivatives along the edge, from the derivatives of its centre, contact points, axis and angle, and those of the axis and the
// angle; and which partials are served. NaN and infinities pass through.
#![tactic(auto)]

ghost use Rattle.std.specs.Prelude.{◌≡◌, ◌≤◌, min};
ghost use Rattle.formulas.specs.Numbers.{curve_numbers};
ghost use Rattle.partials.specs.Partials.{by_v, by_u_v, by_v_v};
ghost use Rattle.partials.specs.AxisAngle.{axis_angle};
ghost use Rattle.partials.specs.Pairs.{decided, order_of};

use ieee_vectors::Vector3;
use refusals::Refusal;
use rodrigues::Rotation;
use rotations::Parameter;

mod angles;
mod rotations;

// The partials along the edge that are served.
#[derive(Clone, Copy)]
pub enum EdgePartial {
    V,
    Uv,
    Vv,
}

#[derive(Clone, Copy)]
pub enum Decision {
    Arc,
    Edge(EdgePartial),
    Unserved,
}

// How a rotation moves: a derivative of its axis, and of its angle.
#[derive(Clone, Copy)]
pub struct Motion {
    pub axis: Vector3,
    pub angle: f64,
}

// How the circle's axis and angle move along the edge, and the clamped cosine of the angle.
#[derive(Clone, Copy)]
pub struct AxisAngle {
    pub axis: [f64; 63],
    pub angle: [f64; 21],
    pub cosine: f64,
}

// m times by u and n times by v. The match with a range for m is document 01's form.
pub fn decide(m: usize, n: usize) -> Decision
    ensures { result ≡ decided m n }
{
    match (m, n) {
        (0..=20, 0) => Decision::Arc,
        (0, 1) => Decision::Edge(EdgePartial::V),
        (1, 1) => Decision::Edge(EdgePartial::Uv),
        (0, 2) => Decision::Edge(EdgePartial::Vv),
        _ => Decision::Unserved,
    }
}

// How often a partial is derived along the edge.
pub fn order(p: EdgePartial) -> usize
    ensures value { result ≡ order_of p }
    ensures small { result ≤ 2 }
{
    match p {
        EdgePartial::V => 1,
        EdgePartial::Uv => 1,
        EdgePartial::Vv => 2,
    }
}

// The partials from their parts: the arm and its derivatives are contact point 0 less the centre.
pub fn by_v(turn: Rotation, a: Motion, dcenter: Vector3, arm: Vector3, darm: Vector3) -> Vector3
    ensures { result ≡ by_v turn.axis turn.angle.s turn.angle.c a.axis a.angle dcenter arm darm }
{
    let turned = rotations::turn_v(turn, a).image(arm);
    let moved = turn.derived(0, 0, 0, 0).image(darm);
    dcenter.add(turned).add(moved)
}

pub fn by_uv(
    turn: Rotation,
    a: Vector3,
    angle: f64,
    dangle: f64,
    u: f64,
    arm: Vector3,
    darm: Vector3,
) -> Vector3
    ensures { result ≡ by_u_v turn.axis turn.angle.s turn.angle.c a angle dangle u arm darm }
{
    let by_axis = rotations::turn_by_axis(turn, a, angle);
    let by_angle = rotations::turn_by_angle(turn, angle, dangle, u);
    let once = rotations::by_one(turn, Parameter::Angle);
    let turned = by_axis.add(by_angle).image(arm);
    let moved = once.mul(angle).image(darm);
    turned.add(moved)
}

pub fn by_vv(
    turn: Rotation,
    a: Motion,
    da: Motion,
    ddcenter: Vector3,
    arm: Vector3,
    darm: Vector3,
    ddarm: Vector3,
) -> Vector3
    ensures { result ≡ by_v_v turn.axis turn.angle.s turn.angle.c a.axis a.angle da.axis da.angle ddcenter arm darm ddarm }
{
    let coef0 = rotations::one_terms(turn, da);
    let coef1 = rotations::two_terms(turn, a);
    let coef2 = rotations::one_terms(turn, a);
    let turned = coef0.add(coef1).image(arm);
    let moved = coef2.mul(2.0).image(darm);
    let last = turn.derived(0, 0, 0, 0).image(ddarm);
    ddcenter.add(turned).add(moved).add(last)
}

// Axis and angle up to the order n, at most 19, from the centre, the contact points, the radius r and the angle itself; refused where a division by
// zero is due.
pub fn axis_angle(
    center: &[f64; 63],
    contact0: &[f64; 63],
    contact1: &[f64; 63],
    r: &[f64; 21],
    angle: f64,
    n: usize,
) -> Result<AxisAngle, Refusal>
    ensures { result ≡ axis_angle center.now contact0.now contact1.now (curve_numbers r.now) angle (min n 19) }
{
    let n = n.min(19);
    let p = angles::arm(contact0, center, n);
    let q = angles::arm(contact1, center, n);
    let cross = vector_formulas::crosses(&p, &q, n);
    let length = vector_formulas::norm(&cross, n);
    if angles::division_by_zero(length[0], r[0]) {
        return Err(Refusal::DivisionByZero);
    }
    let axis = vector_formulas::rational(&cross, &length, n);
    let angle = angles::angles(&p, &q, &length, r, angle, n);
    let cosine = angles::cosine(&p, &q, r[0]);
    Ok(AxisAngle {
        axis,
        angle,
        cosine,
    })
}
