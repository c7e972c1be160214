// The fillet's partial derivatives by v, by u and v, and twice by v, from axis and angle. A NaN or an infinity passes through.
ghost use Rattle.std.specs.Prelude.{◌≡◌, ◌≤◌};
ghost use Rattle.ieee_vectors.specs.Vectors.{times};
ghost use Rattle.rolling_ball_fillet.specs.Partials.{arm_at, center_at, axis_at, angle_at, derivative_v, derivative_u_v, derivative_v_v};

use crate::{Share, VderInfo};
use ieee_vectors::Vector3;
use partials::Motion;
use rodrigues::Rotation;

// The centre, the arm from it to contact point 0, and the axis, derived k times.
fn center(info: &VderInfo, k: usize) -> Vector3
    ensures { result ≡ center_at info.now k }
{
    vector_formulas::vector_at(&info.cc_ders.center_ders.entries, k)
}

fn arm(info: &VderInfo, k: usize) -> Vector3
    ensures { result ≡ arm_at info.now k }
{
    let contact = vector_formulas::vector_at(&info.cc_ders.contact0_ders.entries, k);
    contact.sub(center(info, k))
}

fn axis(info: &VderInfo, k: usize) -> Vector3
    ensures { result ≡ axis_at info.now k }
{
    vector_formulas::vector_at(&info.axis_ders.entries, k)
}

// The rotation by the share of the angle; how it moves, derived k times.
fn turn(info: &VderInfo, at: Share) -> Rotation
    ensures axis { result.axis ≡ axis_at info.now 0 }
    ensures angle { result.angle ≡ at.angle }
{
    Rotation {
        axis: axis(info, 0),
        angle: at.angle,
    }
}

fn motion(info: &VderInfo, k: usize, u: f64) -> Motion
    requires { k ≤ 20 }
    ensures axis { result.axis ≡ axis_at info.now k }
    ensures angle { result.angle ≡ times (angle_at info.now k) u }
{
    Motion {
        axis: axis(info, k),
        angle: info.angle_ders.entries[k] * u,
    }
}

pub fn derivative_v(info: &VderInfo, at: Share) -> Vector3
    ensures { result ≡ derivative_v info.now at.u at.angle.s at.angle.c }
{
    partials::by_v(
        turn(info, at),
        motion(info, 1, at.u),
        center(info, 1),
        arm(info, 0),
        arm(info, 1),
    )
}

pub fn derivative_uv(info: &VderInfo, at: Share) -> Vector3
    ensures { result ≡ derivative_u_v info.now at.u at.angle.s at.angle.c }
{
    let angle = info.angle_ders.entries[0];
    let dangle = info.angle_ders.entries[1];
    partials::by_uv(
        turn(info, at),
        axis(info, 1),
        angle,
        dangle,
        at.u,
        arm(info, 0),
        arm(info, 1),
    )
}

pub fn derivative_vv(info: &VderInfo, at: Share) -> Vector3
    ensures { result ≡ derivative_v_v info.now at.u at.angle.s at.angle.c }
{
    partials::by_vv(
        turn(info, at),
        motion(info, 1, at.u),
        motion(info, 2, at.u),
        center(info, 2),
        arm(info, 0),
        arm(info, 1),
        arm(info, 2),
    )
}
