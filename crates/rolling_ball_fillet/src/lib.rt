// The fillet that a rolling ball leaves between two surfaces: its contact circle, how that turns, and the fillet's partial derivatives. Refused, in this
// order: an order above 20, a jet's that is too low, a pair of orders that is not served, a float handed in that is not finite, a determinant or a
// divisor that is zero, and a returned float that is not finite.
#![tactic(auto)]

ghost use Rattle.std.specs.Prelude.{◌≡◌, ◌&&◌};
ghost use Rattle.std.specs.Float.Ieee.Scale.{finite};
ghost use Rattle.rodrigues.specs.Rotation.{pair_of};
ghost use Rattle.rolling_ball_fillet.specs.Answers.{rotation_answer, finite_contact, finite_circle, derivative_answer};
ghost use Rattle.rolling_ball_fillet.specs.Center.{center_contact_answer};
ghost use Rattle.rolling_ball_fillet.specs.Partials.{derivative_v, derivative_u_v, derivative_v_v};
ghost use Rattle.rolling_ball_fillet.specs.PartialAnswer.{vder_info_answer, partial_answer};
ghost use Rattle.rolling_ball_fillet.specs.SubDer.{sub_der_mn};

use derivatives::{CurveDerivatives, ParameterCurve};
use ieee_vectors::{Finite, Matrix3, Vector2, Vector3};
use partials::EdgePartial;
use refusals::Refusal;
pub use rodrigues::Pair;
use rodrigues::Rotation;
use sub_der::Spot;
use vector_derivatives::{VectorCurveDerivatives, VectorSurfaceDerivatives};

mod axis_angle;
mod centers;
mod checks;
mod edge_partials;
mod info;
mod inputs;
mod jets;
mod sub_der;

// Where the ball touches a surface, and the surface's parameters there.
#[derive(Clone, Copy)]
pub struct ContactPoint {
    pub point: Vector3,
    pub uv: Vector2,
}

// The arc of the ball's great circle from contact point 0 to contact point 1: `angle` about `axis`.
#[derive(Clone, Copy)]
pub struct ContactCircle {
    pub center: Vector3,
    pub axis: Vector3,
    pub angle: f64,
    pub contact_point0: ContactPoint,
    pub contact_point1: ContactPoint,
}

// The edge, both surfaces and the radius at one place of the edge, as jets, and the surfaces' unit normals there.
#[derive(Clone, Copy)]
pub struct RollingBallFilletSurface {
    pub edge_curve: VectorCurveDerivatives,
    pub surface0: VectorSurfaceDerivatives,
    pub surface1: VectorSurfaceDerivatives,
    pub radius: CurveDerivatives,
    pub normal0: Vector3,
    pub normal1: Vector3,
}

// How the ball's centre, its two contact points and their parameters move along the edge.
#[derive(Clone, Copy)]
pub struct CenterContactDers {
    pub center_ders: VectorCurveDerivatives,
    pub contact0_ders: VectorCurveDerivatives,
    pub contact1_ders: VectorCurveDerivatives,
    pub uv0_ders: ParameterCurve,
    pub uv1_ders: ParameterCurve,
}

// How the circle's axis and angle move along the edge, beside its centre and contacts.
#[derive(Clone, Copy)]
pub struct VderInfo {
    pub cc_ders: CenterContactDers,
    pub axis_ders: VectorCurveDerivatives,
    pub angle_ders: CurveDerivatives,
}

// With the clamped cosine of the angle.
#[derive(Clone, Copy)]
pub struct VderInfoWithCosine {
    pub info: VderInfo,
    pub cosine: f64,
}

// The share u of the arc that is passed, and the sine and cosine of angle·u.
#[derive(Clone, Copy)]
struct Share {
    u: f64,
    angle: Pair,
}

impl Share {
    fn at(u: f64, s: f64, c: f64) -> Share
        ensures u { result.u ≡ u }
        ensures angle { result.angle ≡ pair_of s c }
    {
        Share {
            u,
            angle: Pair { s, c },
        }
    }

    fn is_finite(self) -> bool
        ensures { result ≡ (finite self.u && finite self.angle.s && finite self.angle.c) }
    {
        ieee::is_finite(self.u) && ieee::is_finite(self.angle.s) && ieee::is_finite(self.angle.c)
    }
}

// Rodrigues' rotation, derived x, y and z times by the axis' components and n times by the angle, whose sine and cosine are s and c.
pub fn rot_der_n(
    x: usize,
    y: usize,
    z: usize,
    n: usize,
    axis: Vector3,
    s: f64,
    c: f64,
) -> Result<Matrix3, Refusal>
    ensures { result ≡ rotation_answer x y z n axis s c }
{
    let turn = Rotation {
        axis,
        angle: Pair { s, c },
    };
    checks::served(x, y, z, n)?;
    vectors::from_inputs(checks::finite_turn(turn), turn.derived(x, y, z, n))
}

pub fn from_axis_angle(axis: Vector3, s: f64, c: f64) -> Result<Matrix3, Refusal>
    ensures { result ≡ rotation_answer 0 0 0 0 axis s c }
{
    rot_der_n(0, 0, 0, 0, axis, s, c)
}

impl ContactPoint {
    pub fn is_finite(self) -> bool
        ensures { result ≡ finite_contact self }
    {
        self.point.is_finite() && ieee::is_finite(self.uv.x) && ieee::is_finite(self.uv.y)
    }
}

impl ContactCircle {
    pub fn is_finite(self) -> bool
        ensures { result ≡ finite_circle self }
    {
        let turn = self.center.is_finite() && self.axis.is_finite() && ieee::is_finite(self.angle);
        turn && self.contact_point0.is_finite() && self.contact_point1.is_finite()
    }

    // The derivative of order m along the arc, by the share u of it that is passed; s and c are the sine and cosine of angle·u.
    pub fn derivative_n(self, m: usize, s: f64, c: f64) -> Result<Vector3, Refusal>
        ensures { result ≡ derivative_answer self m s c }
    {
        if 20 < m {
            return Err(Refusal::OrderAbove20);
        }
        let inputs = self.is_finite() && ieee::is_finite(s) && ieee::is_finite(c);
        vectors::from_inputs(inputs, sub_der::along_arc(&self, m, Pair { s, c }))
    }
}

impl CenterContactDers {
    // The axis and the angle up to the centre's order, from the radius' derivatives and the angle itself.
    pub fn vder_info(
        self,
        rders: CurveDerivatives,
        angle: f64,
    ) -> Result<VderInfoWithCosine, Refusal>
        ensures { result ≡ vder_info_answer self rders angle }
    {
        let n = self.center_ders.order;
        if 19 < n || jets::above_20(&self) || 20 < rders.order {
            return Err(Refusal::OrderAbove20);
        }
        info::reach(&self, &rders, n + 1)?;
        if !info::finite_given(&self, &rders, angle, n) {
            return Err(Refusal::InputNotFinite);
        }
        let found = axis_angle::vder_info(&self, &rders.entries, angle, n)?;
        let finite = info::is_finite(&found.info, n) && ieee::is_finite(found.cosine);
        finite.then_some(found).ok_or(Refusal::AnswerNotFinite)
    }
}

// The fillet's partial derivatives at the share u of the arc; s and c are the sine and cosine of angle·u.
impl VderInfo {
    pub fn derivative_v(self, u: f64, s: f64, c: f64) -> Result<Vector3, Refusal>
        ensures { result ≡ partial_answer derivative_v 1 self u s c }
    {
        sub_der::partial_answer(EdgePartial::V, &self, Share::at(u, s, c))
    }

    pub fn derivative_uv(self, u: f64, s: f64, c: f64) -> Result<Vector3, Refusal>
        ensures { result ≡ partial_answer derivative_u_v 1 self u s c }
    {
        sub_der::partial_answer(EdgePartial::Uv, &self, Share::at(u, s, c))
    }

    pub fn derivative_vv(self, u: f64, s: f64, c: f64) -> Result<Vector3, Refusal>
        ensures { result ≡ partial_answer derivative_v_v 2 self u s c }
    {
        sub_der::partial_answer(EdgePartial::Vv, &self, Share::at(u, s, c))
    }
}

impl RollingBallFilletSurface {
    // How the centre, the contact points and their parameters move along the edge, up to the order n.
    pub fn sub_center_contacts_ders(
        self,
        cc: ContactCircle,
        n: usize,
    ) -> Result<CenterContactDers, Refusal>
        ensures { result ≡ center_contact_answer self cc n }
    {
        if 19 < n || inputs::above_20(&self) {
            return Err(Refusal::OrderAbove20);
        }
        inputs::reach(&self, n + 1)?;
        if !inputs::finite_given(&self, &cc, n + 1) {
            return Err(Refusal::InputNotFinite);
        }
        let ders = centers::center_contacts(&self, &cc, n)?;
        let finite = jets::are_finite(&ders, n);
        finite.then_some(ders).ok_or(Refusal::AnswerNotFinite)
    }

    // The fillet's partial derivative, m times by u and n times by v, at the share u of the arc; s and c are the sine and cosine of angle·u.
    pub fn sub_der_mn(
        self,
        m: usize,
        n: usize,
        u: f64,
        cc: ContactCircle,
        angle: f64,
        s: f64,
        c: f64,
    ) -> Result<Vector3, Refusal>
        ensures { result ≡ sub_der_mn self m n u cc angle s c }
    {
        if 20 < m || 20 < n || inputs::above_20(&self) {
            return Err(Refusal::OrderAbove20);
        }
        let spot = Spot {
            fillet: &self,
            circle: &cc,
            angle,
            at: Share::at(u, s, c),
        };
        spot.by_decision(partials::decide(m, n), m)
    }
}
