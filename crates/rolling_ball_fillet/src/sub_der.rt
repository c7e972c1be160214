// The fillet's partial derivatives by the pair of their orders.
ghost use Rattle.std.specs.Prelude.{◌≡◌, false, ◌&&◌, ◌≤◌};
ghost use Rattle.rolling_ball_fillet.specs.SubDer.{partial_by, from_contacts, finite_floats, by_edge, by_arc, by_decision};
ghost use Rattle.partials.specs.Pairs.{order_of};
ghost use Rattle.rolling_ball_fillet.specs.Answers.{derivative as derivative_of};
ghost use Rattle.rolling_ball_fillet.specs.Center.{center_contacts, radii, jets_above20, finite_given, finite_whole};
ghost use Rattle.rolling_ball_fillet.specs.PartialAnswer.{partial_answer};

use crate::{
    ContactCircle, RollingBallFilletSurface, Share, VderInfo, axis_angle, centers, edge_partials,
    info, inputs,
};
use ieee_vectors::Vector3;
use partials::{Decision, EdgePartial};
use refusals::Refusal;
use rodrigues::{Pair, Rotation};

fn partial(p: EdgePartial, info: &VderInfo, at: Share) -> Vector3
    ensures { result ≡ partial_by p info.now at.u at.angle.s at.angle.c }
{
    match p {
        EdgePartial::V => edge_partials::derivative_v(info, at),
        EdgePartial::Uv => edge_partials::derivative_uv(info, at),
        EdgePartial::Vv => edge_partials::derivative_vv(info, at),
    }
}

// From axis and angle that a caller hands in.
pub fn partial_answer(p: EdgePartial, i: &VderInfo, at: Share) -> Result<Vector3, Refusal>
    ensures { result ≡ partial_answer (partial_by p) (order_of p) i.now at.u at.angle.s at.angle.c }
{
    let n = partials::order(p);
    info::within(i)?;
    info::info_reaches(i, n)?;
    vectors::from_inputs(info::finite_inputs(i, n, at), partial(p, i, at))
}

// The circle's derivative along its arc.
pub fn along_arc(cc: &ContactCircle, m: usize, angle: Pair) -> Vector3
    ensures { result ≡ derivative_of cc.now m angle.s angle.c }
{
    let turn = Rotation {
        axis: cc.axis,
        angle,
    };
    rodrigues::arc_derivative(cc.center, turn, cc.angle, cc.contact_point0.point, m)
}

// A spot of a fillet: on a contact circle, whose angle is handed in beside it, at a share of the arc. No jet's order is above 20.
#[derive(Clone, Copy)]
pub struct Spot<'a> {
    pub fillet: &'a RollingBallFilletSurface,
    pub circle: &'a ContactCircle,
    pub angle: f64,
    pub at: Share,
    ghost low: { jets_above20 fillet.now ≡ false },
}

impl<'a> Spot<'a> {
    fn finite_floats(&self) -> bool
        ensures { result ≡ finite_floats self.now.angle self.now.at.u self.now.at.angle.s self.now.at.angle.c }
    {
        ieee::is_finite(self.angle) && self.at.is_finite()
    }

    // Whether what is given is finite, of the jets the entries up to the order k.
    fn finite_edge(&self, k: usize) -> bool
        requires { k ≤ 20 }
        ensures { result ≡ (finite_given self.now.fillet.now self.now.circle.now k && finite_floats self.now.angle self.now.at.u self.now.at.angle.s self.now.at.angle.c) }
    {
        inputs::finite_given(self.fillet, self.circle, k) && self.finite_floats()
    }

    // The same with each jet up to its own order.
    fn finite_whole(&self) -> bool
        ensures { result ≡ (finite_whole self.now.fillet.now self.now.circle.now && finite_floats self.now.angle self.now.at.u self.now.at.angle.s self.now.at.angle.c) }
    {
        let f = self.fillet;
        let e = f.edge_curve.order;
        let r = f.radius.order;
        let s = f.surface0.order;
        let t = f.surface1.order;
        inputs::finite_upto(f, self.circle, e, r, s, t) && self.finite_floats()
    }

    // The centre and contacts, axis and angle, and the partial.
    fn along_edge(&self, p: EdgePartial) -> Result<Vector3, Refusal>
        ensures { result ≡ from_contacts p (center_contacts self.now.fillet.now self.now.circle.now (order_of p)) (radii self.now.fillet.now) self.now.angle self.now.at.u self.now.at.angle.s self.now.at.angle.c }
    {
        let n = partials::order(p);
        let ders = centers::center_contacts(self.fillet, self.circle, n)?;
        let found = axis_angle::vder_info(&ders, &self.fillet.radius.entries, self.angle, n)?;
        vectors::returned(partial(p, &found.info, self.at))
    }

    // A partial along the edge reads the jets up to one order more.
    fn by_edge(&self, p: EdgePartial) -> Result<Vector3, Refusal>
        ensures { result ≡ by_edge p self.now.fillet.now self.now.circle.now self.now.angle self.now.at.u self.now.at.angle.s self.now.at.angle.c }
    {
        let k = partials::order(p) + 1;
        inputs::reach(self.fillet, k)?;
        if !self.finite_edge(k) {
            return Err(Refusal::InputNotFinite);
        }
        self.along_edge(p)
    }

    // A partial along the arc reads none of them, and tests all.
    fn by_arc(&self, m: usize) -> Result<Vector3, Refusal>
        ensures { result ≡ by_arc m self.now.fillet.now self.now.circle.now self.now.angle self.now.at.u self.now.at.angle.s self.now.at.angle.c }
    {
        vectors::from_inputs(
            self.finite_whole(),
            along_arc(self.circle, m, self.at.angle),
        )
    }

    pub fn by_decision(&self, d: Decision, m: usize) -> Result<Vector3, Refusal>
        ensures { result ≡ by_decision d m self.now.fillet.now self.now.circle.now self.now.angle self.now.at.u self.now.at.angle.s self.now.at.angle.c }
    {
        match d {
            Decision::Arc => self.by_arc(m),
            Decision::Edge(p) => self.by_edge(p),
            Decision::Unserved => Err(Refusal::PairNotServed),
        }
    }
}
