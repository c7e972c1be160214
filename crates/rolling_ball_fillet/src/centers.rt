// The ball's centre, its contact points and their parameters along the edge, as jets. Each `requires` is met by the callers.
ghost use Rattle.std.specs.Prelude.{◌≡◌, ◌<◌};
ghost use Rattle.rolling_ball_fillet.specs.Center.{placed as placed_at, ders_of, center_contacts};

use crate::{CenterContactDers, ContactCircle, RollingBallFilletSurface};
use contacts::{CenterContacts, Place};
use derivatives::ParameterCurve;
use refusals::Refusal;
use vector_derivatives::VectorCurveDerivatives;

// What is given, as arrays.
fn placed(f: &RollingBallFilletSurface, cc: &ContactCircle) -> Place
    ensures { result ≡ placed_at f.now cc.now }
{
    Place {
        edge: f.edge_curve.entries,
        radius: f.radius.entries,
        surface0: f.surface0.entries,
        surface1: f.surface1.entries,
        center: cc.center,
        foot0: cc.contact_point0.uv,
        foot1: cc.contact_point1.uv,
        normal0: f.normal0,
        normal1: f.normal1,
    }
}

// The five jets: the centre's of order n, the others one further.
fn ders_of(n: usize, a: CenterContacts) -> CenterContactDers
    requires { n < 20 }
    ensures { result ≡ ders_of n a }
{
    let CenterContacts {
        center,
        contact0,
        contact1,
        uv0,
        uv1,
    } = a;
    let u0 = uv0.u;
    let v0 = uv0.v;
    let u1 = uv1.u;
    let v1 = uv1.v;
    let k = n + 1;
    CenterContactDers {
        center_ders: VectorCurveDerivatives {
            order: n,
            entries: center,
        },
        contact0_ders: VectorCurveDerivatives {
            order: k,
            entries: contact0,
        },
        contact1_ders: VectorCurveDerivatives {
            order: k,
            entries: contact1,
        },
        uv0_ders: ParameterCurve {
            order: k,
            u: u0,
            v: v0,
        },
        uv1_ders: ParameterCurve {
            order: k,
            u: u1,
            v: v1,
        },
    }
}

// On all floats, finite or not.
#[tactic(auto, using(calculus::proofs::LoopCut::uncut), unfolding(crate::specs::Center::center_contacts))]
pub fn center_contacts(
    f: &RollingBallFilletSurface,
    cc: &ContactCircle,
    n: usize,
) -> Result<CenterContactDers, Refusal>
    requires { n < 20 }
    ensures { result ≡ center_contacts f.now cc.now n }
{
    let found = contacts::center_contacts(placed(f, cc), n)?;
    Ok(ders_of(n, found))
}
