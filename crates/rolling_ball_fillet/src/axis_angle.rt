// How the circle's axis and angle move along the edge, as jets. Each `requires` is met by the callers.
ghost use Rattle.std.specs.Prelude.{◌≡◌, ◌<◌};
ghost use Rattle.formulas.specs.Numbers.{curve_numbers};
ghost use Rattle.rolling_ball_fillet.specs.PartialAnswer.{with_cosine, vder_info};

use crate::{CenterContactDers, VderInfo, VderInfoWithCosine, jets};
use derivatives::CurveDerivatives;
use partials::AxisAngle;
use refusals::Refusal;
use vector_derivatives::VectorCurveDerivatives;

// Axis and angle of the order n beside the centre and contacts.
fn with_cosine(d: &CenterContactDers, n: usize, a: AxisAngle) -> VderInfoWithCosine
    requires { n < 20 }
    ensures { result ≡ with_cosine d.now n a }
{
    let AxisAngle {
        axis,
        angle,
        cosine,
    } = a;
    VderInfoWithCosine {
        info: VderInfo {
            cc_ders: jets::cut_ders(d, n),
            axis_ders: VectorCurveDerivatives {
                order: n,
                entries: axis,
            },
            angle_ders: CurveDerivatives {
                order: n,
                entries: angle,
            },
        },
        cosine,
    }
}

// On all floats, finite or not.
#[tactic(auto, using(calculus::proofs::LoopCut::uncut), unfolding(crate::specs::PartialAnswer::vder_info))]
pub fn vder_info(
    d: &CenterContactDers,
    r: &[f64; 21],
    angle: f64,
    n: usize,
) -> Result<VderInfoWithCosine, Refusal>
    requires { n < 20 }
    ensures { result ≡ vder_info d.now (curve_numbers r.now) angle n }
{
    let center = &d.center_ders.entries;
    let contact0 = &d.contact0_ders.entries;
    let contact1 = &d.contact1_ders.entries;
    let found = partials::axis_angle(center, contact0, contact1, r, angle, n)?;
    Ok(with_cosine(d, n, found))
}
