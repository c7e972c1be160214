// What the fillet's functions for C and Rust over lists stand on: its records read off lists, and its answers into the lists lent.
#![tactic(auto)]

ghost use Rattle.std.specs.Prelude.{◌≡◌, ℕ};
ghost use Rattle.refusals.specs.Number.{number_of};
ghost use Rattle.fillet_lists.specs.Delivery.{Five, deliver_contacts, Three, deliver_info};

use given::Lent;
use refusals::Refusal;
use rolling_ball_fillet::{CenterContactDers, VderInfoWithCosine};

pub mod records;

// The centre, the contacts and their parameters; or the refusal, and the lists stay as they were.
#[tactic(auto, unfolding(crate::specs::Delivery::deliver_contacts))]
pub fn deliver_contacts(
    answer: Result<CenterContactDers, Refusal>,
    center: &mut [f64],
    contact0: &mut [f64],
    contact1: &mut [f64],
    uv0: &mut [f64],
    uv1: &mut [f64],
) -> Result<(), Refusal>
    ensures { ◌≡◌ {A = ℕ × Five} (number_of result, (center.new, (contact0.new, (contact1.new, (uv0.new, uv1.new))))) (deliver_contacts answer (center.old, (contact0.old, (contact1.old, (uv0.old, uv1.old))))) }
{
    let d = answer?;
    // Where each list has the length due, none of these is refused (proofs/Delivered.antt); of any other `deliver_contacts` says that it stays.
    let _ = d.center_ders.into_list(center);
    let _ = d.contact0_ders.into_list(contact0);
    let _ = d.contact1_ders.into_list(contact1);
    let _ = d.uv0_ders.into_list(uv0);
    let _ = d.uv1_ders.into_list(uv1);
    Ok(())
}

// Axis, angle and cosine; or the refusal.
#[tactic(auto, unfolding(crate::specs::Delivery::deliver_info))]
pub fn deliver_info(
    answer: Result<VderInfoWithCosine, Refusal>,
    axis: &mut [f64],
    angle: &mut [f64],
    cosine: &mut [f64],
) -> Result<(), Refusal>
    ensures { ◌≡◌ {A = ℕ × Three} (number_of result, (axis.new, (angle.new, cosine.new))) (deliver_info answer (axis.old, (angle.old, cosine.old))) }
{
    let found = answer?;
    // As in `deliver_contacts`.
    let _ = found.info.axis_ders.into_list(axis);
    let _ = found.info.angle_ders.into_list(angle);
    let _ = f64::write(Ok(found.cosine), cosine);
    Ok(())
}
