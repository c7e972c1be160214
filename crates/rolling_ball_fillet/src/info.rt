// The tests before axis and angle are worked out and before they are used, and on what is returned.
ghost use Rattle.std.specs.Prelude.{◌≡◌, ◌<◌, cond, Ok, Err};
ghost use Rattle.refusals.specs.declared.Refusal.TheVariants.{OrderAbove20, Shape};
ghost use Rattle.rolling_ball_fillet.specs.PartialAnswer.{short, finite_given, info_beyond, short_info, finite_info, finite_inputs};

use crate::{CenterContactDers, Share, VderInfo, jets};
use derivatives::CurveDerivatives;
use derivatives::jets::Jet;
use refusals::Refusal;

// 2 where a jet of the contacts or the radius has an order below k, as work at the order k - 1 needs.
pub fn reach(d: &CenterContactDers, r: &CurveDerivatives, k: usize) -> Result<(), Refusal>
    ensures { result ≡ cond (short d.now r.now k) (Err Shape) (Ok tt) }
{
    if jets::short(d, k) || r.order < k {
        return Err(Refusal::Shape);
    }
    Ok(())
}

pub fn finite_given(d: &CenterContactDers, r: &CurveDerivatives, angle: f64, n: usize) -> bool
    requires { n < 20 }
    ensures { result ≡ finite_given d.now r.now angle n }
{
    jets::are_finite(d, n) && r.is_finite(n + 1) && ieee::is_finite(angle)
}

// To use axis and angle at the order k: 1 where an order is too high; 2 where one is too low; whether what is read is finite.
pub fn within(i: &VderInfo) -> Result<(), Refusal>
    ensures { result ≡ cond (info_beyond i.now) (Err OrderAbove20) (Ok tt) }
{
    let record = 19 < i.cc_ders.center_ders.order || jets::above_20(&i.cc_ders);
    if record || 20 < i.axis_ders.order || 20 < i.angle_ders.order {
        return Err(Refusal::OrderAbove20);
    }
    Ok(())
}

pub fn info_reaches(i: &VderInfo, k: usize) -> Result<(), Refusal>
    requires { k < 20 }
    ensures { result ≡ cond (short_info i.now k) (Err Shape) (Ok tt) }
{
    let record = i.cc_ders.center_ders.order < k || jets::short(&i.cc_ders, k + 1);
    if record || i.axis_ders.order < k || i.angle_ders.order < k {
        return Err(Refusal::Shape);
    }
    Ok(())
}

pub fn is_finite(i: &VderInfo, n: usize) -> bool
    requires { n < 20 }
    ensures { result ≡ finite_info i.now n }
{
    let axis = jets::are_finite(&i.cc_ders, n) && i.axis_ders.is_finite(n);
    axis && i.angle_ders.is_finite(n)
}

pub fn finite_inputs(i: &VderInfo, k: usize, at: Share) -> bool
    requires { k < 20 }
    ensures { result ≡ finite_inputs i.now k at.u at.angle.s at.angle.c }
{
    is_finite(i, k) && at.is_finite()
}
