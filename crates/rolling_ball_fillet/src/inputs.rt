// The tests on what is given for the centre and the contacts.
ghost use Rattle.std.specs.Prelude.{◌≡◌, cond, ◌≤◌, Ok, Err};
ghost use Rattle.refusals.specs.declared.Refusal.TheVariants.{Shape};
ghost use Rattle.rolling_ball_fillet.specs.Center.{jets_above20, short, finite_parts, finite_given};

use crate::{ContactCircle, RollingBallFilletSurface};
use derivatives::jets::Jet;
use ieee_vectors::Finite;
use refusals::Refusal;

// Whether one of the four jets' orders is above 20.
pub fn above_20(f: &RollingBallFilletSurface) -> bool
    ensures { result ≡ jets_above20 f.now }
{
    let curves = 20 < f.edge_curve.order || 20 < f.radius.order;
    let surfaces = 20 < f.surface0.order || 20 < f.surface1.order;
    curves || surfaces
}

// 2 where a jet's order is below n.
pub fn reach(f: &RollingBallFilletSurface, n: usize) -> Result<(), Refusal>
    ensures { result ≡ cond (short f.now n) (Err Shape) (Ok tt) }
{
    let curves = f.edge_curve.order < n || f.radius.order < n;
    let surfaces = f.surface0.order < n || f.surface1.order < n;
    if curves || surfaces {
        return Err(Refusal::Shape);
    }
    Ok(())
}

// Whether what is given is finite, of the edge, the radius and the surfaces the entries up to the orders e, r, s and t.
pub fn finite_upto(
    f: &RollingBallFilletSurface,
    cc: &ContactCircle,
    e: usize,
    r: usize,
    s: usize,
    t: usize,
) -> bool
    requires { (e ≤ 20) × (r ≤ 20) × (s ≤ 20) × (t ≤ 20) }
    ensures { result ≡ finite_parts f.now cc.now e r s t }
{
    let circle = cc.is_finite() && (f.normal0.is_finite() && f.normal1.is_finite());
    let curves = f.edge_curve.is_finite(e) && f.radius.is_finite(r);
    let surfaces = f.surface0.is_finite(s) && f.surface1.is_finite(t);
    circle && (curves && surfaces)
}

// The same up to one order for all jets.
pub fn finite_given(f: &RollingBallFilletSurface, cc: &ContactCircle, n: usize) -> bool
    requires { n ≤ 20 }
    ensures { result ≡ finite_given f.now cc.now n }
{
    finite_upto(f, cc, n, n, n, n)
}
