// The tests of a rotation's orders and floats.
ghost use Rattle.std.specs.Prelude.{◌≡◌, cond, Ok, Err};
ghost use Rattle.refusals.specs.declared.Refusal.TheVariants.{OrderAbove20};
ghost use Rattle.rolling_ball_fillet.specs.Answers.{served_orders, finite_turn};

use ieee_vectors::Finite;
use refusals::Refusal;
use rodrigues::Rotation;

pub fn served(x: usize, y: usize, z: usize, n: usize) -> Result<(), Refusal>
    ensures { result ≡ cond (served_orders x y z n) (Ok tt) (Err OrderAbove20) }
{
    if 20 < x || 20 < y || 20 < z || 20 < n {
        return Err(Refusal::OrderAbove20);
    }
    Ok(())
}

pub fn finite_turn(turn: Rotation) -> bool
    ensures { result ≡ finite_turn turn.axis turn.angle.s turn.angle.c }
{
    turn.axis.is_finite() && ieee::is_finite(turn.angle.s) && ieee::is_finite(turn.angle.c)
}
