// Which of the operations on two jets divides.
ghost use Rattle.std.specs.Prelude.{◌≡◌};
ghost use Rattle.derivatives.specs.Inner.{division_by_zero};

use calculus::Operation;

// Whether the operation divides by y where that is zero.
pub fn division_by_zero(f: Operation, y: f64) -> bool
    ensures { result ≡ division_by_zero f y }
{
    matches!(f, Operation::Quotient) && y == 0.0
}
