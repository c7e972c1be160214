// The kinds of jet that a recipe over lists has.
ghost use Rattle.std.specs.Prelude.{◌≡◌, ◌≤◌, refl, ℕ, suc};
ghost use prog.Memory.{align};
ghost use denote.Memory.{lone};
ghost use Rattle.capi_roads.specs.Recipes.{surface_size};

use exact::{CurveDerivatives, SurfaceDerivatives};
use given::{Lent, Listed};
use roads::Jet;

pub trait Jets: Jet + Listed<i64> + Lent<i64> {
    ghost size: { ℕ → ℕ };

    // How many numbers a jet of the order n has.
    fn size(n: usize) -> usize
        requires { n ≤ 20 }
        ensures { result ≡ size n };

    // A jet lies at a multiple of eight bytes, so that a recipe's four fit in memory beside its steps.
    ghost aligned: { align (lone Self.row.mir) ≡ 8 };
}

impl Jets for CurveDerivatives {
    ghost size = { λ n. suc n };

    ghost aligned = { refl };

    fn size(n: usize) -> usize {
        n + 1
    }
}

impl Jets for SurfaceDerivatives {
    ghost size = { surface_size };

    ghost aligned = { refl };

    fn size(n: usize) -> usize {
        calculus::surface_count(n)
    }
}
