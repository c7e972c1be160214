// What a recipe asks of its jets, and the jets of surfaces and of curves.
ghost use Rattle.std.specs.Prelude.{◌≡◌, ◌*◌, ◌^◌, ◌<◌};
ghost use Rattle.std.specs.Mem.{type_size};
ghost use Rattle.std.proofs.Common.{rules};
ghost use Rattle.roads.specs.Recipe.{RecipeKind};
ghost use Rattle.roads.specs.Roads.{curve_steps, surface_steps};

use calculus::Operation;
use exact::{CurveDerivatives, SurfaceDerivatives};
use refusals::Refusal;

pub trait Jet: Copy {
    ghost kind: { RecipeKind Self };

    // What a recipe's places hold before a jet is put there; it is not read. A kind that has none has copies of a jet there, which stand on the stack
    // twice.
    const ZERO: Option<Self> = None;

    fn order(&self) -> usize
        ensures { result ≡ kind.order self.now };

    // The same jet at a smaller order: what it holds past that is not read.
    fn cut(self, order: usize) -> Self
        ensures { result ≡ kind.cut order self };

    // What a step makes of two jets.
    fn apply(operation: Operation, a: Self, b: Self) -> Result<Self, Refusal>
        ensures { result ≡ kind.apply operation a b };

    // The sixteen jets of a recipe at work fit in memory.
    ghost small: { 16 * type_size Self.row < 2 ^ 63 };
}

impl Jet for CurveDerivatives {
    ghost kind = { curve_steps };

    const ZERO: Option<CurveDerivatives> = Some(CurveDerivatives {
        order: 0,
        entries: [0; 21],
    });

    ghost small = { Prim.search rules };

    fn order(&self) -> usize {
        self.order
    }

    fn cut(self, order: usize) -> CurveDerivatives {
        CurveDerivatives { order, ..self }
    }

    fn apply(
        operation: Operation,
        a: CurveDerivatives,
        b: CurveDerivatives,
    ) -> Result<CurveDerivatives, Refusal> {
        match operation {
            Operation::Sum => a.sum(b),
            Operation::Difference => a.difference(b),
            Operation::Product => a.combinatorial_derivatives(b),
            Operation::Quotient => a.quotient(b),
        }
    }
}

impl Jet for SurfaceDerivatives {
    ghost kind = { surface_steps };

    const ZERO: Option<SurfaceDerivatives> = Some(SurfaceDerivatives {
        order: 0,
        entries: [0; 231],
    });

    ghost small = { Prim.search rules };

    fn order(&self) -> usize {
        self.order
    }

    fn cut(self, order: usize) -> SurfaceDerivatives {
        SurfaceDerivatives { order, ..self }
    }

    fn apply(
        operation: Operation,
        s: SurfaceDerivatives,
        t: SurfaceDerivatives,
    ) -> Result<SurfaceDerivatives, Refusal> {
        match operation {
            Operation::Sum => s.sum(t),
            Operation::Difference => s.difference(t),
            Operation::Product => s.combinatorial_derivatives(t),
            Operation::Quotient => s.quotient(t),
        }
    }
}
