// A recipe over jets of a crate's own.
ghost use Rattle.std.specs.Prelude.{◌≡◌};
ghost use Rattle.std.proofs.Common.{rules};
ghost use Rattle.roads.specs.Recipe.{built};
ghost use Rattle.callers.specs.Parity.{parity};

use refusals::Refusal;
use roads::{Jet, Operation, Recipe};

// Of a number, whether it is odd.
#[derive(Clone, Copy)]
pub struct Parity {
    pub order: usize,
    pub odd: bool,
}

impl Jet for Parity {
    ghost kind = { parity };

    ghost small = { Prim.search rules };

    fn order(&self) -> usize {
        self.order
    }

    fn cut(self, order: usize) -> Parity {
        Parity { order, ..self }
    }

    fn apply(operation: Operation, a: Parity, b: Parity) -> Result<Parity, Refusal> {
        let odd = match operation {
            Operation::Sum | Operation::Difference => a.odd != b.odd,
            Operation::Product => a.odd && b.odd,
            Operation::Quotient if !b.odd => return Err(Refusal::DivisionByZero),
            Operation::Quotient => a.odd,
        };
        Ok(Parity { odd, ..a })
    }
}

// As `Recipe::build` promises it.
pub fn build(recipe: Recipe<Parity>) -> Result<Parity, Refusal>
    ensures { result ≡ built parity recipe.inputs recipe.jets recipe.steps recipe.program }
{
    recipe.build()
}

#[cfg(test)]
mod tests {
    use super::{Operation, Parity, Recipe, build};
    use refusals::Refusal;
    use roads::Step;

    fn recipe(inputs: usize, last: Operation) -> Recipe<Parity> {
        let odd = Parity {
            order: 7,
            odd: true,
        };
        let even = Parity {
            order: 3,
            odd: false,
        };
        let sum = Step {
            operation: Operation::Sum,
            left: 0,
            right: 1,
        };
        let then = Step {
            operation: last,
            left: 2,
            right: 1,
        };
        let mut program = [sum; 12];
        program[1] = then;
        Recipe {
            inputs,
            jets: [odd, even, odd, odd],
            steps: 2,
            program,
        }
    }

    #[test]
    fn built(rt: HostRuntime) {
        let made = build(recipe(2, Operation::Product));
        assert!(rt;
            matches!(
                made,
                Ok(Parity {
                    order: 3,
                    odd: false
                })
            )
        );
        let made = build(recipe(2, Operation::Sum));
        assert!(rt;
            matches!(
                made,
                Ok(Parity {
                    order: 3,
                    odd: true
                })
            )
        );
        let made = build(recipe(2, Operation::Quotient));
        assert!(rt; matches!(made, Err(Refusal::DivisionByZero)));
        let made = build(recipe(0, Operation::Sum));
        assert!(rt; matches!(made, Err(Refusal::NoRecipe)));
    }
}
