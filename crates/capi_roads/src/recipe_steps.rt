// The steps of a recipe, three numbers each.
ghost use Rattle.std.specs.Prelude.{◌≡◌, ◌/◌, length};
ghost use Rattle.calculus.specs.Array.{filled};
ghost use Rattle.capi_roads.specs.Recipes.{step_of, step_at, blank_step};

use refusals::Refusal;
use roads::{Operation, Step};

// What stands for a step of no operation, which is the recipe's to refuse where it comes to it: 4 jets and 12 steps end at the number 15.
const NO_STEP: Step = Step {
    operation: Operation::Sum,
    left: 16,
    right: 16,
};

fn step_of(operation: usize, left: usize, right: usize) -> Result<Step, Refusal>
    ensures { result ≡ step_of operation left right }
{
    let operation = Operation::try_from(operation)?;
    Ok(Step {
        operation,
        left,
        right,
    })
}

// The first twelve steps, or all where there are fewer.
#[tactic(auto, unfolding(crate::specs::Recipes::step_at))]
pub fn read_steps(steps: &[usize]) -> [Step; 12]
    ensures { result ≡ filled 12 blank_step (step_at steps.now) (length steps.now / 3) }
{
    let blank = Step {
        operation: Operation::Sum,
        left: 0,
        right: 0,
    };
    let mut program = [blank; 12];
    for (i, step) in steps.chunks_exact(3).take(12).enumerate() {
        program[i] = step_of(step[0], step[1], step[2]).unwrap_or(NO_STEP);
    }
    program
}
