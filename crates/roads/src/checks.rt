// The checks of a recipe.
ghost use Rattle.std.specs.Prelude.{◌≡◌, ◌≤◌, length, take};
ghost use Rattle.roads.specs.Recipe.{names_earlier, well_formed};

use crate::Step;

// Whether each step names numbers before its own.
fn names_earlier(inputs: usize, program: &[Step]) -> bool
    requires { (inputs ≤ 4) × (length program.now ≤ 12) }
    ensures { result ≡ names_earlier inputs program.now }
{
    for (i, step) in program.iter().enumerate() {
        if inputs + i <= step.left || inputs + i <= step.right {
            return false;
        }
    }
    true
}

// Whether the counts are in range, and each step names numbers before its own.
pub fn well_formed(inputs: usize, steps: usize, program: &[Step; 12]) -> bool
    ensures { result ≡ well_formed inputs steps (take steps program.now) }
{
    matches!(inputs, 1..=4) && matches!(steps, 1..=12) && names_earlier(inputs, &program[..steps])
}
