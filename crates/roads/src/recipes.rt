// A recipe is checked and worked.
ghost use Rattle.std.specs.Prelude.{◌≡◌, true, map, ℕ, ◌≤◌, ◌<◌, length, get_or};
ghost use Rattle.roads.specs.Recipe.{names_earlier, worked, built};

use crate::{Jet, Recipe, Step, checks};
use refusals::Refusal;

// The orders of the four jets.
fn orders<J: Jet>(jets: &[J; 4]) -> [usize; 4]
    ensures { result ≡ map J.kind.order jets.now }
{
    jets.each_ref().map(J::order)
}

// The jets given, at the order of work.
fn cut<J: Jet>(given: &[J], order: usize) -> [J; 16]
    requires { (0 < length given.now) × (length given.now ≤ 4) }
    ensures { (i : ℕ) → i < length given.now → get_or result i J.kind.blank ≡ J.kind.cut order (get_or given.now i J.kind.blank) }
{
    let mut jet_of = match J::ZERO {
        Some(zero) => [zero; 16],
        None => [given[0]; 16],
    };
    for (i, jet) in given.iter().enumerate() {
        jet_of[i] = jet.cut(order);
    }
    jet_of
}

// The steps in turn, on the jets by their numbers; the last number's jet is the result.
fn work<J: Jet>(mut jet_of: [J; 16], inputs: usize, program: &[Step]) -> Result<J, Refusal>
    requires { (0 < inputs) × (inputs ≤ 4) × (length program.now ≤ 12) × (names_earlier inputs program.now ≡ true) }
    ensures { result ≡ worked J.kind (λ i. get_or jet_of i J.kind.blank) inputs program.now }
{
    for (i, step) in program.iter().enumerate() {
        let jet = J::apply(step.operation, jet_of[step.left], jet_of[step.right])?;
        jet_of[inputs + i] = jet;
    }
    let last = inputs + program.len() - 1;
    Ok(jet_of[last])
}

impl<J: Jet> Recipe<J> {
    // The last step's jet, or the first refusal.
    pub fn build(self) -> Result<J, Refusal>
        ensures { result ≡ built J.kind self.inputs self.jets self.steps self.program }
    {
        let all = orders(&self.jets);
        let count = self.inputs.min(4);
        if calculus::some_above_20(&all[..count]) {
            return Err(Refusal::OrderAbove20);
        }
        if !checks::well_formed(self.inputs, self.steps, &self.program) {
            return Err(Refusal::NoRecipe);
        }
        let order = calculus::smallest(&all[..count]);
        let jet_of = cut(&self.jets[..self.inputs], order);
        work(jet_of, self.inputs, &self.program[..self.steps])
    }
}
