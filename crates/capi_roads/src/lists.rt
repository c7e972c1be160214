// A recipe as it is handed over: lists of numbers, with what they hold.
ghost use Rattle.std.specs.Prelude.{◌≡◌, false, length};
ghost use Rattle.calculus.specs.Orders.{some_above20};
ghost use Rattle.capi_roads.specs.Recipes.{total, jets_of, recipe_of};

use crate::jets::Jets;
use crate::recipe_steps;
use roads::Recipe;

// The orders of the jets, their entries one list after the other, and three numbers a step.
#[derive(Clone, Copy)]
pub struct Lists<'a> {
    pub orders: &'a [usize],
    pub entries: &'a [i64],
    pub steps: &'a [usize],
}

impl<'a> Lists<'a> {
    // The first four jets, or all where there are fewer.
    fn jets<J: Jets>(&self) -> [J; 4]
        requires { (some_above20 self.now.orders.now ≡ false) × (length self.now.entries.now ≡ total J.size self.now.orders.now) }
        ensures { result ≡ jets_of J.size J.input.jet self.now.orders.now self.now.entries.now }
    {
        let mut jets = [J::read(0, &[]); 4];
        let mut rest = self.entries;
        let count = self.orders.len().min(4);
        for (i, n) in self.orders[..count].iter().enumerate() {
            let (list, later) = rest.split_at(J::size(*n));
            jets[i] = J::read(*n, list);
            rest = later;
        }
        jets
    }

    #[tactic(auto, unfolding(crate::specs::Recipes::recipe_of))]
    pub fn read<J: Jets>(&self) -> Recipe<J>
        requires { (some_above20 self.now.orders.now ≡ false) × (length self.now.entries.now ≡ total J.size self.now.orders.now) }
        ensures { result ≡ recipe_of J.size J.input.jet self.now.orders.now self.now.entries.now self.now.steps.now }
    {
        let jets = self.jets::<J>();
        let program = recipe_steps::read_steps(self.steps);
        Recipe {
            inputs: self.orders.len(),
            jets,
            steps: self.steps.len() / 3,
            program,
        }
    }
}
