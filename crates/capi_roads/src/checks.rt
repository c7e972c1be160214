// The tests of what is handed over for a recipe and for a road, before any work.
ghost use Rattle.std.specs.Prelude.{◌≡◌, false, length};
ghost use Rattle.calculus.specs.Orders.{some_above20};
ghost use Rattle.refusals.specs.Number.{number_of};
ghost use Rattle.given.specs.Given.{count_given};
ghost use Rattle.capi_roads.specs.Recipes.{total, lists_given, steps_given, result_given, lent_given, recipe_given, road_given};

use crate::jets::Jets;
use crate::lists::Lists;
use exact::{ParameterCurve, SurfaceDerivatives};
use given::Listed;
use refusals::Refusal;

// The list lent for a curve of the order n asked. Above 20 there is none, and the road itself refuses the order.
fn lent(n: usize, out: usize) -> Result<(), Refusal>
    ensures { number_of result ≡ lent_given n out }
{
    if 20 < n {
        Ok(())
    } else {
        given::count(n + 1, out)
    }
}

impl<'a> Lists<'a> {
    // What is left of the entries after each list in turn, so that no sum is formed.
    fn entries_fit<J: Jets>(&self) -> Result<(), Refusal>
        requires { some_above20 self.now.orders.now ≡ false }
        ensures { number_of result ≡ count_given (total J.size self.now.orders.now) (length self.now.entries.now) }
    {
        let mut rest = self.entries.len();
        for n in self.orders {
            rest = rest.checked_sub(J::size(*n)).ok_or(Refusal::Shape)?;
        }
        given::count(0, rest)
    }

    fn jets_fit<J: Jets>(&self) -> Result<(), Refusal>
        ensures { number_of result ≡ lists_given J.size self.now.orders.now (length self.now.entries.now) }
    {
        if calculus::some_above_20(self.orders) {
            return Err(Refusal::OrderAbove20);
        }
        self.entries_fit::<J>()
    }

    fn steps_fit(&self) -> Result<(), Refusal>
        ensures { number_of result ≡ steps_given self.now.steps.now }
    {
        given::count(0, self.steps.len() % 3)
    }

    // The list lent for a recipe's jet. Where no jet is given none is due.
    fn due<J: Jets>(&self, out: usize) -> Result<(), Refusal>
        ensures { number_of result ≡ result_given J.output.test self.now.orders.now out }
    {
        if self.orders.is_empty() {
            return Ok(());
        }
        J::due(calculus::smallest(self.orders), out)
    }

    // The test of a recipe, and of the list for its result.
    #[tactic(auto, unfolding(crate::specs::Recipes::recipe_given))]
    pub fn test<J: Jets>(&self, out: usize) -> Result<(), Refusal>
        ensures { number_of result ≡ recipe_given J.size J.output.test self.now.orders.now (length self.now.entries.now) self.now.steps.now out }
    {
        let rest = given::first(self.steps_fit(), self.due::<J>(out));
        given::first(self.jets_fit::<J>(), rest)
    }

    // The test of a recipe of surfaces, of a curve of the order m with c numbers, and of the list lent. Whether there is a recipe, and whether the
    // jets have the order n, the road itself finds, where it comes to it.
    #[tactic(auto, unfolding(crate::specs::Recipes::road_given))]
    pub fn test_road(&self, m: usize, c: usize, n: usize, out: usize) -> Result<(), Refusal>
        ensures { number_of result ≡ road_given self.now.orders.now (length self.now.entries.now) self.now.steps.now m c n out }
    {
        let curve = given::first(ParameterCurve::test(m, c), lent(n, out));
        let rest = given::first(self.steps_fit(), curve);
        given::first(self.jets_fit::<SurfaceDerivatives>(), rest)
    }
}
