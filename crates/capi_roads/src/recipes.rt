// Recipes of exact jets, and the two roads (document 01's terms), as lists: the orders of the jets, all their lists one after the other, and three numbers
// a step: 0 for a sum, 1 for a difference, 2 for a product, 3 for a quotient; then the two numbers that it names.
ghost use Rattle.std.specs.Prelude.{◌≡◌, List, ℕ, ℤ, Result};
ghost use Rattle.refusals.specs.Number.{number_of};
ghost use Rattle.refusals.specs.declared.Refusal.{Refusal};
ghost use Rattle.exact.specs.declared.CurveDerivatives.{CurveDerivatives};
ghost use Rattle.exact.specs.declared.SurfaceDerivatives.{SurfaceDerivatives};
ghost use Rattle.exact.specs.declared.ParameterCurve.{ParameterCurve};
ghost use Rattle.roads.specs.declared.Recipe.{Recipe};
ghost use Rattle.roads.specs.Roads.{build_then_carry, carry_then_build};
ghost use Rattle.capi_roads.specs.Recipes.{recipe_into, surface_recipe_into, road_into};

use crate::jets::Jets;
use crate::lists::Lists;
use exact::{CurveDerivatives, ParameterCurve, SurfaceDerivatives};
use given::{Lent, Listed};
use refusals::{Refusal, number_of};
use roads::SurfaceRecipe;

// A recipe of jets of one kind.
#[tactic(auto, unfolding(crate::specs::Recipes::recipe_into))]
pub(crate) fn over_recipe<J: Jets>(lists: Lists, out: &mut [i64]) -> Result<(), Refusal>
    ensures { ◌≡◌ {A = ℕ × List ℤ} (number_of result, out.new) (recipe_into J.size J.input J.output J.kind lists.entry.orders.now lists.entry.entries.now lists.entry.steps.now out.old) }
{
    lists.test::<J>(out.len())?;
    J::write(lists.read::<J>().build(), out)
}

// One of the roads.
#[tactic(auto, unfolding(crate::specs::Recipes::road_into))]
fn over_road<F: FnOnce(SurfaceRecipe, ParameterCurve) -> Result<CurveDerivatives, Refusal>>(
    lists: Lists,
    c_order: usize,
    c: &[i64],
    n: usize,
    out: &mut [i64],
    road: F,
) -> Result<(), Refusal>
    requires { F.IsAlwaysCallable road }
    ensures { (op : Recipe SurfaceDerivatives → ParameterCurve → ℕ → Result CurveDerivatives Refusal) → ((r : Recipe SurfaceDerivatives) (y : ParameterCurve) (a : Result CurveDerivatives Refusal) → F.post road r y a → a ≡ op r y n) → ◌≡◌ {A = ℕ × List ℤ} (number_of result, out.new) (road_into op lists.entry.orders.now lists.entry.entries.now lists.entry.steps.now c_order c.now n out.old) }
{
    lists.test_road(c_order, c.len(), n, out.len())?;
    let curve = ParameterCurve::read(c_order, c);
    CurveDerivatives::write(road(lists.read::<SurfaceDerivatives>(), curve), out)
}

#[unsafe(no_mangle)]
pub extern "C" fn sugamdely_recipe_surfaces(
    orders: &[usize],
    entries: &[i64],
    steps: &[usize],
    out: &mut [i64],
) -> u8
    ensures { ◌≡◌ {A = ℕ × List ℤ} (result, out.new) (surface_recipe_into orders.now entries.now steps.now out.old) }
{
    let lists = Lists {
        orders,
        entries,
        steps,
    };
    number_of(over_recipe::<SurfaceDerivatives>(lists, out))
}

#[unsafe(no_mangle)]
pub extern "C" fn sugamdely_build_then_carry(
    orders: &[usize],
    entries: &[i64],
    steps: &[usize],
    c_order: usize,
    c: &[i64],
    n: usize,
    out: &mut [i64],
) -> u8
    ensures { ◌≡◌ {A = ℕ × List ℤ} (result, out.new) (road_into build_then_carry orders.now entries.now steps.now c_order c.now n out.old) }
{
    let lists = Lists {
        orders,
        entries,
        steps,
    };
    let road = |r: SurfaceRecipe, y: ParameterCurve| r.build_then_carry(y, n);
    number_of(over_road(lists, c_order, c, n, out, road))
}

#[unsafe(no_mangle)]
pub extern "C" fn sugamdely_carry_then_build(
    orders: &[usize],
    entries: &[i64],
    steps: &[usize],
    c_order: usize,
    c: &[i64],
    n: usize,
    out: &mut [i64],
) -> u8
    ensures { ◌≡◌ {A = ℕ × List ℤ} (result, out.new) (road_into carry_then_build orders.now entries.now steps.now c_order c.now n out.old) }
{
    let lists = Lists {
        orders,
        entries,
        steps,
    };
    let road = |r: SurfaceRecipe, y: ParameterCurve| r.carry_then_build(y, n);
    number_of(over_road(lists, c_order, c, n, out, road))
}
