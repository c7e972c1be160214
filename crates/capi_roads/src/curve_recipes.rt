// Recipes of exact curves, as lists: see recipes.rt.
ghost use Rattle.std.specs.Prelude.{◌≡◌, List, ℕ, ℤ};
ghost use Rattle.capi_roads.specs.Recipes.{curve_recipe_into};

use crate::lists::Lists;
use crate::recipes;
use exact::CurveDerivatives;
use refusals::number_of;

#[unsafe(no_mangle)]
pub extern "C" fn sugamdely_recipe_curves(
    orders: &[usize],
    entries: &[i64],
    steps: &[usize],
    out: &mut [i64],
) -> u8
    ensures { ◌≡◌ {A = ℕ × List ℤ} (result, out.new) (curve_recipe_into orders.now entries.now steps.now out.old) }
{
    let lists = Lists {
        orders,
        entries,
        steps,
    };
    number_of(recipes::over_recipe::<CurveDerivatives>(lists, out))
}
