// The functions of `capi_roads::curve_recipes` under their names in C.
ghost use Rattle.std.specs.Prelude.{◌≡◌, List, ℕ, ℤ};
ghost use Rattle.capi_roads.specs.Recipes.{curve_recipe_into};

#[unsafe(no_mangle)]
pub extern "C" fn sugamdely_recipe_curves(
    orders: &[usize],
    entries: &[i64],
    steps: &[usize],
    out: &mut [i64],
) -> u8
    ensures { ◌≡◌ {A = ℕ × List ℤ} (result, out.new) (curve_recipe_into orders.now entries.now steps.now out.old) }
{
    capi_roads::curve_recipes::sugamdely_recipe_curves(orders, entries, steps, out)
}
