// Recipes of exact jets, and the two roads.
use capi_roads::{curve_recipes, recipes};
use replay_text::Call;

// The orders of the jets and the steps are the second and the third list of sizes. The operation's number stands here alone, beside its function's name.
pub fn call(operation: u64, case: &Call<i64>, out: &mut [i64]) -> Option<u8> {
    let orders = case.sizes(1);
    let steps = case.sizes(2);
    let entries = case.given(0);
    let c = case.given(1);
    let c_order = case.order(0);
    let m = case.order(1);
    Some(match operation {
        0x905 => recipes::sugamdely_recipe_surfaces(orders, entries, steps, out),
        0x906 => curve_recipes::sugamdely_recipe_curves(orders, entries, steps, out),
        0x907 => recipes::sugamdely_build_then_carry(orders, entries, steps, c_order, c, m, out),
        0x908 => recipes::sugamdely_carry_then_build(orders, entries, steps, c_order, c, m, out),
        _ => return None,
    })
}
