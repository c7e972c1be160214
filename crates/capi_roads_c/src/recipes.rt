// The functions of `capi_roads::recipes` under their names in C.
ghost use Rattle.std.specs.Prelude.{◌≡◌, List, ℕ, ℤ};
ghost use Rattle.roads.specs.Roads.{build_then_carry, carry_then_build};
ghost use Rattle.capi_roads.specs.Recipes.{surface_recipe_into, road_into};

#[unsafe(no_mangle)]
pub extern "C" fn sugamdely_recipe_surfaces(
    orders: &[usize],
    entries: &[i64],
    steps: &[usize],
    out: &mut [i64],
) -> u8
    ensures { ◌≡◌ {A = ℕ × List ℤ} (result, out.new) (surface_recipe_into orders.now entries.now steps.now out.old) }
{
    capi_roads::recipes::sugamdely_recipe_surfaces(orders, entries, steps, out)
}

#[unsafe(no_mangle)]
pub extern "C" fn sugamdely_build_then_carry(
    orders: &[usize],
    entries: &[i64],
    steps: &[usize],
    c_order: usize,
    c: &[i64],
    n: usize,
    out: &mut [i64],
) -> u8
    ensures { ◌≡◌ {A = ℕ × List ℤ} (result, out.new) (road_into build_then_carry orders.now entries.now steps.now c_order c.now n out.old) }
{
    capi_roads::recipes::sugamdely_build_then_carry(orders, entries, steps, c_order, c, n, out)
}

#[unsafe(no_mangle)]
pub extern "C" fn sugamdely_carry_then_build(
    orders: &[usize],
    entries: &[i64],
    steps: &[usize],
    c_order: usize,
    c: &[i64],
    n: usize,
    out: &mut [i64],
) -> u8
    ensures { ◌≡◌ {A = ℕ × List ℤ} (result, out.new) (road_into carry_then_build orders.now entries.now steps.now c_order c.now n out.old) }
{
    capi_roads::recipes::sugamdely_carry_then_build(orders, entries, steps, c_order, c, n, out)
}
