// The functions of `capi_exact::part_lists` under their names in C.
ghost use Rattle.std.specs.Prelude.{◌≡◌, List, ℕ};
ghost use Rattle.partitions.specs.Count.{counted, factorial_of, stirling_of};
ghost use Rattle.part_counts.specs.Total.{total_of};
ghost use Rattle.exact_lists.specs.Delivery.{deliver_count};
ghost use Rattle.capi_exact.specs.PartLists.{walk_started, walk_stepped};

#[unsafe(no_mangle)]
pub extern "C" fn sugamdely_multiplicity(list: &[usize], out: &mut [u64]) -> u8
    ensures { ◌≡◌ {A = ℕ × List ℕ} (result, out.new) (deliver_count (counted list.now) out.old) }
{
    capi_exact::part_lists::sugamdely_multiplicity(list, out)
}

#[unsafe(no_mangle)]
pub extern "C" fn sugamdely_factorial(n: usize, out: &mut [u64]) -> u8
    ensures { ◌≡◌ {A = ℕ × List ℕ} (result, out.new) (deliver_count (factorial_of n) out.old) }
{
    capi_exact::part_lists::sugamdely_factorial(n, out)
}

#[unsafe(no_mangle)]
pub extern "C" fn sugamdely_stirling_number(order: usize, len: usize, out: &mut [u64]) -> u8
    ensures { ◌≡◌ {A = ℕ × List ℕ} (result, out.new) (deliver_count (stirling_of order len) out.old) }
{
    capi_exact::part_lists::sugamdely_stirling_number(order, len, out)
}

#[unsafe(no_mangle)]
pub extern "C" fn sugamdely_total_multiplicity(order: usize, len: usize, out: &mut [u64]) -> u8
    ensures { ◌≡◌ {A = ℕ × List ℕ} (result, out.new) (deliver_count (total_of order len) out.old) }
{
    capi_exact::part_lists::sugamdely_total_multiplicity(order, len, out)
}

#[unsafe(no_mangle)]
pub extern "C" fn sugamdely_walk_start(order: usize, len: usize, walk: &mut [usize]) -> u8
    ensures { ◌≡◌ {A = ℕ × List ℕ} (result, walk.new) (walk_started order len walk.old) }
{
    capi_exact::part_lists::sugamdely_walk_start(order, len, walk)
}

#[unsafe(no_mangle)]
pub extern "C" fn sugamdely_walk_next(walk: &mut [usize], parts: &mut [usize]) -> u8
    ensures { ◌≡◌ {A = ℕ × (List ℕ × List ℕ)} (result, (walk.new, parts.new)) (walk_stepped walk.old parts.old) }
{
    capi_exact::part_lists::sugamdely_walk_next(walk, parts)
}
