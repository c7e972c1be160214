// Part lists: walks, multiplicities and their totals, factorials and Stirling numbers. A walk is 23 numbers: its order, its len, 1 where it has ended and 0 else, and 20 parts.
ghost use Rattle.std.specs.Prelude.{◌≡◌, List, ℕ, length};
ghost use Rattle.refusals.specs.Number.{number_of};
ghost use Rattle.partitions.specs.Count.{counted, factorial_of, stirling_of};
ghost use Rattle.part_counts.specs.Total.{total_of};
ghost use Rattle.exact_lists.specs.Delivery.{deliver_count};
ghost use Rattle.capi_exact.specs.PartLists.{flag_given, walk_given, walk_of, walk_numbers, walk_started, walk_stepped};

use exact_lists::deliver;
use partitions::CompositionIter;
use refusals::{Refusal, number_of};

#[unsafe(no_mangle)]
pub extern "C" fn sugamdely_multiplicity(list: &[usize], out: &mut [u64]) -> u8
    ensures { ◌≡◌ {A = ℕ × List ℕ} (result, out.new) (deliver_count (counted list.now) out.old) }
{
    number_of(deliver::count(partitions::multiplicity(list), out))
}

#[unsafe(no_mangle)]
pub extern "C" fn sugamdely_factorial(n: usize, out: &mut [u64]) -> u8
    ensures { ◌≡◌ {A = ℕ × List ℕ} (result, out.new) (deliver_count (factorial_of n) out.old) }
{
    number_of(deliver::count(partitions::factorial(n), out))
}

#[unsafe(no_mangle)]
pub extern "C" fn sugamdely_stirling_number(order: usize, len: usize, out: &mut [u64]) -> u8
    ensures { ◌≡◌ {A = ℕ × List ℕ} (result, out.new) (deliver_count (stirling_of order len) out.old) }
{
    number_of(deliver::count(partitions::stirling_number(order, len), out))
}

#[unsafe(no_mangle)]
pub extern "C" fn sugamdely_total_multiplicity(order: usize, len: usize, out: &mut [u64]) -> u8
    ensures { ◌≡◌ {A = ℕ × List ℕ} (result, out.new) (deliver_count (total_of order len) out.old) }
{
    number_of(deliver::count(part_counts::total_multiplicity(order, len), out))
}

#[tactic(auto, unfolding(crate::specs::PartLists::walk_numbers))]
fn write_walk(walk: CompositionIter, out: &mut [usize])
    requires { length out.old ≡ 23 }
    ensures { out.new ≡ walk_numbers walk }
{
    out[0] = walk.order;
    out[1] = walk.len;
    out[2] = usize::from(walk.end);
    out[3..].copy_from_slice(&walk.current);
}

#[tactic(auto, unfolding(crate::specs::PartLists::walk_of))]
fn read_walk(walk: &[usize]) -> CompositionIter
    requires { length walk.now ≡ 23 }
    ensures { result ≡ walk_of walk.now }
{
    let mut current = [0usize; 20];
    current.copy_from_slice(&walk[3..]);
    CompositionIter {
        order: walk[0],
        len: walk[1],
        current,
        end: walk[2] == 1,
    }
}

#[tactic(auto, unfolding(crate::specs::PartLists::walk_started))]
fn start(order: usize, len: usize, walk: &mut [usize]) -> Result<(), Refusal>
    ensures { ◌≡◌ {A = ℕ × List ℕ} (number_of result, walk.new) (walk_started order len walk.old) }
{
    given::first(given::order(order), given::count(23, walk.len()))?;
    let held = CompositionIter::try_new(order, len)?;
    write_walk(held, walk);
    Ok(())
}

#[unsafe(no_mangle)]
pub extern "C" fn sugamdely_walk_start(order: usize, len: usize, walk: &mut [usize]) -> u8
    ensures { ◌≡◌ {A = ℕ × List ℕ} (result, walk.new) (walk_started order len walk.old) }
{
    number_of(start(order, len, walk))
}

// The flag of a walk: 1 where it has ended, 0 where it has not.
fn test_flag(n: usize) -> Result<(), Refusal>
    ensures { number_of result ≡ flag_given n }
{
    if 1 < n {
        return Err(Refusal::NoPartList);
    }
    Ok(())
}

#[tactic(auto, unfolding(crate::specs::PartLists::walk_given))]
fn test_walk(walk: &[usize]) -> Result<(), Refusal>
    ensures { number_of result ≡ walk_given walk.now }
{
    if walk.len() != 23 {
        return Err(Refusal::Shape);
    }
    given::first(given::order(walk[0]), test_flag(walk[2]))
}

#[tactic(auto, unfolding(crate::specs::PartLists::walk_stepped))]
fn step(walk: &mut [usize], parts: &mut [usize]) -> Result<(), Refusal>
    ensures { ◌≡◌ {A = ℕ × (List ℕ × List ℕ)} (number_of result, (walk.new, parts.new)) (walk_stepped walk.old parts.old) }
{
    given::first(test_walk(walk), given::count(20, parts.len()))?;
    let mut held = read_walk(walk);
    let item = held.next()?;
    write_walk(held, walk);
    parts.copy_from_slice(&item.unwrap_or([0usize; 20]));
    Ok(())
}

#[unsafe(no_mangle)]
pub extern "C" fn sugamdely_walk_next(walk: &mut [usize], parts: &mut [usize]) -> u8
    ensures { ◌≡◌ {A = ℕ × (List ℕ × List ℕ)} (result, (walk.new, parts.new)) (walk_stepped walk.old parts.old) }
{
    number_of(step(walk, parts))
}
