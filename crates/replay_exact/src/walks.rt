// Part lists: every walk of the orders 1 to 20, by value and lent, each list with its multiplicity; starts and records with their refusals;
// multiplicities and their totals, factorials and Stirling numbers (tools/partition_cases.py makes the cases, and says what each kind gives and wants).
ghost use Rattle.std.specs.Prelude.{◌≡◌};
ghost use Rattle.partitions.specs.Walk.{stepped};

use partitions::{CompositionIter, Stepped};
use refusals::Refusal;
use replay_text::{
    list_met, met, next, next_array, next_list, number_met, numbered, refusal_met, same,
};
use std::io::Read;

type Item = Result<Option<[usize; 20]>, Refusal>;

// The refusal or 0, whether the walk has ended, and the parts: zeros where none are handed out.
fn item_met(input: &mut impl Read, item: Item) -> bool {
    let ended = matches!(item, Ok(None));
    let (number, parts) = numbered(item, None);
    refusal_met(input, number) & met(input, ended) & list_met(input, &parts.unwrap_or([0; 20]))
}

const NO_WALK: CompositionIter = CompositionIter {
    order: 0,
    len: 0,
    current: [0; 20],
    end: false,
};

fn record_met(input: &mut impl Read, walk: CompositionIter) -> bool {
    met(input, walk.order)
        & met(input, walk.len)
        & met(input, walk.end)
        & list_met(input, &walk.current)
}

fn step_met(input: &mut impl Read, s: Stepped) -> bool {
    item_met(input, s.item) & record_met(input, s.walk)
}

// A step with the record lent to the library: what a step by value gives.
fn lent(walk: CompositionIter) -> Stepped
    ensures { result ≡ stepped walk }
{
    let mut w = walk;
    let item = w.next();
    Stepped { item, walk: w }
}

// A step of one walk by value, and of the other with its record lent.
fn both_steps_met(input: &mut impl Read, walk: CompositionIter, other: CompositionIter) -> bool {
    step_met(input, CompositionIter::step(walk)) & step_met(input, lent(other))
}

fn start_case(input: &mut impl Read) -> bool {
    let order = next(input);
    let len = next(input);
    let (number, walk) = numbered(CompositionIter::try_new(order, len), NO_WALK);
    refusal_met(input, number) & record_met(input, walk)
}

// Whether a list is handed out.
fn handed_out(item: Item, list: &[usize]) -> bool {
    matches!(item, Ok(Some(parts)) if same(&parts, list))
}

// The lists of a walk with their multiplicities, and the step past the last one. No walk has more than 100 lists.
fn walk_case(input: &mut impl Read) -> bool {
    let order = next(input);
    let len: usize = next(input);
    let (_, mut walk) = numbered(CompositionIter::try_new(order, len), NO_WALK);
    let mut other = walk;
    let lists: usize = next(input);
    if 100 < lists {
        return false;
    }
    let mut all = true;
    for _ in 0..lists {
        let list: [usize; 20] = next_array(input);
        let by_value = CompositionIter::step(walk);
        let by_loan = lent(other);
        let count = partitions::multiplicity(list.get(..len).unwrap_or(&[]));
        all &= handed_out(by_value.item, &list) && handed_out(by_loan.item, &list);
        all &= number_met(input, count);
        walk = by_value.walk;
        other = by_loan.walk;
    }
    all & both_steps_met(input, walk, other)
}

fn record_case(input: &mut impl Read) -> bool {
    let walk = CompositionIter {
        order: next(input),
        len: next(input),
        end: next(input),
        current: next_array(input),
    };
    both_steps_met(input, walk, walk)
}

fn multiplicity_case(input: &mut impl Read) -> bool {
    let mut list = [0usize; 30];
    let n = next_list(input, &mut list);
    number_met(input, partitions::multiplicity(&list[..n]))
}

fn factorial_case(input: &mut impl Read) -> bool {
    let order = next(input);
    number_met(input, partitions::factorial(order))
}

fn stirling_case(input: &mut impl Read) -> bool {
    let order = next(input);
    let len = next(input);
    number_met(input, partitions::stirling_number(order, len))
}

fn total_case(input: &mut impl Read) -> bool {
    let order = next(input);
    let len = next(input);
    number_met(input, part_counts::total_multiplicity(order, len))
}

pub fn next_case(input: &mut impl Read) -> bool {
    let kind: u64 = next(input);
    match kind {
        1 => start_case(input),
        2 => walk_case(input),
        3 => record_case(input),
        4 => multiplicity_case(input),
        5 => factorial_case(input),
        7 => total_case(input),
        // 6, or any other.
        _ => stirling_case(input),
    }
}
