// The C interface.
use crate::{exact_curves, exact_surfaces, part_lists, recipe_calls, whole_numbers};
use replay_text::Call;
use std::io::Read;

fn call(operation: u64, case: &Call<i64>, out: &mut [i64]) -> Option<u8> {
    match operation {
        0x700..=0x7ff => exact_curves::call(operation, case, out),
        0x800..=0x8ff => exact_surfaces::call(operation, case, out),
        0x900..=0x904 => whole_numbers::call(operation, case, out),
        _ => recipe_calls::call(operation, case, out),
    }
}

// Each kind of call by itself, so that a case does not clear the places of another kind's.
fn next_walk(input: &mut impl Read, operation: u64) -> bool {
    part_lists::walk_met(operation, Call::NONE.read(input))
}

fn next_count(input: &mut impl Read, operation: u64) -> bool {
    Call::NONE
        .read(input)
        .answered(|case, out| part_lists::count(operation, case, out))
}

fn next_answer(input: &mut impl Read, operation: u64) -> bool {
    Call::NONE
        .read(input)
        .answered(|case, out| call(operation, case, out))
}

pub fn next_case(input: &mut impl Read, operation: u64) -> bool {
    match operation {
        0xa01..=0xa02 => next_walk(input, operation),
        0xa03..=0xaff => next_count(input, operation),
        _ => next_answer(input, operation),
    }
}
