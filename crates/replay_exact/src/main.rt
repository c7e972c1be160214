// Whole numbers, part lists, exact jets, and the C interface. A case begins with its family's number, or that of the operation to call (tools/cases.py).
#![tactic(auto)]

mod calls;
mod checked;
mod exact_curves;
mod exact_surfaces;
mod jet_cases;
mod jets;
mod part_lists;
mod recipe_calls;
mod recipes;
mod walks;
mod whole_numbers;

use std::io;
use std::io::Read;

fn next_case(input: &mut impl Read, family: u64) -> bool {
    match family {
        1 => checked::next_case(input),
        2 => walks::next_case(input),
        3 => jet_cases::next_case(input),
        _ => calls::next_case(input, family),
    }
}

fn main(rt: HostRuntime) -> io::Result<()> {
    replay_text::replay(&rt, rt.stdin(), |input, family| next_case(input, family))
}
