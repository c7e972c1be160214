// Jets of vectors through the C interface, and jets of every kind from lists and into lists. A case begins with its family's number, or that of the
// operation to call (tools/cases.py).
#![tactic(auto)]

mod lists;
mod vector_curves;
mod vector_surfaces;

use replay_text::Call;
use std::io;
use std::io::Read;

fn call(operation: u64, case: &Call<f64>, out: &mut [f64]) -> Option<u8> {
    match operation {
        0x300..=0x3ff => vector_curves::call(operation, case, out),
        _ => vector_surfaces::call(operation, case, out),
    }
}

// An operation of the C interface, which is lent one list. By itself, so that a case of another family does not clear the places of a call.
fn next_answer(input: &mut impl Read, operation: u64) -> bool {
    Call::NONE
        .read(input)
        .answered(|case, out| call(operation, case, out))
}

fn next_case(input: &mut impl Read, family: u64) -> bool {
    match family {
        1 => lists::next_case(input),
        _ => next_answer(input, family),
    }
}

fn main(rt: HostRuntime) -> io::Result<()> {
    replay_text::replay(&rt, rt.stdin(), |input, family| next_case(input, family))
}
