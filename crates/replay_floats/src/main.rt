// Floats: square roots, jets, and the C interface. A case begins with its family's number, or that of the operation to call (tools/cases.py).
#![tactic(auto)]

mod curves;
mod jets;
mod surfaces;
mod values;

use replay_text::{Call, met, next, number_met};
use std::io;
use std::io::Read;

// A float, its root by `sqrt`, and what `square_root` answers (tools/sqrt_cases.py works them out).
fn next_root(input: &mut impl Read) -> bool {
    let x = next(input);
    met(input, ieee::unchecked_sqrt(x)) & number_met(input, vectors::square_root(x))
}

fn call(operation: u64, case: &Call<f64>, out: &mut [f64]) -> Option<u8> {
    match operation {
        0x100..=0x1ff => curves::call(operation, case, out),
        0x200..=0x2ff => surfaces::call(operation, case, out),
        _ => values::call(operation, case, out),
    }
}

// An operation of the C interface, which is lent one list. By itself, so that a case of another family does not clear the places of a call.
fn next_answer(input: &mut impl Read, operation: u64) -> bool {
    Call::NONE
        .read(input)
        .answered(|case, out| call(operation, case, out))
}

fn next_case(input: &mut impl Read, family: u64) -> bool {
    match family {
        1 => next_root(input),
        2 => jets::next_case(input),
        _ => next_answer(input, family),
    }
}

fn main(rt: HostRuntime) -> io::Result<()> {
    replay_text::replay(&rt, rt.stdin(), |input, family| next_case(input, family))
}
