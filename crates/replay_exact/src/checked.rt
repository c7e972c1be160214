// The four operations of `whole` on pairs of numbers, most of them at an edge of a range, and on pairs of numbers and refusals. A case is 0 and two
// numbers, or 1 and two operands, each a refusal and a number; then sum, difference, product and quotient (tools/whole_cases.py works them out).
use replay_text::{next, number_met};
use std::io::Read;

// A refusal by its number: some are none of the library's.
fn next_operand(input: &mut impl Read) -> Result<i64, u8> {
    let refusal: usize = next(input);
    let z = next(input);
    match refusal {
        1..=255 => Err(refusal as u8),
        _ => Ok(z),
    }
}

// Sum, difference, product and quotient.
fn all_met<E: Into<u8> + Copy>(input: &mut impl Read, answers: [Result<i64, E>; 4]) -> bool {
    let mut all = true;
    for answer in answers {
        all &= number_met(input, answer);
    }
    all
}

fn on_numbers(input: &mut impl Read) -> bool {
    let a = next(input);
    let b = next(input);
    all_met(
        input,
        [
            whole::add(a, b),
            whole::sub(a, b),
            whole::mul(a, b),
            whole::div(a, b),
        ],
    )
}

fn on_operands(input: &mut impl Read) -> bool {
    let x = next_operand(input);
    let y = next_operand(input);
    all_met(
        input,
        [
            whole::plus(x, y),
            whole::minus(x, y),
            whole::times(x, y),
            whole::over(x, y),
        ],
    )
}

pub fn next_case(input: &mut impl Read) -> bool {
    let refusable = next(input);
    if refusable {
        on_operands(input)
    } else {
        on_numbers(input)
    }
}
