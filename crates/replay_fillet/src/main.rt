// The fillet: shapes that are known in closed form, between two planes and between two spheres, with a tapered radius; stored answers of the Rust for
// rotations and contact circles; and the C interface. A case begins with its family's number, or that of the operation to call (tools/cases.py).
#![tactic(auto)]

mod calls;
mod inputs;
mod shapes;
mod turns;

use std::io;
use std::io::Read;

fn next_case(input: &mut impl Read, family: u64) -> bool {
    match family {
        1 => shapes::next_case(input),
        2 => turns::next_case(input),
        _ => calls::next_case(input, family),
    }
}

fn main(rt: HostRuntime) -> io::Result<()> {
    replay_text::replay(&rt, rt.stdin(), |input, family| next_case(input, family))
}
