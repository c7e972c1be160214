// Reads an order and a len from standard input, and writes their part lists, each after its multiplicity, and the total of the multiplicities.
#![tactic(auto)]

ghost use Rattle.std.specs.Prelude.{◌≡◌, false};
ghost use Rattle.parts_text.specs.Reading.{settled};

use parts_text::Reading;
use std::io;
use std::io::{Read, Write};
use std::ops::ControlFlow;

// One read, made only while the answer is open: the reading with which to go on, or with which the input ends. An input that cannot be read is no
// pair of numbers, whatever came before.
fn feed_some<R: Read>(input: &mut R, state: Reading) -> ControlFlow<Reading, Reading>
    requires { settled state ≡ false }
{
    let mut buffer = [0u8; 4096];
    match input.read(&mut buffer) {
        Err(_) => ControlFlow::Break(Reading::Malformed),
        Ok(0) => ControlFlow::Break(state),
        Ok(n) => ControlFlow::Continue(parts_text::feed(state, &buffer[..n])),
    }
}

// The input is read to its end, or until the answer is settled. A proved loop has to end, and nothing says that an input does or comes to be settled. So
// the loop counts its turns, to a number that no run comes to.
fn feed_all<R: Read>(input: &mut R) -> Reading {
    let mut state = parts_text::start();
    for _ in 0..u64::MAX {
        if parts_text::is_settled(state) {
            return state;
        }
        match feed_some(input, state) {
            ControlFlow::Continue(next) => state = next,
            ControlFlow::Break(last) => return last,
        }
    }
    Reading::Malformed
}

fn main(rt: HostRuntime) -> io::Result<()> {
    let text = parts_text::report(feed_all(&mut rt.stdin()));
    io::writer(&rt).write_all(text.as_bytes())
}
