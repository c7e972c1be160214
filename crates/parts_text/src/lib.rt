// The text of the part lists of an order and a len, read and written as ASCII bytes: all the work of the program `parts`.
#![tactic(auto)]

ghost use Rattle.std.specs.Prelude.{◌≡◌};
ghost use Rattle.parts_text.specs.Printed.{printed, filled, shown};
ghost use Rattle.parts_text.specs.Reading.{fed, settled};

mod input;
mod out;

pub use out::{Text, report};

// How far the input has been read: what of the order and the len has been seen. Numbers above 20 behave alike, and are kept as 21.
#[derive(Clone, Copy)]
pub enum Reading {
    Before,
    InOrder(usize),
    AfterOrder(usize),
    InLen(usize, usize),
    AfterLen(usize, usize),
    Malformed,
}

// The reading before any byte.
pub fn start() -> Reading
    ensures { result ≡ Reading.Before }
{
    Reading::Before
}

// The reading after some bytes more: a piece of the input, of any length.
pub fn feed(state: Reading, bytes: &[u8]) -> Reading
    ensures { result ≡ fed state bytes.now }
{
    bytes
        .iter()
        .fold(state, |s, b| input::step(s, input::kind_of(*b)))
}

// Whether the answer is settled: nothing that follows can change what is reported, so that the input need not be read on. It is so of a malformed input
// alone: a number may get more digits, and after two numbers a third may come or not.
pub fn is_settled(state: Reading) -> bool
    ensures { result ≡ settled state }
{
    matches!(state, Reading::Malformed)
}

// The text of an input that is at hand whole.
pub fn print(input: &[u8]) -> Text
    ensures { (shown result ≡ printed input.now) × (result ≡ filled (printed input.now)) }
{
    report(feed(start(), input))
}
