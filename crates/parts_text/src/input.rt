// The input, byte by byte.
ghost use Rattle.std.specs.Prelude.{◌≡◌};
ghost use Rattle.parts_text.specs.Printed.{kind};
ghost use Rattle.parts_text.specs.Reading.{capped as capped_at, step as step_of, with_digit, with_separator};

use crate::Reading;

// What a byte of the input is.
#[derive(Clone, Copy)]
pub enum Kind {
    Digit(u8),
    Separator,
    Other,
}

pub fn kind_of(b: u8) -> Kind
    ensures { result ≡ kind b }
{
    match b {
        b'0'..=b'9' => Kind::Digit(b - b'0'),
        b' ' | b'\n' | b'\r' => Kind::Separator,
        _ => Kind::Other,
    }
}

// Any number above 20 will do for any other.
const CAP: usize = 21;

// A number with a digit more.
fn capped(v: usize, d: u8) -> usize
    ensures { result ≡ capped_at v d }
{
    (10 * v.min(CAP) + d as usize).min(CAP)
}

fn with_digit(s: Reading, d: u8) -> Reading
    ensures { result ≡ with_digit s d }
{
    match s {
        Reading::Before => Reading::InOrder(capped(0, d)),
        Reading::InOrder(v) => Reading::InOrder(capped(v, d)),
        Reading::AfterOrder(v) => Reading::InLen(v, capped(0, d)),
        Reading::InLen(v, w) => Reading::InLen(v, capped(w, d)),
        Reading::AfterLen(_, _) | Reading::Malformed => Reading::Malformed,
    }
}

fn with_separator(s: Reading) -> Reading
    ensures { result ≡ with_separator s }
{
    match s {
        Reading::InOrder(v) => Reading::AfterOrder(v),
        Reading::InLen(v, w) => Reading::AfterLen(v, w),
        _ => s,
    }
}

pub fn step(s: Reading, k: Kind) -> Reading
    ensures { result ≡ step_of s k }
{
    match k {
        Kind::Digit(d) => with_digit(s, d),
        Kind::Separator => with_separator(s),
        Kind::Other => Reading::Malformed,
    }
}
