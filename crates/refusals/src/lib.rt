// Why a call has no answer: the refusals of document 01's table, each with its number.
#![tactic(auto)]

ghost use Rattle.std.specs.Prelude.{◌≡◌};
ghost use Rattle.refusals.specs.Number.{number, number_of};

use std::error::Error;
use std::fmt;

// In the order of their numbers, by which document 01 checks what is given.
#[derive(Clone, Copy, Debug, PartialEq, Eq, PartialOrd, Ord, Hash)]
pub enum Refusal {
    // An order is above 20, or the centre's n above 19.
    OrderAbove20 = 1,
    // An order asked or needed exceeds a jet's, a list has the wrong length, or a jet of order 0 has no derivative.
    Shape,
    // There are no such part lists, or the parts are not positive and nonincreasing.
    NoPartList,
    // A recipe has no jet or more than 4, no step or more than 12, or a step that names itself or a later number.
    NoRecipe,
    // A float handed in is not finite.
    InputNotFinite,
    // A determinant is zero.
    ZeroDeterminant,
    // A division by zero is due.
    DivisionByZero,
    // An exact quotient leaves a remainder.
    Remainder,
    // A number is formed that lies outside -2^63 to 2^63 - 1.
    OutOfRange,
    // A float that would be returned is not finite.
    AnswerNotFinite,
    // This pair of orders is not served.
    PairNotServed,
}

impl Refusal {
    // Document 01's number, which the C interface returns.
    pub fn number(self) -> u8
        ensures { result ≡ number self }
    {
        self as u8
    }
}

// What a C function returns of an answer: 0, or the refusal's number.
pub fn number_of(answer: Result<(), Refusal>) -> u8
    ensures { result ≡ number_of answer }
{
    match answer {
        Ok(()) => 0,
        Err(refusal) => refusal.number(),
    }
}

impl From<Refusal> for u8 {
    ghost from_gives = { λ r n. n ≡ number r };

    fn from(refusal: Refusal) -> u8 {
        refusal.number()
    }
}

impl Error for Refusal {}

// An error says itself, as Rust's do: `Error` asks for it.
impl fmt::Display for Refusal {
    fn fmt<W: fmt::Write>(&self, f: &mut fmt::Formatter<W>) -> fmt::Result {
        write!(f, "refused {}", self.number())
    }
}
