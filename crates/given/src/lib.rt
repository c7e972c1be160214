// The tests of what a caller hands over, before any work: 1 for an order above 20, 2 for a list of another length.
#![tactic(auto)]

ghost use Rattle.std.specs.Prelude.{◌≡◌, ◌-◌};
ghost use Rattle.refusals.specs.Number.{number_of};
ghost use Rattle.given.specs.Given.{first as first_of, order_given, count_given};

pub use over::{Lent, Listed, alone, over_one, over_two, over_two_at, over_two_at_both};
use refusals::Refusal;

mod over;
pub mod values;

// The order of a derivative: one less, but not below 0.
pub fn lower(n: usize) -> usize
    ensures { result ≡ n - 1 }
{
    n.saturating_sub(1)
}

// The first of two refusals: 1 to 4 are checked in the order of their numbers. (By `min` the order is read from a table, at each of a call's tests.)
pub fn first(a: Result<(), Refusal>, b: Result<(), Refusal>) -> Result<(), Refusal>
    ensures { number_of result ≡ first_of (number_of a) (number_of b) }
{
    match (a, b) {
        (Err(x), Err(y)) => { if y.number() < x.number() { b } else { a } }
        _ => a.and(b),
    }
}

pub fn order(n: usize) -> Result<(), Refusal>
    ensures { number_of result ≡ order_given n }
{
    if 20 < n {
        return Err(Refusal::OrderAbove20);
    }
    Ok(())
}

// A list of l numbers, where `due` are due.
pub fn count(due: usize, l: usize) -> Result<(), Refusal>
    ensures { number_of result ≡ count_given due l }
{
    if l != due {
        return Err(Refusal::Shape);
    }
    Ok(())
}
