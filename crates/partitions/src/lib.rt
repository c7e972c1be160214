// Part lists: the combinatorics of Faà di Bruno's formula. A part list of an order and a len is a nonincreasing list of len positive parts whose
// sum is the order.
#![tactic(auto)]

ghost use Rattle.std.specs.Prelude.{◌≡◌, true, ◌≤◌};
ghost use Rattle.partitions.specs.Parts.{total};
ghost use Rattle.partitions.specs.Walk.{tested, started, stepped};
ghost use Rattle.partitions.specs.Count.{falls, counted, factorial_of};
ghost use Rattle.partitions.specs.Inner.{held, moved_on};

use refusals::Refusal;

mod factorials;
mod inner;
mod table;

pub use table::stirling_number;

// A walk over the part lists of an order and a len: document 01's record. Anybody may write the fields: each step tests them.
#[derive(Clone, Copy)]
pub struct CompositionIter {
    pub order: usize,
    pub len: usize,
    pub current: [usize; 20],
    pub end: bool,
}

// What a step hands out: a list, with zeros past it, or none where the walk has ended; and the walk after it.
#[derive(Clone, Copy)]
pub struct Stepped {
    pub item: Result<Option<[usize; 20]>, Refusal>,
    pub walk: CompositionIter,
}

// Whether an order and a len have part lists.
fn test(order: usize, len: usize) -> Result<(), Refusal>
    ensures { result ≡ tested order len }
{
    if 20 < order {
        return Err(Refusal::OrderAbove20);
    }
    if len == 0 || order < len {
        return Err(Refusal::NoPartList);
    }
    Ok(())
}

impl CompositionIter {
    // The start of the walk: the record holds the first list.
    pub fn try_new(order: usize, len: usize) -> Result<CompositionIter, Refusal>
        ensures { result ≡ started order len }
    {
        test(order, len)?;
        let mut current = [0usize; 20];
        inner::init(&mut current[..len], order, order);
        Ok(CompositionIter {
            order,
            len,
            current,
            end: false,
        })
    }

    // The list that the record holds.
    fn item(self) -> Result<Option<[usize; 20]>, Refusal>
        ensures { result ≡ (stepped self).item }
    {
        test(self.order, self.len)?;
        if self.end {
            return Ok(None);
        }
        let list = &self.current[..self.len];
        if inner::total(list) == Some(self.order) && inner::falls(list, self.order) {
            Ok(Some(inner::pad(list)))
        } else {
            Err(Refusal::NoPartList)
        }
    }

    // The record moved on from the list that it holds.
    fn moved(self) -> CompositionIter
        requires { (self.len ≤ 20) × (falls 20 (held self) ≡ true) × (total (held self) ≤ 20) }
        ensures { result ≡ moved_on self }
    {
        let mut current = self.current;
        let more = inner::next(&mut current[..self.len]);
        CompositionIter {
            current,
            end: !more,
            ..self
        }
    }

    // One list is handed out, and the record holds the next; after the last list it says that it has ended.
    pub fn step(self) -> Stepped
        ensures { result ≡ stepped self }
    {
        let item = self.item();
        let walk = match item {
            Ok(Some(_)) => self.moved(),
            _ => self,
        };
        Stepped { item, walk }
    }

    // The same where the record is lent: it moves on in its place.
    pub fn next(&mut self) -> Result<Option<[usize; 20]>, Refusal>
        ensures { (result ≡ (stepped self.old).item) × (self.new ≡ (stepped self.old).walk) }
    {
        let Stepped { item, walk } = self.step();
        *self = walk;
        item
    }
}

#[tactic(auto, unfolding(crate::specs::Count::factorial_of))]
pub fn factorial(n: usize) -> Result<u64, Refusal>
    ensures { result ≡ factorial_of n }
{
    if 20 < n {
        return Err(Refusal::OrderAbove20);
    }
    Ok(factorials::factorial(n))
}

// How often a part list counts in Faà di Bruno's formula: its order's factorial over those of the parts and of the runs of equal parts.
pub fn multiplicity(list: &[usize]) -> Result<u64, Refusal>
    ensures { result ≡ counted list.now }
{
    let n = inner::total(list).ok_or(Refusal::OrderAbove20)?;
    match list {
        [first, ..] if inner::falls(list, *first) => {
            let x = inner::over_parts(factorials::factorial(n), list);
            Ok(inner::over_runs(x, list))
        }
        _ => Err(Refusal::NoPartList),
    }
}
