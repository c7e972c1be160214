// What the multiplicities of the part lists of an order and a len come to, and how many lists there are: by computation over all orders to 20.
#![tactic(auto)]

ghost use Rattle.std.specs.Prelude.{◌≡◌};
ghost use Rattle.part_counts.specs.Total.{total_of};

use refusals::Refusal;

// The multiplicities of all lists of an order and a len, added: the total that a walk over them comes to, and refused as its start is. It is the
// triangle's entry, so that nothing is walked.
#[tactic(auto, using(crate::proofs::Total::total_is))]
pub fn total_multiplicity(order: usize, len: usize) -> Result<u64, Refusal>
    ensures { result ≡ total_of order len }
{
    let total = partitions::stirling_number(order, len)?;
    if len == 0 {
        return Err(Refusal::NoPartList);
    }
    Ok(total)
}
