// A single number goes into the list lent, or its refusal is handed on. Jets go into lists by themselves: crates/exact.
ghost use Rattle.std.specs.Prelude.{◌≡◌, List, ℕ, ℤ};
ghost use Rattle.refusals.specs.Number.{number_of};
ghost use Rattle.exact_lists.specs.Delivery.{deliver_whole, deliver_count};

use refusals::Refusal;

// The list's test comes first.
pub fn whole(answer: Result<i64, Refusal>, out: &mut [i64]) -> Result<(), Refusal>
    ensures { ◌≡◌ {A = ℕ × List ℤ} (number_of result, out.new) (deliver_whole answer out.old) }
{
    given::alone(answer, out)
}

// A count's list is tested after an order (1), and before a part list (3).
pub fn count(answer: Result<u64, Refusal>, out: &mut [u64]) -> Result<(), Refusal>
    ensures { ◌≡◌ {A = ℕ × List ℕ} (number_of result, out.new) (deliver_count answer out.old) }
{
    given::first(answer.and(Ok(())), given::count(1, out.len()))?;
    given::alone(answer, out)
}
