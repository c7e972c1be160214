// Whole numbers: the answer goes into a list of one.
ghost use Rattle.std.specs.Prelude.{◌≡◌, List, ℕ, ℤ, ◌+ℤ◌, ◌-ℤ◌, ◌*ℤ◌};
ghost use Rattle.whole.specs.Checked.{formed, divided};
ghost use Rattle.exact_lists.specs.Delivery.{deliver_whole};

use exact_lists::deliver;
use refusals::number_of;

#[unsafe(no_mangle)]
pub extern "C" fn sugamdely_whole_sum(a: i64, b: i64, out: &mut [i64]) -> u8
    ensures { ◌≡◌ {A = ℕ × List ℤ} (result, out.new) (deliver_whole (formed (a +ℤ b)) out.old) }
{
    number_of(deliver::whole(whole::add(a, b), out))
}

#[unsafe(no_mangle)]
pub extern "C" fn sugamdely_whole_difference(a: i64, b: i64, out: &mut [i64]) -> u8
    ensures { ◌≡◌ {A = ℕ × List ℤ} (result, out.new) (deliver_whole (formed (a -ℤ b)) out.old) }
{
    number_of(deliver::whole(whole::sub(a, b), out))
}

#[unsafe(no_mangle)]
pub extern "C" fn sugamdely_whole_product(a: i64, b: i64, out: &mut [i64]) -> u8
    ensures { ◌≡◌ {A = ℕ × List ℤ} (result, out.new) (deliver_whole (formed (a *ℤ b)) out.old) }
{
    number_of(deliver::whole(whole::mul(a, b), out))
}

#[unsafe(no_mangle)]
pub extern "C" fn sugamdely_whole_quotient(a: i64, b: i64, out: &mut [i64]) -> u8
    ensures { ◌≡◌ {A = ℕ × List ℤ} (result, out.new) (deliver_whole (divided a b) out.old) }
{
    number_of(deliver::whole(whole::div(a, b), out))
}
