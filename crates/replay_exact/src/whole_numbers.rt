// Whole numbers.
use capi_exact::whole_numbers;
use replay_text::Call;

// The operation's number stands here alone, beside its function's name.
pub fn call(operation: u64, case: &Call<i64>, out: &mut [i64]) -> Option<u8> {
    let a = case.operand(0);
    let b = case.operand(1);
    Some(match operation {
        0x901 => whole_numbers::sugamdely_whole_sum(a, b, out),
        0x902 => whole_numbers::sugamdely_whole_difference(a, b, out),
        0x903 => whole_numbers::sugamdely_whole_product(a, b, out),
        0x904 => whole_numbers::sugamdely_whole_quotient(a, b, out),
        _ => return None,
    })
}
