// Exact curves.
use capi_exact::exact_curves;
use replay_text::Call;

// The operation's number stands here alone, beside its function's name.
pub fn call(operation: u64, case: &Call<i64>, out: &mut [i64]) -> Option<u8> {
    let a_order = case.order(0);
    let b_order = case.order(1);
    let a = case.given(0);
    let b = case.given(1);
    let m = case.order(2);
    Some(match operation {
        0x701 => exact_curves::sugamdely_exact_curve_sum(a_order, a, b_order, b, out),
        0x702 => exact_curves::sugamdely_exact_curve_difference(a_order, a, b_order, b, out),
        0x703 => exact_curves::sugamdely_exact_curve_combinatorial_derivatives(
            a_order, a, b_order, b, out,
        ),
        0x704 => exact_curves::sugamdely_exact_curve_quotient(a_order, a, b_order, b, out),
        0x705 => exact_curves::sugamdely_exact_curve_derivative(a_order, a, out),
        0x706 => exact_curves::sugamdely_exact_curve_combinatorial_derivative(
            a_order, a, b_order, b, m, out,
        ),
        _ => return None,
    })
}
