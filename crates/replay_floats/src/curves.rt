// Curves of floats.
use capi_floats::curves;
use replay_text::Call;

// The operation's number stands here alone, beside its function's name.
pub fn call(operation: u64, case: &Call<f64>, out: &mut [f64]) -> Option<u8> {
    let a_order = case.order(0);
    let b_order = case.order(1);
    let a = case.given(0);
    let b = case.given(1);
    let m = case.order(2);
    Some(match operation {
        0x101 => curves::sugamdely_curve_sum(a_order, a, b_order, b, out),
        0x102 => curves::sugamdely_curve_difference(a_order, a, b_order, b, out),
        0x103 => curves::sugamdely_curve_combinatorial_derivatives(a_order, a, b_order, b, out),
        0x104 => curves::sugamdely_curve_rational_derivatives(a_order, a, b_order, b, out),
        0x105 => curves::sugamdely_curve_derivative(a_order, a, out),
        0x106 => curves::sugamdely_curve_combinatorial_derivative(a_order, a, b_order, b, m, out),
        _ => return None,
    })
}
