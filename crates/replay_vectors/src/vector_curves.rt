// Curves of vectors.
use capi_vectors::vector_curves;
use replay_text::Call;

// The operation's number stands here alone, beside its function's name.
pub fn call(operation: u64, case: &Call<f64>, out: &mut [f64]) -> Option<u8> {
    let a_order = case.order(0);
    let b_order = case.order(1);
    let a = case.given(0);
    let b = case.given(1);
    let m = case.order(2);
    Some(match operation {
        0x301 => vector_curves::sugamdely_vector_curve_sum(a_order, a, b_order, b, out),
        0x302 => vector_curves::sugamdely_vector_curve_difference(a_order, a, b_order, b, out),
        0x303 => vector_curves::sugamdely_vector_curve_rational_derivatives(
            a_order, a, b_order, b, out,
        ),
        0x304 => vector_curves::sugamdely_curve_combinatorial_derivatives_scaled(
            a_order, a, b_order, b, out,
        ),
        0x305 => vector_curves::sugamdely_curve_combinatorial_derivatives_dot(
            a_order, a, b_order, b, out,
        ),
        0x306 => vector_curves::sugamdely_curve_combinatorial_derivatives_cross(
            a_order, a, b_order, b, out,
        ),
        0x307 => vector_curves::sugamdely_vector_curve_derivative(a_order, a, out),
        0x308 => vector_curves::sugamdely_curve_absolute_derivatives(a_order, a, out),
        0x309 => vector_curves::sugamdely_curve_combinatorial_derivative_scaled(
            a_order, a, b_order, b, m, out,
        ),
        0x30a => vector_curves::sugamdely_curve_combinatorial_derivative_dot(
            a_order, a, b_order, b, m, out,
        ),
        0x30b => vector_curves::sugamdely_curve_combinatorial_derivative_cross(
            a_order, a, b_order, b, m, out,
        ),
        _ => return None,
    })
}
