// Surfaces of floats, and the carry.
use capi_floats::surfaces;
use replay_text::Call;

// The operation's number stands here alone, beside its function's name.
pub fn call(operation: u64, case: &Call<f64>, out: &mut [f64]) -> Option<u8> {
    let a_order = case.order(0);
    let b_order = case.order(1);
    let a = case.given(0);
    let b = case.given(1);
    let i = case.order(2);
    let j = case.order(3);
    Some(match operation {
        0x201 => surfaces::sugamdely_surface_sum(a_order, a, b_order, b, out),
        0x202 => surfaces::sugamdely_surface_difference(a_order, a, b_order, b, out),
        0x203 => surfaces::sugamdely_surface_combinatorial_derivatives(a_order, a, b_order, b, out),
        0x204 => surfaces::sugamdely_surface_rational_derivatives(a_order, a, b_order, b, out),
        0x205 => surfaces::sugamdely_surface_derivative_u(a_order, a, out),
        0x206 => surfaces::sugamdely_surface_derivative_v(a_order, a, out),
        0x207 => surfaces::sugamdely_surface_combinatorial_derivative(
            a_order, a, b_order, b, i, j, out,
        ),
        0x208 => surfaces::sugamdely_composite_derivative(a_order, a, b_order, b, i, out),
        0x209 => surfaces::sugamdely_composite_derivatives(a_order, a, b_order, b, i, out),
        _ => return None,
    })
}
