// Exact surfaces, and the carry.
use capi_exact::{carry, exact_surfaces};
use replay_text::Call;

// The operation's number stands here alone, beside its function's name.
pub fn call(operation: u64, case: &Call<i64>, out: &mut [i64]) -> Option<u8> {
    let a_order = case.order(0);
    let b_order = case.order(1);
    let a = case.given(0);
    let b = case.given(1);
    let i = case.order(2);
    let j = case.order(3);
    Some(match operation {
        0x801 => exact_surfaces::sugamdely_exact_surface_sum(a_order, a, b_order, b, out),
        0x802 => exact_surfaces::sugamdely_exact_surface_difference(a_order, a, b_order, b, out),
        0x803 => exact_surfaces::sugamdely_exact_surface_combinatorial_derivatives(
            a_order, a, b_order, b, out,
        ),
        0x804 => exact_surfaces::sugamdely_exact_surface_quotient(a_order, a, b_order, b, out),
        0x805 => exact_surfaces::sugamdely_exact_surface_derivative_u(a_order, a, out),
        0x806 => exact_surfaces::sugamdely_exact_surface_derivative_v(a_order, a, out),
        0x807 => exact_surfaces::sugamdely_exact_surface_combinatorial_derivative(
            a_order, a, b_order, b, i, j, out,
        ),
        0x808 => carry::sugamdely_exact_composite_derivative(a_order, a, b_order, b, i, out),
        0x809 => carry::sugamdely_exact_composite_derivatives(a_order, a, b_order, b, i, out),
        _ => return None,
    })
}
