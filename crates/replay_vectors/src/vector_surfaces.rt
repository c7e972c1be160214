// Surfaces of vectors, and the carry.
use capi_vectors::vector_surfaces;
use replay_text::Call;

// The operation's number stands here alone, beside its function's name.
pub fn call(operation: u64, case: &Call<f64>, out: &mut [f64]) -> Option<u8> {
    let a_order = case.order(0);
    let b_order = case.order(1);
    let a = case.given(0);
    let b = case.given(1);
    let i = case.order(2);
    let j = case.order(3);
    Some(match operation {
        0x401 => vector_surfaces::sugamdely_vector_surface_sum(a_order, a, b_order, b, out),
        0x402 => vector_surfaces::sugamdely_vector_surface_difference(a_order, a, b_order, b, out),
        0x403 => vector_surfaces::sugamdely_vector_surface_rational_derivatives(
            a_order, a, b_order, b, out,
        ),
        0x404 => vector_surfaces::sugamdely_surface_combinatorial_derivatives_scaled(
            a_order, a, b_order, b, out,
        ),
        0x405 => vector_surfaces::sugamdely_surface_combinatorial_derivatives_dot(
            a_order, a, b_order, b, out,
        ),
        0x406 => vector_surfaces::sugamdely_surface_combinatorial_derivatives_cross(
            a_order, a, b_order, b, out,
        ),
        0x407 => vector_surfaces::sugamdely_vector_surface_derivative_u(a_order, a, out),
        0x408 => vector_surfaces::sugamdely_vector_surface_derivative_v(a_order, a, out),
        0x409 => vector_surfaces::sugamdely_surface_absolute_derivatives(a_order, a, out),
        0x40a => vector_surfaces::sugamdely_surface_combinatorial_derivative_scaled(
            a_order, a, b_order, b, i, j, out,
        ),
        0x40b => vector_surfaces::sugamdely_surface_combinatorial_derivative_dot(
            a_order, a, b_order, b, i, j, out,
        ),
        0x40c => vector_surfaces::sugamdely_surface_combinatorial_derivative_cross(
            a_order, a, b_order, b, i, j, out,
        ),
        0x40d => vector_surfaces::sugamdely_vector_composite_derivative(
            a_order, a, b_order, b, i, out,
        ),
        0x40e => vector_surfaces::sugamdely_vector_composite_derivatives(
            a_order, a, b_order, b, i, out,
        ),
        _ => return None,
    })
}
