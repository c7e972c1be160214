// Floats, vectors and matrices.
use capi_floats::values;
use replay_text::Call;

// The operation's number stands here alone, beside its function's name.
pub fn call(operation: u64, case: &Call<f64>, out: &mut [f64]) -> Option<u8> {
    let a = case.given(0);
    let b = case.given(1);
    let x = case.given_at(0, 0);
    let y = case.given_at(1, 0);
    Some(match operation {
        0x501 => values::sugamdely_square_root(x, out),
        0x502 => values::sugamdely_vector_magnitude(a, out),
        0x503 => values::sugamdely_matrix2_determinant(a, out),
        0x504 => values::sugamdely_matrix2_inverse(a, out),
        0x505 => values::sugamdely_matrix3_determinant(a, out),
        0x506 => values::sugamdely_matrix3_inverse(a, out),
        0x507 => values::sugamdely_vector_sum(a, b, out),
        0x508 => values::sugamdely_vector_difference(a, b, out),
        0x509 => values::sugamdely_vector_cross(a, b, out),
        0x50a => values::sugamdely_vector_dot(a, b, out),
        0x50b => values::sugamdely_matrix3_image(a, b, out),
        0x50c => values::sugamdely_vector_multiple(a, y, out),
        0x50d => values::sugamdely_vector_quotient(a, y, out),
        0x50e => values::sugamdely_matrix2_image(a, b, out),
        _ => return None,
    })
}
