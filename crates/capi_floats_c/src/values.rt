// The functions of `capi_floats::values` under their names in C.
ghost use Rattle.std.specs.Prelude.{◌≡◌, ◌&&◌, List, ℕ, Float};
ghost use Rattle.std.specs.Float.Ieee.Scale.{finite};
ghost use Rattle.vectors.specs.Answers.{real_from, root_answer, vector2_from, vector_from, quotient_from, inverse_answer2, inverse_answer3};
ghost use Rattle.ieee_vectors.specs.Vectors.{sum, difference, multiple, dot, cross, magnitude};
ghost use Rattle.ieee_vectors.specs.Matrices.{determinant2, determinant3, image2, image3};
ghost use Rattle.ieee_vectors.specs.Finite.{finite_vector2, finite_vector, finite_matrix2, finite_matrix3};
ghost use Rattle.given.specs.Lists.{alone, over_two, over_one};
ghost use Rattle.given.specs.Values.{a_vector2, a_vector, a_matrix2, a_matrix3, to_float, to_vector2, to_vector, to_matrix2, to_matrix3};

// 10 for the root of a negative number.
#[unsafe(no_mangle)]
pub extern "C" fn sugamdely_square_root(x: f64, out: &mut [f64]) -> u8
    ensures { ◌≡◌ {A = ℕ × List Float} (result, out.new) (alone to_float (root_answer x) out.old) }
{
    capi_floats::values::sugamdely_square_root(x, out)
}

#[unsafe(no_mangle)]
pub extern "C" fn sugamdely_vector_sum(a: &[f64], b: &[f64], out: &mut [f64]) -> u8
    ensures { ◌≡◌ {A = ℕ × List Float} (result, out.new) (over_two a_vector a_vector to_vector (λ x y. vector_from (finite_vector x && finite_vector y) (sum x y)) 0 a.now 0 b.now out.old) }
{
    capi_floats::values::sugamdely_vector_sum(a, b, out)
}

#[unsafe(no_mangle)]
pub extern "C" fn sugamdely_vector_difference(a: &[f64], b: &[f64], out: &mut [f64]) -> u8
    ensures { ◌≡◌ {A = ℕ × List Float} (result, out.new) (over_two a_vector a_vector to_vector (λ x y. vector_from (finite_vector x && finite_vector y) (difference x y)) 0 a.now 0 b.now out.old) }
{
    capi_floats::values::sugamdely_vector_difference(a, b, out)
}

#[unsafe(no_mangle)]
pub extern "C" fn sugamdely_vector_multiple(a: &[f64], s: f64, out: &mut [f64]) -> u8
    ensures { ◌≡◌ {A = ℕ × List Float} (result, out.new) (over_one a_vector to_vector 0 (λ x. vector_from (finite_vector x && finite s) (multiple x s)) 0 a.now out.old) }
{
    capi_floats::values::sugamdely_vector_multiple(a, s, out)
}

#[unsafe(no_mangle)]
pub extern "C" fn sugamdely_vector_quotient(a: &[f64], s: f64, out: &mut [f64]) -> u8
    ensures { ◌≡◌ {A = ℕ × List Float} (result, out.new) (over_one a_vector to_vector 0 (λ x. quotient_from (finite_vector x && finite s) x s) 0 a.now out.old) }
{
    capi_floats::values::sugamdely_vector_quotient(a, s, out)
}

#[unsafe(no_mangle)]
pub extern "C" fn sugamdely_vector_cross(a: &[f64], b: &[f64], out: &mut [f64]) -> u8
    ensures { ◌≡◌ {A = ℕ × List Float} (result, out.new) (over_two a_vector a_vector to_vector (λ x y. vector_from (finite_vector x && finite_vector y) (cross x y)) 0 a.now 0 b.now out.old) }
{
    capi_floats::values::sugamdely_vector_cross(a, b, out)
}

#[unsafe(no_mangle)]
pub extern "C" fn sugamdely_vector_dot(a: &[f64], b: &[f64], out: &mut [f64]) -> u8
    ensures { ◌≡◌ {A = ℕ × List Float} (result, out.new) (over_two a_vector a_vector to_float (λ x y. real_from (finite_vector x && finite_vector y) (dot x y)) 0 a.now 0 b.now out.old) }
{
    capi_floats::values::sugamdely_vector_dot(a, b, out)
}

#[unsafe(no_mangle)]
pub extern "C" fn sugamdely_vector_magnitude(a: &[f64], out: &mut [f64]) -> u8
    ensures { ◌≡◌ {A = ℕ × List Float} (result, out.new) (over_one a_vector to_float 0 (λ x. real_from (finite_vector x) (magnitude x)) 0 a.now out.old) }
{
    capi_floats::values::sugamdely_vector_magnitude(a, out)
}

#[unsafe(no_mangle)]
pub extern "C" fn sugamdely_matrix2_determinant(m: &[f64], out: &mut [f64]) -> u8
    ensures { ◌≡◌ {A = ℕ × List Float} (result, out.new) (over_one a_matrix2 to_float 0 (λ x. real_from (finite_matrix2 x) (determinant2 x)) 0 m.now out.old) }
{
    capi_floats::values::sugamdely_matrix2_determinant(m, out)
}

#[unsafe(no_mangle)]
pub extern "C" fn sugamdely_matrix2_inverse(m: &[f64], out: &mut [f64]) -> u8
    ensures { ◌≡◌ {A = ℕ × List Float} (result, out.new) (over_one a_matrix2 to_matrix2 0 inverse_answer2 0 m.now out.old) }
{
    capi_floats::values::sugamdely_matrix2_inverse(m, out)
}

// The image of the vector v, of two floats.
#[unsafe(no_mangle)]
pub extern "C" fn sugamdely_matrix2_image(m: &[f64], v: &[f64], out: &mut [f64]) -> u8
    ensures { ◌≡◌ {A = ℕ × List Float} (result, out.new) (over_two a_matrix2 a_vector2 to_vector2 (λ x y. vector2_from (finite_matrix2 x && finite_vector2 y) (image2 x y)) 0 m.now 0 v.now out.old) }
{
    capi_floats::values::sugamdely_matrix2_image(m, v, out)
}

#[unsafe(no_mangle)]
pub extern "C" fn sugamdely_matrix3_determinant(m: &[f64], out: &mut [f64]) -> u8
    ensures { ◌≡◌ {A = ℕ × List Float} (result, out.new) (over_one a_matrix3 to_float 0 (λ x. real_from (finite_matrix3 x) (determinant3 x)) 0 m.now out.old) }
{
    capi_floats::values::sugamdely_matrix3_determinant(m, out)
}

#[unsafe(no_mangle)]
pub extern "C" fn sugamdely_matrix3_inverse(m: &[f64], out: &mut [f64]) -> u8
    ensures { ◌≡◌ {A = ℕ × List Float} (result, out.new) (over_one a_matrix3 to_matrix3 0 inverse_answer3 0 m.now out.old) }
{
    capi_floats::values::sugamdely_matrix3_inverse(m, out)
}

// The image of the vector v.
#[unsafe(no_mangle)]
pub extern "C" fn sugamdely_matrix3_image(m: &[f64], v: &[f64], out: &mut [f64]) -> u8
    ensures { ◌≡◌ {A = ℕ × List Float} (result, out.new) (over_two a_matrix3 a_vector to_vector (λ x y. vector_from (finite_matrix3 x && finite_vector y) (image3 x y)) 0 m.now 0 v.now out.old) }
{
    capi_floats::values::sugamdely_matrix3_image(m, v, out)
}
