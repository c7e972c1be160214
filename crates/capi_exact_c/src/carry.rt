// The functions of `capi_exact::carry` under their names in C.
ghost use Rattle.std.specs.Prelude.{◌≡◌, List, ℕ, ℤ};
ghost use Rattle.exact.specs.Composite.{along_curve_at, along_curve};
ghost use Rattle.given.specs.Values.{to_whole};
ghost use Rattle.exact.specs.Answer.{surfaces, parameters, curves};
ghost use Rattle.given.specs.Lists.{over_two_at, output, input};

// The derivative of order n of the surface a along the curve c in its parameters, which is zero at order 0.
#[unsafe(no_mangle)]
pub extern "C" fn sugamdely_exact_composite_derivative(
    a_order: usize,
    a: &[i64],
    c_order: usize,
    c: &[i64],
    n: usize,
    out: &mut [i64],
) -> u8
    ensures { ◌≡◌ {A = ℕ × List ℤ} (result, out.new) (over_two_at (input surfaces) (input parameters) to_whole n (λ x y. along_curve_at x y n) a_order a.now c_order c.now out.old) }
{
    capi_exact::carry::sugamdely_exact_composite_derivative(a_order, a, c_order, c, n, out)
}

// The derivatives of all orders up to n, with the entry [0][0] of the surface at order 0.
#[unsafe(no_mangle)]
pub extern "C" fn sugamdely_exact_composite_derivatives(
    a_order: usize,
    a: &[i64],
    c_order: usize,
    c: &[i64],
    n: usize,
    out: &mut [i64],
) -> u8
    ensures { ◌≡◌ {A = ℕ × List ℤ} (result, out.new) (over_two_at (input surfaces) (input parameters) (output curves) n (λ x y. along_curve x y n) a_order a.now c_order c.now out.old) }
{
    capi_exact::carry::sugamdely_exact_composite_derivatives(a_order, a, c_order, c, n, out)
}
