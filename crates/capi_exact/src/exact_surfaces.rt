// Exact jets of surfaces, as lists.
ghost use Rattle.std.specs.Prelude.{◌≡◌, List, ℕ, ◌+◌, ◌-◌, ℤ};
ghost use Rattle.calculus.specs.Kind.{regular};
ghost use Rattle.calculus.specs.Surface.{sum as sums, difference as differences, product, quotient as quotients, derivative_u, derivative_v};
ghost use Rattle.exact_formulas.specs.Kinds.{checked};
ghost use Rattle.exact.specs.Answer.{surfaces, on_surfaces, on_surfaces_at};
ghost use Rattle.given.specs.Values.{to_whole};
ghost use Rattle.given.specs.Lists.{over_two_at, over_two, over_one, output, input};
ghost use Rattle.calculus.specs.JetKind.{differentiated};

use exact::SurfaceDerivatives;
use refusals::number_of;

#[unsafe(no_mangle)]
pub extern "C" fn sugamdely_exact_surface_sum(
    a_order: usize,
    a: &[i64],
    b_order: usize,
    b: &[i64],
    out: &mut [i64],
) -> u8
    ensures { ◌≡◌ {A = ℕ × List ℤ} (result, out.new) (over_two (input surfaces) (input surfaces) (output surfaces) (on_surfaces (sums (regular checked))) a_order a.now b_order b.now out.old) }
{
    number_of(given::over_two(a_order, a, b_order, b, out, SurfaceDerivatives::sum))
}

#[unsafe(no_mangle)]
pub extern "C" fn sugamdely_exact_surface_difference(
    a_order: usize,
    a: &[i64],
    b_order: usize,
    b: &[i64],
    out: &mut [i64],
) -> u8
    ensures { ◌≡◌ {A = ℕ × List ℤ} (result, out.new) (over_two (input surfaces) (input surfaces) (output surfaces) (on_surfaces (differences (regular checked))) a_order a.now b_order b.now out.old) }
{
    number_of(given::over_two(a_order, a, b_order, b, out, SurfaceDerivatives::difference))
}

#[unsafe(no_mangle)]
pub extern "C" fn sugamdely_exact_surface_derivative_u(
    a_order: usize,
    a: &[i64],
    out: &mut [i64],
) -> u8
    ensures { ◌≡◌ {A = ℕ × List ℤ} (result, out.new) (over_one (input surfaces) (output surfaces) (a_order - 1) (differentiated surfaces derivative_u) a_order a.now out.old) }
{
    let k = given::lower(a_order);
    number_of(given::over_one(k, a_order, a, out, SurfaceDerivatives::derivative_u))
}

#[unsafe(no_mangle)]
pub extern "C" fn sugamdely_exact_surface_derivative_v(
    a_order: usize,
    a: &[i64],
    out: &mut [i64],
) -> u8
    ensures { ◌≡◌ {A = ℕ × List ℤ} (result, out.new) (over_one (input surfaces) (output surfaces) (a_order - 1) (differentiated surfaces derivative_v) a_order a.now out.old) }
{
    let k = given::lower(a_order);
    number_of(given::over_one(k, a_order, a, out, SurfaceDerivatives::derivative_v))
}

// One entry of the product: [m][n].
#[unsafe(no_mangle)]
pub extern "C" fn sugamdely_exact_surface_combinatorial_derivative(
    a_order: usize,
    a: &[i64],
    b_order: usize,
    b: &[i64],
    m: usize,
    n: usize,
    out: &mut [i64],
) -> u8
    ensures { ◌≡◌ {A = ℕ × List ℤ} (result, out.new) (over_two_at (input surfaces) (input surfaces) to_whole (m + n) (λ x y. on_surfaces_at (product checked) x y m n) a_order a.now b_order b.now out.old) }
{
    number_of(given::over_two_at_both(
        m,
        n,
        a_order,
        a,
        b_order,
        b,
        out,
        |x: SurfaceDerivatives, y: SurfaceDerivatives| x.combinatorial_derivative(y, m, n),
    ))
}

#[unsafe(no_mangle)]
pub extern "C" fn sugamdely_exact_surface_combinatorial_derivatives(
    a_order: usize,
    a: &[i64],
    b_order: usize,
    b: &[i64],
    out: &mut [i64],
) -> u8
    ensures { ◌≡◌ {A = ℕ × List ℤ} (result, out.new) (over_two (input surfaces) (input surfaces) (output surfaces) (on_surfaces (product checked)) a_order a.now b_order b.now out.old) }
{
    number_of(given::over_two(
        a_order,
        a,
        b_order,
        b,
        out,
        SurfaceDerivatives::combinatorial_derivatives,
    ))
}

#[unsafe(no_mangle)]
pub extern "C" fn sugamdely_exact_surface_quotient(
    a_order: usize,
    a: &[i64],
    b_order: usize,
    b: &[i64],
    out: &mut [i64],
) -> u8
    ensures { ◌≡◌ {A = ℕ × List ℤ} (result, out.new) (over_two (input surfaces) (input surfaces) (output surfaces) (on_surfaces (quotients checked)) a_order a.now b_order b.now out.old) }
{
    number_of(given::over_two(a_order, a, b_order, b, out, SurfaceDerivatives::quotient))
}
