// Jets of floats: sum, difference, product, quotient and derivative of curves and of surfaces, and the carry. A case is the number of an operation,
// its jets, each an order and its array as a list, the orders asked, and the answer (tools/float_cases.py works it out).
use derivatives::{CurveDerivatives, ParameterCurve, SurfaceDerivatives};
use refusals::Refusal;
use replay_text::{list_met, met, next, next_array, number_met, numbered, refusal_met};
use std::io::Read;

const NO_CURVE: CurveDerivatives = CurveDerivatives {
    order: 0,
    entries: [0.0; 21],
};

const NO_SURFACE: SurfaceDerivatives = SurfaceDerivatives {
    order: 0,
    entries: [0.0; 231],
};

fn next_curve(input: &mut impl Read) -> CurveDerivatives {
    CurveDerivatives {
        order: next(input),
        entries: next_array(input),
    }
}

fn next_surface(input: &mut impl Read) -> SurfaceDerivatives {
    SurfaceDerivatives {
        order: next(input),
        entries: next_array(input),
    }
}

fn next_parameter(input: &mut impl Read) -> ParameterCurve {
    ParameterCurve {
        order: next(input),
        u: next_array(input),
        v: next_array(input),
    }
}

fn curve_met(input: &mut impl Read, answer: Result<CurveDerivatives, Refusal>) -> bool {
    let (number, jet) = numbered(answer, NO_CURVE);
    refusal_met(input, number) & met(input, jet.order) & list_met(input, &jet.entries)
}

fn surface_met(input: &mut impl Read, answer: Result<SurfaceDerivatives, Refusal>) -> bool {
    let (number, jet) = numbered(answer, NO_SURFACE);
    refusal_met(input, number) & met(input, jet.order) & list_met(input, &jet.entries)
}

// On two curves and an order asked.
fn on_curves<I: Read, F: Fn(&mut I, CurveDerivatives, CurveDerivatives, usize) -> bool>(
    input: &mut I,
    operation_met: F,
) -> bool
    requires { F.IsAlwaysCallable operation_met }
{
    let a = next_curve(input);
    let b = next_curve(input);
    let m = next(input);
    operation_met(input, a, b, m)
}

// On two surfaces and a pair of orders asked.
fn on_surfaces<
    I: Read,
    F: Fn(&mut I, SurfaceDerivatives, SurfaceDerivatives, usize, usize) -> bool,
>(input: &mut I, operation_met: F) -> bool
    requires { F.IsAlwaysCallable operation_met }
{
    let a = next_surface(input);
    let b = next_surface(input);
    let m = next(input);
    let n = next(input);
    operation_met(input, a, b, m, n)
}

// On a surface, a curve in its parameters and an order asked.
fn along<I: Read, F: Fn(&mut I, SurfaceDerivatives, ParameterCurve, usize) -> bool>(
    input: &mut I,
    operation_met: F,
) -> bool
    requires { F.IsAlwaysCallable operation_met }
{
    let a = next_surface(input);
    let c = next_parameter(input);
    let m = next(input);
    operation_met(input, a, c, m)
}

pub fn next_case<I: Read>(input: &mut I) -> bool {
    let operation: usize = next(input);
    match operation {
        1 => on_curves(input, |i, a, b, _| curve_met(i, a.sum(b))),
        2 => on_curves(input, |i, a, b, _| curve_met(i, a.difference(b))),
        3 => on_curves(
            input,
            |i, a, b, _| curve_met(i, a.combinatorial_derivatives(b)),
        ),
        4 => on_curves(input, |i, a, b, _| curve_met(i, a.rational_derivatives(b))),
        5 => on_curves(input, |i, a, _, _| curve_met(i, a.derivative())),
        6 => on_curves(
            input,
            |i, a, b, m| number_met(i, a.combinatorial_derivative(b, m)),
        ),
        11 => on_surfaces(input, |i, a, b, _, _| surface_met(i, a.sum(b))),
        12 => on_surfaces(input, |i, a, b, _, _| surface_met(i, a.difference(b))),
        13 => on_surfaces(
            input,
            |i, a, b, _, _| surface_met(i, a.combinatorial_derivatives(b)),
        ),
        14 => on_surfaces(
            input,
            |i, a, b, _, _| surface_met(i, a.rational_derivatives(b)),
        ),
        15 => on_surfaces(input, |i, a, _, _, _| surface_met(i, a.derivative_u())),
        16 => on_surfaces(input, |i, a, _, _, _| surface_met(i, a.derivative_v())),
        17 => on_surfaces(
            input,
            |i, a, b, m, n| number_met(i, a.combinatorial_derivative(b, m, n)),
        ),
        21 => along(
            input,
            |i, a, c, m| number_met(i, a.composite_derivative(c, m)),
        ),
        // 22, or any other.
        _ => along(
            input,
            |i, a, c, m| curve_met(i, a.composite_derivatives(c, m)),
        ),
    }
}
