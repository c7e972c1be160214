// Exact jets: sum, difference, product, quotient and derivative of curves and of surfaces, the carry, jets from lists and into them, recipes and
// the two roads. A case is the number of an operation, what it is given, and the answer (tools/exact_cases.py numbers and makes the cases).
use crate::jets::{
    curve_met, next_curve, next_parameter, next_surface, parameter_met, surface_met,
};
use crate::recipes;
use exact::{CurveDerivatives, ParameterCurve, SurfaceDerivatives};
use refusals::{Refusal, number_of};
use replay_text::{list_met, next, next_list, number_met, refusal_met};
use std::io::Read;

// On two curves and an order asked.
fn on_curves<I: Read, F: Fn(&mut I, CurveDerivatives, CurveDerivatives, usize) -> bool>(
    input: &mut I,
    operation_met: F,
) -> bool
    requires { F.IsAlwaysCallable operation_met }
{
    let a = next_curve(input);
    let b = next_curve(input);
    let m = next(input);
    operation_met(input, a, b, m)
}

// On two surfaces and a pair of orders asked.
fn on_surfaces<
    I: Read,
    F: Fn(&mut I, SurfaceDerivatives, SurfaceDerivatives, usize, usize) -> bool,
>(input: &mut I, operation_met: F) -> bool
    requires { F.IsAlwaysCallable operation_met }
{
    let a = next_surface(input);
    let b = next_surface(input);
    let m = next(input);
    let n = next(input);
    operation_met(input, a, b, m, n)
}

fn along(input: &mut impl Read) -> bool {
    let a = next_surface(input);
    let c = next_parameter(input);
    let m = next(input);
    number_met(input, a.composite_derivative(c, m))
        & curve_met(input, a.composite_derivatives(c, m))
}

// On an order and a list.
fn from_list<I: Read, F: Fn(&mut I, usize, &[i64]) -> bool>(input: &mut I, jet_met: F) -> bool
    requires { F.IsAlwaysCallable jet_met }
{
    let order = next(input);
    let mut l = [0i64; 256];
    let n = next_list(input, &mut l);
    jet_met(input, order, &l[..n])
}

// The list that is lent, as it stands before, then the jet; its refusal, and the list as it stands after.
fn into_list<I: Read, F: Fn(&mut I, &mut [i64]) -> Result<(), Refusal>>(
    input: &mut I,
    next_into: F,
) -> bool
    requires { F.IsAlwaysCallable next_into }
{
    let mut l = [0i64; 256];
    let n = next_list(input, &mut l);
    let answer = next_into(input, &mut l[..n]);
    refusal_met(input, number_of(answer)) & list_met(input, &l[..n])
}

pub fn next_case<I: Read>(input: &mut I) -> bool {
    let operation: usize = next(input);
    match operation {
        1 => on_curves(input, |i, a, b, _| curve_met(i, a.sum(b))),
        2 => on_curves(input, |i, a, b, _| curve_met(i, a.difference(b))),
        3 => on_curves(
            input,
            |i, a, b, _| curve_met(i, a.combinatorial_derivatives(b)),
        ),
        4 => on_curves(input, |i, a, b, _| curve_met(i, a.quotient(b))),
        5 => on_curves(input, |i, a, _, _| curve_met(i, a.derivative())),
        6 => on_curves(
            input,
            |i, a, b, m| number_met(i, a.combinatorial_derivative(b, m)),
        ),
        11 => on_surfaces(input, |i, a, b, _, _| surface_met(i, a.sum(b))),
        12 => on_surfaces(input, |i, a, b, _, _| surface_met(i, a.difference(b))),
        13 => on_surfaces(
            input,
            |i, a, b, _, _| surface_met(i, a.combinatorial_derivatives(b)),
        ),
        14 => on_surfaces(input, |i, a, b, _, _| surface_met(i, a.quotient(b))),
        15 => on_surfaces(input, |i, a, _, _, _| surface_met(i, a.derivative_u())),
        16 => on_surfaces(input, |i, a, _, _, _| surface_met(i, a.derivative_v())),
        17 => on_surfaces(input, |i, a, b, m, n| {
            number_met(i, a.combinatorial_derivative(b, m, n))
        }),
        21 => along(input),
        31 => from_list(
            input,
            |i, order, l| curve_met(i, CurveDerivatives::from_list(order, l)),
        ),
        32 => from_list(input, |i, order, l| {
            surface_met(i, SurfaceDerivatives::from_list(order, l))
        }),
        33 => from_list(
            input,
            |i, order, l| parameter_met(i, ParameterCurve::from_list(order, l)),
        ),
        34 => into_list(input, |i, out| next_curve(i).into_list(out)),
        35 => into_list(input, |i, out| next_surface(i).into_list(out)),
        36 => into_list(input, |i, out| next_parameter(i).into_list(out)),
        41 => recipes::of_curves(input),
        // 42, or any other.
        _ => recipes::both_roads(input),
    }
}
