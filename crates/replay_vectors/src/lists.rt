// Jets of floats and of vectors from lists, and back into a list that is lent: each refusal, pairs of faults, and the orders 0, 1 and 20.
// A case is five words: from a list (0) or into one (1); the kind of jet; its order; the list's length; the place of a float that is not finite.
// Then the refusal, and what each place of the list lent holds after the call (tools/list_cases.py says what is wanted).
ghost use Rattle.std.specs.Prelude.{◌≤◌};

use derivatives::{CurveDerivatives, ParameterCurve, SurfaceDerivatives};
use refusals::{Refusal, number_of};
use replay_text::{next, refusal_met};
use std::io::Read;
use vector_derivatives::{VectorCurveDerivatives, VectorSurfaceDerivatives};

// The kind of a jet.
#[derive(Clone, Copy)]
enum Kind {
    Curve,
    Surface,
    Parameter,
    VectorCurve,
    VectorSurface,
}

impl From<usize> for Kind {
    fn from(number: usize) -> Kind {
        match number {
            0 => Kind::Curve,
            1 => Kind::Surface,
            2 => Kind::Parameter,
            3 => Kind::VectorCurve,
            _ => Kind::VectorSurface,
        }
    }
}

// One float of a list becomes infinite; none past its end.
fn spoil(l: &mut [f64], at: usize) {
    if let Some(x) = l.get_mut(at) {
        *x = f64::INFINITY;
    }
}

// Ones, with one of them spoilt.
fn spoilt<const N: usize>(at: usize) -> [f64; N] {
    let mut entries = [1.0f64; N];
    spoil(&mut entries, at);
    entries
}

fn from_list(kind: Kind, order: usize, list: &[f64]) -> Result<(), Refusal> {
    match kind {
        Kind::Curve => CurveDerivatives::from_list(order, list).map(|_| ()),
        Kind::Surface => SurfaceDerivatives::from_list(order, list).map(|_| ()),
        Kind::Parameter => ParameterCurve::from_list(order, list).map(|_| ()),
        Kind::VectorCurve => VectorCurveDerivatives::from_list(order, list).map(|_| ()),
        Kind::VectorSurface => VectorSurfaceDerivatives::from_list(order, list).map(|_| ()),
    }
}

// A jet whose float at a place is spoilt, of the second list for a curve in parameters.
fn into_list(kind: Kind, order: usize, at: usize, out: &mut [f64]) -> Result<(), Refusal> {
    match kind {
        Kind::Curve => CurveDerivatives {
            order,
            entries: spoilt(at),
        }
        .into_list(out),
        Kind::Surface => SurfaceDerivatives {
            order,
            entries: spoilt(at),
        }
        .into_list(out),
        Kind::Parameter => ParameterCurve {
            order,
            u: [1.0; 21],
            v: spoilt(at),
        }
        .into_list(out),
        Kind::VectorCurve => VectorCurveDerivatives {
            order,
            entries: spoilt(at),
        }
        .into_list(out),
        Kind::VectorSurface => VectorSurfaceDerivatives {
            order,
            entries: spoilt(at),
        }
        .into_list(out),
    }
}

// Whether every float of a list is x.
fn all_are(l: &[f64], x: f64) -> bool {
    l.iter().all(|y| *y == x)
}

// How many of 800 places are handed over where a case says so many: none where there are not so many.
fn places(count: usize) -> usize
    ensures { result ≤ 800 }
{
    if 800 < count { 0 } else { count }
}

// Before the call each place holds 7, and so it stays past the list lent.
fn lent_case(input: &mut impl Read, kind: Kind, order: usize, count: usize, at: usize) -> bool {
    let mut l = [7.0f64; 800];
    let (lent, rest) = l.split_at_mut(places(count));
    let answer = into_list(kind, order, at, lent);
    refusal_met(input, number_of(answer)) & all_are(lent, next(input)) & all_are(rest, 7.0)
}

fn given_case(input: &mut impl Read, kind: Kind, order: usize, count: usize, at: usize) -> bool {
    let list: [f64; 800] = spoilt(at);
    let answer = from_list(kind, order, &list[..places(count)]);
    refusal_met(input, number_of(answer))
}

pub fn next_case(input: &mut impl Read) -> bool {
    let lent = next(input);
    let number: usize = next(input);
    let kind = Kind::from(number);
    let order = next(input);
    let count = next(input);
    let at = next(input);
    if lent {
        return lent_case(input, kind, order, count, at);
    }
    given_case(input, kind, order, count, at)
}
