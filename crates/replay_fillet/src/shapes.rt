// Fillets whose shape is known in closed form: what is answered lies within a tolerance of what is wanted.
use crate::inputs::{NO_VECTOR_CURVE, next_circle, next_fillet};
use derivatives::ParameterCurve;
use ieee_vectors::Vector3;
use refusals::Refusal;
use replay_text::{met, next, next_array, numbered, refusal_met};
use rolling_ball_fillet::CenterContactDers;
use std::io::Read;
use vector_derivatives::VectorCurveDerivatives;

fn close(x: f64, y: f64, tolerance: f64) -> bool {
    x - y <= tolerance && y - x <= tolerance
}

// A list of at most 63 floats, with zeros past the members wanted.
fn near(input: &mut impl Read, l: &[f64], tolerance: f64) -> bool {
    let wanted: [f64; 63] = next_array(input);
    l.iter().zip(&wanted).all(|(x, y)| close(*x, *y, tolerance))
}

fn near_vectors(input: &mut impl Read, jet: VectorCurveDerivatives, tolerance: f64) -> bool {
    met(input, jet.order) & near(input, &jet.entries, tolerance)
}

fn near_parameters(input: &mut impl Read, jet: ParameterCurve, tolerance: f64) -> bool {
    met(input, jet.order) & near(input, &jet.u, tolerance) & near(input, &jet.v, tolerance)
}

fn near_contacts(input: &mut impl Read, ders: CenterContactDers, tolerance: f64) -> bool {
    near_vectors(input, ders.center_ders, tolerance)
        & near_vectors(input, ders.contact0_ders, tolerance)
        & near_vectors(input, ders.contact1_ders, tolerance)
        & near_parameters(input, ders.uv0_ders, tolerance)
        & near_parameters(input, ders.uv1_ders, tolerance)
}

const NO_PARAMETER: ParameterCurve = ParameterCurve {
    order: 0,
    u: [0.0; 21],
    v: [0.0; 21],
};

const NO_CONTACTS: CenterContactDers = CenterContactDers {
    center_ders: NO_VECTOR_CURVE,
    contact0_ders: NO_VECTOR_CURVE,
    contact1_ders: NO_VECTOR_CURVE,
    uv0_ders: NO_PARAMETER,
    uv1_ders: NO_PARAMETER,
};

// A refusal stands beside zero jets of order 0.
fn contacts_case(input: &mut impl Read) -> bool {
    let tolerance = next(input);
    let n = next(input);
    let circle = next_circle(input);
    let fillet = next_fillet(input);
    let (number, ders) = numbered(fillet.sub_center_contacts_ders(circle, n), NO_CONTACTS);
    refusal_met(input, number) & near_contacts(input, ders, tolerance)
}

fn near_vector(input: &mut impl Read, answer: Result<Vector3, Refusal>, tolerance: f64) -> bool {
    match answer {
        Ok(v) => near(input, &[v.x, v.y, v.z], tolerance),
        Err(_) => near(input, &[0.0; 3], tolerance) & false,
    }
}

fn partial_case(input: &mut impl Read) -> bool {
    let tolerance = next(input);
    let m = next(input);
    let n = next(input);
    let u = next(input);
    let angle = next(input);
    let s = next(input);
    let c = next(input);
    let circle = next_circle(input);
    let fillet = next_fillet(input);
    let answer = fillet.sub_der_mn(m, n, u, circle, angle, s, c);
    near_vector(input, answer, tolerance)
}

pub fn next_case(input: &mut impl Read) -> bool {
    let kind: u64 = next(input);
    match kind {
        1 => contacts_case(input),
        _ => partial_case(input),
    }
}
