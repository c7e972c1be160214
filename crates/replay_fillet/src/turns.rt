// The rotation and the contact circle: each answer is the Rust's, bit by bit.
use crate::inputs::{next_circle, next_vector};
use ieee_vectors::{Matrix3, Vector3};
use refusals::Refusal;
use replay_text::{met, next, numbered, refusal_met};
use std::io::Read;

const ZERO: Vector3 = Vector3 {
    x: 0.0,
    y: 0.0,
    z: 0.0,
};

fn vector_met(input: &mut impl Read, v: Vector3) -> bool {
    met(input, v.x) & met(input, v.y) & met(input, v.z)
}

// A refusal stands beside zeros.
fn matrix_met(input: &mut impl Read, answer: Result<Matrix3, Refusal>) -> bool {
    let zeros = Matrix3 {
        c0: ZERO,
        c1: ZERO,
        c2: ZERO,
    };
    let (number, m) = numbered(answer, zeros);
    refusal_met(input, number)
        & vector_met(input, m.c0)
        & vector_met(input, m.c1)
        & vector_met(input, m.c2)
}

fn answer_met(input: &mut impl Read, answer: Result<Vector3, Refusal>) -> bool {
    let (number, v) = numbered(answer, ZERO);
    refusal_met(input, number) & vector_met(input, v)
}

fn rotation_case(input: &mut impl Read) -> bool {
    let x = next(input);
    let y = next(input);
    let z = next(input);
    let n = next(input);
    let axis = next_vector(input);
    let s = next(input);
    let c = next(input);
    matrix_met(
        input,
        rolling_ball_fillet::rot_der_n(x, y, z, n, axis, s, c),
    )
}

fn axis_case(input: &mut impl Read) -> bool {
    let axis = next_vector(input);
    let s = next(input);
    let c = next(input);
    matrix_met(input, rolling_ball_fillet::from_axis_angle(axis, s, c))
}

fn circle_case(input: &mut impl Read) -> bool {
    let m = next(input);
    let circle = next_circle(input);
    let s = next(input);
    let c = next(input);
    answer_met(input, circle.derivative_n(m, s, c))
}

pub fn next_case(input: &mut impl Read) -> bool {
    let kind: u64 = next(input);
    match kind {
        3 => rotation_case(input),
        4 => axis_case(input),
        _ => circle_case(input),
    }
}
