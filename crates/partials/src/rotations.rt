// The rotation's derivatives by its parameters, and along the edge. A NaN or an infinity passes through.
ghost use Rattle.std.specs.Prelude.{◌≡◌, ◌+◌, ◌≤◌};
ghost use Rattle.ieee_vectors.specs.Matrices.{sum3};
ghost use Rattle.calculus.specs.InTurn.{in_turn};
ghost use Rattle.partials.specs.Partials.{parameter as parameter_at, times_in, by_one, by_two, one_term, two_term, one_terms, two_terms, turn_v, turn_by_axis, turn_by_angle};
ghost use Rattle.partials.specs.Parameters.{place};

use crate::Motion;
use ieee_vectors::{Matrix3, Vector3};
use rodrigues::Rotation;

// What a rotation is derived by: its axis' components, and its angle.
#[derive(Clone, Copy, PartialEq, Eq)]
pub enum Parameter {
    X,
    Y,
    Z,
    Angle,
}

const PARAMETERS: [Parameter; 4] = [Parameter::X, Parameter::Y, Parameter::Z, Parameter::Angle];

// How a parameter moves.
fn rate(a: Motion, i: Parameter) -> f64
    ensures { result ≡ parameter_at a.axis a.angle (place i) }
{
    match i {
        Parameter::X => a.axis.x,
        Parameter::Y => a.axis.y,
        Parameter::Z => a.axis.z,
        Parameter::Angle => a.angle,
    }
}

// How often the parameter p is in a derivative by i.
fn times_in(p: Parameter, i: Parameter) -> usize
    ensures value { result ≡ times_in (place p) (place i) }
    ensures small { result ≤ 1 }
{
    if i == p { 1 } else { 0 }
}

// The rotation derived by the parameter i, and by i and j.
pub fn by_one(turn: Rotation, i: Parameter) -> Matrix3
    ensures { result ≡ by_one turn.axis turn.angle.s turn.angle.c (place i) }
{
    let [x, y, z, angle] = PARAMETERS.map(|p| times_in(p, i));
    turn.derived(x, y, z, angle)
}

fn by_two(turn: Rotation, i: Parameter, j: Parameter) -> Matrix3
    ensures { result ≡ by_two turn.axis turn.angle.s turn.angle.c (place i) (place j) }
{
    let [x, y, z, angle] = PARAMETERS.map(|p| times_in(p, i) + times_in(p, j));
    turn.derived(x, y, z, angle)
}

// What the parameter i, and the pair of i and j, add to the rotation's derivative.
fn one_term(turn: Rotation, a: Motion, i: Parameter) -> Matrix3
    ensures { result ≡ one_term turn.axis turn.angle.s turn.angle.c a.axis a.angle (place i) }
{
    by_one(turn, i).mul(rate(a, i))
}

fn two_term(turn: Rotation, a: Motion, i: Parameter, j: Parameter) -> Matrix3
    ensures { result ≡ two_term turn.axis turn.angle.s turn.angle.c a.axis a.angle (place i) (place j) }
{
    by_two(turn, i, j).mul(rate(a, i) * rate(a, j))
}

// All four added to zero.
#[tactic(auto, unfolding(calculus::specs::InTurn::in_turn))]
pub fn one_terms(turn: Rotation, a: Motion) -> Matrix3
    ensures { result ≡ one_terms turn.axis turn.angle.s turn.angle.c a.axis a.angle }
{
    let mut sum = rodrigues::zero();
    for i in PARAMETERS {
        sum = sum.add(one_term(turn, a, i));
    }
    sum
}

// What the pairs of i and each parameter add; then all sixteen, added to zero.
#[tactic(auto, unfolding(calculus::specs::InTurn::in_turn))]
fn row(from: Matrix3, turn: Rotation, a: Motion, i: Parameter) -> Matrix3
    ensures { result ≡ in_turn sum3 from (two_term turn.axis turn.angle.s turn.angle.c a.axis a.angle (place i)) 4 }
{
    let mut sum = from;
    for j in PARAMETERS {
        sum = sum.add(two_term(turn, a, i, j));
    }
    sum
}

#[tactic(auto, unfolding(calculus::specs::InTurn::in_rows))]
pub fn two_terms(turn: Rotation, a: Motion) -> Matrix3
    ensures { result ≡ two_terms turn.axis turn.angle.s turn.angle.c a.axis a.angle }
{
    let mut sum = rodrigues::zero();
    for i in PARAMETERS {
        sum = row(sum, turn, a, i);
    }
    sum
}

// The rotation's derivative along the edge.
pub fn turn_v(turn: Rotation, a: Motion) -> Matrix3
    ensures { result ≡ turn_v turn.axis turn.angle.s turn.angle.c a.axis a.angle }
{
    let term = |i| one_term(turn, a, i);
    let xy = term(Parameter::X).add(term(Parameter::Y));
    xy.add(term(Parameter::Z)).add(term(Parameter::Angle))
}

// The derivative by u and v of the rotation, as far as the axis moves, and as far as the angle does.
pub fn turn_by_axis(turn: Rotation, a: Vector3, angle: f64) -> Matrix3
    ensures { result ≡ turn_by_axis turn.axis turn.angle.s turn.angle.c a angle }
{
    let x = by_two(turn, Parameter::X, Parameter::Angle).mul(a.x);
    let y = by_two(turn, Parameter::Y, Parameter::Angle).mul(a.y);
    let z = by_two(turn, Parameter::Z, Parameter::Angle).mul(a.z);
    x.add(y).add(z).mul(angle)
}

pub fn turn_by_angle(turn: Rotation, angle: f64, dangle: f64, u: f64) -> Matrix3
    ensures { result ≡ turn_by_angle turn.axis turn.angle.s turn.angle.c angle dangle u }
{
    let once = by_one(turn, Parameter::Angle);
    let twice = by_two(turn, Parameter::Angle, Parameter::Angle);
    once.mul(dangle).add(twice.mul(angle * dangle * u))
}
