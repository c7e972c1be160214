// Rodrigues' rotation about an axis, its partial derivatives by the axis' components and by the angle, and the derivatives along an arc that it
// turns. A NaN or an infinity passes through.
#![tactic(auto)]

ghost use Rattle.std.specs.Prelude.{◌≡◌};
ghost use Rattle.rodrigues.specs.Rotation.{turned as turned_by, constant as constant_at, zeros, rotation as rotation_by};
ghost use Rattle.rodrigues.specs.Circle.{power as power_of, derivative as derivative_of};

use ieee_vectors::{Matrix3, Vector3};
use matrices::Formula;

mod matrices;

// The sine and the cosine of an angle.
#[derive(Clone, Copy)]
pub struct Pair {
    pub s: f64,
    pub c: f64,
}

// A rotation about an axis, by an angle.
#[derive(Clone, Copy)]
pub struct Rotation {
    pub axis: Vector3,
    pub angle: Pair,
}

// The derivative of order n of 1.0.
pub fn constant(n: usize) -> f64
    ensures { result ≡ constant_at n }
{
    match n {
        0 => 1.0,
        _ => 0.0,
    }
}

pub fn zero() -> Matrix3
    ensures { result ≡ zeros }
{
    matrices::symmetric(0.0, 0.0, 0.0, 0.0, 0.0, 0.0)
}

impl Pair {
    // That of an angle k quarter turns further on.
    pub fn turned(self, k: usize) -> Pair
        ensures { result ≡ turned_by k self.s self.c }
    {
        let Pair { s, c } = self;
        match k % 4 {
            0 => Pair { s, c },
            1 => Pair { s: c, c: -s },
            2 => Pair { s: -s, c: -c },
            _ => Pair { s: -c, c: s },
        }
    }
}

impl Rotation {
    // Its matrix, derived x, y and z times by the axis' components and n times by the angle.
    pub fn derived(self, x: usize, y: usize, z: usize, n: usize) -> Matrix3
        ensures { result ≡ rotation_by x y z n self.axis self.angle.s self.angle.c }
    {
        let Pair { s, c } = self.angle.turned(n);
        let formula = Formula {
            axis: self.axis,
            s,
            c,
            k: -c + constant(n),
        };
        formula.by_axis(x, y, z)
    }
}

// A repeated product from 1.0.
fn power(x: f64, n: usize) -> f64
    ensures { result ≡ power_of x n }
{
    let mut p = 1.0;
    for _ in 0..n {
        p = p * x;
    }
    p
}

// The derivative of order m of centre + R(axis, angle·u)·(point - centre) by u, where R turns by angle·u.
pub fn arc_derivative(
    center: Vector3,
    turn: Rotation,
    angle: f64,
    point: Vector3,
    m: usize,
) -> Vector3
    ensures { result ≡ derivative_of center turn.axis angle point m turn.angle.s turn.angle.c }
{
    let further = Rotation {
        angle: turn.angle.turned(m),
        ..turn
    };
    let arm = further.derived(0, 0, 0, 0).image(point.sub(center));
    let fixed = center.mul(constant(m));
    fixed.add(arm.mul(power(angle, m)))
}
