// The entries of one order that a step takes. Each `requires` is met by the callers.
ghost use Rattle.std.specs.Prelude.{◌≡◌, ◌≤◌, ◌<◌, set};
ghost use Rattle.ieee_vectors.specs.Vectors.{cross, quotient};
ghost use Rattle.calculus.specs.Curve.{derivative, product, product_by};
ghost use Rattle.calculus.specs.Surface.{derivative_u, derivative_v};
ghost use Rattle.calculus.specs.Carry.{composite_derivative};
ghost use Rattle.calculus.specs.Rational.{rational};
ghost use Rattle.formulas.specs.Real.{real};
ghost use Rattle.formulas.specs.Numbers.{curve_numbers};
ghost use Rattle.vector_formulas.specs.Vector.{vectors, vector_numbers, vector_surface_numbers};
ghost use Rattle.surface_info.specs.SurfaceInfo.{first_number_only};

use crate::Parameters;
use float_carry::vectors::Carried;
use ieee_vectors::Vector3;

// The array of floats with the entry m stored; and with entry 0, and zeros past it. Floats and vectors have functions of their own (document 01).
pub fn put_number(a: [f64; 21], m: usize, x: f64) -> [f64; 21]
    requires { m ≤ 20 }
    ensures { result ≡ set a m x }
{
    let mut r = a;
    r[m] = x;
    r
}

pub fn first_number_only(x: f64) -> [f64; 21]
    ensures { result ≡ first_number_only x }
{
    put_number([0.0f64; 21], 0, x)
}

// The entry m of a' b.
pub fn derivative_product(a: &[f64; 21], b: &[f64; 21], m: usize) -> f64
    requires { m < 20 }
    ensures { result ≡ product real (derivative (curve_numbers a.now)) (curve_numbers b.now) m }
{
    let d = formulas::derivative(a, m);
    formulas::product(&d, b, m)
}

// Of a × b, and of the quotient a / w.
pub fn cross_entry(a: &[f64; 63], b: &[f64; 63], m: usize) -> Vector3
    requires { m ≤ 20 }
    ensures { result ≡ product_by vectors cross (vector_numbers a.now) (vector_numbers b.now) m }
{
    vector_formulas::cross(a, b, m)
}

pub fn rational_entry(a: &[f64; 63], w: &[f64; 21], m: usize) -> Vector3
    requires { m < 20 }
    ensures { result ≡ rational vectors quotient (vector_numbers a.now) (curve_numbers w.now) m }
{
    let q = vector_formulas::rational(a, w, m);
    vector_formulas::vector_at(&q, m)
}

// A surface and its derivatives by u and by v, carried along the parameters.
pub fn along(s: &[f64; 693], uv: &Parameters, m: usize) -> Vector3
    requires { m ≤ 20 }
    ensures { result ≡ composite_derivative vectors (curve_numbers uv.now.u) (curve_numbers uv.now.v) (vector_surface_numbers s.now) m }
{
    let carried = Carried {
        entries: s,
        u: &uv.u,
        v: &uv.v,
    };
    carried.derivative(m)
}

pub fn along_u(s: &[f64; 693], uv: &Parameters, m: usize) -> Vector3
    requires { m < 20 }
    ensures { result ≡ composite_derivative vectors (curve_numbers uv.now.u) (curve_numbers uv.now.v) (derivative_u (vector_surface_numbers s.now)) m }
{
    let d = vector_formulas::derivative_u(s, m);
    along(&d, uv, m)
}

pub fn along_v(s: &[f64; 693], uv: &Parameters, m: usize) -> Vector3
    requires { m < 20 }
    ensures { result ≡ composite_derivative vectors (curve_numbers uv.now.u) (curve_numbers uv.now.v) (derivative_v (vector_surface_numbers s.now)) m }
{
    let d = vector_formulas::derivative_v(s, m);
    along(&d, uv, m)
}
