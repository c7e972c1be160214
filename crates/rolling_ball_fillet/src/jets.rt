// The jets of the centre and contacts: cut jets, and the tests on orders and entries. Each `requires` is met by the callers.
ghost use Rattle.std.specs.Prelude.{◌≡◌, ◌≤◌, ◌<◌};
ghost use Rattle.calculus.specs.Array.{curve_array};
ghost use Rattle.ieee_vectors.specs.Vectors.{positive_zero};
ghost use Rattle.formulas.specs.Numbers.{curve_numbers};
ghost use Rattle.rolling_ball_fillet.specs.Jets.{cut_ders, contacts_above20, short_contacts};
ghost use Rattle.rolling_ball_fillet.specs.Center.{finite_contacts};
ghost use Rattle.derivatives.specs.Answer.{parameters};
ghost use Rattle.calculus.specs.JetKind.{cut};
ghost use Rattle.vector_derivatives.specs.Answer.{vector_curves};

use crate::CenterContactDers;
use derivatives::ParameterCurve;
use derivatives::jets::Jet;
use vector_derivatives::VectorCurveDerivatives;

// The entries up to the order n, and zeros past them.
fn cut_numbers(a: &[f64; 21], n: usize) -> [f64; 21]
    requires { n ≤ 20 }
    ensures { result ≡ curve_array positive_zero (curve_numbers a.now) n }
{
    let mut r = [0.0f64; 21];
    r[..n + 1].copy_from_slice(&a[..n + 1]);
    r
}

fn cut_vectors(a: &VectorCurveDerivatives, n: usize) -> VectorCurveDerivatives
    requires { n ≤ 20 }
    ensures { result ≡ cut vector_curves a.now n }
{
    let entries = vector_formulas::cut(&a.entries, n);
    VectorCurveDerivatives { order: n, entries }
}

fn cut_parameter(a: &ParameterCurve, n: usize) -> ParameterCurve
    requires { n ≤ 20 }
    ensures { result ≡ cut parameters a.now n }
{
    let u = cut_numbers(&a.u, n);
    let v = cut_numbers(&a.v, n);
    ParameterCurve { order: n, u, v }
}

// The centre cut to the order n, and the contacts and their parameters one further.
pub fn cut_ders(d: &CenterContactDers, n: usize) -> CenterContactDers
    requires { n < 20 }
    ensures { result ≡ cut_ders d.now n }
{
    let k = n + 1;
    CenterContactDers {
        center_ders: cut_vectors(&d.center_ders, n),
        contact0_ders: cut_vectors(&d.contact0_ders, k),
        contact1_ders: cut_vectors(&d.contact1_ders, k),
        uv0_ders: cut_parameter(&d.uv0_ders, k),
        uv1_ders: cut_parameter(&d.uv1_ders, k),
    }
}

// Whether an order of the contacts or their parameters is above 20, or below n.
pub fn above_20(d: &CenterContactDers) -> bool
    ensures { result ≡ contacts_above20 d.now }
{
    let points = 20 < d.contact0_ders.order || 20 < d.contact1_ders.order;
    points || 20 < d.uv0_ders.order || 20 < d.uv1_ders.order
}

pub fn short(d: &CenterContactDers, n: usize) -> bool
    ensures { result ≡ short_contacts d.now n }
{
    let points = d.contact0_ders.order < n || d.contact1_ders.order < n;
    points || d.uv0_ders.order < n || d.uv1_ders.order < n
}

// Whether the five jets are finite: the centre up to the order n, the others up to n + 1.
pub fn are_finite(d: &CenterContactDers, n: usize) -> bool
    requires { n < 20 }
    ensures { result ≡ finite_contacts d.now n }
{
    let k = n + 1;
    let points = d.contact0_ders.is_finite(k) && d.contact1_ders.is_finite(k);
    let feet = d.uv0_ders.is_finite(k) && d.uv1_ders.is_finite(k);
    d.center_ders.is_finite(n) && points && feet
}
