// How the angle between the arms of the contact circle moves along the edge. NaN and infinities pass through. Each `requires` is met by the callers.
ghost use Rattle.std.specs.Prelude.{◌≡◌, ◌≤◌, ◌<◌};
ghost use Rattle.calculus.specs.Array.{filled, curve_array};
ghost use Rattle.ieee_vectors.specs.Vectors.{positive_zero};
ghost use Rattle.formulas.specs.Numbers.{curve_numbers};
ghost use Rattle.vector_formulas.specs.Vector.{vector_numbers, vector_array};
ghost use Rattle.partials.specs.AxisAngle.{arm as arm_of, dots as dots_of, rate_entry, rates as rates_of, turn_entry, turns as turns_of, angles as angles_from, clamped as clamped_of, cosine as cosine_of, division_by_zero};

// From the centre to a contact point, up to the order n.
pub fn arm(contact: &[f64; 63], center: &[f64; 63], n: usize) -> [f64; 63]
    requires { n ≤ 20 }
    ensures { result ≡ vector_array (arm_of contact.now center.now) n }
{
    vector_formulas::difference(contact, center, n)
}

// The entry m of r'/r, from the entries q before it; then its entries up to the order n.
fn rate(r: &[f64; 21], q: &[f64; 21], m: usize) -> f64
    requires { m < 20 }
    ensures { result ≡ rate_entry (curve_numbers r.now) (curve_numbers q.now) m }
{
    if m == 0 {
        return r[1] / r[0];
    }
    let sum = formulas::product(r, q, m);
    (r[m + 1] - sum) / r[0]
}

fn rates(r: &[f64; 21], n: usize) -> [f64; 21]
    requires { n < 20 }
    ensures { result ≡ curve_array positive_zero (rates_of (curve_numbers r.now)) n }
{
    let mut q = [0.0f64; 21];
    for m in 0..n + 1 {
        q[m] = rate(r, &q, m);
    }
    q
}

// The entry m of the angle's derivative, from the entries q before it; then its first n entries.
fn turn(rate: &[f64; 21], dot: &[f64; 21], length: &[f64; 21], q: &[f64; 21], m: usize) -> f64
    requires { m < 20 }
    ensures { result ≡ turn_entry (curve_numbers rate.now) (curve_numbers dot.now) (curve_numbers length.now) (curve_numbers q.now) m }
{
    let sum0 = formulas::product(q, length, m);
    let sum1 = formulas::product(rate, dot, m);
    (2.0 * sum1 - dot[m + 1] - sum0) / length[0]
}

fn turns(rate: &[f64; 21], dot: &[f64; 21], length: &[f64; 21], n: usize) -> [f64; 21]
    requires { n ≤ 20 }
    ensures { result ≡ filled 21 positive_zero (turns_of (curve_numbers rate.now) (curve_numbers dot.now) (curve_numbers length.now)) n }
{
    let mut q = [0.0f64; 21];
    for m in 0..n {
        q[m] = turn(rate, dot, length, &q, m);
    }
    q
}

// The angle, and after it the first n entries of its derivative.
fn with_angle(angle: f64, turn: &[f64; 21], n: usize) -> [f64; 21]
    requires { n ≤ 20 }
    ensures { result ≡ curve_array positive_zero (angles_from angle (curve_numbers turn.now)) n }
{
    let mut r = [0.0f64; 21];
    r[0] = angle;
    r[1..n + 1].copy_from_slice(&turn[..n]);
    r
}

pub fn angles(
    p: &[f64; 63],
    q: &[f64; 63],
    length: &[f64; 21],
    r: &[f64; 21],
    angle: f64,
    n: usize,
) -> [f64; 21]
    requires { n < 20 }
    ensures { result ≡ curve_array positive_zero (angles_from angle (turns_of (rates_of (curve_numbers r.now)) (dots_of (vector_numbers p.now) (vector_numbers q.now)) (curve_numbers length.now))) n }
{
    let rate = rates(r, n);
    let dot = vector_formulas::dots(p, q, n);
    let turn = turns(&rate, &dot, length, n);
    with_angle(angle, &turn, n)
}

// At most 1.0, which a NaN becomes.
fn clamped(x: f64) -> f64
    ensures { result ≡ clamped_of x }
{
    if x < 1.0 { x } else { 1.0 }
}

// The cosine of the angle between p and q, both as long as the radius r.
pub fn cosine(p: &[f64; 63], q: &[f64; 63], r: f64) -> f64
    ensures { result ≡ cosine_of (vector_numbers p.now 0) (vector_numbers q.now 0) r }
{
    let a = vector_formulas::vector_at(p, 0);
    let b = vector_formulas::vector_at(q, 0);
    clamped(a.dot(b) / (r * r))
}

// Whether one is due: by the length of p × q, by the radius, or by its square, which may underflow.
pub fn division_by_zero(length: f64, r: f64) -> bool
    ensures { result ≡ division_by_zero length r }
{
    length == 0.0 || r == 0.0 || r * r == 0.0
}
