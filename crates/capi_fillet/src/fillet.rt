// The fillet. A circle is centre, axis, angle, contact point 0, contact point 1; the parameters of its contact points stand apart.
ghost use Rattle.std.specs.Prelude.{◌≡◌, List, ℕ, Float, Result};
ghost use Rattle.refusals.specs.declared.Refusal.{Refusal};
ghost use Rattle.refusals.specs.Number.{number_of};
ghost use Rattle.ieee_vectors.specs.declared.Vector3.{Vector3};
ghost use Rattle.rolling_ball_fillet.specs.declared.VderInfo.{VderInfo};
ghost use Rattle.rolling_ball_fillet.specs.Partials.{derivative_v, derivative_u_v, derivative_v_v};
ghost use Rattle.rolling_ball_fillet.specs.PartialAnswer.{partial_answer};
ghost use Rattle.fillet_lists.specs.Delivery.{Five, Three};
ghost use Rattle.capi_fillet.specs.Fillet.{orders_given, rotation_into, circle_into, contacts_into, vder_info_into, partial_into, sub_der_into};

use derivatives::CurveDerivatives;
use fillet_lists::records;
use fillet_lists::records::{Ders, Fillet, Jet};
use given::values::vector_at;
use given::{Lent, count, first, order};
use ieee_vectors::{Matrix3, Vector2, Vector3};
use refusals::{Refusal, number_of};
use rolling_ball_fillet::VderInfo;
use vector_derivatives::VectorCurveDerivatives;

// The test of four orders.
fn orders(x: usize, y: usize, z: usize, n: usize) -> Result<(), Refusal>
    ensures { number_of result ≡ orders_given x y z n }
{
    first(order(x), first(order(y), first(order(z), order(n))))
}

fn rotation(
    x: usize,
    y: usize,
    z: usize,
    n: usize,
    axis: &[f64],
    s: f64,
    c: f64,
    out: &mut [f64],
) -> Result<(), Refusal>
    ensures { ◌≡◌ {A = ℕ × List Float} (number_of result, out.new) (rotation_into x y z n axis.now s c out.old) }
{
    let lists = first(count(3, axis.len()), count(9, out.len()));
    first(orders(x, y, z, n), lists)?;
    let answer = rolling_ball_fillet::rot_der_n(x, y, z, n, vector_at(axis, 0), s, c);
    Matrix3::write(answer, out)
}

// Rodrigues' rotation, derived x, y and z times by the axis' components and n times by the angle, whose sine and cosine are s and c.
#[unsafe(no_mangle)]
pub extern "C" fn sugamdely_rot_der_n(
    x: usize,
    y: usize,
    z: usize,
    n: usize,
    axis: &[f64],
    s: f64,
    c: f64,
    out: &mut [f64],
) -> u8
    ensures { ◌≡◌ {A = ℕ × List Float} (result, out.new) (rotation_into x y z n axis.now s c out.old) }
{
    number_of(rotation(x, y, z, n, axis, s, c, out))
}

#[unsafe(no_mangle)]
pub extern "C" fn sugamdely_from_axis_angle(axis: &[f64], s: f64, c: f64, out: &mut [f64]) -> u8
    ensures { ◌≡◌ {A = ℕ × List Float} (result, out.new) (rotation_into 0 0 0 0 axis.now s c out.old) }
{
    number_of(rotation(0, 0, 0, 0, axis, s, c, out))
}

fn circle_derivative(
    n: usize,
    circle: &[f64],
    s: f64,
    c: f64,
    out: &mut [f64],
) -> Result<(), Refusal>
    ensures { ◌≡◌ {A = ℕ × List Float} (number_of result, out.new) (circle_into n circle.now s c out.old) }
{
    let lists = first(count(13, circle.len()), count(3, out.len()));
    first(order(n), lists)?;
    let foot = Vector2 { x: 0.0, y: 0.0 };
    let answer = records::circle(circle, foot, foot).derivative_n(n, s, c);
    Vector3::write(answer, out)
}

// The derivative of order n of the circle along its arc; the parameters of the contact points are zero.
#[unsafe(no_mangle)]
pub extern "C" fn sugamdely_contact_circle_derivative_n(
    n: usize,
    circle: &[f64],
    s: f64,
    c: f64,
    out: &mut [f64],
) -> u8
    ensures { ◌≡◌ {A = ℕ × List Float} (result, out.new) (circle_into n circle.now s c out.old) }
{
    number_of(circle_derivative(n, circle, s, c, out))
}

fn contacts(
    n: usize,
    fillet: &Fillet,
    center: &mut [f64],
    contact0: &mut [f64],
    contact1: &mut [f64],
    uv0: &mut [f64],
    uv1: &mut [f64],
) -> Result<(), Refusal>
    ensures { ◌≡◌ {A = ℕ × Five} (number_of result, (center.new, (contact0.new, (contact1.new, (uv0.new, uv1.new))))) (contacts_into n fillet.now.circle.now fillet.now.feet.now fillet.now.normals.now (fillet.now.edge.order, fillet.now.edge.list.now) (fillet.now.radius.order, fillet.now.radius.list.now) (fillet.now.surface0.order, fillet.now.surface0.list.now) (fillet.now.surface1.order, fillet.now.surface1.list.now) (center.old, (contact0.old, (contact1.old, (uv0.old, uv1.old))))) }
{
    let lent = records::lent(
        n,
        center.len(),
        contact0.len(),
        contact1.len(),
        uv0.len(),
        uv1.len(),
    );
    first(fillet.test(), lent)?;
    let answer = fillet
        .surface()
        .sub_center_contacts_ders(fillet.contact_circle(), n);
    fillet_lists::deliver_contacts(answer, center, contact0, contact1, uv0, uv1)
}

// How the ball's centre, its contact points and their parameters move along the edge, up to the order n.
#[unsafe(no_mangle)]
pub extern "C" fn sugamdely_sub_center_contacts_ders(
    n: usize,
    circle: &[f64],
    feet: &[f64],
    normals: &[f64],
    edge_order: usize,
    edge: &[f64],
    radius_order: usize,
    radius: &[f64],
    surface0_order: usize,
    surface0: &[f64],
    surface1_order: usize,
    surface1: &[f64],
    center: &mut [f64],
    contact0: &mut [f64],
    contact1: &mut [f64],
    uv0: &mut [f64],
    uv1: &mut [f64],
) -> u8
    ensures { ◌≡◌ {A = ℕ × Five} (result, (center.new, (contact0.new, (contact1.new, (uv0.new, uv1.new))))) (contacts_into n circle.now feet.now normals.now (edge_order, edge.now) (radius_order, radius.now) (surface0_order, surface0.now) (surface1_order, surface1.now) (center.old, (contact0.old, (contact1.old, (uv0.old, uv1.old))))) }
{
    let fillet = Fillet {
        circle,
        feet,
        normals,
        edge: Jet::new(edge_order, edge),
        radius: Jet::new(radius_order, radius),
        surface0: Jet::new(surface0_order, surface0),
        surface1: Jet::new(surface1_order, surface1),
    };
    number_of(contacts(n, &fillet, center, contact0, contact1, uv0, uv1))
}

fn info(
    ders: &Ders,
    radius: Jet,
    angle: f64,
    axis_out: &mut [f64],
    angle_out: &mut [f64],
    cosine_out: &mut [f64],
) -> Result<(), Refusal>
    ensures { ◌≡◌ {A = ℕ × Three} (number_of result, (axis_out.new, (angle_out.new, cosine_out.new))) (vder_info_into (ders.now.center.order, ders.now.center.list.now) (ders.now.contact0.order, ders.now.contact0.list.now) (ders.now.contact1.order, ders.now.contact1.list.now) (ders.now.uv0.order, ders.now.uv0.list.now) (ders.now.uv1.order, ders.now.uv1.list.now) (radius.entry.order, radius.entry.list.now) angle (axis_out.old, (angle_out.old, cosine_out.old))) }
{
    let n = ders.center.order;
    let lent = first(
        VectorCurveDerivatives::due(n, axis_out.len()),
        first(
            CurveDerivatives::due(n, angle_out.len()),
            count(1, cosine_out.len()),
        ),
    );
    let radii = radius.test::<CurveDerivatives>();
    first(ders.test(), first(radii, lent))?;
    let answer = ders.read().vder_info(radius.read(), angle);
    fillet_lists::deliver_info(answer, axis_out, angle_out, cosine_out)
}

// How the axis and the angle move along the edge, up to the centre's order, from the radius' derivatives and the angle itself; and the clamped
// cosine of the angle.
#[unsafe(no_mangle)]
pub extern "C" fn sugamdely_vder_info(
    center_order: usize,
    center: &[f64],
    contact0_order: usize,
    contact0: &[f64],
    contact1_order: usize,
    contact1: &[f64],
    uv0_order: usize,
    uv0: &[f64],
    uv1_order: usize,
    uv1: &[f64],
    radius_order: usize,
    radius: &[f64],
    angle: f64,
    axis_out: &mut [f64],
    angle_out: &mut [f64],
    cosine_out: &mut [f64],
) -> u8
    ensures { ◌≡◌ {A = ℕ × Three} (result, (axis_out.new, (angle_out.new, cosine_out.new))) (vder_info_into (center_order, center.now) (contact0_order, contact0.now) (contact1_order, contact1.now) (uv0_order, uv0.now) (uv1_order, uv1.now) (radius_order, radius.now) angle (axis_out.old, (angle_out.old, cosine_out.old))) }
{
    let ders = Ders {
        center: Jet::new(center_order, center),
        contact0: Jet::new(contact0_order, contact0),
        contact1: Jet::new(contact1_order, contact1),
        uv0: Jet::new(uv0_order, uv0),
        uv1: Jet::new(uv1_order, uv1),
    };
    number_of(info(
        &ders,
        Jet::new(radius_order, radius),
        angle,
        axis_out,
        angle_out,
        cosine_out,
    ))
}

// A partial derivative from these jets, the axis' and the angle's.
fn partial<F: FnOnce(VderInfo) -> Result<Vector3, Refusal>>(
    ders: &Ders,
    axis: Jet,
    angle: Jet,
    out: &mut [f64],
    work: F,
) -> Result<(), Refusal>
    requires { F.IsAlwaysCallable work }
    ensures { (op : VderInfo → Result Vector3 Refusal) → ((i : VderInfo) (r : Result Vector3 Refusal) → F.post work i r → r ≡ op i) → ◌≡◌ {A = ℕ × List Float} (number_of result, out.new) (partial_into op (ders.now.center.order, ders.now.center.list.now) (ders.now.contact0.order, ders.now.contact0.list.now) (ders.now.contact1.order, ders.now.contact1.list.now) (ders.now.uv0.order, ders.now.uv0.list.now) (ders.now.uv1.order, ders.now.uv1.list.now) (axis.entry.order, axis.entry.list.now) (angle.entry.order, angle.entry.list.now) out.old) }
{
    let axes = axis.test::<VectorCurveDerivatives>();
    let angles = angle.test::<CurveDerivatives>();
    first(ders.test(), first(axes, first(angles, count(3, out.len()))))?;
    Vector3::write(work(records::info(ders.read(), axis, angle)), out)
}

// The fillet's partial derivatives at the share u of the arc; s and c are the sine and cosine of angle·u.
#[unsafe(no_mangle)]
pub extern "C" fn sugamdely_derivative_v(
    center_order: usize,
    center: &[f64],
    contact0_order: usize,
    contact0: &[f64],
    contact1_order: usize,
    contact1: &[f64],
    uv0_order: usize,
    uv0: &[f64],
    uv1_order: usize,
    uv1: &[f64],
    axis_order: usize,
    axis: &[f64],
    angle_order: usize,
    angle: &[f64],
    u: f64,
    s: f64,
    c: f64,
    out: &mut [f64],
) -> u8
    ensures { ◌≡◌ {A = ℕ × List Float} (result, out.new) (partial_into (λ i. partial_answer derivative_v 1 i u s c) (center_order, center.now) (contact0_order, contact0.now) (contact1_order, contact1.now) (uv0_order, uv0.now) (uv1_order, uv1.now) (axis_order, axis.now) (angle_order, angle.now) out.old) }
{
    let ders = Ders {
        center: Jet::new(center_order, center),
        contact0: Jet::new(contact0_order, contact0),
        contact1: Jet::new(contact1_order, contact1),
        uv0: Jet::new(uv0_order, uv0),
        uv1: Jet::new(uv1_order, uv1),
    };
    number_of(partial(
        &ders,
        Jet::new(axis_order, axis),
        Jet::new(angle_order, angle),
        out,
        |i: VderInfo| i.derivative_v(u, s, c),
    ))
}

#[unsafe(no_mangle)]
pub extern "C" fn sugamdely_derivative_uv(
    center_order: usize,
    center: &[f64],
    contact0_order: usize,
    contact0: &[f64],
    contact1_order: usize,
    contact1: &[f64],
    uv0_order: usize,
    uv0: &[f64],
    uv1_order: usize,
    uv1: &[f64],
    axis_order: usize,
    axis: &[f64],
    angle_order: usize,
    angle: &[f64],
    u: f64,
    s: f64,
    c: f64,
    out: &mut [f64],
) -> u8
    ensures { ◌≡◌ {A = ℕ × List Float} (result, out.new) (partial_into (λ i. partial_answer derivative_u_v 1 i u s c) (center_order, center.now) (contact0_order, contact0.now) (contact1_order, contact1.now) (uv0_order, uv0.now) (uv1_order, uv1.now) (axis_order, axis.now) (angle_order, angle.now) out.old) }
{
    let ders = Ders {
        center: Jet::new(center_order, center),
        contact0: Jet::new(contact0_order, contact0),
        contact1: Jet::new(contact1_order, contact1),
        uv0: Jet::new(uv0_order, uv0),
        uv1: Jet::new(uv1_order, uv1),
    };
    number_of(partial(
        &ders,
        Jet::new(axis_order, axis),
        Jet::new(angle_order, angle),
        out,
        |i: VderInfo| i.derivative_uv(u, s, c),
    ))
}

#[unsafe(no_mangle)]
pub extern "C" fn sugamdely_derivative_vv(
    center_order: usize,
    center: &[f64],
    contact0_order: usize,
    contact0: &[f64],
    contact1_order: usize,
    contact1: &[f64],
    uv0_order: usize,
    uv0: &[f64],
    uv1_order: usize,
    uv1: &[f64],
    axis_order: usize,
    axis: &[f64],
    angle_order: usize,
    angle: &[f64],
    u: f64,
    s: f64,
    c: f64,
    out: &mut [f64],
) -> u8
    ensures { ◌≡◌ {A = ℕ × List Float} (result, out.new) (partial_into (λ i. partial_answer derivative_v_v 2 i u s c) (center_order, center.now) (contact0_order, contact0.now) (contact1_order, contact1.now) (uv0_order, uv0.now) (uv1_order, uv1.now) (axis_order, axis.now) (angle_order, angle.now) out.old) }
{
    let ders = Ders {
        center: Jet::new(center_order, center),
        contact0: Jet::new(contact0_order, contact0),
        contact1: Jet::new(contact1_order, contact1),
        uv0: Jet::new(uv0_order, uv0),
        uv1: Jet::new(uv1_order, uv1),
    };
    number_of(partial(
        &ders,
        Jet::new(axis_order, axis),
        Jet::new(angle_order, angle),
        out,
        |i: VderInfo| i.derivative_vv(u, s, c),
    ))
}

fn sub_der(
    m: usize,
    n: usize,
    fillet: &Fillet,
    angle: f64,
    u: f64,
    s: f64,
    c: f64,
    out: &mut [f64],
) -> Result<(), Refusal>
    ensures { ◌≡◌ {A = ℕ × List Float} (number_of result, out.new) (sub_der_into m n fillet.now.circle.now fillet.now.feet.now fillet.now.normals.now (fillet.now.edge.order, fillet.now.edge.list.now) (fillet.now.radius.order, fillet.now.radius.list.now) (fillet.now.surface0.order, fillet.now.surface0.list.now) (fillet.now.surface1.order, fillet.now.surface1.list.now) angle u s c out.old) }
{
    let pair = first(order(m), first(order(n), count(3, out.len())));
    first(fillet.test(), pair)?;
    let answer = fillet
        .surface()
        .sub_der_mn(m, n, u, fillet.contact_circle(), angle, s, c);
    Vector3::write(answer, out)
}

// The fillet's partial derivative m times by u and n times by v.
#[unsafe(no_mangle)]
pub extern "C" fn sugamdely_sub_der_mn(
    m: usize,
    n: usize,
    circle: &[f64],
    feet: &[f64],
    normals: &[f64],
    edge_order: usize,
    edge: &[f64],
    radius_order: usize,
    radius: &[f64],
    surface0_order: usize,
    surface0: &[f64],
    surface1_order: usize,
    surface1: &[f64],
    angle: f64,
    u: f64,
    s: f64,
    c: f64,
    out: &mut [f64],
) -> u8
    ensures { ◌≡◌ {A = ℕ × List Float} (result, out.new) (sub_der_into m n circle.now feet.now normals.now (edge_order, edge.now) (radius_order, radius.now) (surface0_order, surface0.now) (surface1_order, surface1.now) angle u s c out.old) }
{
    let fillet = Fillet {
        circle,
        feet,
        normals,
        edge: Jet::new(edge_order, edge),
        radius: Jet::new(radius_order, radius),
        surface0: Jet::new(surface0_order, surface0),
        surface1: Jet::new(surface1_order, surface1),
    };
    number_of(sub_der(m, n, &fillet, angle, u, s, c, out))
}
