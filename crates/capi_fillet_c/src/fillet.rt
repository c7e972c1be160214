// The functions of `capi_fillet::fillet` under their names in C.
ghost use Rattle.std.specs.Prelude.{◌≡◌, List, ℕ, Float};
ghost use Rattle.rolling_ball_fillet.specs.Partials.{derivative_v, derivative_u_v, derivative_v_v};
ghost use Rattle.rolling_ball_fillet.specs.PartialAnswer.{partial_answer};
ghost use Rattle.fillet_lists.specs.Delivery.{Five, Three};
ghost use Rattle.capi_fillet.specs.Fillet.{rotation_into, circle_into, contacts_into, vder_info_into, partial_into, sub_der_into};

// Rodrigues' rotation, derived x, y and z times by the axis' components and n times by the angle, whose sine and cosine are s and c.
#[unsafe(no_mangle)]
pub extern "C" fn sugamdely_rot_der_n(
    x: usize,
    y: usize,
    z: usize,
    n: usize,
    axis: &[f64],
    s: f64,
    c: f64,
    out: &mut [f64],
) -> u8
    ensures { ◌≡◌ {A = ℕ × List Float} (result, out.new) (rotation_into x y z n axis.now s c out.old) }
{
    capi_fillet::fillet::sugamdely_rot_der_n(x, y, z, n, axis, s, c, out)
}

#[unsafe(no_mangle)]
pub extern "C" fn sugamdely_from_axis_angle(axis: &[f64], s: f64, c: f64, out: &mut [f64]) -> u8
    ensures { ◌≡◌ {A = ℕ × List Float} (result, out.new) (rotation_into 0 0 0 0 axis.now s c out.old) }
{
    capi_fillet::fillet::sugamdely_from_axis_angle(axis, s, c, out)
}

// The derivative of order n of the circle along its arc; the parameters of the contact points are zero.
#[unsafe(no_mangle)]
pub extern "C" fn sugamdely_contact_circle_derivative_n(
    n: usize,
    circle: &[f64],
    s: f64,
    c: f64,
    out: &mut [f64],
) -> u8
    ensures { ◌≡◌ {A = ℕ × List Float} (result, out.new) (circle_into n circle.now s c out.old) }
{
    capi_fillet::fillet::sugamdely_contact_circle_derivative_n(n, circle, s, c, out)
}

// How the ball's centre, its contact points and their parameters move along the edge, up to the order n.
#[unsafe(no_mangle)]
pub extern "C" fn sugamdely_sub_center_contacts_ders(
    n: usize,
    circle: &[f64],
    feet: &[f64],
    normals: &[f64],
    edge_order: usize,
    edge: &[f64],
    radius_order: usize,
    radius: &[f64],
    surface0_order: usize,
    surface0: &[f64],
    surface1_order: usize,
    surface1: &[f64],
    center: &mut [f64],
    contact0: &mut [f64],
    contact1: &mut [f64],
    uv0: &mut [f64],
    uv1: &mut [f64],
) -> u8
    ensures { ◌≡◌ {A = ℕ × Five} (result, (center.new, (contact0.new, (contact1.new, (uv0.new, uv1.new))))) (contacts_into n circle.now feet.now normals.now (edge_order, edge.now) (radius_order, radius.now) (surface0_order, surface0.now) (surface1_order, surface1.now) (center.old, (contact0.old, (contact1.old, (uv0.old, uv1.old))))) }
{
    capi_fillet::fillet::sugamdely_sub_center_contacts_ders(
        n,
        circle,
        feet,
        normals,
        edge_order,
        edge,
        radius_order,
        radius,
        surface0_order,
        surface0,
        surface1_order,
        surface1,
        center,
        contact0,
        contact1,
        uv0,
        uv1,
    )
}

// How the axis and the angle move along the edge, up to the centre's order, from the radius' derivatives and the angle itself; and the clamped
// cosine of the angle.
#[unsafe(no_mangle)]
pub extern "C" fn sugamdely_vder_info(
    center_order: usize,
    center: &[f64],
    contact0_order: usize,
    contact0: &[f64],
    contact1_order: usize,
    contact1: &[f64],
    uv0_order: usize,
    uv0: &[f64],
    uv1_order: usize,
    uv1: &[f64],
    radius_order: usize,
    radius: &[f64],
    angle: f64,
    axis_out: &mut [f64],
    angle_out: &mut [f64],
    cosine_out: &mut [f64],
) -> u8
    ensures { ◌≡◌ {A = ℕ × Three} (result, (axis_out.new, (angle_out.new, cosine_out.new))) (vder_info_into (center_order, center.now) (contact0_order, contact0.now) (contact1_order, contact1.now) (uv0_order, uv0.now) (uv1_order, uv1.now) (radius_order, radius.now) angle (axis_out.old, (angle_out.old, cosine_out.old))) }
{
    capi_fillet::fillet::sugamdely_vder_info(
        center_order,
        center,
        contact0_order,
        contact0,
        contact1_order,
        contact1,
        uv0_order,
        uv0,
        uv1_order,
        uv1,
        radius_order,
        radius,
        angle,
        axis_out,
        angle_out,
        cosine_out,
    )
}

// The fillet's partial derivatives at the share u of the arc; s and c are the sine and cosine of angle·u.
#[unsafe(no_mangle)]
pub extern "C" fn sugamdely_derivative_v(
    center_order: usize,
    center: &[f64],
    contact0_order: usize,
    contact0: &[f64],
    contact1_order: usize,
    contact1: &[f64],
    uv0_order: usize,
    uv0: &[f64],
    uv1_order: usize,
    uv1: &[f64],
    axis_order: usize,
    axis: &[f64],
    angle_order: usize,
    angle: &[f64],
    u: f64,
    s: f64,
    c: f64,
    out: &mut [f64],
) -> u8
    ensures { ◌≡◌ {A = ℕ × List Float} (result, out.new) (partial_into (λ i. partial_answer derivative_v 1 i u s c) (center_order, center.now) (contact0_order, contact0.now) (contact1_order, contact1.now) (uv0_order, uv0.now) (uv1_order, uv1.now) (axis_order, axis.now) (angle_order, angle.now) out.old) }
{
    capi_fillet::fillet::sugamdely_derivative_v(
        center_order,
        center,
        contact0_order,
        contact0,
        contact1_order,
        contact1,
        uv0_order,
        uv0,
        uv1_order,
        uv1,
        axis_order,
        axis,
        angle_order,
        angle,
        u,
        s,
        c,
        out,
    )
}

#[unsafe(no_mangle)]
pub extern "C" fn sugamdely_derivative_uv(
    center_order: usize,
    center: &[f64],
    contact0_order: usize,
    contact0: &[f64],
    contact1_order: usize,
    contact1: &[f64],
    uv0_order: usize,
    uv0: &[f64],
    uv1_order: usize,
    uv1: &[f64],
    axis_order: usize,
    axis: &[f64],
    angle_order: usize,
    angle: &[f64],
    u: f64,
    s: f64,
    c: f64,
    out: &mut [f64],
) -> u8
    ensures { ◌≡◌ {A = ℕ × List Float} (result, out.new) (partial_into (λ i. partial_answer derivative_u_v 1 i u s c) (center_order, center.now) (contact0_order, contact0.now) (contact1_order, contact1.now) (uv0_order, uv0.now) (uv1_order, uv1.now) (axis_order, axis.now) (angle_order, angle.now) out.old) }
{
    capi_fillet::fillet::sugamdely_derivative_uv(
        center_order,
        center,
        contact0_order,
        contact0,
        contact1_order,
        contact1,
        uv0_order,
        uv0,
        uv1_order,
        uv1,
        axis_order,
        axis,
        angle_order,
        angle,
        u,
        s,
        c,
        out,
    )
}

#[unsafe(no_mangle)]
pub extern "C" fn sugamdely_derivative_vv(
    center_order: usize,
    center: &[f64],
    contact0_order: usize,
    contact0: &[f64],
    contact1_order: usize,
    contact1: &[f64],
    uv0_order: usize,
    uv0: &[f64],
    uv1_order: usize,
    uv1: &[f64],
    axis_order: usize,
    axis: &[f64],
    angle_order: usize,
    angle: &[f64],
    u: f64,
    s: f64,
    c: f64,
    out: &mut [f64],
) -> u8
    ensures { ◌≡◌ {A = ℕ × List Float} (result, out.new) (partial_into (λ i. partial_answer derivative_v_v 2 i u s c) (center_order, center.now) (contact0_order, contact0.now) (contact1_order, contact1.now) (uv0_order, uv0.now) (uv1_order, uv1.now) (axis_order, axis.now) (angle_order, angle.now) out.old) }
{
    capi_fillet::fillet::sugamdely_derivative_vv(
        center_order,
        center,
        contact0_order,
        contact0,
        contact1_order,
        contact1,
        uv0_order,
        uv0,
        uv1_order,
        uv1,
        axis_order,
        axis,
        angle_order,
        angle,
        u,
        s,
        c,
        out,
    )
}

// The fillet's partial derivative m times by u and n times by v.
#[unsafe(no_mangle)]
pub extern "C" fn sugamdely_sub_der_mn(
    m: usize,
    n: usize,
    circle: &[f64],
    feet: &[f64],
    normals: &[f64],
    edge_order: usize,
    edge: &[f64],
    radius_order: usize,
    radius: &[f64],
    surface0_order: usize,
    surface0: &[f64],
    surface1_order: usize,
    surface1: &[f64],
    angle: f64,
    u: f64,
    s: f64,
    c: f64,
    out: &mut [f64],
) -> u8
    ensures { ◌≡◌ {A = ℕ × List Float} (result, out.new) (sub_der_into m n circle.now feet.now normals.now (edge_order, edge.now) (radius_order, radius.now) (surface0_order, surface0.now) (surface1_order, surface1.now) angle u s c out.old) }
{
    capi_fillet::fillet::sugamdely_sub_der_mn(
        m,
        n,
        circle,
        feet,
        normals,
        edge_order,
        edge,
        radius_order,
        radius,
        surface0_order,
        surface0,
        surface1_order,
        surface1,
        angle,
        u,
        s,
        c,
        out,
    )
}
