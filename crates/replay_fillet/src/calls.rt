// The fillet through the C interface. The operation's number stands here alone, beside its function's name.
use capi_fillet::fillet;
use replay_text::{Call, Fill};
use std::io::Read;

// Of an axis or a circle, and a pair of sine and cosine.
fn turn(operation: u64, case: &Call<f64>, out: &mut [f64]) -> Option<u8> {
    let a = case.given(0);
    let s = case.given_at(1, 0);
    let c = case.given_at(1, 1);
    let x = case.order(0);
    let y = case.order(1);
    let z = case.order(2);
    let m = case.order(3);
    Some(match operation {
        0x601 => fillet::sugamdely_rot_der_n(x, y, z, m, a, s, c, out),
        0x602 => fillet::sugamdely_from_axis_angle(a, s, c, out),
        0x603 => fillet::sugamdely_contact_circle_derivative_n(x, a, s, c, out),
        _ => return None,
    })
}

// Of the five jets, axis and angle.
fn partial(operation: u64, case: &Call<f64>, out: &mut [f64]) -> Option<u8> {
    let i = case.order(0);
    let j = case.order(1);
    let k = case.order(2);
    let p = case.order(3);
    let q = case.order(4);
    let a = case.order(5);
    let b = case.order(6);
    let center = case.given(0);
    let contact0 = case.given(1);
    let contact1 = case.given(2);
    let uv0 = case.given(3);
    let uv1 = case.given(4);
    let axis = case.given(5);
    let angle = case.given(6);
    let u = case.given_at(7, 0);
    let s = case.given_at(7, 1);
    let c = case.given_at(7, 2);
    Some(match operation {
        0x604 => fillet::sugamdely_derivative_v(
            i, center, j, contact0, k, contact1, p, uv0, q, uv1, a, axis, b, angle, u, s, c, out,
        ),
        0x605 => fillet::sugamdely_derivative_uv(
            i, center, j, contact0, k, contact1, p, uv0, q, uv1, a, axis, b, angle, u, s, c, out,
        ),
        0x606 => fillet::sugamdely_derivative_vv(
            i, center, j, contact0, k, contact1, p, uv0, q, uv1, a, axis, b, angle, u, s, c, out,
        ),
        _ => return None,
    })
}

fn pair_of_orders(case: &Call<f64>, out: &mut [f64]) -> u8 {
    fillet::sugamdely_sub_der_mn(
        case.order(0),
        case.order(1),
        case.given(0),
        case.given(1),
        case.given(2),
        case.order(2),
        case.given(3),
        case.order(3),
        case.given(4),
        case.order(4),
        case.given(5),
        case.order(5),
        case.given(6),
        case.given_at(7, 0),
        case.given_at(7, 1),
        case.given_at(7, 2),
        case.given_at(7, 3),
        out,
    )
}

fn call(operation: u64, case: &Call<f64>, out: &mut [f64]) -> Option<u8> {
    match operation {
        0x601..=0x603 => turn(operation, case, out),
        0x604..=0x606 => partial(operation, case, out),
        0x607 => Some(pair_of_orders(case, out)),
        _ => None,
    }
}

// Whether a call ended as it was to that is lent one list, of at most 64 places.
fn answer_met(operation: u64, case: &Call<f64>) -> bool {
    let mut out = [f64::FILL; 64];
    let number = call(operation, case, case.lent(0, &mut out));
    case.met(number, case.holds(0, &out))
}

// Of circle, foot parameters, normals, edge, radius and both surfaces; five lists are lent.
fn contacts_met(case: &Call<f64>) -> bool {
    let mut a = [f64::FILL; 64];
    let mut b = [f64::FILL; 64];
    let mut c = [f64::FILL; 64];
    let mut d = [f64::FILL; 64];
    let mut e = [f64::FILL; 64];
    let number = fillet::sugamdely_sub_center_contacts_ders(
        case.order(0),
        case.given(0),
        case.given(1),
        case.given(2),
        case.order(1),
        case.given(3),
        case.order(2),
        case.given(4),
        case.order(3),
        case.given(5),
        case.order(4),
        case.given(6),
        case.lent(0, &mut a),
        case.lent(1, &mut b),
        case.lent(2, &mut c),
        case.lent(3, &mut d),
        case.lent(4, &mut e),
    );
    let points = case.holds(0, &a) && case.holds(1, &b) && case.holds(2, &c);
    let parameters = case.holds(3, &d) && case.holds(4, &e);
    case.met(Some(number), points && parameters)
}

// Of the jets of centre, contacts, foot parameters and radius, and the angle; three lists are lent.
fn info_met(case: &Call<f64>) -> bool {
    let mut a = [f64::FILL; 64];
    let mut b = [f64::FILL; 64];
    let mut c = [f64::FILL; 64];
    let number = fillet::sugamdely_vder_info(
        case.order(0),
        case.given(0),
        case.order(1),
        case.given(1),
        case.order(2),
        case.given(2),
        case.order(3),
        case.given(3),
        case.order(4),
        case.given(4),
        case.order(5),
        case.given(5),
        case.given_at(6, 0),
        case.lent(0, &mut a),
        case.lent(1, &mut b),
        case.lent(2, &mut c),
    );
    let held = case.holds(0, &a) && case.holds(1, &b) && case.holds(2, &c);
    case.met(Some(number), held)
}

pub fn next_case(input: &mut impl Read, operation: u64) -> bool {
    let mut places = Call::NONE;
    let case = places.read(input);
    match operation {
        0x608 => contacts_met(case),
        0x609 => info_met(case),
        _ => answer_met(operation, case),
    }
}
