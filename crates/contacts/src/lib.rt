// The ball's centre, its contact points and their parameters along the edge. NaN and infinities pass through; refused where a determinant or a divisor
// is zero.
#![tactic(auto)]

ghost use Rattle.std.specs.Prelude.{◌≡◌, min, Ok};
ghost use Rattle.contacts.specs.Center.{start, found as found_of, if_solvable, center_contacts};

use crate::steps::Formed;
use ieee_vectors::{Vector2, Vector3};
use refusals::Refusal;
use surface_info::Parameters;

mod steps;

// What is known at one place of the edge: the edge, the radius and both surfaces as arrays of their derivatives; the ball's centre, and at each
// contact point its parameters and the surface's unit normal.
#[derive(Clone, Copy)]
pub struct Place {
    pub edge: [f64; 63],
    pub radius: [f64; 21],
    pub surface0: [f64; 693],
    pub surface1: [f64; 693],
    pub center: Vector3,
    pub foot0: Vector2,
    pub foot1: Vector2,
    pub normal0: Vector3,
    pub normal1: Vector3,
}

// The centre, the contact points and their parameters along the edge.
#[derive(Clone, Copy)]
pub struct CenterContacts {
    pub center: [f64; 63],
    pub contact0: [f64; 63],
    pub contact1: [f64; 63],
    pub uv0: Parameters,
    pub uv1: Parameters,
}

fn found(k: Formed) -> CenterContacts
    ensures { result ≡ found_of k }
{
    let center = k.center;
    let contact0 = k.info0.carried.point;
    let contact1 = k.info1.carried.point;
    let uv0 = k.info0.uv;
    let uv1 = k.info1.uv;
    CenterContacts {
        center,
        contact0,
        contact1,
        uv0,
        uv1,
    }
}

// Whether a step would meet a zero, first for the centre, then for each surface: every order inverts the same matrices and divides by the same norms.
fn solvable(p: &Place) -> Result<(), Refusal>
    ensures { result ≡ if_solvable p.now (start p.now) (Ok tt) }
{
    let k = steps::start(p);
    if steps::planes(p).determinant() == 0.0 {
        return Err(Refusal::ZeroDeterminant);
    }
    steps::regular(&p.surface0, &k.center, &k.info0)?;
    steps::regular(&p.surface1, &k.center, &k.info1)
}

// All entries up to the order n, at most 19.
#[tactic(auto, unfolding(crate::specs::Center::center_contacts))]
pub fn center_contacts(p: Place, n: usize) -> Result<CenterContacts, Refusal>
    ensures { result ≡ center_contacts p (min n 19) }
{
    let n = n.min(19);
    if n > 0 {
        solvable(&p)?;
    }
    Ok(found(steps::up_to(&p, n)))
}
