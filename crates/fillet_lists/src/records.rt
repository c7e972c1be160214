// Circles, fillets and the jets along their edges, as they are handed over in lists.
ghost use Rattle.std.specs.Prelude.{◌≡◌, cond, length, ltb};
ghost use Rattle.refusals.specs.Number.{number_of};
ghost use Rattle.given.specs.Given.{first as first_of};
ghost use Rattle.fillet_lists.specs.Records.{circle_of, circle_with, fillet_of, ders_of, info_of, fillet_given, ders_given, contacts_given};

use derivatives::{CurveDerivatives, ParameterCurve};
use given::values::{float_at, vector_at};
use given::{Listed, count, first};
use ieee_vectors::Vector2;
use refusals::Refusal;
use rolling_ball_fillet::{
    CenterContactDers, ContactCircle, ContactPoint, RollingBallFilletSurface, VderInfo,
};
use vector_derivatives::{VectorCurveDerivatives, VectorSurfaceDerivatives};

// A circle, with the parameters of its contact points.
pub fn circle(list: &[f64], uv0: Vector2, uv1: Vector2) -> ContactCircle
    ensures { result ≡ circle_of list.now uv0.x uv0.y uv1.x uv1.y }
{
    ContactCircle {
        center: vector_at(list, 0),
        axis: vector_at(list, 3),
        angle: float_at(list, 6, 0),
        contact_point0: ContactPoint {
            point: vector_at(list, 7),
            uv: uv0,
        },
        contact_point1: ContactPoint {
            point: vector_at(list, 10),
            uv: uv1,
        },
    }
}

// A jet as it is handed over: its order, and its list.
#[derive(Clone, Copy)]
pub struct Jet<'a> {
    pub order: usize,
    pub list: &'a [f64],
}

impl<'a> Jet<'a> {
    pub fn new(order: usize, list: &'a [f64]) -> Jet<'a>
        ensures order { result.order ≡ order }
        ensures list { result.list.now ≡ list.now }
    {
        Jet { order, list }
    }

    // The test of the list as that of a J.
    pub fn test<J: Listed<f64>>(&self) -> Result<(), Refusal>
        ensures { number_of result ≡ J.input.test self.now.order (length self.now.list.now) }
    {
        J::test(self.order, self.list.len())
    }

    pub fn read<J: Listed<f64>>(&self) -> J
        ensures { result ≡ J.input.jet self.now.order self.now.list.now }
    {
        J::read(self.order, self.list)
    }
}

// A circle, with the parameters of its contact points from a list of their own.
pub fn circle_with(list: &[f64], feet: &[f64]) -> ContactCircle
    ensures { result ≡ circle_with list.now feet.now }
{
    let uv0 = Vector2 {
        x: float_at(feet, 0, 0),
        y: float_at(feet, 0, 1),
    };
    let uv1 = Vector2 {
        x: float_at(feet, 0, 2),
        y: float_at(feet, 0, 3),
    };
    circle(list, uv0, uv1)
}

pub fn fillet_of(
    normals: &[f64],
    edge: Jet,
    radius: Jet,
    surface0: Jet,
    surface1: Jet,
) -> RollingBallFilletSurface
    ensures { result ≡ fillet_of normals.now (edge.entry.order, edge.entry.list.now) (radius.entry.order, radius.entry.list.now) (surface0.entry.order, surface0.entry.list.now) (surface1.entry.order, surface1.entry.list.now) }
{
    RollingBallFilletSurface {
        edge_curve: edge.read(),
        surface0: surface0.read(),
        surface1: surface1.read(),
        radius: radius.read(),
        normal0: vector_at(normals, 0),
        normal1: vector_at(normals, 3),
    }
}

// A fillet: a circle, the parameters of its contact points (feet), both normals, and the jets.
#[derive(Clone, Copy)]
pub struct Fillet<'a> {
    pub circle: &'a [f64],
    pub feet: &'a [f64],
    pub normals: &'a [f64],
    pub edge: Jet<'a>,
    pub radius: Jet<'a>,
    pub surface0: Jet<'a>,
    pub surface1: Jet<'a>,
}

impl<'a> Fillet<'a> {
    pub fn test(&self) -> Result<(), Refusal>
        ensures { number_of result ≡ fillet_given self.now.circle.now self.now.feet.now self.now.normals.now (self.now.edge.order, self.now.edge.list.now) (self.now.radius.order, self.now.radius.list.now) (self.now.surface0.order, self.now.surface0.list.now) (self.now.surface1.order, self.now.surface1.list.now) }
    {
        let edge = self.edge.test::<VectorCurveDerivatives>();
        let radius = self.radius.test::<CurveDerivatives>();
        let surface0 = self.surface0.test::<VectorSurfaceDerivatives>();
        let surface1 = self.surface1.test::<VectorSurfaceDerivatives>();
        let jets = first(edge, first(radius, first(surface0, surface1)));
        let normals = first(count(6, self.normals.len()), jets);
        first(
            count(13, self.circle.len()),
            first(count(4, self.feet.len()), normals),
        )
    }

    pub fn contact_circle(&self) -> ContactCircle
        ensures { result ≡ circle_with self.now.circle.now self.now.feet.now }
    {
        circle_with(self.circle, self.feet)
    }

    pub fn surface(&self) -> RollingBallFilletSurface
        ensures { result ≡ fillet_of self.now.normals.now (self.now.edge.order, self.now.edge.list.now) (self.now.radius.order, self.now.radius.list.now) (self.now.surface0.order, self.now.surface0.list.now) (self.now.surface1.order, self.now.surface1.list.now) }
    {
        fillet_of(
            self.normals,
            self.edge,
            self.radius,
            self.surface0,
            self.surface1,
        )
    }
}

// The first refusal of the tests of the centre's jet, of the order n, and the others'. The centre's order ends at 19.
fn five(
    n: usize,
    center: Result<(), Refusal>,
    contact0: Result<(), Refusal>,
    contact1: Result<(), Refusal>,
    uv0: Result<(), Refusal>,
    uv1: Result<(), Refusal>,
) -> Result<(), Refusal>
    ensures { number_of result ≡ cond (ltb 19 n) 1 (first_of (number_of center) (first_of (number_of contact0) (first_of (number_of contact1) (first_of (number_of uv0) (number_of uv1))))) }
{
    if 19 < n {
        return Err(Refusal::OrderAbove20);
    }
    first(center, first(contact0, first(contact1, first(uv0, uv1))))
}

// The test of the lists lent for the centre, the contacts and their parameters, by their lengths, at the centre's order n.
pub fn lent(
    n: usize,
    center: usize,
    contact0: usize,
    contact1: usize,
    uv0: usize,
    uv1: usize,
) -> Result<(), Refusal>
    ensures { number_of result ≡ contacts_given n center contact0 contact1 uv0 uv1 }
{
    let k = n.saturating_add(1);
    five(
        n,
        VectorCurveDerivatives::test(n, center),
        VectorCurveDerivatives::test(k, contact0),
        VectorCurveDerivatives::test(k, contact1),
        ParameterCurve::test(k, uv0),
        ParameterCurve::test(k, uv1),
    )
}

// The jets of the centre, the contacts and their parameters.
#[derive(Clone, Copy)]
pub struct Ders<'a> {
    pub center: Jet<'a>,
    pub contact0: Jet<'a>,
    pub contact1: Jet<'a>,
    pub uv0: Jet<'a>,
    pub uv1: Jet<'a>,
}

impl<'a> Ders<'a> {
    pub fn test(&self) -> Result<(), Refusal>
        ensures { number_of result ≡ ders_given (self.now.center.order, self.now.center.list.now) (self.now.contact0.order, self.now.contact0.list.now) (self.now.contact1.order, self.now.contact1.list.now) (self.now.uv0.order, self.now.uv0.list.now) (self.now.uv1.order, self.now.uv1.list.now) }
    {
        five(
            self.center.order,
            self.center.test::<VectorCurveDerivatives>(),
            self.contact0.test::<VectorCurveDerivatives>(),
            self.contact1.test::<VectorCurveDerivatives>(),
            self.uv0.test::<ParameterCurve>(),
            self.uv1.test::<ParameterCurve>(),
        )
    }

    pub fn read(&self) -> CenterContactDers
        ensures { result ≡ ders_of (self.now.center.order, self.now.center.list.now) (self.now.contact0.order, self.now.contact0.list.now) (self.now.contact1.order, self.now.contact1.list.now) (self.now.uv0.order, self.now.uv0.list.now) (self.now.uv1.order, self.now.uv1.list.now) }
    {
        CenterContactDers {
            center_ders: self.center.read(),
            contact0_ders: self.contact0.read(),
            contact1_ders: self.contact1.read(),
            uv0_ders: self.uv0.read(),
            uv1_ders: self.uv1.read(),
        }
    }
}

// These, with the axis' and the angle's.
pub fn info(ders: CenterContactDers, axis: Jet, angle: Jet) -> VderInfo
    ensures { result ≡ info_of ders (axis.entry.order, axis.entry.list.now) (angle.entry.order, angle.entry.list.now) }
{
    VderInfo {
        cc_ders: ders,
        axis_ders: axis.read(),
        angle_ders: angle.read(),
    }
}
