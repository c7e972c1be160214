// What a case gives: vectors, contact circles, and the jets and normals of a fillet.
use derivatives::CurveDerivatives;
use derivatives::jets::of_list;
use ieee_vectors::{Vector2, Vector3};
use replay_text::{Lists, next};
use rolling_ball_fillet::{ContactCircle, ContactPoint, RollingBallFilletSurface};
use std::io::Read;
use vector_derivatives::{VectorCurveDerivatives, VectorSurfaceDerivatives};

pub fn next_vector(input: &mut impl Read) -> Vector3 {
    Vector3 {
        x: next(input),
        y: next(input),
        z: next(input),
    }
}

fn next_contact(input: &mut impl Read) -> ContactPoint {
    ContactPoint {
        point: next_vector(input),
        uv: Vector2 {
            x: next(input),
            y: next(input),
        },
    }
}

pub fn next_circle(input: &mut impl Read) -> ContactCircle {
    ContactCircle {
        center: next_vector(input),
        axis: next_vector(input),
        angle: next(input),
        contact_point0: next_contact(input),
        contact_point1: next_contact(input),
    }
}

const NO_CURVE: CurveDerivatives = CurveDerivatives {
    order: 0,
    entries: [0.0; 21],
};

pub const NO_VECTOR_CURVE: VectorCurveDerivatives = VectorCurveDerivatives {
    order: 0,
    entries: [0.0; 63],
};

const NO_VECTOR_SURFACE: VectorSurfaceDerivatives = VectorSurfaceDerivatives {
    order: 0,
    entries: [0.0; 693],
};

// Both normals, the jets' order, and the lists of edge, radius and both surfaces. Their floats are not tested here, and for a list that does not fit
// the zero jet of order 0 stands: what a case may want of these is the fillet's own refusal.
pub fn next_fillet(input: &mut impl Read) -> RollingBallFilletSurface {
    let normal0 = next_vector(input);
    let normal1 = next_vector(input);
    let order = next(input);
    let mut jets = Lists::<f64, 2048>::NONE;
    jets.read(input);
    RollingBallFilletSurface {
        edge_curve: of_list(order, jets.list(0)).unwrap_or(NO_VECTOR_CURVE),
        surface0: of_list(order, jets.list(2)).unwrap_or(NO_VECTOR_SURFACE),
        surface1: of_list(order, jets.list(3)).unwrap_or(NO_VECTOR_SURFACE),
        radius: of_list(order, jets.list(1)).unwrap_or(NO_CURVE),
        normal0,
        normal1,
    }
}
