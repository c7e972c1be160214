// Jets of vectors: the derivatives of a curve or of a surface in space, each rounded as the source rounds it. A function answers in full, or refuses.
// Anybody may write the fields: every function tests the orders, and that what it reads is finite.
#![tactic(auto)]

mod composite;
mod curve;
mod formula;
mod over_lists;
mod surface;

// The derivatives of a curve of vectors: x, y and z of each order, side by side.
#[derive(Clone, Copy)]
pub struct VectorCurveDerivatives {
    pub order: usize,
    pub entries: [f64; 63],
}

// The derivatives of a surface of vectors, in the order of a surface's: x, y and z of each, side by side.
#[derive(Clone, Copy)]
pub struct VectorSurfaceDerivatives {
    pub order: usize,
    pub entries: [f64; 693],
}
