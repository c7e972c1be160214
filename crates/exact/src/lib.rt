// Jets of exact numbers: the derivatives of a curve or of a surface, each a signed 64-bit whole number. A function answers in full, or
// refuses by document 01's table. Anybody may write the fields: every function tests the orders.
#![tactic(auto)]

mod composite;
mod curve;
mod lists;
mod parameter;
mod surface;

// The derivatives of a curve, of the orders 0 to `order`, with zeros past it.
#[derive(Clone, Copy)]
pub struct CurveDerivatives {
    pub order: usize,
    pub entries: [i64; 21],
}

// The derivatives of a surface: [i][j], i times by u and j times by v, stands at (i + j)(i + j + 1)/2 + i, for i + j up to `order`.
#[derive(Clone, Copy)]
pub struct SurfaceDerivatives {
    pub order: usize,
    pub entries: [i64; 231],
}

// The derivatives of a curve (u, v) in the parameters of a surface.
#[derive(Clone, Copy)]
pub struct ParameterCurve {
    pub order: usize,
    pub u: [i64; 21],
    pub v: [i64; 21],
}
