// Jets of floats: the derivatives of a curve or of a surface, each rounded as the source rounds it. A function answers in full, or refuses.
// Anybody may write the fields: every function tests the orders, and that what it reads is finite.
#![tactic(auto)]

ghost use Rattle.std.specs.Prelude.{◌≡◌};
ghost use Rattle.calculus.specs.JetKind.{returned_jet};
ghost use Rattle.derivatives.specs.Answer.{curves, surfaces};

use refusals::Refusal;

mod composite;
mod curve;
mod formula;
pub mod jets;
mod over_lists;
mod parameter;
mod surface;

// The derivatives of a curve, of the orders 0 to `order`.
#[derive(Clone, Copy)]
pub struct CurveDerivatives {
    pub order: usize,
    pub entries: [f64; 21],
}

// The derivatives of a surface: [i][j], i times by u and j times by v, stands at (i + j)(i + j + 1)/2 + i, for i + j up to `order`.
#[derive(Clone, Copy)]
pub struct SurfaceDerivatives {
    pub order: usize,
    pub entries: [f64; 231],
}

// The derivatives of a curve (u, v) in the parameters of a surface.
#[derive(Clone, Copy)]
pub struct ParameterCurve {
    pub order: usize,
    pub u: [f64; 21],
    pub v: [f64; 21],
}

// A jet that has been computed: 1 where its order is above 20, and 10 where it is not finite.
pub fn returned_curve(entries: [f64; 21], order: usize) -> Result<CurveDerivatives, Refusal>
    ensures { result ≡ returned_jet curves (record { order = order; entries = entries }) }
{
    jets::returned(CurveDerivatives { order, entries })
}

pub fn returned_surface(entries: [f64; 231], order: usize) -> Result<SurfaceDerivatives, Refusal>
    ensures { result ≡ returned_jet surfaces (record { order = order; entries = entries }) }
{
    jets::returned(SurfaceDerivatives { order, entries })
}
