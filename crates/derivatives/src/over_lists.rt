// Jets of floats as lists, for the functions over lists of crates/given.
ghost use Rattle.std.specs.Prelude.{◌≡◌};
ghost use Rattle.refusals.specs.Number.{number_of};
ghost use Rattle.given.specs.Lists.{input, output};
ghost use Rattle.derivatives.specs.Answer.{curves, surfaces, parameters};

use crate::jets::Jet;
use crate::{CurveDerivatives, ParameterCurve, SurfaceDerivatives, jets};
use given::{Lent, Listed};
use refusals::Refusal;

impl Listed<f64> for CurveDerivatives {
    ghost input = { input curves };

    fn test(order: usize, length: usize) -> Result<(), Refusal> {
        orders::fits(order, length, CurveDerivatives::count(order))
    }

    fn read(order: usize, list: &[f64]) -> CurveDerivatives {
        jets::of_list(order, list).unwrap_or(CurveDerivatives {
            order: 0,
            entries: [0.0; 21],
        })
    }
}

impl Listed<f64> for SurfaceDerivatives {
    ghost input = { input surfaces };

    fn test(order: usize, length: usize) -> Result<(), Refusal> {
        orders::fits(order, length, SurfaceDerivatives::count(order))
    }

    fn read(order: usize, list: &[f64]) -> SurfaceDerivatives {
        jets::of_list(order, list).unwrap_or(SurfaceDerivatives {
            order: 0,
            entries: [0.0; 231],
        })
    }
}

impl Listed<f64> for ParameterCurve {
    ghost input = { input parameters };

    fn test(order: usize, length: usize) -> Result<(), Refusal> {
        orders::fits(order, length, ParameterCurve::count(order))
    }

    fn read(order: usize, list: &[f64]) -> ParameterCurve {
        jets::of_list(order, list).unwrap_or(ParameterCurve {
            order: 0,
            u: [0.0; 21],
            v: [0.0; 21],
        })
    }
}

impl Lent<f64> for CurveDerivatives {
    ghost output = { output curves };

    fn due(order: usize, length: usize) -> Result<(), Refusal> {
        orders::fits(order, length, CurveDerivatives::count(order))
    }

    #[tactic(auto, unfolding(given::specs::Lists::deliver))]
    fn write(answer: Result<CurveDerivatives, Refusal>, out: &mut [f64]) -> Result<(), Refusal>
        ensures number { number_of result ≡ ((output curves).deliver answer out.old).0 }
        ensures list { out.new ≡ ((output curves).deliver answer out.old).1 }
    {
        answer?.into_list(out)
    }
}

impl Lent<f64> for SurfaceDerivatives {
    ghost output = { output surfaces };

    fn due(order: usize, length: usize) -> Result<(), Refusal> {
        orders::fits(order, length, SurfaceDerivatives::count(order))
    }

    #[tactic(auto, unfolding(given::specs::Lists::deliver))]
    fn write(answer: Result<SurfaceDerivatives, Refusal>, out: &mut [f64]) -> Result<(), Refusal>
        ensures number { number_of result ≡ ((output surfaces).deliver answer out.old).0 }
        ensures list { out.new ≡ ((output surfaces).deliver answer out.old).1 }
    {
        answer?.into_list(out)
    }
}
