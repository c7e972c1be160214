// Jets of vectors as lists, for the functions over lists of crates/given.
ghost use Rattle.std.specs.Prelude.{◌≡◌};
ghost use Rattle.refusals.specs.Number.{number_of};
ghost use Rattle.given.specs.Lists.{input, output};
ghost use Rattle.vector_derivatives.specs.Answer.{vector_curves, vector_surfaces};

use crate::{VectorCurveDerivatives, VectorSurfaceDerivatives};
use derivatives::jets;
use derivatives::jets::Jet;
use given::{Lent, Listed};
use refusals::Refusal;

impl Listed<f64> for VectorCurveDerivatives {
    ghost input = { input vector_curves };

    fn test(order: usize, length: usize) -> Result<(), Refusal> {
        orders::fits(order, length, VectorCurveDerivatives::count(order))
    }

    fn read(order: usize, list: &[f64]) -> VectorCurveDerivatives {
        jets::of_list(order, list).unwrap_or(VectorCurveDerivatives {
            order: 0,
            entries: [0.0; 63],
        })
    }
}

impl Lent<f64> for VectorCurveDerivatives {
    ghost output = { output vector_curves };

    fn due(order: usize, length: usize) -> Result<(), Refusal> {
        orders::fits(order, length, VectorCurveDerivatives::count(order))
    }

    #[tactic(auto, unfolding(given::specs::Lists::deliver))]
    fn write(
        answer: Result<VectorCurveDerivatives, Refusal>,
        out: &mut [f64],
    ) -> Result<(), Refusal>
        ensures number { number_of result ≡ ((output vector_curves).deliver answer out.old).0 }
        ensures list { out.new ≡ ((output vector_curves).deliver answer out.old).1 }
    {
        answer?.into_list(out)
    }
}

impl Listed<f64> for VectorSurfaceDerivatives {
    ghost input = { input vector_surfaces };

    fn test(order: usize, length: usize) -> Result<(), Refusal> {
        orders::fits(order, length, VectorSurfaceDerivatives::count(order))
    }

    fn read(order: usize, list: &[f64]) -> VectorSurfaceDerivatives {
        jets::of_list(order, list).unwrap_or(VectorSurfaceDerivatives {
            order: 0,
            entries: [0.0; 693],
        })
    }
}

impl Lent<f64> for VectorSurfaceDerivatives {
    ghost output = { output vector_surfaces };

    fn due(order: usize, length: usize) -> Result<(), Refusal> {
        orders::fits(order, length, VectorSurfaceDerivatives::count(order))
    }

    #[tactic(auto, unfolding(given::specs::Lists::deliver))]
    fn write(
        answer: Result<VectorSurfaceDerivatives, Refusal>,
        out: &mut [f64],
    ) -> Result<(), Refusal>
        ensures number { number_of result ≡ ((output vector_surfaces).deliver answer out.old).0 }
        ensures list { out.new ≡ ((output vector_surfaces).deliver answer out.old).1 }
    {
        answer?.into_list(out)
    }
}
