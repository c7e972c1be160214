// Exact jets as lists, for the functions over lists of crates/given: an impl for each kind of jet, as a trait asks. Of a list that is refused the zero
// jet of order 0 is read; those functions test the lists first.
ghost use Rattle.std.specs.Prelude.{◌≡◌};
ghost use Rattle.refusals.specs.Number.{number_of};
ghost use Rattle.given.specs.Lists.{input, output};
ghost use Rattle.exact.specs.Answer.{curves, surfaces, parameters};

use crate::{CurveDerivatives, ParameterCurve, SurfaceDerivatives};
use given::{Lent, Listed};
use refusals::Refusal;

impl Listed<i64> for CurveDerivatives {
    ghost input = { input curves };

    fn test(order: usize, length: usize) -> Result<(), Refusal> {
        orders::fits(order, length, order.min(20) + 1)
    }

    fn read(order: usize, list: &[i64]) -> CurveDerivatives {
        CurveDerivatives::from_list(order, list).unwrap_or(CurveDerivatives {
            order: 0,
            entries: [0i64; 21],
        })
    }
}

impl Listed<i64> for SurfaceDerivatives {
    ghost input = { input surfaces };

    fn test(order: usize, length: usize) -> Result<(), Refusal> {
        orders::fits(order, length, calculus::surface_count(order))
    }

    fn read(order: usize, list: &[i64]) -> SurfaceDerivatives {
        SurfaceDerivatives::from_list(order, list).unwrap_or(SurfaceDerivatives {
            order: 0,
            entries: [0i64; 231],
        })
    }
}

impl Listed<i64> for ParameterCurve {
    ghost input = { input parameters };

    fn test(order: usize, length: usize) -> Result<(), Refusal> {
        orders::fits(order, length, 2 * (order.min(20) + 1))
    }

    fn read(order: usize, list: &[i64]) -> ParameterCurve {
        ParameterCurve::from_list(order, list).unwrap_or(ParameterCurve {
            order: 0,
            u: [0i64; 21],
            v: [0i64; 21],
        })
    }
}

impl Lent<i64> for CurveDerivatives {
    ghost output = { output curves };

    fn due(order: usize, length: usize) -> Result<(), Refusal> {
        orders::fits(order, length, order.min(20) + 1)
    }

    #[tactic(auto, unfolding(given::specs::Lists::deliver))]
    fn write(answer: Result<CurveDerivatives, Refusal>, out: &mut [i64]) -> Result<(), Refusal>
        ensures number { number_of result ≡ ((output curves).deliver answer out.old).0 }
        ensures list { out.new ≡ ((output curves).deliver answer out.old).1 }
    {
        answer?.into_list(out)
    }
}

impl Lent<i64> for SurfaceDerivatives {
    ghost output = { output surfaces };

    fn due(order: usize, length: usize) -> Result<(), Refusal> {
        orders::fits(order, length, calculus::surface_count(order))
    }

    #[tactic(auto, unfolding(given::specs::Lists::deliver))]
    fn write(answer: Result<SurfaceDerivatives, Refusal>, out: &mut [i64]) -> Result<(), Refusal>
        ensures number { number_of result ≡ ((output surfaces).deliver answer out.old).0 }
        ensures list { out.new ≡ ((output surfaces).deliver answer out.old).1 }
    {
        answer?.into_list(out)
    }
}
