// Exact jets of surfaces along curves in their parameters: Faà di Bruno's formula (document 01's carry).
ghost use Rattle.std.specs.Prelude.{◌≡◌};
ghost use Rattle.exact.specs.Composite.{along_curve_at, along_curve};

use crate::{CurveDerivatives, ParameterCurve, SurfaceDerivatives};
use exact_carry::Carried;
use refusals::Refusal;

impl SurfaceDerivatives {
    // The derivative of one order, which is zero at order 0.
    pub fn composite_derivative(self, curve: ParameterCurve, order: usize) -> Result<i64, Refusal>
        ensures { result ≡ along_curve_at self curve order }
    {
        orders::asked(self.order, curve.order, order)?;
        let carried = Carried {
            entries: &self.entries,
            u: &curve.u,
            v: &curve.v,
        };
        carried.derivative(order)
    }

    // The derivatives of all orders up to `order`, with the entry [0][0] at order 0.
    pub fn composite_derivatives(
        self,
        curve: ParameterCurve,
        order: usize,
    ) -> Result<CurveDerivatives, Refusal>
        ensures { result ≡ along_curve self curve order }
    {
        orders::asked(self.order, curve.order, order)?;
        let carried = Carried {
            entries: &self.entries,
            u: &curve.u,
            v: &curve.v,
        };
        let entries = carried.derivatives(order)?;
        Ok(CurveDerivatives { order, entries })
    }
}
