// Jets of surfaces of vectors along curves in their parameters: Faà di Bruno's formula (document 01's carry).
ghost use Rattle.std.specs.Prelude.{◌≡◌};
ghost use Rattle.vector_derivatives.specs.Composite.{vector_along_curve_at, vector_along_curve};

use crate::{VectorCurveDerivatives, VectorSurfaceDerivatives};
use derivatives::{ParameterCurve, jets};
use float_carry::vectors::Carried;
use refusals::Refusal;
use vectors::Vector3;

impl VectorSurfaceDerivatives {
    // The derivative of one order, which is zero at order 0.
    pub fn composite_derivative(
        self,
        curve: ParameterCurve,
        order: usize,
    ) -> Result<Vector3, Refusal>
        ensures { result ≡ vector_along_curve_at self curve order }
    {
        let n = jets::asked(&self, &curve, order)?;
        let carried = Carried {
            entries: &self.entries,
            u: &curve.u,
            v: &curve.v,
        };
        vectors::returned(carried.derivative(n))
    }

    // The derivatives of all orders up to `order`, with the entry [0][0] at order 0.
    pub fn composite_derivatives(
        self,
        curve: ParameterCurve,
        order: usize,
    ) -> Result<VectorCurveDerivatives, Refusal>
        ensures { result ≡ vector_along_curve self curve order }
    {
        let n = jets::asked(&self, &curve, order)?;
        let carried = Carried {
            entries: &self.entries,
            u: &curve.u,
            v: &curve.v,
        };
        jets::returned(VectorCurveDerivatives {
            order: n,
            entries: carried.derivatives(n),
        })
    }
}
