// The derivatives of a recipe of surfaces along a curve in their parameters, by two ways (document 01's roads). That they meet is proved in
// proofs/Theorem.antt.
ghost use Rattle.std.specs.Prelude.{◌≡◌, map, ◌≤◌, length, take};
ghost use Rattle.std.specs.Result.{result_map_both};
ghost use Rattle.exact.specs.Composite.{along_curve};
ghost use Rattle.roads.specs.Roads.{every_answer, build_then_carry, carry_then_build};

use crate::Recipe;
use exact::{CurveDerivatives, ParameterCurve, SurfaceDerivatives};
use refusals::Refusal;

// The surfaces given along the curve, used or not, by rising number.
fn carry_each(
    given: &[SurfaceDerivatives],
    curve: ParameterCurve,
    order: usize,
) -> Result<[CurveDerivatives; 4], Refusal>
    requires { length given.now ≤ 4 }
    ensures { result_map_both (take (length given.now)) (λ c. c) result ≡ every_answer (map (λ s. along_curve s curve order) given.now) }
{
    let blank = CurveDerivatives {
        order: 0,
        entries: [0; 21],
    };
    let mut curves = [blank; 4];
    for (i, surface) in given.iter().enumerate() {
        curves[i] = surface.composite_derivatives(curve, order)?;
    }
    Ok(curves)
}

impl Recipe<SurfaceDerivatives> {
    // The first road: build the surface, then carry it along the curve.
    pub fn build_then_carry(
        self,
        curve: ParameterCurve,
        order: usize,
    ) -> Result<CurveDerivatives, Refusal>
        ensures { result ≡ build_then_carry self curve order }
    {
        self.build()?.composite_derivatives(curve, order)
    }

    // The second road: carry every surface given along the curve, used or not, then build with the curves.
    pub fn carry_then_build(
        self,
        curve: ParameterCurve,
        order: usize,
    ) -> Result<CurveDerivatives, Refusal>
        ensures { result ≡ carry_then_build self curve order }
    {
        let count = self.inputs.min(4);
        let jets = carry_each(&self.jets[..count], curve, order)?;
        let program = self.program;
        let recipe = Recipe {
            inputs: self.inputs,
            jets,
            steps: self.steps,
            program,
        };
        recipe.build()
    }
}
