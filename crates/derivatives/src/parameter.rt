// Jets of curves in the parameters of a surface.
ghost use Rattle.std.specs.Prelude.{◌≡◌, refl, ℕ, List, Float, Result, ⊤};
ghost use Rattle.refusals.specs.declared.Refusal.{Refusal};
ghost use Rattle.calculus.specs.JetKind.{from_list, into_list};
ghost use Rattle.derivatives.specs.Answer.{parameters};
ghost use Rattle.derivatives.specs.Jets.{copied_into};

use crate::jets::Jet;
use crate::{ParameterCurve, jets};
use calculus::places;
use refusals::Refusal;

impl Jet for ParameterCurve {
    ghost entries = { (ℕ → Float) × (ℕ → Float) };

    ghost kind = { parameters };

    ghost list_law = { λ l. refl };

    fn order(&self) -> usize {
        self.order
    }

    fn is_finite(&self, n: usize) -> bool {
        formulas::finite_curve(&self.u, n) && formulas::finite_curve(&self.v, n)
    }

    fn count(n: usize) -> usize {
        2 * (n.min(20) + 1)
    }

    // In a list u and v stand side by side.
    fn try_read(n: usize, list: &[f64]) -> Result<ParameterCurve, Refusal> {
        orders::fits(n, list.len(), ParameterCurve::count(n))?;
        let (u, v) = places::pairs_read(list, n, 0.0);
        Ok(ParameterCurve { order: n, u, v })
    }

    fn try_write(&self, out: &mut [f64]) -> Result<(), Refusal>
        ensures { ◌≡◌ {A = Result ⊤ Refusal × List Float} (result, out.new) (copied_into parameters self.now out.old) }
    {
        orders::fits(self.order, out.len(), ParameterCurve::count(self.order))?;
        places::pairs_write(&self.u, &self.v, self.order, 0.0, out);
        Ok(())
    }

    fn read(n: usize, list: &[f64]) -> ParameterCurve {
        ParameterCurve::try_read(n, list).unwrap_or(ParameterCurve {
            order: 0,
            u: [0.0; 21],
            v: [0.0; 21],
        })
    }

    fn write(&self, out: &mut [f64])
        ensures { out.new ≡ (copied_into parameters self.now out.old).1 }
    {
        let _ = self.try_write(out);
    }
}

impl ParameterCurve {
    pub fn from_list(order: usize, list: &[f64]) -> Result<ParameterCurve, Refusal>
        ensures { result ≡ from_list parameters order list.now }
    {
        jets::from_list(order, list)
    }

    pub fn into_list(self, out: &mut [f64]) -> Result<(), Refusal>
        ensures { ◌≡◌ {A = Result ⊤ Refusal × List Float} (result, out.new) (into_list parameters self out.old) }
    {
        jets::into_list(&self, out)
    }
}
