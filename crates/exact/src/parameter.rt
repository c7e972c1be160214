// Curves in the parameters of a surface, from and into lists.
ghost use Rattle.std.specs.Prelude.{◌≡◌, List, ℤ, Result, ⊤};
ghost use Rattle.refusals.specs.declared.Refusal.{Refusal};
ghost use Rattle.calculus.specs.JetKind.{from_list, into_list};
ghost use Rattle.exact.specs.Answer.{parameters};

use crate::ParameterCurve;
use calculus::places;
use refusals::Refusal;

impl ParameterCurve {
    // From a list of u0 v0 u1 v1 ..
    pub fn from_list(order: usize, list: &[i64]) -> Result<ParameterCurve, Refusal>
        ensures { result ≡ from_list parameters order list.now }
    {
        orders::fits(order, list.len(), 2 * (order.min(20) + 1))?;
        let (u, v) = places::pairs_read(list, order, 0);
        Ok(ParameterCurve { order, u, v })
    }

    // Into such a list.
    pub fn into_list(self, out: &mut [i64]) -> Result<(), Refusal>
        ensures { ◌≡◌ {A = Result ⊤ Refusal × List ℤ} (result, out.new) (into_list parameters self out.old) }
    {
        orders::fits(self.order, out.len(), 2 * (self.order.min(20) + 1))?;
        places::pairs_write(&self.u, &self.v, self.order, 0, out);
        Ok(())
    }
}
