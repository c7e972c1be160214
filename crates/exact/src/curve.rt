// Exact jets of curves.
ghost use Rattle.std.specs.Prelude.{◌≡◌, List, ℤ, Result, ⊤};
ghost use Rattle.refusals.specs.declared.Refusal.{Refusal};
ghost use Rattle.calculus.specs.Kind.{regular};
ghost use Rattle.calculus.specs.Curve.{derivative, sum as sums, difference as differences, product, quotient as quotients};
ghost use Rattle.calculus.specs.Operation.{curve_operation};
ghost use Rattle.exact_formulas.specs.Kinds.{checked};
ghost use Rattle.calculus.specs.JetKind.{differentiated, from_list, into_list};
ghost use Rattle.exact.specs.Answer.{curves, on_curves, on_curves_at};

use crate::CurveDerivatives;
use calculus::Operation;
use refusals::Refusal;

// An operation on two jets, at the smaller order. Surfaces have their own, as their formulas do: [i] and [i][j] differ by more than a size.
fn on_two(
    op: Operation,
    a: CurveDerivatives,
    b: CurveDerivatives,
) -> Result<CurveDerivatives, Refusal>
    ensures { result ≡ on_curves (curve_operation checked op) a b }
{
    let order = orders::common(a.order, b.order)?;
    let entries = exact_formulas::curve(op, &a.entries, &b.entries, order)?;
    Ok(CurveDerivatives { order, entries })
}

impl CurveDerivatives {
    // From a list with an entry for each order.
    pub fn from_list(order: usize, list: &[i64]) -> Result<CurveDerivatives, Refusal>
        ensures { result ≡ from_list curves order list.now }
    {
        orders::fits(order, list.len(), order.min(20) + 1)?;
        let mut entries = [0i64; 21];
        entries[..order + 1].copy_from_slice(list);
        Ok(CurveDerivatives { order, entries })
    }

    // Into such a list.
    pub fn into_list(self, out: &mut [i64]) -> Result<(), Refusal>
        ensures { ◌≡◌ {A = Result ⊤ Refusal × List ℤ} (result, out.new) (into_list curves self out.old) }
    {
        let n = self.order;
        orders::fits(n, out.len(), n.min(20) + 1)?;
        out.copy_from_slice(&self.entries[..n + 1]);
        Ok(())
    }

    pub fn sum(self, other: CurveDerivatives) -> Result<CurveDerivatives, Refusal>
        ensures { result ≡ on_curves (sums (regular checked)) self other }
    {
        on_two(Operation::Sum, self, other)
    }

    pub fn difference(self, other: CurveDerivatives) -> Result<CurveDerivatives, Refusal>
        ensures { result ≡ on_curves (differences (regular checked)) self other }
    {
        on_two(Operation::Difference, self, other)
    }

    pub fn derivative(self) -> Result<CurveDerivatives, Refusal>
        ensures { result ≡ differentiated curves derivative self }
    {
        let n = orders::less(self.order)?;
        let mut entries = [0i64; 21];
        entries[..n + 1].copy_from_slice(&self.entries[1..n + 2]);
        Ok(CurveDerivatives { order: n, entries })
    }

    // One entry of the product.
    pub fn combinatorial_derivative(
        self,
        other: CurveDerivatives,
        order: usize,
    ) -> Result<i64, Refusal>
        ensures { result ≡ on_curves_at (product checked) self other order }
    {
        let n = orders::asked(self.order, other.order, order)?;
        exact_formulas::curve_product(&self.entries, &other.entries, n)
    }

    // The product, by Leibniz's rule.
    pub fn combinatorial_derivatives(
        self,
        other: CurveDerivatives,
    ) -> Result<CurveDerivatives, Refusal>
        ensures { result ≡ on_curves (product checked) self other }
    {
        on_two(Operation::Product, self, other)
    }

    pub fn quotient(self, other: CurveDerivatives) -> Result<CurveDerivatives, Refusal>
        ensures { result ≡ on_curves (quotients checked) self other }
    {
        on_two(Operation::Quotient, self, other)
    }
}
