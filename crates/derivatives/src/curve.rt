// Jets of curves.
ghost use Rattle.std.specs.Prelude.{◌≡◌, refl, ℕ, List, Float, Result, ⊤};
ghost use Rattle.refusals.specs.declared.Refusal.{Refusal};
ghost use Rattle.calculus.specs.Kind.{regular};
ghost use Rattle.calculus.specs.Curve.{derivative, sum as sums, difference as differences, product};
ghost use Rattle.calculus.specs.Rational.{rational};
ghost use Rattle.formulas.specs.Real.{real};
ghost use Rattle.derivatives.specs.Answer.{entry_at, curves, by_division};
ghost use Rattle.calculus.specs.JetKind.{by_formula, differentiated, from_list, into_list, on_two};
ghost use Rattle.derivatives.specs.Inner.{by_curve_entries};
ghost use Rattle.derivatives.specs.Jets.{copied_into};

use crate::jets::Jet;
use crate::{CurveDerivatives, formula, jets};
use calculus::Operation;
use refusals::Refusal;

impl Jet for CurveDerivatives {
    ghost entries = { ℕ → Float };

    ghost kind = { curves };

    ghost list_law = { λ l. refl };

    fn order(&self) -> usize {
        self.order
    }

    fn is_finite(&self, n: usize) -> bool {
        formulas::finite_curve(&self.entries, n)
    }

    fn count(n: usize) -> usize {
        n.min(20) + 1
    }

    // A list has one entry for each order.
    fn try_read(n: usize, list: &[f64]) -> Result<CurveDerivatives, Refusal> {
        orders::fits(n, list.len(), CurveDerivatives::count(n))?;
        let mut entries = [0.0f64; 21];
        let k = list.len().min(21);
        entries[..k].copy_from_slice(&list[..k]);
        Ok(CurveDerivatives { order: n, entries })
    }

    fn try_write(&self, out: &mut [f64]) -> Result<(), Refusal>
        ensures { ◌≡◌ {A = Result ⊤ Refusal × List Float} (result, out.new) (copied_into curves self.now out.old) }
    {
        orders::fits(self.order, out.len(), CurveDerivatives::count(self.order))?;
        let k = out.len().min(21);
        out[..k].copy_from_slice(&self.entries[..k]);
        Ok(())
    }

    fn read(n: usize, list: &[f64]) -> CurveDerivatives {
        CurveDerivatives::try_read(n, list).unwrap_or(CurveDerivatives {
            order: 0,
            entries: [0.0; 21],
        })
    }

    fn write(&self, out: &mut [f64])
        ensures { out.new ≡ (copied_into curves self.now out.old).1 }
    {
        let _ = self.try_write(out);
    }
}

// A formula on two jets, at the smaller order. Numbers and vectors have each their own by document 01; [i] and [i][j], since their formulas differ by a sum more.
fn on_two(
    f: Operation,
    a: CurveDerivatives,
    b: CurveDerivatives,
) -> Result<CurveDerivatives, Refusal>
    ensures { result ≡ on_two curves curves (by_curve_entries f) a b }
{
    let n = jets::both(&a, &b)?;
    if formula::division_by_zero(f, b.entries[0]) {
        return Err(Refusal::DivisionByZero);
    }
    crate::returned_curve(formulas::curve(f, &a.entries, &b.entries, n), n)
}

impl CurveDerivatives {
    pub fn from_list(order: usize, list: &[f64]) -> Result<CurveDerivatives, Refusal>
        ensures { result ≡ from_list curves order list.now }
    {
        jets::from_list(order, list)
    }

    pub fn into_list(self, out: &mut [f64]) -> Result<(), Refusal>
        ensures { ◌≡◌ {A = Result ⊤ Refusal × List Float} (result, out.new) (into_list curves self out.old) }
    {
        jets::into_list(&self, out)
    }

    pub fn sum(self, other: CurveDerivatives) -> Result<CurveDerivatives, Refusal>
        ensures { result ≡ by_formula curves curves curves (sums (regular real)) self other }
    {
        on_two(Operation::Sum, self, other)
    }

    pub fn difference(self, other: CurveDerivatives) -> Result<CurveDerivatives, Refusal>
        ensures { result ≡ by_formula curves curves curves (differences (regular real)) self other }
    {
        on_two(Operation::Difference, self, other)
    }

    pub fn derivative(self) -> Result<CurveDerivatives, Refusal>
        ensures { result ≡ differentiated curves derivative self }
    {
        let n = jets::less(&self)?;
        Ok(CurveDerivatives {
            order: n,
            entries: formulas::derivative(&self.entries, n),
        })
    }

    // One entry of the product.
    pub fn combinatorial_derivative(
        self,
        other: CurveDerivatives,
        order: usize,
    ) -> Result<f64, Refusal>
        ensures { result ≡ entry_at curves curves (λ p q. product real p q order) self other order }
    {
        let n = jets::asked(&self, &other, order)?;
        vectors::returned(formulas::product(&self.entries, &other.entries, n))
    }

    pub fn combinatorial_derivatives(
        self,
        other: CurveDerivatives,
    ) -> Result<CurveDerivatives, Refusal>
        ensures { result ≡ by_formula curves curves curves (product real) self other }
    {
        on_two(Operation::Product, self, other)
    }

    // The quotient of this curve by the weights.
    pub fn rational_derivatives(
        self,
        weights: CurveDerivatives,
    ) -> Result<CurveDerivatives, Refusal>
        ensures { result ≡ by_division curves curves curves (λ y. y 0) (rational (regular real) real.over) self weights }
    {
        on_two(Operation::Quotient, self, weights)
    }
}
