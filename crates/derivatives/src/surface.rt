// Jets of surfaces.
ghost use Rattle.std.specs.Prelude.{◌≡◌, refl, ℕ, List, ◌+◌, Float, Result, ⊤};
ghost use Rattle.refusals.specs.declared.Refusal.{Refusal};
ghost use Rattle.calculus.specs.Kind.{regular};
ghost use Rattle.calculus.specs.Surface.{derivative_u, derivative_v, sum as sums, difference as differences, product};
ghost use Rattle.calculus.specs.Rational.{surface_rational};
ghost use Rattle.formulas.specs.Real.{real};
ghost use Rattle.derivatives.specs.Answer.{surfaces, entry_at, by_division};
ghost use Rattle.derivatives.specs.Inner.{by_surface_entries};
ghost use Rattle.derivatives.specs.Jets.{copied_into};
ghost use Rattle.calculus.specs.JetKind.{by_formula, differentiated, from_list, into_list, on_two};

use crate::jets::Jet;
use crate::{SurfaceDerivatives, formula, jets};
use calculus::{Operation, places};
use refusals::Refusal;

impl Jet for SurfaceDerivatives {
    ghost entries = { ℕ → ℕ → Float };

    ghost kind = { surfaces };

    ghost list_law = { λ l. refl };

    fn order(&self) -> usize {
        self.order
    }

    fn is_finite(&self, n: usize) -> bool {
        formulas::finite_surface(&self.entries, n)
    }

    fn count(n: usize) -> usize {
        calculus::surface_count(n.min(20))
    }

    // In a list [i][j] stands by i rising, then j.
    fn try_read(n: usize, list: &[f64]) -> Result<SurfaceDerivatives, Refusal> {
        orders::fits(n, list.len(), SurfaceDerivatives::count(n))?;
        Ok(SurfaceDerivatives {
            order: n,
            entries: places::surface_read(list, n, 0.0),
        })
    }

    fn try_write(&self, out: &mut [f64]) -> Result<(), Refusal>
        ensures { ◌≡◌ {A = Result ⊤ Refusal × List Float} (result, out.new) (copied_into surfaces self.now out.old) }
    {
        orders::fits(self.order, out.len(), SurfaceDerivatives::count(self.order))?;
        places::surface_write(&self.entries, self.order, 0.0, out);
        Ok(())
    }

    fn read(n: usize, list: &[f64]) -> SurfaceDerivatives {
        SurfaceDerivatives::try_read(n, list).unwrap_or(SurfaceDerivatives {
            order: 0,
            entries: [0.0; 231],
        })
    }

    fn write(&self, out: &mut [f64])
        ensures { out.new ≡ (copied_into surfaces self.now out.old).1 }
    {
        let _ = self.try_write(out);
    }
}

// A formula on two jets, at the smaller order. Numbers and vectors have each their own by document 01; [i] and [i][j], since their formulas differ by a sum more.
fn on_two(
    f: Operation,
    a: SurfaceDerivatives,
    b: SurfaceDerivatives,
) -> Result<SurfaceDerivatives, Refusal>
    ensures { result ≡ on_two surfaces surfaces (by_surface_entries f) a b }
{
    let n = jets::both(&a, &b)?;
    if formula::division_by_zero(f, b.entries[0]) {
        return Err(Refusal::DivisionByZero);
    }
    crate::returned_surface(formulas::surface(f, &a.entries, &b.entries, n), n)
}

impl SurfaceDerivatives {
    pub fn from_list(order: usize, list: &[f64]) -> Result<SurfaceDerivatives, Refusal>
        ensures { result ≡ from_list surfaces order list.now }
    {
        jets::from_list(order, list)
    }

    pub fn into_list(self, out: &mut [f64]) -> Result<(), Refusal>
        ensures { ◌≡◌ {A = Result ⊤ Refusal × List Float} (result, out.new) (into_list surfaces self out.old) }
    {
        jets::into_list(&self, out)
    }

    pub fn sum(self, other: SurfaceDerivatives) -> Result<SurfaceDerivatives, Refusal>
        ensures { result ≡ by_formula surfaces surfaces surfaces (sums (regular real)) self other }
    {
        on_two(Operation::Sum, self, other)
    }

    pub fn difference(self, other: SurfaceDerivatives) -> Result<SurfaceDerivatives, Refusal>
        ensures { result ≡ by_formula surfaces surfaces surfaces (differences (regular real)) self other }
    {
        on_two(Operation::Difference, self, other)
    }

    pub fn derivative_u(self) -> Result<SurfaceDerivatives, Refusal>
        ensures { result ≡ differentiated surfaces derivative_u self }
    {
        let n = jets::less(&self)?;
        Ok(SurfaceDerivatives {
            order: n,
            entries: formulas::derivative_u(&self.entries, n),
        })
    }

    pub fn derivative_v(self) -> Result<SurfaceDerivatives, Refusal>
        ensures { result ≡ differentiated surfaces derivative_v self }
    {
        let n = jets::less(&self)?;
        Ok(SurfaceDerivatives {
            order: n,
            entries: formulas::derivative_v(&self.entries, n),
        })
    }

    // One entry of the product: [m][n].
    pub fn combinatorial_derivative(
        self,
        other: SurfaceDerivatives,
        m: usize,
        n: usize,
    ) -> Result<f64, Refusal>
        ensures { result ≡ entry_at surfaces surfaces (λ p q. product real p q m n) self other (m + n) }
    {
        jets::asked(&self, &other, orders::total(m, n)?)?;
        vectors::returned(formulas::surface_product(&self.entries, &other.entries, m, n))
    }

    pub fn combinatorial_derivatives(
        self,
        other: SurfaceDerivatives,
    ) -> Result<SurfaceDerivatives, Refusal>
        ensures { result ≡ by_formula surfaces surfaces surfaces (product real) self other }
    {
        on_two(Operation::Product, self, other)
    }

    // The quotient of this surface by the weights.
    pub fn rational_derivatives(
        self,
        weights: SurfaceDerivatives,
    ) -> Result<SurfaceDerivatives, Refusal>
        ensures { result ≡ by_division surfaces surfaces surfaces (λ y. y 0 0) (surface_rational (regular real) real.over) self weights }
    {
        on_two(Operation::Quotient, self, weights)
    }
}
