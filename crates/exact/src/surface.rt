// Exact jets of surfaces.
ghost use Rattle.std.specs.Prelude.{◌≡◌, List, ℤ, Result, ⊤};
ghost use Rattle.refusals.specs.declared.Refusal.{Refusal};
ghost use Rattle.calculus.specs.Kind.{regular};
ghost use Rattle.calculus.specs.Surface.{derivative_u, derivative_v, sum as sums, difference as differences, product, quotient as quotients};
ghost use Rattle.calculus.specs.Operation.{surface_operation};
ghost use Rattle.exact_formulas.specs.Kinds.{checked};
ghost use Rattle.calculus.specs.JetKind.{differentiated, from_list, into_list};
ghost use Rattle.exact.specs.Answer.{surfaces, on_surfaces, on_surfaces_at};

use crate::SurfaceDerivatives;
use calculus::{Operation, places};
use refusals::Refusal;

// An operation on two jets, at the smaller order.
fn on_two(
    op: Operation,
    a: SurfaceDerivatives,
    b: SurfaceDerivatives,
) -> Result<SurfaceDerivatives, Refusal>
    ensures { result ≡ on_surfaces (surface_operation checked op) a b }
{
    let order = orders::common(a.order, b.order)?;
    let entries = exact_formulas::surface(op, &a.entries, &b.entries, order)?;
    Ok(SurfaceDerivatives { order, entries })
}

impl SurfaceDerivatives {
    // From a list of the entries [i][j], i rising, then j.
    pub fn from_list(order: usize, list: &[i64]) -> Result<SurfaceDerivatives, Refusal>
        ensures { result ≡ from_list surfaces order list.now }
    {
        orders::fits(order, list.len(), calculus::surface_count(order))?;
        Ok(SurfaceDerivatives {
            order,
            entries: places::surface_read(list, order, 0),
        })
    }

    // Into such a list.
    pub fn into_list(self, out: &mut [i64]) -> Result<(), Refusal>
        ensures { ◌≡◌ {A = Result ⊤ Refusal × List ℤ} (result, out.new) (into_list surfaces self out.old) }
    {
        orders::fits(self.order, out.len(), calculus::surface_count(self.order))?;
        places::surface_write(&self.entries, self.order, 0, out);
        Ok(())
    }

    pub fn sum(self, other: SurfaceDerivatives) -> Result<SurfaceDerivatives, Refusal>
        ensures { result ≡ on_surfaces (sums (regular checked)) self other }
    {
        on_two(Operation::Sum, self, other)
    }

    pub fn difference(self, other: SurfaceDerivatives) -> Result<SurfaceDerivatives, Refusal>
        ensures { result ≡ on_surfaces (differences (regular checked)) self other }
    {
        on_two(Operation::Difference, self, other)
    }

    pub fn derivative_u(self) -> Result<SurfaceDerivatives, Refusal>
        ensures { result ≡ differentiated surfaces derivative_u self }
    {
        let order = orders::less(self.order)?;
        Ok(SurfaceDerivatives {
            order,
            entries: places::derivative_u(&self.entries, order, 0),
        })
    }

    pub fn derivative_v(self) -> Result<SurfaceDerivatives, Refusal>
        ensures { result ≡ differentiated surfaces derivative_v self }
    {
        let order = orders::less(self.order)?;
        Ok(SurfaceDerivatives {
            order,
            entries: places::derivative_v(&self.entries, order, 0),
        })
    }

    // One entry of the product: [m][n].
    pub fn combinatorial_derivative(
        self,
        other: SurfaceDerivatives,
        m: usize,
        n: usize,
    ) -> Result<i64, Refusal>
        ensures { result ≡ on_surfaces_at (product checked) self other m n }
    {
        orders::asked(self.order, other.order, orders::total(m, n)?)?;
        exact_formulas::surface_product(&self.entries, &other.entries, m, n)
    }

    // The product, by Leibniz's rule.
    pub fn combinatorial_derivatives(
        self,
        other: SurfaceDerivatives,
    ) -> Result<SurfaceDerivatives, Refusal>
        ensures { result ≡ on_surfaces (product checked) self other }
    {
        on_two(Operation::Product, self, other)
    }

    pub fn quotient(self, other: SurfaceDerivatives) -> Result<SurfaceDerivatives, Refusal>
        ensures { result ≡ on_surfaces (quotients checked) self other }
    {
        on_two(Operation::Quotient, self, other)
    }
}
