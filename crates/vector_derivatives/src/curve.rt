// Jets of curves of vectors.
ghost use Rattle.std.specs.Prelude.{◌≡◌, refl, ℕ, List, Float, Result, ⊤};
ghost use Rattle.refusals.specs.declared.Refusal.{Refusal};
ghost use Rattle.ieee_vectors.specs.declared.Vector3.{Vector3};
ghost use Rattle.ieee_vectors.specs.Vectors.{quotient, multiple, dot, cross};
ghost use Rattle.calculus.specs.Kind.{regular};
ghost use Rattle.calculus.specs.Curve.{derivative, sum as sums, difference as differences, product_by};
ghost use Rattle.calculus.specs.Rational.{rational};
ghost use Rattle.formulas.specs.Real.{real};
ghost use Rattle.vector_formulas.specs.Vector.{vectors, vector_norm};
ghost use Rattle.vector_derivatives.specs.Inner.{by_vector_entries, by_weighted_entries};
ghost use Rattle.vector_derivatives.specs.Answer.{vector_entry_at, by_norm, vector_curves};
ghost use Rattle.derivatives.specs.Answer.{entry_at, curves, by_division};
ghost use Rattle.derivatives.specs.Jets.{copied_into};
ghost use Rattle.calculus.specs.JetKind.{by_formula, differentiated, from_list, into_list, on_two};

use crate::{VectorCurveDerivatives, formula};
use derivatives::jets::Jet;
use derivatives::{CurveDerivatives, jets};
use refusals::Refusal;
use vector_formulas::VectorFormula;
use vectors::Vector3;

impl Jet for VectorCurveDerivatives {
    ghost entries = { ℕ → Vector3 };

    ghost kind = { vector_curves };

    ghost list_law = { λ l. refl };

    fn order(&self) -> usize {
        self.order
    }

    fn is_finite(&self, n: usize) -> bool {
        vector_formulas::finite_vectors(&self.entries, n)
    }

    fn count(n: usize) -> usize {
        3 * (n.min(20) + 1)
    }

    // A list has x, y and z of each order.
    fn try_read(n: usize, list: &[f64]) -> Result<VectorCurveDerivatives, Refusal> {
        orders::fits(n, list.len(), VectorCurveDerivatives::count(n))?;
        Ok(VectorCurveDerivatives {
            order: n,
            entries: vector_formulas::read(list, n),
        })
    }

    fn try_write(&self, out: &mut [f64]) -> Result<(), Refusal>
        ensures { ◌≡◌ {A = Result ⊤ Refusal × List Float} (result, out.new) (copied_into vector_curves self.now out.old) }
    {
        orders::fits(
            self.order,
            out.len(),
            VectorCurveDerivatives::count(self.order),
        )?;
        let k = out.len().min(63);
        out[..k].copy_from_slice(&self.entries[..k]);
        Ok(())
    }

    fn read(n: usize, list: &[f64]) -> VectorCurveDerivatives {
        VectorCurveDerivatives::try_read(n, list).unwrap_or(VectorCurveDerivatives {
            order: 0,
            entries: [0.0; 63],
        })
    }

    fn write(&self, out: &mut [f64])
        ensures { out.new ≡ (copied_into vector_curves self.now out.old).1 }
    {
        let _ = self.try_write(out);
    }
}

// A formula on two jets of vectors, at the smaller order. Curves and surfaces have each their own, since their formulas differ by a sum more.
fn on_two(
    f: VectorFormula,
    a: VectorCurveDerivatives,
    b: VectorCurveDerivatives,
) -> Result<VectorCurveDerivatives, Refusal>
    ensures { result ≡ on_two vector_curves vector_curves (by_vector_entries f) a b }
{
    let n = jets::both(&a, &b)?;
    let z = [0.0f64; 21];
    jets::returned(VectorCurveDerivatives {
        order: n,
        entries: vector_formulas::curve(f, &a.entries, &b.entries, &z, n),
    })
}

// One on a jet of vectors and a jet of floats.
fn on_weighted(
    f: VectorFormula,
    a: VectorCurveDerivatives,
    b: CurveDerivatives,
) -> Result<VectorCurveDerivatives, Refusal>
    ensures { result ≡ on_two vector_curves curves (by_weighted_entries f) a b }
{
    let n = jets::both(&a, &b)?;
    if formula::division_by_zero(f, b.entries[0]) {
        return Err(Refusal::DivisionByZero);
    }
    jets::returned(VectorCurveDerivatives {
        order: n,
        entries: vector_formulas::curve(f, &a.entries, &a.entries, &b.entries, n),
    })
}

impl VectorCurveDerivatives {
    pub fn from_list(order: usize, list: &[f64]) -> Result<VectorCurveDerivatives, Refusal>
        ensures { result ≡ from_list vector_curves order list.now }
    {
        jets::from_list(order, list)
    }

    pub fn into_list(self, out: &mut [f64]) -> Result<(), Refusal>
        ensures { ◌≡◌ {A = Result ⊤ Refusal × List Float} (result, out.new) (into_list vector_curves self out.old) }
    {
        jets::into_list(&self, out)
    }

    pub fn sum(self, other: VectorCurveDerivatives) -> Result<VectorCurveDerivatives, Refusal>
        ensures { result ≡ by_formula vector_curves vector_curves vector_curves (sums vectors) self other }
    {
        on_two(VectorFormula::Sum, self, other)
    }

    pub fn difference(
        self,
        other: VectorCurveDerivatives,
    ) -> Result<VectorCurveDerivatives, Refusal>
        ensures { result ≡ by_formula vector_curves vector_curves vector_curves (differences vectors) self other }
    {
        on_two(VectorFormula::Difference, self, other)
    }

    pub fn derivative(self) -> Result<VectorCurveDerivatives, Refusal>
        ensures { result ≡ differentiated vector_curves derivative self }
    {
        let n = jets::less(&self)?;
        Ok(VectorCurveDerivatives {
            order: n,
            entries: vector_formulas::derivative(&self.entries, n),
        })
    }

    // One entry of the product of the vectors by floats.
    pub fn combinatorial_derivative_scaled(
        self,
        other: CurveDerivatives,
        order: usize,
    ) -> Result<Vector3, Refusal>
        ensures { result ≡ vector_entry_at vector_curves curves (λ p q. product_by vectors multiple p q order) self other order }
    {
        let n = jets::asked(&self, &other, order)?;
        vectors::returned(vector_formulas::scaled(&self.entries, &other.entries, n))
    }

    // One entry of the dot product.
    pub fn combinatorial_derivative_dot(
        self,
        other: VectorCurveDerivatives,
        order: usize,
    ) -> Result<f64, Refusal>
        ensures { result ≡ entry_at vector_curves vector_curves (λ p q. product_by (regular real) dot p q order) self other order }
    {
        let n = jets::asked(&self, &other, order)?;
        vectors::returned(vector_formulas::dot(&self.entries, &other.entries, n))
    }

    // One entry of the cross product.
    pub fn combinatorial_derivative_cross(
        self,
        other: VectorCurveDerivatives,
        order: usize,
    ) -> Result<Vector3, Refusal>
        ensures { result ≡ vector_entry_at vector_curves vector_curves (λ p q. product_by vectors cross p q order) self other order }
    {
        let n = jets::asked(&self, &other, order)?;
        vectors::returned(vector_formulas::cross(&self.entries, &other.entries, n))
    }

    pub fn combinatorial_derivatives_scaled(
        self,
        other: CurveDerivatives,
    ) -> Result<VectorCurveDerivatives, Refusal>
        ensures { result ≡ by_formula vector_curves curves vector_curves (product_by vectors multiple) self other }
    {
        on_weighted(VectorFormula::Scaled, self, other)
    }

    pub fn combinatorial_derivatives_dot(
        self,
        other: VectorCurveDerivatives,
    ) -> Result<CurveDerivatives, Refusal>
        ensures { result ≡ by_formula vector_curves vector_curves curves (product_by (regular real) dot) self other }
    {
        let n = jets::both(&self, &other)?;
        derivatives::returned_curve(vector_formulas::dots(&self.entries, &other.entries, n), n)
    }

    pub fn combinatorial_derivatives_cross(
        self,
        other: VectorCurveDerivatives,
    ) -> Result<VectorCurveDerivatives, Refusal>
        ensures { result ≡ by_formula vector_curves vector_curves vector_curves (product_by vectors cross) self other }
    {
        on_two(VectorFormula::Cross, self, other)
    }

    // The quotient of this curve by the weights.
    pub fn rational_derivatives(
        self,
        weights: CurveDerivatives,
    ) -> Result<VectorCurveDerivatives, Refusal>
        ensures { result ≡ by_division vector_curves curves vector_curves (λ y. y 0) (rational vectors quotient) self weights }
    {
        on_weighted(VectorFormula::Rational, self, weights)
    }

    // The norm.
    pub fn absolute_derivatives(self) -> Result<CurveDerivatives, Refusal>
        ensures { result ≡ by_norm vector_curves curves (λ q. q 0) vector_norm self }
    {
        let n = jets::one(&self)?;
        let r = vector_formulas::norm(&self.entries, n);
        if formula::norm_divides(n, r[0]) {
            return Err(Refusal::DivisionByZero);
        }
        derivatives::returned_curve(r, n)
    }
}
