// Jets of surfaces of vectors.
ghost use Rattle.std.specs.Prelude.{◌≡◌, ◌≤◌, refl, ℕ, cond, ltb, List, length, ◌+◌, Float, Result, ⊤};
ghost use Rattle.refusals.specs.declared.Refusal.{Refusal};
ghost use Rattle.ieee_vectors.specs.declared.Vector3.{Vector3};
ghost use Rattle.ieee_vectors.specs.Vectors.{quotient, multiple, dot, cross};
ghost use Rattle.calculus.specs.Kind.{regular};
ghost use Rattle.formulas.specs.Real.{real};
ghost use Rattle.calculus.specs.Surface.{derivative_u, derivative_v, sum as sums, difference as differences, product_by};
ghost use Rattle.calculus.specs.Rational.{surface_rational};
ghost use Rattle.vector_formulas.specs.Vector.{vectors, vector_numbers, vector_surface_array};
ghost use Rattle.calculus.specs.Order.{list_place};
ghost use Rattle.vector_derivatives.specs.Inner.{by_vector_surface_entries, by_surface_weighted_entries};
ghost use Rattle.vector_surface_formulas.specs.Formulas.{vector_surface_norm};
ghost use Rattle.vector_derivatives.specs.Answer.{vector_entry_at, by_norm, vector_surfaces};
ghost use Rattle.derivatives.specs.Answer.{surfaces, entry_at, by_division};
ghost use Rattle.derivatives.specs.Jets.{copied_into};
ghost use Rattle.calculus.specs.JetKind.{by_formula, differentiated, from_list, into_list, on_two};

use crate::{VectorSurfaceDerivatives, formula};
use derivatives::jets::Jet;
use derivatives::{SurfaceDerivatives, jets};
use refusals::Refusal;
use vector_formulas::VectorFormula;
use vectors::Vector3;

impl Jet for VectorSurfaceDerivatives {
    ghost entries = { ℕ → ℕ → Vector3 };

    ghost kind = { vector_surfaces };

    ghost list_law = { λ l. refl };

    fn order(&self) -> usize {
        self.order
    }

    fn is_finite(&self, n: usize) -> bool {
        vector_formulas::finite_surface(&self.entries, n)
    }

    fn count(n: usize) -> usize {
        3 * calculus::surface_count(n.min(20))
    }

    // In a list [i][j] stands by i rising, then j, with x, y and z of each.
    fn try_read(n: usize, list: &[f64]) -> Result<VectorSurfaceDerivatives, Refusal> {
        orders::fits(n, list.len(), VectorSurfaceDerivatives::count(n))?;
        Ok(VectorSurfaceDerivatives {
            order: n,
            entries: array(n.min(20), list),
        })
    }

    fn try_write(&self, out: &mut [f64]) -> Result<(), Refusal>
        ensures { ◌≡◌ {A = Result ⊤ Refusal × List Float} (result, out.new) (copied_into vector_surfaces self.now out.old) }
    {
        orders::fits(
            self.order,
            out.len(),
            VectorSurfaceDerivatives::count(self.order),
        )?;
        written(self, out);
        Ok(())
    }

    fn read(n: usize, list: &[f64]) -> VectorSurfaceDerivatives {
        VectorSurfaceDerivatives::try_read(n, list).unwrap_or(VectorSurfaceDerivatives {
            order: 0,
            entries: [0.0; 693],
        })
    }

    fn write(&self, out: &mut [f64])
        ensures { out.new ≡ (copied_into vector_surfaces self.now out.old).1 }
    {
        let _ = self.try_write(out);
    }
}

// The array of a surface's list.
fn array(n: usize, list: &[f64]) -> [f64; 693]
    requires { n ≤ 20 }
    ensures { result ≡ vector_surface_array (λ i j. vector_numbers list.now (list_place n i j)) n }
{
    let mut entries = [0.0f64; 693];
    let mut l = 0;
    for i in 0..n + 1 {
        for j in 0..n + 1 - i {
            let v = vector_formulas::vector_at(list, l);
            vector_formulas::store(&mut entries, formulas::index(i, j), v);
            l += 1;
        }
    }
    entries
}

// A surface into its list.
fn written(a: &VectorSurfaceDerivatives, out: &mut [f64])
    requires { (a.now.order ≤ 20) × (length out.old ≡ vector_surfaces.count a.now.order) }
    ensures { out.new ≡ vector_surfaces.list (vector_surfaces.numbers a.now) a.now.order }
{
    let n = a.order;
    let mut l = 0;
    for i in 0..n + 1 {
        for j in 0..n + 1 - i {
            vector_formulas::store(out, l, vector_formulas::surface_at(&a.entries, i, j));
            l += 1;
        }
    }
}

// A formula on two jets of vectors, at the smaller order. Curves and surfaces have each their own, since their formulas differ by a sum more.
fn on_two(
    f: VectorFormula,
    a: VectorSurfaceDerivatives,
    b: VectorSurfaceDerivatives,
) -> Result<VectorSurfaceDerivatives, Refusal>
    ensures { result ≡ on_two vector_surfaces vector_surfaces (by_vector_surface_entries f) a b }
{
    let n = jets::both(&a, &b)?;
    let z = [0.0f64; 231];
    jets::returned(VectorSurfaceDerivatives {
        order: n,
        entries: vector_surface_formulas::surface(f, &a.entries, &b.entries, &z, n),
    })
}

// One on a jet of vectors and a jet of floats.
fn on_weighted(
    f: VectorFormula,
    a: VectorSurfaceDerivatives,
    b: SurfaceDerivatives,
) -> Result<VectorSurfaceDerivatives, Refusal>
    ensures { result ≡ on_two vector_surfaces surfaces (by_surface_weighted_entries f) a b }
{
    let n = jets::both(&a, &b)?;
    if formula::division_by_zero(f, b.entries[0]) {
        return Err(Refusal::DivisionByZero);
    }
    jets::returned(VectorSurfaceDerivatives {
        order: n,
        entries: vector_surface_formulas::surface(f, &a.entries, &a.entries, &b.entries, n),
    })
}

impl VectorSurfaceDerivatives {
    pub fn from_list(order: usize, list: &[f64]) -> Result<VectorSurfaceDerivatives, Refusal>
        ensures { result ≡ from_list vector_surfaces order list.now }
    {
        jets::from_list(order, list)
    }

    pub fn into_list(self, out: &mut [f64]) -> Result<(), Refusal>
        ensures { ◌≡◌ {A = Result ⊤ Refusal × List Float} (result, out.new) (into_list vector_surfaces self out.old) }
    {
        jets::into_list(&self, out)
    }

    pub fn derivative_u(self) -> Result<VectorSurfaceDerivatives, Refusal>
        ensures { result ≡ differentiated vector_surfaces derivative_u self }
    {
        let n = jets::less(&self)?;
        Ok(VectorSurfaceDerivatives {
            order: n,
            entries: vector_formulas::derivative_u(&self.entries, n),
        })
    }

    pub fn derivative_v(self) -> Result<VectorSurfaceDerivatives, Refusal>
        ensures { result ≡ differentiated vector_surfaces derivative_v self }
    {
        let n = jets::less(&self)?;
        Ok(VectorSurfaceDerivatives {
            order: n,
            entries: vector_formulas::derivative_v(&self.entries, n),
        })
    }

    pub fn sum(self, other: VectorSurfaceDerivatives) -> Result<VectorSurfaceDerivatives, Refusal>
        ensures { result ≡ by_formula vector_surfaces vector_surfaces vector_surfaces (sums vectors) self other }
    {
        on_two(VectorFormula::Sum, self, other)
    }

    pub fn difference(
        self,
        other: VectorSurfaceDerivatives,
    ) -> Result<VectorSurfaceDerivatives, Refusal>
        ensures { result ≡ by_formula vector_surfaces vector_surfaces vector_surfaces (differences vectors) self other }
    {
        on_two(VectorFormula::Difference, self, other)
    }

    // One entry of the product of the vectors by floats.
    pub fn combinatorial_derivative_scaled(
        self,
        other: SurfaceDerivatives,
        m: usize,
        n: usize,
    ) -> Result<Vector3, Refusal>
        ensures { result ≡ vector_entry_at vector_surfaces surfaces (λ p q. product_by vectors multiple p q m n) self other (m + n) }
    {
        jets::asked(&self, &other, orders::total(m, n)?)?;
        vectors::returned(vector_surface_formulas::scaled(&self.entries, &other.entries, m, n))
    }

    // One entry of the dot product.
    pub fn combinatorial_derivative_dot(
        self,
        other: VectorSurfaceDerivatives,
        m: usize,
        n: usize,
    ) -> Result<f64, Refusal>
        ensures { result ≡ entry_at vector_surfaces vector_surfaces (λ p q. product_by (regular real) dot p q m n) self other (m + n) }
    {
        jets::asked(&self, &other, orders::total(m, n)?)?;
        vectors::returned(vector_surface_formulas::dot(&self.entries, &other.entries, m, n))
    }

    // One entry of the cross product.
    pub fn combinatorial_derivative_cross(
        self,
        other: VectorSurfaceDerivatives,
        m: usize,
        n: usize,
    ) -> Result<Vector3, Refusal>
        ensures { result ≡ vector_entry_at vector_surfaces vector_surfaces (λ p q. product_by vectors cross p q m n) self other (m + n) }
    {
        jets::asked(&self, &other, orders::total(m, n)?)?;
        vectors::returned(vector_surface_formulas::cross(&self.entries, &other.entries, m, n))
    }

    pub fn combinatorial_derivatives_scaled(
        self,
        other: SurfaceDerivatives,
    ) -> Result<VectorSurfaceDerivatives, Refusal>
        ensures { result ≡ by_formula vector_surfaces surfaces vector_surfaces (product_by vectors multiple) self other }
    {
        on_weighted(VectorFormula::Scaled, self, other)
    }

    pub fn combinatorial_derivatives_dot(
        self,
        other: VectorSurfaceDerivatives,
    ) -> Result<SurfaceDerivatives, Refusal>
        ensures { result ≡ by_formula vector_surfaces vector_surfaces surfaces (product_by (regular real) dot) self other }
    {
        let n = jets::both(&self, &other)?;
        derivatives::returned_surface(
            vector_surface_formulas::dots(&self.entries, &other.entries, n),
            n,
        )
    }

    pub fn combinatorial_derivatives_cross(
        self,
        other: VectorSurfaceDerivatives,
    ) -> Result<VectorSurfaceDerivatives, Refusal>
        ensures { result ≡ by_formula vector_surfaces vector_surfaces vector_surfaces (product_by vectors cross) self other }
    {
        on_two(VectorFormula::Cross, self, other)
    }

    // The quotient of this surface by the weights.
    pub fn rational_derivatives(
        self,
        weights: SurfaceDerivatives,
    ) -> Result<VectorSurfaceDerivatives, Refusal>
        ensures { result ≡ by_division vector_surfaces surfaces vector_surfaces (λ y. y 0 0) (surface_rational vectors quotient) self weights }
    {
        on_weighted(VectorFormula::Rational, self, weights)
    }

    // The norm.
    pub fn absolute_derivatives(self) -> Result<SurfaceDerivatives, Refusal>
        ensures { result ≡ by_norm vector_surfaces surfaces (λ q. q 0 0) vector_surface_norm self }
    {
        let n = jets::one(&self)?;
        let r = vector_surface_formulas::norm(&self.entries, n);
        if formula::norm_divides(n, r[0]) {
            return Err(Refusal::DivisionByZero);
        }
        derivatives::returned_surface(r, n)
    }
}
