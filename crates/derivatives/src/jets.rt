// What the kinds of jet share: the tests before the work, each answering the order at which it is done, and lists.
ghost use Rattle.std.specs.Prelude.{◌≡◌, List, Float, cond, min, Result, Ok, Err, ⊤};
ghost use Rattle.refusals.specs.declared.Refusal.{Refusal};
ghost use Rattle.refusals.specs.declared.Refusal.TheVariants.{InputNotFinite};
ghost use Rattle.calculus.specs.JetKind.{JetKind, finite_up_to, from_list, into_list, jet_of_list, of_list, returned_jet};
ghost use Rattle.formulas.specs.Numbers.{finite_list};
ghost use Rattle.derivatives.specs.Jets.{one_at, less_at, both_at, asked_at, copied_into};

use refusals::Refusal;

// A kind of jet.
pub trait Jet: Copy {
    // Its entries by their orders.
    ghost entries: { Type 0 };

    ghost kind: { JetKind Float entries Self };

    // A list of it is finite where its floats are.
    ghost list_law: { (l : List Float) → kind.finite_list l ≡ finite_list l };

    fn order(&self) -> usize
        ensures { result ≡ kind.order self.now };

    // An order above 20, for which a jet has no entries, is cut to 20.
    fn is_finite(&self, n: usize) -> bool
        ensures { result ≡ finite_up_to kind self.now (min n 20) };

    // How many floats a list of the order n has; above 20, how many one of the order 20 has.
    fn count(n: usize) -> usize
        ensures { result ≡ kind.count (min n 20) };

    // The jet of a list, and into one, whose floats are not tested: 1 where the order is above 20, and 2 where the count of floats is not that of the
    // order.
    fn try_read(n: usize, list: &[f64]) -> Result<Self, Refusal>
        ensures { result ≡ of_list kind n list.now }
    {
        orders::fits(n, list.len(), Self::count(n))?;
        Ok(Self::read(n, list))
    }

    fn try_write(&self, out: &mut [f64]) -> Result<(), Refusal>
        ensures { ◌≡◌ {A = Result ⊤ Refusal × List Float} (result, out.new) (copied_into kind self.now out.old) }
    {
        let n = self.order();
        orders::fits(n, out.len(), Self::count(n))?;
        self.write(out);
        Ok(())
    }

    // The same with no number to tell: where that would be 1 or 2, the zero jet of order 0, and nothing is written.
    fn read(n: usize, list: &[f64]) -> Self
        ensures { result ≡ jet_of_list kind n list.now };

    fn write(&self, out: &mut [f64])
        ensures { out.new ≡ (copied_into kind self.now out.old).1 };
}

// One jet, at its order: 1 where that is above 20, and 5 where the jet is not finite.
pub fn one<A: Jet>(a: &A) -> Result<usize, Refusal>
    ensures { result ≡ one_at (A.kind.order a.now) (finite_up_to A.kind a.now) }
{
    let n = a.order();
    if 20 < n {
        return Err(Refusal::OrderAbove20);
    }
    if !a.is_finite(n) {
        return Err(Refusal::InputNotFinite);
    }
    Ok(n)
}

// The order of a jet's derivative: 2 where there is none.
pub fn less<A: Jet>(a: &A) -> Result<usize, Refusal>
    ensures { result ≡ less_at (A.kind.order a.now) (finite_up_to A.kind a.now) }
{
    let n = orders::less(a.order())?;
    one(a)?;
    Ok(n)
}

// Two jets, at the smaller order.
pub fn both<A: Jet, B: Jet>(a: &A, b: &B) -> Result<usize, Refusal>
    ensures { result ≡ both_at (A.kind.order a.now) (B.kind.order b.now) (finite_up_to A.kind a.now) (finite_up_to B.kind b.now) }
{
    let n = orders::common(a.order(), b.order())?;
    if !a.is_finite(n) || !b.is_finite(n) {
        return Err(Refusal::InputNotFinite);
    }
    Ok(n)
}

// Two jets, at the order k that is asked: 2 where it exceeds one of theirs.
pub fn asked<A: Jet, B: Jet>(a: &A, b: &B, k: usize) -> Result<usize, Refusal>
    ensures { result ≡ asked_at (A.kind.order a.now) (B.kind.order b.now) k (finite_up_to A.kind a.now) (finite_up_to B.kind b.now) }
{
    orders::asked(a.order(), b.order(), k)?;
    if !a.is_finite(k) || !b.is_finite(k) {
        return Err(Refusal::InputNotFinite);
    }
    Ok(k)
}

// A jet that has been computed: 1 where its order is above 20, and 10 where it is not finite.
pub fn returned<A: Jet>(a: A) -> Result<A, Refusal>
    ensures { result ≡ returned_jet A.kind a }
{
    let n = a.order();
    if 20 < n {
        return Err(Refusal::OrderAbove20);
    }
    if !a.is_finite(n) {
        return Err(Refusal::AnswerNotFinite);
    }
    Ok(a)
}

// 5 where a float of a list is not finite.
pub fn finite_list(list: &[f64]) -> Result<(), Refusal>
    ensures { result ≡ cond (finite_list list.now) (Ok tt) (Err InputNotFinite) }
{
    if !formulas::finite_list(list) {
        return Err(Refusal::InputNotFinite);
    }
    Ok(())
}

// The jet of a list whose floats are not tested: each function on jets tests those that it reads.
pub fn of_list<J: Jet>(order: usize, list: &[f64]) -> Result<J, Refusal>
    ensures { result ≡ of_list J.kind order list.now }
{
    J::try_read(order, list)
}

// The same, and 5 where a float is not finite.
pub fn from_list<J: Jet>(order: usize, list: &[f64]) -> Result<J, Refusal>
    ensures { result ≡ from_list J.kind order list.now }
{
    let a = of_list(order, list)?;
    finite_list(list)?;
    Ok(a)
}

pub fn into_list<J: Jet>(a: &J, out: &mut [f64]) -> Result<(), Refusal>
    ensures { ◌≡◌ {A = Result ⊤ Refusal × List Float} (result, out.new) (into_list J.kind a.now out.old) }
{
    let n = a.order();
    orders::fits(n, out.len(), J::count(n))?;
    one(a)?;
    a.try_write(out)
}
