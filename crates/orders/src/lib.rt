// The orders that a call is given, numbers of any size: 1 where one is above 20, and 2 where one that is asked exceeds a jet's.
#![tactic(auto)]

ghost use Rattle.std.specs.Prelude.{◌≡◌, cond, ◌||◌, ◌+◌, ◌-◌, min, ltb, eqb, Ok, Err};
ghost use Rattle.refusals.specs.declared.Refusal.TheVariants.{OrderAbove20, Shape};
ghost use Rattle.calculus.specs.JetKind.{above20};

use refusals::Refusal;

// The order at which two jets meet, the smaller.
pub fn common(m: usize, n: usize) -> Result<usize, Refusal>
    ensures { result ≡ cond (above20 m n) (Err OrderAbove20) (Ok (min m n)) }
{
    if 20 < m || 20 < n {
        return Err(Refusal::OrderAbove20);
    }
    Ok(m.min(n))
}

// The order k that is asked of two jets.
pub fn asked(m: usize, n: usize, k: usize) -> Result<usize, Refusal>
    ensures { result ≡ cond (above20 m n || ltb 20 k) (Err OrderAbove20) (cond (ltb (min m n) k) (Err Shape) (Ok k)) }
{
    if 20 < m || 20 < n || 20 < k {
        return Err(Refusal::OrderAbove20);
    }
    if m.min(n) < k {
        return Err(Refusal::Shape);
    }
    Ok(k)
}

// The total order of the entry [m][n], whose sum may exceed what a number holds.
pub fn total(m: usize, n: usize) -> Result<usize, Refusal>
    ensures { result ≡ cond (ltb 20 (m + n)) (Err OrderAbove20) (Ok (m + n)) }
{
    if 20 < m || 20 < n || 20 < m + n {
        return Err(Refusal::OrderAbove20);
    }
    Ok(m + n)
}

// The order of a derivative: a jet of order 0 has none.
pub fn less(n: usize) -> Result<usize, Refusal>
    ensures { result ≡ cond (ltb 20 n) (Err OrderAbove20) (cond (eqb n 0) (Err Shape) (Ok (n - 1))) }
{
    if 20 < n {
        return Err(Refusal::OrderAbove20);
    }
    if n == 0 {
        return Err(Refusal::Shape);
    }
    Ok(n - 1)
}

// A list of so many numbers as a jet of the order n, to which so many are due.
pub fn fits(n: usize, length: usize, due: usize) -> Result<(), Refusal>
    ensures { result ≡ cond (ltb 20 n) (Err OrderAbove20) (cond (eqb length due) (Ok tt) (Err Shape)) }
{
    if 20 < n {
        return Err(Refusal::OrderAbove20);
    }
    if length != due {
        return Err(Refusal::Shape);
    }
    Ok(())
}
