// Signed 64-bit arithmetic that answers or refuses, in every case: a division by zero, a quotient that leaves a remainder, and a number formed
// outside -2^63 to 2^63 - 1 are refused. -2^63 is a number like any other.
#![tactic(auto, using(crate::proofs::Range::or_refused))]

ghost use Rattle.std.specs.Prelude.{◌≡◌, ◌+ℤ◌, ◌-ℤ◌, ◌*ℤ◌, nat_abs};
ghost use Rattle.whole.specs.Checked.{formed, divided, Both};

use refusals::Refusal;

pub fn add(a: i64, b: i64) -> Result<i64, Refusal>
    ensures { result ≡ formed (a +ℤ b) }
{
    a.checked_add(b).ok_or(Refusal::OutOfRange)
}

pub fn sub(a: i64, b: i64) -> Result<i64, Refusal>
    ensures { result ≡ formed (a -ℤ b) }
{
    a.checked_sub(b).ok_or(Refusal::OutOfRange)
}

pub fn mul(a: i64, b: i64) -> Result<i64, Refusal>
    ensures { result ≡ formed (a *ℤ b) }
{
    a.checked_mul(b).ok_or(Refusal::OutOfRange)
}

// The machine cannot divide -2^63 by -1, so -1 goes by a difference.
pub fn div(a: i64, b: i64) -> Result<i64, Refusal>
    ensures { result ≡ divided a b }
{
    if b == 0 {
        return Err(Refusal::DivisionByZero);
    }
    if b == -1 {
        return sub(0, a);
    }
    if a % b == 0 {
        Ok(a / b)
    } else {
        Err(Refusal::Remainder)
    }
}

// For callers that print or compare: the magnitude of -2^63 is no signed number.
pub fn magnitude(a: i64) -> u64
    ensures { result ≡ nat_abs a }
{
    a.unsigned_abs()
}

// On numbers that may be refused already, whatever their refusals are: the first refusal is handed on.
pub fn plus<E: From<Refusal> + Drop>(x: Result<i64, E>, y: Result<i64, E>) -> Result<i64, E>
    ensures { Both E.from_gives (λ a b. formed (a +ℤ b)) x y result }
{
    let a = x?;
    let b = y?;
    Ok(add(a, b)?)
}

pub fn minus<E: From<Refusal> + Drop>(x: Result<i64, E>, y: Result<i64, E>) -> Result<i64, E>
    ensures { Both E.from_gives (λ a b. formed (a -ℤ b)) x y result }
{
    let a = x?;
    let b = y?;
    Ok(sub(a, b)?)
}

pub fn times<E: From<Refusal> + Drop>(x: Result<i64, E>, y: Result<i64, E>) -> Result<i64, E>
    ensures { Both E.from_gives (λ a b. formed (a *ℤ b)) x y result }
{
    let a = x?;
    let b = y?;
    Ok(mul(a, b)?)
}

pub fn over<E: From<Refusal> + Drop>(x: Result<i64, E>, y: Result<i64, E>) -> Result<i64, E>
    ensures { Both E.from_gives divided x y result }
{
    let a = x?;
    let b = y?;
    Ok(div(a, b)?)
}
