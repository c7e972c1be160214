// An operation on jets as a function over lists: what is given is tested, the jets of the lists go to the operation, and its answer goes into the list lent.
ghost use Rattle.std.specs.Prelude.{◌≡◌, ◌+◌, ℕ, List, Result};
ghost use Rattle.refusals.specs.Number.{number_of};
ghost use Rattle.refusals.specs.declared.Refusal.{Refusal};
ghost use Rattle.given.specs.Lists.{Input, Output, Refused, alone, one_given, over_one, over_two, over_two_at, two_given, two_given_at};

use crate::{first, order};
use refusals::Refusal;

// What is read off a list of T: a jet of an order, or a single value.
pub trait Listed<T>: Copy {
    ghost input: { Input T Self };

    // The test of a list of so many numbers for an order.
    fn test(order: usize, count: usize) -> Result<(), Refusal>
        ensures { number_of result ≡ input.test order count };

    // What a list holds.
    fn read(order: usize, list: &[T]) -> Self
        ensures { result ≡ input.jet order list.now };
}

// What goes into a list of T.
pub trait Lent<T>: Copy {
    ghost output: { Output T (Result Self Refusal) };

    // The test of the list that is lent for the order of work.
    fn due(order: usize, count: usize) -> Result<(), Refusal>
        ensures { number_of result ≡ output.test order count };

    // An answer goes into the list, or its refusal is handed on.
    fn write(answer: Result<Self, Refusal>, out: &mut [T]) -> Result<(), Refusal>
        ensures number { number_of result ≡ (output.deliver answer out.old).0 }
        ensures list { out.new ≡ (output.deliver answer out.old).1 };
}

// Two jets, at the smaller order.
pub fn over_two<T, A: Listed<T>, B: Listed<T>, C: Lent<T>, F: FnOnce(A, B) -> Result<C, Refusal>>(
    m: usize,
    a: &[T],
    n: usize,
    b: &[T],
    out: &mut [T],
    work: F,
) -> Result<(), Refusal>
    requires { F.IsAlwaysCallable work }
    ensures tested { Refused (two_given A.input B.input C.output m a.now n b.now out.old) out.old (number_of result, out.new) }
    ensures value { (op : A → B → Result C Refusal) → ((x : A) (y : B) (r : Result C Refusal) → F.post work x y r → r ≡ op x y) → ◌≡◌ {A = ℕ × List T} (number_of result, out.new) (over_two A.input B.input C.output op m a.now n b.now out.old) }
{
    let k = calculus::smaller(m, n);
    let rest = first(B::test(n, b.len()), C::due(k, out.len()));
    let tested = first(A::test(m, a.len()), rest);
    tested?;
    C::write(work(A::read(m, a), B::read(n, b)), out)
}

// Two jets, at an order that is asked.
pub fn over_two_at<
    T,
    A: Listed<T>,
    B: Listed<T>,
    C: Lent<T>,
    F: FnOnce(A, B) -> Result<C, Refusal>,
>(k: usize, m: usize, a: &[T], n: usize, b: &[T], out: &mut [T], work: F) -> Result<(), Refusal>
    requires { F.IsAlwaysCallable work }
    ensures tested { Refused (two_given_at A.input B.input C.output k m a.now n b.now out.old) out.old (number_of result, out.new) }
    ensures value { (op : A → B → Result C Refusal) → ((x : A) (y : B) (r : Result C Refusal) → F.post work x y r → r ≡ op x y) → ◌≡◌ {A = ℕ × List T} (number_of result, out.new) (over_two_at A.input B.input C.output k op m a.now n b.now out.old) }
{
    let last = first(order(k), C::due(k, out.len()));
    let rest = first(B::test(n, b.len()), last);
    let tested = first(A::test(m, a.len()), rest);
    tested?;
    C::write(work(A::read(m, a), B::read(n, b)), out)
}

// The same at the orders i by u and j by v: an entry, for which any order lends the same list.
pub fn over_two_at_both<
    T,
    A: Listed<T>,
    B: Listed<T>,
    C: Lent<T>,
    F: FnOnce(A, B) -> Result<C, Refusal>,
>(
    i: usize,
    j: usize,
    m: usize,
    a: &[T],
    n: usize,
    b: &[T],
    out: &mut [T],
    work: F,
) -> Result<(), Refusal>
    requires { F.IsAlwaysCallable work }
    ensures tested { Refused (two_given_at A.input B.input C.output (i + j) m a.now n b.now out.old) out.old (number_of result, out.new) }
    ensures value { (op : A → B → Result C Refusal) → ((x : A) (y : B) (r : Result C Refusal) → F.post work x y r → r ≡ op x y) → ◌≡◌ {A = ℕ × List T} (number_of result, out.new) (over_two_at A.input B.input C.output (i + j) op m a.now n b.now out.old) }
{
    over_two_at(i.saturating_add(j), m, a, n, b, out, work)
}

// One jet, to an answer of the order k.
pub fn over_one<T, A: Listed<T>, C: Lent<T>, F: FnOnce(A) -> Result<C, Refusal>>(
    k: usize,
    n: usize,
    a: &[T],
    out: &mut [T],
    work: F,
) -> Result<(), Refusal>
    requires { F.IsAlwaysCallable work }
    ensures tested { Refused (one_given A.input C.output k n a.now out.old) out.old (number_of result, out.new) }
    ensures value { (op : A → Result C Refusal) → ((x : A) (r : Result C Refusal) → F.post work x r → r ≡ op x) → ◌≡◌ {A = ℕ × List T} (number_of result, out.new) (over_one A.input C.output k op n a.now out.old) }
{
    let tested = first(A::test(n, a.len()), C::due(k, out.len()));
    tested?;
    C::write(work(A::read(n, a)), out)
}

// An answer that nothing read off a list goes into: the list lent is tested first.
pub fn alone<T, C: Lent<T>>(answer: Result<C, Refusal>, out: &mut [T]) -> Result<(), Refusal>
    ensures { ◌≡◌ {A = ℕ × List T} (number_of result, out.new) (alone C.output answer out.old) }
{
    let tested = C::due(0, out.len());
    tested?;
    C::write(answer, out)
}
