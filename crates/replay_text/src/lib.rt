// What the test programs read, compare and write. The input is words of 16 hexadecimal digits, each with a byte that parts it from the one after it;
// a list is its count, then its members. What a case wants stands in it after what it gives: a function `.._met` reads it, and says whether it is what
// was met, bit by bit. It reads all of it, met or not, so that the next case begins in its place: that is why `&` joins these, and not `&&`.
#![tactic(auto)]

ghost use Rattle.std.specs.Prelude.{◌≤◌, length};

mod calls;
mod groups;

pub use calls::{Call, Fill, Lists, Zero};
pub use groups::replay;
use std::io::Read;

// A number that stands in a word.
pub trait Word: Copy {
    fn of_word(w: u64) -> Self;

    fn word(self) -> u64;
}

impl Word for u64 {
    fn of_word(w: u64) -> u64 {
        w
    }

    fn word(self) -> u64 {
        self
    }
}

impl Word for usize {
    fn of_word(w: u64) -> usize {
        w as usize
    }

    fn word(self) -> u64 {
        self as u64
    }
}

// A negative number stands as 2^64 more.
impl Word for i64 {
    fn of_word(w: u64) -> i64 {
        w.cast_signed()
    }

    fn word(self) -> u64 {
        self.cast_unsigned()
    }
}

impl Word for f64 {
    fn of_word(w: u64) -> f64 {
        ieee::from_bits(w)
    }

    fn word(self) -> u64 {
        ieee::to_bits(self)
    }
}

impl Word for bool {
    fn of_word(w: u64) -> bool {
        w != 0
    }

    fn word(self) -> u64 {
        u64::from(self)
    }
}

// Fills `out` with the next bytes of the input, as far as there are any, and says how many: what cannot be read is no more there than what is past the end.
// A `while`, since a read says only after it how far it came; `read_exact` does not say how much there was.
pub fn fill(input: &mut impl Read, out: &mut [u8]) -> usize
    ensures { result ≤ length out.old }
{
    let mut at = 0;
    while at < out.len()
        && let Ok(n @ 1..) = input.read(&mut out[at..])
    {
        at += n;
    }
    at
}

// The value of a hexadecimal digit; 0 of any other byte, a capital letter too.
fn digit(byte: u8) -> u8 {
    match byte {
        b'0'..=b'9' => byte - b'0',
        b'a'..=b'f' => byte - b'a' + 10,
        _ => 0,
    }
}

// The number whose digits the first 16 bytes of a word are. A word that the input's end cuts off keeps its digits in their places.
fn number(word: &[u8; 17]) -> u64 {
    let mut n = 0u64;
    for byte in &word[..16] {
        n = (n << 4) | u64::from(digit(*byte));
    }
    n
}

// The number in the next word of the input; that of the word 0 where there is none.
pub fn next<T: Word>(input: &mut impl Read) -> T {
    let mut word = [0u8; 17];
    fill(input, &mut word);
    T::of_word(number(&word))
}

// A list of the input into the first places of the one lent, as far as it has places: how many are read.
pub fn next_list<T: Word>(input: &mut impl Read, l: &mut [T]) -> usize
    ensures { result ≤ length l.old }
{
    let n = l.len().min(next(input));
    for x in l[..n].iter_mut() {
        *x = next(input);
    }
    n
}

// A list of the input, with zeros past its members.
pub fn next_array<T: Word, const N: usize>(input: &mut impl Read) -> [T; N] {
    let mut l = [T::of_word(0); N];
    next_list(input, &mut l);
    l
}

// How many there are, and these, as far as there are places for them; `blank` in the places after them.
pub fn next_places<I: Read, T: Copy, F: Fn(&mut I) -> T, const N: usize>(
    input: &mut I,
    blank: T,
    next_one: F,
) -> [T; N]
    requires { F.IsAlwaysCallable next_one }
{
    let mut all = [blank; N];
    let n = N.min(next(input));
    for x in all[..n].iter_mut() {
        *x = next_one(input);
    }
    all
}

// Whether two lists hold the same numbers, bit by bit.
pub fn same<T: Word>(a: &[T], b: &[T]) -> bool {
    a.len() == b.len() && a.iter().zip(b).all(|(x, y)| x.word() == y.word())
}

// Whether the next number of the input is x.
pub fn met<T: Word>(input: &mut impl Read, x: T) -> bool {
    let wanted: u64 = next(input);
    wanted == x.word()
}

// Whether the next list of the input, of 256 members at most, begins with l, with zeros past the members there.
pub fn list_met<T: Word>(input: &mut impl Read, l: &[T]) -> bool {
    let n = 256usize.min(next(input));
    let (members, rest) = l.split_at(l.len().min(n));
    let mut same = true;
    for x in members {
        let wanted: T = next(input);
        same &= wanted.word() == x.word();
    }
    for _ in members.len()..n {
        let _past: u64 = next(input);
    }
    same & rest.iter().all(|x| x.word() == 0)
}

// An answer as a case wants it: 0 and what is answered, or the refusal's number and what then stands in its place.
pub fn numbered<T: Drop, E: Into<u8>>(answer: Result<T, E>, refused: T) -> (u8, T) {
    match answer {
        Ok(x) => (0, x),
        Err(refusal) => (refusal.into(), refused),
    }
}

// Whether the next number of the input is that of a refusal, or 0 of none.
pub fn refusal_met(input: &mut impl Read, number: u8) -> bool {
    met(input, u64::from(number))
}

// Whether the next answer of the input is a number, or its refusal beside 0.
pub fn number_met<T: Word, E: Into<u8>>(input: &mut impl Read, answer: Result<T, E>) -> bool {
    let (number, x) = numbered(answer, T::of_word(0));
    refusal_met(input, number) & met(input, x)
}
