// Calls of the C interface, as cases give them and want them to end.
use crate::{Word, next, next_list, same};
use std::io::Read;

// A number that lists lent for an answer have.
pub trait Fill: Word {
    // In each place before the call, and still there after a refusal.
    const FILL: Self;

    // Room for the members of a call's lists, those given and those lent.
    const MOST: usize = 2048;
}

impl Fill for u64 {
    const FILL: u64 = 1234;

    const MOST: usize = 64;
}

impl Fill for usize {
    const FILL: usize = 1234;

    const MOST: usize = 64;
}

impl Fill for i64 {
    const FILL: i64 = 1234;
}

impl Fill for f64 {
    const FILL: f64 = 1234.5;
}

// A number whose zero is a constant, so that places that none is read into are one too.
pub trait Zero: Word {
    // What the word 0 holds.
    const ZERO: Self;
}

impl Zero for u64 {
    const ZERO: u64 = 0;
}

impl Zero for usize {
    const ZERO: usize = 0;
}

impl Zero for i64 {
    const ZERO: i64 = 0;
}

impl Zero for f64 {
    const ZERO: f64 = 0.0;
}

impl Zero for bool {
    const ZERO: bool = false;
}

// Up to 11 lists after each other, in N places: the list at i stands from ends[i] to ends[i + 1].
#[derive(Drop)]
pub struct Lists<T, const N: usize> {
    members: [T; N],
    ends: [usize; 12],
}

impl<T: Zero, const N: usize> Lists<T, N> {
    // None yet, to be read into: a record that is handed on when it is read is copied on its way, and these are large.
    pub const NONE: Self = Lists {
        members: [T::ZERO; N],
        ends: [0; 12],
    };
}

impl<T: Word, const N: usize> Lists<T, N> {
    // How many lists there are, and these. (`NONE.read` copies none of it.)
    pub fn next(input: &mut impl Read) -> Self {
        let mut lists = Lists {
            members: [T::of_word(0); N],
            ends: [0; 12],
        };
        lists.read(input);
        lists
    }

    // Reads how many lists there are, and these, where none is read yet. A twelfth is read after them, and is none of them.
    pub fn read(&mut self, input: &mut impl Read) {
        self.read_within(input, N);
    }

    // The same, in the first `most` of the places.
    fn read_within(&mut self, input: &mut impl Read, most: usize) {
        let places = &mut self.members[..most.min(N)];
        let mut at = 0usize;
        let n: usize = next(input);
        for end in self.ends[1..=n.min(11)].iter_mut() {
            at += next_list(input, &mut places[at..]);
            *end = at;
        }
        if 11 < n {
            next_list(input, &mut places[at..]);
        }
    }

    // The list at i; where there is none, the empty list.
    pub fn list(&self, i: usize) -> &[T] {
        if i < 11 {
            let from = self.ends[i];
            let to = self.ends[i + 1];
            return self.members.get(from..to).unwrap_or(&self.members[..0]);
        }
        &self.members[..0]
    }

    // The member at k of the list at i; 0 where there is none.
    pub fn member(&self, i: usize, k: usize) -> T {
        self.list(i).get(k).copied().unwrap_or(T::of_word(0))
    }

    // The member at k of all that was read, one list after the other; 0 where there is none.
    pub fn member_of_all(&self, k: usize) -> T {
        self.members.get(k).copied().unwrap_or(T::of_word(0))
    }
}

// Met where no operation has the number of a call.
const UNKNOWN: u8 = 255;

// How a call is to end.
#[derive(Clone, Copy)]
enum Wanted {
    // With an answer, whatever the lists lent then hold.
    Answered,
    // With this number, and the lists lent as the case has them.
    Number(u64),
}

impl From<u64> for Wanted {
    fn from(w: u64) -> Wanted {
        match w {
            256 => Wanted::Answered,
            _ => Wanted::Number(w),
        }
    }
}

// A call as a case gives it: how it is to end, lists of sizes (the orders come first in them), the lists given, and what the lists lent for the answer
// hold at the end.
#[derive(Drop)]
pub struct Call<T> {
    wanted: Wanted,
    sizes: Lists<usize, 64>,
    given: Lists<T, 2048>,
    held: Lists<T, 1024>,
}

impl<T: Fill + Zero> Call<T> {
    // None yet, to be read into.
    pub const NONE: Self = Call {
        wanted: Wanted::Answered,
        sizes: Lists::NONE,
        given: Lists::NONE,
        held: Lists::NONE,
    };
}

impl<T: Fill> Call<T> {
    // The next call of the input, with room for 2,048 members of the lists given and 1,024 of those lent. (`NONE.read` copies none of it.)
    pub fn next(input: &mut impl Read) -> Self {
        let w: u64 = next(input);
        Call {
            wanted: Wanted::from(w),
            sizes: Lists::next(input),
            given: Lists::next(input),
            held: Lists::next(input),
        }
    }

    // Reads the next call of the input, where none is read yet.
    pub fn read(&mut self, input: &mut impl Read) -> &Self {
        let w: u64 = next(input);
        self.wanted = Wanted::from(w);
        self.sizes.read(input);
        self.given.read_within(input, T::MOST);
        self.held.read_within(input, T::MOST);
        self
    }

    // Whichever list of sizes it stands in.
    pub fn order(&self, k: usize) -> usize {
        self.sizes.member_of_all(k)
    }

    pub fn sizes(&self, i: usize) -> &[usize] {
        self.sizes.list(i)
    }

    pub fn size_at(&self, i: usize, k: usize) -> usize {
        self.sizes.member(i, k)
    }

    pub fn given(&self, i: usize) -> &[T] {
        self.given.list(i)
    }

    pub fn given_at(&self, i: usize, k: usize) -> T {
        self.given.member(i, k)
    }

    // A number given, whichever list it stands in.
    pub fn operand(&self, k: usize) -> T {
        self.given.member_of_all(k)
    }

    // What a list lent for the answer is to hold.
    pub fn held(&self, i: usize) -> &[T] {
        self.held.list(i)
    }

    // The places of a list lent for an answer that is to hold what the list at i does: as many as that has, and none where there are not so many.
    pub fn lent<'a>(&self, i: usize, places: &'a mut [T]) -> &'a mut [T] {
        let n = self.held.list(i).len();
        if places.len() < n {
            return &mut places[..0];
        }
        &mut places[..n]
    }

    // Whether these places hold what they are to.
    pub fn holds(&self, i: usize, places: &[T]) -> bool {
        let held = self.held.list(i);
        let n = places.len().min(held.len());
        same(&places[..n], held)
    }

    // Whether the call ended as it was to: with this number, `None` where no operation is called so, and with the lists lent as they are to be, or not.
    pub fn met(&self, number: Option<u8>, held: bool) -> bool {
        let n = number.unwrap_or(UNKNOWN);
        match self.wanted {
            Wanted::Answered => n == 0,
            Wanted::Number(w) => u64::from(n) == w && held,
        }
    }

    // Whether a call that is lent one list ended as it was to.
    pub fn answered<F: Fn(&Self, &mut [T]) -> Option<u8>>(&self, call: F) -> bool
        requires { F.IsAlwaysCallable call }
    {
        let mut out = [T::FILL; 1024];
        let number = call(self, self.lent(0, &mut out));
        self.met(number, self.holds(0, &out))
    }
}
