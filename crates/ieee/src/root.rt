// The root of a positive float: its digits as a whole number, by the digit-by-digit recurrence, rounded once.
ghost use Rattle.std.specs.Prelude.{◌≡◌, cond, ◌+◌, ◌*◌, ◌^◌, ◌<◌, ◌≤◌, T, ltb};
ghost use Rattle.std.specs.Float.Ieee.Positive.{positive};
ghost use Rattle.ieee.specs.SquareRoot.{square_root, root_of};

// A whole number's root, rounded down, and what its square leaves.
#[derive(Clone, Copy)]
pub struct WholeRoot {
    pub root: u64,
    pub rest: u64,
}

// The 53 digits of the root of w * 2^42. Each turn takes the next two digits of w and gives one of the root.
pub fn digits(w: u64) -> WholeRoot
    ensures { (result.root * result.root + result.rest ≡ w * 2 ^ 42) × (result.rest ≤ 2 * result.root) × (result.root < 2 ^ 53) }
{
    let mut root = 0u64;
    let mut rest = 0u64;
    let mut left = w;
    for _turn in 0..53u64 {
        rest = rest * 4 + (left >> 62);
        left = left << 2;
        root = root * 2;
        if root * 2 < rest {
            rest = rest - (root * 2 + 1);
            root = root + 1;
        }
    }
    WholeRoot { root, rest }
}

// To the nearest: the root's fraction is above a half where more than the root is left.
pub fn rounded(root: u64, rest: u64) -> u64
    requires { root < 2 ^ 53 }
    ensures { result ≡ cond (ltb root rest) (root + 1) root }
{
    if root < rest { root + 1 } else { root }
}

// The root of m * 2^j of the smallest values, 2^-1074: k digits are dropped of the root in those units, and 53 kept.
pub fn of_units(m: u64, j: u64) -> f64
    requires { (0 < m) × (m < 2 ^ 53) × (j < 2046) }
    ensures { result ≡ root_of (m * 2 ^ j) }
{
    let z = u64::leading_zeros(m) as u64;
    let k = (1033 - z + j) / 2;
    let d = digits(m << (j + 1032 - 2 * k));
    let q = rounded(d.root, d.rest);
    f64::from_bits(k * 4503599627370496 + q)
}

// The float's significand and exponent, from its bits. A subnormal float has no leading digit.
pub fn of_positive(x: f64) -> f64
    requires { T (positive x) }
    ensures { result ≡ square_root x }
{
    let b = f64::to_bits(x);
    let e = b >> 52;
    let t = b % 4503599627370496;
    if e == 0 {
        return of_units(t, 0);
    }
    of_units(4503599627370496 + t, e - 1)
}
