// Floats of 64 bits, on any bits: whether one is finite, bit patterns, and the square root of IEEE 754, worked with whole numbers.
// `vectors::square_root` is the root that refuses.
#![tactic(auto)]

ghost use Rattle.std.specs.Prelude.{◌≡◌};
ghost use Rattle.std.specs.Float.{binary64};
ghost use Rattle.std.specs.Float.Ieee.{of_bits, to_bits};
ghost use Rattle.std.specs.Float.Ieee.Scale.{finite};
ghost use Rattle.ieee.specs.SquareRoot.{square_root};

use std::num::{f64_from_bits_with_nan, f64_to_bits_with_nan};

mod root;

// Neither a NaN nor an infinity.
#[tactic(auto, using(crate::proofs::Finite::same_test))]
pub fn is_finite(x: f64) -> bool
    ensures { result ≡ finite x }
{
    x.is_finite()
}

// The float of a bit pattern, of any NaN's too.
pub fn from_bits(b: u64) -> f64
    ensures { result ≡ of_bits binary64 b }
{
    f64_from_bits_with_nan(b)
}

// The bit pattern of a float: 7FF8000000000000 for a NaN.
pub fn to_bits(x: f64) -> u64
    ensures { result ≡ to_bits binary64 x }
{
    f64_to_bits_with_nan(x)
}

// The root rounded to nearest, ties to even; NaN of a negative number.
pub fn unchecked_sqrt(x: f64) -> f64
    ensures { result ≡ square_root x }
{
    if 0.0 < x {
        if is_finite(x) {
            return root::of_positive(x);
        }
        return x;
    }
    if x == 0.0 {
        return x;
    }
    0.0 / 0.0
}
