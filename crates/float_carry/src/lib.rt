// The derivatives of a surface along a curve in its parameters, on arrays of floats and of vectors: Faà di Bruno's formula (document 01's carry), each
// operation rounded as the source rounds it. There are no refusals here: NaN and infinities pass through. An array has room for 20 orders, and an order
// above is cut to 20. Floats and vectors have separate functions, as in document 01.
#![tactic(auto)]

ghost use Rattle.std.specs.Prelude.{◌≡◌, true, ◌≤◌, length};
ghost use Rattle.calculus.specs.Carry.{factors as Factors, coordinates};
ghost use Rattle.partitions.specs.Parts.{total, multiplicity as counts};
ghost use Rattle.partitions.specs.Count.{is_list};
ghost use Rattle.formulas.specs.Real.{real};
ghost use Rattle.formulas.specs.Numbers.{curve_numbers};

pub mod floats;
pub mod vectors;

// A part list of an order up to 20, which so has no more parts.
#[derive(Clone, Copy)]
struct Parts<'a> {
    list: &'a [usize],
    ghost falling: { is_list list.now ≡ true },
    ghost small: { total list.now ≤ 20 },
    ghost short: { length list.now ≤ 20 },
}

impl<'a> Parts<'a> {
    // How often the list counts: of a part list that is never refused.
    fn multiplicity(&self) -> f64
        ensures { result ≡ real.of_nat (counts self.now.list.now) }
    {
        partitions::multiplicity(self.list).unwrap_or(0) as f64
    }

    // From one, for each part in turn: the derivative of the part's order of u where the part's bit is 0, and of v where it is 1.
    fn factors(&self, u: &[f64; 21], v: &[f64; 21], mask: u32) -> f64
        ensures { result ≡ Factors real 2 (coordinates (curve_numbers u.now) (curve_numbers v.now)) real.one self.now.list.now mask }
    {
        let mut product = 1.0f64;
        let mut rest = mask;
        for a in self.list {
            let x = if rest % 2 == 0 { u[*a] } else { v[*a] };
            product = product * x;
            rest = rest / 2;
        }
        product
    }
}
