// The derivatives of a surface along a curve in its parameters, on arrays of signed 64-bit whole numbers: Faà di Bruno's formula (document 01's carry). A
// number that leaves their range is refused. Any bits will do: an array has room for 20 orders, and an order above is cut to 20.
#![tactic(auto)]

ghost use Rattle.std.specs.Prelude.{◌≡◌, true, ◌≤◌, ◌<◌, min, length, Ok};
ghost use Rattle.calculus.specs.Kind.{regular};
ghost use Rattle.calculus.specs.Carry.{factors as Factors, tensor as Tensor, summand as Summand, coordinates, surface_entry, composite_derivative, composite_derivatives};
ghost use Rattle.partitions.specs.Parts.{total, lists, multiplicity as counts};
ghost use Rattle.partitions.specs.Count.{is_list};
ghost use Rattle.calculus.specs.InTurn.{along_list};
ghost use Rattle.exact_formulas.specs.Kinds.{checked};
ghost use Rattle.exact_formulas.specs.Entries.{curve_values, surface_values, formed_curve};

use partitions::CompositionIter;
use refusals::Refusal;

// A part list of an order up to 20, which so has no more parts.
#[derive(Clone, Copy)]
struct Parts<'a> {
    list: &'a [usize],
    ghost falling: { is_list list.now ≡ true },
    ghost small: { total list.now ≤ 20 },
    ghost short: { length list.now ≤ 20 },
}

impl<'a> Parts<'a> {
    // How often the list counts: of a part list that is never refused.
    fn multiplicity(&self) -> i64
        ensures { Ok result ≡ checked.of_nat (counts self.now.list.now) }
    {
        partitions::multiplicity(self.list).unwrap_or(0) as i64
    }

    // From one, for each part in turn: the derivative of the part's order of u where the part's bit is 0, and of v where it is 1.
    fn factors(&self, u: &[i64; 21], v: &[i64; 21], mask: u32) -> Result<i64, Refusal>
        ensures { result ≡ Factors checked 2 (coordinates (curve_values u.now) (curve_values v.now)) checked.one self.now.list.now mask }
    {
        let mut product = 1;
        let mut rest = mask;
        for a in self.list {
            let x = if rest % 2 == 0 { u[*a] } else { v[*a] };
            product = whole::mul(product, x)?;
            rest = rest / 2;
        }
        Ok(product)
    }
}

// A surface's entries, and those of the curve (u, v) in its parameters.
#[derive(Clone, Copy)]
pub struct Carried<'a> {
    pub entries: &'a [i64; 231],
    pub u: &'a [i64; 21],
    pub v: &'a [i64; 21],
}

impl<'a> Carried<'a> {
    // Over all masks in turn, the sum of the surface's entry that the count of the mask's ones names, times the mask's factors.
    fn tensor(&self, parts: &Parts) -> Result<i64, Refusal>
        ensures { result ≡ Tensor (regular checked) 2 (coordinates (curve_values self.now.u.now) (curve_values self.now.v.now)) (surface_entry (surface_values self.now.entries.now)) parts.now.list.now }
    {
        let len = parts.list.len();
        let last = len * (len + 1) / 2 + len;
        let mut sum = 0;
        for mask in 0..1u32 << len {
            let e = self.entries[last - u32::count_ones(mask) as usize];
            let term = whole::mul(e, parts.factors(self.u, self.v, mask)?)?;
            sum = whole::add(sum, term)?;
        }
        Ok(sum)
    }

    // The tensor of a list times how often the list counts.
    fn summand(&self, parts: &Parts) -> Result<i64, Refusal>
        ensures { result ≡ Summand (regular checked) 2 (coordinates (curve_values self.now.u.now) (curve_values self.now.v.now)) (surface_entry (surface_values self.now.entries.now)) parts.now.list.now }
    {
        let sum = self.tensor(parts)?;
        let coefficient = parts.multiplicity();
        whole::mul(sum, coefficient)
    }

    // The running total, from `start`, over the lists of `len` parts.
    fn along_lists(&self, order: usize, len: usize, start: i64) -> Result<i64, Refusal>
        requires { (0 < len) × (len ≤ order) × (order ≤ 20) }
        ensures { result ≡ along_list checked.plus (Ok start) (Summand (regular checked) 2 (coordinates (curve_values self.now.u.now) (curve_values self.now.v.now)) (surface_entry (surface_values self.now.entries.now))) (lists order len) }
    {
        let mut walk = CompositionIter::try_new(order, len)?;
        let mut sum = start;
        while let Ok(Some(parts)) = walk.next() {
            let parts = Parts {
                list: &parts[..len],
            };
            let term = self.summand(&parts)?;
            sum = whole::add(sum, term)?;
        }
        Ok(sum)
    }

    // One order, which is zero at order 0: one running total over the lists of each len in turn.
    pub fn derivative(&self, order: usize) -> Result<i64, Refusal>
        ensures { result ≡ composite_derivative (regular checked) (curve_values self.now.u.now) (curve_values self.now.v.now) (surface_values self.now.entries.now) (min order 20) }
    {
        let n = order.min(20);
        let mut total = 0;
        for len in 1..n + 1 {
            total = self.along_lists(n, len, total)?;
        }
        Ok(total)
    }

    // The same, with the surface's [0][0] at order 0.
    fn entry(&self, m: usize) -> Result<i64, Refusal>
        requires { m ≤ 20 }
        ensures { result ≡ composite_derivatives (regular checked) (curve_values self.now.u.now) (curve_values self.now.v.now) (surface_values self.now.entries.now) m }
    {
        if m == 0 {
            Ok(self.entries[0])
        } else {
            self.derivative(m)
        }
    }

    // All orders up to `order`, one by one; the first refusal ends it.
    pub fn derivatives(&self, order: usize) -> Result<[i64; 21], Refusal>
        ensures { result ≡ formed_curve (composite_derivatives (regular checked) (curve_values self.now.u.now) (curve_values self.now.v.now) (surface_values self.now.entries.now)) (min order 20) }
    {
        let n = order.min(20);
        let mut r = [0i64; 21];
        for m in 0..n + 1 {
            r[m] = self.entry(m)?;
        }
        Ok(r)
    }
}
