// The carry of floats.
ghost use Rattle.std.specs.Prelude.{◌≡◌, ◌≤◌, ◌<◌, min};
ghost use Rattle.calculus.specs.Kind.{regular};
ghost use Rattle.calculus.specs.Carry.{tensor as Tensor, summand as Summand, coordinates, surface_entry, composite_derivative, composite_derivatives};
ghost use Rattle.calculus.specs.InTurn.{along_list};
ghost use Rattle.calculus.specs.Array.{curve_array};
ghost use Rattle.partitions.specs.Parts.{lists};
ghost use Rattle.ieee_vectors.specs.Vectors.{positive_zero};
ghost use Rattle.formulas.specs.Real.{real};
ghost use Rattle.formulas.specs.Numbers.{curve_numbers, surface_numbers};

use crate::Parts;
use partitions::CompositionIter;

// A surface's entries, and those of the curve (u, v) in its parameters.
#[derive(Clone, Copy)]
pub struct Carried<'a> {
    pub entries: &'a [f64; 231],
    pub u: &'a [f64; 21],
    pub v: &'a [f64; 21],
}

impl<'a> Carried<'a> {
    // The sum over all masks of the entry of the surface that the mask's ones count names, times the factors of the mask.
    #[tactic(auto, using(formulas::proofs::Sums::turn_none))]
    fn tensor(&self, parts: &Parts) -> f64
        ensures { result ≡ Tensor (regular real) 2 (coordinates (curve_numbers self.now.u.now) (curve_numbers self.now.v.now)) (surface_entry (surface_numbers self.now.entries.now)) parts.now.list.now }
    {
        let len = parts.list.len();
        let last = len * (len + 1) / 2 + len;
        let mut sum = 0.0f64;
        for mask in 0..1u32 << len {
            let e = self.entries[last - u32::count_ones(mask) as usize];
            sum = sum + e * parts.factors(self.u, self.v, mask);
        }
        sum
    }

    // The tensor of a list times how often the list counts.
    fn summand(&self, parts: &Parts) -> f64
        ensures { result ≡ Summand (regular real) 2 (coordinates (curve_numbers self.now.u.now) (curve_numbers self.now.v.now)) (surface_entry (surface_numbers self.now.entries.now)) parts.now.list.now }
    {
        self.tensor(parts) * parts.multiplicity()
    }

    // The running total, from `start`, over the lists of `len` parts.
    fn along_lists(&self, order: usize, len: usize, start: f64) -> f64
        requires { (0 < len) × (len ≤ order) × (order ≤ 20) }
        ensures { result ≡ along_list real.plus start (Summand (regular real) 2 (coordinates (curve_numbers self.now.u.now) (curve_numbers self.now.v.now)) (surface_entry (surface_numbers self.now.entries.now))) (lists order len) }
    {
        let mut sum = start;
        if let Ok(mut walk) = CompositionIter::try_new(order, len) {
            while let Ok(Some(parts)) = walk.next() {
                let parts = Parts {
                    list: &parts[..len],
                };
                sum = sum + self.summand(&parts);
            }
        }
        sum
    }

    // One order, which is zero at order 0: one running total over the lists of each len in turn.
    pub fn derivative(&self, order: usize) -> f64
        ensures { result ≡ composite_derivative (regular real) (curve_numbers self.now.u.now) (curve_numbers self.now.v.now) (surface_numbers self.now.entries.now) (min order 20) }
    {
        let n = order.min(20);
        let mut total = 0.0f64;
        for len in 1..n + 1 {
            total = self.along_lists(n, len, total);
        }
        total
    }

    // The same, with the surface's [0][0] at order 0.
    fn entry(&self, m: usize) -> f64
        requires { m ≤ 20 }
        ensures { result ≡ composite_derivatives (regular real) (curve_numbers self.now.u.now) (curve_numbers self.now.v.now) (surface_numbers self.now.entries.now) m }
    {
        if m == 0 {
            self.entries[0]
        } else {
            self.derivative(m)
        }
    }

    // All orders up to `order`.
    pub fn derivatives(&self, order: usize) -> [f64; 21]
        ensures { result ≡ curve_array positive_zero (composite_derivatives (regular real) (curve_numbers self.now.u.now) (curve_numbers self.now.v.now) (surface_numbers self.now.entries.now)) (min order 20) }
    {
        let n = order.min(20);
        let mut r = [0.0f64; 21];
        for m in 0..n + 1 {
            r[m] = self.entry(m);
        }
        r
    }
}
