// The carry of vectors, three floats an entry.
ghost use Rattle.std.specs.Prelude.{◌≡◌, ◌≤◌, ◌<◌, min};
ghost use Rattle.calculus.specs.Carry.{tensor as Tensor, summand as Summand, coordinates, surface_entry, composite_derivative, composite_derivatives};
ghost use Rattle.calculus.specs.InTurn.{along_list};
ghost use Rattle.partitions.specs.Parts.{lists};
ghost use Rattle.formulas.specs.Numbers.{curve_numbers};
ghost use Rattle.vector_formulas.specs.Vector.{vectors, vector_surface_numbers, vector_array};

use crate::Parts;
use ieee_vectors::Vector3;
use partitions::CompositionIter;
use vector_formulas::{store, vector_at, zero};

// A surface's entries, and those of the curve (u, v) in its parameters.
#[derive(Clone, Copy)]
pub struct Carried<'a> {
    pub entries: &'a [f64; 693],
    pub u: &'a [f64; 21],
    pub v: &'a [f64; 21],
}

impl<'a> Carried<'a> {
    // The sum over all masks of the entry of the surface that the mask's ones count names, times the factors of the mask.
    #[tactic(auto, using(formulas::proofs::Sums::turn_none))]
    fn tensor(&self, parts: &Parts) -> Vector3
        ensures { result ≡ Tensor vectors 2 (coordinates (curve_numbers self.now.u.now) (curve_numbers self.now.v.now)) (surface_entry (vector_surface_numbers self.now.entries.now)) parts.now.list.now }
    {
        let entries = self.entries;
        let len = parts.list.len();
        let last = len * (len + 1) / 2 + len;
        let mut sum = zero();
        for mask in 0..1u32 << len {
            let k = last - u32::count_ones(mask) as usize;
            let e = vector_at(entries, k);
            let product = parts.factors(self.u, self.v, mask);
            sum = sum.add(e.mul(product));
        }
        sum
    }

    // The tensor of a list times how often the list counts.
    fn summand(&self, parts: &Parts) -> Vector3
        ensures { result ≡ Summand vectors 2 (coordinates (curve_numbers self.now.u.now) (curve_numbers self.now.v.now)) (surface_entry (vector_surface_numbers self.now.entries.now)) parts.now.list.now }
    {
        self.tensor(parts).mul(parts.multiplicity())
    }

    // The running total, from `start`, over the lists of `len` parts.
    fn along_lists(&self, order: usize, len: usize, start: Vector3) -> Vector3
        requires { (0 < len) × (len ≤ order) × (order ≤ 20) }
        ensures { result ≡ along_list vectors.plus start (Summand vectors 2 (coordinates (curve_numbers self.now.u.now) (curve_numbers self.now.v.now)) (surface_entry (vector_surface_numbers self.now.entries.now))) (lists order len) }
    {
        let mut sum = start;
        if let Ok(mut walk) = CompositionIter::try_new(order, len) {
            while let Ok(Some(parts)) = walk.next() {
                let parts = Parts {
                    list: &parts[..len],
                };
                sum = sum.add(self.summand(&parts));
            }
        }
        sum
    }

    // One order, which is zero at order 0: one running total over the lists of each len in turn.
    pub fn derivative(&self, order: usize) -> Vector3
        ensures { result ≡ composite_derivative vectors (curve_numbers self.now.u.now) (curve_numbers self.now.v.now) (vector_surface_numbers self.now.entries.now) (min order 20) }
    {
        let n = order.min(20);
        let mut total = zero();
        for len in 1..n + 1 {
            total = self.along_lists(n, len, total);
        }
        total
    }

    // The same, with the surface's [0][0] at order 0.
    fn entry(&self, m: usize) -> Vector3
        requires { m ≤ 20 }
        ensures { result ≡ composite_derivatives vectors (curve_numbers self.now.u.now) (curve_numbers self.now.v.now) (vector_surface_numbers self.now.entries.now) m }
    {
        let entries = self.entries;
        if m == 0 {
            vector_at(entries, 0)
        } else {
            self.derivative(m)
        }
    }

    // All orders up to `order`.
    pub fn derivatives(&self, order: usize) -> [f64; 63]
        ensures { result ≡ vector_array (composite_derivatives vectors (curve_numbers self.now.u.now) (curve_numbers self.now.v.now) (vector_surface_numbers self.now.entries.now)) (min order 20) }
    {
        let n = order.min(20);
        let mut r = [0.0f64; 63];
        for m in 0..n + 1 {
            store(&mut r, m, self.entry(m));
        }
        r
    }
}
