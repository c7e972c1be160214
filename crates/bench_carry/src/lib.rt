// The exact carry, for the program in C that times it: bench/carry.c.
#![tactic(auto)]

ghost use Rattle.std.specs.Prelude.{◌≡◌};
ghost use Rattle.refusals.specs.Number.{number_of};
ghost use Rattle.calculus.specs.JetKind.{jet_of};
ghost use Rattle.exact.specs.Answer.{curves};
ghost use Rattle.bench_carry.specs.Outcome.{carried};

use exact::{ParameterCurve, SurfaceDerivatives};

#[tactic(auto, unfolding(crate::specs::Outcome::carried))]
#[unsafe(no_mangle)]
pub extern "C" fn exact_composite_derivatives(
    entries: &[i64; 231],
    u: &[i64; 21],
    v: &[i64; 21],
    order: usize,
    out: &mut [i64; 21],
) -> u8
    ensures { (result ≡ number_of (carried entries.now u.now v.now order)) × (out.new ≡ (jet_of curves (carried entries.now u.now v.now order)).entries) }
{
    let (entries, u, v) = (*entries, *u, *v);
    let surface = SurfaceDerivatives { order, entries };
    let curve = ParameterCurve { order, u, v };
    match surface.composite_derivatives(curve, order) {
        Ok(jet) => {
            let entries = jet.entries;
            *out = entries;
            0
        }
        Err(refusal) => {
            let zeros = [0i64; 21];
            *out = zeros;
            refusal.number()
        }
    }
}
