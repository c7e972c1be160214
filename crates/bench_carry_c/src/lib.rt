// The archive of `bench_carry` for C: a call of the library's function, with the same clause.
#![tactic(auto)]

ghost use Rattle.std.specs.Prelude.{◌≡◌};
ghost use Rattle.refusals.specs.Number.{number_of};
ghost use Rattle.calculus.specs.JetKind.{jet_of};
ghost use Rattle.exact.specs.Answer.{curves};
ghost use Rattle.bench_carry.specs.Outcome.{carried};

#[unsafe(no_mangle)]
pub extern "C" fn exact_composite_derivatives(
    entries: &[i64; 231],
    u: &[i64; 21],
    v: &[i64; 21],
    order: usize,
    out: &mut [i64; 21],
) -> u8
    ensures { (result ≡ number_of (carried entries.now u.now v.now order)) × (out.new ≡ (jet_of curves (carried entries.now u.now v.now order)).entries) }
{
    bench_carry::exact_composite_derivatives(entries, u, v, order, out)
}
