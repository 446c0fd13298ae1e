// What a verdict asks of a message alone.
ghost use Rattle.std.specs.Prelude.{◌≡◌, ◌+◌, ◌*◌, nat_le};
ghost use Rattle.faim_base.specs.declared.judgement.Verdict.TheVariants.{Refused};
ghost use Rattle.faim_base.specs.Refusals.{refusal};
ghost use Rattle.faim_model.specs.Verdicts.{is_customer};

use faim_base::{CycleDate, Head, Moment, Reject, Verdict};

pub(crate) fn refused(category: u8, code: u16) -> Verdict
    ensures { result ≡ Refused (refusal category code) }
{
    Verdict::Refused(Reject { category, code })
}

pub(crate) fn is_customer(head: &Head) -> bool
    ensures { result ≡ is_customer head.now }
{
    head.code == *b"CTR"
}

// Whether a moment is at or after a cutoff of the cycle date.
pub(crate) fn is_past(cycle: CycleDate, cutoff: u16, moment: Moment) -> bool
    ensures { result ≡ nat_le (1440 * cycle + cutoff) moment }
{
    1440 * u64::from(cycle.get()) + u64::from(cutoff) <= u64::from(moment.get())
}
