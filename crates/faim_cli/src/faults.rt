// Failures as a count of 64 bits.
ghost use Rattle.std.specs.Prelude.{◌≡◌};
ghost use Rattle.site_core.specs.Counts.{HasCause};

use faim_base::Failed;

// The answer of a call, counted where it failed. The count stays at its end.
pub(crate) fn counted<T>(faults: &mut u64, answer: Result<T, Failed>) -> Result<T, Failed>
    ensures answer { result ≡ answer }
    ensures cause { HasCause faults.old faults.new result }
{
    if answer.is_err() {
        *faults = faults.saturating_add(1);
    }
    answer
}
