// Where the time comes from.
ghost use Rattle.std.specs.Prelude.{ℕ, List, Option};
ghost use Rattle.site_core.specs.Counts.{HasCause};
ghost use Rattle.site_core.specs.Readings.{ReadingAppends};

use faim_base::{Failed, Moment};

/// Where the time comes from. A clock may tell which readings it has given; one that tells goes on telling, and one
/// that doesn't goes on telling nothing.
pub trait Clock {
    /// The readings given so far, the oldest first, where the clock tells: minutes since 2000-01-01 00:00.
    ghost given: { Self → Option (List ℕ) };

    /// How many calls have failed.
    ghost clock_faults: { Self → ℕ };

    /// Gives a reading, which may be before an earlier one. At `Failed` none was given.
    fn now(&mut self) -> Result<Moment, Failed>
        ensures reading { ReadingAppends (given self.old) (given self.new) result }
        ensures cause { HasCause (clock_faults self.old) (clock_faults self.new) result };
}
