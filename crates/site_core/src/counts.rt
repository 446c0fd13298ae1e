// The numbers that a site in memory keeps of its calls.
ghost use Rattle.std.specs.Prelude.{◌≡◌, ◌⊎◌, ◌+◌, ◌^◌, ◌-◌, ◌<◌, ◌≤◌, false, true, IsTrue, Contains, IsErr};
ghost use Rattle.site_core.specs.Counts.{Rose};
ghost use Rattle.site_core.specs.Turns.{Begins};
ghost use Rattle.site_core.specs.declared.counts.Turn.TheVariants.{Goes, Stops};

use crate::listed::is_listed;
use faim_base::Failed;

/// The calls made and whether the newest failed, the stops reached, the calls left to the armed stop or 0, whether
/// the site is stopped, and the calls that found no memory.
#[derive(Debug, Drop)]
pub(crate) struct Counts {
    pub(crate) made: u64,
    pub(crate) failed: bool,
    pub(crate) stops: u64,
    pub(crate) armed: u64,
    pub(crate) stopped: bool,
    pub(crate) lacks: u64,
}

/// How many calls of one part failed, and how many for no reason of a stop or of memory.
#[derive(Debug, Drop)]
pub(crate) struct Faults {
    pub(crate) all: u64,
    pub(crate) unarmed: u64,
}

/// What becomes of a call.
#[derive(Clone, Copy, Debug, PartialEq, Eq)]
pub(crate) enum Turn {
    Goes,
    Stops,
    Fails,
}

impl Counts {
    pub(crate) fn new() -> Counts
        ensures { result ≡ record { made = 0; failed = false; stops = 0; armed = 0; stopped = false; lacks = 0 } }
    {
        Counts {
            made: 0,
            failed: false,
            stops: 0,
            armed: 0,
            stopped: false,
            lacks: 0,
        }
    }
}

impl Faults {
    pub(crate) fn new() -> Faults
        ensures { result ≡ record { all = 0; unarmed = 0 } }
    {
        Faults { all: 0, unarmed: 0 }
    }
}

// Counts one call, and says what becomes of it.
pub(crate) fn begin(counts: &mut Counts, faults: &mut Faults, fails: &[usize]) -> Turn
    requires few { counts.old.stops ≤ counts.old.made }
    requires disarmed { IsTrue counts.old.stopped → counts.old.armed ≡ 0 }

    ensures few { counts.new.stops ≤ counts.new.made }
    ensures disarmed { IsTrue counts.new.stopped → counts.new.armed ≡ 0 }
    ensures begins { Begins result counts.old counts.new faults.old faults.new }
    ensures listed { Contains fails.now (counts.old.made + 1) → result ≡ Goes → ⊥ }
    ensures reached { counts.old.stops < counts.new.stops → result ≡ Stops }
    ensures unlisted { (result ≡ Goes → ⊥) → Contains fails.now (counts.old.made + 1) ⊎ ((counts.old.made ≡ 2 ^ 64 - 1) ⊎ IsTrue counts.new.stopped) }
{
    if counts.made == u64::MAX {
        counts.failed = true;
        return turn_away(faults);
    }
    counts.made += 1;
    counts.failed = true;
    if counts.stopped {
        faults.all = faults.all.saturating_add(1);
        return Turn::Fails;
    }
    if counts.armed == 1 {
        counts.armed = 0;
        counts.stopped = true;
        counts.stops += 1;
        faults.all = faults.all.saturating_add(1);
        return Turn::Stops;
    }
    counts.armed = counts.armed.saturating_sub(1);
    if is_listed(fails, counts.made) {
        return turn_away(faults);
    }
    counts.failed = false;
    Turn::Goes
}

fn turn_away(faults: &mut Faults) -> Turn
    ensures turn { result ≡ Turn.Fails }
    ensures all { Rose faults.old.all faults.new.all }
    ensures later { faults.old.all ≤ faults.new.all }
    ensures unarmed { Rose faults.old.unarmed faults.new.unarmed }
    ensures unarmed_later { faults.old.unarmed ≤ faults.new.unarmed }
{
    faults.all = faults.all.saturating_add(1);
    faults.unarmed = faults.unarmed.saturating_add(1);
    Turn::Fails
}

// Counts a call that found no memory, and gives what it answers.
pub(crate) fn lack(counts: &mut Counts, faults: &mut Faults) -> Failed
    ensures lacks { Rose counts.old.lacks counts.new.lacks }
    ensures lacks_later { counts.old.lacks ≤ counts.new.lacks }
    ensures others { counts.new ≡ record counts.old { failed = true; lacks = counts.new.lacks } }
    ensures all { Rose faults.old.all faults.new.all }
    ensures later { faults.old.all ≤ faults.new.all }
    ensures unarmed { faults.new.unarmed ≡ faults.old.unarmed }
{
    counts.failed = true;
    counts.lacks = counts.lacks.saturating_add(1);
    faults.all = faults.all.saturating_add(1);
    Failed
}
