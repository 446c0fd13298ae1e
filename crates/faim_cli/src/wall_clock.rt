// The machine's clock. It tells nothing: which time it is is the system's to say.
ghost use Rattle.std.specs.Prelude.{◌≡◌, None};
ghost use Rattle.std.specs.Duration.{as_nanos};
ghost use Rattle.faim_cli.specs.Wall.{moment_of};

use crate::faults::counted;
use faim_base::{Failed, Moment};
use site_core::Clock;
use std::time;
use std::time::{Duration, SystemTime};

// The minutes from 1970-01-01 to 2000-01-01.
const MINUTES_BEFORE: u64 = 10_957 * 1440;

/// The wall clock of a machine, as the minute in UTC that has begun. A reading outside the years 2000 to 9999 has
/// failed.
#[derive(Drop)]
pub struct WallClock<C: time::Clock> {
    clock: C,
    faults: u64,
}

impl<C: time::Clock> WallClock<C> {
    /// The wall clock that a runtime reads. No reading has failed.
    pub fn new(clock: C) -> WallClock<C>
        ensures { result ≡ record { clock = clock; faults = 0 } }
    {
        WallClock { clock, faults: 0 }
    }
}

impl<C: time::Clock> Clock for WallClock<C> {
    ghost given = { λ _. None };

    ghost clock_faults = { λ s. s.faults };

    fn now(&mut self) -> Result<Moment, Failed> {
        let answer = reading(&self.clock);
        counted(&mut self.faults, answer)
    }
}

fn reading(clock: &impl time::Clock) -> Result<Moment, Failed> {
    match SystemTime::now(clock) {
        Ok(time) => match time.duration_since(SystemTime::UNIX_EPOCH) {
            Ok(time) => moment(time).ok_or(Failed),
            Err(_) => Err(Failed),
        },
        Err(_) => Err(Failed),
    }
}

// The moment of a time since 1970-01-01 00:00. None exactly where it lies outside the years 2000 to 9999.
fn moment(time: Duration) -> Option<Moment>
    ensures { result ≡ moment_of (as_nanos time) }
{
    let minutes = time.as_secs() / 60;
    if minutes < MINUTES_BEFORE {
        return None;
    }
    match u32::try_from(minutes - MINUTES_BEFORE) {
        Ok(minutes) => Moment::new(minutes),
        Err(_) => None,
    }
}
