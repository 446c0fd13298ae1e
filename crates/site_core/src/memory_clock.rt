// A clock in memory, which fails at the calls that a list names.
ghost use Rattle.std.specs.Prelude.{◌≡◌, ◌⊎◌, ◌<◌, ◌≤◌, ◌+◌, ◌-◌, ◌^◌, ◌↔◌, Some, [], min, length, Contains, IsErr, IfOk, MatchResult};
ghost use Rattle.site_core.specs.Counts.{HasCause};
ghost use Rattle.site_core.specs.Readings.{ReadingAppends, reading_at, first_readings};

use crate::Clock;
use crate::listed::fails_by_list;
use faim_base::{Failed, Moment, Moments, Places};

/// Readings in memory, which it gives in order; the last one it gives again and again.
#[derive(Debug, Drop)]
pub struct MemClock {
    readings: Moments,
    fails: Places,
    count: u64,
    calls: u64,
    faults: u64,
    ghost some: { 0 < length readings },
    ghost within: { count ≤ calls },
}

impl MemClock {
    /// A clock that gives these readings, at least one. `fails` are the numbers, from 1, of the calls that fail.
    pub fn new(readings: Moments, fails: Places) -> MemClock
        requires { 0 < length readings }
        ensures given { ⟦<MemClock as Clock>⟧.given result ≡ Some [] }
        ensures faults { ⟦<MemClock as Clock>⟧.clock_faults result ≡ 0 }
        ensures readings { result.readings ≡ readings }
        ensures fails { result.fails ≡ fails }
        ensures count { result.count ≡ 0 }
        ensures calls { result.calls ≡ 0 }
    {
        MemClock {
            readings,
            fails,
            count: 0,
            calls: 0,
            faults: 0,
        }
    }
}

impl Clock for MemClock {
    // The list and how often a reading was given tell which readings these were.
    ghost given = { λ c. Some (first_readings c.readings c.count) };

    ghost clock_faults = { λ c. c.faults };

    fn now(&mut self) -> Result<Moment, Failed>
        ensures reading { ReadingAppends (Some (first_readings self.old.readings self.old.count)) (Some (first_readings self.new.readings self.new.count)) result }
        ensures cause { HasCause self.old.faults self.new.faults result }

        // It fails at exactly the calls that are listed, and where its count of calls is full. A call that fails uses
        // no reading up.
        ensures fails { IsErr result ↔ (Contains self.old.fails (self.old.calls + 1) ⊎ (self.old.calls ≡ 2 ^ 64 - 1)) }
        ensures calls { self.new.calls ≡ min (self.old.calls + 1) (2 ^ 64 - 1) }
        ensures value { IfOk result (λ reading. reading ≡ reading_at self.old.readings self.old.count) }
        ensures count { MatchResult result (λ _. self.new.count ≡ self.old.count + 1) (λ _. self.new.count ≡ self.old.count) }
        ensures lists { (self.new.readings ≡ self.old.readings) × (self.new.fails ≡ self.old.fails) }
    {
        if fails_by_list(self.fails.as_slice(), &mut self.calls, &mut self.faults) {
            return Err(Failed);
        }
        let readings = self.readings.as_slice();
        let last = readings.len() - 1;
        let place = self.count.min(last as u64) as usize;
        let reading = readings[place];
        self.count += 1;
        Ok(reading)
    }
}
