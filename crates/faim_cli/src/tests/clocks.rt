// The wall clock over readings that are given to it, and over the machine's own.
use crate::wall_clock::WallClock;
use faim_base::Failed;
use site_core::Clock;
use std::io::{self, ErrorKind};
use std::time::{self, Duration};

// So many seconds since 1970, or no reading.
#[derive(Drop)]
struct Stands(Option<u64>);

impl time::Clock for Stands {
    fn monotonic(&self) -> io::Result<Duration> {
        Ok(Duration::ZERO)
    }

    fn since_1970(&self) -> io::Result<Duration> {
        match self.0 {
            Some(seconds) => Ok(Duration::from_secs(seconds)),
            None => Err(io::Error::from(ErrorKind::Other)),
        }
    }
}

// The seconds are those that `date -u +%s` tells.
#[test]
fn a_reading_is_the_minute_in_utc_that_has_begun(rt: HostRuntime) {
    for (seconds, minute) in [
        (Some(1_704_187_859), Ok(12_625_050)),
        (Some(946_684_800), Ok(0)),
        (Some(946_684_799), Err(Failed)),
        (Some(253_402_300_799), Ok(4_207_593_599)),
        (Some(253_402_300_800), Err(Failed)),
        (None, Err(Failed)),
    ] {
        let mut clock = WallClock::new(Stands(seconds));
        assert_eq!(rt;
            clock.now().map(|moment| moment.get()),
            minute,
            "at {seconds:?}"
        );
    }
}

#[test]
fn the_machine_tells_a_moment_of_the_calendar(rt: HostRuntime) {
    let mut clock = WallClock::new(&rt);
    assert!(rt; clock.now().is_ok());
}
