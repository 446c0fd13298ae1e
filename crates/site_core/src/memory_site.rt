// A disk and a line in memory, which remember their calls.
ghost use Rattle.std.specs.Prelude.{◌≡◌, ◌≤◌, Some, [], IsTrue, false, reverse};
ghost use Rattle.site_core.specs.Log.{reads};
ghost use Rattle.site_core.specs.Memory.{patches};

use crate::Site;
use crate::counts::{Counts, Faults};
use crate::past::Past;
use crate::patch::Patch;
use faim_base::Places;
use std::alloc::Global;

/// A site in memory, with the image that it reads and a log of all its calls.
///
/// It fails at the calls that a list names, where it finds no memory, where it is stopped, and where 2^64 - 1 calls
/// were made before. Its image after a stop is chosen by the tear (docs/FORMATS.md, "Tears"). A write takes time by
/// its length, and a restart by what is pending.
#[derive(Debug, Drop)]
pub struct MemSite {
    pub(crate) alloc: Global,
    pub(crate) fails: Places,
    pub(crate) tear: u64,
    pub(crate) image: Vec<u8>,
    pub(crate) over: Vec<Patch>,
    pub(crate) past: Past,
    pub(crate) counts: Counts,
    pub(crate) disk: Faults,
    pub(crate) line: Faults,
    ghost same: { image.items ≡ reads past },
    ghost covers: { reverse over.items ≡ patches past },
    ghost few: { counts.stops ≤ counts.made },
    ghost disarmed: { IsTrue counts.stopped → counts.armed ≡ 0 },
}

impl MemSite {
    /// An empty site that has sent nothing. `fails` are the numbers, from 1, of the device calls that fail once.
    pub fn new(alloc: Global, fails: Places) -> MemSite
        ensures told { ⟦<MemSite as Site>⟧.told result ≡ Some (record { log = []; calls = 0; failed = false; stops = 0; armed = 0; stopped = false; lacks = 0; unarmed_disk = 0; unarmed_line = 0 }) }
        ensures disk { ⟦<MemSite as Site>⟧.disk_faults result ≡ 0 }
        ensures line { ⟦<MemSite as Site>⟧.line_faults result ≡ 0 }
        ensures fails { result.fails ≡ fails }
        ensures tear { result.tear ≡ 0 }
    {
        MemSite {
            alloc,
            fails,
            tear: 0,
            image: Vec::new(alloc),
            over: Vec::new(alloc),
            past: Past::new(alloc),
            counts: Counts::new(),
            disk: Faults::new(),
            line: Faults::new(),
        }
    }
}
