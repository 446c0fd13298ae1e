// A source in memory, which fails at the calls that a list names.
ghost use Rattle.std.specs.Prelude.{◌≡◌, ◌⊎◌, ◌<◌, ◌≤◌, ◌+◌, ◌-◌, ◌^◌, ◌↔◌, Some, drop, take, min, length, Contains, IsTrue, IsErr, OnOk};
ghost use Rattle.std.specs.Io.{ReadsAtMost};
ghost use Rattle.std.specs.Io.KnownBytes.{ReadConsumes};
ghost use Rattle.site_core.specs.Counts.{HasCause};
ghost use Rattle.site_core.specs.Cuts.{ReadEnds};

use crate::Source;
use crate::listed::fails_by_list;
use faim_base::{Bytes, Failed, Places};

/// Bytes in memory. No read goes across a cut; apart from that a read gives as much as its buffer takes.
#[derive(Debug, Drop)]
pub struct MemSource {
    bytes: Bytes,
    cuts: Places,
    fails: Places,
    at: usize,
    calls: u64,
    faults: u64,
    ghost within: { at ≤ length bytes },
}

impl MemSource {
    /// A source of these bytes. `cuts` are places in them; `fails` are the numbers, from 1, of the calls that fail.
    pub fn new(bytes: Bytes, cuts: Places, fails: Places) -> MemSource
        ensures left { ⟦<MemSource as Source>⟧.left result ≡ Some bytes }
        ensures faults { ⟦<MemSource as Source>⟧.read_faults result ≡ 0 }
        ensures cuts { result.cuts ≡ cuts }
        ensures fails { result.fails ≡ fails }
        ensures calls { result.calls ≡ 0 }
    {
        MemSource {
            bytes,
            cuts,
            fails,
            at: 0,
            calls: 0,
            faults: 0,
        }
    }
}

impl Source for MemSource {
    ghost left = { λ s. Some (drop s.at s.bytes) };

    ghost read_faults = { λ s. s.faults };

    fn read(&mut self, buf: &mut [u8]) -> Result<usize, Failed>
        requires { 0 < length buf.old }
        ensures bound { ReadsAtMost result buf.new }
        ensures bytes { ReadConsumes (Some (drop self.old.at self.old.bytes)) (Some (drop self.new.at self.new.bytes)) result buf.new }
        ensures cause { HasCause self.old.faults self.new.faults result }

        // It fails at exactly the calls that are listed, and where its count of calls is full.
        ensures fails { IsErr result ↔ (Contains self.old.fails (self.old.calls + 1) ⊎ (self.old.calls ≡ 2 ^ 64 - 1)) }
        ensures calls { self.new.calls ≡ min (self.old.calls + 1) (2 ^ 64 - 1) }
        ensures ends { OnOk result (ReadEnds self.old.cuts self.old.at (self.old.at + min (length buf.old) (length self.old.bytes - self.old.at)) self.new.at) }
    {
        if fails_by_list(self.fails.as_slice(), &mut self.calls, &mut self.faults) {
            return Err(Failed);
        }
        let bytes = self.bytes.as_slice();
        let limit = self.at + buf.len().min(bytes.len() - self.at);
        let end = read_end(self.cuts.as_slice(), self.at, limit);
        let count = end - self.at;
        give(bytes, self.at, end, buf);
        self.at = end;
        Ok(count)
    }
}

// Where a read from `at` ends.
fn read_end(cuts: &[usize], at: usize, limit: usize) -> usize
    requires { at ≤ limit }
    ensures ends { ReadEnds cuts.now at limit result }
    ensures onward { at ≤ result }
{
    let mut end = limit;
    for cut in cuts {
        if at < *cut && *cut < end {
            end = *cut;
        }
    }
    end
}

// Copies the bytes between two places to the front of the buffer.
pub(crate) fn give(bytes: &[u8], at: usize, end: usize, buf: &mut [u8])
    requires order { at ≤ end }
    requires within { end ≤ length bytes.now }
    requires room { end - at ≤ length buf.old }
    ensures { take (end - at) buf.new ≡ take (end - at) (drop at bytes.now) }
{
    let given = &bytes[at..end];
    buf[..given.len()].copy_from_slice(given);
}
