// The device calls of a site in memory: each has the clauses of `Site`, and below them its own.
ghost use Rattle.std.specs.Prelude.{◌≡◌, ◌≤◌, ◌-◌, ◌%◌, ◌==◌, ◌∷◌, Some, IfOk, OnOk, OnErr, min, length, take, drop};
ghost use Rattle.std.specs.Io.{ReadsAtMost};
ghost use Rattle.site_core.specs.Choices.{told_by, FailsByList, KeepsChoices, IsCutShort, LeavesNothing};
ghost use Rattle.site_core.specs.Counts.{HasCause};
ghost use Rattle.site_core.specs.Log.{reads};
ghost use Rattle.site_core.specs.Log.Act.{WriteFailed, Sent, SendFailed};
ghost use Rattle.site_core.specs.Told.{Asks, Writes, Syncs, Sends, IsRead};
ghost use Rattle.site_core.specs.Told.Part.{Disk, Line};

use crate::counts::{Turn, begin, lack};
use crate::disk::write;
use crate::memory_source::give;
use crate::past::Past;
use crate::{MemSite, Site};
use faim_base::{Bytes, Failed, NoMemory};
use std::alloc::Global;

impl MemSite {
    // A question of the disk: it goes through and leaves its trace, or it fails.
    fn ask(&mut self) -> Result<(), Failed>
        ensures told { Asks result (told_by self.old) (told_by self.new) }
        ensures cause { HasCause self.old.disk.all self.new.disk.all result }
        ensures line { self.new.line.all ≡ self.old.line.all }
        ensures fails { FailsByList Disk result self.old.fails (told_by self.old) (told_by self.new) }
        ensures keeps { KeepsChoices self.old self.new }
        ensures leaves { OnErr result (LeavesNothing (told_by self.old) (told_by self.new)) }
    {
        match begin(&mut self.counts, &mut self.disk, self.fails.as_slice()) {
            Turn::Goes => match self.past.asked() {
                Ok(()) => Ok(()),
                Err(_) => Err(lack(&mut self.counts, &mut self.disk)),
            },
            Turn::Stops => Err(Failed),
            Turn::Fails => Err(Failed),
        }
    }
}

impl Site for MemSite {
    ghost told = { λ s. Some (told_by s) };

    ghost disk_faults = { λ s. s.disk.all };

    ghost line_faults = { λ s. s.line.all };

    fn size(&mut self) -> Result<u64, Failed>
        ensures value { IfOk result (λ n. n ≡ length (reads self.old.past)) }
        ensures told { Asks result (told_by self.old) (told_by self.new) }
        ensures cause { HasCause self.old.disk.all self.new.disk.all result }
        ensures line { self.new.line.all ≡ self.old.line.all }

        ensures fails { FailsByList Disk result self.old.fails (told_by self.old) (told_by self.new) }
        ensures keeps { KeepsChoices self.old self.new }
        ensures leaves { OnErr result (LeavesNothing (told_by self.old) (told_by self.new)) }
    {
        match self.ask() {
            Ok(()) => Ok(self.image.len() as u64),
            Err(fault) => Err(fault),
        }
    }

    fn read_at(&mut self, at: u64, buf: &mut [u8]) -> Result<usize, Failed>
        ensures bound { ReadsAtMost result buf.new }
        ensures value { IfOk result (λ n. IsRead (reads self.old.past) at n buf.new) }
        ensures told { Asks result (told_by self.old) (told_by self.new) }
        ensures cause { HasCause self.old.disk.all self.new.disk.all result }
        ensures line { self.new.line.all ≡ self.old.line.all }

        ensures fails { FailsByList Disk result self.old.fails (told_by self.old) (told_by self.new) }
        ensures keeps { KeepsChoices self.old self.new }
        ensures leaves { OnErr result (LeavesNothing (told_by self.old) (told_by self.new)) }
    {
        match self.ask() {
            Ok(()) => Ok(read_from(&self.image, at, buf)),
            Err(fault) => Err(fault),
        }
    }

    fn write_at(&mut self, at: u64, bytes: &[u8]) -> Result<(), Failed>
        ensures told { Writes at bytes.now result (told_by self.old) (told_by self.new) }
        ensures cause { HasCause self.old.disk.all self.new.disk.all result }
        ensures line { self.new.line.all ≡ self.old.line.all }

        ensures fails { FailsByList Disk result self.old.fails (told_by self.old) (told_by self.new) }
        ensures keeps { KeepsChoices self.old self.new }
        ensures leaves { OnErr result (IsCutShort (WriteFailed at bytes.now bytes.now) (told_by self.old) (told_by self.new)) }
    {
        match begin(&mut self.counts, &mut self.disk, self.fails.as_slice()) {
            Turn::Goes => match write(
                self.alloc,
                &mut self.past,
                &mut self.image,
                &mut self.over,
                at,
                bytes,
                false,
            ) {
                Ok(()) => Ok(()),
                Err(_) => Err(lack(&mut self.counts, &mut self.disk)),
            },
            Turn::Stops => match write(
                self.alloc,
                &mut self.past,
                &mut self.image,
                &mut self.over,
                at,
                bytes,
                true,
            ) {
                Ok(()) => Err(Failed),
                Err(_) => Err(lack(&mut self.counts, &mut self.disk)),
            },
            Turn::Fails => Err(Failed),
        }
    }

    fn sync(&mut self) -> Result<(), Failed>
        ensures told { Syncs result (told_by self.old) (told_by self.new) }
        ensures cause { HasCause self.old.disk.all self.new.disk.all result }
        ensures line { self.new.line.all ≡ self.old.line.all }

        ensures fails { FailsByList Disk result self.old.fails (told_by self.old) (told_by self.new) }
        ensures keeps { KeepsChoices self.old self.new }
        ensures leaves { OnErr result (LeavesNothing (told_by self.old) (told_by self.new)) }
    {
        match begin(&mut self.counts, &mut self.disk, self.fails.as_slice()) {
            Turn::Goes => match self.past.synced() {
                Ok(()) => {
                    self.over.clear();
                    Ok(())
                }
                Err(_) => Err(lack(&mut self.counts, &mut self.disk)),
            },
            Turn::Stops => Err(Failed),
            Turn::Fails => Err(Failed),
        }
    }

    fn send(&mut self, frame: &[u8]) -> Result<(), Failed>
        ensures told { Sends frame.now result (told_by self.old) (told_by self.new) }
        ensures cause { HasCause self.old.line.all self.new.line.all result }
        ensures disk { self.new.disk.all ≡ self.old.disk.all }

        ensures fails { FailsByList Line result self.old.fails (told_by self.old) (told_by self.new) }
        ensures keeps { KeepsChoices self.old self.new }
        ensures leaves { OnErr result (IsCutShort (SendFailed frame.now (self.old.tear % 2 == 1)) (told_by self.old) (told_by self.new)) }
    {
        match begin(&mut self.counts, &mut self.line, self.fails.as_slice()) {
            Turn::Goes => match send_whole(self.alloc, &mut self.past, frame) {
                Ok(()) => Ok(()),
                Err(_) => Err(lack(&mut self.counts, &mut self.line)),
            },
            Turn::Stops => match send_torn(self.alloc, &mut self.past, frame, self.tear % 2 == 1) {
                Ok(()) => Err(Failed),
                Err(_) => Err(lack(&mut self.counts, &mut self.line)),
            },
            Turn::Fails => Err(Failed),
        }
    }
}

// Copies what stands from a place on, as much as there is and the buffer takes, and says how much that is.
fn read_from(image: &[u8], at: u64, buf: &mut [u8]) -> usize
    ensures count { result ≡ min (length buf.new) (length image.now - at) }
    ensures bytes { take result buf.new ≡ take result (drop at image.now) }
{
    let at = at as usize;
    if at >= image.len() {
        return 0;
    }
    let count = buf.len().min(image.len() - at);
    give(image, at, at + count, buf);
    count
}

fn send_whole(alloc: Global, past: &mut Past, frame: &[u8]) -> Result<(), NoMemory>
    ensures ok { OnOk result (past.new ≡ Sent frame.now ∷ past.old) }
    ensures err { OnErr result (past.new ≡ past.old) }
{
    let mut copy = Bytes::new(alloc);
    copy.extend(frame)?;
    past.sent(copy)
}

// A send that a stop cuts short, with its frame in or out.
fn send_torn(alloc: Global, past: &mut Past, frame: &[u8], kept: bool) -> Result<(), NoMemory>
    ensures ok { OnOk result (past.new ≡ SendFailed frame.now kept ∷ past.old) }
    ensures err { OnErr result (past.new ≡ past.old) }
{
    let mut copy = Bytes::new(alloc);
    copy.extend(frame)?;
    if kept {
        past.kept(copy)
    } else {
        past.lost(copy)
    }
}
