// What a site in memory does to its image.
ghost use Rattle.std.specs.Prelude.{◌≡◌, ◌⊎◌, ◌∷◌, [], length, reverse, OnOk, OnErr, if◌then◌else◌};
ghost use Rattle.site_core.specs.Log.{reads};
ghost use Rattle.site_core.specs.Log.Act.{Wrote, WriteFailed, Restarted};
ghost use Rattle.site_core.specs.Memory.{patches, torn_up, AllFit, AllWithin};
ghost use Rattle.site_core.specs.Tears.{after_stop};

use crate::past::{Past, keep};
use crate::patch::{Patch, covered, mark, put_in, restore, undo};
use faim_base::{Bytes, NoMemory};
use std::alloc::Global;

// A write, with its trace and what it covered; or nothing is changed. A torn one is a write that a stop cuts short.
pub(crate) fn write(
    alloc: Global,
    past: &mut Past,
    image: &mut Vec<u8>,
    over: &mut Vec<Patch>,
    at: u64,
    bytes: &[u8],
    torn: bool,
) -> Result<(), NoMemory>
    requires same { image.old.items ≡ reads past.old }
    requires covers { reverse over.old.items ≡ patches past.old }

    ensures same { image.new.items ≡ reads past.new }
    ensures covers { reverse over.new.items ≡ patches past.new }
    ensures trace { OnOk result (past.new ≡ (if torn then WriteFailed at bytes.now bytes.now else Wrote at bytes.now) ∷ past.old) }
    ensures no_trace { OnErr result (past.new ≡ past.old) }
{
    let place = at as usize;
    if place > usize::MAX - bytes.len() {
        return Err(NoMemory);
    }
    let mut copy = Bytes::new(alloc);
    copy.extend(bytes)?;
    let patch = covered(alloc, image, place, bytes)?;
    over.reserve(1)?;
    put_in(image, place, bytes)?;
    match trace(past, at, copy, torn) {
        Ok(()) => {
            keep(over, patch);
            Ok(())
        }
        Err(fault) => {
            restore(image, &patch);
            Err(fault)
        }
    }
}

fn trace(past: &mut Past, at: u64, bytes: Bytes, torn: bool) -> Result<(), NoMemory>
    ensures ok { OnOk result (past.new ≡ (if torn then WriteFailed at bytes bytes else Wrote at bytes) ∷ past.old) }
    ensures err { OnErr result (past.new ≡ past.old) }
{
    if torn {
        past.torn(at, bytes)
    } else {
        past.wrote(at, bytes)
    }
}

// Comes back from a stop. It takes no memory; where nothing is pending it leaves no trace.
pub(crate) fn come_back(past: &mut Past, image: &mut Vec<u8>, over: &mut Vec<Patch>, tear: u64)
    requires same { image.old.items ≡ reads past.old }
    requires covers { reverse over.old.items ≡ patches past.old }

    ensures same { image.new.items ≡ reads past.new }
    ensures covers { reverse over.new.items ≡ patches past.new }
    ensures trace { (past.new ≡ Restarted (after_stop tear past.old) ∷ past.old) ⊎ ((past.new ≡ past.old) × (patches past.old ≡ [])) }
    ensures image { reads past.new ≡ after_stop tear past.old }
{
    if over.is_empty() {
        return;
    }
    tear_up(image, over, tear);
    past.restarted(tear);
}

// The image as the tear leaves what the writes covered.
fn tear_up(image: &mut Vec<u8>, over: &mut Vec<Patch>, tear: u64)
    requires fit { AllFit (reverse over.old.items) image.old.items }
    requires within { AllWithin (length image.old.items) (reverse over.old.items) }
    ensures image { image.new.items ≡ torn_up tear (reverse over.old.items) image.old.items }
    ensures over { over.new.items ≡ [] }
{
    if tear == 0 {
        undo(image, over);
    } else if tear == 1 {
        over.clear();
    } else {
        mark(image, over, (tear % 256) as u8);
    }
}
