// The device calls that a site in memory remembers, and the frames that it sent.
ghost use Rattle.std.specs.Prelude.{◌≡◌, ◌≢◌, ◌⊎◌, ◌-◌, ◌<◌, ◌≤◌, [], ◌∷◌, ◌++◌, reverse, length, true, false, vec_len, vec_capacity, OnOk, OnErr, MatchOption, slice_get, Some};
ghost use Rattle.site_core.specs.Log.{sent};
ghost use Rattle.site_core.specs.Log.Act.{Asked, Wrote, WriteFailed, Synced, Sent, SendFailed, Restarted};
ghost use Rattle.site_core.specs.Memory.{patches, IsPlain};
ghost use Rattle.site_core.specs.Tears.{after_stop};

use faim_base::{Bytes, NoMemory};
use std::alloc::Global;
use std::marker::Model;

/// What one call did. The frames of `Sent` and `Kept` are in a list of their own.
#[derive(Debug, Drop)]
pub(crate) enum Call {
    Asked,
    Wrote { at: u64, bytes: Bytes },
    /// A write that a stop tore: it reads as written until the restart.
    Torn { at: u64, bytes: Bytes },
    Synced,
    Sent,
    /// A send that a stop cut short, with its frame in.
    Kept,
    /// A send that a stop cut short, with its frame out.
    Lost { frame: Bytes },
    Restarted { tear: u64 },
}

/// All calls and frames so far. Contracts see the log that they make.
///
/// As long as a write is pending there is room for one call more, so that a restart takes no memory.
#[derive(Debug, Drop)]
pub(crate) struct Past {
    calls: Vec<Call>,
    frames: Vec<Bytes>,
}

impl Model for Past {
    ghost use Rattle.std.specs.Prelude.{◌≡◌, ◌⊎◌, ◌<◌, List, [], reverse, vec_len, vec_capacity};
    ghost use Rattle.site_core.specs.Log.{Act, sent};

    ghost Value = { List Act };

    ghost use Rattle.site_core.specs.Memory.{acts_of, patches};

    ghost view = { λ p. acts_of (reverse p.calls.items) (reverse p.frames.items) };

    ghost invariant = { λ p. (sent (acts_of (reverse p.calls.items) (reverse p.frames.items)) ≡ p.frames.items)
        × ((patches (acts_of (reverse p.calls.items) (reverse p.frames.items)) ≡ []) ⊎ (vec_len p.calls < vec_capacity p.calls)) };
}

impl Past {
    pub(crate) fn new(alloc: Global) -> Past
        ensures { result ≡ [] }
    {
        Past {
            calls: Vec::new(alloc),
            frames: Vec::new(alloc),
        }
    }

    pub(crate) fn asked(&mut self) -> Result<(), NoMemory>
        ensures ok { OnOk result (self.new ≡ Asked ∷ self.old) }
        ensures err { OnErr result (self.new ≡ self.old) }
    {
        add(&mut self.calls, Call::Asked)
    }

    pub(crate) fn wrote(&mut self, at: u64, bytes: Bytes) -> Result<(), NoMemory>
        ensures ok { OnOk result (self.new ≡ Wrote at bytes ∷ self.old) }
        ensures err { OnErr result (self.new ≡ self.old) }
    {
        add(&mut self.calls, Call::Wrote { at, bytes })
    }

    pub(crate) fn torn(&mut self, at: u64, bytes: Bytes) -> Result<(), NoMemory>
        ensures ok { OnOk result (self.new ≡ WriteFailed at bytes bytes ∷ self.old) }
        ensures err { OnErr result (self.new ≡ self.old) }
    {
        add(&mut self.calls, Call::Torn { at, bytes })
    }

    pub(crate) fn synced(&mut self) -> Result<(), NoMemory>
        ensures ok { OnOk result (self.new ≡ Synced ∷ self.old) }
        ensures err { OnErr result (self.new ≡ self.old) }
    {
        add(&mut self.calls, Call::Synced)
    }

    pub(crate) fn lost(&mut self, frame: Bytes) -> Result<(), NoMemory>
        ensures ok { OnOk result (self.new ≡ SendFailed frame false ∷ self.old) }
        ensures err { OnErr result (self.new ≡ self.old) }
    {
        add(&mut self.calls, Call::Lost { frame })
    }

    pub(crate) fn sent(&mut self, frame: Bytes) -> Result<(), NoMemory>
        ensures ok { OnOk result (self.new ≡ Sent frame ∷ self.old) }
        ensures err { OnErr result (self.new ≡ self.old) }
    {
        self.frames.reserve(1)?;
        add(&mut self.calls, Call::Sent)?;
        keep(&mut self.frames, frame);
        Ok(())
    }

    pub(crate) fn kept(&mut self, frame: Bytes) -> Result<(), NoMemory>
        ensures ok { OnOk result (self.new ≡ SendFailed frame true ∷ self.old) }
        ensures err { OnErr result (self.new ≡ self.old) }
    {
        self.frames.reserve(1)?;
        add(&mut self.calls, Call::Kept)?;
        keep(&mut self.frames, frame);
        Ok(())
    }

    /// A restart, for which there is room as long as a write is pending.
    pub(crate) fn restarted(&mut self, tear: u64)
        requires { patches self.old ≢ [] }
        ensures trace { self.new ≡ Restarted (after_stop tear self.old) ∷ self.old }
        ensures plain { IsPlain self.old }
    {
        keep(&mut self.calls, Call::Restarted { tear });
    }

    pub(crate) fn count(&self) -> usize
        ensures { result ≡ length (sent self.now) }
    {
        self.frames.len()
    }

    pub(crate) fn frame(&self, place: usize) -> Option<&[u8]>
        ensures { MatchOption result (length (sent self.now) ≤ place) (λ frame. slice_get (sent self.now) place ≡ Some frame.now) }
    {
        self.frames.get(place).map(|frame| frame.as_slice())
    }
}

// Adds the call, and leaves room for one more.
fn add(calls: &mut Vec<Call>, call: Call) -> Result<(), NoMemory>
    ensures ok { OnOk result ((reverse calls.new.items ≡ call ∷ reverse calls.old.items) × (vec_len calls.new < vec_capacity calls.new)) }
    ensures err { OnErr result (calls.new.items ≡ calls.old.items) }
    ensures room { OnErr result (vec_capacity calls.old ≤ vec_capacity calls.new) }
{
    calls.reserve(2)?;
    calls.push(call)?;
    Ok(())
}

// Adds an item for which there is room.
pub(crate) fn keep<T: Drop>(items: &mut Vec<T>, item: T)
    requires { vec_len items.old < vec_capacity items.old }
    ensures newest { reverse items.new.items ≡ item ∷ reverse items.old.items }
    ensures items { items.new.items ≡ items.old.items ++ item ∷ [] }
{
    match items.push(item) {
        Ok(()) => {}
        Err(_) => unreachable!(),
    }
}
