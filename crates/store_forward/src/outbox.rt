// Frames that wait, one behind another in one buffer.
ghost use Rattle.std.specs.Prelude.{◌≡◌, ◌≤◌, ◌<◌, ◌++◌, ◌∷◌, [], length, slice_get, slice_index, Some, OnOk, OnErr, IsTrue, MatchOption, ◌↔◌};
ghost use Rattle.link_frames.specs.Frames.{content_of, frame_bytes, greatest_payload};
ghost use Rattle.store_forward.specs.Outbox.{frames_from, AreEnds};

use faim_base::{NoMemory, after, before};
use link_frames::{Frame, encode_frame};
use std::alloc::Global;
use std::marker::Model;

/// Frames that wait to be sent, the first first. Contracts see the list of their bytes.
#[derive(Debug, Drop)]
pub struct Outbox {
    bytes: Vec<u8>,
    ends: Vec<usize>,
}

impl Model for Outbox {
    ghost use Rattle.std.specs.Prelude.{ℕ, List, length};
    ghost use Rattle.store_forward.specs.Outbox.{frames_from, AreEnds};

    ghost Value = { List (List ℕ) };

    ghost view = { λ o. frames_from 0 o.bytes.items o.ends.items };

    ghost invariant = { λ o. AreEnds 0 (length o.bytes.items) o.ends.items };
}

impl Outbox {
    /// The empty outbox, which takes no memory.
    pub fn new(alloc: Global) -> Outbox
        ensures { result ≡ [] }
    {
        Outbox {
            bytes: Vec::new(alloc),
            ends: Vec::new(alloc),
        }
    }

    /// Forgets all frames, and keeps the memory for those of the next turn.
    pub fn clear(&mut self)
        ensures { self.new ≡ [] }
    {
        self.bytes.clear();
        self.ends.clear();
    }

    /// Adds a frame at the end. Its payload has at most 8,192 bytes. `NoMemory` leaves the frames as they were.
    pub fn push(&mut self, frame: &Frame<'_>) -> Result<(), NoMemory>
        requires { length frame.now.payload.now ≤ greatest_payload }
        ensures ok { OnOk result (self.new ≡ self.old ++ frame_bytes (content_of frame.now) ∷ []) }
        ensures err { OnErr result (self.new ≡ self.old) }
    {
        self.ends.reserve(1)?;
        encode_frame(frame, &mut self.bytes)?;
        self.ends.push(self.bytes.len())?;
        Ok(())
    }

    /// How many frames wait.
    pub fn len(&self) -> usize
        ensures { result ≡ length self.now }
    {
        self.ends.len()
    }

    /// No frame waits.
    pub fn is_empty(&self) -> bool
        ensures { IsTrue result ↔ (self.now ≡ []) }
    {
        self.len() == 0
    }

    /// The bytes of the frame at a place, counted from 0. None exactly where there is none.
    pub fn get(&self, place: usize) -> Option<&[u8]>
        ensures { MatchOption result (length self.now ≤ place) (λ frame. slice_get self.now place ≡ Some frame.now) }
    {
        if place < self.len() {
            Some(self.frame(place))
        } else {
            None
        }
    }

    // The frame at a place where there is one.
    pub(crate) fn frame(&self, place: usize) -> &[u8]
        requires { place < length self.now }
        ensures { slice_get self.now place ≡ Some result.now }
    {
        frame_at(&self.bytes, &self.ends, place)
    }
}

// The bytes between the end before and the end at a place.
fn frame_at<'a>(bytes: &'a [u8], ends: &[usize], place: usize) -> &'a [u8]
    requires place { place < length ends.now }
    requires ends { AreEnds 0 (length bytes.now) ends.now }
    ensures { slice_get (frames_from 0 bytes.now ends.now) place ≡ Some result.now }
{
    let start = start_of(ends, place);
    before(after(bytes, start), ends[place] - start)
}

// A frame begins where the one before it ends.
fn start_of(ends: &[usize], place: usize) -> usize
    requires { place < length ends.now }
    ensures { result ≡ slice_index (0 ∷ ends.now) place }
{
    if place == 0 { 0 } else { ends[place - 1] }
}
