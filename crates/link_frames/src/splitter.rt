// Reading frames that come in pieces.
ghost use Rattle.std.specs.Prelude.{IsTrue, ◌≡◌, ◌≤◌, ◌++◌, ◌⊎◌, ◌↔◌, ℕ, [], true, false, length, take, IfOk, IfErr, IfSome, IsSome, MatchResult, Some, None, Err};
ghost use Rattle.std.specs.Borrow.{sem};
ghost use Rattle.link_frames.specs.Frames.{IsFrame, content_of, frame_bytes};
ghost use Rattle.link_frames.specs.Held.{is_held, head_length};
ghost use Rattle.link_frames.specs.Lending.{HandsOut};
ghost use Rattle.link_frames.specs.Splits.{fault_at, is_whole, front_length, end_at};

use crate::filling::fill;
use crate::heads::{frame_in, is_whole};
use crate::limits::GREATEST_FRAME;
use crate::{Frame, FrameFault};
use faim_base::{NoMemory, before};
use std::alloc::Global;
use std::marker::Model;

/// Reads frames from bytes that come in pieces (docs/FORMATS.md, "Frames"). Contracts see the bytes that it holds: those
/// that were fed of the frame that is being read, and of a whole one until it is handed out.
#[derive(Drop)]
pub struct Splitter {
    room: Vec<u8>,
    count: usize,
    fault: Option<FrameFault>,
}

impl Model for Splitter {
    ghost use Rattle.std.specs.Prelude.{IsTrue, ◌≡◌, ◌≤◌, List, ℕ, IsTrue, take, vec_len};
    ghost use Rattle.link_frames.specs.Held.{is_held, greatest_frame};
    ghost use Rattle.link_frames.specs.Splits.{fault_at};

    ghost Value = { List ℕ };

    ghost view = { λ s. take s.count s.room.items };

    ghost invariant = { λ s. (vec_len s.room ≡ greatest_frame) × (s.count ≤ greatest_frame)
        × IsTrue (is_held (take s.count s.room.items)) × (s.fault ≡ fault_at (take s.count s.room.items)) };
}

impl Splitter {
    /// Holds nothing, and has room for one frame, 8,205 bytes. No later call takes memory.
    pub fn new(alloc: Global) -> Result<Splitter, NoMemory>
        ensures { IfOk result (λ s. s ≡ []) }
    {
        Ok(Splitter {
            room: vec![in alloc; 0; GREATEST_FRAME]?,
            count: 0,
            fault: None,
        })
    }

    /// Takes bytes up to the end of the frame that is being read, and answers how many: none exactly where a whole frame
    /// is held, or the piece is empty. The first fault of the frame is answered as soon as the byte that shows it is
    /// there, and the first 13 bytes at the frame's place, or as many as there are, are held then. From then on each call
    /// answers it again and nothing changes.
    pub fn feed(&mut self, piece: &[u8]) -> Result<usize, FrameFault>
        ensures fault { MatchResult result (λ _. fault_at (self.old ++ piece.now) ≡ None) (λ e. fault_at (self.old ++ piece.now) ≡ Some e) }
        ensures taken { IfOk result (λ n. (n ≤ length piece.now) × (self.new ≡ self.old ++ take n piece.now)) }
        ensures front { IfOk result (λ _. self.new ≡ take (front_length (self.old ++ piece.now)) (self.old ++ piece.now)) }
        ensures none { IfOk result (λ n. (n ≡ 0) ↔ ((is_whole self.old ≡ true) ⊎ (piece.now ≡ []))) }
        ensures shown { IfErr result (λ e. fault_at self.new ≡ Some e) }
        ensures kept { IfErr result (λ _. fault_at self.old ≡ None → self.new ≡ take head_length (self.old ++ piece.now)) }
        ensures stays { IfSome (fault_at self.old) (λ e. (result ≡ Err e) × (self.new ≡ self.old)) }
    {
        if let Some(fault) = self.fault {
            return Err(fault);
        }
        let (count, fault) = fill(&mut self.room, self.count, piece);
        let taken = count - self.count;
        self.count = count;
        self.fault = fault;
        match fault {
            Some(fault) => Err(fault),
            None => Ok(taken),
        }
    }

    /// The whole frame that is held, lent without a copy. None exactly where no whole frame is held.
    pub fn frame(&self) -> Option<Frame<'_>>
        ensures there { IsSome result ↔ (is_whole self.now ≡ true) }
        ensures frame { IfSome result (λ f. (frame_bytes (content_of f) ≡ self.now) × IsFrame (content_of f)) }
    {
        frame_in(before(&self.room, self.count))
    }

    /// The whole frame that is held counts as handed out: nothing is held any more.
    pub fn hand_out(&mut self)
        requires { is_whole self.old ≡ true }
        ensures { self.new ≡ [] }
    {
        self.count = 0;
        self.fault = None;
    }

    /// As `frame` and then `hand_out`, where a whole frame is held: the frame is lent without a copy, and counts as handed
    /// out, so that nothing is held once it is given back. None exactly where no whole frame is held, and then nothing
    /// changes.
    pub fn take(&mut self) -> Option<Frame<'_>>
        ensures* hands_out { sem 𝓛 (HandsOut self.entry) }
        ensures there { IsSome result ↔ (is_whole self.old ≡ true) }
        ensures frame { IfSome result (λ f. (frame_bytes (content_of f) ≡ self.old) × IsFrame (content_of f)) }
    {
        frame_in(self.lend())
    }

    // The bytes that are held; a whole frame among them counts as handed out.
    fn lend(&mut self) -> &[u8]
        ensures* hands_out { sem 𝓛 (HandsOut self.entry) }
        ensures held { result.now ≡ self.old }
        ensures few { IsTrue (is_held result.now) }
    {
        let count = self.count;
        if is_whole(before(&self.room, count)) {
            self.count = 0;
            self.fault = None;
        }
        before(&self.room, count)
    }

    /// Whether the bytes may end here. Every whole frame was handed out. The fault that was answered, or else `CutFrame`
    /// where some bytes of a frame are held.
    pub fn finish(self) -> Result<(), FrameFault>
        requires { is_whole self ≡ false }
        ensures { result ≡ end_at self }
    {
        match self.fault {
            Some(fault) => Err(fault),
            None if self.count == 0 => Ok(()),
            None => Err(FrameFault::CutFrame(self.count)),
        }
    }
}
