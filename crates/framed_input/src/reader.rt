// Frames from a source.
ghost use Rattle.std.specs.Prelude.{◌≡◌, ◌↔◌, ◌⊎◌, ◌+◌, ◌<◌, ◌≤◌, ◌++◌, ℕ, [], true, false, is_some, Ok, Err, Some, IfOk, IfSome, IsSome, OnErr};
ghost use Rattle.std.specs.Io.KnownBytes.{IsAtEnd, Keeps};
ghost use Rattle.site_core.specs.Counts.{HasCause};
ghost use Rattle.link_frames.specs.declared.fault.FrameFault.{FrameFault};
ghost use Rattle.link_frames.specs.Frames.{IsFrame, content_of, frame_bytes};
ghost use Rattle.link_frames.specs.Splits.{fault_at, is_whole, end_at};
ghost use Rattle.framed_input.specs.Counting.{CountsFault};
ghost use Rattle.framed_input.specs.FramesIn.{after_front};
ghost use Rattle.framed_input.specs.Limits.{greatest_input};
ghost use Rattle.framed_input.specs.Standing.{KeepsLimit, stands, standing, ended};
ghost use Rattle.framed_input.specs.Taking.{Answers, Takes, TakesPiece};

use crate::InputEnd;
use crate::feeding::{between, feed, read_front, room_for};
use crate::limits::{GREATEST_INPUT, PIECE};
use faim_base::{Failed, NoMemory, before};
use link_frames::{Frame, FrameFault, Splitter};
use site_core::Source;
use std::alloc::Global;
use std::marker::Model;

/// Reads frames from a source that gives its bytes in pieces (docs/FORMATS.md, "Frames"). Contracts see the bytes that it
/// holds, those that were taken and aren't handed out yet, and how many were taken in all.
#[derive(Drop)]
pub struct FrameReader {
    splitter: Splitter,
    fed: usize,
    fault: Option<FrameFault>,
    buffer: Vec<u8>,
    start: usize,
    end: usize,
    taken: u64,
}

impl Model for FrameReader {
    ghost use Rattle.std.specs.Prelude.{◌≡◌, ◌≤◌, ◌++◌, vec_len};
    ghost use Rattle.framed_input.specs.Feeding.{Settled};
    ghost use Rattle.framed_input.specs.Intake.{Intake, part};
    ghost use Rattle.framed_input.specs.Limits.{greatest_piece};
    ghost use Rattle.framed_input.specs.Standing.{KeepsLimit};

    ghost Value = { Intake };

    ghost view = { λ r. record { held = r.splitter ++ part r.buffer.items r.start r.end; taken = r.taken } };

    ghost invariant = { λ r. (vec_len r.buffer ≡ greatest_piece) × (r.start ≤ r.end) × (r.end ≤ greatest_piece)
        × Settled r.splitter (part r.buffer.items r.start r.end) r.fed r.fault
        × KeepsLimit (record { held = r.splitter ++ part r.buffer.items r.start r.end; taken = r.taken }) };
}

impl FrameReader {
    /// Has taken nothing, and has room for one frame and for one read. No later call takes memory.
    pub fn new(alloc: Global) -> Result<FrameReader, NoMemory>
        ensures { IfOk result (λ r. r ≡ record { held = []; taken = 0 }) }
    {
        Ok(FrameReader {
            splitter: Splitter::new(alloc)?,
            fed: 0,
            fault: None,
            buffer: vec![in alloc; 0; PIECE]?,
            start: 0,
            end: 0,
            taken: 0,
        })
    }

    /// Reads on until a whole frame is held, and answers whether there is one: `Ok(false)` is an end of the input between
    /// two frames. It reads only where nothing that was taken answers it, and at most 4,096 bytes at a time, so that no more
    /// are taken beyond a frame or a fault.
    ///
    /// `Frame` is the first fault of what comes next, or `CutFrame` where the input ends within a frame. `TooLong` comes
    /// where 2^40 bytes were taken and one more came, which isn't held. From these two on each call answers the same and
    /// takes nothing, and so it is while a frame isn't handed out. After `ReadFault` what was taken is held, and the next call
    /// reads on.
    pub fn advance<I: Source>(&mut self, input: &mut I) -> Result<bool, InputEnd>
        ensures takes { Takes greatest_input (I.left input.old) (I.left input.new) self.old self.new }
        ensures most { self.new.taken ≤ greatest_input + 1 }
        ensures stays { (stands self.old.held ≡ true) ⊎ (greatest_input < self.old.taken) → (self.new ≡ self.old) × (input.new ≡ input.old) }
        ensures answer { Answers result self.new.held (I.left input.new) }
        ensures too_long { (result ≡ Err InputEnd.TooLong) ↔ (greatest_input < self.new.taken) }
        ensures read_fault { CountsFault (result ≡ Err InputEnd.ReadFault) (I.read_faults input.old) (I.read_faults input.new) }
    {
        self.advance_within(input, GREATEST_INPUT)
    }

    // The same with another limit.
    pub(crate) fn advance_within<I: Source>(
        &mut self,
        input: &mut I,
        limit: u64,
    ) -> Result<bool, InputEnd>
        requires { limit ≤ greatest_input }
        ensures takes { Takes limit (I.left input.old) (I.left input.new) self.old self.new }
        ensures kept { KeepsLimit self.new }
        ensures stays { (stands self.old.held ≡ true) ⊎ (limit < self.old.taken) → (self.new ≡ self.old) × (input.new ≡ input.old) }
        ensures answer { Answers result self.new.held (I.left input.new) }
        ensures too_long { (result ≡ Err InputEnd.TooLong) ↔ ((stands self.new.held ≡ false) × (limit < self.new.taken)) }
        ensures read_fault { CountsFault (result ≡ Err InputEnd.ReadFault) (I.read_faults input.old) (I.read_faults input.new) }
    {
        loop {
            match self.standing(limit) {
                Some(answer) => return answer,
                None => {}
            }
            match self.take_piece(input, limit) {
                Err(_) => return Err(InputEnd::ReadFault),
                Ok(0) => return self.ended(),
                Ok(_) => {}
            }
        }
    }

    // The answer that needs no read.
    fn standing(&self, limit: u64) -> Option<Result<bool, InputEnd>>
        ensures answer { result ≡ standing limit self.now }
        ensures kept { KeepsLimit self.now }
    {
        if let Some(fault) = self.fault {
            return Some(Err(InputEnd::Frame(fault)));
        }
        if self.splitter.frame().is_some() {
            return Some(Ok(true));
        }
        if limit < self.taken {
            return Some(Err(InputEnd::TooLong));
        }
        None
    }

    // Reads once, and answers how many bytes came. Those beyond the limit aren't held, and one is asked for at most.
    fn take_piece<I: Source>(&mut self, input: &mut I, limit: u64) -> Result<usize, Failed>
        requires limit { limit ≤ greatest_input }
        requires nothing { standing limit self.old ≡ None }
        ensures piece { IfOk result (λ n. TakesPiece limit n (I.left input.old) (I.left input.new) self.old self.new) }
        ensures end { result ≡ Ok 0 → IsAtEnd (I.left input.new) }
        ensures failed { OnErr result ((self.new ≡ self.old) × Keeps (I.left input.old) (I.left input.new)) }
        ensures cause { HasCause (I.read_faults input.old) (I.read_faults input.new) result }
    {
        let left = limit - self.taken;
        match read_front(input, &mut self.buffer, room_for(left)) {
            Err(fault) => Err(fault),
            Ok(count) => {
                let kept = count.min(left as usize);
                let (fed, fault) = feed(&mut self.splitter, self.fed, before(&self.buffer, kept));
                self.start = fed;
                self.end = kept;
                self.fed += fed;
                self.fault = fault;
                self.taken += count as u64;
                Ok(count)
            }
        }
    }

    // The answer at the end of the input.
    fn ended(&self) -> Result<bool, InputEnd>
        requires { stands self.now.held ≡ false }
        ensures { result ≡ ended self.now.held }
    {
        if self.fed == 0 {
            Ok(false)
        } else {
            Err(InputEnd::Frame(FrameFault::CutFrame(self.fed)))
        }
    }

    /// The whole frame at the front of what is held, lent without a copy. None exactly where no whole frame stands there.
    pub fn frame(&self) -> Option<Frame<'_>>
        ensures there { IsSome result ↔ (is_whole self.now.held ≡ true) }
        ensures frame { IfSome result (λ f. IsFrame (content_of f) × (self.now.held ≡ frame_bytes (content_of f) ++ after_front self.now.held)) }
    {
        self.splitter.frame()
    }

    /// The whole frame at the front counts as handed out: what comes after it is held.
    pub fn hand_out(&mut self)
        requires { is_whole self.old.held ≡ true }
        ensures held { self.new.held ≡ after_front self.old.held }
        ensures taken { self.new.taken ≡ self.old.taken }
    {
        self.splitter.hand_out();
        let (fed, fault) = feed(
            &mut self.splitter,
            0,
            between(&self.buffer, self.start, self.end),
        );
        self.start += fed;
        self.fed = fed;
        self.fault = fault;
    }
}
