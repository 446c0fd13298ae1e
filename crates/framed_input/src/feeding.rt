// Reading a piece, and feeding a splitter what belongs to the frame at the front.
ghost use Rattle.std.specs.Prelude.{◌≡◌, ◌<◌, ◌≤◌, ◌-◌, None, IfOk, length, take, drop, max, min};
ghost use Rattle.std.specs.Io.KnownBytes.{ReadConsumes};
ghost use Rattle.site_core.specs.Counts.{HasCause};
ghost use Rattle.link_frames.specs.Splits.{fault_at};
ghost use Rattle.framed_input.specs.Limits.{greatest_piece};
ghost use Rattle.framed_input.specs.Feeding.{Feeds};

use crate::limits::{HEAD, PIECE};
use faim_base::Failed;
use link_frames::{FrameFault, Splitter};
use site_core::Source;

// Feeds what belongs to the frame at the front, and answers how many bytes that are and the fault that they show. `fed` is
// how many bytes the splitter holds.
pub(crate) fn feed(splitter: &mut Splitter, fed: usize, piece: &[u8]) -> (usize, Option<FrameFault>)
    requires counted { fed ≡ length splitter.old }
    requires clean { fault_at splitter.old ≡ None }
    ensures { Feeds splitter.old piece.now splitter.new result.0 result.1 }
{
    match splitter.feed(piece) {
        Ok(count) => (count, None),
        Err(fault) => (HEAD.saturating_sub(fed).min(piece.len()), Some(fault)),
    }
}

// Reads once, so many bytes at most, to the front of the buffer.
pub(crate) fn read_front<I: Source>(
    input: &mut I,
    buffer: &mut [u8],
    room: usize,
) -> Result<usize, Failed>
    requires some { 0 < room }
    requires within { room ≤ length buffer.old }
    ensures few { IfOk result (λ n. n ≤ room) }
    ensures bytes { ReadConsumes (I.left input.old) (I.left input.new) result buffer.new }
    ensures cause { HasCause (I.read_faults input.old) (I.read_faults input.new) result }
{
    input.read(&mut buffer[..room])
}

// What stands between two places, counted from 0.
pub(crate) fn between(bytes: &[u8], start: usize, end: usize) -> &[u8]
    requires order { start ≤ end }
    requires within { end ≤ length bytes.now }
    ensures { result.now ≡ take (end - start) (drop start bytes.now) }
{
    &bytes[start..end]
}

// How many bytes a read asks for where so many may still come: one more where none may.
pub(crate) fn room_for(left: u64) -> usize
    ensures { result ≡ max 1 (min left greatest_piece) }
{
    (left.min(PIECE as u64) as usize).max(1)
}
