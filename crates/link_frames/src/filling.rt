// Filling up the frame that is being read.
ghost use Rattle.std.specs.Prelude.{◌≡◌, ◌≤◌, ◌+◌, ◌-◌, ◌++◌, IsTrue, length, take, min};
ghost use Rattle.link_frames.specs.Held.{is_held, greatest_frame};
ghost use Rattle.link_frames.specs.Splits.{fault_at};
ghost use Rattle.link_frames.specs.Filling.{Fills};

use crate::FrameFault;
use crate::heads::{fault_at, length_at};
use crate::limits::{HEAD, LENGTH};
use faim_base::{after, before};

// Takes bytes of the piece up to the end of the frame, or of its head where that shows a fault. Answers how many are held
// then, and the fault.
pub(crate) fn fill(room: &mut [u8], count: usize, piece: &[u8]) -> (usize, Option<FrameFault>)
    requires room { length room.old ≡ greatest_frame }
    requires count { count ≤ greatest_frame }
    requires held { IsTrue (is_held (take count room.old)) }
    ensures { Fills (take count room.old) piece.now (take result.0 room.new) count result.0 result.1 }
{
    let taken = copy_up_to(room, count, piece, HEAD);
    let headed = count + taken;
    let fault = fault_at(before(room, headed));
    if headed < HEAD || fault.is_some() {
        return (headed, fault);
    }
    let size = LENGTH + length_at(room) as usize;
    let more = copy_up_to(room, headed, after(piece, taken), size);
    (headed + more, None)
}

// Copies bytes of the piece after those that are held, up to a limit, and answers how many.
fn copy_up_to(room: &mut [u8], count: usize, piece: &[u8], limit: usize) -> usize
    requires count { count ≤ length room.old }
    requires limit { limit ≤ length room.old }
    ensures count { result ≡ min (limit - count) (length piece.now) }
    ensures held { take (count + result) room.new ≡ take count room.old ++ take result piece.now }
{
    let taken = limit.saturating_sub(count).min(piece.len());
    room[count..count + taken].copy_from_slice(before(piece, taken));
    taken
}
