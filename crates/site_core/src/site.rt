// A disk and a line in one object, so that what was sent and what is stable are ordered by one log of calls.
ghost use Rattle.std.specs.Prelude.{◌≡◌, ℕ, Option, IfSome, IfOk, OnErr, length};
ghost use Rattle.std.specs.Io.{ReadsAtMost};
ghost use Rattle.site_core.specs.Counts.{HasCause};
ghost use Rattle.site_core.specs.Log.{reads};
ghost use Rattle.site_core.specs.Told.{Told, Goes, Asks, Writes, Syncs, Sends, IsRead};

use faim_base::Failed;

/// A disk with one image, and a line that frames are sent on.
///
/// A site may tell what its calls did (docs/STOPS.md); one that tells goes on telling. A call answers
/// `Failed` only where the count of its part rose: a count that is kept in 64 bits stays at its end. A site that tells
/// also tells the one reason why a call failed.
pub trait Site {
    /// What the site tells of itself, where it does.
    ghost told: { Self → Option Told };

    /// How many calls of the first four have failed.
    ghost disk_faults: { Self → ℕ };

    /// How many sends have failed.
    ghost line_faults: { Self → ℕ };

    /// The size of the image in bytes.
    fn size(&mut self) -> Result<u64, Failed>
        ensures value { IfOk result (λ n. IfSome (told self.old) (λ site. n ≡ length (reads site.log))) }
        ensures told { Goes (told self.old) (told self.new) (Asks result) }
        ensures cause { HasCause (disk_faults self.old) (disk_faults self.new) result }
        ensures line { line_faults self.new ≡ line_faults self.old };

    /// Reads from a place on as much as there is and the buffer takes, and answers how much that is: 0 past the end.
    fn read_at(&mut self, at: u64, buf: &mut [u8]) -> Result<usize, Failed>
        ensures bound { ReadsAtMost result buf.new }
        ensures value { IfOk result (λ n. IfSome (told self.old) (λ site. IsRead (reads site.log) at n buf.new)) }
        ensures told { Goes (told self.old) (told self.new) (Asks result) }
        ensures cause { HasCause (disk_faults self.old) (disk_faults self.new) result }
        ensures line { line_faults self.new ≡ line_faults self.old };

    /// Writes over what stands at a place, and past the end; a gap reads as zeros. After `Failed` the range may read
    /// as anything.
    fn write_at(&mut self, at: u64, bytes: &[u8]) -> Result<(), Failed>
        ensures told { Goes (told self.old) (told self.new) (Writes at bytes.now result) }
        ensures cause { HasCause (disk_faults self.old) (disk_faults self.new) result }
        ensures line { line_faults self.new ≡ line_faults self.old };

    /// Makes all that was written stable: a stop leaves it. After `Failed` nothing became stable.
    fn sync(&mut self) -> Result<(), Failed>
        ensures told { Goes (told self.old) (told self.new) (Syncs result) }
        ensures cause { HasCause (disk_faults self.old) (disk_faults self.new) result }
        ensures line { line_faults self.new ≡ line_faults self.old };

    /// Sends a whole frame. After `Failed` it was sent or it wasn't.
    fn send(&mut self, frame: &[u8]) -> Result<(), Failed>
        ensures told { Goes (told self.old) (told self.new) (Sends frame.now result) }
        ensures cause { HasCause (line_faults self.old) (line_faults self.new) result }
        ensures disk { disk_faults self.new ≡ disk_faults self.old };
}
