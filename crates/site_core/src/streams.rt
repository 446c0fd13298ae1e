// Where bytes come from and go to.
ghost use Rattle.std.specs.Prelude.{ℕ, List, Option, ◌<◌, ◌≤◌, length, IfOk};
ghost use Rattle.std.specs.Io.{ReadsAtMost};
ghost use Rattle.std.specs.Io.KnownBytes.{ReadConsumes, WriteAppends};
ghost use Rattle.site_core.specs.Counts.{HasCause};

use faim_base::Failed;

/// Where bytes come from. A source may tell which bytes are still to come; one that tells goes on telling.
pub trait Source {
    /// The bytes still to come, where the source tells.
    ghost left: { Self → Option (List ℕ) };

    /// How many reads have failed.
    ghost read_faults: { Self → ℕ };

    /// Gives the next n bytes at `Ok(n)`; `Ok(0)` is the end of the input. At `Failed` nothing was taken.
    fn read(&mut self, buf: &mut [u8]) -> Result<usize, Failed>
        requires { 0 < length buf.old }
        ensures bound { ReadsAtMost result buf.new }
        ensures bytes { ReadConsumes (left self.old) (left self.new) result buf.new }
        ensures cause { HasCause (read_faults self.old) (read_faults self.new) result };
}

/// Where bytes go. A sink may tell which bytes it has taken; one that tells goes on telling.
pub trait Sink {
    /// The bytes taken so far, where the sink tells.
    ghost written: { Self → Option (List ℕ) };

    /// How many writes have failed.
    ghost write_faults: { Self → ℕ };

    /// Appends the first n bytes of the piece at `Ok(n)`, at least one. At `Failed` nothing was appended.
    fn write(&mut self, piece: &[u8]) -> Result<usize, Failed>
        requires { 0 < length piece.now }
        ensures some { IfOk result (λ n. (0 < n) × (n ≤ length piece.now)) }
        ensures bytes { WriteAppends (written self.old) (written self.new) result piece.now }
        ensures cause { HasCause (write_faults self.old) (write_faults self.new) result };
}
