// A site that can be stopped at any device call.
ghost use Rattle.std.specs.Prelude.{◌≡◌, ◌⊎◌, ◌<◌, ◌≤◌, ◌-◌, ℕ, Option, IfSome, IsSome, IsTrue, MatchOption, length, slice_get};
ghost use Rattle.site_core.specs.Log.{sent};
ghost use Rattle.site_core.specs.Told.{Told, Goes, Restarts};

use crate::Site;

/// A site that stops at a device call that it is armed for. It always tells.
///
/// The call that is stopped fails, and so does each later one until the site restarts.
pub trait StopSite: Site {
    /// Stops the site at this device call from now, counted from 1; 0 disarms it. The tear chooses among the images
    /// that a stop may leave.
    fn arm(&mut self, call: u64, tear: u64)
        requires { IfSome (Self.told self.old) (λ site. IsTrue site.stopped → ⊥) }
        ensures told { Goes (Self.told self.old) (Self.told self.new) (λ old new. new ≡ record old { armed = call }) }
        ensures disk { Self.disk_faults self.new ≡ Self.disk_faults self.old }
        ensures line { Self.line_faults self.new ≡ Self.line_faults self.old };

    /// Whether the site is stopped.
    fn stopped(&self) -> bool
        ensures { IfSome (Self.told self.now) (λ site. result ≡ site.stopped) };

    /// A stop now, or the end of the present one. Nothing is pending then, and nothing is armed. It takes no memory.
    fn restart(&mut self)
        ensures told { Goes (Self.told self.old) (Self.told self.new) Restarts }
        ensures disk { Self.disk_faults self.new ≡ Self.disk_faults self.old }
        ensures line { Self.line_faults self.new ≡ Self.line_faults self.old };

    /// How many frames were sent.
    fn sent_count(&self) -> u64
        ensures { IfSome (Self.told self.now) (λ site. result ≡ length (sent site.log)) };

    /// The frame with this number in the order of sending, from 1. None exactly where there is none.
    fn sent(&self, number: u64) -> Option<&[u8]>
        ensures { IfSome (Self.told self.now) (λ site. MatchOption result ((number ≡ 0) ⊎ (length (sent site.log) < number)) (λ frame. (1 ≤ number) × (slice_get (sent site.log) (number - 1) ≡ Some frame.now))) };

    /// How many calls found no memory in the site itself, and failed. It rises at no other call, and never falls.
    fn lacks(&self) -> u64
        ensures { IfSome (Self.told self.now) (λ site. result ≡ site.lacks) };

    /// It always tells.
    ghost always: { (site : Self) → IsSome (Self.told site) };
}
