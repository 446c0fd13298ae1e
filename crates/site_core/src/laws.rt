// What follows from the log of a site, for the layers above: each law is what an empty function ensures.
ghost use Rattle.std.specs.Prelude.{◌≡◌, ◌⊎◌, ◌+◌, ◌-◌, ◌^◌, ◌<◌, ◌≤◌, ℕ, List, [], ◌∷◌, ◌++◌, Option, Result, Err, Bool, false, IsTrue, length, take};
ghost use Rattle.site_core.specs.Counts.{Rose};
ghost use Rattle.site_core.specs.Image.{put};
ghost use Rattle.site_core.specs.Log.{Act, reads, sent, firm, okays, LeavesImage, Leaves, Within, Left, NothingPending};
ghost use Rattle.site_core.specs.Log.Act.{Asked, Wrote, WriteFailed, Synced, SyncFailed, Sent, SendFailed, Restarted};
ghost use Rattle.site_core.specs.Pending.{PendingStays};
ghost use Rattle.site_core.specs.Told.{Told, Part, unarmed, Goes, Counted, Ran, HasReason, HasOneReason, Because, IsWrite, IsSync, IsSend, Restarts};

use faim_base::Failed;

/// What is left now: what a stop now may leave is left since each earlier time, and since now nothing else is.
pub fn left_now()
    ensures counts { (log : List Act) (t : ℕ) (image : List ℕ) (frames : List (List ℕ)) → Leaves log image frames → Left t log image frames }
    ensures only { (log : List Act) (image : List ℕ) (frames : List (List ℕ)) → Left (length log) log image frames → Leaves log image frames }
{}

/// Going on: what was left since a time was left before the later acts or since them; and it stays so.
pub fn left_on()
    ensures split { (acts log : List Act) (t : ℕ) (image : List ℕ) (frames : List (List ℕ)) → t ≤ length log → Left t (acts ++ log) image frames → Left t log image frames ⊎ Left (length log) (acts ++ log) image frames }
    ensures stays { (act : Act) (log : List Act) (t : ℕ) (image : List ℕ) (frames : List (List ℕ)) → t ≤ length log → Left t log image frames → Left t (act ∷ log) image frames }
{}

/// The image as it reads is one that a stop may leave, and it is at least as long as at the last sync.
pub fn reads_left()
    ensures left { (log : List Act) → LeavesImage log (reads log) }
    ensures long { (log : List Act) → firm log ≤ length (reads log) }
{}

/// Nothing is pending after a sync or a restart, nor as long as nothing is written; then only what reads can be left.
pub fn nothing_pending()
    ensures synced { (log : List Act) → NothingPending (Synced ∷ log) }
    ensures restarted { (image : List ℕ) (log : List Act) → NothingPending (Restarted image ∷ log) }
    ensures asked { (log : List Act) → NothingPending log → NothingPending (Asked ∷ log) }
    ensures unsynced { (log : List Act) → NothingPending log → NothingPending (SyncFailed ∷ log) }
    ensures sent { (frame : List ℕ) (log : List Act) → NothingPending log → NothingPending (Sent frame ∷ log) }
    ensures unsent { (frame : List ℕ) (kept : Bool) (log : List Act) → NothingPending log → NothingPending (SendFailed frame kept ∷ log) }
    ensures only { (log : List Act) (image : List ℕ) (frames : List (List ℕ)) → NothingPending log → Left (length log) log image frames → (image ≡ reads log) × (frames ≡ sent log) }
{}

/// Counts go on from call to call, and so do the reasons of faults.
pub fn counts_on()
    ensures same { (a : Told) → Counted a a }
    ensures counted { (a b c : Told) → Counted a b → Counted b c → Counted a c }
    ensures before { (part : Part) (a b c : Told) → Counted a b → Counted b c → HasReason part a b → HasReason part a c }
    ensures after { (part : Part) (a b c : Told) → Counted a b → Counted b c → HasReason part b c → HasReason part a c }
    ensures because { (part : Part) (f g h : ℕ) (a b c : Told) → Counted a b → Counted b c → Because part f g a b → Because part g h b c → Because part f h a c }
    ensures told { (a b c : Option Told) → Goes a b Counted → Goes b c Counted → Goes a c Counted }
    ensures one { (part : Part) (a b : Told) → HasOneReason part a b → HasReason part a b }
{}

/// A call fails for one reason. On a site that was stopped no count of a reason rises, as long as calls can be counted;
/// where a stop was reached or memory was lacking the unarmed count stays; and where neither was it rises.
pub fn one_reason()
    ensures stopped { (part : Part) (a b : Told) → HasOneReason part a b → IsTrue a.stopped → a.calls < 2 ^ 64 - 1 → (b.stops ≡ a.stops) × (b.lacks ≡ a.lacks) × (unarmed part b ≡ unarmed part a) }
    ensures stops { (part : Part) (a b : Told) → HasOneReason part a b → a.stops < b.stops → unarmed part b ≡ unarmed part a }
    ensures lacks { (part : Part) (a b : Told) → HasOneReason part a b → a.lacks < b.lacks → (a.stopped ≡ false) × (unarmed part b ≡ unarmed part a) }
    ensures unarmed { (part : Part) (a b : Told) → HasOneReason part a b → unarmed part a < unarmed part b → (b.stops ≡ a.stops) × (b.lacks ≡ a.lacks) }
    ensures neither { (part : Part) (a b : Told) → HasOneReason part a b → a.stopped ≡ false → b.stops ≡ a.stops → b.lacks ≡ a.lacks → a.lacks < 2 ^ 64 - 1 → Rose (unarmed part a) (unarmed part b) }
{}

/// Where calls of which the last failed reached a stop, it was armed for that one: for the calls that went through and
/// one more.
pub fn stop_reached()
    ensures { (a b : Told) (ran : Ran false (λ acts. Unit {0}) a b) → a.stops < b.stops → a.armed ≡ okays ran.acts + 1 }
{}

/// A stop inside a send, failed or not, may leave its frame out and may leave it in, with each image that could be left
/// before; and what a stop inside a call may leave is left since each time up to the start of that call.
pub fn sends_may_be_cut()
    ensures out { (frame : List ℕ) (log : List Act) (image : List ℕ) → LeavesImage log image → Within (Sent frame ∷ log) image (sent log) }
    ensures kept { (frame : List ℕ) (log : List Act) (image : List ℕ) → LeavesImage log image → Within (Sent frame ∷ log) image (sent log ++ frame ∷ []) }
    ensures failed_out { (frame : List ℕ) (later : Bool) (log : List Act) (image : List ℕ) → LeavesImage log image → Within (SendFailed frame later ∷ log) image (sent log) }
    ensures failed_kept { (frame : List ℕ) (later : Bool) (log : List Act) (image : List ℕ) → LeavesImage log image → Within (SendFailed frame later ∷ log) image (sent log ++ frame ∷ []) }
    ensures left { (act : Act) (log : List Act) (t : ℕ) (image : List ℕ) (frames : List (List ℕ)) → t ≤ length log → Within (act ∷ log) image frames → Left t (act ∷ log) image frames }
{}

/// A stop inside a write, failed or not, may leave any bytes in its range, and from the firm size on any number of any
/// bytes, or none. After a failed write its range may read as any bytes.
pub fn writes_may_be_torn()
    ensures torn { (at : ℕ) (bytes left more : List ℕ) (log : List Act) (image : List ℕ) → LeavesImage log image → length left ≤ length bytes → LeavesImage (Wrote at bytes ∷ log) (take (firm log) (put 0 image at left) ++ more) }
    ensures failed_torn { (at : ℕ) (bytes found left more : List ℕ) (log : List Act) (image : List ℕ) → LeavesImage log image → length left ≤ length bytes → LeavesImage (WriteFailed at bytes found ∷ log) (take (firm log) (put 0 image at left) ++ more) }
    ensures found { (at : ℕ) (bytes found : List ℕ) (log : List Act) → length found ≤ length bytes → reads (WriteFailed at bytes found ∷ log) ≡ put 0 (reads log) at found }
{}

/// What is pending stays so until a sync that succeeds, or a restart.
pub fn pending_stays()
    ensures asked { (log : List Act) → PendingStays log (Asked ∷ log) }
    ensures wrote { (at : ℕ) (bytes : List ℕ) (log : List Act) → PendingStays log (Wrote at bytes ∷ log) }
    ensures unwritten { (at : ℕ) (bytes found : List ℕ) (log : List Act) → PendingStays log (WriteFailed at bytes found ∷ log) }
    ensures unsynced { (log : List Act) → PendingStays log (SyncFailed ∷ log) }
    ensures sent { (frame : List ℕ) (log : List Act) → PendingStays log (Sent frame ∷ log) }
    ensures unsent { (frame : List ℕ) (kept : Bool) (log : List Act) → PendingStays log (SendFailed frame kept ∷ log) }
{}

/// A device call that fails may leave its act or none: a write whatever bytes it found, a send its frame in or out.
pub fn failed_calls_may_leave()
    ensures write_nothing { (at : ℕ) (bytes : List ℕ) → IsWrite {T = Unit {0}} {E = Failed} at bytes (Err (record {})) [] }
    ensures write_found { (at : ℕ) (bytes found : List ℕ) → IsWrite {T = Unit {0}} {E = Failed} at bytes (Err (record {})) (WriteFailed at bytes found ∷ []) }
    ensures sync_nothing { IsSync {T = Unit {0}} {E = Failed} (Err (record {})) [] }
    ensures sync_failed { IsSync {T = Unit {0}} {E = Failed} (Err (record {})) (SyncFailed ∷ []) }
    ensures send_nothing { (frame : List ℕ) → IsSend {T = Unit {0}} {E = Failed} frame (Err (record {})) [] }
    ensures send_either { (frame : List ℕ) (kept : Bool) → IsSend {T = Unit {0}} {E = Failed} frame (Err (record {})) (SendFailed frame kept ∷ []) }
{}

/// A restart may give each image that a stop may leave.
pub fn restarts_may_give()
    ensures { (site : Told) (image : List ℕ) → LeavesImage site.log image → Restarts site (record site { log = Restarted image ∷ site.log; armed = 0; stopped = false }) }
{}

/// A count that rose is greater than before, unless it stood at the end of 64 bits; and one that is greater rose.
pub fn counts_rise()
    ensures greater { (before now : ℕ) → before < 2 ^ 64 - 1 → Rose before now → before < now }
    ensures rose { (before now : ℕ) → before < now → Rose before now }
{}
