// What follows from the calls of a turn, for the layers above.
ghost use Rattle.std.specs.Prelude.{◌≡◌, ◌⊎◌, ◌+◌, ◌<◌, ◌++◌, ℕ, List, Bool, Result, Ok, Err, length, take, if◌then◌else◌};
ghost use Rattle.site_core.specs.Log.{Act, reads, sent, okays, LeavesImage, NothingPending};
ghost use Rattle.site_core.specs.Told.{Told, Counted};
ghost use Rattle.store_forward.specs.declared.faults.ForwardFault.{ForwardFault};
ghost use Rattle.store_forward.specs.Sending.{sends, AreBrokenOff, SendCalls, IsSendStoppedAt};
ghost use Rattle.store_forward.specs.Storing.{StoreCalls, StoresTo, IsStoreStopped};

use faim_base::Failed;

/// Frames that are sent come after those that were, in their order; each takes one call, and the image stays. Where a send
/// fails, those before it were sent, and its own frame is in or out.
pub fn sends_are_in_order()
    ensures frames { (frames : List (List ℕ)) (log : List Act) → sent (sends frames ++ log) ≡ sent log ++ frames }
    ensures calls { (frames : List (List ℕ)) → okays (sends frames) ≡ length frames }
    ensures image { (frames : List (List ℕ)) (log : List Act) → reads (sends frames ++ log) ≡ reads log }
    ensures pending { (frames : List (List ℕ)) (log : List Act) → NothingPending log → NothingPending (sends frames ++ log) }
    ensures broken { (frames : List (List ℕ)) (acts log : List Act) → (off : AreBrokenOff frames acts)
        → (okays acts ≡ off.number) × ((sent (acts ++ log) ≡ sent log ++ take off.number frames) ⊎ (sent (acts ++ log) ≡ sent log ++ take (off.number + 1) frames)) }
{}

/// A stop that sends reach: it was armed for the send of one of the frames. Those before it were sent, and that one is in
/// or out: either may come about.
pub fn stopped_sends()
    ensures call { (frames : List (List ℕ)) (fault : Failed) (old new : Told) → SendCalls {T = Unit {0}} frames (Err fault) old new → old.stops < new.stops → IsSendStoppedAt old.armed frames old new }
    ensures either { (frames : List (List ℕ)) (number : ℕ) (kept : Bool) → number < length frames
        → (acts : List Act) × AreBrokenOff frames acts × ((log : List Act) → sent (acts ++ log) ≡ sent log ++ take (if kept then number + 1 else number) frames) }
{}

/// The calls of storing and forwarding are counted. Where all went through, no stop was armed, or one beyond the last call.
/// Where a stop was reached, the number of its call tells whether the record is kept and how many frames were sent; of calls
/// 3 and 4 `torn_journal::stopped_appends` says that the record may be kept and may be lost.
pub fn stopped_stores()
    ensures counted { (result : Result (Unit {0}) ForwardFault) (tail : ℕ) (framed : List ℕ) (frames : List (List ℕ)) (old new : Told)
        → StoreCalls tail framed frames result old new → Counted old new }
    ensures beyond { (tail : ℕ) (framed : List ℕ) (frames : List (List ℕ)) (old new : Told) → StoreCalls tail framed frames (Ok tt) old new
        → (new.calls ≡ old.calls + (4 + length frames)) × ((old.armed ≡ 0) ⊎ (4 + length frames < old.armed)) }
    ensures table { (result : Result (Unit {0}) ForwardFault) (before after : ℕ) (framed payload : List ℕ) (payloads frames : List (List ℕ)) (old new : Told)
        → StoreCalls before framed frames result old new → StoresTo result before after payloads payload frames old new → old.stops < new.stops
        → (image : List ℕ) → LeavesImage new.log image → IsStoreStopped old.armed payloads payload frames old new image }
{}
