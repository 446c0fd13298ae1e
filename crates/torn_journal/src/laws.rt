// What follows from the form of a journal and from the calls of an append, for the layers above.
ghost use Rattle.std.specs.Prelude.{◌≡◌, ◌⊎◌, ◌+◌, ◌<◌, ◌≤◌, ◌++◌, ◌∷◌, [], ℕ, List, length, Err};
ghost use Rattle.std.specs.List.{All};
ghost use Rattle.site_core.specs.Log.{reads, NothingPending};
ghost use Rattle.site_core.specs.Told.{Told};
ghost use Rattle.torn_journal.specs.Append.{AppendCalls, IsBeforeOrAfter, IsStoppedAt, MayStand};
ghost use Rattle.torn_journal.specs.Damage.{IsDamaged, IsSound};
ghost use Rattle.torn_journal.specs.Journal.{HasHeader, IsJournal, IsPayload, framed_of, tail_of};
ghost use Rattle.torn_journal.specs.Limits.{greatest_tail};
ghost use Rattle.torn_journal.specs.declared.faults.AppendFault.TheVariants as append_faults;

use crate::Visit;

/// An image is a journal of one list of payloads at most.
pub fn one_list()
    ensures { (image : List ℕ) (a b : List (List ℕ)) → IsJournal image a → IsJournal image b → a ≡ b }
{}

/// A journal has the header, and one of payloads that follow one another is damaged at no place.
pub fn journals_are_sound<V: Visit>()
    ensures header { (image : List ℕ) (payloads : List (List ℕ)) → IsJournal image payloads → HasHeader image }
    ensures undamaged { (image : List ℕ) (place : ℕ) → IsSound V.follows image → ¬ (IsDamaged V.follows image place) }
{}

/// A damaged image has the header, and is damaged at one place.
pub fn one_damage<V: Visit>()
    ensures header { (image : List ℕ) (place : ℕ) → IsDamaged V.follows image place → HasHeader image }
    ensures place { (image : List ℕ) (a b : ℕ) → IsDamaged V.follows image a → IsDamaged V.follows image b → a ≡ b }
{}

/// Where it can be decided which payloads follow, bytes with the header are a journal of such payloads, or damaged.
pub fn other_images_are_damaged<V: Visit>()
    ensures { ((payloads : List (List ℕ)) (payload : List ℕ) → V.follows payloads payload ⊎ ¬ (V.follows payloads payload))
        → (image : List ℕ) → All (λ byte. byte < 256) image → HasHeader image
        → IsSound V.follows image ⊎ ((place : ℕ) × IsDamaged V.follows image place) }
{}

/// A stop that an append reaches: it breaks off the call that it was armed for, one of the four. At the first or second
/// the payload is lost. Where the write of the open gate, the third, has left its trace, either list may stand.
pub fn stopped_appends()
    ensures call { (tail : ℕ) (framed : List ℕ) (old new : Told) → AppendCalls tail framed (Err append_faults.SiteFault) old new → old.stops < new.stops → IsStoppedAt old.armed tail framed old new }
    ensures lost { (call tail : ℕ) (framed : List ℕ) (old new : Told) → IsStoppedAt call tail framed old new → call ≤ 2
        → (payloads : List (List ℕ)) (payload image : List ℕ) → IsBeforeOrAfter payloads payload old new image → IsJournal image payloads }
    ensures either { (call tail : ℕ) (framed : List ℕ) (old new : Told) → (stopped : IsStoppedAt call tail framed old new) → 3 ≤ length stopped.acts
        → (payloads : List (List ℕ)) (payload : List ℕ) → NothingPending old.log → IsJournal (reads old.log) payloads → tail ≡ tail_of payloads
        → framed ≡ framed_of payload → IsPayload payload → tail + length framed ≤ greatest_tail
        → (3 ≤ call) × MayStand new.log payloads × MayStand new.log (payloads ++ payload ∷ []) }
{}
