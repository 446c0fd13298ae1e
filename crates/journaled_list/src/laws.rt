// What an image says of the list that it stands for.
ghost use Rattle.std.specs.Prelude.{◌≡◌, ◌⊎◌, ◌≤◌, ◌<◌, ◌++◌, ◌∷◌, [], ℕ, List, length};
ghost use Rattle.std.specs.List.{All};
ghost use Rattle.torn_journal.specs.Journal.{HasHeader};
ghost use Rattle.journaled_list.specs.Rules.{Listed, IsLawful};
ghost use Rattle.journaled_list.specs.Payloads.{IsGroup, IsListDamage, MayCome, StandFor, Stands, with_group};

use crate::Journaled;
use crate::reading::Loading;
use torn_journal::other_images_are_damaged;

/// An image stands for one list at most, with one count of entries in its last record. The list is lawful, and has at
/// least so many entries.
pub fn images_stand_for_one_list<L: Journaled>()
    ensures once { (image : List ℕ) (a b : Listed L.Opening L.Entry) (r m : ℕ) → Stands L.rules image a r → Stands L.rules image b m → (a ≡ b) × (r ≡ m) }
    ensures lawful { (image : List ℕ) (list : Listed L.Opening L.Entry) (r : ℕ) → Stands L.rules image list r → IsLawful L.rules list }
    ensures last { (image : List ℕ) (list : Listed L.Opening L.Entry) (r : ℕ) → Stands L.rules image list r → r ≤ length list.entries }
{}

/// An image that stands for a list has the header, and is damaged nowhere. A damaged one has it too, and is damaged at one
/// place. Where it can be decided which payloads may come, bytes with the header stand for a list, or are damaged.
pub fn lists_are_damaged_once<L: Journaled>()
    ensures whole { (image : List ℕ) (list : Listed L.Opening L.Entry) (r place : ℕ) → Stands L.rules image list r → ¬ (IsListDamage L.rules image place) }
    ensures header { (image : List ℕ) (list : Listed L.Opening L.Entry) (r : ℕ) → Stands L.rules image list r → HasHeader image }
    ensures damaged_header { (image : List ℕ) (place : ℕ) → IsListDamage L.rules image place → HasHeader image }
    ensures one_place { (image : List ℕ) (a b : ℕ) → IsListDamage L.rules image a → IsListDamage L.rules image b → a ≡ b }
    ensures either { ((payloads : List (List ℕ)) (payload : List ℕ) → MayCome L.rules payloads payload ⊎ ¬ (MayCome L.rules payloads payload))
        → (image : List ℕ) → All (λ byte. byte < 256) image → HasHeader image
        → ((list : Listed L.Opening L.Entry) × (r : ℕ) × Stands L.rules image list r) ⊎ ((place : ℕ) × IsListDamage L.rules image place) }
{
    other_images_are_damaged::<Loading<L>>();
}

/// Payloads go on by groups that may come next, and by nothing else.
pub fn payloads_go_on<L: Journaled>()
    ensures by_group { (payloads : List (List ℕ)) (payload : List ℕ) (list : Listed L.Opening L.Entry) (r : ℕ) (group : List L.Entry)
        → StandFor L.rules payloads list r → IsGroup L.rules list.opening list.entries group payload
        → StandFor L.rules (payloads ++ payload ∷ []) (with_group list group) (length group) }
    ensures only { (payloads : List (List ℕ)) (payload : List ℕ) (list : Listed L.Opening L.Entry) (r : ℕ) → StandFor L.rules payloads list r → MayCome L.rules payloads payload
        → (group : List L.Entry) × IsGroup L.rules list.opening list.entries group payload }
    ensures opening { (payload : List ℕ) → MayCome L.rules [] payload → (o : L.Opening) × L.rules.IsOpening o × (payload ≡ L.rules.opening_bytes o) }
{}
