// What the tables of edits and of texts say together. Each call does nothing: its contract is the law.
ghost use Rattle.std.specs.Prelude.{◌≡◌, ◌≤◌, ◌==◌, ◌||◌, ◌&&◌, ◌++◌, ℕ, List, [], ◌∷◌, length, true, false, Some, is_some, map, filter, slice_get, IsTrue, if◌then◌else◌};
ghost use Rattle.std.specs.List.{list_all};
ghost use Rattle.faim_base.specs.Text.{is_text_byte};
ghost use Rattle.faim_base.specs.Refusals.{is_recorded, is_edit_number};
ghost use Rattle.faim_base.specs.declared.judgement.Reject.{Reject};
ghost use Rattle.faim_tags.specs.Layouts.{ascends};
ghost use Rattle.faim_tags.specs.Reading.{is_among};
ghost use Rattle.faim_message.specs.Spelling.{Content};
ghost use Rattle.faim_message.specs.Edits.{first_failed};
ghost use Rattle.faim_edits.specs.Failures.{IsEnv, Fails, failed_edits, table_numbers};
ghost use Rattle.faim_edits.specs.Texts.{listed, text_of, is_edit, is_turned_away};

/// The numbers of the edits ascend, so that none comes twice. With E161 and E162 they are the numbers of `EditNo`, and in
/// this order the refusals that have a text begin with them (docs/FORMATS.md, "Edits").
pub fn edits_are_listed()
    ensures ascending { (env : ℕ) → ascends (table_numbers env) ≡ true }
    ensures texts { (env : ℕ) → map (λ l. l.refusal.code) (filter (λ l. is_edit l.refusal) listed) ≡ table_numbers env ++ 161 ∷ 162 ∷ [] }
    ensures numbers { (env n : ℕ) → is_edit_number n ≡ is_among (table_numbers env ++ 161 ∷ 162 ∷ []) n }
{}

/// The edits that `first_failed` gives are E101 to E117 and no others. Each of these but E104 is the only one that some
/// submission fails; who fails E104 fails E105 too. Some submission fails none (docs/FORMATS.md, "Edits").
pub fn each_edit_can_fail()
    ensures range { (env n : ℕ) (m : Content) → first_failed env m ≡ Some n → (101 ≤ n) × (n ≤ 117) }
    ensures first { (env : ℕ) (m : Content) → first_failed env m ≡ slice_get (failed_edits env m) 0 }
    ensures none { (env : ℕ) → IsEnv env → Fails env [] }
    ensures alone { (env n : ℕ) → IsEnv env → 101 ≤ n → n ≤ 117 → Fails env (if n == 104 then 104 ∷ 105 ∷ [] else n ∷ []) }
    ensures code { (env : ℕ) (m : Content) → is_among (failed_edits env m) 104 ≡ true → is_among (failed_edits env m) 105 ≡ true }
{}

/// The text of a listed refusal is what its row says: no refusal is listed twice. It has 1 to 35 text bytes
/// (docs/FORMATS.md, "Refusals").
pub fn texts_fit()
    ensures own { map (λ l. text_of l.refusal) listed ≡ map (λ l. Some l.text) listed }
    ensures size { (r : Reject) (text : List ℕ) → text_of r ≡ Some text → (1 ≤ length text) × (length text ≤ 35) }
    ensures bytes { (r : Reject) (text : List ℕ) → text_of r ≡ Some text → IsTrue (list_all is_text_byte text) }
{}

/// The refusals that are listed are those that an entry keeps and those of a submission that is turned away, E001, E002,
/// H102 and X201; no refusal is both (docs/FORMATS.md, "Refusals").
pub fn recorded_are_listed()
    ensures listed { (r : Reject) → is_some (text_of r) ≡ is_recorded r || is_turned_away r }
    ensures apart { (r : Reject) → is_recorded r && is_turned_away r ≡ false }
{}
