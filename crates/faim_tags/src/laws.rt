// What the definitions of tags say together. Each call does nothing: its contract is the law.
ghost use Rattle.std.specs.Prelude.{◌≡◌, ◌+◌, ◌<◌, ◌≤◌, ◌&&◌, ◌≢◌, ◌⊎◌, ℕ, List, [], ◌∷◌, length, true, false, map, sum, is_some, IsTrue};
ghost use Rattle.std.specs.List.{list_all, list_any};
ghost use Rattle.faim_base.specs.declared.judgement.Refused.{Refused};
ghost use Rattle.faim_base.specs.Limits.{longest_message};
ghost use Rattle.faim_base.specs.Tags.{is_tag_number, tag_numbers};
ghost use Rattle.faim_tags.specs.Layouts.{rows, longest, ascends};
ghost use Rattle.faim_tags.specs.Spelling.{Tag, SpellsTag, is_empty};
ghost use Rattle.faim_tags.specs.Reading.{FoundTag, BeginsTag, RefusesTag};
ghost use Rattle.faim_tags.specs.Steps.{InNumber, steps};

/// One tag has one spelling, and one spelling has one tag.
pub fn one_spelling()
    ensures tag { (v w : Tag) (bytes : List ℕ) → SpellsTag v bytes → SpellsTag w bytes → v ≡ w }
    ensures bytes { (v : Tag) (a b : List ℕ) → SpellsTag v a → SpellsTag v b → a ≡ b }
{}

/// At the front of bytes stands one tag at most.
pub fn one_tag_in_front()
    ensures { (numbers bytes : List ℕ) (v w : Tag) (n m : ℕ)
        → FoundTag numbers bytes v n → FoundTag numbers bytes w m → (v ≡ w) × (n ≡ m) }
{}

/// At the front of bytes stands a tag that has one of the numbers, or they are refused for another reason than want of
/// memory.
pub fn each_front_is_judged()
    ensures { (numbers bytes : List ℕ) → 0 < length numbers → list_all is_tag_number numbers ≡ true
        → ((v : Tag) × (n : ℕ) × FoundTag numbers bytes v n) ⊎ ((e : Refused) × RefusesTag numbers bytes e × (e ≢ Refused.NoMemory)) }
{}

/// Bytes are refused for one reason, beside want of memory, and where a tag stands in front for want of memory alone.
pub fn one_refusal_in_front()
    ensures refusal { (numbers bytes : List ℕ) (a b : Refused) → RefusesTag numbers bytes a → RefusesTag numbers bytes b
        → (a ≡ b) ⊎ ((a ≡ Refused.NoMemory) ⊎ (b ≡ Refused.NoMemory)) }
    ensures found { (numbers bytes : List ℕ) (v : Tag) (n : ℕ) (e : Refused)
        → FoundTag numbers bytes v n → RefusesTag numbers bytes e → e ≡ Refused.NoMemory }
{}

/// Bytes begin a tag exactly where reading byte by byte doesn't stop in them.
pub fn steps_tell_what_begins()
    ensures read { (numbers bytes : List ℕ) → 0 < length numbers → list_all is_tag_number numbers ≡ true
        → IsTrue (is_some (steps numbers (InNumber []) bytes)) → BeginsTag numbers bytes }
    ensures begun { (numbers bytes : List ℕ)
        → BeginsTag numbers bytes → IsTrue (is_some (steps numbers (InNumber []) bytes)) }
{}

/// The table has the numbers of the 34 tags, in ascending order. Each row has an element, and the longest spellings with
/// two bytes after each have the bytes of the longest message together.
pub fn table_is_sound()
    ensures numbers { map (λ r. r.number) rows ≡ tag_numbers }
    ensures count { length rows ≡ 34 }
    ensures ascending { ascends tag_numbers ≡ true }
    ensures elements { list_any (λ r. is_empty r.elements && is_empty r.most) rows ≡ false }
    ensures longest { sum (map (λ r. longest r + 2) rows) ≡ longest_message }
{}
