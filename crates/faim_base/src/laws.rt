// Laws of texts: functions whose contracts say that a value and its text determine each other.
ghost use Rattle.std.specs.Prelude.{◌≡◌, ℕ, List, length, Some, Ok};
ghost use Rattle.faim_base.specs.Calendar.{date_text, read_date};
ghost use Rattle.faim_base.specs.Ids.{imad_text, read_imad, omad_text, read_omad, position_text, read_position};
ghost use Rattle.faim_base.specs.Numbers.{IsDay};
ghost use Rattle.faim_base.specs.Ranges.{IsImad, IsOmad, IsPosition};
ghost use Rattle.faim_base.specs.declared.ids.Imad.{Imad};
ghost use Rattle.faim_base.specs.declared.ids.Omad.{Omad};
ghost use Rattle.faim_base.specs.declared.ids.OutPos.{OutPos};

/// Each day, 0 to 2,921,939, has a text of eight bytes, which reads as that day.
pub fn date_reads_back()
    ensures length { (n : ℕ) → length (date_text n) ≡ 8 }
    ensures value { (n : ℕ) → IsDay n → read_date (date_text n) ≡ Some n }
{}

/// Eight bytes that read as a day are the text of that day, which is one of 0 to 2,921,939.
pub fn date_writes_back()
    ensures { (text : List ℕ) (n : ℕ) → length text ≡ 8 → read_date text ≡ Some n → (date_text n ≡ text) × IsDay n }
{}

/// Each IMAD has a text of 22 bytes, which reads as that IMAD.
pub fn imad_reads_back()
    ensures { (i : Imad) → IsImad i → (length (imad_text i) ≡ 22) × (read_imad (imad_text i) ≡ Ok i) }
{}

/// 22 bytes that read as an IMAD are its text, and each of its parts is a value of its type.
pub fn imad_writes_back()
    ensures { (text : List ℕ) (i : Imad) → length text ≡ 22 → read_imad text ≡ Ok i → (imad_text i ≡ text) × IsImad i }
{}

/// Each position has a text of 14 bytes, which reads as that position.
pub fn position_reads_back()
    ensures { (p : OutPos) → IsPosition p → (length (position_text p) ≡ 14) × (read_position (position_text p) ≡ Some p) }
{}

/// 14 bytes that read as a position are its text, and each of its parts is a value of its type.
pub fn position_writes_back()
    ensures { (text : List ℕ) (p : OutPos) → length text ≡ 14 → read_position text ≡ Some p → (position_text p ≡ text) × IsPosition p }
{}

/// Each OMAD has a text of 34 bytes, which reads as that OMAD.
pub fn omad_reads_back()
    ensures { (o : Omad) → IsOmad o → (length (omad_text o) ≡ 34) × (read_omad (omad_text o) ≡ Ok o) }
{}

/// 34 bytes that read as an OMAD are its text, and each of its parts is a value of its type.
pub fn omad_writes_back()
    ensures { (text : List ℕ) (o : Omad) → length text ≡ 34 → read_omad text ≡ Ok o → (omad_text o ≡ text) × IsOmad o }
{}
