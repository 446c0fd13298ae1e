// A bank's opening and its entries from bytes (docs/FORMATS.md, "Entries").
ghost use Rattle.std.specs.Prelude.{◌≡◌, ◌≤◌, ◌++◌, ℕ, List, take, length, IfOk, IfErr, MatchResult, Ok};
ghost use Rattle.bank_books.specs.declared.entries.BankEntry.{BankEntry as Value};
ghost use Rattle.bank_books.specs.declared.entries.BankOpening.{BankOpening as Sound};
ghost use Rattle.bank_books.specs.Openings.{IsBankOpening};
ghost use Rattle.entry_codec.specs.BankRanges.{IsEntryOf};
ghost use Rattle.entry_codec.specs.BankReading.{bank_fields_at, bank_opening_at, position_at, numbered_at, next_at, drafted_at, answered_at, received_at, bank_entry_at};
ghost use Rattle.entry_codec.specs.BankSpelling.{bank_opening_bytes, bank_entry_bytes};
ghost use Rattle.entry_codec.specs.Reading.{Gives};

use crate::CodecFault;
use crate::parts::Front;
use bank_books::{BankEntry, BankOpening};
use faim_base::{CycleDate, Endpoint, Imad, OutPos};
use std::alloc::Global;

impl<'a> Front<'a> {
    #[tactic(auto, unfolding(crate::specs::BankReading::bank_fields_at))]
    fn bank_fields(&mut self) -> Result<BankOpening, CodecFault>
        ensures gives { Gives result (bank_fields_at self.old.rest.now) self.new.rest.now }
        ensures only { IfErr result (λ fault. fault ≡ CodecFault.Damaged) }
    {
        Ok(BankOpening {
            endpoint: self.endpoint()?,
            env: self.byte()?,
            date: self.date()?,
        })
    }

    #[tactic(auto, unfolding(crate::specs::BankReading::bank_opening_at))]
    fn bank_opening(&mut self) -> Result<BankOpening, CodecFault>
        ensures gives { Gives result (bank_opening_at self.old.rest.now) self.new.rest.now }
        ensures only { IfErr result (λ fault. fault ≡ CodecFault.Damaged) }
    {
        if self.byte()? != b'B' {
            return Err(CodecFault::Damaged);
        }
        self.bank_fields()
    }

    #[tactic(auto, unfolding(crate::specs::BankReading::position_at))]
    fn position(&mut self) -> Result<OutPos, CodecFault>
        ensures { Gives result (position_at self.old.rest.now) self.new.rest.now }
    {
        Ok(OutPos {
            date: self.date()?,
            seq: self.seq()?,
        })
    }

    #[tactic(auto, unfolding(crate::specs::BankReading::numbered_at))]
    fn numbered(&mut self, source: Endpoint) -> Result<Imad, CodecFault>
        ensures { Gives result (numbered_at source self.old.rest.now) self.new.rest.now }
    {
        let OutPos { date, seq } = self.position()?;
        Ok(Imad { date, source, seq })
    }

    #[tactic(auto, unfolding(crate::specs::BankReading::next_at))]
    fn next_date(&mut self) -> Result<Option<CycleDate>, CodecFault>
        ensures { Gives result (next_at self.old.rest.now) self.new.rest.now }
    {
        if self.flag()? {
            Ok(Some(self.date()?))
        } else {
            Ok(None)
        }
    }

    #[tactic(auto, unfolding(crate::specs::BankReading::drafted_at))]
    fn drafted(&mut self, alloc: Global, source: Endpoint) -> Result<BankEntry, CodecFault>
        ensures { Gives result (drafted_at source self.old.rest.now) self.new.rest.now }
    {
        Ok(BankEntry::Drafted {
            imad: self.numbered(source)?,
            text: self.body(alloc)?,
        })
    }

    #[tactic(auto, unfolding(crate::specs::BankReading::answered_at))]
    fn answered(&mut self, source: Endpoint) -> Result<BankEntry, CodecFault>
        ensures { Gives result (answered_at source self.old.rest.now) self.new.rest.now }
    {
        Ok(BankEntry::Answered {
            imad: self.numbered(source)?,
            verdict: self.verdict()?,
        })
    }

    #[tactic(auto, unfolding(crate::specs::BankReading::received_at))]
    fn received(&mut self, alloc: Global) -> Result<BankEntry, CodecFault>
        ensures { Gives result (received_at self.old.rest.now) self.new.rest.now }
    {
        let at = self.position()?;
        let next = self.next_date()?;
        let text = self.body(alloc)?;
        Ok(BankEntry::Received { at, text, next })
    }

    #[tactic(auto, unfolding(crate::specs::BankReading::bank_entry_at))]
    fn bank_entry(&mut self, alloc: Global, source: Endpoint) -> Result<BankEntry, CodecFault>
        ensures { Gives result (bank_entry_at source self.old.rest.now) self.new.rest.now }
    {
        match self.byte()? {
            b'D' => self.drafted(alloc, source),
            b'A' => self.answered(source),
            b'I' => self.received(alloc),
            _ => Err(CodecFault::Damaged),
        }
    }
}

/// Reads the opening that the bytes spell, which is a sound one. It takes no memory: the one fault is `Damaged`, which comes
/// exactly where they spell none, as bytes are missing or left over, a field is outside its range, or
/// `BankOpening::is_sound` says no.
pub fn read_opening(bytes: &[u8]) -> Result<BankOpening, CodecFault>
    // What is read is sound, and it is spelled so.
    ensures found { IfOk result (λ read. IsBankOpening read × (bytes.now ≡ bank_opening_bytes read)) }
    // What is sound and spelled so is read.
    ensures only { (opening : Sound) → IsBankOpening opening → bytes.now ≡ bank_opening_bytes opening → result ≡ Ok opening }
    // All other bytes are damaged.
    ensures damaged { IfErr result (λ fault. fault ≡ CodecFault.Damaged) }
{
    let mut front = Front { rest: bytes };
    let opening = match front.bank_opening() {
        Ok(opening) => opening,
        Err(fault) => return Err(fault),
    };
    if !front.rest.is_empty() {
        return Err(CodecFault::Damaged);
    }
    let sound = opening.is_sound();
    if !sound {
        return Err(CodecFault::Damaged);
    }
    Ok(opening)
}

/// Reads an entry of the bank at `source` from the front, and answers how many bytes its spelling has. `source` becomes the
/// source of the entry's IMAD, where it has one. `Damaged` comes exactly where no spelling stands at the front.
pub fn read_bank_entry(
    alloc: Global,
    bytes: &[u8],
    source: Endpoint,
) -> Result<(BankEntry, usize), CodecFault>
    // What is read is spelled so, and is of this source.
    ensures found { IfOk result (λ read. IsEntryOf source read.0 × (take read.1 bytes.now ≡ bank_entry_bytes read.0) × (read.1 ≤ length bytes.now)) }
    // What is of this source and spelled so is read, whatever stands after it, unless memory runs out.
    ensures only { (entry : Value) (rest : List ℕ) → IsEntryOf source entry → bytes.now ≡ bank_entry_bytes entry ++ rest
        → MatchResult result (λ read. (read.0 ≡ entry) × (read.1 ≡ length (bank_entry_bytes entry))) (λ fault. fault ≡ CodecFault.NoMemory) }
{
    // That the source is a value of its type is told here, and needs no test.
    let _ = source.bytes();
    let mut front = Front { rest: bytes };
    match front.bank_entry(alloc, source) {
        Ok(entry) => Ok((entry, bytes.len() - front.rest.len())),
        Err(fault) => Err(fault),
    }
}

/// No spelling of an opening begins another one, so a spelling has one opening.
pub fn one_opening()
    ensures { (a b : Sound) (x y : List ℕ) → IsBankOpening a → IsBankOpening b → bank_opening_bytes a ++ x ≡ bank_opening_bytes b ++ y → (a ≡ b) × (x ≡ y) }
{}

/// Among the entries of one bank no spelling begins another one, so entries that are joined are read one way.
pub fn one_bank_reading()
    ensures { (source : List ℕ) (a b : Value) (x y : List ℕ) → IsEntryOf source a → IsEntryOf source b → bank_entry_bytes a ++ x ≡ bank_entry_bytes b ++ y → (a ≡ b) × (x ≡ y) }
{}
