// A bank's opening and its entries as bytes (docs/FORMATS.md, "Entries").
ghost use Rattle.std.specs.Prelude.{◌≡◌, ◌++◌, OnOk, OnErr};
ghost use Rattle.bank_books.specs.Openings.{IsBankOpening};
ghost use Rattle.entry_codec.specs.BankRanges.{IsBankEntry};
ghost use Rattle.entry_codec.specs.BankSpelling.{bank_opening_bytes, bank_entry_bytes, position_bytes, next_bytes};
ghost use Rattle.entry_codec.specs.Spelling.{Keeps};

use crate::spelling::{put_body, put_verdict};
use bank_books::{BankEntry, BankOpening};
use faim_base::{CycleDate, NoMemory, Seq};

/// Appends the spelling of a bank's opening, or changes nothing. The opening is sound: `BankOpening::is_sound` says so.
pub fn spell_opening(value: &BankOpening, out: &mut Vec<u8>) -> Result<(), NoMemory>
    requires { IsBankOpening value.now }
    ensures ok { OnOk result (out.new.items ≡ out.old.items ++ bank_opening_bytes value.now) }
    ensures err { OnErr result (out.new.items ≡ out.old.items) }
{
    let before = out.len();
    match put_opening(value, out) {
        Ok(()) => Ok(()),
        Err(fault) => {
            out.truncate(before);
            Err(fault)
        }
    }
}

// Appends the spelling; what stood there before stays in front.
fn put_opening(value: &BankOpening, out: &mut Vec<u8>) -> Result<(), NoMemory>
    requires { IsBankOpening value.now }
    ensures ok { OnOk result (out.new.items ≡ out.old.items ++ bank_opening_bytes value.now) }
    ensures err { OnErr result (Keeps out.old.items out.new.items) }
{
    out.push(b'B')?;
    out.extend_from_slice(&value.endpoint.bytes())?;
    out.push(value.env)?;
    out.extend_from_slice(&value.date.get().to_be_bytes())?;
    Ok(())
}

/// Appends the spelling of a bank's entry, or changes nothing. The entry is one that has a spelling: a text of 1 to 4,234
/// bytes, and a refusal that is kept. The source of its IMAD isn't spelled.
pub fn spell_bank_entry(value: &BankEntry, out: &mut Vec<u8>) -> Result<(), NoMemory>
    requires { IsBankEntry value.now }
    ensures ok { OnOk result (out.new.items ≡ out.old.items ++ bank_entry_bytes value.now) }
    ensures err { OnErr result (out.new.items ≡ out.old.items) }
{
    let before = out.len();
    match put_bank_entry(value, out) {
        Ok(()) => Ok(()),
        Err(fault) => {
            out.truncate(before);
            Err(fault)
        }
    }
}

// Appends the spelling; what stood there before stays in front.
fn put_bank_entry(value: &BankEntry, out: &mut Vec<u8>) -> Result<(), NoMemory>
    requires { IsBankEntry value.now }
    ensures ok { OnOk result (out.new.items ≡ out.old.items ++ bank_entry_bytes value.now) }
    ensures err { OnErr result (Keeps out.old.items out.new.items) }
{
    match value {
        BankEntry::Drafted { imad, text } => {
            out.push(b'D')?;
            put_position(imad.date, imad.seq, out)?;
            put_body(text, out)?;
        }
        BankEntry::Answered { imad, verdict } => {
            out.push(b'A')?;
            put_position(imad.date, imad.seq, out)?;
            put_verdict(verdict, out)?;
        }
        BankEntry::Received { at, text, next } => {
            out.push(b'I')?;
            put_position(at.date, at.seq, out)?;
            put_next(next, out)?;
            put_body(text, out)?;
        }
    }
    Ok(())
}

fn put_position(date: CycleDate, seq: Seq, out: &mut Vec<u8>) -> Result<(), NoMemory>
    ensures ok { OnOk result (out.new.items ≡ out.old.items ++ position_bytes (record { date = date; seq = seq })) }
    ensures err { OnErr result (Keeps out.old.items out.new.items) }
{
    out.extend_from_slice(&date.get().to_be_bytes())?;
    out.extend_from_slice(&seq.get().to_be_bytes())?;
    Ok(())
}

fn put_next(next: &Option<CycleDate>, out: &mut Vec<u8>) -> Result<(), NoMemory>
    ensures ok { OnOk result (out.new.items ≡ out.old.items ++ next_bytes next.now) }
    ensures err { OnErr result (Keeps out.old.items out.new.items) }
{
    match next {
        Some(date) => {
            out.push(1)?;
            out.extend_from_slice(&date.get().to_be_bytes())?;
        }
        None => out.push(0)?,
    }
    Ok(())
}
