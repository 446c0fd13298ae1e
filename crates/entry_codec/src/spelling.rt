// Entries as bytes (docs/FORMATS.md, "Entries").
ghost use Rattle.std.specs.Prelude.{◌≡◌, ◌++◌, OnOk, OnErr, length, ◌≤◌};
ghost use Rattle.entry_codec.specs.Spelling.{Keeps, entry_bytes, head_bytes, verdict_bytes, imad_bytes, body_bytes};
ghost use Rattle.host_ledger.specs.Ranges.{IsBody, IsEntry};

use faim_base::{Bytes, Head, Imad, NoMemory, Verdict};
use host_ledger::Entry;

/// Appends the spelling of an entry, or changes nothing. The entry is one that has a spelling: a refusal that is
/// kept, a body of 1 to 4,234 bytes, a code of text bytes, and a type and subtype of at most 99.
pub fn spell_entry(value: &Entry, out: &mut Vec<u8>) -> Result<(), NoMemory>
    requires { IsEntry value.now }
    ensures ok { OnOk result (out.new.items ≡ out.old.items ++ entry_bytes value.now) }
    ensures err { OnErr result (out.new.items ≡ out.old.items) }
{
    let before = out.len();
    match put_entry(value, out) {
        Ok(()) => Ok(()),
        Err(fault) => {
            out.truncate(before);
            Err(fault)
        }
    }
}

// Appends the spelling; what stood there before stays in front.
fn put_entry(value: &Entry, out: &mut Vec<u8>) -> Result<(), NoMemory>
    requires { IsEntry value.now }
    ensures ok { OnOk result (out.new.items ≡ out.old.items ++ entry_bytes value.now) }
    ensures err { OnErr result (Keeps out.old.items out.new.items) }
{
    match value {
        Entry::Posted {
            head,
            body,
            resent,
            moment,
            verdict,
        } => {
            out.push(b'P')?;
            put_head(head, out)?;
            out.push(u8::from(*resent))?;
            out.extend_from_slice(&moment.get().to_be_bytes())?;
            put_verdict(verdict, out)?;
            put_body(body, out)?;
        }
        Entry::Roll { moment, date } => {
            out.push(b'R')?;
            out.extend_from_slice(&moment.get().to_be_bytes())?;
            out.extend_from_slice(&date.get().to_be_bytes())?;
        }
    }
    Ok(())
}

fn put_head(head: &Head, out: &mut Vec<u8>) -> Result<(), NoMemory>
    ensures ok { OnOk result (out.new.items ≡ out.old.items ++ head_bytes head.now) }
    ensures err { OnErr result (Keeps out.old.items out.new.items) }
{
    put_imad(&head.imad, out)?;
    out.extend_from_slice(&head.sender.bytes())?;
    out.extend_from_slice(&head.receiver.bytes())?;
    out.extend_from_slice(&head.code)?;
    out.push(head.kind)?;
    out.push(head.sub)?;
    out.extend_from_slice(&head.amount.get().to_be_bytes())?;
    Ok(())
}

fn put_imad(imad: &Imad, out: &mut Vec<u8>) -> Result<(), NoMemory>
    ensures ok { OnOk result (out.new.items ≡ out.old.items ++ imad_bytes imad.now) }
    ensures err { OnErr result (Keeps out.old.items out.new.items) }
{
    out.extend_from_slice(&imad.date.get().to_be_bytes())?;
    out.extend_from_slice(&imad.source.bytes())?;
    out.extend_from_slice(&imad.seq.get().to_be_bytes())?;
    Ok(())
}

pub(crate) fn put_verdict(verdict: &Verdict, out: &mut Vec<u8>) -> Result<(), NoMemory>
    ensures ok { OnOk result (out.new.items ≡ out.old.items ++ verdict_bytes verdict.now) }
    ensures err { OnErr result (Keeps out.old.items out.new.items) }
{
    match verdict {
        Verdict::Taken { dest, seq } => {
            out.push(1)?;
            out.extend_from_slice(&dest.bytes())?;
            out.extend_from_slice(&seq.get().to_be_bytes())?;
        }
        Verdict::Refused(reject) => {
            out.push(2)?;
            out.push(reject.category)?;
            out.extend_from_slice(&reject.code.to_be_bytes())?;
        }
    }
    Ok(())
}

// Appends the length of a text, which has 1 to 4,234 bytes, and the text.
pub(crate) fn put_body(body: &Bytes, out: &mut Vec<u8>) -> Result<(), NoMemory>
    requires { IsBody body.now }
    ensures ok { OnOk result (out.new.items ≡ out.old.items ++ body_bytes body.now) }
    ensures err { OnErr result (Keeps out.old.items out.new.items) }
{
    let body = body.as_slice();
    out.extend_from_slice(&(body.len() as u16).to_be_bytes())?;
    out.extend_from_slice(body)?;
    Ok(())
}
