// Entries from bytes (docs/FORMATS.md, "Entries").
ghost use Rattle.std.specs.Prelude.{◌≡◌, ◌≤◌, ◌++◌, ℕ, List, take, length, IfOk, MatchResult};
ghost use Rattle.host_ledger.specs.declared.entries.Entry.{Entry as Value};
ghost use Rattle.entry_codec.specs.Spelling.{entry_bytes};
ghost use Rattle.host_ledger.specs.Ranges.{IsEntry};
ghost use Rattle.entry_codec.specs.Reading.{Gives, imad_at, head_at, taken_at, refused_at, verdict_at, body_at, posted_at, roll_at, entry_at};

use crate::CodecFault;
use crate::parts::Front;
use faim_base::{Bytes, Head, Imad, LONGEST_MESSAGE, Reject, Verdict};
use host_ledger::{Entry, is_recorded};
use std::alloc::Global;

impl<'a> Front<'a> {
    #[tactic(auto, unfolding(crate::specs::Reading::imad_at))]
    fn imad(&mut self) -> Result<Imad, CodecFault>
        ensures { Gives result (imad_at self.old.rest.now) self.new.rest.now }
    {
        Ok(Imad {
            date: self.date()?,
            source: self.endpoint()?,
            seq: self.seq()?,
        })
    }

    #[tactic(auto, unfolding(crate::specs::Reading::head_at))]
    fn head(&mut self) -> Result<Head, CodecFault>
        ensures { Gives result (head_at self.old.rest.now) self.new.rest.now }
    {
        Ok(Head {
            imad: self.imad()?,
            sender: self.aba()?,
            receiver: self.aba()?,
            code: self.code()?,
            kind: self.kind()?,
            sub: self.kind()?,
            amount: self.cents()?,
        })
    }

    #[tactic(auto, unfolding(crate::specs::Reading::taken_at))]
    fn taken(&mut self) -> Result<Verdict, CodecFault>
        ensures { Gives result (taken_at self.old.rest.now) self.new.rest.now }
    {
        Ok(Verdict::Taken {
            dest: self.endpoint()?,
            seq: self.seq()?,
        })
    }

    #[tactic(auto, unfolding(crate::specs::Reading::refused_at))]
    fn refused(&mut self) -> Result<Verdict, CodecFault>
        ensures { Gives result (refused_at self.old.rest.now) self.new.rest.now }
    {
        let reject = Reject {
            category: self.byte()?,
            code: self.u16()?,
        };
        if !is_recorded(reject) {
            return Err(CodecFault::Damaged);
        }
        Ok(Verdict::Refused(reject))
    }

    #[tactic(auto, unfolding(crate::specs::Reading::verdict_at))]
    pub(crate) fn verdict(&mut self) -> Result<Verdict, CodecFault>
        ensures { Gives result (verdict_at self.old.rest.now) self.new.rest.now }
    {
        match self.byte()? {
            1 => self.taken(),
            2 => self.refused(),
            _ => Err(CodecFault::Damaged),
        }
    }

    #[tactic(auto, unfolding(crate::specs::Reading::body_at))]
    pub(crate) fn body(&mut self, alloc: Global) -> Result<Bytes, CodecFault>
        ensures { Gives result (body_at self.old.rest.now) self.new.rest.now }
    {
        let length = usize::from(self.u16()?);
        if length == 0 || length > LONGEST_MESSAGE {
            return Err(CodecFault::Damaged);
        }
        let mut body = Bytes::new(alloc);
        body.extend(self.piece(length)?)?;
        Ok(body)
    }

    #[tactic(auto, unfolding(crate::specs::Reading::posted_at))]
    fn posted(&mut self, alloc: Global) -> Result<Entry, CodecFault>
        ensures { Gives result (posted_at self.old.rest.now) self.new.rest.now }
    {
        let head = self.head()?;
        let resent = self.flag()?;
        let moment = self.moment()?;
        let verdict = self.verdict()?;
        let body = self.body(alloc)?;
        Ok(Entry::Posted {
            head,
            body,
            resent,
            moment,
            verdict,
        })
    }

    #[tactic(auto, unfolding(crate::specs::Reading::roll_at))]
    fn roll(&mut self) -> Result<Entry, CodecFault>
        ensures { Gives result (roll_at self.old.rest.now) self.new.rest.now }
    {
        Ok(Entry::Roll {
            moment: self.moment()?,
            date: self.date()?,
        })
    }

    #[tactic(auto, unfolding(crate::specs::Reading::entry_at))]
    fn entry(&mut self, alloc: Global) -> Result<Entry, CodecFault>
        ensures { Gives result (entry_at self.old.rest.now) self.new.rest.now }
    {
        match self.byte()? {
            b'P' => self.posted(alloc),
            b'R' => self.roll(),
            _ => Err(CodecFault::Damaged),
        }
    }
}

/// Reads an entry from the front, and answers how many bytes its spelling has. `Damaged` comes exactly where no
/// spelling stands at the front.
pub fn read_entry(alloc: Global, bytes: &[u8]) -> Result<(Entry, usize), CodecFault>
    // What is read is spelled so.
    ensures found { IfOk result (λ read. IsEntry read.0 × (take read.1 bytes.now ≡ entry_bytes read.0) × (read.1 ≤ length bytes.now)) }
    // What is spelled so is read, whatever stands after it, unless memory runs out.
    ensures only { (entry : Value) (rest : List ℕ) → IsEntry entry → bytes.now ≡ entry_bytes entry ++ rest
        → MatchResult result (λ read. (read.0 ≡ entry) × (read.1 ≡ length (entry_bytes entry))) (λ fault. fault ≡ CodecFault.NoMemory) }
{
    let mut front = Front { rest: bytes };
    match front.entry(alloc) {
        Ok(entry) => Ok((entry, bytes.len() - front.rest.len())),
        Err(fault) => Err(fault),
    }
}

/// No spelling of an entry begins another one, so entries that are joined are read one way.
pub fn one_reading()
    ensures { (a b : Value) (x y : List ℕ) → IsEntry a → IsEntry b → entry_bytes a ++ x ≡ entry_bytes b ++ y → (a ≡ b) × (x ≡ y) }
{}
