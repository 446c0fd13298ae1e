// Entries that are appended: all growth comes before the first change.
ghost use Rattle.std.specs.Prelude.{◌≡◌, ◌∷◌, OnOk, OnErr, filter, not};
ghost use Rattle.bank_books.specs.declared.entries.BankEntry.TheVariants.{Answered, Drafted, Received};
ghost use Rattle.bank_books.specs.Drafts.{same_imad};
ghost use Rattle.bank_books.specs.Kept.{count_after};
ghost use Rattle.bank_books.specs.Lawful.{BankFollows, MayGoOn, right_after};

use super::Books;
use crate::BankEntry;
use crate::rows::{DraftAt, OpenDraft};
use faim_base::{Bytes, CycleDate, Imad, NoMemory, OutPos, Seq, Verdict};

impl Books {
    // Appends a draft.
    pub(super) fn push_draft(&mut self, imad: Imad, text: Bytes) -> Result<(), NoMemory>
        requires { BankFollows self.old.opening self.old.entries (Drafted imad text) }
        ensures ok { OnOk result (self.new ≡ record { opening = self.old.opening; entries = Drafted imad text ∷ self.old.entries }) }
        ensures err { OnErr result (self.new ≡ self.old) }
    {
        let row = DraftAt::new(&imad, self.entries.as_slice().len());
        let open = OpenDraft::new(&imad, self.drafts.as_slice().len());
        self.entries.reserve(1)?;
        self.drafts.reserve(1)?;
        self.unanswered.reserve(1)?;
        self.numbered += 1;
        self.drafts.push(row).unwrap();
        self.unanswered.push(open).unwrap();
        self.entries
            .push(BankEntry::Drafted { imad, text })
            .unwrap();
        Ok(())
    }

    // Appends a verdict for a draft.
    pub(super) fn push_verdict(&mut self, imad: Imad, verdict: Verdict) -> Result<(), NoMemory>
        requires { BankFollows self.old.opening self.old.entries (Answered imad verdict) }
        ensures ok { OnOk result (self.new ≡ record { opening = self.old.opening; entries = Answered imad verdict ∷ self.old.entries }) }
        ensures err { OnErr result (self.new ≡ self.old) }
    {
        self.entries.reserve(1)?;
        take_out(&mut self.unanswered, &imad);
        self.entries
            .push(BankEntry::Answered { imad, verdict })
            .unwrap();
        Ok(())
    }

    // Appends an output.
    pub(super) fn push_output(
        &mut self,
        at: OutPos,
        text: Bytes,
        next: Option<CycleDate>,
    ) -> Result<(), NoMemory>
        requires { BankFollows self.old.opening self.old.entries (Received at text next) }
        ensures ok { OnOk result (self.new ≡ record { opening = self.old.opening; entries = Received at text next ∷ self.old.entries }) }
        ensures err { OnErr result (self.new ≡ self.old) }
    {
        let entry = self.entries.as_slice().len();
        self.entries.reserve(1)?;
        self.inbox.reserve(1)?;
        self.inbox.push(entry).unwrap();
        self.wanted = right_after(&at, &next);
        self.numbered = count_after(self.numbered, &next);
        self.entries
            .push(BankEntry::Received { at, text, next })
            .unwrap();
        Ok(())
    }
}

// The position right after that of an output.
fn right_after(at: &OutPos, next: &Option<CycleDate>) -> OutPos
    requires { MayGoOn at.now next.now }
    ensures { result ≡ right_after at.now next.now }
{
    match next {
        Some(date) => OutPos {
            date: *date,
            seq: Seq::new(1).unwrap(),
        },
        None => OutPos {
            date: at.date,
            seq: Seq::new(at.seq.get() + 1).unwrap(),
        },
    }
}

// How many drafts the present cycle has after an output, of those that it had before.
fn count_after(count: u32, next: &Option<CycleDate>) -> u32
    ensures { result ≡ count_after count next.now }
{
    match next {
        Some(_) => 0,
        None => count,
    }
}

// Takes out the drafts that have an IMAD.
fn take_out(rows: &mut Vec<OpenDraft>, imad: &Imad)
    ensures { rows.new.items ≡ filter (λ d. not (same_imad d.imad imad.now)) rows.old.items }
{
    rows.retain(|draft| draft.imad != *imad);
}
