// A bank's books.
ghost use Rattle.std.specs.Prelude.{◌≡◌, ◌∷◌, ◌↔◌, [], length, Ok, true, IfOk, IsErr, OnOk, OnErr};
ghost use Rattle.std.specs.List.{slice_get};
ghost use Rattle.std.specs.Option.{option_copied, option_map};
ghost use Rattle.bank_books.specs.Openings.{IsBankOpening};
ghost use Rattle.bank_books.specs.Drafts.{ack_case, drafts, open_drafts, unanswered};
ghost use Rattle.bank_books.specs.Inbox.{inbox, out_case, wanted};
ghost use Rattle.bank_books.specs.Numbering.{drafts_in_cycle, next_imad};
ghost use Rattle.bank_books.specs.Lawful.{BankFollows, LawfulBank};
ghost use Rattle.bank_books.specs.declared.outcomes.OutCase.TheVariants.{Next};

mod changing;
mod following;
mod looking;

use crate::rows::{DraftAt, OpenDraft};
use crate::{AckCase, BankEntry, BankOpening, OutCase, SeqFull};
use faim_base::{Imad, NoMemory, OutPos, Places, Seq};
use looking::{draft_text, received_text};
use std::alloc::Global;
use std::marker::Model;

// The greatest number of a draft.
const LAST_NUMBER: u32 = 999_999;

/// What a bank knows: its opening and its list of entries. `push` and `unanswered` may want memory.
///
/// Beside the list stand the places of its drafts and outputs, the drafts for which no verdict came, how many drafts the
/// present cycle has, and the position that is wanted, so that few calls search.
#[derive(Drop)]
pub struct Books {
    alloc: Global,
    opening: BankOpening,
    entries: Vec<BankEntry>,
    drafts: Vec<DraftAt>,
    unanswered: Vec<OpenDraft>,
    inbox: Vec<usize>,
    numbered: u32,
    wanted: OutPos,
}

impl Model for Books {
    ghost use Rattle.std.specs.Prelude.{reverse};
    ghost use Rattle.bank_books.specs.Kept.{Kept};
    ghost use Rattle.bank_books.specs.Lawful.{LawfulBank};
    ghost use Rattle.bank_books.specs.Openings.{IsBankOpening};
    ghost use Rattle.bank_books.specs.State.{BankList};

    ghost Value = { BankList };

    ghost view = { λ b. record { opening = b.opening; entries = reverse b.entries.items } };

    ghost invariant = { λ b. IsBankOpening b.opening × LawfulBank b.opening (reverse b.entries.items) × Kept b.opening (reverse b.entries.items) b.drafts.items b.unanswered.items b.inbox.items b.numbered b.wanted };
}

impl Books {
    /// The books of a sound opening (docs/FORMATS.md, "Entries"), with no entries yet. It takes no memory.
    pub fn new(alloc: Global, opening: BankOpening) -> Books
        requires { IsBankOpening opening }
        ensures { result ≡ record { opening = opening; entries = [] } }
    {
        Books {
            alloc,
            opening,
            entries: Vec::new(alloc),
            drafts: Vec::new(alloc),
            unanswered: Vec::new(alloc),
            inbox: Vec::new(alloc),
            numbered: 0,
            wanted: OutPos {
                date: opening.date,
                seq: Seq::new(1).unwrap(),
            },
        }
    }

    /// The opening. It is sound, and the entries are a lawful list under it (docs/MODEL.md, "A bank's list").
    pub fn opening(&self) -> &BankOpening
        ensures value { result.now ≡ self.now.opening }
        ensures sound { IsBankOpening self.now.opening }
        ensures lawful { LawfulBank self.now.opening self.now.entries }
    {
        &self.opening
    }

    /// The IMAD of the next draft: the bank's endpoint, the present cycle date, and one more than the drafts of that cycle.
    /// `SeqFull` exactly where the cycle has 999,999 drafts. It takes no memory and changes nothing.
    pub fn next_imad(&self) -> Result<Imad, SeqFull>
        ensures value { result ≡ next_imad self.now.opening self.now.entries }
        ensures full { IsErr result ↔ (drafts_in_cycle self.now.opening self.now.entries ≡ 999_999) }
    {
        if self.numbered == LAST_NUMBER {
            return Err(SeqFull);
        }
        Ok(Imad {
            date: self.wanted.date,
            source: self.opening.endpoint,
            seq: Seq::new(self.numbered + 1).unwrap(),
        })
    }

    /// What an acknowledgement of an IMAD is: `Strange` exactly where no draft has the IMAD, `Repeated` exactly where its
    /// verdict is kept, else `Fresh`. It takes no memory and changes nothing.
    pub fn ack_case(&self, imad: Imad) -> AckCase
        ensures { result ≡ ack_case self.now.entries imad }
    {
        if !self.is_drafted(&imad) {
            AckCase::Strange
        } else if self.is_open(&imad) {
            AckCase::Fresh
        } else {
            AckCase::Repeated
        }
    }

    /// The position of the output that is wanted: at first number 1 of the opening date, and then the one right after the
    /// last that was received, which is number 1 of the next date where that ended a cycle. It takes no memory.
    pub fn wanted(&self) -> OutPos
        ensures { result ≡ wanted self.now.opening self.now.entries }
    {
        self.wanted
    }

    /// What an output at a position is: `Next` exactly where the position is the wanted one, `Repeated` exactly where it is
    /// before it, `Gap` exactly where it is after it. It takes no memory and changes nothing.
    pub fn out_case(&self, at: OutPos) -> OutCase
        ensures value { result ≡ out_case self.now.opening self.now.entries at }
        ensures next { (result ≡ Next) ↔ (at ≡ wanted self.now.opening self.now.entries) }
    {
        if !self.wanted.is_up_to(&at) {
            OutCase::Repeated
        } else if !at.is_up_to(&self.wanted) {
            OutCase::Gap
        } else {
            OutCase::Next
        }
    }

    /// The drafts for which no verdict came, as places among the drafts, the oldest first, at most so many. `NoMemory`
    /// changes nothing.
    pub fn unanswered(&self, limit: usize) -> Result<Places, NoMemory>
        ensures { IfOk result (λ places. places ≡ unanswered limit self.now.entries) }
    {
        let unanswered = self.unanswered.as_slice();
        let count = limit.min(unanswered.len());
        let mut places = Places::new(self.alloc);
        for draft in &unanswered[..count] {
            places.push(draft.place)?;
        }
        Ok(places)
    }

    /// Whether an entry may come next: a draft with the IMAD that `next_imad` gives; a verdict for an IMAD of which an
    /// acknowledgement is `Fresh`; or an output at the wanted position, with a later date as its `next` where it ends a
    /// cycle, and else with a number of at most 999,998. Texts and verdicts may be any. It takes no memory and changes
    /// nothing.
    pub fn may_follow(&self, entry: &BankEntry) -> bool
        ensures { (result ≡ true) ↔ BankFollows self.now.opening self.now.entries entry.now }
    {
        match entry {
            BankEntry::Drafted { imad, .. } => self.is_next(imad),
            BankEntry::Answered { imad, .. } => self.is_fresh(imad),
            BankEntry::Received { at, next, .. } => self.is_receivable(at, next),
        }
    }

    /// Appends an entry that may come next, as `may_follow` says. `NoMemory` changes nothing.
    pub fn push(&mut self, entry: BankEntry) -> Result<(), NoMemory>
        requires { BankFollows self.old.opening self.old.entries entry }
        ensures ok { OnOk result (self.new ≡ record { opening = self.old.opening; entries = entry ∷ self.old.entries }) }
        ensures err { OnErr result (self.new ≡ self.old) }
    {
        match entry {
            BankEntry::Drafted { imad, text } => self.push_draft(imad, text),
            BankEntry::Answered { imad, verdict } => self.push_verdict(imad, verdict),
            BankEntry::Received { at, text, next } => self.push_output(at, text, next),
        }
    }

    /// How many drafts there are, over all cycles.
    pub fn drafts(&self) -> usize
        ensures { result ≡ length (drafts self.now.entries) }
    {
        self.drafts.as_slice().len()
    }

    /// How many outputs were received, over all cycles, ends of cycles too.
    pub fn inbox(&self) -> usize
        ensures { result ≡ length (inbox self.now.entries) }
    {
        self.inbox.as_slice().len()
    }

    /// How many drafts have no verdict.
    pub fn open_count(&self) -> usize
        ensures { result ≡ length (open_drafts self.now.entries) }
    {
        self.unanswered.as_slice().len()
    }

    /// The text of the draft at a place, counted from 0 at the oldest. None exactly where the place isn't below the count.
    pub fn draft(&self, place: usize) -> Option<&[u8]>
        ensures { option_copied result ≡ option_map (λ d. d.text) (slice_get (drafts self.now.entries) place) }
    {
        let drafts = self.drafts.as_slice();
        if place < drafts.len() {
            let at = drafts[place].entry;
            draft_text(&self.entries[at])
        } else {
            None
        }
    }

    /// The text of the output at a place, counted from 0 at the oldest. None exactly where the place isn't below the count.
    pub fn received(&self, place: usize) -> Option<&[u8]>
        ensures { option_copied result ≡ option_map (λ i. i.text) (slice_get (inbox self.now.entries) place) }
    {
        let inbox = self.inbox.as_slice();
        if place < inbox.len() {
            let at = inbox[place];
            received_text(&self.entries[at])
        } else {
            None
        }
    }
}
