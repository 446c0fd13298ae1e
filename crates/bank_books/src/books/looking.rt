// Entries that are looked up.
ghost use Rattle.std.specs.Prelude.{◌≡◌, ◌&&◌, not};
ghost use Rattle.std.specs.List.{list_any};
ghost use Rattle.std.specs.Option.{option_copied};
ghost use Rattle.bank_books.specs.Drafts.{is_answered, is_drafted, same_imad};
ghost use Rattle.bank_books.specs.Kept.{draft_text, received_text};

use super::Books;
use crate::BankEntry;
use crate::rows::{DraftAt, OpenDraft};
use faim_base::Imad;

impl Books {
    // Whether a draft has an IMAD.
    pub(super) fn is_drafted(&self, imad: &Imad) -> bool
        ensures { result ≡ is_drafted imad.now self.now.entries }
    {
        is_among_drafts(self.drafts.as_slice(), imad)
    }

    // Whether a draft has an IMAD for which no verdict came.
    pub(super) fn is_open(&self, imad: &Imad) -> bool
        ensures { result ≡ is_drafted imad.now self.now.entries && not (is_answered imad.now self.now.entries) }
    {
        is_among_open(self.unanswered.as_slice(), imad)
    }
}

fn is_among_drafts(drafts: &[DraftAt], imad: &Imad) -> bool
    ensures { result ≡ list_any (λ d. same_imad d.imad imad.now) drafts.now }
{
    drafts.iter().any(|draft| draft.imad == *imad)
}

fn is_among_open(drafts: &[OpenDraft], imad: &Imad) -> bool
    ensures { result ≡ list_any (λ d. same_imad d.imad imad.now) drafts.now }
{
    drafts.iter().any(|draft| draft.imad == *imad)
}

// The text of an entry that is a draft.
pub(super) fn draft_text(entry: &BankEntry) -> Option<&[u8]>
    ensures { option_copied result ≡ draft_text entry.now }
{
    match entry {
        BankEntry::Drafted { text, .. } => Some(text.as_slice()),
        BankEntry::Answered { .. } => None,
        BankEntry::Received { .. } => None,
    }
}

// The text of an entry that is an output.
pub(super) fn received_text(entry: &BankEntry) -> Option<&[u8]>
    ensures { option_copied result ≡ received_text entry.now }
{
    match entry {
        BankEntry::Drafted { .. } => None,
        BankEntry::Answered { .. } => None,
        BankEntry::Received { text, .. } => Some(text.as_slice()),
    }
}
