// Which entries may come next.
ghost use Rattle.std.specs.Prelude.{◌≡◌, ◌↔◌, Ok, true};
ghost use Rattle.bank_books.specs.declared.outcomes.AckCase.TheVariants.{Fresh};
ghost use Rattle.bank_books.specs.Drafts.{ack_case};
ghost use Rattle.bank_books.specs.Numbering.{next_imad};
ghost use Rattle.bank_books.specs.Lawful.{MayGoOn, ReceivedFollows};

use super::Books;
use crate::{AckCase, OutCase};
use faim_base::{CycleDate, Imad, OutPos};

// The greatest number of an output that ends no cycle.
const LAST_OF_MESSAGES: u32 = 999_998;

impl Books {
    // Whether the next draft gets an IMAD.
    pub(super) fn is_next(&self, imad: &Imad) -> bool
        ensures { (result ≡ true) ↔ (next_imad self.now.opening self.now.entries ≡ Ok imad.now) }
    {
        match self.next_imad() {
            Ok(next) => next == *imad,
            Err(_) => false,
        }
    }

    // Whether a draft has an IMAD and no verdict.
    pub(super) fn is_fresh(&self, imad: &Imad) -> bool
        ensures { (result ≡ true) ↔ (ack_case self.now.entries imad.now ≡ Fresh) }
    {
        match self.ack_case(*imad) {
            AckCase::Fresh => true,
            AckCase::Repeated => false,
            AckCase::Strange => false,
        }
    }

    // Whether an output at a position may be received next.
    pub(super) fn is_receivable(&self, at: &OutPos, next: &Option<CycleDate>) -> bool
        ensures { (result ≡ true) ↔ ReceivedFollows self.now.opening self.now.entries at.now next.now }
    {
        match self.out_case(*at) {
            OutCase::Next => may_go_on(at, next),
            OutCase::Repeated => false,
            OutCase::Gap => false,
        }
    }
}

// Whether an output at a position may have such a next date, or none.
fn may_go_on(at: &OutPos, next: &Option<CycleDate>) -> bool
    ensures { (result ≡ true) ↔ MayGoOn at.now next.now }
{
    match next {
        Some(date) => at.date.get() < date.get(),
        None => at.seq.get() <= LAST_OF_MESSAGES,
    }
}
