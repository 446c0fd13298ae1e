// Whether an entry may come next, as its journal tells it.
ghost use Rattle.std.specs.Prelude.{◌↔◌, IfOk, IsTrue};
ghost use Rattle.entry_codec.specs.BankRanges.{IsEntryOf};
ghost use Rattle.bank_turns.specs.KeptTexts.{BankMayFollow, Keeps};

use crate::bank_list::BankReader;
use bank_books::{BankEntry, Books};
use faim_base::NoMemory;

// Whether an entry that has a spelling may come after the bank's entries: where it may stand in its books, and its text is
// what it is kept as.
pub(crate) fn may_follow(
    reader: &mut BankReader,
    books: &Books,
    entry: &BankEntry,
) -> Result<bool, NoMemory>
    requires { IsEntryOf books.now.opening.endpoint entry.now }
    ensures { IfOk result (λ b. IsTrue b ↔ BankMayFollow books.now.opening books.now.entries entry.now) }
{
    if !books.may_follow(entry) {
        return Ok(false);
    }
    keeps_text(reader, books, entry)
}

// Whether the text of an entry is what it is kept as: a message that the bank numbered, or an output at its position.
fn keeps_text(reader: &mut BankReader, books: &Books, entry: &BankEntry) -> Result<bool, NoMemory>
    ensures { IfOk result (λ b. IsTrue b ↔ Keeps books.now.opening entry.now) }
{
    match entry {
        BankEntry::Drafted { imad, text } => reader.drafts.keeps_draft(imad, text.as_slice()),
        BankEntry::Answered { .. } => Ok(true),
        BankEntry::Received { at, text, next } => {
            reader
                .outputs
                .keeps_output(books.opening(), *at, text.as_slice(), *next)
        }
    }
}
