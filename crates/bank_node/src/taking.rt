// A bank takes what its host sends: acknowledgements and outputs (docs/FORMATS.md, "What a bank takes").
ghost use Rattle.std.specs.Prelude.{◌≡◌, ◌++◌, IfOk, OnOk, Some};
ghost use Rattle.std.specs.Option.{option_map};
ghost use Rattle.bank_books.specs.Drafts.{ack_case};
ghost use Rattle.bank_books.specs.Inbox.{out_case};
ghost use Rattle.bank_turns.specs.AckTexts.{ack_told};
ghost use Rattle.bank_turns.specs.BankSteps.{ack_step, answered_by, output_step, received_by};
ghost use Rattle.bank_turns.specs.OutputTexts.{output_given};
ghost use Rattle.bank_texts.specs.Reads.{given_of, told_of};
ghost use Rattle.bank_books.specs.declared.entries.BankEntry.TheVariants as entry;
ghost use Rattle.bank_books.specs.declared.outcomes.BankOutcome.TheVariants.{Received};
ghost use Rattle.bank_node.specs.Preparing.{bytes_sent, told};

use crate::bank_list::KeptBooks;
use crate::preparing::{Prepared, answered, strange};
use crate::reminding::ask_from_wanted;
use bank_books::{AckCase, BankEntry, BankOutcome, OutCase};
use bank_texts::{AckRead, AckReader, OutputRead, OutputReader};
use faim_base::NoMemory;
use store_forward::Outbox;

// An acknowledgement: the first verdict for a draft is kept, and no other.
pub(crate) fn take_ack(list: &KeptBooks, payload: &[u8]) -> Result<Prepared, NoMemory>
    ensures { IfOk result (λ p. p ≡ told (ack_step list.now.entries (ack_told list.now.opening payload.now))) }
{
    let mut reader = AckReader::new(list.alloc())?;
    let read = reader.read(list.books().opening(), payload)?;
    match read {
        Some(ack) => Ok(answer(list, ack)),
        None => Ok(strange()),
    }
}

// What an acknowledgement that was read comes to.
fn answer(list: &KeptBooks, ack: AckRead) -> Prepared
    ensures { result ≡ told (answered_by (told_of ack) (ack_case list.now.entries ack.imad)) }
{
    match list.books().ack_case(ack.imad) {
        AckCase::Fresh => Prepared {
            outcome: BankOutcome::Answered(ack.imad),
            entry: Some(BankEntry::Answered {
                imad: ack.imad,
                verdict: ack.verdict,
            }),
        },
        AckCase::Repeated => answered(BankOutcome::Repeated),
        AckCase::Strange => strange(),
    }
}

// An output: the wanted one is kept, and where it isn't there yet it is asked for.
pub(crate) fn take_output(
    list: &KeptBooks,
    payload: &[u8],
    outbox: &mut Outbox,
) -> Result<Prepared, NoMemory>
    ensures told { IfOk result (λ p. p ≡ told (output_step list.now.opening list.now.entries (output_given list.now.opening payload.now))) }
    ensures frames { OnOk result (outbox.new ≡ outbox.old ++ bytes_sent (output_step list.now.opening list.now.entries (output_given list.now.opening payload.now))) }
{
    let mut reader = OutputReader::new(list.alloc())?;
    let read = reader.read(list.books().opening(), payload)?;
    match read {
        Some(output) => receive(list, output, outbox),
        None => Ok(strange()),
    }
}

// What an output that was read comes to.
fn receive(list: &KeptBooks, output: OutputRead, outbox: &mut Outbox) -> Result<Prepared, NoMemory>
    ensures told { IfOk result (λ p. p ≡ told (received_by list.now.opening list.now.entries (given_of output) (out_case list.now.opening list.now.entries output.at))) }
    ensures frames { OnOk result (outbox.new ≡ outbox.old ++ bytes_sent (received_by list.now.opening list.now.entries (given_of output) (out_case list.now.opening list.now.entries output.at))) }
{
    match list.books().out_case(output.at) {
        OutCase::Next => Ok(received(output)),
        OutCase::Repeated => Ok(answered(BankOutcome::Repeated)),
        OutCase::Gap => {
            ask_from_wanted(list, outbox)?;
            Ok(answered(BankOutcome::Gap {
                wanted: list.books().wanted(),
            }))
        }
    }
}

// An output is kept.
fn received(output: OutputRead) -> Prepared
    ensures { result ≡ record { outcome = Received output.at; entry = Some (entry.Received output.at output.text output.next) } }
{
    let outcome = BankOutcome::Received(output.at);
    let OutputRead { at, text, next } = output;
    let entry = BankEntry::Received { at, text, next };
    Prepared {
        outcome,
        entry: Some(entry),
    }
}
