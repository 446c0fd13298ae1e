// A draft is numbered and submitted (docs/FORMATS.md, "What a bank takes").
ghost use Rattle.std.specs.Prelude.{◌≡◌, ◌≤◌, ◌++◌, ◌∷◌, [], length, Ok, Some, IfOk, OnOk};
ghost use Rattle.faim_base.specs.declared.ids.Imad.{Imad};
ghost use Rattle.faim_message.specs.declared.form.Form.{Form};
ghost use Rattle.faim_message.specs.Decoded.{decoded};
ghost use Rattle.link_frames.specs.Frames.{frame_bytes, greatest_payload};
ghost use Rattle.bank_turns.specs.BankSteps.{draft_step, drafted_as};
ghost use Rattle.bank_turns.specs.Drafting.{draft_text, submit};
ghost use Rattle.bank_books.specs.declared.entries.BankEntry.TheVariants as entry;
ghost use Rattle.bank_books.specs.declared.outcomes.BankOutcome.TheVariants.{Drafted};
ghost use Rattle.bank_books.specs.Numbering.{next_imad};
ghost use Rattle.faim_model.specs.Submissions.{text_with};
ghost use Rattle.link_frames.specs.declared.frame.FrameKind.{FrameKind};
ghost use Rattle.bank_node.specs.Preparing.{bytes_sent, told};

use crate::bank_list::KeptBooks;
use crate::preparing::{Prepared, answered};
use bank_books::{BankEntry, BankOutcome};
use bank_texts::{DraftRead, DraftReader, number_draft};
use faim_base::{Bytes, Endpoint, Imad, NoMemory};
use faim_message::Message;
use link_frames::{Frame, FrameKind};
use std::alloc::Global;
use store_forward::Outbox;

// The place of the mark in the text of a submission, and the mark of a first submission.
const MARK: usize = 17;

const FIRST: u8 = b' ';

// A text to draft: it gets the next number, where one is left, and is submitted.
pub(crate) fn draft(
    list: &KeptBooks,
    payload: &[u8],
    outbox: &mut Outbox,
) -> Result<Prepared, NoMemory>
    ensures told { IfOk result (λ p. p ≡ told (draft_step list.now.opening list.now.entries payload.now (decoded Form.Draft payload.now))) }
    ensures frames { OnOk result (outbox.new ≡ outbox.old ++ bytes_sent (draft_step list.now.opening list.now.entries payload.now (decoded Form.Draft payload.now))) }
{
    // The books are lent since that tells that their opening is sound: so a draft of its endpoint fits a frame.
    let _books = list.books();
    let mut reader = DraftReader::new(list.alloc())?;
    let read = reader.read(payload)?;
    match read {
        DraftRead::Refused(fault) => Ok(answered(BankOutcome::DraftRefused(fault))),
        DraftRead::Message(message) => number(list, message, outbox),
    }
}

// A draft is numbered, where a number is left.
fn number(list: &KeptBooks, message: Message, outbox: &mut Outbox) -> Result<Prepared, NoMemory>
    requires form { message.form ≡ Form.Draft }
    requires fits { (imad : Imad) → next_imad list.now.opening list.now.entries ≡ Ok imad → length (draft_text message imad) ≤ greatest_payload }
    ensures told { IfOk result (λ p. p ≡ told (drafted_as message (next_imad list.now.opening list.now.entries))) }
    ensures frames { OnOk result (outbox.new ≡ outbox.old ++ bytes_sent (drafted_as message (next_imad list.now.opening list.now.entries))) }
{
    match list.books().next_imad() {
        Ok(imad) => submit_as(list.alloc(), message, imad, outbox),
        Err(_) => Ok(answered(BankOutcome::SeqFull)),
    }
}

// A draft with an IMAD is added, and submitted for the first time.
fn submit_as(
    alloc: Global,
    message: Message,
    imad: Imad,
    outbox: &mut Outbox,
) -> Result<Prepared, NoMemory>
    requires form { message.form ≡ Form.Draft }
    requires fits { length (draft_text message imad) ≤ greatest_payload }
    ensures told { IfOk result (λ p. p ≡ record { outcome = Drafted imad; entry = Some (entry.Drafted imad (draft_text message imad)) }) }
    ensures frames { OnOk result (outbox.new ≡ outbox.old ++ frame_bytes (submit imad (draft_text message imad) 32) ∷ []) }
{
    let text = number_draft(alloc, message, imad)?;
    send_first(alloc, imad.source, &text, outbox)?;
    Ok(drafted(&imad, text))
}

// A draft with its text is added.
fn drafted(imad: &Imad, text: Bytes) -> Prepared
    ensures { result ≡ record { outcome = Drafted imad.now; entry = Some (entry.Drafted imad.now text) } }
{
    Prepared {
        outcome: BankOutcome::Drafted(*imad),
        entry: Some(BankEntry::Drafted { imad: *imad, text }),
    }
}

// Appends the first submission of a draft's text, on the line of an endpoint.
fn send_first(
    alloc: Global,
    line: Endpoint,
    text: &Bytes,
    outbox: &mut Outbox,
) -> Result<(), NoMemory>
    requires { length text.now ≤ greatest_payload }
    ensures { OnOk result (outbox.new ≡ outbox.old ++ frame_bytes (record { kind = FrameKind.Submit; endpoint = line; payload = text_with 32 text.now }) ∷ []) }
{
    let mut buffer = Vec::new(alloc);
    send_submission(line, text.as_slice(), FIRST, &mut buffer, outbox)
}

// Appends the submission of a draft's text with a mark, on the line of an endpoint.
pub(crate) fn send_submission(
    line: Endpoint,
    text: &[u8],
    mark: u8,
    buffer: &mut Vec<u8>,
    outbox: &mut Outbox,
) -> Result<(), NoMemory>
    requires { length text.now ≤ greatest_payload }
    ensures { OnOk result (outbox.new ≡ outbox.old ++ frame_bytes (record { kind = FrameKind.Submit; endpoint = line; payload = text_with mark text.now }) ∷ []) }
{
    put_marked(text, mark, buffer)?;
    outbox.push(&Frame::new(FrameKind::Submit, line, buffer.as_slice()))
}

// Leaves in the buffer the text of a submission with a mark.
fn put_marked(text: &[u8], mark: u8, buffer: &mut Vec<u8>) -> Result<(), NoMemory>
    ensures { OnOk result (buffer.new.items ≡ text_with mark text.now) }
{
    buffer.clear();
    buffer.extend_from_slice(text)?;
    if MARK < buffer.len() {
        buffer[MARK] = mark;
    }
    Ok(())
}
