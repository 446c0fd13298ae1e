// A bank is reminded: it submits again what has no answer, and asks for what it misses (docs/FORMATS.md, "What a bank
// takes").
ghost use Rattle.std.specs.Prelude.{◌≡◌, ◌<◌, ◌++◌, ◌∷◌, [], length, map, IfOk, OnOk, Some};
ghost use Rattle.std.specs.List.{slice_get};
ghost use Rattle.bank_books.specs.Drafts.{Draft, drafts, unanswered};
ghost use Rattle.bank_books.specs.Inbox.{wanted};
ghost use Rattle.bank_turns.specs.BankSteps.{reminded, tick_step};
ghost use Rattle.bank_turns.specs.Drafting.{retrieve, submit};
ghost use Rattle.link_frames.specs.Frames.{frame_bytes};
ghost use Rattle.bank_node.specs.Preparing.{bytes_sent, told};

use crate::bank_list::KeptBooks;
use crate::drafting::send_submission;
use crate::preparing::{Prepared, answered};
use bank_books::BankOutcome;
use faim_base::NoMemory;
use link_frames::{Frame, FrameKind};
use store_forward::Outbox;

// How many drafts a reminder submits again, at most.
const MOST: usize = 64;

// The mark of what is submitted again.
const AGAIN: u8 = b'P';

// The oldest drafts for which no verdict came are submitted again, and the outputs from the wanted one on are asked for.
pub(crate) fn remind(list: &KeptBooks, outbox: &mut Outbox) -> Result<Prepared, NoMemory>
    ensures told { IfOk result (λ p. p ≡ told (tick_step list.now.opening list.now.entries)) }
    ensures frames { OnOk result (outbox.new ≡ outbox.old ++ bytes_sent (tick_step list.now.opening list.now.entries)) }
{
    let places = list.books().unanswered(MOST)?;
    let found = places.as_slice();
    submit_again(list, found, outbox)?;
    ask_from_wanted(list, outbox)?;
    Ok(answered(BankOutcome::Resent(found.len() as u32)))
}

// Appends the submissions of the drafts at the places of those that a reminder is for, marked `P`.
fn submit_again(list: &KeptBooks, places: &[usize], outbox: &mut Outbox) -> Result<(), NoMemory>
    requires { places.now ≡ unanswered 64 list.now.entries }
    ensures { OnOk result (outbox.new ≡ outbox.old ++ map frame_bytes (map (λ (d : Draft). submit d.imad d.text 80) (reminded list.now.entries))) }
{
    let mut buffer = Vec::new(list.alloc());
    for number in 0..places.len() {
        submit_at(list, places[number], &mut buffer, outbox)?;
    }
    Ok(())
}

// Appends the submission of the draft at a place, marked `P`.
fn submit_at(
    list: &KeptBooks,
    place: usize,
    buffer: &mut Vec<u8>,
    outbox: &mut Outbox,
) -> Result<(), NoMemory>
    requires { place < length (drafts list.now.entries) }
    ensures { (d : Draft) → slice_get (drafts list.now.entries) place ≡ Some d
        → OnOk result (outbox.new ≡ outbox.old ++ frame_bytes (submit d.imad d.text 80) ∷ []) }
{
    let books = list.books();
    match books.draft(place) {
        Some(text) => send_submission(books.opening().endpoint, text, AGAIN, buffer, outbox),
        None => unreachable!(),
    }
}

// Appends the request for the outputs from the wanted one on.
pub(crate) fn ask_from_wanted(list: &KeptBooks, outbox: &mut Outbox) -> Result<(), NoMemory>
    ensures { OnOk result (outbox.new ≡ outbox.old ++ frame_bytes (retrieve list.now.opening.endpoint (wanted list.now.opening list.now.entries)) ∷ []) }
{
    let books = list.books();
    let mut position = [0; 14];
    books.wanted().write(&mut position);
    outbox.push(&Frame::new(FrameKind::Retrieve, books.opening().endpoint, &position))
}
