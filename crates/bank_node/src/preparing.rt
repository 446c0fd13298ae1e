// What a frame does to a bank's list, and the frames that answer it, before a device is called (docs/FORMATS.md, "What a bank
// takes").
ghost use Rattle.std.specs.Prelude.{◌≡◌, ◌==◌, ◌++◌, bytes_eq, map, IfOk, OnOk};
ghost use Rattle.link_frames.specs.Frames.{content_of, frame_bytes};
ghost use Rattle.bank_turns.specs.BankSteps.{bank_step, step_on, strange};
ghost use Rattle.bank_node.specs.Preparing.{bytes_sent, told};

use crate::bank_list::KeptBooks;
use crate::drafting::draft;
use crate::reminding::remind;
use crate::taking::{take_ack, take_output};
use bank_books::{BankEntry, BankOutcome};
use faim_base::{Endpoint, NoMemory};
use link_frames::{Frame, FrameKind};
use store_forward::Outbox;

// How a step will end, and the entry that it adds.
#[derive(Debug, Drop)]
pub(crate) struct Prepared {
    pub(crate) outcome: BankOutcome,
    pub(crate) entry: Option<BankEntry>,
}

// Takes a frame: the outcome, the entry that it adds, and in the outbox the frames that answer it, and no others.
pub(crate) fn prepare(
    list: &KeptBooks,
    frame: &Frame<'_>,
    outbox: &mut Outbox,
) -> Result<Prepared, NoMemory>
    ensures told { IfOk result (λ p. p ≡ told (bank_step list.now.opening list.now.entries (content_of frame.now))) }
    ensures frames { OnOk result (outbox.new ≡ map frame_bytes (bank_step list.now.opening list.now.entries (content_of frame.now)).sends) }
{
    outbox.clear();
    if is_own(list, frame.endpoint()) {
        take(list, frame, outbox)
    } else {
        Ok(strange())
    }
}

// Whether an endpoint is the bank's own.
fn is_own(list: &KeptBooks, line: Endpoint) -> bool
    ensures { result ≡ bytes_eq line list.now.opening.endpoint }
{
    line.bytes() == list.books().opening().endpoint.bytes()
}

// Takes a frame of the bank's own line by its kind, and appends the frames that answer it.
fn take(list: &KeptBooks, frame: &Frame<'_>, outbox: &mut Outbox) -> Result<Prepared, NoMemory>
    ensures told { IfOk result (λ p. p ≡ told (step_on list.now.opening list.now.entries frame.now.kind frame.now.payload.now)) }
    ensures frames { OnOk result (outbox.new ≡ outbox.old ++ bytes_sent (step_on list.now.opening list.now.entries frame.now.kind frame.now.payload.now)) }
{
    match frame.kind {
        FrameKind::Draft => draft(list, frame.payload, outbox),
        FrameKind::Tick => remind(list, outbox),
        FrameKind::Ack => take_ack(list, frame.payload),
        FrameKind::Output => take_output(list, frame.payload, outbox),
        FrameKind::Submit => Ok(strange()),
        FrameKind::Retrieve => Ok(strange()),
        FrameKind::Roll => Ok(strange()),
    }
}

// A frame that a bank doesn't take adds and sends nothing.
pub(crate) fn strange() -> Prepared
    ensures { result ≡ told strange }
{
    answered(BankOutcome::Strange)
}

// This outcome, and nothing is added.
pub(crate) fn answered(outcome: BankOutcome) -> Prepared
    ensures { result ≡ record { outcome = outcome; entry = None } }
{
    Prepared {
        outcome,
        entry: None,
    }
}
