// What a frame does to a host's list, and the frames that answer it, before a device is called (docs/FORMATS.md, "The order
// of verdicts").
ghost use Rattle.std.specs.Prelude.{◌≡◌, ◌==◌, ◌++◌, ◌∷◌, ◌↔◌, true, false, map, bytes_eq, Some, IfOk, IsSome, IsTrue, OnErr, OnOk};
ghost use Rattle.faim_base.specs.Numbers.{IsMoment};
ghost use Rattle.link_frames.specs.Frames.{content_of, frame_bytes};
ghost use Rattle.host_ledger.specs.declared.entries.Entry.{Entry};
ghost use Rattle.host_ledger.specs.Soundness.{operator};
ghost use Rattle.faim_model.specs.Lawful.{Follows, last_moment};
ghost use Rattle.faim_model.specs.Sending.{frames_of};
ghost use Rattle.faim_model.specs.Steps.{date_in, host_step, position_in, retrieve_step, roll_step, roll_to, strange};
ghost use Rattle.faim_model.specs.Turns.{adds_to, effective};
ghost use Rattle.host_node.specs.Preparing.{AreGiven, bytes_sent, told};
ghost use Rattle.host_node.specs.Resending.{output_to};

use crate::resending::{send_entry, send_output};
use crate::submitting::submit;
use faim_base::{CycleDate, Endpoint, Moment, NoMemory, OutPos, array_of};
use faim_model::HostOutcome;
use host_core::{HostState, RollCase};
use host_ledger::{Entry, OPERATOR};
use link_frames::{Frame, FrameKind};
use std::alloc::Global;
use store_forward::Outbox;

// The mark of a first sending, and of an output that is given again.
const FIRST: u8 = b' ';

const GIVEN_AGAIN: u8 = b'R';

// How a turn will end, and whether it added an entry, which is the newest one then.
#[derive(Clone, Copy, Debug)]
pub(crate) struct Prepared {
    pub(crate) outcome: HostOutcome,
    pub(crate) added: bool,
}

// Takes a frame at a reading of the clock: adds what it adds to the list, and leaves the frames that answer it, and no
// others, in the outbox. At `NoMemory` the list is as it was.
pub(crate) fn prepare(
    alloc: Global,
    state: &mut HostState,
    frame: &Frame<'_>,
    reading: Moment,
    outbox: &mut Outbox,
) -> Result<Prepared, NoMemory>
    ensures outcome { IfOk result (λ p. p.outcome ≡ (host_step state.old.config state.old.entries (content_of frame.now) reading).outcome) }
    ensures added { IfOk result (λ p. IsTrue p.added ↔ IsSome (host_step state.old.config state.old.entries (content_of frame.now) reading).adds) }
    ensures entries { OnOk result (state.new.entries ≡ adds_to (host_step state.old.config state.old.entries (content_of frame.now) reading).adds state.old.entries) }
    ensures config { state.new.config ≡ state.old.config }
    ensures frames { OnOk result (outbox.new ≡ map frame_bytes (host_step state.old.config state.old.entries (content_of frame.now) reading).sends) }
    ensures kept { OnErr result (state.new ≡ state.old) }
{
    outbox.clear();
    answer(alloc, state, frame, reading, outbox)
}

// Takes a frame by its kind, and appends the frames that answer it.
fn answer(
    alloc: Global,
    state: &mut HostState,
    frame: &Frame<'_>,
    reading: Moment,
    outbox: &mut Outbox,
) -> Result<Prepared, NoMemory>
    ensures told { IfOk result (λ p. p ≡ told (host_step state.old.config state.old.entries (content_of frame.now) reading)) }
    ensures entries { OnOk result (state.new.entries ≡ adds_to (host_step state.old.config state.old.entries (content_of frame.now) reading).adds state.old.entries) }
    ensures config { state.new.config ≡ state.old.config }
    ensures frames { OnOk result (outbox.new ≡ outbox.old ++ bytes_sent (host_step state.old.config state.old.entries (content_of frame.now) reading)) }
    ensures kept { OnErr result (state.new ≡ state.old) }
{
    let line = frame.endpoint();
    match frame.kind {
        FrameKind::Submit => submit(alloc, state, line, reading, frame.payload, outbox),
        FrameKind::Retrieve => {
            // A moment's reader tells that it is of the calendar, and so the newest entry's is.
            let _minutes = state.effective(reading).get();
            retrieve(alloc, state, line, frame.payload, outbox)
        }
        FrameKind::Roll => roll(alloc, state, line, reading, frame.payload, outbox),
        FrameKind::Ack => Ok(nothing()),
        FrameKind::Output => Ok(nothing()),
        FrameKind::Draft => Ok(nothing()),
        FrameKind::Tick => Ok(nothing()),
    }
}

// A frame that a host doesn't take adds and sends nothing.
fn nothing() -> Prepared
    ensures { result ≡ told strange }
{
    Prepared {
        outcome: HostOutcome::Strange,
        added: false,
    }
}

// An endpoint asks for its outputs from the position that a payload is.
fn retrieve(
    alloc: Global,
    state: &HostState,
    line: Endpoint,
    payload: &[u8],
    outbox: &mut Outbox,
) -> Result<Prepared, NoMemory>
    requires { IsMoment (last_moment state.now.entries) }
    ensures told { IfOk result (λ p. p ≡ told (retrieve_step state.now.config state.now.entries line (position_in payload.now))) }
    ensures frames { OnOk result (outbox.new ≡ outbox.old ++ bytes_sent (retrieve_step state.now.config state.now.entries line (position_in payload.now))) }
{
    match position_in(payload) {
        Some(at) => send_from(alloc, state, line, at, outbox),
        None => Ok(nothing()),
    }
}

// The position that a payload of 14 bytes is.
fn position_in(payload: &[u8]) -> Option<OutPos>
    ensures { result ≡ position_in payload.now }
{
    match array_of(payload) {
        Some(text) => OutPos::read(&text),
        None => None,
    }
}

// Appends an endpoint's outputs from a position on, marked `R`.
fn send_from(
    alloc: Global,
    state: &HostState,
    line: Endpoint,
    at: OutPos,
    outbox: &mut Outbox,
) -> Result<Prepared, NoMemory>
    requires { IsMoment (last_moment state.now.entries) }
    ensures told { IfOk result (λ p. p ≡ told (retrieve_step state.now.config state.now.entries line (Some at))) }
    ensures frames { OnOk result (outbox.new ≡ outbox.old ++ bytes_sent (retrieve_step state.now.config state.now.entries line (Some at))) }
{
    // The configuration is read since its reader tells that it is sound and the list lawful: so each output fits a frame.
    let _config = state.config();
    let places = state.retrieve(line, at)?;
    let found = places.as_slice();
    match send_places(alloc, state, line, found, outbox) {
        Ok(()) => Ok(Prepared {
            outcome: HostOutcome::Retrieved(found.len() as u32),
            added: false,
        }),
        Err(fault) => Err(fault),
    }
}

// Appends the outputs that the entries at some places give an endpoint, marked `R`.
fn send_places(
    alloc: Global,
    state: &HostState,
    line: Endpoint,
    places: &[usize],
    outbox: &mut Outbox,
) -> Result<(), NoMemory>
    requires { AreGiven state.now.config state.now.entries line places.now }
    ensures { OnOk result (outbox.new ≡ outbox.old ++ map frame_bytes (map (λ place. output_to state.now.config state.now.entries place 82 line) places.now)) }
{
    let mut buffer = Vec::new(alloc);
    for number in 0..places.len() {
        let place = places[number];
        match send_output(state, line, place, GIVEN_AGAIN, &mut buffer, outbox) {
            Ok(()) => {}
            Err(fault) => return Err(fault),
        }
    }
    Ok(())
}

// An endpoint asks for a cycle of the date that a payload is. The operator alone may.
fn roll(
    alloc: Global,
    state: &mut HostState,
    line: Endpoint,
    reading: Moment,
    payload: &[u8],
    outbox: &mut Outbox,
) -> Result<Prepared, NoMemory>
    ensures told { IfOk result (λ p. p ≡ told (roll_step state.old.config state.old.entries line (effective state.old.entries reading) (date_in payload.now))) }
    ensures entries { OnOk result (state.new.entries ≡ adds_to (roll_step state.old.config state.old.entries line (effective state.old.entries reading) (date_in payload.now)).adds state.old.entries) }
    ensures config { state.new.config ≡ state.old.config }
    ensures frames { OnOk result (outbox.new ≡ outbox.old ++ bytes_sent (roll_step state.old.config state.old.entries line (effective state.old.entries reading) (date_in payload.now))) }
    ensures kept { OnErr result (state.new ≡ state.old) }
{
    match date_in(payload) {
        Some(date) => {
            if is_operator(line) {
                roll_to(alloc, state, reading, date, outbox)
            } else {
                Ok(nothing())
            }
        }
        None => Ok(nothing()),
    }
}

// The date that a payload of eight bytes is.
fn date_in(payload: &[u8]) -> Option<CycleDate>
    ensures { result ≡ date_in payload.now }
{
    match array_of(payload) {
        Some(text) => CycleDate::read(&text),
        None => None,
    }
}

fn is_operator(line: Endpoint) -> bool
    ensures { result ≡ bytes_eq line operator }
{
    line.bytes() == OPERATOR
}

// The cycle goes on to a later date, and to no other.
fn roll_to(
    alloc: Global,
    state: &mut HostState,
    reading: Moment,
    date: CycleDate,
    outbox: &mut Outbox,
) -> Result<Prepared, NoMemory>
    ensures told { IfOk result (λ p. p ≡ told (roll_to state.old.config state.old.entries (effective state.old.entries reading) date)) }
    ensures entries { OnOk result (state.new.entries ≡ adds_to (roll_to state.old.config state.old.entries (effective state.old.entries reading) date).adds state.old.entries) }
    ensures config { state.new.config ≡ state.old.config }
    ensures frames { OnOk result (outbox.new ≡ outbox.old ++ bytes_sent (roll_to state.old.config state.old.entries (effective state.old.entries reading) date)) }
    ensures kept { OnErr result (state.new ≡ state.old) }
{
    // The range of the date is known once its number is read.
    let _day = date.get();
    let moment = state.effective(reading);
    match state.roll_case(date) {
        RollCase::Later => match add(alloc, state, Entry::Roll { moment, date }, outbox) {
            Ok(()) => Ok(Prepared {
                outcome: HostOutcome::Rolled(date),
                added: true,
            }),
            Err(fault) => Err(fault),
        },
        RollCase::NotLater { current } => Ok(Prepared {
            outcome: HostOutcome::NotLater { current },
            added: false,
        }),
    }
}

// Adds an entry that may come next, and appends its frames, with a blank as their mark.
pub(crate) fn add(
    alloc: Global,
    state: &mut HostState,
    entry: Entry,
    outbox: &mut Outbox,
) -> Result<(), NoMemory>
    requires { Follows state.old.config state.old.entries entry }
    ensures entries { OnOk result (state.new.entries ≡ entry ∷ state.old.entries) }
    ensures config { state.new.config ≡ state.old.config }
    ensures frames { OnOk result (outbox.new ≡ outbox.old ++ map frame_bytes (frames_of state.old.config state.old.entries entry 32)) }
    ensures kept { OnErr result (state.new ≡ state.old) }
{
    let place = state.len();
    match state.push(entry) {
        Ok(()) => {}
        Err(fault) => return Err(fault),
    }
    let mut buffer = Vec::new(alloc);
    match send_entry(state, place, FIRST, &mut buffer, outbox) {
        Ok(()) => Ok(()),
        Err(fault) => {
            state.cut(place);
            Err(fault)
        }
    }
}
