// The frames of entries, put into an outbox (docs/FORMATS.md, "What a host sends").
ghost use Rattle.std.specs.Prelude.{◌≡◌, ◌≤◌, ◌<◌, ◌++◌, ◌∷◌, [], ℕ, length, map, if◌then◌else◌, IsSome, IsTrue, OnOk, Some};
ghost use Rattle.link_frames.specs.Frames.{frame_bytes, greatest_payload};
ghost use Rattle.host_ledger.specs.declared.entries.Entry.TheVariants.{Roll};
ghost use Rattle.host_ledger.specs.Accounts.{endpoints_of, has_endpoint};
ghost use Rattle.faim_model.specs.Frames.{IsAckMark, IsOutputMark};
ghost use Rattle.faim_model.specs.Items.{position_at};
ghost use Rattle.faim_model.specs.Payloads.{ack_payload, output_payload, posts};
ghost use Rattle.faim_model.specs.Sending.{resume_frames};
ghost use Rattle.faim_model.specs.Turns.{entry_at};
ghost use Rattle.host_node.specs.Resending.{OutputsFit, ack_to, frames_at, output_to};

use faim_base::{Endpoint, NoMemory, Verdict};
use host_core::HostState;
use host_ledger::{Account, Entry, has_endpoint};
use host_turns::{ack_payload, output_payload};
use link_frames::{Frame, FrameKind};
use std::alloc::Global;
use store_forward::Outbox;

// The mark of what is sent again.
const AGAIN: u8 = b'P';

// Appends the frames of the newest entries, so many of them, the oldest first, marked `P`.
pub(crate) fn send_newest(
    alloc: Global,
    state: &HostState,
    last: usize,
    outbox: &mut Outbox,
) -> Result<(), NoMemory>
    requires { last ≤ length state.now.entries }
    ensures { OnOk result (outbox.new ≡ outbox.old ++ map frame_bytes (resume_frames state.now.config state.now.entries last)) }
{
    let mut buffer = Vec::new(alloc);
    let first = state.len() - last;
    for number in 0..last {
        match send_entry(state, first + number, AGAIN, &mut buffer, outbox) {
            Ok(()) => {}
            Err(fault) => return Err(fault),
        }
    }
    Ok(())
}

// Appends the frames of the entry at a place with a mark: its acknowledgement, and then its outputs in the configuration's
// order.
pub(crate) fn send_entry(
    state: &HostState,
    place: usize,
    mark: u8,
    buffer: &mut Vec<u8>,
    outbox: &mut Outbox,
) -> Result<(), NoMemory>
    requires place { place < length state.now.entries }
    requires mark { IsAckMark mark }
    ensures { OnOk result (outbox.new ≡ outbox.old ++ map frame_bytes (frames_at state.now.config state.now.entries place mark)) }
{
    // The configuration is read since its reader tells that it is sound and the list lawful, and a moment since its reader
    // tells that it is of the calendar: so each frame fits.
    let _config = state.config();
    match state.entry(place) {
        Some(
            Entry::Posted {
                head,
                moment,
                verdict,
                ..
            },
        ) => {
            let _minutes = moment.get();
            let source = head.imad.source;
            match verdict {
                Verdict::Taken { dest, .. } => {
                    send_taken(state, source, *dest, place, mark, buffer, outbox)
                }
                Verdict::Refused(_) => send_ack(state, source, place, mark, buffer, outbox),
            }
        }
        Some(Entry::Roll { moment, .. }) => {
            let _minutes = moment.get();
            send_ends(state, place, mark, buffer, outbox)
        }
        None => unreachable!(),
    }
}

// Appends the acknowledgement of the message that the entry at a place posts, and then its output.
fn send_taken(
    state: &HostState,
    source: Endpoint,
    dest: Endpoint,
    place: usize,
    mark: u8,
    buffer: &mut Vec<u8>,
    outbox: &mut Outbox,
) -> Result<(), NoMemory>
    requires posted { IsTrue (posts (entry_at state.now.entries place)) }
    requires given { IsSome (position_at state.now.config state.now.entries dest place) }
    requires mark { IsAckMark mark }
    requires ack { length (ack_payload state.now.config state.now.entries place mark) ≤ greatest_payload }
    requires output { length (output_payload state.now.config state.now.entries dest place mark) ≤ greatest_payload }
    ensures { OnOk result (outbox.new ≡ outbox.old ++ frame_bytes (ack_to state.now.config state.now.entries place mark source) ∷ frame_bytes (output_to state.now.config state.now.entries place mark dest) ∷ []) }
{
    match send_ack(state, source, place, mark, buffer, outbox) {
        Ok(()) => send_output(state, dest, place, mark, buffer, outbox),
        Err(fault) => Err(fault),
    }
}

// Appends the acknowledgement of the message that the entry at a place posts, to its source.
pub(crate) fn send_ack(
    state: &HostState,
    source: Endpoint,
    place: usize,
    mark: u8,
    buffer: &mut Vec<u8>,
    outbox: &mut Outbox,
) -> Result<(), NoMemory>
    requires posted { IsTrue (posts (entry_at state.now.entries place)) }
    requires mark { IsAckMark mark }
    requires fits { length (ack_payload state.now.config state.now.entries place mark) ≤ greatest_payload }
    ensures { OnOk result (outbox.new ≡ outbox.old ++ frame_bytes (ack_to state.now.config state.now.entries place mark source) ∷ []) }
{
    buffer.clear();
    match ack_payload(state, place, mark, buffer) {
        Ok(()) => outbox.push(&Frame::new(FrameKind::Ack, source, buffer.as_slice())),
        Err(fault) => Err(fault),
    }
}

// Appends the output that the entry at a place gives an endpoint.
pub(crate) fn send_output(
    state: &HostState,
    dest: Endpoint,
    place: usize,
    mark: u8,
    buffer: &mut Vec<u8>,
    outbox: &mut Outbox,
) -> Result<(), NoMemory>
    requires given { IsSome (position_at state.now.config state.now.entries dest place) }
    requires mark { IsOutputMark mark }
    requires fits { length (output_payload state.now.config state.now.entries dest place mark) ≤ greatest_payload }
    ensures { OnOk result (outbox.new ≡ outbox.old ++ frame_bytes (output_to state.now.config state.now.entries place mark dest) ∷ []) }
{
    buffer.clear();
    match output_payload(state, dest, place, mark, buffer) {
        Ok(()) => outbox.push(&Frame::new(FrameKind::Output, dest, buffer.as_slice())),
        Err(fault) => Err(fault),
    }
}

// Appends the ends of a cycle that the Roll at a place gives, one to each endpoint, in the order of their first accounts.
fn send_ends(
    state: &HostState,
    place: usize,
    mark: u8,
    buffer: &mut Vec<u8>,
    outbox: &mut Outbox,
) -> Result<(), NoMemory>
    requires rolls { (moment : ℕ) × (date : ℕ) × (entry_at state.now.entries place ≡ Some (Roll moment date)) }
    requires mark { IsAckMark mark }
    requires fits { OutputsFit state.now.config state.now.entries place mark }
    ensures { OnOk result (outbox.new ≡ outbox.old ++ map frame_bytes (map (output_to state.now.config state.now.entries place mark) (endpoints_of state.now.config.accounts))) }
{
    let accounts = state.config().accounts.as_slice();
    for number in 0..accounts.len() {
        let dest = accounts[number].endpoint;
        match send_end(
            state,
            &accounts[..number],
            dest,
            place,
            mark,
            buffer,
            outbox,
        ) {
            Ok(()) => {}
            Err(fault) => return Err(fault),
        }
    }
    Ok(())
}

// Appends the end of a cycle to an endpoint, unless an account before has that endpoint too.
fn send_end(
    state: &HostState,
    before: &[Account],
    dest: Endpoint,
    place: usize,
    mark: u8,
    buffer: &mut Vec<u8>,
    outbox: &mut Outbox,
) -> Result<(), NoMemory>
    requires given { IsSome (position_at state.now.config state.now.entries dest place) }
    requires mark { IsAckMark mark }
    requires fits { length (output_payload state.now.config state.now.entries dest place mark) ≤ greatest_payload }
    ensures { OnOk result (outbox.new ≡ outbox.old ++ (if has_endpoint before.now dest then [] else frame_bytes (output_to state.now.config state.now.entries place mark dest) ∷ [])) }
{
    if has_endpoint(before, &dest) {
        return Ok(());
    }
    send_output(state, dest, place, mark, buffer, outbox)
}
