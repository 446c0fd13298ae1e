// What a submission does to a host's list, and the frames that answer it (docs/FORMATS.md, "The order of verdicts").
ghost use Rattle.std.specs.Prelude.{◌≡◌, ◌≤◌, ◌==◌, ◌++◌, ◌∷◌, [], length, true, false, map, is_some, Some, IfOk, IfSome, IsTrue, OnErr, OnOk};
ghost use Rattle.std.specs.Option.{option_to_list};
ghost use Rattle.faim_base.specs.Ranges.{IsEndpoint, IsImad};
ghost use Rattle.faim_edits.specs.Texts.{is_turned_away};
ghost use Rattle.faim_message.specs.Spelling.{message_spelling};
ghost use Rattle.link_frames.specs.Frames.{frame_bytes, greatest_payload};
ghost use Rattle.host_ledger.specs.declared.entries.Entry.{Entry};
ghost use Rattle.host_ledger.specs.declared.entries.Entry.TheVariants.{Posted};
ghost use Rattle.faim_model.specs.declared.decisions.HostOutcome.TheVariants.{Recorded, TurnedAway};
ghost use Rattle.faim_model.specs.Acks.{turned_ack};
ghost use Rattle.faim_model.specs.Frames.{ack, has_identifier, turned};
ghost use Rattle.faim_model.specs.Lawful.{Follows};
ghost use Rattle.faim_model.specs.Sending.{frames_of};
ghost use Rattle.faim_model.specs.Steps.{submit_step};
ghost use Rattle.faim_model.specs.Submissions.{submission};
ghost use Rattle.faim_model.specs.Turns.{adds_to, effective, entry_at, told_again, turn_at};
ghost use Rattle.host_node.specs.Preparing.{bytes_sent, told};
ghost use Rattle.host_turns.specs.Reading.{numbered_of};

use crate::preparing::{Prepared, add};
use crate::resending::send_ack;
use faim_base::{Endpoint, Head, Imad, Moment, NoMemory, Reject, Verdict};
use faim_model::{Decision, HostOutcome, turn_follows};
use host_core::HostState;
use host_ledger::Entry;
use host_turns::{
    Numbered, ReadText, TextReader, decision_on, posted, recorded, told_again, turned_payload,
};
use link_frames::{Frame, FrameKind};
use std::alloc::Global;
use store_forward::Outbox;

// The mark of an acknowledgement that is sent again.
const AGAIN: u8 = b'P';

// The refusals of a submission that is turned away: it is no message, its identifier is none, its line is another than its
// source's, or its identifier has another text.
const NO_MESSAGE: Reject = Reject {
    category: b'E',
    code: 1,
};

const NO_IDENTIFIER: Reject = Reject {
    category: b'E',
    code: 2,
};

const OTHER_LINE: Reject = Reject {
    category: b'H',
    code: 102,
};

const OTHER_TEXT: Reject = Reject {
    category: b'X',
    code: 201,
};

// A text of any bytes is submitted on an endpoint's line.
pub(crate) fn submit(
    alloc: Global,
    state: &mut HostState,
    line: Endpoint,
    reading: Moment,
    text: &[u8],
    outbox: &mut Outbox,
) -> Result<Prepared, NoMemory>
    ensures told { IfOk result (λ p. p ≡ told (submit_step state.old.config state.old.entries line (effective state.old.entries reading) (submission state.old.config.env text.now))) }
    ensures entries { OnOk result (state.new.entries ≡ adds_to (submit_step state.old.config state.old.entries line (effective state.old.entries reading) (submission state.old.config.env text.now)).adds state.old.entries) }
    ensures config { state.new.config ≡ state.old.config }
    ensures frames { OnOk result (outbox.new ≡ outbox.old ++ bytes_sent (submit_step state.old.config state.old.entries line (effective state.old.entries reading) (submission state.old.config.env text.now))) }
    ensures kept { OnErr result (state.new ≡ state.old) }
{
    turn_follows();
    let config = state.config();
    let mut reader = TextReader::new(alloc)?;
    let submission = reader.read(config.env, text)?;
    let moment = state.effective(reading);
    match submission {
        ReadText::Strange => turn_away(alloc, state, line, moment, NO_MESSAGE, None, outbox),
        ReadText::Unnumbered => turn_away(alloc, state, line, moment, NO_IDENTIFIER, None, outbox),
        ReadText::Numbered(message) => post(alloc, state, line, moment, message, outbox),
    }
}

// A message with a valid identifier is judged at an effective moment, and added where it is new.
fn post(
    alloc: Global,
    state: &mut HostState,
    line: Endpoint,
    moment: Moment,
    message: Numbered,
    outbox: &mut Outbox,
) -> Result<Prepared, NoMemory>
    requires { (x : Entry) → (turn_at state.old.config state.old.entries line moment (numbered_of message)).adds ≡ Some x → Follows state.old.config state.old.entries x }
    ensures told { IfOk result (λ p. p ≡ told (submit_step state.old.config state.old.entries line moment (numbered_of message))) }
    ensures entries { OnOk result (state.new.entries ≡ adds_to (submit_step state.old.config state.old.entries line moment (numbered_of message)).adds state.old.entries) }
    ensures config { state.new.config ≡ state.old.config }
    ensures frames { OnOk result (outbox.new ≡ outbox.old ++ bytes_sent (submit_step state.old.config state.old.entries line moment (numbered_of message))) }
    ensures kept { OnErr result (state.new ≡ state.old) }
{
    let decision = decision_on(state, line, moment, &message);
    match decision {
        Decision::New(verdict) => post_new(alloc, state, moment, message, verdict, outbox),
        Decision::Known(place) => tell_again(alloc, state, place, outbox),
        Decision::Differs(_) => {
            turn_back(
                alloc,
                state,
                line,
                moment,
                &message.head,
                OTHER_TEXT,
                outbox,
            )
        }
        Decision::WrongSource => {
            turn_back(
                alloc,
                state,
                line,
                moment,
                &message.head,
                OTHER_LINE,
                outbox,
            )
        }
    }
}

// Turns a message with a valid identifier away.
fn turn_back(
    alloc: Global,
    state: &HostState,
    line: Endpoint,
    moment: Moment,
    head: &Head,
    why: Reject,
    outbox: &mut Outbox,
) -> Result<Prepared, NoMemory>
    requires away { IsTrue (is_turned_away why) }
    requires identified { IsTrue (has_identifier why) }
    ensures told { IfOk result (λ p. p ≡ record { outcome = TurnedAway why; added = false }) }
    ensures frames { OnOk result (outbox.new ≡ outbox.old ++ frame_bytes (turned state.now.config why (Some head.now.imad) moment line) ∷ []) }
{
    are_ranged(&head.imad);
    turn_away(alloc, state, line, moment, why, Some(head.imad), outbox)
}

// Adds a message with its verdict at an effective moment.
fn post_new(
    alloc: Global,
    state: &mut HostState,
    moment: Moment,
    message: Numbered,
    verdict: Verdict,
    outbox: &mut Outbox,
) -> Result<Prepared, NoMemory>
    requires { Follows state.old.config state.old.entries (Posted message.head message.body (message.mark == 80) moment verdict) }
    ensures told { IfOk result (λ p. p ≡ record { outcome = Recorded message.head.imad verdict; added = true }) }
    ensures entries { OnOk result (state.new.entries ≡ Posted message.head message.body (message.mark == 80) moment verdict ∷ state.old.entries) }
    ensures config { state.new.config ≡ state.old.config }
    ensures frames { OnOk result (outbox.new ≡ outbox.old ++ map frame_bytes (frames_of state.old.config state.old.entries (Posted message.head message.body (message.mark == 80) moment verdict) 32)) }
    ensures kept { OnErr result (state.new ≡ state.old) }
{
    let outcome = recorded(&message.head, &verdict);
    let entry = posted(message, moment, &verdict);
    match add(alloc, state, entry, outbox) {
        Ok(()) => Ok(Prepared {
            outcome,
            added: true,
        }),
        Err(fault) => Err(fault),
    }
}

// The parts of an identifier are in their ranges.
fn are_ranged(imad: &Imad)
    ensures { IsImad imad.now }
{
    // They are read since their readers tell their ranges.
    let _day = imad.date.get();
    let _name = imad.source.bytes();
    let _number = imad.seq.get();
}

// The bytes of a name are those of names.
fn is_named(line: Endpoint)
    ensures { IsEndpoint line }
{
    // They are read since their reader tells their range.
    let _name = line.bytes();
}

// Tells the verdict that the entry at a place keeps, and appends its acknowledgement, marked `P`.
fn tell_again(
    alloc: Global,
    state: &HostState,
    place: usize,
    outbox: &mut Outbox,
) -> Result<Prepared, NoMemory>
    ensures told { IfOk result (λ p. p ≡ record { outcome = told_again (entry_at state.now.entries place); added = false }) }
    ensures frames { OnOk result (outbox.new ≡ outbox.old ++ map frame_bytes (option_to_list (ack state.now.config state.now.entries place 80))) }
{
    match send_kept(alloc, state, place, outbox) {
        Ok(()) => Ok(Prepared {
            outcome: told_again(state, place),
            added: false,
        }),
        Err(fault) => Err(fault),
    }
}

// Appends the acknowledgement of the entry at a place, where it has one, marked `P`.
fn send_kept(
    alloc: Global,
    state: &HostState,
    place: usize,
    outbox: &mut Outbox,
) -> Result<(), NoMemory>
    ensures { OnOk result (outbox.new ≡ outbox.old ++ map frame_bytes (option_to_list (ack state.now.config state.now.entries place 80))) }
{
    // The configuration's reader tells that it is sound and the list lawful: so the acknowledgement fits a frame.
    let _config = state.config();
    let mut buffer = Vec::new(alloc);
    match state.entry(place) {
        Some(Entry::Posted { head, moment, .. }) => {
            let _minutes = moment.get();
            send_ack(state, head.imad.source, place, AGAIN, &mut buffer, outbox)
        }
        Some(Entry::Roll { .. }) => Ok(()),
        None => Ok(()),
    }
}

// Turns a submission away, and appends the acknowledgement of that to the endpoint that it came from.
fn turn_away(
    alloc: Global,
    state: &HostState,
    line: Endpoint,
    moment: Moment,
    why: Reject,
    imad: Option<Imad>,
    outbox: &mut Outbox,
) -> Result<Prepared, NoMemory>
    requires away { IsTrue (is_turned_away why) }
    requires identified { is_some imad ≡ has_identifier why }
    requires sound { IfSome imad IsImad }
    ensures told { IfOk result (λ p. p ≡ record { outcome = TurnedAway why; added = false }) }
    ensures frames { OnOk result (outbox.new ≡ outbox.old ++ frame_bytes (turned state.now.config why imad moment line) ∷ []) }
{
    // What is read here has its range told by its reader: so the acknowledgement fits a frame.
    let _minutes = moment.get();
    is_named(line);
    let _config = state.config();
    match send_turned(alloc, state, line, moment, why, imad, outbox) {
        Ok(()) => Ok(Prepared {
            outcome: HostOutcome::TurnedAway(why),
            added: false,
        }),
        Err(fault) => Err(fault),
    }
}

// Appends the acknowledgement that turns a submission away.
fn send_turned(
    alloc: Global,
    state: &HostState,
    line: Endpoint,
    moment: Moment,
    why: Reject,
    imad: Option<Imad>,
    outbox: &mut Outbox,
) -> Result<(), NoMemory>
    requires away { IsTrue (is_turned_away why) }
    requires identified { is_some imad ≡ has_identifier why }
    requires fits { length (message_spelling (turned_ack state.now.config.env why imad moment)) ≤ greatest_payload }
    ensures { OnOk result (outbox.new ≡ outbox.old ++ frame_bytes (turned state.now.config why imad moment line) ∷ []) }
{
    let env = state.config().env;
    let mut buffer = Vec::new(alloc);
    match turned_payload(env, why, imad, moment, &mut buffer) {
        Ok(()) => outbox.push(&Frame::new(FrameKind::Ack, line, buffer.as_slice())),
        Err(fault) => Err(fault),
    }
}
