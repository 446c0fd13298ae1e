// What a host does with what comes from a line.
ghost use Rattle.std.specs.Prelude.{◌≡◌, ◌==◌, Some, IfOk, OnOk, OnErr};
ghost use Rattle.faim_base.specs.Refusals.{refusal};
ghost use Rattle.host_ledger.specs.declared.entries.Entry.{Entry};
ghost use Rattle.host_ledger.specs.declared.entries.Entry.TheVariants.{Posted};
ghost use Rattle.faim_model.specs.declared.decisions.HostOutcome.TheVariants.{Recorded, TurnedAway};
ghost use Rattle.faim_model.specs.Lawful.{Follows};
ghost use Rattle.faim_model.specs.Turns.{adds_to, submitted, told_again, entry_at, turn_at, retrieved_turn};
ghost use Rattle.faim_model.specs.Verdicts.{judged};
ghost use Rattle.host_turns.specs.Reading.{numbered_of};

use crate::reading::{Numbered, ReadText, TextReader};
use faim_base::{Endpoint, Head, Moment, NoMemory, OutPos, Reject, Verdict};
use faim_model::{Decision, HostOutcome, turn_follows};
use host_core::{HostState, Judged};
use host_ledger::Entry;
use std::alloc::Global;

/// A text of any bytes is submitted on an endpoint's line, at the clock's reading: the host's turn at it. It is decoded
/// once, and judged at the effective moment. A new verdict is recorded with its message and told, one that stands is told
/// again, and any other refusal changes nothing (docs/FORMATS.md, "The order of verdicts"). `NoMemory` leaves the state as
/// it was.
pub fn submit(
    alloc: Global,
    state: &mut HostState,
    line: Endpoint,
    reading: Moment,
    text: &[u8],
) -> Result<HostOutcome, NoMemory>
    ensures outcome { IfOk result (λ x. x ≡ (submitted state.old.config state.old.entries line reading text.now).outcome) }
    ensures entries { OnOk result (state.new.entries ≡ adds_to (submitted state.old.config state.old.entries line reading text.now).adds state.old.entries) }
    ensures config { state.new.config ≡ state.old.config }
    ensures kept { OnErr result (state.new ≡ state.old) }
{
    turn_follows();
    let config = state.config();
    let mut reader = TextReader::new(alloc)?;
    let submission = reader.read(config.env, text)?;
    match submission {
        ReadText::Strange => Ok(turned(b'E', 1)),
        ReadText::Unnumbered => Ok(turned(b'E', 2)),
        ReadText::Numbered(message) => {
            let moment = state.effective(reading);
            post(state, line, moment, message)
        }
    }
}

// A message with a valid identifier is judged at an effective moment, and recorded where it is new.
fn post(
    state: &mut HostState,
    line: Endpoint,
    moment: Moment,
    message: Numbered,
) -> Result<HostOutcome, NoMemory>
    requires { (x : Entry) → (turn_at state.old.config state.old.entries line moment (numbered_of message)).adds ≡ Some x → Follows state.old.config state.old.entries x }
    ensures outcome { IfOk result (λ x. x ≡ (turn_at state.old.config state.old.entries line moment (numbered_of message)).outcome) }
    ensures entries { OnOk result (state.new.entries ≡ adds_to (turn_at state.old.config state.old.entries line moment (numbered_of message)).adds state.old.entries) }
    ensures config { state.new.config ≡ state.old.config }
    ensures kept { OnErr result (state.new ≡ state.old) }
{
    let decision = decision_on(state, line, moment, &message);
    match decision {
        Decision::New(verdict) => {
            let outcome = recorded(&message.head, &verdict);
            state.push(posted(message, moment, &verdict))?;
            Ok(outcome)
        }
        Decision::Known(place) => Ok(told_again(state, place)),
        Decision::Differs(_) => Ok(turned(b'X', 201)),
        Decision::WrongSource => Ok(turned(b'H', 102)),
    }
}

/// The entry that keeps a message, whether its mark was `P`, the moment and the verdict.
pub fn posted(message: Numbered, moment: Moment, verdict: &Verdict) -> Entry
    ensures { result ≡ Posted message.head message.body (message.mark == 80) moment verdict.now }
{
    let Numbered {
        head,
        body,
        mark,
        ..
    } = message;
    Entry::Posted {
        head,
        body,
        resent: mark == b'P',
        moment,
        verdict: *verdict,
    }
}

/// The outcome where a verdict was recorded with its message.
pub fn recorded(head: &Head, verdict: &Verdict) -> HostOutcome
    ensures { result ≡ Recorded head.now.imad verdict.now }
{
    HostOutcome::Recorded {
        imad: head.imad,
        verdict: *verdict,
    }
}

/// The decision on a message from an endpoint's line at an effective moment (docs/FORMATS.md, "The order of verdicts").
pub fn decision_on(
    state: &HostState,
    line: Endpoint,
    moment: Moment,
    message: &Numbered,
) -> Decision
    ensures { result ≡ judged state.now.config state.now.entries line moment message.now.head message.now.body message.now.failed }
{
    let judged = Judged {
        head: message.head,
        body: message.body.as_slice(),
        resent: message.mark == b'P',
        edit: message.failed,
    };
    state.decide(line, &judged, moment)
}

/// The outcome where the entry at a place keeps the verdict: that verdict.
pub fn told_again(state: &HostState, place: usize) -> HostOutcome
    ensures { result ≡ told_again (entry_at state.now.entries place) }
{
    match state.entry(place) {
        Some(Entry::Posted { head, verdict, .. }) => HostOutcome::Known {
            imad: head.imad,
            verdict: *verdict,
        },
        Some(Entry::Roll { .. }) => turned(b'E', 1),
        None => turned(b'E', 1),
    }
}

fn turned(category: u8, code: u16) -> HostOutcome
    ensures { result ≡ TurnedAway (refusal category code) }
{
    HostOutcome::TurnedAway(Reject { category, code })
}

/// An endpoint asks for its outputs from a position on: the count of those that it is given again
/// (docs/FORMATS.md, "The order of verdicts").
pub fn retrieve(state: &HostState, line: Endpoint, at: OutPos) -> Result<HostOutcome, NoMemory>
    ensures { IfOk result (λ x. x ≡ (retrieved_turn state.now.config state.now.entries line at).outcome) }
{
    let places = state.retrieve(line, at)?;
    Ok(HostOutcome::Retrieved(places.as_slice().len() as u32))
}
