// Whether an entry may come next, as its journal tells it.
ghost use Rattle.std.specs.Prelude.{◌≡◌, ◌≤◌, ◌↔◌, IfOk, IsTrue};
ghost use Rattle.faim_model.specs.Lawful.{Follows, PostFollows, RollFollows, last_moment};
ghost use Rattle.faim_model.specs.declared.decisions.Decision.TheVariants.{New};
ghost use Rattle.host_node.specs.Following.{HasVerdict, Keeps, WasVerdict};

use crate::host_list::HostReader;
use faim_base::{CycleDate, Head, Moment, NoMemory, Verdict};
use faim_message::{decoded_is_spelled, submissions_show_their_bodies};
use faim_model::Decision;
use host_core::{HostState, RollCase};
use host_ledger::Entry;
use host_turns::{Numbered, ReadText, decision_on, with_mark};

// The marks of a first submission: `P`, or a blank, or any other byte, of which one stands for all.
const RESENT: u8 = b'P';

const BLANK: u8 = b' ';

const OTHER: u8 = b'X';

// Whether the entry may come after the host's entries.
pub(crate) fn may_follow(
    reader: &mut HostReader,
    state: &HostState,
    entry: &Entry,
) -> Result<bool, NoMemory>
    ensures { IfOk result (λ b. IsTrue b ↔ Follows state.now.config state.now.entries entry.now) }
{
    match entry {
        Entry::Posted {
            head,
            body,
            resent,
            moment,
            verdict,
        } => post_may_follow(
            reader,
            state,
            head,
            body.as_slice(),
            *resent,
            *moment,
            verdict,
        ),
        Entry::Roll { moment, date } => Ok(roll_may_follow(state, *moment, *date)),
    }
}

// Whether a Roll may come next: to a later date, and not before the newest entry.
fn roll_may_follow(state: &HostState, moment: Moment, date: CycleDate) -> bool
    ensures { IsTrue result ↔ RollFollows state.now.config state.now.entries moment date }
{
    if !is_in_time(state, moment) {
        return false;
    }
    // The range of the date is known once its number is read.
    let _day = date.get();
    match state.roll_case(date) {
        RollCase::Later => true,
        RollCase::NotLater { .. } => false,
    }
}

// Whether a moment isn't before the newest entry's.
fn is_in_time(state: &HostState, moment: Moment) -> bool
    ensures { IsTrue result ↔ (last_moment state.now.entries ≤ moment) }
{
    state.effective(moment) == moment
}

// Whether a posted message may come next.
fn post_may_follow(
    reader: &mut HostReader,
    state: &HostState,
    head: &Head,
    body: &[u8],
    resent: bool,
    moment: Moment,
    verdict: &Verdict,
) -> Result<bool, NoMemory>
    ensures { IfOk result (λ b. IsTrue b ↔ PostFollows state.now.config state.now.entries head.now body.now resent moment verdict.now) }
{
    if !is_in_time(state, moment) {
        return Ok(false);
    }
    match keeps_message(reader, state, head, body) {
        Ok(true) => was_verdict(reader, state, head, body, resent, moment, verdict),
        Ok(false) => Ok(false),
        Err(fault) => Err(fault),
    }
}

// Whether the body is a message with this head and a blank mark.
fn keeps_message(
    reader: &mut HostReader,
    state: &HostState,
    head: &Head,
    body: &[u8],
) -> Result<bool, NoMemory>
    ensures { IfOk result (λ b. IsTrue b ↔ Keeps state.now.config.env head.now body.now) }
{
    decoded_is_spelled();
    submissions_show_their_bodies();
    let config = state.config();
    match reader.texts.read(config.env, body) {
        Ok(ReadText::Numbered(message)) => Ok(has_head(&message, head)),
        Ok(ReadText::Unnumbered) => Ok(false),
        Ok(ReadText::Strange) => Ok(false),
        Err(fault) => Err(fault),
    }
}

// Whether a message has this head and a blank mark.
fn has_head(message: &Numbered, head: &Head) -> bool
    ensures { IsTrue result ↔ ((message.now.head ≡ head.now) × (message.now.mark ≡ 32)) }
{
    message.head == *head && message.mark == BLANK
}

// Whether this is the verdict on the body with a mark that its first submission may have had.
fn was_verdict(
    reader: &mut HostReader,
    state: &HostState,
    head: &Head,
    body: &[u8],
    resent: bool,
    moment: Moment,
    wanted: &Verdict,
) -> Result<bool, NoMemory>
    ensures { IfOk result (λ b. IsTrue b ↔ WasVerdict state.now.config state.now.entries head.now body.now resent moment wanted.now) }
{
    if resent {
        return has_verdict(reader, state, head, body, RESENT, moment, wanted);
    }
    match has_verdict(reader, state, head, body, BLANK, moment, wanted) {
        Ok(true) => Ok(true),
        Ok(false) => has_verdict(reader, state, head, body, OTHER, moment, wanted),
        Err(fault) => Err(fault),
    }
}

// Whether this is the verdict on the body with this mark, from the line of its identifier's source.
fn has_verdict(
    reader: &mut HostReader,
    state: &HostState,
    head: &Head,
    body: &[u8],
    mark: u8,
    moment: Moment,
    wanted: &Verdict,
) -> Result<bool, NoMemory>
    ensures { IfOk result (λ b. IsTrue b ↔ HasVerdict state.now.config state.now.entries head.now body.now mark moment wanted.now) }
{
    let text = with_mark(reader.alloc, body, mark)?;
    let config = state.config();
    match reader.texts.read(config.env, text.as_slice()) {
        Ok(ReadText::Numbered(message)) => {
            let decision = decision_on(state, head.imad.source, moment, &message);
            Ok(is_new(decision, wanted))
        }
        Ok(ReadText::Unnumbered) => Ok(false),
        Ok(ReadText::Strange) => Ok(false),
        Err(fault) => Err(fault),
    }
}

// Whether a decision is this verdict, given now.
fn is_new(decision: Decision, wanted: &Verdict) -> bool
    ensures { IsTrue result ↔ (decision ≡ New wanted.now) }
{
    match decision {
        Decision::New(found) => found == *wanted,
        Decision::Known(_) | Decision::Differs(_) | Decision::WrongSource => false,
    }
}
