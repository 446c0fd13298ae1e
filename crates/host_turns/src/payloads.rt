// The payloads that a host sends (docs/FORMATS.md, "What a host sends").
ghost use Rattle.std.specs.Prelude.{◌≡◌, ◌++◌, ◌∷◌, [], ◌<◌, length, take, ℕ, List, Bool, Some, IsSome, is_some, IsTrue, OnOk, OnErr, if◌then◌else◌};
ghost use Rattle.std.specs.List.{flat_map};
ghost use Rattle.faim_base.specs.Ids.{imad_text};
ghost use Rattle.faim_base.specs.Text.{is_text_byte};
ghost use Rattle.faim_base.specs.declared.judgement.Head.{Head};
ghost use Rattle.faim_base.specs.declared.judgement.Verdict.{Verdict};
ghost use Rattle.faim_edits.specs.Texts.{is_turned_away};
ghost use Rattle.faim_tags.specs.Spelling.{spelling};
ghost use Rattle.faim_message.specs.declared.form.Form.{Form};
ghost use Rattle.faim_message.specs.Decoded.{decoded};
ghost use Rattle.faim_message.specs.Forms.{between};
ghost use Rattle.faim_message.specs.Numbering.{imad_tag};
ghost use Rattle.faim_message.specs.Spelling.{Content, joined, message_spelling};
ghost use Rattle.host_ledger.specs.Soundness.{IsEnv};
ghost use Rattle.host_ledger.specs.Sums.{moves_money};
ghost use Rattle.host_ledger.specs.declared.entries.Entry.TheVariants.{Posted};
ghost use Rattle.faim_model.specs.Acks.{imad_tags, turned_ack, verdict_ack};
ghost use Rattle.faim_model.specs.Deliveries.{next_tag, output_message};
ghost use Rattle.faim_model.specs.Frames.{has_identifier};
ghost use Rattle.faim_model.specs.Items.{position_at};
ghost use Rattle.faim_model.specs.Outputs.{Item};
ghost use Rattle.faim_model.specs.Payloads.{ack_payload, output_payload, posts};
ghost use Rattle.faim_model.specs.ServiceTags.{moment_tag, refusal_tag, status_tag};
ghost use Rattle.faim_model.specs.Submissions.{text_with};
ghost use Rattle.faim_model.specs.Turns.{entry_at};
ghost use Rattle.host_turns.specs.HostTags.{tags_of};

use crate::service_tags::{
    HostTags, write_host_tags, write_imad, write_moment, write_next, write_refusal, write_status,
};
use faim_base::{
    CycleDate, Endpoint, Head, Imad, Moment, NoMemory, OutPos, Reject, Verdict, after, before,
};
use faim_message::decoded_is_spelled;
use faim_model::{outputs_hand_on_texts, outputs_stand_at_their_places, posted_messages_are_sound};
use host_core::{HostState, moves_money};
use host_ledger::Entry;

/// Appends the acknowledgement of the message that the entry at a place posts, with a mark: a blank at the first sending,
/// `P` afterwards. The entry posts a message, and the mark is a text byte. `NoMemory` leaves `out` as it was.
pub fn ack_payload(
    state: &HostState,
    place: usize,
    mark: u8,
    out: &mut Vec<u8>,
) -> Result<(), NoMemory>
    requires posted { IsTrue (posts (entry_at state.now.entries place)) }
    requires mark { IsTrue (is_text_byte mark) }
    ensures ok { OnOk result (out.new.items ≡ out.old.items ++ ack_payload state.now.config state.now.entries place mark) }
    ensures err { OnErr result (out.new.items ≡ out.old.items) }
{
    let length = out.len();
    let written = write_ack(state, place, mark, out);
    written_or_taken_back(written, length, out)
}

/// Appends the acknowledgement of a submission that is turned away at an effective moment, with a blank as its mark. `env`
/// is `T` or `P`, the refusal is E001, E002, H102 or X201, and the IMAD is there exactly with H102 and X201. `NoMemory`
/// leaves `out` as it was.
pub fn turned_payload(
    env: u8,
    refusal: Reject,
    imad: Option<Imad>,
    moment: Moment,
    out: &mut Vec<u8>,
) -> Result<(), NoMemory>
    requires env { IsEnv env }
    requires refusal { IsTrue (is_turned_away refusal) }
    requires imad { is_some imad ≡ has_identifier refusal }
    ensures ok { OnOk result (out.new.items ≡ out.old.items ++ message_spelling (turned_ack env refusal imad moment)) }
    ensures err { OnErr result (out.new.items ≡ out.old.items) }
{
    let length = out.len();
    let written = write_refused(env, b' ', moment, refusal, imad, out);
    written_or_taken_back(written, length, out)
}

/// Appends the output that the entry at a place gives an endpoint, with a mark: a blank at the first sending, `P` after a
/// restart, `R` in a retrieval. `HostState::position` gives its position, and the mark is a text byte. `NoMemory` leaves
/// `out` as it was.
pub fn output_payload(
    state: &HostState,
    dest: Endpoint,
    place: usize,
    mark: u8,
    out: &mut Vec<u8>,
) -> Result<(), NoMemory>
    requires given { IsSome (position_at state.now.config state.now.entries dest place) }
    requires mark { IsTrue (is_text_byte mark) }
    ensures ok { OnOk result (out.new.items ≡ out.old.items ++ output_payload state.now.config state.now.entries dest place mark) }
    ensures err { OnErr result (out.new.items ≡ out.old.items) }
{
    let length = out.len();
    let written = write_output_at(state, dest, place, mark, out);
    written_or_taken_back(written, length, out)
}

// Takes back what was appended since a length where memory ran out.
fn written_or_taken_back(
    written: Result<(), NoMemory>,
    length: usize,
    out: &mut Vec<u8>,
) -> Result<(), NoMemory>
    ensures result { result ≡ written }
    ensures ok { OnOk written (out.new.items ≡ out.old.items) }
    ensures err { OnErr written (out.new.items ≡ take length out.old.items) }
{
    match written {
        Ok(()) => Ok(()),
        Err(fault) => {
            out.truncate(length);
            Err(fault)
        }
    }
}

// Appends the acknowledgement of the entry at a place, or a front part of it where memory runs out.
fn write_ack(state: &HostState, place: usize, mark: u8, out: &mut Vec<u8>) -> Result<(), NoMemory>
    requires { IsTrue (posts (entry_at state.now.entries place)) }
    ensures ok { OnOk result (out.new.items ≡ out.old.items ++ ack_payload state.now.config state.now.entries place mark) }
    ensures kept { take (length out.old.items) out.new.items ≡ out.old.items }
{
    let env = state.config().env;
    match state.entry(place) {
        Some(
            Entry::Posted {
                head,
                moment,
                verdict,
                ..
            },
        ) => write_verdict_ack(env, head, *moment, verdict, mark, out),
        Some(Entry::Roll { .. }) => unreachable!(),
        None => unreachable!(),
    }
}

fn write_verdict_ack(
    env: u8,
    head: &Head,
    moment: Moment,
    verdict: &Verdict,
    mark: u8,
    out: &mut Vec<u8>,
) -> Result<(), NoMemory>
    ensures ok { OnOk result (out.new.items ≡ out.old.items ++ message_spelling (verdict_ack env head.now moment verdict.now mark)) }
    ensures kept { take (length out.old.items) out.new.items ≡ out.old.items }
{
    match verdict {
        Verdict::Taken { dest, seq } => {
            let tags = HostTags {
                env,
                mark,
                status: taken_status(head),
                moment,
                at: OutPos {
                    date: head.imad.date,
                    seq: *seq,
                },
                dest: *dest,
            };
            write_taken(&tags, &head.imad, out)
        }
        Verdict::Refused(why) => write_refused(env, mark, moment, *why, Some(head.imad), out),
    }
}

// The status of an acknowledgement: 2 where the message moves money, and 7 where it moves none.
fn taken_status(head: &Head) -> u8
    ensures { result ≡ (if moves_money head.now then 50 else 55) }
{
    if moves_money(head) { b'2' } else { b'7' }
}

fn write_taken(tags: &HostTags, imad: &Imad, out: &mut Vec<u8>) -> Result<(), NoMemory>
    ensures ok { OnOk result (out.new.items ≡ out.old.items ++ joined [] [] (tags_of tags.now ++ imad_tag (imad_text imad.now) ∷ [])) }
    ensures kept { take (length out.old.items) out.new.items ≡ out.old.items }
{
    write_host_tags(tags, b"", out)?;
    write_imad(imad, out)
}

// Appends the acknowledgement of a refusal, with the identifier where there is one.
fn write_refused(
    env: u8,
    mark: u8,
    moment: Moment,
    why: Reject,
    imad: Option<Imad>,
    out: &mut Vec<u8>,
) -> Result<(), NoMemory>
    ensures ok { OnOk result (out.new.items ≡ out.old.items ++ joined [] [] (status_tag env mark 51 ∷ moment_tag moment ∷ refusal_tag why ∷ imad_tags imad)) }
    ensures kept { take (length out.old.items) out.new.items ≡ out.old.items }
{
    write_status(env, mark, b'3', out)?;
    write_moment(moment, out)?;
    write_refusal(why, out)?;
    write_imad_if_any(imad, out)
}

fn write_imad_if_any(imad: Option<Imad>, out: &mut Vec<u8>) -> Result<(), NoMemory>
    ensures ok { OnOk result (out.new.items ≡ out.old.items ++ joined [] [] (imad_tags imad)) }
    ensures kept { take (length out.old.items) out.new.items ≡ out.old.items }
{
    match imad {
        Some(imad) => write_imad(&imad, out),
        None => Ok(()),
    }
}

// Appends the output that the entry at a place gives an endpoint, or a front part of it where memory runs out.
fn write_output_at(
    state: &HostState,
    dest: Endpoint,
    place: usize,
    mark: u8,
    out: &mut Vec<u8>,
) -> Result<(), NoMemory>
    requires { IsSome (position_at state.now.config state.now.entries dest place) }
    ensures ok { OnOk result (out.new.items ≡ out.old.items ++ output_payload state.now.config state.now.entries dest place mark) }
    ensures kept { take (length out.old.items) out.new.items ≡ out.old.items }
{
    outputs_stand_at_their_places();
    posted_messages_are_sound();
    decoded_is_spelled();
    let env = state.config().env;
    let at = state.position(dest, place).unwrap();
    let entry = state.entry(place).unwrap();
    write_item(env, dest, &at, entry, mark, out)
}

// Appends the output at a position that an entry gives an endpoint.
fn write_item(
    env: u8,
    dest: Endpoint,
    at: &OutPos,
    entry: &Entry,
    mark: u8,
    out: &mut Vec<u8>,
) -> Result<(), NoMemory>
    requires { (h : Head) (body : List ℕ) (resent : Bool) (moment : ℕ) (v : Verdict)
        → entry.now ≡ Posted h body resent moment v → IsSome (decoded Form.Input body) }
    ensures ok { (i : Item) → i.at ≡ at.now → i.entry ≡ entry.now
        → OnOk result (out.new.items ≡ out.old.items ++ message_spelling (output_message env dest i mark)) }
    ensures kept { take (length out.old.items) out.new.items ≡ out.old.items }
{
    outputs_hand_on_texts();
    match entry {
        Entry::Posted {
            head,
            body,
            resent,
            moment,
            ..
        } => {
            let tags = HostTags {
                env,
                mark,
                status: message_status(head),
                moment: *moment,
                at: *at,
                dest,
            };
            write_message(&tags, body.as_slice(), *resent, out)
        }
        Entry::Roll { moment, date } => {
            let tags = HostTags {
                env,
                mark,
                status: b'E',
                moment: *moment,
                at: *at,
                dest,
            };
            write_end(&tags, *date, out)
        }
    }
}

// The status of a message's output: N where it moves money, and S where it moves none.
fn message_status(head: &Head) -> u8
    ensures { result ≡ (if moves_money head.now then 78 else 83) }
{
    if moves_money(head) { b'N' } else { b'S' }
}

// Appends the end of a cycle: the host's tags and the new date, joined.
fn write_end(tags: &HostTags, date: CycleDate, out: &mut Vec<u8>) -> Result<(), NoMemory>
    ensures ok { OnOk result (out.new.items ≡ out.old.items ++ joined [] [] (tags_of tags.now ++ next_tag date ∷ [])) }
    ensures kept { take (length out.old.items) out.new.items ≡ out.old.items }
{
    write_host_tags(tags, b"", out)?;
    write_next(date, out)
}

// Appends a message: the host's tags, each followed by the submission's break, and the submission with its mark.
fn write_message(
    tags: &HostTags,
    body: &[u8],
    resent: bool,
    out: &mut Vec<u8>,
) -> Result<(), NoMemory>
    requires { IsSome (decoded Form.Input body.now) }
    ensures ok { (m : Content) → decoded Form.Input body.now ≡ Some m
        → OnOk result (out.new.items ≡ out.old.items ++ (flat_map (λ t. spelling t ++ between m.breaks) (tags_of tags.now) ++ text_with (if resent then 80 else 32) body.now)) }
    ensures kept { take (length out.old.items) out.new.items ≡ out.old.items }
{
    decoded_is_spelled();
    write_host_tags(tags, break_in(body), out)?;
    write_text(body, submitted_mark(resent), out)
}

// The mark of a submission that an entry keeps: P where it was recorded with P, and else a blank.
fn submitted_mark(resent: bool) -> u8
    ensures { result ≡ (if resent then 80 else 32) }
{
    if resent { b'P' } else { b' ' }
}

// What stands after each tag of a submission but the last: its first tag has 18 bytes, and a brace begins the next one.
fn break_in(body: &[u8]) -> &'static [u8]
    requires { 18 < length body.now }
    ensures { (m : Content) → decoded Form.Input body.now ≡ Some m → result.now ≡ between m.breaks }
{
    decoded_is_spelled();
    let next = body[18];
    if next == b'\n' {
        b"\n"
    } else if next == b'\r' {
        b"\r\n"
    } else {
        b""
    }
}

// Appends a submission's text with a mark.
fn write_text(body: &[u8], mark: u8, out: &mut Vec<u8>) -> Result<(), NoMemory>
    requires { 17 < length body.now }
    ensures ok { OnOk result (out.new.items ≡ out.old.items ++ text_with mark body.now) }
    ensures kept { take (length out.old.items) out.new.items ≡ out.old.items }
{
    out.extend_from_slice(before(body, 17))?;
    out.push(mark)?;
    out.extend_from_slice(after(body, 18))?;
    Ok(())
}
