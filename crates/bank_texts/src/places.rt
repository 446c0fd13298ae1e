// Where an output stands, and the date that it goes on to (docs/FORMATS.md, "What a bank takes").
ghost use Rattle.std.specs.Prelude.{◌≡◌, ◌∷◌, [], codes, Some, Ok};
ghost use Rattle.std.specs.Option.{option_map};
ghost use Rattle.faim_tags.specs.Reading.{is_among};
ghost use Rattle.faim_message.specs.declared.form.Form.{Form};
ghost use Rattle.faim_model.specs.Steps.{date_in};
ghost use Rattle.bank_turns.specs.OutputTexts.{given_at, given_by, given_in, hands_on, later_than, next_date};
ghost use Rattle.bank_texts.specs.Reads.{given_at_place};

use crate::parts::{env_in, omad_in, stars_in, status_in};
use bank_books::BankOpening;
use faim_base::{CycleDate, Omad, OutPos, after, array_of};
use faim_message::Message;
use faim_tags::ShortBytes;

// The status of an output that ends a cycle.
const ENDS: u8 = b'E';

// The last number of an output that ends a cycle. No other output has it.
const LAST: u32 = 999_999;

// The position of an output, and the date that it goes on to where it ends a cycle.
#[derive(Clone, Copy)]
pub(crate) struct OutputPlace {
    pub(crate) at: OutPos,
    pub(crate) next: Option<CycleDate>,
}

// The place of an output: it must be of the bank's test or production line.
pub(crate) fn place_in(opening: &BankOpening, m: &Message) -> Option<OutputPlace>
    requires { m.now.form ≡ Form.Output }
    ensures { option_map (given_at_place m.now) result ≡ given_in opening.now (Some m.now) }
{
    if env_in(m) != opening.env {
        return None;
    }
    match omad_in(m) {
        Ok(omad) => place_by(opening, m, &omad),
        Err(_) => None,
    }
}

// The place of an output that is the bank's own, with a blank, P or R as its mark.
fn place_by(opening: &BankOpening, m: &Message, omad: &Omad) -> Option<OutputPlace>
    requires { m.now.form ≡ Form.Output }
    ensures { option_map (given_at_place m.now) result ≡ given_by opening.now m.now (Ok omad.now) }
{
    if omad.dest.bytes() != opening.endpoint.bytes() {
        return None;
    }
    if is_output_mark(m.mark()) {
        place_at(m, omad)
    } else {
        None
    }
}

// A mark that a host gives an output.
fn is_output_mark(mark: u8) -> bool
    ensures { result ≡ is_among (codes " PR") mark }
{
    b" PR".iter().any(|known| *known == mark)
}

// The place of an output by its status: E ends a cycle.
fn place_at(m: &Message, omad: &Omad) -> Option<OutputPlace>
    ensures { option_map (given_at_place m.now) result ≡ given_at m.now omad.now }
{
    if status_in(m) != ENDS {
        return place_of_text(m, omad);
    }
    match next_date(omad.date, stars_in(m)) {
        Some(date) => Some(OutputPlace {
            at: position_of(omad),
            next: Some(date),
        }),
        None => None,
    }
}

// The place of an output that hands on a message: its number isn't the last.
fn place_of_text(m: &Message, omad: &Omad) -> Option<OutputPlace>
    ensures { option_map (given_at_place m.now) result ≡ hands_on m.now omad.now }
{
    if omad.seq.get() < LAST {
        Some(OutputPlace {
            at: position_of(omad),
            next: None,
        })
    } else {
        None
    }
}

fn position_of(omad: &Omad) -> OutPos
    ensures { result ≡ record { date = omad.now.date; seq = omad.now.seq } }
{
    OutPos {
        date: omad.date,
        seq: omad.seq,
    }
}

// The date after a date that one element names.
fn next_date(date: CycleDate, stars: &[ShortBytes]) -> Option<CycleDate>
    ensures { result ≡ next_date date stars.now }
{
    if stars.len() == 1 {
        named_date(date, stars[0].as_slice())
    } else {
        None
    }
}

// The date after a date that an element names.
fn named_date(date: CycleDate, star: &[u8]) -> Option<CycleDate>
    ensures { result ≡ next_date date (star.now ∷ []) }
{
    if star.starts_with(b"NEXT ") {
        later_than(date, date_in(after(star, 5)))
    } else {
        None
    }
}

// A date that is later than another.
fn later_than(date: CycleDate, next: Option<CycleDate>) -> Option<CycleDate>
    ensures { result ≡ later_than date next }
{
    match next {
        Some(next) => {
            if date.get() < next.get() {
                Some(next)
            } else {
                None
            }
        }
        None => None,
    }
}

// The date that eight bytes name.
fn date_in(text: &[u8]) -> Option<CycleDate>
    ensures { result ≡ date_in text.now }
{
    match array_of(text) {
        Some(text) => CycleDate::read(&text),
        None => None,
    }
}
