// What outputs give a bank (docs/FORMATS.md, "What a bank takes").
ghost use Rattle.std.specs.Prelude.{◌≡◌, ◌↔◌, slice_set, IfOk, IsTrue, Some};
ghost use Rattle.std.specs.Option.{option_map};
ghost use Rattle.faim_message.specs.declared.form.Form.{Form};
ghost use Rattle.faim_message.specs.Decoded.{decoded};
ghost use Rattle.bank_turns.specs.OutputTexts.{given_in, output_given};
ghost use Rattle.bank_texts.specs.Reads.{given_of};

use crate::places::{OutputPlace, place_in};
use bank_books::BankOpening;
use faim_base::{Bytes, CycleDate, NoMemory, OutPos, Refused};
use faim_message::{Form, Message};
use faim_stream::Decoder;
use std::alloc::Global;
use std::marker::Model;

// Which byte of an output's text is the mark, counted from 0.
const MARK: usize = 9;

/// An output: its position, its text with a blank as its mark, and the date that it goes on to where it ends a cycle.
#[derive(Debug, Drop)]
pub struct OutputRead {
    pub at: OutPos,
    pub text: Bytes,
    pub next: Option<CycleDate>,
}

/// What reads the outputs that come to a bank, and those that its journal keeps, one after another. It is made once, before
/// a device is called: its room holds the text that is being read.
#[derive(Drop)]
pub struct OutputReader {
    alloc: Global,
    decoder: Decoder,
}

impl Model for OutputReader {
    ghost use Rattle.std.specs.Prelude.{◌≡◌, []};
    ghost use Rattle.faim_message.specs.declared.form.Form.TheVariants.{Output};
    ghost use Rattle.faim_stream.specs.Fed.{IsFed};

    ghost Value = { Unit {0} };

    ghost view = { λ _. tt };

    ghost invariant = { λ r. (r.decoder.form ≡ Output) × IsFed r.decoder [] };
}

impl OutputReader {
    /// Reserves the room of a decoder, 8,192 bytes.
    pub fn new(alloc: Global) -> Result<OutputReader, NoMemory> {
        Ok(OutputReader {
            alloc,
            decoder: Decoder::new(alloc, Form::Output)?,
        })
    }

    /// What a payload of any bytes gives the bank of an opening as an output. None exactly where it is strange to the bank;
    /// whether it is the wanted one is for its books to say. The next call reads the next payload, after `NoMemory` too. It
    /// takes memory for the message, and for the text (docs/FORMATS.md, "What a bank takes").
    pub fn read(
        &mut self,
        opening: &BankOpening,
        payload: &[u8],
    ) -> Result<Option<OutputRead>, NoMemory>
        ensures { IfOk result (λ r. option_map given_of r ≡ output_given opening.now payload.now) }
    {
        let alloc = self.alloc;
        match self.decoder.decode(payload) {
            Ok(message) => given_in(alloc, opening, payload, &message),
            Err(Refused::Byte(_)) => Ok(None),
            Err(Refused::Cut) => Ok(None),
            Err(Refused::Missing(_)) => Ok(None),
            Err(Refused::NoMemory) => Err(NoMemory),
        }
    }

    /// Whether a text is one that a bank of this opening keeps of an output with this position and this next date: read as
    /// an output, it gives itself with them. The next call reads the next text, after `NoMemory` too (docs/FORMATS.md,
    /// "What a bank takes").
    pub fn keeps_output(
        &mut self,
        opening: &BankOpening,
        at: OutPos,
        text: &[u8],
        next: Option<CycleDate>,
    ) -> Result<bool, NoMemory>
        ensures { IfOk result (λ b. IsTrue b ↔ (output_given opening.now text.now ≡ Some (record { at = at; text = text.now; next = next }))) }
    {
        match self.read(opening, text) {
            Ok(Some(read)) => Ok(is_output(&read, at, text, next)),
            Ok(None) => Ok(false),
            Err(fault) => Err(fault),
        }
    }
}

// What the message gives that the payload spells.
fn given_in(
    alloc: Global,
    opening: &BankOpening,
    payload: &[u8],
    message: &Message,
) -> Result<Option<OutputRead>, NoMemory>
    requires form { message.now.form ≡ Form.Output }
    requires read { decoded Form.Output payload.now ≡ Some message.now }
    ensures { IfOk result (λ r. option_map given_of r ≡ given_in opening.now (Some message.now)) }
{
    match place_in(opening, message) {
        Some(OutputPlace { at, next }) => {
            let text = with_blank(alloc, payload)?;
            Ok(Some(OutputRead { at, text, next }))
        }
        None => Ok(None),
    }
}

// An output's text with a blank as its mark.
fn with_blank(alloc: Global, text: &[u8]) -> Result<Bytes, NoMemory>
    ensures { IfOk result (λ marked. marked ≡ slice_set text.now 9 32) }
{
    let mut marked = Bytes::new(alloc);
    marked.extend(text)?;
    match marked.get_mut(MARK) {
        Some(place) => *place = b' ',
        None => {}
    }
    Ok(marked)
}

// Whether an output that was read has this position, this text and this next date.
fn is_output(read: &OutputRead, at: OutPos, text: &[u8], next: Option<CycleDate>) -> bool
    ensures { IsTrue result ↔ (given_of read.now ≡ record { at = at; text = text.now; next = next }) }
{
    read.at == at && read.text.as_slice() == text && is_date(read.next, next)
}

// Whether two dates are the same, or there is none.
fn is_date(found: Option<CycleDate>, wanted: Option<CycleDate>) -> bool
    ensures { IsTrue result ↔ (found ≡ wanted) }
{
    match found {
        Some(found) => match wanted {
            Some(wanted) => found == wanted,
            None => false,
        },
        None => wanted.is_none(),
    }
}
