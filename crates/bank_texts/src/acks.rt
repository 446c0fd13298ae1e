// What acknowledgements tell a bank (docs/FORMATS.md, "What a bank takes").
ghost use Rattle.std.specs.Prelude.{◌≡◌, Some, Ok, IfOk};
ghost use Rattle.std.specs.Option.{option_map};
ghost use Rattle.bank_turns.specs.AckTexts.{ack_told, taken_under, told_by, told_in, verdict_on};
ghost use Rattle.faim_model.specs.Readings.{omad_in};
ghost use Rattle.bank_texts.specs.Reads.{told_of};

use crate::parts::{env_in, fixed_in, has_tag, imad_in, omad_in};
use crate::refusals::refused_as;
use bank_books::BankOpening;
use faim_base::{Imad, NoMemory, Refused, Verdict};
use faim_message::{Form, Message};
use faim_stream::Decoder;
use std::alloc::Global;
use std::marker::Model;

/// The verdict that came for an IMAD.
#[derive(Clone, Copy, Debug, PartialEq, Eq)]
pub struct AckRead {
    pub imad: Imad,
    pub verdict: Verdict,
}

/// What reads the acknowledgements that come to a bank, one after another. It is made once, before a device is called: its
/// room holds the text that is being read.
#[derive(Drop)]
pub struct AckReader {
    decoder: Decoder,
}

impl Model for AckReader {
    ghost use Rattle.std.specs.Prelude.{◌≡◌, []};
    ghost use Rattle.faim_message.specs.declared.form.Form.TheVariants.{Ack};
    ghost use Rattle.faim_stream.specs.Fed.{IsFed};

    ghost Value = { Unit {0} };

    ghost view = { λ _. tt };

    ghost invariant = { λ r. (r.decoder.form ≡ Ack) × IsFed r.decoder [] };
}

impl AckReader {
    /// Reserves the room of a decoder, 8,192 bytes.
    pub fn new(alloc: Global) -> Result<AckReader, NoMemory> {
        Ok(AckReader {
            decoder: Decoder::new(alloc, Form::Ack)?,
        })
    }

    /// What a payload of any bytes tells the bank of an opening as an acknowledgement. None exactly where the text itself is
    /// strange to the bank; whether it has a draft with the IMAD is for its books to say. The next call reads the next
    /// payload, after `NoMemory` too. It takes memory for the message alone (docs/FORMATS.md, "What a bank takes").
    pub fn read(
        &mut self,
        opening: &BankOpening,
        payload: &[u8],
    ) -> Result<Option<AckRead>, NoMemory>
        ensures { IfOk result (λ r. option_map told_of r ≡ ack_told opening.now payload.now) }
    {
        match self.decoder.decode(payload) {
            Ok(message) => Ok(told_in(opening, &message)),
            Err(Refused::Byte(_)) => Ok(None),
            Err(Refused::Cut) => Ok(None),
            Err(Refused::Missing(_)) => Ok(None),
            Err(Refused::NoMemory) => Err(NoMemory),
        }
    }
}

// What an acknowledgement tells: it must be of the bank's test or production line.
fn told_in(opening: &BankOpening, m: &Message) -> Option<AckRead>
    ensures { option_map told_of result ≡ told_in opening.now (Some m.now) }
{
    if env_in(m) != opening.env {
        return None;
    }
    match imad_in(m) {
        Ok(imad) => told_by(opening, m, imad),
        Err(_) => None,
    }
}

// What is told of an identifier: it must be an IMAD of the bank's own.
fn told_by(opening: &BankOpening, m: &Message, imad: Imad) -> Option<AckRead>
    ensures { option_map told_of result ≡ told_by opening.now m.now (Ok imad) }
{
    if imad.source.bytes() != opening.endpoint.bytes() {
        return None;
    }
    match verdict_on(&imad, m) {
        Some(verdict) => Some(AckRead { imad, verdict }),
        None => None,
    }
}

// The verdict on an IMAD: by an output or by a refusal, and by one of them alone.
fn verdict_on(imad: &Imad, m: &Message) -> Option<Verdict>
    ensures { result ≡ verdict_on imad.now m.now }
{
    let is_taken = has_tag(m, 1120);
    let is_refused = has_tag(m, 1130);
    if is_taken {
        if is_refused {
            None
        } else {
            taken_under(imad, m)
        }
    } else if is_refused {
        refused_as(fixed_in(m, 1130))
    } else {
        None
    }
}

// Taken, with the output that the message names, where it is of the IMAD's date.
fn taken_under(imad: &Imad, m: &Message) -> Option<Verdict>
    ensures { result ≡ taken_under imad.now (omad_in m.now) }
{
    match omad_in(m) {
        Ok(omad) => {
            if omad.date.get() == imad.date.get() {
                Some(Verdict::Taken {
                    dest: omad.dest,
                    seq: omad.seq,
                })
            } else {
                None
            }
        }
        Err(_) => None,
    }
}
