// The drafts that a bank's journal keeps (docs/FORMATS.md, "What a bank takes").
ghost use Rattle.std.specs.Prelude.{◌≡◌, ◌↔◌, IfOk, IsTrue, Ok};
ghost use Rattle.faim_message.specs.declared.form.Form.{Form};
ghost use Rattle.faim_message.specs.Spelling.{mark_in};
ghost use Rattle.faim_model.specs.Readings.{imad_in};
ghost use Rattle.bank_turns.specs.KeptTexts.{KeepsDraft};

use crate::parts::imad_in;
use faim_base::{Imad, NoMemory, Refused};
use faim_message::{Form, Message};
use faim_stream::Decoder;
use std::alloc::Global;
use std::marker::Model;

/// What reads the texts of drafts that a bank's journal keeps, one after another: its room holds the text that is being read.
#[derive(Drop)]
pub struct KeptReader {
    decoder: Decoder,
}

impl Model for KeptReader {
    ghost use Rattle.std.specs.Prelude.{◌≡◌, []};
    ghost use Rattle.faim_message.specs.declared.form.Form.TheVariants.{Input};
    ghost use Rattle.faim_stream.specs.Fed.{IsFed};

    ghost Value = { Unit {0} };

    ghost view = { λ _. tt };

    ghost invariant = { λ r. (r.decoder.form ≡ Input) × IsFed r.decoder [] };
}

impl KeptReader {
    /// Reserves the room of a decoder, 8,192 bytes.
    pub fn new(alloc: Global) -> Result<KeptReader, NoMemory> {
        Ok(KeptReader {
            decoder: Decoder::new(alloc, Form::Input)?,
        })
    }

    /// Whether a text is one that a bank keeps of a draft with this IMAD: an Input message that names it, with a blank as its
    /// mark. The next call reads the next text, after `NoMemory` too. It takes memory for the message alone
    /// (docs/FORMATS.md, "What a bank takes").
    pub fn keeps_draft(&mut self, imad: &Imad, text: &[u8]) -> Result<bool, NoMemory>
        ensures { IfOk result (λ b. IsTrue b ↔ KeepsDraft imad.now text.now) }
    {
        match self.decoder.decode(text) {
            Ok(message) => Ok(is_draft(&message, imad)),
            Err(Refused::Byte(_)) => Ok(false),
            Err(Refused::Cut) => Ok(false),
            Err(Refused::Missing(_)) => Ok(false),
            Err(Refused::NoMemory) => Err(NoMemory),
        }
    }
}

// Whether a submission names this IMAD and has a blank as its mark.
fn is_draft(m: &Message, imad: &Imad) -> bool
    requires { m.now.form ≡ Form.Input }
    ensures { IsTrue result ↔ ((imad_in m.now ≡ Ok imad.now) × (mark_in Form.Input m.now.tags ≡ 32)) }
{
    is_named(m, imad) && m.mark() == b' '
}

// Whether a message names this IMAD.
fn is_named(m: &Message, imad: &Imad) -> bool
    ensures { IsTrue result ↔ (imad_in m.now ≡ Ok imad.now) }
{
    match imad_in(m) {
        Ok(found) => found == *imad,
        Err(_) => false,
    }
}
