// The texts that a bank makes messages of (docs/FORMATS.md, "What a bank takes").
ghost use Rattle.std.specs.Prelude.{◌≡◌, ◌≢◌, IfOk};
ghost use Rattle.faim_base.specs.declared.judgement.Refused.{Refused};
ghost use Rattle.faim_message.specs.declared.form.Form.{Form};
ghost use Rattle.bank_turns.specs.Drafting.{draft_text};
ghost use Rattle.bank_texts.specs.declared.drafts.DraftRead.{DraftRead};
ghost use Rattle.bank_texts.specs.Reads.{IsDraftRead};

use faim_base::{Bytes, Imad, NoMemory, Refused};
use faim_message::{Form, Message, body, with_imad};
use faim_stream::Decoder;
use std::alloc::Global;
use std::marker::Model;

/// What a text is as a draft: `Refused` names its fault, which is never `NoMemory`.
#[derive(Debug, Drop)]
pub enum DraftRead {
    Refused(Refused),
    Message(Message),
}

/// What reads the texts that a bank is to draft, one after another. It is made once, before a device is called: its room
/// holds the text that is being read.
#[derive(Drop)]
pub struct DraftReader {
    decoder: Decoder,
}

impl Model for DraftReader {
    ghost use Rattle.std.specs.Prelude.{◌≡◌, []};
    ghost use Rattle.faim_message.specs.declared.form.Form.TheVariants.{Draft};
    ghost use Rattle.faim_stream.specs.Fed.{IsFed};

    ghost Value = { Unit {0} };

    ghost view = { λ _. tt };

    ghost invariant = { λ r. (r.decoder.form ≡ Draft) × IsFed r.decoder [] };
}

impl DraftReader {
    /// Reserves the room of a decoder, 8,192 bytes.
    pub fn new(alloc: Global) -> Result<DraftReader, NoMemory> {
        Ok(DraftReader {
            decoder: Decoder::new(alloc, Form::Draft)?,
        })
    }

    /// What a text of any bytes is as a draft: the message, whose form is `Draft`, or the fault for which it is none. The next
    /// call reads the next text, after `NoMemory` too. It takes memory for the message alone (docs/FORMATS.md,
    /// "Messages").
    pub fn read(&mut self, payload: &[u8]) -> Result<DraftRead, NoMemory>
        ensures { IfOk result (IsDraftRead payload.now) }
    {
        match self.decoder.decode(payload) {
            Ok(message) => Ok(DraftRead::Message(message)),
            Err(fault) => refused(fault),
        }
    }
}

// The fault that a decoder tells, where it isn't that memory ran out.
fn refused(fault: Refused) -> Result<DraftRead, NoMemory>
    ensures { IfOk result (λ r. (r ≡ DraftRead.Refused fault) × (fault ≢ Refused.NoMemory)) }
{
    match fault {
        Refused::Byte(_) => Ok(DraftRead::Refused(fault)),
        Refused::Cut => Ok(DraftRead::Refused(fault)),
        Refused::Missing(_) => Ok(DraftRead::Refused(fault)),
        Refused::NoMemory => Err(NoMemory),
    }
}

/// The text of the submission that a draft becomes with an IMAD: a blank is its mark, and it has the draft's breaks.
/// `NoMemory` gives the draft up. The message has the form `Draft` (docs/FORMATS.md, "What a bank takes").
pub fn number_draft(alloc: Global, message: Message, imad: Imad) -> Result<Bytes, NoMemory>
    requires { message.form ≡ Form.Draft }
    ensures { IfOk result (λ text. text ≡ draft_text message imad) }
{
    let submission = with_imad(alloc, message, imad)?;
    body(alloc, &submission)
}
