// Reads what is submitted.
ghost use Rattle.std.specs.Prelude.{◌≡◌, IfOk, Some, slice_set};
ghost use Rattle.host_ledger.specs.Soundness.{IsEnv};
ghost use Rattle.faim_message.specs.Decoded.{decoded};
ghost use Rattle.faim_message.specs.Heads.{head_of};
ghost use Rattle.faim_model.specs.Submissions.{submission, with_head, failed_edit};
ghost use Rattle.host_turns.specs.Reading.{submission_of};

use faim_base::{Bytes, Head, NoMemory, Refused, Reject};
use faim_edits::first_failed;
use faim_message::{Form, Message, submissions_show_their_bodies};
use faim_stream::Decoder;
use std::alloc::Global;
use std::marker::Model;

/// A message with a valid identifier.
#[derive(Debug, Drop)]
pub struct Numbered {
    pub head: Head,
    /// The text with a blank as its mark.
    pub body: Bytes,
    pub mark: u8,
    /// The first edit that the message fails, where it fails one.
    pub failed: Option<Reject>,
}

/// What a text is to a host.
#[derive(Debug, Drop)]
pub enum ReadText {
    /// It is no Input message.
    Strange,
    /// Its identifier is none.
    Unnumbered,
    Numbered(Numbered),
}

/// What reads texts that are submitted, one after another. It is made once, before a device is called: its room holds the
/// text that is being read.
#[derive(Drop)]
pub struct TextReader {
    alloc: Global,
    decoder: Decoder,
}

impl Model for TextReader {
    ghost use Rattle.std.specs.Prelude.{◌≡◌, []};
    ghost use Rattle.faim_message.specs.declared.form.Form.TheVariants.{Input};
    ghost use Rattle.faim_stream.specs.Fed.{IsFed};

    ghost Value = { Unit {0} };

    ghost view = { λ _. tt };

    ghost invariant = { λ r. (r.decoder.form ≡ Input) × IsFed r.decoder [] };
}

impl TextReader {
    /// Reserves the room of a decoder, 8,192 bytes.
    pub fn new(alloc: Global) -> Result<TextReader, NoMemory> {
        Ok(TextReader {
            alloc,
            decoder: Decoder::new(alloc, Form::Input)?,
        })
    }

    /// What a text of any bytes is to a host whose configuration has this `T` or `P`. The text is decoded once, by a decoder
    /// that is fed once, and the next call reads the next text, after `NoMemory` too. It takes memory for what it answers
    /// and for the message (docs/FORMATS.md, "The order of verdicts").
    pub fn read(&mut self, env: u8, text: &[u8]) -> Result<ReadText, NoMemory>
        requires { IsEnv env }
        ensures { IfOk result (λ r. submission_of r ≡ submission env text.now) }
    {
        let alloc = self.alloc;
        match self.decoder.decode(text) {
            Ok(message) => read_message(alloc, env, text, &message),
            Err(Refused::Byte(_)) => Ok(ReadText::Strange),
            Err(Refused::Cut) => Ok(ReadText::Strange),
            Err(Refused::Missing(_)) => Ok(ReadText::Strange),
            Err(Refused::NoMemory) => Err(NoMemory),
        }
    }
}

fn read_message(
    alloc: Global,
    env: u8,
    text: &[u8],
    message: &Message,
) -> Result<ReadText, NoMemory>
    requires env { IsEnv env }
    requires form { message.now.form ≡ Form.Input }
    requires read { decoded Form.Input text.now ≡ Some message.now }
    ensures { IfOk result (λ r. submission_of r ≡ with_head env message.now (head_of message.now)) }
{
    submissions_show_their_bodies();
    let found = message.head();
    match found {
        Ok(head) => Ok(ReadText::Numbered(Numbered {
            head,
            body: with_mark(alloc, text, b' ')?,
            mark: message.mark(),
            failed: failed_edit(env, message),
        })),
        Err(_) => Ok(ReadText::Unnumbered),
    }
}

/// A submission's text with this byte as its mark.
pub fn with_mark(alloc: Global, text: &[u8], mark: u8) -> Result<Bytes, NoMemory>
    ensures { IfOk result (λ marked. marked ≡ slice_set text.now 17 mark) }
{
    let mut marked = Bytes::new(alloc);
    marked.extend(text)?;
    match marked.get_mut(17) {
        Some(place) => *place = mark,
        None => {}
    }
    Ok(marked)
}

// The refusal by the first edit that a message fails.
fn failed_edit(env: u8, message: &Message) -> Option<Reject>
    requires env { IsEnv env }
    requires form { message.now.form ≡ Form.Input }
    ensures { result ≡ failed_edit env message.now }
{
    match first_failed(1, env, message) {
        Some(number) => Some(number.reject()),
        None => None,
    }
}
