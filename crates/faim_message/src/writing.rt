// The bytes of a message.
ghost use Rattle.std.specs.Prelude.{◌≡◌, ◌++◌, take, length, OnOk, OnErr, IfOk};
ghost use Rattle.faim_message.specs.Forms.{between, ending};
ghost use Rattle.faim_message.specs.Spelling.{joined, message_spelling, body_text};

use crate::{Breaks, Form, Message};
use faim_base::{Bytes, NoMemory};
use faim_tags::{TagValue, spell};
use std::alloc::Global;

/// Appends the one spelling of the message. `NoMemory` leaves `out` as it was.
pub fn encode(m: &Message, out: &mut Vec<u8>) -> Result<(), NoMemory>
    ensures ok { OnOk result (out.new.items ≡ out.old.items ++ message_spelling m.now) }
    ensures err { OnErr result (out.new.items ≡ out.old.items) }
{
    let before = out.len();
    match append_tags(m.tags(), m.breaks(), out) {
        Ok(()) => Ok(()),
        Err(fault) => {
            out.truncate(before);
            Err(fault)
        }
    }
}

/// The text of a submission with a blank as its mark, which is byte 17, counted from 0. Two submissions have the same body
/// exactly where these texts are equal. The message has the form `Input`.
pub fn body(alloc: Global, m: &Message) -> Result<Bytes, NoMemory>
    requires { m.now.form ≡ Form.Input }
    ensures { IfOk result (λ text. text ≡ body_text m.now) }
{
    let mut text = Vec::new(alloc);
    encode(m, &mut text)?;
    if 17 < text.len() {
        text[17] = b' ';
    }
    let mut body = Bytes::new(alloc);
    body.extend(text.as_slice())?;
    Ok(body)
}

// Appends the tags with their breaks, or part of them where memory runs out.
fn append_tags(tags: &[TagValue], breaks: Breaks, out: &mut Vec<u8>) -> Result<(), NoMemory>
    ensures ok { OnOk result (out.new.items ≡ out.old.items ++ joined (between breaks) (ending breaks) tags.now) }
    ensures kept { take (length out.old.items) out.new.items ≡ out.old.items }
{
    for (k, tag) in tags.iter().enumerate() {
        spell(tag, out)?;
        let next = if k + 1 < tags.len() {
            between(breaks)
        } else {
            ending(breaks)
        };
        out.extend_from_slice(next)?;
    }
    Ok(())
}

// The bytes between two tags.
fn between(breaks: Breaks) -> &'static [u8]
    ensures { result.now ≡ between breaks }
{
    match breaks {
        Breaks::Joined => b"",
        Breaks::Lf { .. } => b"\n",
        Breaks::CrLf { .. } => b"\r\n",
    }
}

// The bytes after the last tag.
fn ending(breaks: Breaks) -> &'static [u8]
    ensures { result.now ≡ ending breaks }
{
    match breaks {
        Breaks::Lf { last: true } => b"\n",
        Breaks::CrLf { last: true } => b"\r\n",
        _ => b"",
    }
}
