// Reading a message.
ghost use Rattle.std.specs.Prelude.{◌≡◌, ◌≢◌, Some, None, IfOk, IfErr};
ghost use Rattle.faim_message.specs.Spelling.{Spells};
ghost use Rattle.faim_message.specs.Refusal.{Refuses};
ghost use Rattle.faim_message.specs.Decoded.{decoded};

use crate::{Form, Message, MessagePart};
use faim_base::Refused;
use std::alloc::Global;

/// The message of the form that the bytes spell. `Byte` names the first byte with which no message of the form goes on,
/// `Missing` the least mandatory tag that isn't there after a whole tag or a whole break, and `Cut` tells of an end
/// anywhere else (docs/FORMATS.md, "Messages").
pub fn decode(alloc: Global, bytes: &[u8], form: Form) -> Result<Message, Refused>
    ensures found { IfOk result (λ m. Spells m bytes.now × (m.form ≡ form)) }
    ensures refused { IfErr result (λ e. Refuses form bytes.now e) }
    ensures read { IfOk result (λ m. decoded form bytes.now ≡ Some m) }
    ensures none_read { IfErr result (λ e. e ≢ Refused.NoMemory → decoded form bytes.now ≡ None) }
{
    let mut part = MessagePart::new(form);
    let count = part.read(bytes);
    if count < bytes.len() {
        Err(Refused::Byte(count))
    } else {
        part.message(alloc, bytes)
    }
}
