// A draft's identifier.
ghost use Rattle.std.specs.Prelude.{◌≡◌, ◌==◌, ◌≤◌, true, length, insert, IfOk};
ghost use Rattle.std.specs.List.{position};
ghost use Rattle.faim_base.specs.Ids.{imad_text};
ghost use Rattle.faim_tags.specs.Layouts.{classes};
ghost use Rattle.faim_tags.specs.Spelling.{Tag, IsTag, fill};
ghost use Rattle.faim_message.specs.declared.form.Form.{Form};
ghost use Rattle.faim_message.specs.Numbering.{imad_tag, put_after, numbered};

use crate::message::{message_of, parts_of};
use crate::{Form, Message};
use faim_base::{Imad, NoMemory, TagNo};
use faim_tags::{ShortBytes, Stars, TagValue};
use std::alloc::Global;

/// The submission that the draft is with this identifier: a tag 1520 stands right after the tag 1510, and all else is
/// the draft's. `NoMemory` gives the draft up. The message has the form `Draft` (docs/FORMATS.md, "Messages").
pub fn with_imad(alloc: Global, m: Message, imad: Imad) -> Result<Message, NoMemory>
    requires { m.form ≡ Form.Draft }
    ensures { IfOk result (λ w. w ≡ numbered m (imad_text imad)) }
{
    let tag = imad_tag(alloc, &imad)?;
    let (breaks, mut tags) = parts_of(m);
    let place = place_after(tags.as_slice(), 1510);
    tags.insert(place, tag)?;
    Ok(message_of(Form::Input, breaks, tags))
}

// The tag with the identifier.
fn imad_tag(alloc: Global, imad: &Imad) -> Result<TagValue, NoMemory>
    ensures value { IfOk result (λ v. v ≡ imad_tag (imad_text imad.now)) }
    ensures sound { IfOk result IsTag }
{
    Ok(TagValue {
        no: TagNo::new(1520).unwrap(),
        fixed: ShortBytes::copied(&imad_text(imad))?,
        stars: Stars::new(alloc),
        closed: false,
    })
}

// The identifier's text.
fn imad_text(imad: &Imad) -> [u8; 22]
    ensures value { result ≡ imad_text imad.now }
    ensures filled { fill (classes 1520) result ≡ true }
{
    let mut text = [0; 22];
    imad.write(&mut text);
    text
}

// The place right after the first tag with this number, or the end.
fn place_after(tags: &[TagValue], number: u16) -> usize
    ensures within { result ≤ length tags.now }
    ensures place { (t : Tag) → insert tags.now result t ≡ put_after number t tags.now }
{
    match position_of(tags, number) {
        Some(place) => place + 1,
        None => tags.len(),
    }
}

fn position_of(tags: &[TagValue], number: u16) -> Option<usize>
    ensures { result ≡ position (λ v. v.no == number) tags.now }
{
    tags.iter().position(|tag| tag.no.get() == number)
}
