// A message as a value.
ghost use Rattle.std.specs.Prelude.{◌≡◌, ◌==◌, slice_index, slice_set, IsTrue};
ghost use Rattle.std.specs.List.{find};
ghost use Rattle.std.specs.Option.{option_copied};
ghost use Rattle.faim_base.specs.Text.{is_text_byte};
ghost use Rattle.faim_tags.specs.Layouts.{classes};
ghost use Rattle.faim_message.specs.Spelling.{IsMessage, AreTags, mark_in, mark_place, first_byte, with_first_byte, marked_with};
ghost use Rattle.faim_message.specs.Heads.{head_of};
ghost use Rattle.faim_message.specs.declared.form.Form.{Form};

use crate::head::head_in;
use crate::{Breaks, Form};
use faim_base::{Head, IdFault, TagNo};
use faim_tags::TagValue;
use std::marker::Model;

/// A list of tags.
pub type Tags = Vec<TagValue>;

/// A message of a form: it is always sound, that is, its tags are permitted and distinct, the form's first tag comes
/// first, and the mandatory tags are there.
#[derive(Debug, Drop)]
pub struct Message {
    form: Form,
    breaks: Breaks,
    tags: Tags,
}

impl Model for Message {
    ghost use Rattle.faim_message.specs.Spelling.{Content, IsMessage};

    ghost Value = { Content };

    ghost view = { λ m. record { form = m.form; breaks = m.breaks; tags = m.tags.items } };

    ghost invariant = { λ m. IsMessage (record { form = m.form; breaks = m.breaks; tags = m.tags.items }) };
}

impl Message {
    /// The form.
    pub fn form(&self) -> Form
        ensures { result ≡ self.now.form }
    {
        self.form
    }

    /// The breaks.
    pub fn breaks(&self) -> Breaks
        ensures { result ≡ self.now.breaks }
    {
        self.breaks
    }

    /// The tag with this number. None exactly where it isn't there.
    pub fn get(&self, no: TagNo) -> Option<&TagValue>
        ensures { option_copied result ≡ find (λ v. v.no == no) self.now.tags }
    {
        tag_with(self.tags.as_slice(), no.get())
    }

    /// The mark, which is the duplication code of the first tag.
    pub fn mark(&self) -> u8
        ensures { result ≡ mark_in self.now.form self.now.tags }
    {
        byte_of_first(self.tags.as_slice(), mark_place(self.form))
    }

    /// Changes the mark to a text byte, and nothing else (docs/FORMATS.md, "Messages").
    pub fn set_mark(&mut self, mark: u8)
        requires { IsTrue (is_text_byte mark) }
        ensures { self.new ≡ marked_with mark self.old }
    {
        set_mark_in(self.form, &mut self.tags, mark);
    }

    /// What a host judges a submission by. Err exactly where tag 1520 holds no identifier, with the first of its parts
    /// that isn't one. The message has the form `Input` (docs/FORMATS.md, "Messages").
    pub fn head(&self) -> Result<Head, IdFault>
        requires { self.now.form ≡ Form.Input }
        ensures { result ≡ head_of self.now }
    {
        head_in(self.tags.as_slice())
    }

    pub(crate) fn tags(&self) -> &[TagValue]
        ensures { result.now ≡ self.now.tags }
    {
        self.tags.as_slice()
    }
}

// The message of these parts.
pub(crate) fn message_of(form: Form, breaks: Breaks, tags: Tags) -> Message
    requires { IsMessage (record { form = form; breaks = breaks; tags = tags.items }) }
    ensures { result ≡ record { form = form; breaks = breaks; tags = tags.items } }
{
    Message { form, breaks, tags }
}

// The breaks and the tags of a message.
pub(crate) fn parts_of(m: Message) -> (Breaks, Tags)
    ensures breaks { result.0 ≡ m.breaks }
    ensures tags { result.1.items ≡ m.tags }
    ensures sound { IsMessage m }
{
    let Message { breaks, tags, .. } = m;
    (breaks, tags)
}

// Where the mark stands in the first tag's fixed elements.
fn mark_place(form: Form) -> usize
    ensures { result ≡ mark_place form }
{
    match form {
        Form::Input | Form::Draft => 11,
        Form::Output | Form::Ack => 3,
    }
}

// Changes the mark of a form's tags.
fn set_mark_in(form: Form, tags: &mut Tags, mark: u8)
    requires text { IsTrue (is_text_byte mark) }
    requires sound { AreTags form tags.old.items }
    ensures { tags.new.items ≡ with_first_byte tags.old.items (mark_place form) mark }
{
    if !tags.is_empty() {
        set_byte(&mut tags[0], mark_place(form), mark);
    }
}

// Puts a text byte in at a place of a tag's fixed elements that takes one.
fn set_byte(tag: &mut TagValue, place: usize, byte: u8)
    requires text { IsTrue (is_text_byte byte) }
    requires class { slice_index (classes tag.old.no) place ≡ 116 }
    ensures { tag.new ≡ record tag.old { fixed = slice_set tag.old.fixed place byte } }
{
    tag.fixed.set(place, byte);
}

// The first tag with this number.
pub(crate) fn tag_with(tags: &[TagValue], number: u16) -> Option<&TagValue>
    ensures { option_copied result ≡ find (λ v. v.no == number) tags.now }
{
    tags.iter().find(|tag| tag.no.get() == number)
}

// A byte of the first tag's fixed elements, 0 where there is none.
fn byte_of_first(tags: &[TagValue], place: usize) -> u8
    ensures { result ≡ first_byte tags.now place }
{
    match tags.first() {
        Some(tag) => byte_at(tag.fixed.as_slice(), place),
        None => 0,
    }
}

// A byte, 0 where there is none.
fn byte_at(bytes: &[u8], place: usize) -> u8
    ensures { result ≡ slice_index bytes.now place }
{
    *bytes.get(place).unwrap_or(&0)
}
