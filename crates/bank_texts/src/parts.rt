// The parts of a message of a host that a bank reads.
ghost use Rattle.std.specs.Prelude.{◌≡◌, ◌==◌, length, slice_index, true, IfSome, IsTrue};
ghost use Rattle.std.specs.List.{find};
ghost use Rattle.std.specs.Option.{option_copied};
ghost use Rattle.faim_base.specs.Ids.{read_imad, read_omad};
ghost use Rattle.faim_base.specs.Tags.{is_tag_number};
ghost use Rattle.faim_tags.specs.Layouts.{classes};
ghost use Rattle.faim_tags.specs.Spelling.{fill};
ghost use Rattle.faim_message.specs.Heads.{fixed_in};
ghost use Rattle.faim_model.specs.Readings.{imad_in, omad_in};
ghost use Rattle.bank_turns.specs.AckTexts.{env_in, has_tag};
ghost use Rattle.bank_turns.specs.OutputTexts.{stars_of, status_in};

use faim_base::{IdFault, Imad, Omad, TagNo, array_of};
use faim_message::Message;
use faim_tags::{ShortBytes, TagValue};

// The tag with this number.
fn tag_in(m: &Message, number: u16) -> Option<&TagValue>
    requires { IsTrue (is_tag_number number) }
    ensures value { option_copied result ≡ find (λ v. v.no == number) m.now.tags }
    ensures number { IfSome result (λ v. v.now.no ≡ number) }
{
    m.get(TagNo::new(number).unwrap())
}

// The fixed elements of a tag, joined.
fn fixed_of(tag: &TagValue) -> &[u8]
    ensures value { result.now ≡ tag.now.fixed }
    ensures filled { fill (classes tag.now.no) result.now ≡ true }
{
    tag.fixed.as_slice()
}

// The fixed elements of the tag with this number, none where it isn't there.
pub(crate) fn fixed_in(m: &Message, number: u16) -> &[u8]
    requires { IsTrue (is_tag_number number) }
    ensures { result.now ≡ fixed_in m.now.tags number }
{
    match tag_in(m, number) {
        Some(tag) => fixed_of(tag),
        None => &[],
    }
}

// Whether the tag with this number is there.
pub(crate) fn has_tag(m: &Message, number: u16) -> bool
    requires { IsTrue (is_tag_number number) }
    ensures { result ≡ has_tag m.now number }
{
    tag_in(m, number).is_some()
}

// The test or production code.
pub(crate) fn env_in(m: &Message) -> u8
    ensures { result ≡ env_in m.now }
{
    byte_at(fixed_in(m, 1100), 2)
}

// The status of an output.
pub(crate) fn status_in(m: &Message) -> u8
    ensures { result ≡ status_in m.now }
{
    byte_at(fixed_in(m, 1100), 4)
}

// The identifier that a message names.
#[tactic(auto, using(crate::proofs::Lengths::imad_length))]
pub(crate) fn imad_in(m: &Message) -> Result<Imad, IdFault>
    ensures { result ≡ imad_in m.now }
{
    match tag_in(m, 1520) {
        Some(tag) => imad_of(fixed_of(tag)),
        None => Err(IdFault::BadDate),
    }
}

// The output that a message names.
#[tactic(auto, using(crate::proofs::Lengths::omad_length))]
pub(crate) fn omad_in(m: &Message) -> Result<Omad, IdFault>
    ensures { result ≡ omad_in m.now }
{
    match tag_in(m, 1120) {
        Some(tag) => omad_of(fixed_of(tag)),
        None => Err(IdFault::BadDate),
    }
}

fn imad_of(text: &[u8]) -> Result<Imad, IdFault>
    requires { length text.now ≡ 22 }
    ensures { result ≡ read_imad text.now }
{
    Imad::read(&array_of(text).unwrap())
}

fn omad_of(text: &[u8]) -> Result<Omad, IdFault>
    requires { length text.now ≡ 34 }
    ensures { result ≡ read_omad text.now }
{
    Omad::read(&array_of(text).unwrap())
}

// The star elements of the tag that names a date, none where it isn't there.
pub(crate) fn stars_in(m: &Message) -> &[ShortBytes]
    ensures { result.now ≡ stars_of (find (λ v. v.no == 9000) m.now.tags) }
{
    match tag_in(m, 9000) {
        Some(tag) => tag.stars.as_slice(),
        None => &[],
    }
}

// A byte, 0 where there is none.
fn byte_at(bytes: &[u8], place: usize) -> u8
    ensures { result ≡ slice_index bytes.now place }
{
    *bytes.get(place).unwrap_or(&0)
}
