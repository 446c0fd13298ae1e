// The parts of a submission that edits speak of.
ghost use Rattle.std.specs.Prelude.{◌≡◌, ◌==◌, ◌||◌, take, drop, slice_index, bytes_eq, codes, replicate, true, IsTrue, IfSome};
ghost use Rattle.std.specs.List.{find};
ghost use Rattle.std.specs.Option.{option_copied};
ghost use Rattle.faim_base.specs.Tags.{is_tag_number};
ghost use Rattle.faim_base.specs.Digits.{number_of};
ghost use Rattle.faim_base.specs.Text.{aba_holds};
ghost use Rattle.faim_tags.specs.Layouts.{classes};
ghost use Rattle.faim_tags.specs.Spelling.{fill};
ghost use Rattle.faim_message.specs.Heads.{fixed_in};
ghost use Rattle.faim_message.specs.Edits.{has, version, test_or_production, mark, code, kind, subtype, amount, id_code};

use faim_base::{Aba, TagNo, aba_check, after, array_of, digits};
use faim_message::Message;
use faim_tags::TagValue;

// The tag with this number.
fn tag_in(m: &Message, number: u16) -> Option<&TagValue>
    requires { IsTrue (is_tag_number number) }
    ensures value { option_copied result ≡ find (λ v. v.no == number) m.now.tags }
    ensures number { IfSome result (λ v. v.now.no ≡ number) }
{
    m.get(TagNo::new(number).unwrap())
}

// The fixed elements of a tag, joined.
fn fixed_of(tag: &TagValue) -> &[u8]
    ensures value { result.now ≡ tag.now.fixed }
    ensures filled { fill (classes tag.now.no) result.now ≡ true }
{
    tag.fixed.as_slice()
}

// Whether the tag with this number is there.
pub(crate) fn has(m: &Message, number: u16) -> bool
    requires { IsTrue (is_tag_number number) }
    ensures { result ≡ has number m.now }
{
    tag_in(m, number).is_some()
}

// The fixed elements of the tag with this number, none where it isn't there.
fn fixed_in(m: &Message, number: u16) -> &[u8]
    requires { IsTrue (is_tag_number number) }
    ensures { result.now ≡ fixed_in m.now.tags number }
{
    match tag_in(m, number) {
        Some(tag) => fixed_of(tag),
        None => &[],
    }
}

// Whether the version of tag 1500 is 30.
pub(crate) fn is_version_30(m: &Message) -> bool
    ensures { result ≡ bytes_eq (version m.now) (codes "30") }
{
    fixed_in(m, 1500).starts_with(b"30")
}

/// The test or production code of a submission, which tag 1500 has (docs/FORMATS.md, "Edits").
pub fn test_or_production(m: &Message) -> u8
    ensures { result ≡ test_or_production m.now }
{
    byte_at(fixed_in(m, 1500), 10)
}

// The mark, which is the duplication code of tag 1500.
pub(crate) fn mark(m: &Message) -> u8
    ensures { result ≡ mark m.now }
{
    byte_at(fixed_in(m, 1500), 11)
}

// The business function code.
pub(crate) fn code(m: &Message) -> &[u8]
    ensures { result.now ≡ code m.now }
{
    fixed_in(m, 3600)
}

// The identification code of a tag that has one.
pub(crate) fn id_code(m: &Message, number: u16) -> u8
    requires { IsTrue (is_tag_number number) }
    ensures { result ≡ id_code number m.now }
{
    byte_at(fixed_in(m, number), 0)
}

// The type and subtype, read as one number of four digits.
#[tactic(auto, using(crate::proofs::Fillings::filled_by), unfolding(faim_tags::specs::Layouts::row_of))]
pub(crate) fn kind(m: &Message) -> u16
    ensures { result ≡ kind m.now }
{
    match tag_in(m, 1510) {
        Some(tag) => four_digits(fixed_of(tag)),
        None => 0,
    }
}

#[tactic(auto, using(crate::proofs::Fillings::filled_by), unfolding(faim_tags::specs::Layouts::row_of))]
pub(crate) fn subtype(m: &Message) -> u8
    ensures { result ≡ subtype m.now }
{
    match tag_in(m, 1510) {
        Some(tag) => last_two_digits(fixed_of(tag)),
        None => 0,
    }
}

// The amount in cents.
#[tactic(auto, using(crate::proofs::Fillings::filled_by), unfolding(faim_tags::specs::Layouts::row_of))]
pub(crate) fn amount(m: &Message) -> u64
    ensures { result ≡ amount m.now }
{
    match tag_in(m, 2000) {
        Some(tag) => twelve_digits(fixed_of(tag)),
        None => 0,
    }
}

// Whether the check digit holds of the number that a bank's tag names.
#[tactic(auto, using(crate::proofs::Fillings::filled_by))]
pub(crate) fn check_digit_holds(m: &Message, number: u16) -> bool
    requires tag { IsTrue (is_tag_number number) }
    requires bank { classes number ≡ replicate 9 110 }
    ensures { result ≡ aba_holds (fixed_in m.now.tags number) }
{
    match tag_in(m, number) {
        Some(tag) => aba_check(&bank(fixed_of(tag))),
        None => true,
    }
}

fn four_digits(text: &[u8]) -> u16
    requires { fill (replicate 4 110) text.now ≡ true }
    ensures { result ≡ number_of text.now }
{
    digits(text).unwrap() as u16
}

fn last_two_digits(text: &[u8]) -> u8
    requires { fill (replicate 4 110) text.now ≡ true }
    ensures { result ≡ number_of (drop 2 text.now) }
{
    digits(after(text, 2)).unwrap() as u8
}

fn twelve_digits(text: &[u8]) -> u64
    requires { fill (replicate 12 110) text.now ≡ true }
    ensures { result ≡ number_of text.now }
{
    digits(text).unwrap()
}

fn bank(text: &[u8]) -> Aba
    requires { fill (replicate 9 110) text.now ≡ true }
    ensures { result ≡ text.now }
{
    Aba::read(&array_of(text).unwrap()).unwrap()
}

// A byte, 0 where there is none.
fn byte_at(bytes: &[u8], place: usize) -> u8
    ensures { result ≡ slice_index bytes.now place }
{
    *bytes.get(place).unwrap_or(&0)
}
