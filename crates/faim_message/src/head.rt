// What a host judges a submission by.
ghost use Rattle.std.specs.Prelude.{◌≡◌, true, length, take, drop, replicate};
ghost use Rattle.faim_base.specs.Digits.{number_of};
ghost use Rattle.faim_base.specs.Ids.{read_imad};
ghost use Rattle.faim_tags.specs.Layouts.{classes};
ghost use Rattle.faim_tags.specs.Reading.{is_among};
ghost use Rattle.faim_tags.specs.Spelling.{fill};
ghost use Rattle.faim_message.specs.Forms.{mandatory};
ghost use Rattle.faim_message.specs.Spelling.{is_complete};
ghost use Rattle.faim_message.specs.Heads.{fixed_in, head_in};
ghost use Rattle.faim_message.specs.declared.form.Form.{Form};

use crate::message::tag_with;
use faim_base::{Aba, Cents, Head, IdFault, Imad, after, array_of, before, digits};
use faim_tags::TagValue;

// The head that the tags of a submission give.
#[tactic(auto, unfolding(faim_tags::specs::Layouts::row_of))]
pub(crate) fn head_in(tags: &[TagValue]) -> Result<Head, IdFault>
    requires { is_complete Form.Input tags.now ≡ true }
    ensures { result ≡ head_in tags.now }
{
    match imad(fixed_in(tags, 1520)) {
        Ok(imad) => {
            let (kind, sub) = type_and_subtype(fixed_in(tags, 1510));
            Ok(Head {
                imad,
                sender: bank(fixed_in(tags, 3100)),
                receiver: bank(fixed_in(tags, 3400)),
                code: code(fixed_in(tags, 3600)),
                kind,
                sub,
                amount: amount(fixed_in(tags, 2000)),
            })
        }
        Err(fault) => Err(fault),
    }
}

// The fixed elements of a tag that every submission has.
fn fixed_in(tags: &[TagValue], number: u16) -> &[u8]
    requires complete { is_complete Form.Input tags.now ≡ true }
    requires mandatory { is_among (mandatory Form.Input) number ≡ true }
    ensures value { result.now ≡ fixed_in tags.now number }
    ensures filled { fill (classes number) result.now ≡ true }
    ensures length { length result.now ≡ length (classes number) }
{
    match tag_with(tags, number) {
        Some(tag) => tag.fixed.as_slice(),
        None => &[],
    }
}

fn imad(text: &[u8]) -> Result<Imad, IdFault>
    requires { length text.now ≡ 22 }
    ensures { result ≡ read_imad text.now }
{
    Imad::read(&array_of(text).unwrap())
}

fn bank(text: &[u8]) -> Aba
    requires { fill (replicate 9 110) text.now ≡ true }
    ensures { result ≡ text.now }
{
    Aba::read(&array_of(text).unwrap()).unwrap()
}

fn code(text: &[u8]) -> [u8; 3]
    requires { length text.now ≡ 3 }
    ensures { result ≡ text.now }
{
    array_of(text).unwrap()
}

// The type and the subtype.
fn type_and_subtype(text: &[u8]) -> (u8, u8)
    requires { fill (replicate 4 110) text.now ≡ true }
    ensures kind { result.0 ≡ number_of (take 2 text.now) }
    ensures sub { result.1 ≡ number_of (drop 2 text.now) }
{
    (two_digits(before(text, 2)), two_digits(after(text, 2)))
}

fn two_digits(text: &[u8]) -> u8
    requires { fill (replicate 2 110) text.now ≡ true }
    ensures { result ≡ number_of text.now }
{
    digits(text).unwrap() as u8
}

fn amount(text: &[u8]) -> Cents
    requires { fill (replicate 12 110) text.now ≡ true }
    ensures { result ≡ number_of text.now }
{
    Cents::new(digits(text).unwrap()).unwrap()
}
