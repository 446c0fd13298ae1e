// Which numbers the tags of a form may have, and which it must have.
ghost use Rattle.std.specs.Prelude.{◌≡◌, ◌==◌, filter, ◌+◌, ◌<◌, ◌≤◌, ◌++◌, ◌∷◌, [], ℕ, List, drop, length, true, false, not, Some, None, IfOk};
ghost use Rattle.std.specs.List.{find, list_all, list_any};
ghost use Rattle.faim_base.specs.Tags.{is_tag_number};
ghost use Rattle.faim_tags.specs.Spelling.{Tag, is_empty};
ghost use Rattle.faim_tags.specs.Reading.{is_among};
ghost use Rattle.faim_message.specs.Forms.{first_of, mandatory, permitted, without};
ghost use Rattle.faim_message.specs.Spelling.{numbers};
ghost use Rattle.faim_message.specs.Refusal.{missing};
ghost use Rattle.faim_message.specs.Stages.{open_numbers};

use crate::Form;
use crate::message::tag_with;
use faim_tags::TagValue;

static PERMITTED_IN_INPUT: [u16; 30] = [
    1500, 1510, 1520, 2000, 3100, 3320, 3400, 3500, 3600, 4000, 4100, 4200, 4320, 4400, 5000, 5100,
    5200, 5400, 6000, 6100, 6110, 6200, 6210, 6300, 6310, 6400, 6410, 6420, 6500, 9000,
];

static PERMITTED_IN_DRAFT: [u16; 29] = [
    1500, 1510, 2000, 3100, 3320, 3400, 3500, 3600, 4000, 4100, 4200, 4320, 4400, 5000, 5100, 5200,
    5400, 6000, 6100, 6110, 6200, 6210, 6300, 6310, 6400, 6410, 6420, 6500, 9000,
];

static PERMITTED_IN_OUTPUT: [u16; 33] = [
    1100, 1110, 1120, 1500, 1510, 1520, 2000, 3100, 3320, 3400, 3500, 3600, 4000, 4100, 4200, 4320,
    4400, 5000, 5100, 5200, 5400, 6000, 6100, 6110, 6200, 6210, 6300, 6310, 6400, 6410, 6420, 6500,
    9000,
];

static PERMITTED_IN_ACK: [u16; 5] = [1100, 1110, 1120, 1130, 1520];

static MANDATORY_IN_INPUT: [u16; 7] = [1500, 1510, 1520, 2000, 3100, 3400, 3600];

static MANDATORY_IN_DRAFT: [u16; 6] = [1500, 1510, 2000, 3100, 3400, 3600];

static MANDATORY_IN_OUTPUT: [u16; 3] = [1100, 1110, 1120];

static MANDATORY_IN_ACK: [u16; 2] = [1100, 1110];

#[tactic(auto, unfolding(crate::specs::Forms::permitted))]
// The numbers that the form permits.
pub(crate) fn permitted(form: Form) -> &'static [u16]
    ensures value { result.now ≡ permitted form }
    ensures few { length result.now ≤ 33 }
{
    match form {
        Form::Input => &PERMITTED_IN_INPUT,
        Form::Draft => &PERMITTED_IN_DRAFT,
        Form::Output => &PERMITTED_IN_OUTPUT,
        Form::Ack => &PERMITTED_IN_ACK,
    }
}

fn mandatory(form: Form) -> &'static [u16]
    ensures { result.now ≡ mandatory form }
{
    match form {
        Form::Input => &MANDATORY_IN_INPUT,
        Form::Draft => &MANDATORY_IN_DRAFT,
        Form::Output => &MANDATORY_IN_OUTPUT,
        Form::Ack => &MANDATORY_IN_ACK,
    }
}

// A tag with the number is there.
fn has(tags: &[TagValue], number: u16) -> bool
    ensures { result ≡ is_among (numbers tags.now) number }
{
    tag_with(tags, number).is_some()
}

// The numbers that the next tag may have, where a tag is there or none: the form's first, or those that are left.
pub(crate) fn open_numbers(form: Form, any: bool, left: &[u16]) -> &[u16]
    requires { list_all is_tag_number left.now ≡ true }
    ensures open { (tags : List Tag) → any ≡ not (is_empty tags) → left.now ≡ without (numbers tags) (permitted form) → result.now ≡ open_numbers form tags }
    ensures listed { list_all is_tag_number result.now ≡ true }
{
    if any { left } else { first_number(form) }
}

// The number that the first tag has.
fn first_number(form: Form) -> &'static [u16]
    ensures value { result.now ≡ first_of form ∷ [] }
    ensures listed { list_all is_tag_number result.now ≡ true }
{
    match form {
        Form::Input | Form::Draft => &[1500],
        Form::Output | Form::Ack => &[1100],
    }
}

// The least mandatory number that no tag has.
pub(crate) fn missing_number(form: Form, tags: &[TagValue]) -> Option<u16>
    ensures { result ≡ missing form tags.now }
{
    first_missing(behind_found(mandatory(form), tags), tags)
}

// The first of the numbers that no tag has.
fn first_missing(wanted: &[u16], tags: &[TagValue]) -> Option<u16>
    ensures { result ≡ find (λ n. not (is_among (numbers tags.now) n)) wanted.now }
{
    wanted.iter().copied().find(|number| !has(tags, *number))
}

// The numbers behind those that the first tags have in the same order: in most messages none, and no search is needed.
fn behind_found<'a>(wanted: &'a [u16], tags: &[TagValue]) -> &'a [u16]
    ensures { find (λ n. not (is_among (numbers tags.now) n)) result.now ≡ find (λ n. not (is_among (numbers tags.now) n)) wanted.now }
{
    let mut count = 0;
    while count < wanted.len() && is_at(tags, count, wanted[count]) {
        count += 1;
    }
    &wanted[count..]
}

// The tag at the place has the number.
fn is_at(tags: &[TagValue], place: usize, number: u16) -> bool
    ensures { result ≡ true → is_among (numbers tags.now) number ≡ true }
{
    match tags.get(place) {
        Some(tag) => tag.no.get() == number,
        None => false,
    }
}
