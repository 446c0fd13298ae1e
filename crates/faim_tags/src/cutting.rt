// One tag that stands at the front of bytes, taken without a second judgement.
ghost use Rattle.std.specs.Prelude.{◌≡◌, ℕ, List, [], length, true, IfOk};
ghost use Rattle.faim_base.specs.Tags.{is_tag_number};
ghost use Rattle.faim_tags.specs.Spelling.{Tag, IsTag};
ghost use Rattle.faim_tags.specs.Reading.{FoundTag};
ghost use Rattle.faim_tags.specs.Steps.{Inside, tag_of, Completes};
ghost use Rattle.faim_tags.specs.Cutting.{TagInFront, StarsCut};

use crate::classes::{is_star, run_of_text};
use crate::lookup::sized_layout;
use crate::number::number_in;
use crate::{ShortBytes, Stars, TagValue};
use faim_base::{NoMemory, TagNo, after, before};
use std::alloc::Global;

/// The tag at the front of the bytes, and how many bytes it has. It needs to be told that one stands there, and judges no
/// byte of it again: `read_tag` is for bytes of which nothing is known (docs/FORMATS.md, "Tags").
pub fn cut_tag(alloc: Global, bytes: &[u8]) -> Result<(TagValue, usize), NoMemory>
    requires { TagInFront bytes.now }
    ensures { IfOk result (λ r. (numbers : List ℕ) (v : Tag) (n : ℕ) → FoundTag numbers bytes.now v n → (r.0 ≡ v) × (r.1 ≡ n)) }
{
    let no = known(number_in(after(bytes, 1)));
    match cut_elements(alloc, no, after(bytes, 6)) {
        Ok((value, length)) => Ok((value, 6 + length)),
        Err(NoMemory) => Err(NoMemory),
    }
}

// A tag's number.
fn known(number: u16) -> TagNo
    requires { is_tag_number number ≡ true }
    ensures { result ≡ number }
{
    TagNo::new(number).unwrap()
}

// The tag with this number whose elements stand at the front, and how many bytes they have.
fn cut_elements(alloc: Global, no: TagNo, bytes: &[u8]) -> Result<(TagValue, usize), NoMemory>
    requires listed { is_tag_number no ≡ true }
    requires there { (ns : List ℕ) × ((v : Tag) × ((n : ℕ) × Completes ns (Inside no [] [] []) bytes.now v n)) }
    ensures { IfOk result (λ r. (ns : List ℕ) (v : Tag) (n : ℕ) → Completes ns (Inside no [] [] []) bytes.now v n → (r.0 ≡ v) × (r.1 ≡ n)) }
{
    let layout = sized_layout(no);
    let fixed = layout.classes.len();
    let rest = after(bytes, fixed);
    let (stars, taken, count) = match cut_stars(alloc, layout.stars, rest) {
        Ok(cut) => cut,
        Err(NoMemory) => return Err(NoMemory),
    };
    let part = before(after(rest, taken), count);
    match built(no, before(bytes, fixed), stars, part) {
        Ok(value) => Ok((value, fixed + taken + count)),
        Err(NoMemory) => Err(NoMemory),
    }
}

// The star elements at the front that have their star, how many bytes they take with their stars, and how many bytes
// stand of a further one.
fn cut_stars(alloc: Global, maxima: &[u8], bytes: &[u8]) -> Result<(Stars, usize, usize), NoMemory>
    ensures { IfOk result (λ r. StarsCut maxima.now bytes.now r.0 r.1 r.2) }
{
    let mut stars = Stars::new(alloc);
    let mut place = 0;
    for most in maxima {
        let rest = after(bytes, place);
        let count = run_of_text(usize::from(*most), rest);
        if !is_star(rest, count) {
            return Ok((stars, place, count));
        }
        stars.push(ShortBytes::copied(before(rest, count))?)?;
        place += count + 1;
    }
    Ok((stars, place, 0))
}

// The tag of these parts, of which the last star element has no star, if it has a byte.
fn built(no: TagNo, fixed: &[u8], stars: Stars, part: &[u8]) -> Result<TagValue, NoMemory>
    requires { IsTag (tag_of (Inside no fixed.now stars part.now)) }
    ensures { IfOk result (λ v. v ≡ tag_of (Inside no fixed.now stars part.now)) }
{
    let fixed = ShortBytes::copied(fixed)?;
    if part.is_empty() {
        let closed = !stars.as_slice().is_empty();
        return Ok(TagValue {
            no,
            fixed,
            stars,
            closed,
        });
    }
    let mut stars = stars;
    stars.push(ShortBytes::copied(part)?)?;
    Ok(TagValue {
        no,
        fixed,
        stars,
        closed: false,
    })
}
