// One tag at the front of bytes.
ghost use Rattle.std.specs.Prelude.{◌≡◌, ◌+◌, ◌^◌, ◌<◌, ◌&&◌, ℕ, List, length, IfOk, IfErr, true};
ghost use Rattle.std.specs.List.{list_all};
ghost use Rattle.faim_base.specs.Tags.{is_tag_number, tag_numbers};
ghost use Rattle.faim_tags.specs.Reading.{FoundTag, RefusesTag, is_past};
ghost use Rattle.faim_tags.specs.Steps.{Progress, may_end};
ghost use Rattle.faim_tags.specs.Partial.{StandsFor};

use crate::classes::goes_on;
use crate::cutting::cut_tag;
use crate::number::stop_at;
use crate::{TagPart, TagValue};
use faim_base::{NoMemory, Refused, TAG_NUMBERS, after};
use std::alloc::Global;

/// The tag at the front of the bytes, and how many bytes it has: after it nothing stands, or a byte that is neither a
/// text byte nor a star. `Byte` names the first byte with which no tag's spelling goes on, `Cut` says that the bytes
/// end inside one. It never answers `Missing` (docs/FORMATS.md, "Tags").
pub fn read_tag(alloc: Global, bytes: &[u8]) -> Result<(TagValue, usize), Refused>
    ensures found { IfOk result (λ r. FoundTag tag_numbers bytes.now r.0 r.1) }
    ensures refused { IfErr result (λ e. RefusesTag tag_numbers bytes.now e) }
{
    read_tag_among(alloc, bytes, &TAG_NUMBERS)
}

/// As `read_tag`, where only tags with these numbers are known.
pub fn read_tag_among(
    alloc: Global,
    bytes: &[u8],
    numbers: &[u16],
) -> Result<(TagValue, usize), Refused>
    requires some { 0 < length numbers.now }
    requires listed { list_all is_tag_number numbers.now ≡ true }
    ensures found { IfOk result (λ r. FoundTag numbers.now bytes.now r.0 r.1) }
    ensures refused { IfErr result (λ e. RefusesTag numbers.now bytes.now e) }
{
    let (part, length) = TagPart::start().read(numbers, bytes);
    if !is_over(&part, after(bytes, length)) {
        return Err(stop_at(length, bytes.len()));
    }
    match cut_tag(alloc, bytes) {
        Ok(found) => Ok(found),
        Err(NoMemory) => Err(Refused::NoMemory),
    }
}

// A tag may end after the part, and no byte of it comes next.
fn is_over(part: &TagPart, rest: &[u8]) -> bool
    ensures { (numbers : List ℕ) (p : Progress) → StandsFor numbers part.now p → result ≡ (may_end p && is_past rest.now) }
{
    match part.whole() {
        Some(_) => is_past(rest),
        None => false,
    }
}

// No byte of a tag comes next.
fn is_past(bytes: &[u8]) -> bool
    ensures { result ≡ is_past bytes.now }
{
    bytes.first().is_none_or(|b| !goes_on(*b))
}
