// The tags of a message that is there.
ghost use Rattle.std.specs.Prelude.{◌≡◌, ◌<◌, ◌≤◌, List, length, IfOk};
ghost use Rattle.faim_message.specs.declared.form.Form.{Form};
ghost use Rattle.faim_message.specs.declared.form.Breaks.{Breaks};
ghost use Rattle.faim_tags.specs.Spelling.{Tag};
ghost use Rattle.faim_message.specs.Refusal.{EndsWhole};
ghost use Rattle.faim_message.specs.Cutting.{Rest};

use crate::Tags;
use faim_base::{NoMemory, after};
use faim_tags::cut_tag;
use std::alloc::Global;

// The greatest count of tags that a message has.
const MOST: usize = 33;

// The tags of bytes that end after a whole tag or a whole break.
pub(crate) fn cut_tags(alloc: Global, bytes: &[u8]) -> Result<Tags, NoMemory>
    requires { (form : Form) × EndsWhole form bytes.now }
    ensures { (form : Form) (end : EndsWhole form bytes.now) → IfOk result (λ tags. tags.items ≡ end.tags) }
{
    let mut tags = Tags::with_capacity(alloc, room_for(bytes.len()))?;
    let mut place = 0;
    while place < bytes.len() {
        place = next_tag(alloc, bytes, place, &mut tags)?;
    }
    Ok(tags)
}

// How many tags a message of so many bytes has, or a few more in most messages: room for them all is reserved at once.
fn room_for(length: usize) -> usize {
    MOST.min(length / 16 + 1)
}

// Goes over one byte of a break, or takes up the tag that begins at the place, and answers where it ends.
fn next_tag(alloc: Global, bytes: &[u8], place: usize, tags: &mut Tags) -> Result<usize, NoMemory>
    requires place { place < length bytes.now }
    requires there { (breaks : Breaks) × ((whole : List Tag) × Rest breaks whole tags.old.items bytes.now place) }
    ensures within { IfOk result (λ end. (place < end) × (end ≤ length bytes.now)) }
    ensures rest { (breaks : Breaks) (whole : List Tag) → Rest breaks whole tags.old.items bytes.now place → IfOk result (λ end. Rest breaks whole tags.new.items bytes.now end) }
{
    if bytes[place] != b'{' {
        return Ok(place + 1);
    }
    let (tag, length) = match cut_tag(alloc, after(bytes, place)) {
        Ok(cut) => cut,
        Err(NoMemory) => return Err(NoMemory),
    };
    tags.push(tag)?;
    Ok(place + length)
}
