// The bytes of one tag.
ghost use Rattle.std.specs.Prelude.{◌≡◌, ◌++◌, ℕ, List, take, length, OnOk, OnErr};
ghost use Rattle.faim_tags.specs.Spelling.{spelling, starred, braced, SpellsTag, IsTag};

use crate::number::braced;
use crate::{ShortBytes, TagValue};
use faim_base::NoMemory;

/// Appends the one spelling of the tag. `NoMemory` leaves `out` as it was.
pub fn spell(value: &TagValue, out: &mut Vec<u8>) -> Result<(), NoMemory>
    ensures ok { OnOk result (out.new.items ≡ out.old.items ++ spelling value.now) }
    ensures err { OnErr result (out.new.items ≡ out.old.items) }
    ensures sound { IsTag value.now }
{
    let before = out.len();
    match append_tag(value, out) {
        Ok(()) => Ok(()),
        Err(fault) => {
            out.truncate(before);
            Err(fault)
        }
    }
}

// Appends the spelling, or part of it where memory runs out.
fn append_tag(value: &TagValue, out: &mut Vec<u8>) -> Result<(), NoMemory>
    ensures ok { OnOk result (out.new.items ≡ out.old.items ++ spelling value.now) }
    ensures kept { take (length out.old.items) out.new.items ≡ out.old.items }
    ensures sound { IsTag value.now }
{
    out.extend_from_slice(&braced(value.no.get()))?;
    out.extend_from_slice(value.fixed.as_slice())?;
    append_stars(value.stars.as_slice(), value.closed, out)
}

// Appends the star elements, each with its star, the last only where it is closed.
fn append_stars(stars: &[ShortBytes], closed: bool, out: &mut Vec<u8>) -> Result<(), NoMemory>
    ensures ok { OnOk result (out.new.items ≡ out.old.items ++ starred stars.now closed) }
    ensures kept { take (length out.old.items) out.new.items ≡ out.old.items }
{
    for (k, star) in stars.iter().enumerate() {
        out.extend_from_slice(star.as_slice())?;
        if closed || k + 1 < stars.len() {
            out.push(b'*')?;
        }
    }
    Ok(())
}
