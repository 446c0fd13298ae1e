// What a write covers, so that a stop can take it back.
ghost use Rattle.std.specs.Prelude.{◌≡◌, ◌+◌, ◌-◌, ◌^◌, ◌<◌, ◌≤◌, [], ◌++◌, take, drop, replicate, length, reverse, IfOk, OnOk, OnErr};
ghost use Rattle.site_core.specs.Image.{put};
ghost use Rattle.site_core.specs.Memory.{patch_of, restored, undone, filled, filled_all, Fits, AllFit, IsWithin, AllWithin};

use faim_base::{Bytes, NoMemory};
use std::alloc::Global;

/// A range that a write changed, with a gap in front of it, and the bytes that stood there.
#[derive(Debug, Drop)]
pub(crate) struct Patch {
    pub(crate) from: usize,
    pub(crate) end: usize,
    pub(crate) old: Bytes,
}

// What a write of these bytes is going to cover.
pub(crate) fn covered(
    alloc: Global,
    image: &[u8],
    at: usize,
    bytes: &[u8],
) -> Result<Patch, NoMemory>
    requires { at + length bytes.now < 2 ^ 64 }
    ensures { IfOk result (λ p. p ≡ patch_of image.now at bytes.now) }
{
    if bytes.is_empty() {
        return Ok(Patch {
            from: 0,
            end: 0,
            old: Bytes::new(alloc),
        });
    }
    let old = piece(alloc, image, at, bytes.len())?;
    Ok(Patch {
        from: at.min(image.len()),
        end: at + bytes.len(),
        old,
    })
}

// A copy of what stands in a range, as far as the image goes.
fn piece(alloc: Global, image: &[u8], at: usize, count: usize) -> Result<Bytes, NoMemory>
    requires { at + count < 2 ^ 64 }
    ensures { IfOk result (λ b. b ≡ take count (drop at image.now)) }
{
    let mut bytes = Bytes::new(alloc);
    if at < image.len() {
        bytes.extend(&image[at..(at + count).min(image.len())])?;
    }
    Ok(bytes)
}

// Writes over what is there, and past the end, or changes nothing.
pub(crate) fn put_in(image: &mut Vec<u8>, at: usize, bytes: &[u8]) -> Result<(), NoMemory>
    requires { at + length bytes.now < 2 ^ 64 }
    ensures ok { OnOk result (image.new.items ≡ put 0 image.old.items at bytes.now) }
    ensures err { OnErr result (image.new.items ≡ image.old.items) }
{
    if bytes.len() == 0 {
        return Ok(());
    }
    widen(image, at + bytes.len())?;
    over(image, at, bytes);
    Ok(())
}

// Makes the image at least this long, by zeros.
fn widen(image: &mut Vec<u8>, end: usize) -> Result<(), NoMemory>
    ensures ok { OnOk result (image.new.items ≡ image.old.items ++ replicate (end - length image.old.items) 0) }
    ensures err { OnErr result (image.new.items ≡ image.old.items) }
{
    if end > image.len() {
        image.resize(end, 0)?;
    }
    Ok(())
}

fn over(image: &mut Vec<u8>, at: usize, bytes: &[u8])
    requires { at + length bytes.now ≤ length image.old.items }
    ensures { image.new.items ≡ take at image.old.items ++ bytes.now ++ drop (at + length bytes.now) image.old.items }
{
    over_part(image, at, bytes);
}

fn over_part(image: &mut [u8], at: usize, bytes: &[u8])
    requires { at + length bytes.now ≤ length image.old }
    ensures { image.new ≡ take at image.old ++ bytes.now ++ drop (at + length bytes.now) image.old }
{
    let end = at + bytes.len();
    image[at..end].copy_from_slice(bytes);
}

fn fill(image: &mut Vec<u8>, patch: &Patch, byte: u8)
    requires { IsWithin (length image.old.items) patch.now }
    ensures items { image.new.items ≡ filled byte patch.now image.old.items }
    ensures long { length image.new.items ≡ length image.old.items }
{
    fill_part(image, patch.from, patch.end, byte);
}

fn fill_part(image: &mut [u8], from: usize, end: usize, byte: u8)
    requires { (from ≤ end) × (end ≤ length image.old) }
    ensures { image.new ≡ take from image.old ++ replicate (end - from) byte ++ drop end image.old }
{
    image[from..end].fill(byte);
}

// Takes one write back.
pub(crate) fn restore(image: &mut Vec<u8>, patch: &Patch)
    requires { Fits patch.now image.old.items }
    ensures { image.new.items ≡ restored patch.now image.old.items }
{
    let old = patch.old.as_slice();
    over(image, patch.from, old);
    if patch.end == image.len() {
        image.truncate(patch.from + old.len());
    }
}

// Takes all of the writes back, the newest first.
pub(crate) fn undo(image: &mut Vec<u8>, patches: &mut Vec<Patch>)
    requires { AllFit (reverse patches.old.items) image.old.items }
    ensures image { image.new.items ≡ undone (reverse patches.old.items) image.old.items }
    ensures patches { patches.new.items ≡ [] }
{
    while let Some(patch) = patches.pop() {
        restore(image, &patch);
    }
}

// Puts one byte all over what the writes covered.
pub(crate) fn mark(image: &mut Vec<u8>, patches: &mut Vec<Patch>, byte: u8)
    requires { AllWithin (length image.old.items) (reverse patches.old.items) }
    ensures image { image.new.items ≡ filled_all byte (reverse patches.old.items) image.old.items }
    ensures patches { patches.new.items ≡ [] }
{
    while let Some(patch) = patches.pop() {
        fill(image, &patch, byte);
    }
}
