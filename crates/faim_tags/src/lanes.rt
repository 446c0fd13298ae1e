// How many bytes of sixteen, from the first, are of a class.
ghost use Rattle.std.specs.Prelude.{◌≡◌, ◌+◌, ◌≤◌, length, drop};
ghost use Rattle.faim_tags.specs.Parts.{digits_length, text_length, first_set};

use std::simd::prelude::*;

// How many bytes are looked at.
pub(crate) const LANES: usize = 16;

// The place of the lowest bit that is set, or the number of lanes.
#[inline(always)]
fn first_set(mask: u64) -> usize
    ensures { result ≡ first_set mask 16 }
{
    if mask == 0 {
        LANES
    } else {
        mask.trailing_zeros() as usize
    }
}

// How many text bytes stand at the front of the sixteen at a place.
#[inline(always)]
pub(crate) fn text_in_lanes(bytes: &[u8], place: usize) -> usize
    requires { place + LANES ≤ length bytes.now }
    ensures { result ≡ text_length 16 (drop place bytes.now) }
{
    let lanes = u8x16::from_slice(&bytes[place..]);
    let outside = lanes.simd_lt(u8x16::splat(b' ')) | lanes.simd_ge(u8x16::splat(0x7f));
    let braces = lanes.simd_eq(u8x16::splat(b'{')) | lanes.simd_eq(u8x16::splat(b'}'));
    let stops = outside | braces | lanes.simd_eq(u8x16::splat(b'*'));
    first_set(stops.to_bitmask())
}

// How many digits stand at the front of the sixteen at a place.
#[inline(always)]
pub(crate) fn digits_in_lanes(bytes: &[u8], place: usize) -> usize
    requires { place + LANES ≤ length bytes.now }
    ensures { result ≡ digits_length 16 (drop place bytes.now) }
{
    let lanes = u8x16::from_slice(&bytes[place..]);
    let stops = lanes.simd_lt(u8x16::splat(b'0')) | lanes.simd_ge(u8x16::splat(b':'));
    first_set(stops.to_bitmask())
}
