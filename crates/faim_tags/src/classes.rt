// Bytes of a class, one after another.
ghost use Rattle.std.specs.Prelude.{◌≡◌, ◌+◌, ◌≤◌, ◌<◌, ◌^◌, ◌==◌, true, false, length, drop, replicate, slice_index, MatchResult, Result};
ghost use Rattle.faim_base.specs.Text.{is_text_byte};
ghost use Rattle.faim_tags.specs.Layouts.{each_class, is_of_class};
ghost use Rattle.faim_tags.specs.Reading.{goes_on};
ghost use Rattle.faim_tags.specs.Parts.{digits_length, run_length, text_length};

use crate::lanes::{LANES, digits_in_lanes, text_in_lanes};
use faim_base::{after, before, is_digit, is_text_byte};

// A byte that may stand in a star element or end it.
pub(crate) fn goes_on(b: u8) -> bool
    ensures { result ≡ goes_on b }
{
    is_text_byte(b) || b == b'*'
}

// How many bytes at the front are of the class, up to a number of them: digits for the class `n`, text bytes for every
// other.
pub(crate) fn run_of(class: u8, most: u8, bytes: &[u8]) -> usize
    ensures { result ≡ run_length (replicate most class) bytes.now }
{
    if class == b'n' {
        run_of_digits(usize::from(most), bytes)
    } else {
        run_of_text(usize::from(most), bytes)
    }
}

// How many digits stand at the front, up to a number of them.
fn run_of_digits(most: usize, bytes: &[u8]) -> usize
    ensures { result ≡ digits_length most bytes.now }
{
    if most <= LANES && LANES <= bytes.len() {
        most.min(digits_in_lanes(bytes, 0))
    } else {
        digits_one_by_one(most, bytes)
    }
}

// As `run_of_digits`, byte by byte.
fn digits_one_by_one(most: usize, bytes: &[u8]) -> usize
    ensures { result ≡ digits_length most bytes.now }
{
    let mut count = 0;
    for b in before(bytes, most.min(bytes.len())) {
        if !is_digit(*b) {
            return count;
        }
        count += 1;
    }
    count
}

// How many text bytes stand at the front, up to a number of them.
pub(crate) fn run_of_text(most: usize, bytes: &[u8]) -> usize
    ensures { result ≡ text_length most bytes.now }
{
    let mut count = 0;
    while count < most && LANES <= bytes.len() - count {
        let run = text_in_lanes(bytes, count);
        if run < LANES {
            return most.min(count + run);
        }
        count += LANES;
    }
    if most <= count {
        most
    } else {
        count + text_one_by_one(most - count, after(bytes, count))
    }
}

// As `run_of_text`, byte by byte.
fn text_one_by_one(most: usize, bytes: &[u8]) -> usize
    ensures { result ≡ text_length most bytes.now }
{
    let mut count = 0;
    for b in before(bytes, most.min(bytes.len())) {
        if !is_text(*b) {
            return count;
        }
        count += 1;
    }
    count
}

// The byte is of the class: a digit for the class `n`, a text byte for every other.
pub(crate) fn is_of_class(class: u8, b: u8) -> bool
    ensures { result ≡ is_of_class class b }
{
    if class == b'n' {
        is_digit(b)
    } else {
        is_text(b)
    }
}

// As `is_text_byte`, told with few comparisons for most bytes.
pub(crate) fn is_text(b: u8) -> bool
    ensures { result ≡ is_text_byte b }
{
    if b < b'{' {
        b' ' <= b && b != b'*'
    } else {
        b == b'|' || b == b'~'
    }
}

// A star stands at the place.
pub(crate) fn is_star(bytes: &[u8], place: usize) -> bool
    ensures { result ≡ (slice_index bytes.now place == 42) }
{
    bytes.get(place) == Some(&b'*')
}

// How many bytes at the front are those of the fixed elements after the first ones, which were read before, and whether
// no more are wanted then.
pub(crate) fn run_from(elements: &[(u8, u8)], fixed: usize, bytes: &[u8]) -> (usize, bool)
    requires { length elements.now ≤ 100 }
    ensures within { result.0 ≤ length bytes.now }
    ensures run { result.0 ≡ run_length (drop fixed (each_class elements.now)) bytes.now }
    ensures room { fixed + result.0 < 2 ^ 64 }
    ensures whole { result.1 ≡ true → length (each_class elements.now) ≤ fixed + result.0 }
    ensures short { result.1 ≡ false → fixed + result.0 < length (each_class elements.now) }
{
    let mut skipped = fixed;
    let mut count = 0;
    for (class, length) in elements {
        let wanted = usize::from(*length).saturating_sub(skipped);
        let run = run_of(*class, wanted as u8, after(bytes, count));
        count += run;
        if run < wanted {
            return (count, false);
        }
        skipped = skipped.saturating_sub(usize::from(*length));
    }
    (count, true)
}
