// The number that a tag begins with.
ghost use Rattle.std.specs.Prelude.{◌≡◌, ◌+◌, ◌*◌, ◌-◌, ◌<◌, ◌≤◌, ℕ, [], ◌∷◌, take, drop, length, slice_index, true, Some, None, IfSome, if◌then◌else◌, is_some, nat_eq};
ghost use Rattle.std.specs.List.{list_all, starts_with};
ghost use Rattle.faim_base.specs.Tags.{is_tag_number};
ghost use Rattle.faim_tags.specs.Spelling.{braced};
ghost use Rattle.faim_tags.specs.Reading.{is_among};
ghost use Rattle.faim_tags.specs.Steps.{numbers_begin};
ghost use Rattle.faim_tags.specs.Parts.{FollowsBrace};

use faim_base::{Refused, TagNo, after, are_digits, before};

// A number in braces.
pub(crate) fn braced(number: u16) -> [u8; 6]
    requires { number < 10_000 }
    ensures { result ≡ braced number }
{
    [
        b'{',
        b'0' + (number / 1000) as u8,
        b'0' + (number / 100 % 10) as u8,
        b'0' + (number / 10 % 10) as u8,
        b'0' + (number % 10) as u8,
        b'}',
    ]
}

// A byte of a number in braces.
pub(crate) fn byte_of(number: u16, place: usize) -> u8
    requires number { number < 10_000 }
    requires place { place < 6 }
    ensures { result ≡ slice_index (braced number) place }
{
    match place {
        0 => b'{',
        1 => b'0' + (number / 1000) as u8,
        2 => b'0' + (number / 100 % 10) as u8,
        3 => b'0' + (number / 10 % 10) as u8,
        4 => b'0' + (number % 10) as u8,
        _ => b'}',
    }
}

// The number, one of these, of which all bytes in braces stand at the front but for the first ones, at most one of them.
// Often it is the number `like`.
pub(crate) fn number_after(
    like: TagNo,
    count: usize,
    numbers: &[u16],
    bytes: &[u8],
) -> Option<TagNo>
    requires { list_all is_tag_number numbers.now ≡ true }
    ensures { IfSome result (λ n. FollowsBrace numbers.now count bytes.now n) }
{
    if 1 < count || bytes.len() < 6 - count {
        return None;
    }
    if !has_brace(count, bytes) {
        return None;
    }
    match closed_number(after(bytes, 1 - count)) {
        Some(number) => {
            if is_among(numbers, number) {
                tag_no(like, number)
            } else {
                None
            }
        }
        None => None,
    }
}

// The tag's number. No search is needed where it is the number `like`.
fn tag_no(like: TagNo, number: u16) -> Option<TagNo>
    ensures { result ≡ (if is_tag_number number then Some number else None) }
{
    if number == like.get() {
        Some(like)
    } else {
        TagNo::new(number)
    }
}

// The brace before the number stands at the front, or was read before.
fn has_brace(count: usize, bytes: &[u8]) -> bool
    requires { 0 < length bytes.now }
    ensures { result ≡ true → count ≡ 0 → slice_index bytes.now 0 ≡ 123 }
{
    0 < count || bytes[0] == b'{'
}

// The number of the four digits at the front that have a brace after them.
fn closed_number(bytes: &[u8]) -> Option<u16>
    requires { 5 ≤ length bytes.now }
    ensures { IfSome result (λ n. take 5 bytes.now ≡ drop 1 (braced n)) }
{
    if are_digits(before(bytes, 4)) && bytes[4] == b'}' {
        Some(number_in(bytes))
    } else {
        None
    }
}

// The number is one of these.
fn is_among(numbers: &[u16], number: u16) -> bool
    ensures { result ≡ is_among numbers.now number }
{
    numbers.iter().any(|n| *n == number)
}

// The number of the four digits at the front.
pub(crate) fn number_in(bytes: &[u8]) -> u16
    requires { 4 ≤ length bytes.now }
    ensures { (a b c d : ℕ) → a < 10 → b < 10 → c < 10 → d < 10 → take 4 bytes.now ≡ (48 + a) ∷ (48 + b) ∷ (48 + c) ∷ (48 + d) ∷ []
        → result ≡ 1000 * a + 100 * b + 10 * c + d }
{
    1000 * digit(bytes[0]) + 100 * digit(bytes[1]) + 10 * digit(bytes[2]) + digit(bytes[3])
}

// The value of a digit.
fn digit(b: u8) -> u16
    ensures small { result < 16 }
    ensures value { (d : ℕ) → d < 10 → b ≡ 48 + d → result ≡ d }
{
    u16::from(b % 16)
}

// The first of the numbers that begins so in braces.
pub(crate) fn first_with(front: &[u8], numbers: &[u16]) -> Option<u16>
    requires { list_all is_tag_number numbers.now ≡ true }
    ensures found { IfSome result (λ n. (is_among numbers.now n ≡ true) × (starts_with nat_eq (braced n) front.now ≡ true)) }
    ensures any { is_some result ≡ numbers_begin numbers.now front.now }
{
    for number in numbers {
        if braced(*number).starts_with(front) {
            return Some(*number);
        }
    }
    None
}

// Where reading stops: at a byte, or at the end of the bytes.
pub(crate) fn stop_at(place: usize, end: usize) -> Refused
    requires { place ≤ end }
    ensures byte { place < end → result ≡ Refused.Byte place }
    ensures cut { place ≡ end → result ≡ Refused.Cut }
{
    if place < end {
        Refused::Byte(place)
    } else {
        Refused::Cut
    }
}
