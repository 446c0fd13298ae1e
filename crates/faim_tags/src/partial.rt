// One tag byte by byte, without memory of its bytes.
ghost use Rattle.std.specs.Prelude.{◌≡◌, slice_index, IsSome, ◌↔◌, ◌+◌, ◌<◌, ◌≤◌, ◌++◌, ◌∷◌, [], ℕ, List, Some, None, length, take, true, false, IfSome, MatchOption};
ghost use Rattle.std.specs.List.{list_all};
ghost use Rattle.faim_base.specs.Tags.{is_tag_number};
ghost use Rattle.faim_tags.specs.Layouts.{classes, maxima};
ghost use Rattle.faim_tags.specs.Spelling.{braced};
ghost use Rattle.faim_tags.specs.Reading.{is_among};
ghost use Rattle.faim_tags.specs.Steps.{Progress, InNumber, Inside, numbers_begin, step, may_end};
ghost use Rattle.faim_tags.specs.Partial.{StandsFor, BothStand, EndsAs, NextNumber, Reaches, is_start};
ghost use Rattle.faim_tags.specs.declared.partial.TagPart.{TagPart};

use crate::classes::{is_of_class, is_star, is_text, run_from, run_of_text};
use crate::lookup::{greatest, sized_layout};
use crate::number::{braced, byte_of, first_with, number_after};
use faim_base::{TagNo, after, before};

/// How far a tag is read, without the bytes that were read. `Number`: so many bytes, fewer than six, of its number in
/// braces, which are those of the number `like`. `Elements`: its number, and how many were read of its fixed bytes, of
/// its star elements that have their star, and of the bytes of the next one (docs/FORMATS.md, "Tags").
#[derive(Clone, Copy, Debug)]
pub enum TagPart {
    Number {
        like: TagNo,
        count: usize,
    },
    Elements {
        no: TagNo,
        fixed: usize,
        stars: usize,
        part: usize,
    },
}

impl TagPart {
    /// Nothing is read.
    pub fn start() -> TagPart
        ensures { (numbers : List ℕ) → StandsFor numbers result (InNumber []) }
    {
        TagPart::Number {
            like: TagNo::new(1100).unwrap(),
            count: 0,
        }
    }

    /// Whether nothing is read.
    pub fn is_start(&self) -> bool
        ensures { (numbers : List ℕ) (p : Progress) → StandsFor numbers self.now p → result ≡ is_start p }
    {
        match *self {
            TagPart::Number { count, .. } => count == 0,
            TagPart::Elements { .. } => false,
        }
    }

    /// What the next byte makes of it. None exactly where no tag that has one of the numbers goes on with the byte. The
    /// cost doesn't grow with what was read before.
    #[inline(always)]
    pub fn step(&self, numbers: &[u16], b: u8) -> Option<TagPart>
        requires { list_all is_tag_number numbers.now ≡ true }
        ensures { (p : Progress) → StandsFor numbers.now self.now p → BothStand numbers.now result (step numbers.now p b) }
    {
        match *self {
            TagPart::Number { like, count } => step_number(like, count, numbers, b),
            TagPart::Elements {
                no,
                fixed,
                stars,
                part,
            } => step_element(no, fixed, stars, part, b),
        }
    }

    /// Reads bytes as far as some tag that has one of the numbers goes on with them, and answers what they make of it and
    /// how many they are.
    pub fn read(&self, numbers: &[u16], bytes: &[u8]) -> (TagPart, usize)
        requires { list_all is_tag_number numbers.now ≡ true }
        ensures within { result.1 ≤ length bytes.now }
        ensures read { (p : Progress) → StandsFor numbers.now self.now p → Reaches numbers.now p bytes.now result.1 result.0 }
    {
        match *self {
            TagPart::Number { like, count } => read_from_number(like, count, numbers, bytes),
            TagPart::Elements {
                no,
                fixed,
                stars,
                part,
            } => read_elements(no, fixed, stars, part, bytes),
        }
    }

    /// The number of the tag that may end here. None exactly where none may.
    #[inline(always)]
    pub fn whole(&self) -> Option<TagNo>
        ensures { (numbers : List ℕ) (p : Progress) → StandsFor numbers self.now p → EndsAs result p }
    {
        match *self {
            TagPart::Number { .. } => None,
            TagPart::Elements {
                no,
                fixed,
                stars,
                part,
            } => {
                if may_end(no, fixed, stars, part) {
                    Some(no)
                } else {
                    None
                }
            }
        }
    }
}

// Reads the rest of the number, and the elements after it.
fn read_from_number(like: TagNo, count: usize, numbers: &[u16], bytes: &[u8]) -> (TagPart, usize)
    requires { list_all is_tag_number numbers.now ≡ true }
    ensures within { result.1 ≤ length bytes.now }
    ensures read { (p : Progress) → StandsFor numbers.now (TagPart.Number like count) p → Reaches numbers.now p bytes.now result.1 result.0 }
{
    match number_after(like, count, numbers, bytes) {
        Some(no) => {
            let (last, length) = read_elements(no, 0, 0, 0, after(bytes, 6 - count));
            (last, 6 - count + length)
        }
        None => number_by_steps(like, count, numbers, bytes),
    }
}

// As `read_from_number`, byte by byte until the number is whole.
fn number_by_steps(like: TagNo, count: usize, numbers: &[u16], bytes: &[u8]) -> (TagPart, usize)
    requires { list_all is_tag_number numbers.now ≡ true }
    ensures within { result.1 ≤ length bytes.now }
    ensures read { (p : Progress) → StandsFor numbers.now (TagPart.Number like count) p → Reaches numbers.now p bytes.now result.1 result.0 }
{
    let mut reached = TagPart::Number { like, count };
    let mut place = 0;
    while place < bytes.len() {
        if let TagPart::Elements {
            no,
            fixed,
            stars,
            part,
        } = reached
        {
            let (last, length) = read_elements(no, fixed, stars, part, after(bytes, place));
            return (last, place + length);
        }
        match reached.step(numbers, bytes[place]) {
            Some(next) => {
                reached = next;
                place += 1;
            }
            None => return (reached, place),
        }
    }
    (reached, place)
}

// Reads the elements of a tag: the fixed bytes that are left, and the star elements after them.
#[inline(always)]
fn read_elements(
    no: TagNo,
    fixed: usize,
    stars: usize,
    part: usize,
    bytes: &[u8],
) -> (TagPart, usize)
    ensures within { result.1 ≤ length bytes.now }
    ensures read { (ns : List ℕ) (p : Progress) → StandsFor ns (TagPart.Elements no fixed stars part) p → Reaches ns p bytes.now result.1 result.0 }
{
    let layout = sized_layout(no);
    let (run, whole) = run_from(layout.runs, fixed, bytes);
    let fixed = fixed + run;
    if !whole {
        return (
            TagPart::Elements {
                no,
                fixed,
                stars,
                part,
            },
            run,
        );
    }
    let (last, length) = read_stars(no, fixed, stars, part, layout.stars, after(bytes, run));
    (last, run + length)
}

// Reads the star elements, where the fixed bytes are all there: text of each, and the star that closes it.
fn read_stars(
    no: TagNo,
    fixed: usize,
    stars: usize,
    part: usize,
    most: &[u8],
    bytes: &[u8],
) -> (TagPart, usize)
    requires whole { length (classes no) ≤ fixed }
    requires most { most.now ≡ maxima no }
    ensures within { result.1 ≤ length bytes.now }
    ensures read { (ns : List ℕ) (p : Progress) → StandsFor ns (TagPart.Elements no fixed stars part) p → Reaches ns p bytes.now result.1 result.0 }
{
    let mut stars = stars;
    let mut part = part;
    let mut place = 0;
    while stars < most.len() {
        let room = usize::from(most[stars]).saturating_sub(part);
        let run = run_of_text(room, after(bytes, place));
        part += run;
        place += run;
        if !is_star(bytes, place) {
            return (
                TagPart::Elements {
                    no,
                    fixed,
                    stars,
                    part,
                },
                place,
            );
        }
        stars += 1;
        part = 0;
        place += 1;
    }
    (
        TagPart::Elements {
            no,
            fixed,
            stars,
            part,
        },
        place,
    )
}

// What the next byte makes of part of a number.
#[inline(always)]
fn step_number(like: TagNo, count: usize, numbers: &[u16], b: u8) -> Option<TagPart>
    requires { list_all is_tag_number numbers.now ≡ true }
    ensures { (given : List ℕ) → count < 6 → given ≡ take count (braced like) → (0 < count → is_among numbers.now like ≡ true)
        → BothStand numbers.now result (step numbers.now (InNumber given) b) }
{
    match next_number(like, count, numbers, b) {
        Some(no) => Some(with_number(no, count)),
        None => None,
    }
}

// One byte more of a number is read: part of it, or the whole.
#[inline(always)]
fn with_number(no: TagNo, count: usize) -> TagPart
    requires { count < 6 }
    ensures part { (numbers : List ℕ) → count < 5 → is_among numbers no ≡ true → StandsFor numbers result (InNumber (take (count + 1) (braced no))) }
    ensures whole { (numbers : List ℕ) → 5 ≤ count → StandsFor numbers result (Inside no [] [] []) }
{
    if count < 5 {
        TagPart::Number {
            like: no,
            count: count + 1,
        }
    } else {
        TagPart::Elements {
            no,
            fixed: 0,
            stars: 0,
            part: 0,
        }
    }
}

// One of the numbers that begins in braces as another number does, and then with the byte. That one is it, where it is
// among them and goes on with the byte.
#[inline(always)]
fn next_number(like: TagNo, count: usize, numbers: &[u16], b: u8) -> Option<TagNo>
    requires { list_all is_tag_number numbers.now ≡ true }
    ensures few { IfSome result (λ _. count < 6) }
    ensures next { (0 < count → is_among numbers.now like ≡ true)
        → MatchOption result (count < 6 → numbers_begin numbers.now (take count (braced like) ++ b ∷ []) ≡ false)
        (λ n. NextNumber numbers.now like count b n) }
{
    if count == 0 {
        return first_number(like, numbers, b);
    }
    if 6 <= count {
        return None;
    }
    if byte_of(like.get(), count) == b {
        return Some(like);
    }
    let mut front = braced(like.get());
    front[count] = b;
    match first_with(before(&front, count + 1), numbers) {
        Some(number) => TagNo::new(number),
        None => None,
    }
}

// The first of the numbers, where the byte begins one.
#[inline(always)]
fn first_number(like: TagNo, numbers: &[u16], b: u8) -> Option<TagNo>
    requires { list_all is_tag_number numbers.now ≡ true }
    ensures { MatchOption result (numbers_begin numbers.now (b ∷ []) ≡ false) (λ n. NextNumber numbers.now like 0 b n) }
{
    if b != b'{' || numbers.is_empty() {
        return None;
    }
    TagNo::new(numbers[0])
}

// As `step`, of the part `Elements` with these numbers.
#[inline(always)]
fn step_element(no: TagNo, fixed: usize, stars: usize, part: usize, b: u8) -> Option<TagPart>
    ensures { (ns : List ℕ) (p : Progress) → StandsFor ns (TagPart.Elements no fixed stars part) p → BothStand ns result (step ns p b) }
{
    let (mut fixed, mut stars, mut part) = (fixed, stars, part);
    if go_on(no, &mut fixed, &mut stars, &mut part, b) {
        Some(TagPart::Elements {
            no,
            fixed,
            stars,
            part,
        })
    } else {
        None
    }
}

/// Reads the next byte of the elements of the tag with this number, and answers whether some tag goes on with it: which
/// other numbers it may have had doesn't matter then. The counts are those of the part `Elements`; where none goes on
/// they stay as they are (docs/FORMATS.md, "Tags").
#[inline(always)]
pub fn go_on(no: TagNo, fixed: &mut usize, stars: &mut usize, part: &mut usize, b: u8) -> bool
    ensures on { result ≡ true → (ns : List ℕ) (p : Progress) → StandsFor ns (TagPart.Elements no fixed.old stars.old part.old) p
        → BothStand ns (Some (TagPart.Elements no fixed.new stars.new part.new)) (step ns p b) }
    ensures off { result ≡ false → (ns : List ℕ) (p : Progress) → StandsFor ns (TagPart.Elements no fixed.old stars.old part.old) p
        → BothStand ns None (step ns p b) }
    ensures same_fixed { result ≡ false → fixed.new ≡ fixed.old }
    ensures same_stars { result ≡ false → stars.new ≡ stars.old }
    ensures same_part { result ≡ false → part.new ≡ part.old }
{
    let layout = sized_layout(no);
    if *fixed < layout.classes.len() {
        if !is_of_class(layout.classes[*fixed], b) {
            return false;
        }
        *fixed += 1;
        return true;
    }
    if layout.stars.len() <= *stars {
        return false;
    }
    if b == b'*' {
        *stars += 1;
        *part = 0;
        return true;
    }
    if !is_text(b) || usize::from(layout.stars[*stars]) <= *part {
        return false;
    }
    *part += 1;
    true
}

/// Reads the next byte of a number in braces where it is the next one of the number `like` and the closing brace comes
/// later, and answers whether it did: the other numbers aren't looked at then. The count is that of the part `Number`;
/// where the byte isn't read it stays as it is (docs/FORMATS.md, "Tags").
#[inline(always)]
pub fn go_on_alike(like: TagNo, count: &mut usize, b: u8) -> bool
    ensures on { result ≡ true → (numbers : List ℕ) (p : Progress) → StandsFor numbers (TagPart.Number like count.old) p
        → BothStand numbers (Some (TagPart.Number like count.new)) (step numbers p b) }
    ensures same { result ≡ false → count.new ≡ count.old }
    ensures when { (result ≡ true) ↔ ((0 < count.old) × (count.old < 5) × (slice_index (braced like) count.old ≡ b)) }
{
    if *count == 0 || 5 <= *count || byte_of(like.get(), *count) != b {
        return false;
    }
    *count += 1;
    true
}

/// As `step`, of the part `Number` with these, where the byte is the closing brace of the number `like`: the other
/// numbers aren't looked at then. None where it isn't that brace, which another number may go on with (docs/FORMATS.md,
/// "Tags").
#[inline(always)]
pub fn close_alike(like: TagNo, count: usize, b: u8) -> Option<TagPart>
    ensures when { IsSome result ↔ ((count ≡ 5) × (slice_index (braced like) 5 ≡ b)) }
    ensures step { IfSome result (λ t. (numbers : List ℕ) (p : Progress) → StandsFor numbers (TagPart.Number like count) p
        → BothStand numbers (Some t) (step numbers p b)) }
{
    if count == 5 && byte_of(like.get(), count) == b {
        return Some(with_number(like, count));
    }
    None
}

// A tag may end after so many of its fixed bytes, of its closed star elements, and of the bytes of a further one.
#[inline(always)]
pub(crate) fn may_end(no: TagNo, fixed: usize, stars: usize, part: usize) -> bool
    ensures { (fs last : List ℕ) (ss : List (List ℕ)) → fixed ≡ length fs → stars ≡ length ss → part ≡ length last
        → result ≡ may_end (Inside no fs ss last) }
{
    let length = sized_layout(no).classes.len();
    if fixed < length {
        false
    } else if part == 0 {
        length > 0 || stars > 0
    } else {
        part == usize::from(greatest(no, stars))
    }
}
