// The numbers that are left as a message is read.
ghost use Rattle.std.specs.Prelude.{◌≡◌, ◌==◌, ◌+◌, ◌-◌, ◌<◌, ◌≤◌, ◌++◌, filter, not, true, length, take, drop, slice_index};
ghost use Rattle.std.specs.List.{list_all};
ghost use Rattle.faim_base.specs.Tags.{is_tag_number};
ghost use Rattle.faim_message.specs.Forms.{permitted};
ghost use Rattle.faim_message.specs.Rising.{rising};

use crate::Form;
use crate::allowed::permitted;
use std::marker::Model;

// The greatest count of numbers that a form permits.
const MOST: usize = 33;

/// The numbers of tags that a form permits and that no tag has had yet. It takes no memory.
#[derive(Debug, Drop)]
pub(crate) struct Remaining {
    // The numbers are those from `start` up to `end`.
    numbers: [u16; MOST],
    start: usize,
    end: usize,
}

impl Model for Remaining {
    ghost use Rattle.std.specs.Prelude.{◌≡◌, ◌≤◌, ◌-◌, List, ℕ, true, take, drop};
    ghost use Rattle.std.specs.List.{list_all};
    ghost use Rattle.faim_base.specs.Tags.{is_tag_number};
    ghost use Rattle.faim_message.specs.Rising.{rising};

    ghost Value = { List ℕ };

    ghost view = { λ r. take (r.end - r.start) (drop r.start r.numbers) };

    ghost invariant = { λ r. (r.start ≤ r.end) × (r.end ≤ 33) × (list_all is_tag_number (take (r.end - r.start) (drop r.start r.numbers)) ≡ true) × (rising (take (r.end - r.start) (drop r.start r.numbers)) ≡ true) };
}

impl Remaining {
    // All that the form permits.
    pub(crate) fn new(form: Form) -> Remaining
        ensures { result ≡ permitted form }
    {
        let all = permitted(form);
        let mut numbers = [0; MOST];
        numbers[..all.len()].copy_from_slice(all);
        Remaining {
            numbers,
            start: 0,
            end: all.len(),
        }
    }

    pub(crate) fn as_slice(&self) -> &[u16]
        ensures value { result.now ≡ self.now }
        ensures listed { list_all is_tag_number result.now ≡ true }
    {
        &self.numbers[self.start..self.end]
    }

    // Takes a number away.
    pub(crate) fn take_away(&mut self, number: u16)
        ensures { self.new ≡ filter (λ n. not (n == number)) self.old }
    {
        self.start += drop_number(&mut self.numbers[self.start..self.end], number);
    }
}

// Takes a number out, and answers how many numbers at the front are none of those that are left.
fn drop_number(numbers: &mut [u16], number: u16) -> usize
    requires ordered { rising numbers.old ≡ true }
    ensures few { result ≤ length numbers.old }
    ensures kept { drop result numbers.new ≡ filter (λ n. not (n == number)) numbers.old }
{
    let place = place_of(numbers, number);
    if numbers.len() <= place {
        return 0;
    }
    close_gap(numbers, place);
    1
}

// Where a number stands, or the end where it is not there.
fn place_of(numbers: &[u16], number: u16) -> usize
    ensures within { result ≤ length numbers.now }
    ensures here { result < length numbers.now → slice_index numbers.now result ≡ number }
    ensures not_before { filter (λ n. not (n == number)) (take result numbers.now) ≡ take result numbers.now }
{
    let mut place = 0;
    while place < numbers.len() && numbers[place] != number {
        place += 1;
    }
    place
}

// Moves the numbers that stand before a place up by one.
fn close_gap(numbers: &mut [u16], place: usize)
    requires { place < length numbers.old }
    ensures { drop 1 numbers.new ≡ take place numbers.old ++ drop (place + 1) numbers.old }
{
    let mut at = place;
    while 0 < at {
        numbers[at] = numbers[at - 1];
        at -= 1;
    }
}
