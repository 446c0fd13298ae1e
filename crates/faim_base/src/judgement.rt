// What a host says of a message, and what it needs to know of it.
use crate::{Aba, Cents, Endpoint, Imad, Seq, TagNo};

/// Why bytes are no message: the place, from 0, of the first byte with which no message goes on; an end inside a tag;
/// or the least mandatory tag that is missing.
#[derive(Clone, Copy, Debug, PartialEq, Eq)]
pub enum Refused {
    Byte(usize),
    Cut,
    Missing(TagNo),
    NoMemory,
}

/// A refusal: the letter of its category and its number, as `E` and 101 (docs/FORMATS.md, "Refusals").
#[derive(Clone, Copy, Debug, PartialEq, Eq)]
pub struct Reject {
    pub category: u8,
    pub code: u16,
}

/// What the host answers to a message: taken, with the number of its output to the endpoint, or refused.
#[derive(Clone, Copy, Debug, PartialEq, Eq)]
pub enum Verdict {
    Taken { dest: Endpoint, seq: Seq },
    Refused(Reject),
}

/// What a host judges a message by. `kind` and `sub` are the type and subtype as numbers, 0 to 99.
#[derive(Clone, Copy, Debug, PartialEq, Eq)]
pub struct Head {
    pub imad: Imad,
    pub sender: Aba,
    pub receiver: Aba,
    pub code: [u8; 3],
    pub kind: u8,
    pub sub: u8,
    pub amount: Cents,
}
