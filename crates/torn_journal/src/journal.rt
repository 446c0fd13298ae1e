// A journal by the place after its tail gate (docs/FORMATS.md, "Journals").
ghost use Rattle.std.specs.Prelude.{◌≡◌, ◌≤◌};
ghost use Rattle.torn_journal.specs.Limits.{least_tail, greatest_tail};

use crate::limits::HEADER_LENGTH;
use std::marker::Model;

/// What each image of a journal begins with.
pub(crate) const HEADER: [u8; HEADER_LENGTH] = *b"FAIMJRN1\0\0\0\0\0\0\0\0";

/// The gate of a record that counts.
pub(crate) const OPEN_GATE: u8 = 0xA5;

/// The closed gate that is written. Every byte but the open gate is one.
pub(crate) const CLOSED_GATE: u8 = 0;

/// A journal that is ready to be added to. Contracts see it as the place after its tail gate.
#[derive(Debug, Drop)]
pub struct Journal {
    pub(crate) tail: u64,
}

impl Model for Journal {
    ghost use Rattle.std.specs.Prelude.{ℕ, ◌≤◌};
    ghost use Rattle.torn_journal.specs.Limits.{least_tail, greatest_tail};

    ghost Value = { ℕ };

    ghost view = { λ j. j.tail };

    ghost invariant = { λ j. (least_tail ≤ j.tail) × (j.tail ≤ greatest_tail) };
}

impl Journal {
    /// The place after the tail gate, in bytes from the start of the image: 17 to 1,073,741,824.
    pub fn tail(&self) -> u64
        ensures value { result ≡ self.now }
        ensures least { least_tail ≤ result }
        ensures greatest { result ≤ greatest_tail }
    {
        self.tail
    }
}
