// The numbers of the tags of the format.
ghost use Rattle.std.specs.Prelude.{◌≡◌, Some, None, if◌then◌else◌, IsTrue};
ghost use Rattle.faim_base.specs.Tags.{is_tag_number};

use std::marker::Model;

/// The number of one of the 34 tags of the format (docs/FORMATS.md, "Tags").
#[derive(Clone, Copy, Debug, PartialEq, Eq, PartialOrd, Ord)]
pub struct TagNo(u16);

impl Model for TagNo {
    ghost use Rattle.std.specs.Prelude.{ℕ, IsTrue};
    ghost use Rattle.faim_base.specs.Tags.{is_tag_number};

    ghost Value = { ℕ };

    ghost view = { λ n. n.0 };

    ghost invariant = { λ n. IsTrue (is_tag_number n.0) };

    ghost inverse = { λ n. record { 0 = n } };
}

/// The 34 numbers, in order.
pub static TAG_NUMBERS: [u16; 34] = [
    1100, 1110, 1120, 1130, 1500, 1510, 1520, 2000, 3100, 3320, 3400, 3500, 3600, 4000, 4100, 4200,
    4320, 4400, 5000, 5100, 5200, 5400, 6000, 6100, 6110, 6200, 6210, 6300, 6310, 6400, 6410, 6420,
    6500, 9000,
];

impl TagNo {
    /// None exactly where n is no tag's number.
    pub fn new(n: u16) -> Option<TagNo>
        ensures { result ≡ (if is_tag_number n then Some n else None) }
    {
        if is_tag_number(n) {
            Some(TagNo(n))
        } else {
            None
        }
    }

    /// The number.
    pub fn get(self) -> u16
        ensures value { result ≡ self }
        ensures listed { IsTrue (is_tag_number result) }
    {
        self.0
    }
}

fn is_tag_number(n: u16) -> bool
    ensures { result ≡ is_tag_number n }
{
    TAG_NUMBERS.iter().any(|t| *t == n)
}
