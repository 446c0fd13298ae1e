// The numbers of edits.
ghost use Rattle.std.specs.Prelude.{◌≡◌, Some, None, if◌then◌else◌, IsTrue};
ghost use Rattle.faim_base.specs.Refusals.{edit, is_edit_number};

use faim_base::Reject;
use std::marker::Model;

/// The number of an edit: 101 to 117, which a message fails by itself, or 161 and 162, which need a host's accounts
/// (docs/FORMATS.md, "Edits").
#[derive(Clone, Copy, Debug, PartialEq, Eq, PartialOrd, Ord)]
pub struct EditNo(u16);

impl Model for EditNo {
    ghost use Rattle.std.specs.Prelude.{ℕ, IsTrue};
    ghost use Rattle.faim_base.specs.Refusals.{is_edit_number};

    ghost Value = { ℕ };

    ghost view = { λ n. n.0 };

    ghost invariant = { λ n. IsTrue (is_edit_number n.0) };

    ghost inverse = { λ n. record { 0 = n } };
}

impl EditNo {
    /// None exactly where n is no edit's number.
    pub fn new(n: u16) -> Option<EditNo>
        ensures { result ≡ (if is_edit_number n then Some n else None) }
    {
        if is_edit_number(n) {
            Some(EditNo(n))
        } else {
            None
        }
    }

    /// The number.
    pub fn get(self) -> u16
        ensures value { result ≡ self }
        ensures listed { IsTrue (is_edit_number result) }
    {
        self.0
    }

    /// The refusal of a message that fails the edit: the letter `E` and the number.
    pub fn reject(self) -> Reject
        ensures { result ≡ edit self }
    {
        Reject {
            category: b'E',
            code: self.0,
        }
    }
}

fn is_edit_number(n: u16) -> bool
    ensures { result ≡ is_edit_number n }
{
    101 <= n && n <= 117 || n == 161 || n == 162
}
