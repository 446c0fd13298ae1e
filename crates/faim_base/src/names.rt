// Names of the ends of a line, and numbers of banks.
ghost use Rattle.std.specs.Prelude.{◌≡◌, ◌+◌, ◌-◌, ◌*◌, ◌≤◌, IsTrue, length};
ghost use Rattle.faim_base.specs.Text.{is_endpoint, is_aba, read_endpoint, read_aba, aba_holds};

use crate::bytes::{are_digits, is_name_byte};
use std::marker::Model;

/// An endpoint of the service: eight text bytes, none of them a blank (docs/FORMATS.md, "Bytes").
#[derive(Clone, Copy, Debug, PartialEq, Eq)]
pub struct Endpoint([u8; 8]);

impl Model for Endpoint {
    ghost use Rattle.std.specs.Prelude.{List, ℕ, IsTrue};
    ghost use Rattle.faim_base.specs.Text.{is_endpoint};

    ghost Value = { List ℕ };

    ghost view = { λ e. e.0 };

    ghost invariant = { λ e. IsTrue (is_endpoint e.0) };

    ghost inverse = { λ bytes. record { 0 = bytes } };
}

impl Endpoint {
    /// None exactly where a byte isn't a text byte or is a blank.
    pub fn read(bytes: &[u8; 8]) -> Option<Endpoint>
        ensures { result ≡ read_endpoint bytes.now }
    {
        if is_endpoint(bytes) {
            Some(Endpoint(*bytes))
        } else {
            None
        }
    }

    /// The eight bytes.
    pub fn bytes(&self) -> [u8; 8]
        ensures value { result ≡ self.now }
        ensures named { IsTrue (is_endpoint self.now) }
    {
        self.0
    }
}

/// A bank's routing number: nine digits. Whether its check digit holds is for `aba_check` to say.
#[derive(Clone, Copy, Debug, PartialEq, Eq)]
pub struct Aba([u8; 9]);

impl Model for Aba {
    ghost use Rattle.std.specs.Prelude.{List, ℕ, IsTrue};
    ghost use Rattle.faim_base.specs.Text.{is_aba};

    ghost Value = { List ℕ };

    ghost view = { λ a. a.0 };

    ghost invariant = { λ a. IsTrue (is_aba a.0) };

    ghost inverse = { λ bytes. record { 0 = bytes } };
}

impl Aba {
    /// None exactly where a byte isn't a digit.
    pub fn read(bytes: &[u8; 9]) -> Option<Aba>
        ensures { result ≡ read_aba bytes.now }
    {
        if is_aba(bytes) {
            Some(Aba(*bytes))
        } else {
            None
        }
    }

    /// The nine digits.
    pub fn bytes(&self) -> [u8; 9]
        ensures value { result ≡ self.now }
        ensures digits { IsTrue (is_aba self.now) }
    {
        self.0
    }
}

/// True exactly where the check digit holds: 3(d1 + d4 + d7) + 7(d2 + d5 + d8) + d3 + d6 + d9 is a multiple of 10.
pub fn aba_check(aba: &Aba) -> bool
    ensures { result ≡ aba_holds aba.now }
{
    let [a, b, c, d, e, f, g, h, i] = aba.0;
    (weigh(a, b, c) + weigh(d, e, f) + weigh(g, h, i)) % 10 == 0
}

fn is_endpoint(bytes: &[u8]) -> bool
    ensures { result ≡ is_endpoint bytes.now }
{
    bytes.iter().all(|b| is_name_byte(*b))
}

// The endpoint that eight bytes name.
pub(crate) fn endpoint_in(bytes: &[u8]) -> Option<Endpoint>
    requires { length bytes.now ≡ 8 }
    ensures { result ≡ read_endpoint bytes.now }
{
    let mut name = [0; 8];
    name.copy_from_slice(bytes);
    Endpoint::read(&name)
}

fn is_aba(bytes: &[u8]) -> bool
    ensures { result ≡ is_aba bytes.now }
{
    are_digits(bytes)
}

// Three digits, weighed 3, 7 and 1.
fn weigh(a: u8, b: u8, c: u8) -> u32
    requires { (48 ≤ a) × (a ≤ 57) × (48 ≤ b) × (b ≤ 57) × (48 ≤ c) × (c ≤ 57) }
    ensures value { result ≡ 3 * (a - 48) + 7 * (b - 48) + (c - 48) }
    ensures small { result ≤ 99 }
{
    3 * u32::from(a - b'0') + 7 * u32::from(b - b'0') + u32::from(c - b'0')
}
