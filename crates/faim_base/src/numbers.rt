// Numbers with their ranges.
ghost use Rattle.std.specs.Prelude.{◌≡◌, Some, None, if◌then◌else◌, length};
ghost use Rattle.faim_base.specs.Numbers.{is_seq, IsSeq, is_amount, IsAmount, is_day, IsDay, is_moment, IsMoment};
ghost use Rattle.faim_base.specs.Digits.{read_seq};

use crate::digits;
use std::marker::Model;

/// The number of a message under its cycle date, 1 to 999,999.
#[derive(Clone, Copy, Debug, PartialEq, Eq, PartialOrd, Ord)]
pub struct Seq(u32);

impl Model for Seq {
    ghost use Rattle.std.specs.Prelude.{ℕ};
    ghost use Rattle.faim_base.specs.Numbers.{IsSeq};

    ghost Value = { ℕ };

    ghost view = { λ n. n.0 };

    ghost invariant = { λ n. IsSeq n.0 };

    ghost inverse = { λ n. record { 0 = n } };
}

impl Seq {
    /// None exactly where n is 0 or over 999,999.
    pub fn new(n: u32) -> Option<Seq>
        ensures { result ≡ (if is_seq n then Some n else None) }
    {
        if 1 <= n && n <= 999_999 {
            Some(Seq(n))
        } else {
            None
        }
    }

    /// The number.
    pub fn get(self) -> u32
        ensures value { result ≡ self }
        ensures range { IsSeq result }
    {
        self.0
    }
}

/// An amount in cents, 0 to 999,999,999,999.
#[derive(Clone, Copy, Debug, PartialEq, Eq, PartialOrd, Ord)]
pub struct Cents(u64);

impl Model for Cents {
    ghost use Rattle.std.specs.Prelude.{ℕ};
    ghost use Rattle.faim_base.specs.Numbers.{IsAmount};

    ghost Value = { ℕ };

    ghost view = { λ n. n.0 };

    ghost invariant = { λ n. IsAmount n.0 };

    ghost inverse = { λ n. record { 0 = n } };
}

impl Cents {
    /// None exactly where n is over 999,999,999,999.
    pub fn new(n: u64) -> Option<Cents>
        ensures { result ≡ (if is_amount n then Some n else None) }
    {
        if n <= 999_999_999_999 {
            Some(Cents(n))
        } else {
            None
        }
    }

    /// The number of cents.
    pub fn get(self) -> u64
        ensures value { result ≡ self }
        ensures range { IsAmount result }
    {
        self.0
    }
}

/// A cycle date: the days since 2000-01-01, 0 to 2,921,939, which is 9999-12-31.
#[derive(Clone, Copy, Debug, PartialEq, Eq, PartialOrd, Ord)]
pub struct CycleDate(u32);

impl Model for CycleDate {
    ghost use Rattle.std.specs.Prelude.{ℕ};
    ghost use Rattle.faim_base.specs.Numbers.{IsDay};

    ghost Value = { ℕ };

    ghost view = { λ n. n.0 };

    ghost invariant = { λ n. IsDay n.0 };

    ghost inverse = { λ n. record { 0 = n } };
}

impl CycleDate {
    /// None exactly where n is over 2,921,939.
    pub fn new(n: u32) -> Option<CycleDate>
        ensures { result ≡ (if is_day n then Some n else None) }
    {
        if n <= 2_921_939 {
            Some(CycleDate(n))
        } else {
            None
        }
    }

    /// The number of days.
    pub fn get(self) -> u32
        ensures value { result ≡ self }
        ensures range { IsDay result }
    {
        self.0
    }
}

/// A moment: the minutes since 2000-01-01 00:00, 0 to 4,207,593,599.
#[derive(Clone, Copy, Debug, PartialEq, Eq, PartialOrd, Ord)]
pub struct Moment(u32);

impl Model for Moment {
    ghost use Rattle.std.specs.Prelude.{ℕ};
    ghost use Rattle.faim_base.specs.Numbers.{IsMoment};

    ghost Value = { ℕ };

    ghost view = { λ n. n.0 };

    ghost invariant = { λ n. IsMoment n.0 };

    ghost inverse = { λ n. record { 0 = n } };
}

impl Moment {
    /// None exactly where n is over 4,207,593,599.
    pub fn new(n: u32) -> Option<Moment>
        ensures { result ≡ (if is_moment n then Some n else None) }
    {
        if n <= 4_207_593_599 {
            Some(Moment(n))
        } else {
            None
        }
    }

    /// The number of minutes.
    pub fn get(self) -> u32
        ensures value { result ≡ self }
        ensures range { IsMoment result }
    {
        self.0
    }
}

// The number that six digits spell, where it isn't 0.
pub(crate) fn seq_in(text: &[u8]) -> Option<Seq>
    requires { length text.now ≡ 6 }
    ensures { result ≡ read_seq text.now }
{
    Seq::new(digits(text)? as u32)
}
