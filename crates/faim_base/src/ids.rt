// Message identifiers, positions of outputs, and stamps (docs/FORMATS.md, "Identifiers").
ghost use Rattle.std.specs.Prelude.{◌≡◌, IsTrue, length, bytes_eq};
ghost use Rattle.faim_base.specs.Ranges.{IsEndpoint};
ghost use Rattle.faim_base.specs.Ids.{read_imad, imad_text, read_position, position_text, is_up_to, read_omad, omad_text, read_stamp, stamp_text, is_stamp, application};
ghost use Rattle.faim_base.specs.Calendar.{days_in_month};

use crate::calendar::{date_in, write_date};
use crate::names::endpoint_in;
use crate::numbers::seq_in;
use crate::{CycleDate, Endpoint, Seq, digits, padded};

/// What the sender numbers a message by: its cycle date, the endpoint that sent it, and its number under that date.
#[derive(Clone, Copy, Debug, PartialEq, Eq)]
pub struct Imad {
    pub date: CycleDate,
    pub source: Endpoint,
    pub seq: Seq,
}

/// What the service numbers a delivery by, with the stamp of the moment at which it was made.
#[derive(Clone, Copy, Debug, PartialEq, Eq)]
pub struct Omad {
    pub date: CycleDate,
    pub dest: Endpoint,
    pub seq: Seq,
    pub stamp: Stamp,
}

/// The position of an output among those of its endpoint. Positions are ordered by date, then number.
#[derive(Clone, Copy, Debug, PartialEq, Eq, PartialOrd, Ord)]
pub struct OutPos {
    pub date: CycleDate,
    pub seq: Seq,
}

/// A moment without its year: month 1 to 12, a day of that month, with 29 for February, hour 0 to 23, minute 0 to 59.
#[derive(Clone, Copy, Debug, PartialEq, Eq)]
pub struct Stamp {
    pub month: u8,
    pub day: u8,
    pub hour: u8,
    pub minute: u8,
}

/// The first part of an identifier's text that isn't a value of its type. `BadSource` names the endpoint of either kind.
#[derive(Clone, Copy, Debug, PartialEq, Eq)]
pub enum IdFault {
    BadDate,
    BadSource,
    BadSeq,
    BadStamp,
    BadApplication,
}

impl Imad {
    /// The IMAD of 22 bytes: the first of `BadDate`, `BadSource` and `BadSeq` that holds, each exactly where that part
    /// isn't a value of its type, and never another fault.
    pub fn read(text: &[u8; 22]) -> Result<Imad, IdFault>
        ensures { result ≡ read_imad text.now }
    {
        let date = date_in(&text[..8]).ok_or(IdFault::BadDate)?;
        let source = endpoint_in(&text[8..16]).ok_or(IdFault::BadSource)?;
        let seq = seq_in(&text[16..22]).ok_or(IdFault::BadSeq)?;
        Ok(Imad { date, source, seq })
    }

    /// Writes the 22 bytes.
    pub fn write(&self, text: &mut [u8; 22])
        ensures text { text.new ≡ imad_text self.now }
        ensures source { IsEndpoint self.now.source }
    {
        write_date(self.date, &mut text[..8]);
        text[8..16].copy_from_slice(&self.source.bytes());
        padded(u64::from(self.seq.get()), &mut text[16..22]);
    }
}

impl OutPos {
    /// The position of 14 bytes. None exactly where the date or the number isn't a value of its type.
    pub fn read(text: &[u8; 14]) -> Option<OutPos>
        ensures { result ≡ read_position text.now }
    {
        let date = date_in(&text[..8])?;
        let seq = seq_in(&text[8..14])?;
        Some(OutPos { date, seq })
    }

    /// Whether this position is the other or one before it: positions are ordered by date, then number.
    pub fn is_up_to(&self, other: &OutPos) -> bool
        ensures { result ≡ is_up_to self.now other.now }
    {
        self <= other
    }

    /// Writes the 14 bytes.
    pub fn write(&self, text: &mut [u8; 14])
        ensures { text.new ≡ position_text self.now }
    {
        write_date(self.date, &mut text[..8]);
        padded(u64::from(self.seq.get()), &mut text[8..14]);
    }
}

impl Omad {
    /// The OMAD of 34 bytes: the first of `BadDate`, `BadSource` (the destination), `BadSeq`, `BadStamp` and
    /// `BadApplication` that holds, each exactly where that part isn't a value of its type or isn't `FAIM`.
    pub fn read(text: &[u8; 34]) -> Result<Omad, IdFault>
        ensures { result ≡ read_omad text.now }
    {
        let date = date_in(&text[..8]).ok_or(IdFault::BadDate)?;
        let dest = endpoint_in(&text[8..16]).ok_or(IdFault::BadSource)?;
        let seq = seq_in(&text[16..22]).ok_or(IdFault::BadSeq)?;
        let stamp = stamp_in(&text[22..30]).ok_or(IdFault::BadStamp)?;
        if !is_application(&text[30..34]) {
            return Err(IdFault::BadApplication);
        }
        Ok(Omad {
            date,
            dest,
            seq,
            stamp,
        })
    }

    /// Writes the 34 bytes.
    pub fn write(&self, text: &mut [u8; 34])
        requires { IsTrue (is_stamp self.now.stamp) }
        ensures { text.new ≡ omad_text self.now }
    {
        write_date(self.date, &mut text[..8]);
        text[8..16].copy_from_slice(&self.dest.bytes());
        padded(u64::from(self.seq.get()), &mut text[16..22]);
        write_stamp(&self.stamp, &mut text[22..30]);
        text[30..34].copy_from_slice(b"FAIM");
    }
}

fn is_application(text: &[u8]) -> bool
    ensures { result ≡ bytes_eq text.now application }
{
    text == b"FAIM".as_slice()
}

fn stamp_in(text: &[u8]) -> Option<Stamp>
    requires { length text.now ≡ 8 }
    ensures { result ≡ read_stamp text.now }
{
    let stamp = Stamp {
        month: digits(&text[..2])? as u8,
        day: digits(&text[2..4])? as u8,
        hour: digits(&text[4..6])? as u8,
        minute: digits(&text[6..8])? as u8,
    };
    if is_stamp(&stamp) { Some(stamp) } else { None }
}

fn is_stamp(stamp: &Stamp) -> bool
    ensures { result ≡ is_stamp stamp.now }
{
    1 <= stamp.month
        && stamp.month <= 12
        && 1 <= stamp.day
        && stamp.day <= longest(stamp.month)
        && stamp.hour <= 23
        && stamp.minute <= 59
}

// The days of a month, 29 for February.
fn longest(month: u8) -> u8
    ensures { result ≡ days_in_month 2000 month }
{
    match month {
        2 => 29,
        4 | 6 | 9 | 11 => 30,
        _ => 31,
    }
}

fn write_stamp(stamp: &Stamp, text: &mut [u8])
    requires length { length text.old ≡ 8 }
    requires range { IsTrue (is_stamp stamp.now) }
    ensures { text.new ≡ stamp_text stamp.now }
{
    padded(u64::from(stamp.month), &mut text[..2]);
    padded(u64::from(stamp.day), &mut text[2..4]);
    padded(u64::from(stamp.hour), &mut text[4..6]);
    padded(u64::from(stamp.minute), &mut text[6..8]);
}
