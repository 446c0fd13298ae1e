// Dates and moments (docs/FORMATS.md, "Dates and moments").
ghost use Rattle.std.specs.Prelude.{◌≡◌, ◌/◌, ◌%◌, ◌<◌, IsTrue, pos, length};
ghost use Rattle.faim_base.specs.Calendar.{read_date, date_text, date_of, civil_of, is_date};
ghost use Rattle.faim_base.specs.Ids.{stamp_of, is_stamp};

use crate::{CycleDate, Moment, Stamp, digits, padded};
use jiff_core::civil::Date;

// The day number that jiff gives 2000-01-01.
const FIRST_DAY: i32 = 10_957;

impl CycleDate {
    /// The day that the digits CCYYMMDD name. None exactly where they aren't all digits, or are no day of the years
    /// 2000 to 9999.
    pub fn read(text: &[u8; 8]) -> Option<CycleDate>
        ensures { result ≡ read_date text.now }
    {
        date_in(text)
    }

    /// Writes the day as CCYYMMDD.
    pub fn write(&self, text: &mut [u8; 8])
        ensures { text.new ≡ date_text self.now }
    {
        write_date(*self, text);
    }
}

pub(crate) fn date_in(text: &[u8]) -> Option<CycleDate>
    requires { length text.now ≡ 8 }
    ensures { result ≡ read_date text.now }
{
    let year = digits(&text[..4])?;
    let month = digits(&text[4..6])?;
    let day = digits(&text[6..8])?;
    day_of(year, month, day)
}

pub(crate) fn write_date(day: CycleDate, text: &mut [u8])
    requires { length text.old ≡ 8 }
    ensures { text.new ≡ date_text day }
{
    let date = date_at(day);
    padded(u64::from(date.year.unsigned_abs()), &mut text[..4]);
    padded(u64::from(date.month), &mut text[4..6]);
    padded(u64::from(date.day), &mut text[6..8]);
}

// The day of a year, month and day of the month, where the calendar has it.
fn day_of(year: u64, month: u64, day: u64) -> Option<CycleDate>
    requires year { year < 10_000 }
    requires month { month < 100 }
    requires day { day < 100 }
    ensures { result ≡ date_of year month day }
{
    if year < 2000 {
        return None;
    }
    match Date::new(year as i16, month as i8, day as i8) {
        Ok(date) => CycleDate::new((date.to_unix_epoch_day() - FIRST_DAY) as u32),
        Err(_) => None,
    }
}

// The date of a day.
fn date_at(day: CycleDate) -> Date
    ensures year { result.year ≡ pos (civil_of day).year }
    ensures month { result.month ≡ (civil_of day).month }
    ensures day { result.day ≡ (civil_of day).day }
    ensures in_calendar { IsTrue (is_date (civil_of day).year (civil_of day).month (civil_of day).day) }
{
    Date::from_unix_epoch_day(i64::from(day.get()) + i64::from(FIRST_DAY)).unwrap()
}

/// The day of a moment, and the minute of that day, 0 to 1,439.
pub fn civil(moment: Moment) -> (CycleDate, u16)
    ensures day { result.0 ≡ moment / 1440 }
    ensures minute { result.1 ≡ moment % 1440 }
{
    let minutes = moment.get();
    (
        CycleDate::new(minutes / 1440).unwrap(),
        (minutes % 1440) as u16,
    )
}

/// The month, day, hour and minute of a moment.
pub fn stamp(moment: Moment) -> Stamp
    ensures value { result ≡ stamp_of moment }
    ensures range { IsTrue (is_stamp result) }
{
    let (day, minute) = civil(moment);
    let date = date_at(day);
    Stamp {
        month: date.month,
        day: date.day,
        hour: (minute / 60) as u8,
        minute: (minute % 60) as u8,
    }
}
