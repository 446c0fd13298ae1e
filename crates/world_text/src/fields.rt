// The values of words (docs/FORMATS.md, "Scripts").
ghost use Rattle.std.specs.Prelude.{◌≡◌, ◌<◌, ◌≤◌, IfSome};
ghost use Rattle.world_text.specs.Fields.{env_word, date_word, time_of, time_word, cutoff_word, endpoint_word, aba_word, is_plain_number, magnitude_word, cents_word, seq_word};

use faim_base::{Aba, CycleDate, Endpoint, Seq, aba_check, are_digits, array_of, digits, is_digit};

// `T` for test, `P` for production.
pub(crate) fn env_in(word: &[u8]) -> Option<u8>
    ensures { result ≡ env_word word.now }
{
    match word {
        b"T" => Some(b'T'),
        b"P" => Some(b'P'),
        _ => None,
    }
}

pub(crate) fn date_in(word: &[u8]) -> Option<CycleDate>
    ensures { result ≡ date_word word.now }
{
    CycleDate::read(&array_of(word)?)
}

// A time of the day as minutes of it.
pub(crate) fn time_in(word: &[u8]) -> Option<u16>
    ensures value { result ≡ time_word word.now }
    ensures small { IfSome result (λ m. m < 1_440) }
{
    if word.len() != 4 {
        return None;
    }
    time_of(digits(word)?)
}

fn time_of(number: u64) -> Option<u16>
    ensures value { result ≡ time_of number }
    ensures small { IfSome result (λ m. m < 1_440) }
{
    if number <= 2_359 && number % 100 <= 59 {
        Some((60 * (number / 100) + number % 100) as u16)
    } else {
        None
    }
}

// A cutoff in minutes of the day, of which 2400 is the end.
pub(crate) fn cutoff_in(word: &[u8]) -> Option<u16>
    ensures { result ≡ cutoff_word word.now }
{
    match word {
        b"2400" => Some(1_440),
        _ => time_in(word),
    }
}

pub(crate) fn endpoint_in(word: &[u8]) -> Option<Endpoint>
    ensures { result ≡ endpoint_word word.now }
{
    Endpoint::read(&array_of(word)?)
}

// A bank's number whose check digit holds.
pub(crate) fn aba_in(word: &[u8]) -> Option<Aba>
    ensures { result ≡ aba_word word.now }
{
    let aba = Aba::read(&array_of(word)?)?;
    if aba_check(&aba) { Some(aba) } else { None }
}

pub(crate) fn seq_in(word: &[u8]) -> Option<Seq>
    ensures { result ≡ seq_word word.now }
{
    if word.len() != 6 {
        return None;
    }
    Seq::new(digits(word)? as u32)
}

// An amount in cents.
pub(crate) fn cents_in(word: &[u8]) -> Option<i64>
    ensures { result ≡ cents_word word.now }
{
    match word {
        [b'-', rest @ ..] => match magnitude_in(rest)? {
            0 => None,
            n => Some(-(n as i64)),
        },
        _ => Some(magnitude_in(word)? as i64),
    }
}

// A number of at most twelve digits.
fn magnitude_in(word: &[u8]) -> Option<u64>
    ensures value { result ≡ magnitude_word word.now }
    ensures small { IfSome result (λ n. n ≤ 999_999_999_999) }
{
    if is_plain_number(word) {
        digits(word)
    } else {
        None
    }
}

fn is_plain_number(word: &[u8]) -> bool
    ensures { result ≡ is_plain_number word.now }
{
    match word {
        [] => false,
        [digit] => is_digit(*digit),
        [first, _, rest @ ..] => *first != b'0' && are_digits(word) && rest.len() <= 10,
    }
}
