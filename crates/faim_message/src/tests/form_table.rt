// The table of forms, tried tag by tag.
use crate::{Form, decode};
use faim_base::{NoMemory, Refused};
use std::alloc::Global;
use std::test::Fail;

// A short spelling of each tag.
const TAGS: [(u16, &[u8]); 34] = [
    (1100, b"{1100}30T 2"),
    (1110, b"{1110}01020930FAIM"),
    (1120, b"{1120}20240102BANKB00100000101020930FAIM"),
    (1130, b"{1130}E001"),
    (1500, b"{1500}30USERREQ1T "),
    (1510, b"{1510}1000"),
    (1520, b"{1520}20240102BANKA001000001"),
    (2000, b"{2000}000000150000"),
    (3100, b"{3100}021000021"),
    (3320, b"{3320}*"),
    (3400, b"{3400}121042882"),
    (3500, b"{3500}*"),
    (3600, b"{3600}BTR"),
    (4000, b"{4000}D"),
    (4100, b"{4100}D"),
    (4200, b"{4200}D"),
    (4320, b"{4320}*"),
    (4400, b"{4400}D"),
    (5000, b"{5000}D"),
    (5100, b"{5100}D"),
    (5200, b"{5200}D"),
    (5400, b"{5400}121042882"),
    (6000, b"{6000}*"),
    (6100, b"{6100}*"),
    (6110, b"{6110}HLD"),
    (6200, b"{6200}*"),
    (6210, b"{6210}HLD"),
    (6300, b"{6300}*"),
    (6310, b"{6310}HLD"),
    (6400, b"{6400}*"),
    (6410, b"{6410}HLD"),
    (6420, b"{6420}CHECK"),
    (6500, b"{6500}*"),
    (9000, b"{9000}*"),
];

// A row of the table: a form, its first tag, its other mandatory tags, and the tags that it doesn't permit.
type Row = (Form, u16, &'static [u16], &'static [u16]);

const ROWS: [Row; 4] = [
    (
        Form::Input,
        1500,
        &[1510, 1520, 2000, 3100, 3400, 3600],
        &[1100, 1110, 1120, 1130],
    ),
    (
        Form::Draft,
        1500,
        &[1510, 2000, 3100, 3400, 3600],
        &[1100, 1110, 1120, 1130, 1520],
    ),
    (Form::Output, 1100, &[1110, 1120], &[1130]),
    (
        Form::Ack,
        1100,
        &[1110],
        &[
            1500, 1510, 2000, 3100, 3320, 3400, 3500, 3600, 4000, 4100, 4200, 4320, 4400, 5000,
            5100, 5200, 5400, 6000, 6100, 6110, 6200, 6210, 6300, 6310, 6400, 6410, 6420, 6500,
            9000,
        ],
    ),
];

// What reading tells: a message, no message at a byte, or the number of a tag that is missed.
#[derive(Clone, Copy, Debug, PartialEq, Eq)]
enum Outcome {
    Taken,
    AtByte,
    Missed(u16),
    Other,
}

fn told(alloc: Global, text: &[u8], form: Form) -> Outcome {
    match decode(alloc, text, form) {
        Ok(_message) => Outcome::Taken,
        Err(refused) => told_of(refused),
    }
}

fn told_of(refused: Refused) -> Outcome {
    match refused {
        Refused::Byte(_) => Outcome::AtByte,
        Refused::Missing(no) => Outcome::Missed(no.get()),
        _ => Outcome::Other,
    }
}

fn text_of(number: u16) -> &'static [u8] {
    for (no, text) in TAGS {
        if no == number {
            return text;
        }
    }
    b""
}

// The tags with these numbers but one, joined.
fn joined_but(
    alloc: Global,
    first: u16,
    others: &[u16],
    left_out: u16,
) -> Result<Vec<u8>, NoMemory> {
    let mut text = Vec::new(alloc);
    text.extend_from_slice(text_of(first))?;
    for number in others {
        if *number != left_out {
            text.extend_from_slice(text_of(*number))?;
        }
    }
    Ok(text)
}

// Each mandatory tag is missed where it alone isn't there.
fn misses_each(alloc: Global, form: Form, first: u16, others: &[u16]) -> Result<bool, NoMemory> {
    for number in others {
        let text = joined_but(alloc, first, others, *number)?;
        if told(alloc, text.as_slice(), form) != Outcome::Missed(*number) {
            return Ok(false);
        }
    }
    Ok(true)
}

// Each tag may come last exactly where it is permitted and not there yet.
fn takes_each(
    alloc: Global,
    form: Form,
    whole: &mut Vec<u8>,
    there: &[u16],
    refused: &[u16],
) -> Result<bool, NoMemory> {
    let length = whole.len();
    for (number, tag) in TAGS {
        whole.extend_from_slice(tag)?;
        let taken = !there.contains(&number) && !refused.contains(&number);
        let want = if taken {
            Outcome::Taken
        } else {
            Outcome::AtByte
        };
        if told(alloc, whole.as_slice(), form) != want {
            return Ok(false);
        }
        whole.truncate(length);
    }
    Ok(true)
}

// No other tag may come first.
fn begins_with_one(alloc: Global, form: Form, first: u16, whole: &[u8]) -> Result<bool, NoMemory> {
    for (number, tag) in TAGS {
        let mut text = Vec::new(alloc);
        text.extend_from_slice(tag)?;
        text.extend_from_slice(whole)?;
        if number != first && told(alloc, text.as_slice(), form) != Outcome::AtByte {
            return Ok(false);
        }
    }
    Ok(true)
}

fn holds(
    alloc: Global,
    form: Form,
    first: u16,
    others: &[u16],
    refused: &[u16],
) -> Result<bool, NoMemory> {
    let mut whole = joined_but(alloc, first, others, 0)?;
    let mut there = Vec::new(alloc);
    there.extend_from_slice(others)?;
    there.push(first)?;
    Ok(
        told(alloc, whole.as_slice(), form) == Outcome::Taken
            && misses_each(alloc, form, first, others)?
            && begins_with_one(alloc, form, first, whole.as_slice())?
            && takes_each(alloc, form, &mut whole, there.as_slice(), refused)?,
    )
}

#[test]
fn each_form_has_its_first_its_mandatory_and_its_permitted_tags(
    rt: HostRuntime,
) -> Result<(), Fail> {
    for (form, first, others, refused) in ROWS {
        let held = holds(rt.alloc(), form, first, others, refused)
            .ok()
            .ok_or("memory")?;
        assert!(rt; held);
    }
    Ok(())
}
