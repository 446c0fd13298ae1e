// Two banks' days: what no clause says of books, and each call once.
use crate::*;
use Step::{Ack, Draft, Out};
use faim_base::{Bytes, CycleDate, Endpoint, Imad, OutPos, Reject, Seq, Verdict};
use std::alloc::Global;
use std::test::Fail;

// 2024-01-02 and the day after.
const DAY: u32 = 8767;

const NEXT_DAY: u32 = 8768;

const REFUSED: Verdict = Verdict::Refused(Reject {
    category: b'F',
    code: 401,
});

// What comes to a bank: a text to draft, with the number that it gets; an acknowledgement; an output with its next date. The
// last two have the case that they are.
#[derive(Clone, Copy)]
enum Step {
    Draft(&'static [u8], (u32, u32)),
    Ack((u32, u32), AckCase),
    Out(&'static [u8], (u32, u32), Option<u32>, OutCase),
}

#[test]
fn a_draft_is_told_until_it_is_answered(rt: HostRuntime) -> Result<(), Fail> {
    let mut books = opened(rt.alloc(), b"BANKA001")?;
    drafts_are_told(rt.alloc(), &mut books)
}

fn drafts_are_told(alloc: Global, books: &mut Books) -> Result<(), Fail> {
    let steps = [
        Draft(b"FIRST", (DAY, 1)),
        Draft(b"SECOND", (DAY, 2)),
        Draft(b"THIRD", (DAY, 3)),
    ];
    go(alloc, books, &steps)?;
    tells(books, 64, &[0, 1, 2])?;
    tells(books, 2, &[0, 1])?;
    answers_are_told(alloc, books)
}

fn answers_are_told(alloc: Global, books: &mut Books) -> Result<(), Fail> {
    let steps = [
        Ack((DAY, 2), AckCase::Fresh),
        Ack((DAY, 2), AckCase::Repeated),
        Ack((DAY, 4), AckCase::Strange),
        Ack((NEXT_DAY, 2), AckCase::Strange),
    ];
    go(alloc, books, &steps)?;
    tells(books, 64, &[0, 2])?;
    tells(books, 1, &[0])?;
    tells(books, 0, &[])?;
    stands(books, &[b"FIRST", b"SECOND", b"THIRD"], &[], 2)
}

#[test]
fn outputs_come_in_their_order(rt: HostRuntime) -> Result<(), Fail> {
    let mut books = opened(rt.alloc(), b"BANKB001")?;
    outputs_are_in_order(rt.alloc(), &mut books)
}

fn outputs_are_in_order(alloc: Global, books: &mut Books) -> Result<(), Fail> {
    let steps = [
        Out(b"ONE", (DAY, 1), None, OutCase::Next),
        Out(b"THREE", (DAY, 3), None, OutCase::Gap),
        Out(b"TWO", (DAY, 2), None, OutCase::Next),
        Out(b"ONE", (DAY, 1), None, OutCase::Repeated),
        Out(b"THREE", (DAY, 3), None, OutCase::Next),
    ];
    go(alloc, books, &steps)?;
    wants(books, (DAY, 4))?;
    stands(books, &[], &[b"ONE", b"TWO", b"THREE"], 0)
}

#[test]
fn a_cycle_ends_and_numbers_begin_again(rt: HostRuntime) -> Result<(), Fail> {
    let mut books = opened(rt.alloc(), b"BANKB001")?;
    cycles_go_on(rt.alloc(), &mut books)
}

fn cycles_go_on(alloc: Global, books: &mut Books) -> Result<(), Fail> {
    let steps = [
        Draft(b"DRAFT", (DAY, 1)),
        Out(b"NEW", (NEXT_DAY, 1), None, OutCase::Gap),
        Out(b"ONE", (DAY, 1), None, OutCase::Next),
        Out(b"END", (DAY, 2), Some(NEXT_DAY), OutCase::Next),
        Draft(b"AGAIN", (NEXT_DAY, 1)),
        Out(b"END", (DAY, 2), Some(NEXT_DAY), OutCase::Repeated),
        Out(b"NEW", (NEXT_DAY, 1), None, OutCase::Next),
        Ack((DAY, 1), AckCase::Fresh),
    ];
    go(alloc, books, &steps)?;
    wants(books, (NEXT_DAY, 2))?;
    tells(books, 64, &[1])?;
    stands(books, &[b"DRAFT", b"AGAIN"], &[b"ONE", b"END", b"NEW"], 1)
}

#[test]
fn an_entry_that_may_not_come_is_told(rt: HostRuntime) -> Result<(), Fail> {
    let mut books = opened(rt.alloc(), b"BANKA001")?;
    others_may_not_come(rt.alloc(), &mut books)
}

fn others_may_not_come(alloc: Global, books: &mut Books) -> Result<(), Fail> {
    go(alloc, books, &[Draft(b"FIRST", (DAY, 1))])?;
    for (number, draft, verdict) in [(1, false, true), (2, true, false), (3, false, false)] {
        may_be_drafted(alloc, books, (DAY, number), draft)?;
        may_be_answered(books, (DAY, number), verdict)?;
    }
    for (number, next, want) in [
        (1, None, true),
        (2, None, false),
        (1, Some(DAY), false),
        (1, Some(NEXT_DAY), true),
    ] {
        may_be_received(alloc, books, (DAY, number), next, want)?;
    }
    Ok(())
}

fn may_be_drafted(
    alloc: Global,
    books: &Books,
    number: (u32, u32),
    want: bool,
) -> Result<(), Fail> {
    let imad = imad(books, number)?;
    let text = bytes(alloc, b"TEXT")?;
    follows(books, &BankEntry::Drafted { imad, text }, want)
}

fn may_be_answered(books: &Books, number: (u32, u32), want: bool) -> Result<(), Fail> {
    let imad = imad(books, number)?;
    let verdict = REFUSED;
    follows(books, &BankEntry::Answered { imad, verdict }, want)
}

fn may_be_received(
    alloc: Global,
    books: &Books,
    at: (u32, u32),
    next: Option<u32>,
    want: bool,
) -> Result<(), Fail> {
    let at = position(at)?;
    let text = bytes(alloc, b"TEXT")?;
    let next = date_in(next)?;
    follows(books, &BankEntry::Received { at, text, next }, want)
}

#[test]
fn an_opening_of_another_env_is_not_sound(_rt: HostRuntime) -> Result<(), Fail> {
    for (env, want) in [(b'T', true), (b'P', true), (b'A', false), (b't', false)] {
        if opening(b"BANKA001", env)?.is_sound() != want {
            return Err(Fail::from("another answer"));
        }
    }
    Ok(())
}

// Does each step.
fn go(alloc: Global, books: &mut Books, steps: &[Step]) -> Result<(), Fail> {
    for step in steps {
        does(alloc, books, step)?;
    }
    Ok(())
}

fn does(alloc: Global, books: &mut Books, step: &Step) -> Result<(), Fail> {
    match step {
        Draft(text, number) => drafts(alloc, books, text, *number),
        Ack(number, want) => answers(books, *number, *want),
        Out(text, at, next, want) => receives(alloc, books, text, *at, *next, *want),
    }
}

// The opening of a bank on that day.
fn opening(name: &[u8; 8], env: u8) -> Result<BankOpening, Fail> {
    Ok(BankOpening {
        endpoint: Endpoint::read(name).ok_or("no endpoint")?,
        env,
        date: day(DAY)?,
    })
}

// The books of such a bank, which keep its opening.
fn opened(alloc: Global, name: &[u8; 8]) -> Result<Books, Fail> {
    let opening = opening(name, b'T')?;
    if !opening.is_sound() {
        return Err(Fail::from("no opening"));
    }
    let books = Books::new(alloc, opening);
    if *books.opening() != opening {
        return Err(Fail::from("another opening"));
    }
    Ok(books)
}

// A text is drafted and gets a number.
fn drafts(alloc: Global, books: &mut Books, text: &[u8], number: (u32, u32)) -> Result<(), Fail> {
    match books.next_imad() {
        Ok(next) => {
            is_imad(&next, &imad(books, number)?)?;
            let text = bytes(alloc, text)?;
            books.push(BankEntry::Drafted { imad: next, text })?;
            Ok(())
        }
        Err(_) => Err(Fail::from("no number is left")),
    }
}

fn is_imad(found: &Imad, want: &Imad) -> Result<(), Fail> {
    if found != want {
        return Err(Fail::from("another IMAD"));
    }
    Ok(())
}

// An acknowledgement of an IMAD is such a one, and is taken where it is fresh.
fn answers(books: &mut Books, number: (u32, u32), want: AckCase) -> Result<(), Fail> {
    let imad = imad(books, number)?;
    is_acknowledgement_case(books, &imad, want)?;
    let verdict = REFUSED;
    take(books, BankEntry::Answered { imad, verdict })
}

fn is_acknowledgement_case(books: &Books, imad: &Imad, want: AckCase) -> Result<(), Fail> {
    if books.ack_case(*imad) != want {
        return Err(Fail::from("another case"));
    }
    Ok(())
}

// An output is such a one, and is taken where it is the next.
fn receives(
    alloc: Global,
    books: &mut Books,
    text: &[u8],
    at: (u32, u32),
    next: Option<u32>,
    want: OutCase,
) -> Result<(), Fail> {
    let at = position(at)?;
    is_output_case(books, &at, want)?;
    let text = bytes(alloc, text)?;
    let next = date_in(next)?;
    take(books, BankEntry::Received { at, text, next })
}

fn is_output_case(books: &Books, at: &OutPos, want: OutCase) -> Result<(), Fail> {
    if books.out_case(*at) != want {
        return Err(Fail::from("another case"));
    }
    Ok(())
}

// Appends an entry where it may come.
fn take(books: &mut Books, entry: BankEntry) -> Result<(), Fail> {
    if books.may_follow(&entry) {
        books.push(entry)?;
    }
    Ok(())
}

fn follows(books: &Books, entry: &BankEntry, want: bool) -> Result<(), Fail> {
    if books.may_follow(entry) != want {
        return Err(Fail::from("another answer"));
    }
    Ok(())
}

fn tells(books: &Books, limit: usize, want: &[usize]) -> Result<(), Fail> {
    let places = books.unanswered(limit)?;
    if places.as_slice() != want {
        return Err(Fail::from("other drafts"));
    }
    Ok(())
}

fn wants(books: &Books, want: (u32, u32)) -> Result<(), Fail> {
    if books.wanted() != position(want)? {
        return Err(Fail::from("another position"));
    }
    Ok(())
}

// These are the drafts and outputs, with no others after them, and so many drafts have no verdict.
fn stands(books: &Books, drafts: &[&[u8]], inbox: &[&[u8]], open: usize) -> Result<(), Fail> {
    if books.drafts() != drafts.len()
        || books.inbox() != inbox.len()
        || books.open_count() != open
    {
        return Err(Fail::from("another count"));
    }
    for (place, text) in drafts.iter().enumerate() {
        is_text(books.draft(place), text)?;
    }
    for (place, text) in inbox.iter().enumerate() {
        is_text(books.received(place), text)?;
    }
    has_no_more(books)
}

fn has_no_more(books: &Books) -> Result<(), Fail> {
    if books.draft(books.drafts()).is_some() || books.received(books.inbox()).is_some() {
        return Err(Fail::from("one text too many"));
    }
    Ok(())
}

fn is_text(found: Option<&[u8]>, want: &[u8]) -> Result<(), Fail> {
    if found != Some(want) {
        return Err(Fail::from("another text"));
    }
    Ok(())
}

fn imad(books: &Books, number: (u32, u32)) -> Result<Imad, Fail> {
    Ok(Imad {
        date: day(number.0)?,
        source: books.opening().endpoint,
        seq: Seq::new(number.1).ok_or("no number")?,
    })
}

fn position(at: (u32, u32)) -> Result<OutPos, Fail> {
    Ok(OutPos {
        date: day(at.0)?,
        seq: Seq::new(at.1).ok_or("no number")?,
    })
}

fn day(days: u32) -> Result<CycleDate, Fail> {
    Ok(CycleDate::new(days).ok_or("no date")?)
}

fn date_in(days: Option<u32>) -> Result<Option<CycleDate>, Fail> {
    match days {
        Some(days) => Ok(Some(day(days)?)),
        None => Ok(None),
    }
}

fn bytes(alloc: Global, text: &[u8]) -> Result<Bytes, Fail> {
    let mut bytes = Bytes::new(alloc);
    bytes.extend(text)?;
    Ok(bytes)
}
