// The payloads of a test host of two banks, on 2024-01-02 at 09:30.
ghost use Rattle.std.specs.Prelude.{IsTrue};
ghost use Rattle.faim_base.specs.Text.{is_text_byte};

use super::payments::{morning, roll};
use super::{bank, begun, refused, taken};
use crate::{ack_payload, output_payload, submit, turned_payload};
use faim_base::{CycleDate, Imad, Reject, Seq, Verdict};
use faim_model::HostOutcome;
use host_core::HostState;
use host_ledger::Entry;
use std::alloc::Global;
use std::test::Fail;

// A payment of 1,500.00; another of more than its sender has.
const PAYMENT: &[u8] =
    b"{1500}30USERREQ1T {1510}1000{1520}20240102BANKA001000001{2000}000000150000{3100}021000021ALPHA BANK*{3400}121042882BETA BANK*{3600}BTR";

const TOO_MUCH: &[u8] =
    b"{1500}30USERREQ1T {1510}1000{1520}20240102BANKA001000002{2000}000001150000{3100}021000021ALPHA BANK*{3400}121042882BETA BANK*{3600}BTR";

// What the host sends of them.
const TAKEN: &[u8] =
    b"{1100}30T 2{1110}01020930FAIM{1120}20240102BANKB00100000101020930FAIM{1520}20240102BANKA001000001";

const REFUSED: &[u8] =
    b"{1100}30TP3{1110}01020930FAIM{1130}F401BALANCE BELOW FLOOR*{1520}20240102BANKA001000002";

const DELIVERED: &[u8] =
    b"{1100}30T N{1110}01020930FAIM{1120}20240102BANKB00100000101020930FAIM{1500}30USERREQ1T {1510}1000{1520}20240102BANKA001000001{2000}000000150000{3100}021000021ALPHA BANK*{3400}121042882BETA BANK*{3600}BTR";

const NO_MESSAGE: &[u8] = b"{1100}30T 3{1110}01020930FAIM{1130}E001TEXT IS NOT A MESSAGE*";

const CYCLE_END: &[u8] =
    b"{1100}30T E{1110}01020930FAIM{1120}20240102BANKB00100000201020930FAIM{9000}NEXT 20240103*";

const OTHER_TEXT: &[u8] =
    b"{1100}30T 3{1110}01020930FAIM{1130}X201IMAD IS KNOWN WITH OTHER TEXT*{1520}20240102BANKA001000001";

// Submits a text on the first bank's line, which is recorded with a verdict.
fn record(
    alloc: Global,
    state: &mut HostState,
    text: &[u8],
    number: u32,
    verdict: Verdict,
) -> Result<(), Fail> {
    let line = bank(b"BANKA001")?;
    let imad = Imad {
        date: CycleDate::new(8_767).ok_or("a date")?,
        source: line,
        seq: Seq::new(number).ok_or("a number")?,
    };
    let outcome = submit(alloc, state, line, morning()?, text)?;
    if outcome == (HostOutcome::Recorded { imad, verdict }) {
        Ok(())
    } else {
        Err(Fail::from("another outcome"))
    }
}

// The payment, which is taken, and the one of more than its sender has.
fn record_both(alloc: Global, state: &mut HostState) -> Result<(), Fail> {
    record(alloc, state, PAYMENT, 1, taken(1)?)?;
    record(alloc, state, TOO_MUCH, 2, refused(b'F', 401))
}

#[test]
fn entries_are_acknowledged_and_delivered(rt: HostRuntime) -> Result<(), Fail> {
    let mut state = begun(rt.alloc(), b'T')?;
    record_both(rt.alloc(), &mut state)?;
    are_told(rt.alloc(), &state)
}

fn are_told(alloc: Global, state: &HostState) -> Result<(), Fail> {
    is_acknowledged(alloc, state, 0, b' ', TAKEN)?;
    is_acknowledged(alloc, state, 1, b'P', REFUSED)?;
    is_delivered(alloc, state, 0, DELIVERED)?;
    gives_one_output(state)
}

// The acknowledgement of the message at a place, with a mark, is this one.
fn is_acknowledged(
    alloc: Global,
    state: &HostState,
    place: usize,
    mark: u8,
    want: &[u8],
) -> Result<(), Fail>
    requires { IsTrue (is_text_byte mark) }
{
    let mut out = Vec::new(alloc);
    match state.entry(place) {
        Some(Entry::Posted { .. }) => ack_payload(state, place, mark, &mut out)?,
        Some(Entry::Roll { .. }) => return Err(Fail::from("a message")),
        None => return Err(Fail::from("an entry")),
    }
    is_payload(out.as_slice(), want)
}

// The output that the entry at a place gives the second bank is this one.
fn is_delivered(alloc: Global, state: &HostState, place: usize, want: &[u8]) -> Result<(), Fail> {
    let dest = bank(b"BANKB001")?;
    let mut out = Vec::new(alloc);
    match state.position(dest, place) {
        Some(_) => output_payload(state, dest, place, b' ', &mut out)?,
        None => return Err(Fail::from("an output")),
    }
    is_payload(out.as_slice(), want)
}

fn is_payload(found: &[u8], want: &[u8]) -> Result<(), Fail> {
    if found != want {
        return Err(Fail::from("another payload"));
    }
    Ok(())
}

// Only the first entry gives an output, and only to the second bank.
fn gives_one_output(state: &HostState) -> Result<(), Fail> {
    for (name, place, is_given) in [
        (b"BANKB001", 0, true),
        (b"BANKA001", 0, false),
        (b"BANKB001", 1, false),
        (b"BANKB001", 2, false),
    ] {
        if state.position(bank(name)?, place).is_some() != is_given {
            return Err(Fail::from("another position"));
        }
    }
    Ok(())
}

#[test]
fn the_end_of_a_cycle_is_delivered(rt: HostRuntime) -> Result<(), Fail> {
    let mut state = begun(rt.alloc(), b'T')?;
    end_a_cycle(rt.alloc(), &mut state)?;
    is_delivered(rt.alloc(), &state, 1, CYCLE_END)
}

fn end_a_cycle(alloc: Global, state: &mut HostState) -> Result<(), Fail> {
    record(alloc, state, PAYMENT, 1, taken(1)?)?;
    roll(state, CycleDate::new(8_768).ok_or("a date")?)
}

#[test]
fn a_submission_is_turned_away(rt: HostRuntime) -> Result<(), Fail> {
    strange_text_is_turned_away(rt.alloc())?;
    other_text_is_turned_away(rt.alloc())
}

fn strange_text_is_turned_away(alloc: Global) -> Result<(), Fail> {
    let strange = Reject {
        category: b'E',
        code: 1,
    };
    let mut out = Vec::new(alloc);
    turned_payload(b'T', strange, None, morning()?, &mut out)?;
    is_payload(out.as_slice(), NO_MESSAGE)
}

fn other_text_is_turned_away(alloc: Global) -> Result<(), Fail> {
    let known = Reject {
        category: b'X',
        code: 201,
    };
    let imad = Imad::read(b"20240102BANKA001000001")?;
    let mut out = Vec::new(alloc);
    turned_payload(b'T', known, Some(imad), morning()?, &mut out)?;
    is_payload(out.as_slice(), OTHER_TEXT)
}
