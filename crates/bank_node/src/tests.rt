// What no clause says of a bank on its site: the bytes of what it sends and keeps, and how it goes on after a call that failed.
ghost use Rattle.std.specs.Prelude.{◌≡◌, true, IfOk};
ghost use Rattle.bank_books.specs.Openings.{IsBankOpening};

mod cycles;
mod damaged;
mod drafts;
mod failing;
mod strange;

use crate::{BankFault, BankNode};
use bank_books::{BankOpening, BankOutcome};
use faim_base::{CycleDate, Endpoint, OutPos, Places, Refused, Seq};
use link_frames::{Frame, FrameKind};
use site_core::{MemSite, Site, StopSite};
use std::alloc::Global;
use std::test::Fail;

// A draft of 1,500.00, the text under which it is submitted, and that with its mark.
const DRAFT: &[u8] =
    b"{1500}30USERREQ1T {1510}1000{2000}000000150000{3100}021000021ALPHA BANK*{3400}121042882BETA BANK*{3600}BTR";

const NUMBERED: &[u8] =
    b"{1500}30USERREQ1T {1510}1000{1520}20240102BANKA001000001{2000}000000150000{3100}021000021ALPHA BANK*{3400}121042882BETA BANK*{3600}BTR";

const SUBMITTED: &[u8] =
    b"\0\0\0\x8f\x01BANKA001{1500}30USERREQ1T {1510}1000{1520}20240102BANKA001000001{2000}000000150000{3100}021000021ALPHA BANK*{3400}121042882BETA BANK*{3600}BTR";

const SUBMITTED_AGAIN: &[u8] =
    b"\0\0\0\x8f\x01BANKA001{1500}30USERREQ1TP{1510}1000{1520}20240102BANKA001000001{2000}000000150000{3100}021000021ALPHA BANK*{3400}121042882BETA BANK*{3600}BTR";

const ASKED_FROM_ONE: &[u8] = b"\0\0\0\x17\x02BANKA00120240102000001";

// The host's answer to it.
const TAKEN: &[u8] =
    b"{1100}30T 2{1110}01020930FAIM{1120}20240102BANKB00100000101020930FAIM{1520}20240102BANKA001000001";

// The bytes of the image before the entry of the draft, and those of its record.
const OPENING: usize = 35;

const RECORD: &[u8] =
    b"\xa5\0\0\0\x91D\0\0\x22\x3f\0\0\0\x01\0\x86{1500}30USERREQ1T {1510}1000{1520}20240102BANKA001000001{2000}000000150000{3100}021000021ALPHA BANK*{3400}121042882BETA BANK*{3600}BTR";

fn bank(name: &[u8; 8]) -> Result<Endpoint, Fail> {
    Ok(Endpoint::read(name).ok_or("an endpoint")?)
}

fn number(seq: u32) -> Result<Seq, Fail> {
    Ok(Seq::new(seq).ok_or("a number")?)
}

// A day: 8,767 is 2024-01-02.
fn day(day: u32) -> Result<CycleDate, Fail> {
    Ok(CycleDate::new(day).ok_or("a date")?)
}

// A test bank on 2024-01-02.
fn opening(name: &[u8; 8]) -> Result<BankOpening, Fail>
    ensures { IfOk result IsBankOpening }
{
    let opening = BankOpening {
        endpoint: bank(name)?,
        env: b'T',
        date: day(8_767)?,
    };
    if !opening.is_sound() {
        return Err(Fail::from("a sound opening"));
    }
    Ok(opening)
}

fn position(date: u32, seq: u32) -> Result<OutPos, Fail> {
    Ok(OutPos {
        date: day(date)?,
        seq: number(seq)?,
    })
}

// Makes a bank's image, with no entry, by three device calls.
fn make(alloc: Global, site: &mut MemSite, name: &[u8; 8]) -> Result<(), Fail> {
    match BankNode::init(alloc, site, opening(name)?) {
        Ok(_) => Ok(()),
        Err(_) => Err(Fail::from("an empty site")),
    }
}

// A site with the image of a bank with no entry. The device call with this number after it fails, and none at 0.
fn made(alloc: Global, name: &[u8; 8], call: usize) -> Result<MemSite, Fail> {
    let mut fails = Places::new(alloc);
    if call != 0 {
        fails.push(call.saturating_add(3))?;
    }
    let mut site = MemSite::new(alloc, fails);
    make(alloc, &mut site, name)?;
    Ok(site)
}

// The bank that the site has.
fn resumed(alloc: Global, site: &mut MemSite) -> Result<BankNode, Fail>
    ensures { IfOk result (λ b. b.live ≡ true) }
{
    match BankNode::resume(alloc, site) {
        Ok(bank) => Ok(bank),
        Err(_) => Err(Fail::from("a bank's image")),
    }
}

// An outcome as a letter and two numbers: of an IMAD or a position its date and its number, of a refusal its place or its tag.
type Told = (u8, usize, u32);

const STRANGE: Told = (b'S', 0, 0);

const REPEATED: Told = (b'R', 0, 0);

fn told(outcome: &BankOutcome) -> Told {
    match outcome {
        BankOutcome::Drafted(imad) => (b'D', imad.date.get() as usize, imad.seq.get()),
        BankOutcome::DraftRefused(refused) => told_refused(refused),
        BankOutcome::SeqFull => (b'F', 0, 0),
        BankOutcome::Answered(imad) => (b'A', imad.date.get() as usize, imad.seq.get()),
        BankOutcome::Repeated => REPEATED,
        BankOutcome::Received(at) => (b'I', at.date.get() as usize, at.seq.get()),
        BankOutcome::Gap { wanted } => (b'G', wanted.date.get() as usize, wanted.seq.get()),
        BankOutcome::Strange => STRANGE,
        BankOutcome::Resent(count) => (b'T', 0, *count),
    }
}

fn told_refused(refused: &Refused) -> Told {
    match refused {
        Refused::Byte(place) => (b'B', *place, 0),
        Refused::Cut => (b'C', 0, 0),
        Refused::Missing(number) => (b'M', number.get() as usize, 0),
        Refused::NoMemory => (b'N', 0, 0),
    }
}

// What the bank that the site has answers to a frame of this kind on its own line.
fn answers(
    alloc: Global,
    site: &mut MemSite,
    kind: FrameKind,
    payload: &[u8],
) -> Result<Result<Told, BankFault>, Fail> {
    let mut bank = resumed(alloc, site)?;
    let line = bank.books().opening().endpoint;
    answers_on(&mut bank, site, line, kind, payload)
}

// What a bank answers to a frame on a line.
fn answers_on(
    bank: &mut BankNode,
    site: &mut MemSite,
    line: Endpoint,
    kind: FrameKind,
    payload: &[u8],
) -> Result<Result<Told, BankFault>, Fail>
    requires { bank.old.live ≡ true }
{
    let frame = Frame::new(kind, line, payload);
    match bank.handle(site, &frame) {
        Ok(outcome) => Ok(Ok(told(&outcome))),
        Err(fault) => Ok(Err(fault)),
    }
}

// Whether it answers this.
fn has_outcome(
    alloc: Global,
    site: &mut MemSite,
    kind: FrameKind,
    payload: &[u8],
    want: Told,
) -> Result<bool, Fail> {
    match answers(alloc, site, kind, payload)? {
        Ok(found) => Ok(found == want),
        Err(_) => Ok(false),
    }
}

// Whether the frames that the site has sent, but for so many before them, are exactly these.
fn has_sent(site: &MemSite, before: u64, frames: &[&[u8]]) -> bool {
    let mut number = before;
    for frame in frames {
        number = number.saturating_add(1);
        match site.sent(number) {
            Some(found) => {
                if found != *frame {
                    return false;
                }
            }
            None => return false,
        }
    }
    site.sent_count() == number
}
