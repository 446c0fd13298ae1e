// What no clause says of sessions: the bytes of frames and images, and how a session goes on after another that was cut off.
ghost use Rattle.std.specs.Prelude.{IfOk};
ghost use Rattle.bank_books.specs.Openings.{IsBankOpening};

mod drafting;
mod failing;
mod foreign;
mod hostile;
mod receiving;
mod stopping;

use crate::{SessionEnd, serve};
use bank_books::BankOpening;
use bank_node::BankNode;
use faim_base::{Bytes, CycleDate, Endpoint, Places};
use site_core::{MemSite, MemSource, Site, StopSite};
use std::alloc::Global;
use std::test::Fail;

// A draft of 1,500.00 of the first bank to the second, and the frames that submit it.
const DRAFT: &[u8] =
    b"\0\0\0\x73\x06BANKA001{1500}30USERREQ1T {1510}1000{2000}000000150000{3100}021000021ALPHA BANK*{3400}121042882BETA BANK*{3600}BTR";

const SUBMITTED: &[u8] =
    b"\0\0\0\x8f\x01BANKA001{1500}30USERREQ1T {1510}1000{1520}20240102BANKA001000001{2000}000000150000{3100}021000021ALPHA BANK*{3400}121042882BETA BANK*{3600}BTR";

const SUBMITTED_AGAIN: &[u8] =
    b"\0\0\0\x8f\x01BANKA001{1500}30USERREQ1TP{1510}1000{1520}20240102BANKA001000001{2000}000000150000{3100}021000021ALPHA BANK*{3400}121042882BETA BANK*{3600}BTR";

// A reminder, and what it asks for.
const TICK: &[u8] = b"\0\0\0\x09\x07BANKA001";

const ASKED: &[u8] = b"\0\0\0\x17\x02BANKA00120240102000001";

// The host's answer.
const ACK: &[u8] =
    b"\0\0\0\x6a\x03BANKA001{1100}30T 2{1110}01020930FAIM{1120}20240102BANKB00100000101020930FAIM{1520}20240102BANKA001000001";

// What the draft adds to an image behind the opening: a gate, its length, and its entry.
const RECORD: &[u8] =
    b"\xa5\0\0\0\x91D\0\0\x22\x3f\0\0\0\x01\0\x86{1500}30USERREQ1T {1510}1000{1520}20240102BANKA001000001{2000}000000150000{3100}021000021ALPHA BANK*{3400}121042882BETA BANK*{3600}BTR";

// The first bytes of each image: a header and an opening.
const OPENING: usize = 35;

// A test bank on 2024-01-02.
fn opening(name: &[u8; 8]) -> Result<BankOpening, Fail>
    ensures { IfOk result IsBankOpening }
{
    let opening = BankOpening {
        endpoint: Endpoint::read(name).ok_or("an endpoint")?,
        env: b'T',
        date: CycleDate::new(8_767).ok_or("a date")?,
    };
    if !opening.is_sound() {
        return Err(Fail::from("a sound opening"));
    }
    Ok(opening)
}

// A site with the image of a bank with no entry, made by three device calls. The device call with this number after it fails,
// and none at 0.
fn made(alloc: Global, name: &[u8; 8], call: usize) -> Result<MemSite, Fail> {
    let mut fails = Places::new(alloc);
    if call != 0 {
        fails.push(call.saturating_add(3))?;
    }
    let mut site = MemSite::new(alloc, fails);
    match BankNode::init(alloc, &mut site, opening(name)?) {
        Ok(_) => Ok(site),
        Err(_) => Err(Fail::from("an empty site")),
    }
}

// A source of these frames that gives so many bytes at a time, and fails at the calls with these numbers.
fn source_of(
    alloc: Global,
    frames: &[&[u8]],
    size: usize,
    fails: &[usize],
) -> Result<MemSource, Fail> {
    let mut bytes = Bytes::new(alloc);
    for frame in frames {
        bytes.extend(frame)?;
    }
    let cuts = cuts_of(alloc, bytes.as_slice().len(), size)?;
    let mut failing = Places::new(alloc);
    failing.extend(fails)?;
    Ok(MemSource::new(bytes, cuts, failing))
}

// The places of so many bytes that are multiples of the size.
fn cuts_of(alloc: Global, count: usize, size: usize) -> Result<Places, Fail> {
    let mut cuts = Places::new(alloc);
    for place in 1..count {
        if place.checked_rem(size) == Some(0) {
            cuts.push(place)?;
        }
    }
    Ok(cuts)
}

// How a session ends that reads these frames.
fn served(
    alloc: Global,
    site: &mut MemSite,
    frames: &[&[u8]],
) -> Result<Result<(), SessionEnd>, Fail> {
    let mut source = source_of(alloc, frames, 4_096, &[])?;
    Ok(serve(alloc, &mut source, site))
}

// Whether the frames that the site has sent, but for so many before them, are exactly these.
fn has_sent(site: &MemSite, before: u64, frames: &[&[u8]]) -> bool {
    let mut number = before;
    for frame in frames {
        number = number.saturating_add(1);
        match site.sent(number) {
            Some(found) => {
                if found != *frame {
                    return false;
                }
            }
            None => return false,
        }
    }
    site.sent_count() == number
}

// Whether they are exactly the first of these, so many.
fn has_sent_first(site: &MemSite, before: u64, frames: &[&[u8]], count: usize) -> bool {
    match frames.get(..count) {
        Some(first) => has_sent(site, before, first),
        None => false,
    }
}

// Whether the image has so many bytes.
fn has_size(site: &mut MemSite, size: u64) -> bool {
    match site.size() {
        Ok(found) => found == size,
        Err(_) => false,
    }
}

// Whether the image goes on with the draft's record.
fn has_record(site: &mut MemSite) -> bool {
    let mut record = [0; 150];
    match site.read_at(OPENING as u64, &mut record) {
        Ok(found) => found == 150 && record.as_slice() == RECORD,
        Err(_) => false,
    }
}

// Whether a reminder submits the draft again at an image that has it already or not, 1 or 0, and the image stays.
fn reminds(alloc: Global, site: &mut MemSite, entries: usize) -> Result<bool, Fail> {
    let before = site.sent_count();
    let end = served(alloc, site, &[TICK])?;
    let sent = if entries == 0 {
        has_sent(site, before, &[ASKED])
    } else {
        has_sent(site, before, &[SUBMITTED_AGAIN, ASKED]) && has_record(site)
    };
    Ok(end.is_ok() && sent)
}
