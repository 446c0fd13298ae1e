// What no clause says of sessions: the bytes of frames and images, and how a session goes on after another that was cut off.
ghost use Rattle.std.specs.Prelude.{IfOk};
ghost use Rattle.host_ledger.specs.Soundness.{IsConfig};

mod answering;
mod failing;
mod foreign;
mod hostile;
mod rolling;
mod stopping;

use crate::{SessionEnd, serve};
use faim_base::{Aba, Bytes, CycleDate, Endpoint, Moment, Moments, Places};
use host_ledger::{Account, Accounts, Config};
use host_node::HostNode;
use site_core::{MemClock, MemSite, MemSource, Site, StopSite};
use std::alloc::Global;
use std::test::Fail;

// A submission of 1,500.00 from the first bank to the second.
const PAYMENT: &[u8] =
    b"\0\0\0\x8f\x01BANKA001{1500}30USERREQ1T {1510}1000{1520}20240102BANKA001000001{2000}000000150000{3100}021000021ALPHA BANK*{3400}121042882BETA BANK*{3600}BTR";

// The frames that answer it, and the same sent again.
const ACK: &[u8] =
    b"\0\0\0\x6a\x03BANKA001{1100}30T 2{1110}01020930FAIM{1120}20240102BANKB00100000101020930FAIM{1520}20240102BANKA001000001";

const OUTPUT: &[u8] =
    b"\0\0\0\xd4\x04BANKB001{1100}30T N{1110}01020930FAIM{1120}20240102BANKB00100000101020930FAIM{1500}30USERREQ1T {1510}1000{1520}20240102BANKA001000001{2000}000000150000{3100}021000021ALPHA BANK*{3400}121042882BETA BANK*{3600}BTR";

const ACK_AGAIN: &[u8] =
    b"\0\0\0\x6a\x03BANKA001{1100}30TP2{1110}01020930FAIM{1120}20240102BANKB00100000101020930FAIM{1520}20240102BANKA001000001";

const OUTPUT_AGAIN: &[u8] =
    b"\0\0\0\xd4\x04BANKB001{1100}30TPN{1110}01020930FAIM{1120}20240102BANKB00100000101020930FAIM{1500}30USERREQ1T {1510}1000{1520}20240102BANKA001000001{2000}000000150000{3100}021000021ALPHA BANK*{3400}121042882BETA BANK*{3600}BTR";

// What the payment adds to an image behind the opening: a gate, its length, and its entry.
const RECORD: &[u8] =
    b"\xa5\0\0\0\xcaP\0\0\x22\x3fBANKA001\0\0\0\x01021000021121042882BTR\x0a\0\0\0\0\0\0\x02\x49\xf0\0\0\xc0\xa4\x9a\x01BANKB001\0\0\0\x01\0\x86{1500}30USERREQ1T {1510}1000{1520}20240102BANKA001000001{2000}000000150000{3100}021000021ALPHA BANK*{3400}121042882BETA BANK*{3600}BTR";

// The first bytes of each image: a header and an opening.
const OPENING: usize = 99;

fn account(number: &[u8; 9], name: &[u8; 8], opening: i64) -> Result<Account, Fail> {
    Ok(Account {
        aba: Aba::read(number).ok_or("an account")?,
        endpoint: Endpoint::read(name).ok_or("an endpoint")?,
        opening,
        floor: 0,
    })
}

// A test host on 2024-01-02, with cutoffs at 18:00 and 18:30, and two accounts.
fn config(alloc: Global) -> Result<Config, Fail>
    ensures { IfOk result IsConfig }
{
    let mut accounts = Accounts::new(alloc);
    accounts.push(account(b"021000021", b"BANKA001", 1_000_000)?)?;
    accounts.push(account(b"121042882", b"BANKB001", 0)?)?;
    let config = Config {
        env: b'T',
        date: CycleDate::new(8_767).ok_or("a date")?,
        customer: 1_080,
        bank: 1_110,
        accounts,
    };
    if !config.is_sound() {
        return Err(Fail::from("a sound configuration"));
    }
    Ok(config)
}

// Makes a host's image, with no entry, by three device calls.
fn make(alloc: Global, site: &mut MemSite) -> Result<(), Fail> {
    match HostNode::init(alloc, site, config(alloc)?) {
        Ok(_) => Ok(()),
        Err(_) => Err(Fail::from("an empty site")),
    }
}

// A site with the image of a host with no entry. The device call with this number after it fails, and none at 0.
fn made(alloc: Global, call: usize) -> Result<MemSite, Fail> {
    let mut fails = Places::new(alloc);
    if call != 0 {
        fails.push(call.saturating_add(3))?;
    }
    let mut site = MemSite::new(alloc, fails);
    make(alloc, &mut site)?;
    Ok(site)
}

// A source of these frames that gives so many bytes at a time, and fails at the calls with these numbers.
fn source_of(
    alloc: Global,
    frames: &[&[u8]],
    size: usize,
    fails: &[usize],
) -> Result<MemSource, Fail> {
    let mut bytes = Bytes::new(alloc);
    for frame in frames {
        bytes.extend(frame)?;
    }
    let cuts = cuts_of(alloc, bytes.as_slice().len(), size)?;
    let mut failing = Places::new(alloc);
    failing.extend(fails)?;
    Ok(MemSource::new(bytes, cuts, failing))
}

// The places of so many bytes that are multiples of the size.
fn cuts_of(alloc: Global, count: usize, size: usize) -> Result<Places, Fail> {
    let mut cuts = Places::new(alloc);
    for place in 1..count {
        if place.checked_rem(size) == Some(0) {
            cuts.push(place)?;
        }
    }
    Ok(cuts)
}

// A clock at 09:30 on 2024-01-02 that fails at the calls with these numbers.
fn clock_of(alloc: Global, fails: &[usize]) -> Result<MemClock, Fail> {
    let mut readings = Moments::new(alloc);
    readings.push(Moment::new(12_625_050).ok_or("a moment")?)?;
    let mut failing = Places::new(alloc);
    failing.extend(fails)?;
    Ok(MemClock::new(readings, failing))
}

// How a session ends that reads these frames.
fn served(
    alloc: Global,
    site: &mut MemSite,
    frames: &[&[u8]],
) -> Result<Result<(), SessionEnd>, Fail> {
    let mut source = source_of(alloc, frames, 4_096, &[])?;
    let mut clock = clock_of(alloc, &[])?;
    Ok(serve(alloc, &mut source, site, &mut clock))
}

// Whether the frames that the site has sent, but for so many before them, are exactly these.
fn has_sent(site: &MemSite, before: u64, frames: &[&[u8]]) -> bool {
    let mut number = before;
    for frame in frames {
        number = number.saturating_add(1);
        match site.sent(number) {
            Some(found) => {
                if found != *frame {
                    return false;
                }
            }
            None => return false,
        }
    }
    site.sent_count() == number
}

// Whether they are exactly the first of these, so many.
fn has_sent_first(site: &MemSite, before: u64, frames: &[&[u8]], count: usize) -> bool {
    match frames.get(..count) {
        Some(first) => has_sent(site, before, first),
        None => false,
    }
}

// Whether the image has so many bytes.
fn has_size(site: &mut MemSite, size: u64) -> bool {
    match site.size() {
        Ok(found) => found == size,
        Err(_) => false,
    }
}

// The byte at a place of the image, where there is one.
fn byte_at(site: &mut MemSite, place: u64) -> Option<u8> {
    let mut byte = [0];
    match site.read_at(place, &mut byte) {
        Ok(1) => Some(byte[0]),
        Ok(_) => None,
        Err(_) => None,
    }
}

// Whether the image has the payment and no other entry.
fn has_payment(site: &mut MemSite) -> bool {
    has_size(site, 307) && byte_at(site, 99) == Some(0xa5) && byte_at(site, 306) == Some(0)
}

// Whether a session answers the payment again at an image that has it already or not, 1 or 0, and the image then has it once.
fn answers_again(alloc: Global, site: &mut MemSite, entries: usize) -> Result<bool, Fail> {
    let before = site.sent_count();
    let end = served(alloc, site, &[PAYMENT])?;
    let sent = if entries == 0 {
        has_sent(site, before, &[ACK, OUTPUT])
    } else {
        has_sent(site, before, &[ACK_AGAIN, OUTPUT_AGAIN, ACK_AGAIN])
    };
    Ok(end.is_ok() && sent && has_payment(site))
}
