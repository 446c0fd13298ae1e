// What no clause says of storing and forwarding: the bytes of frames, and what a site in memory leaves at each call.
ghost use Rattle.std.specs.Prelude.{◌≡◌, ℕ, List, Some, None, IfSome};
ghost use Rattle.torn_journal.specs.Journal.{IsFramed, IsPayload};

use crate::{ForwardFault, Outbox, store_and_forward};
use faim_base::{Endpoint, Failed, Places};
use link_frames::{Frame, FrameKind};
use site_core::{MemSite, Site, StopSite};
use std::alloc::Global;
use std::test::Fail;
use torn_journal::{Visit, VisitFault, create, frame_payload, resume};

// An answer to a bank, and its output.
fn two_frames(alloc: Global) -> Option<Outbox> {
    let endpoint = Endpoint::read(b"BANKA001")?;
    let mut outbox = Outbox::new(alloc);
    let answer = Frame::new(FrameKind::Ack, endpoint, b"ok");
    let output = Frame::new(FrameKind::Output, endpoint, b"");
    outbox.push(&answer).ok()?;
    outbox.push(&output).ok()?;
    Some(outbox)
}

fn is_at(outbox: &Outbox, place: usize, bytes: &[u8]) -> bool {
    match outbox.get(place) {
        Some(frame) => frame == bytes,
        None => false,
    }
}

fn has_sent(site: &MemSite, number: u64, bytes: &[u8]) -> bool {
    match site.sent(number) {
        Some(frame) => frame == bytes,
        None => false,
    }
}

fn framed(alloc: Global, payload: &[u8]) -> Option<Vec<u8>>
    requires { IsPayload payload.now }
    ensures { IfSome result (λ framed. IsFramed framed.items) }
{
    let mut framed = Vec::new(alloc);
    match frame_payload(payload, &mut framed) {
        Ok(()) => Some(framed),
        Err(_) => None,
    }
}

#[test]
fn an_outbox_keeps_frames_in_order_and_forgets_them(rt: HostRuntime) {
    let mut outbox = two_frames(rt.alloc()).expect(&rt, "memory");
    assert_eq!(rt; outbox.len(), 2);
    assert!(rt; is_at(&outbox, 0, b"\0\0\0\x0b\x03BANKA001ok"));
    assert!(rt; is_at(&outbox, 1, b"\0\0\0\x09\x04BANKA001"));
    assert!(rt; outbox.get(2).is_none());
    outbox.clear();
    assert!(rt; outbox.is_empty());
    assert!(rt; outbox.get(0).is_none());
    let endpoint = Endpoint::read(b"BANKB001").expect(&rt, "an endpoint");
    let frame = Frame::new(FrameKind::Tick, endpoint, b"");
    outbox.push(&frame).expect(&rt, "memory");
    assert_eq!(rt; outbox.len(), 1);
    assert!(rt; is_at(&outbox, 0, b"\0\0\0\x09\x07BANKB001"));
}

// A journal of one payload, and a stop at this call: the answer, whether the record is there after a restart, and how many
// frames were sent.
fn stopped_at(
    alloc: Global,
    outbox: &Outbox,
    call: u64,
    tear: u64,
) -> Option<(Result<(), ForwardFault>, bool, u64)> {
    let mut site = MemSite::new(alloc, Places::new(alloc));
    let mut journal = create(alloc, &mut site, &[7]).ok()?;
    let framed = framed(alloc, &[8; 3])?;
    if site.stopped() {
        return None;
    }
    site.arm(call, tear);
    let answer = store_and_forward(&mut journal, &mut site, &framed, outbox);
    site.restart();
    let mut gate = [0];
    site.read_at(22, &mut gate).ok()?;
    Some((answer, gate[0] == 0xA5, site.sent_count()))
}

#[test]
fn a_stop_keeps_the_record_before_its_frames(rt: HostRuntime) {
    let alloc = rt.alloc();
    let outbox = two_frames(alloc).expect(&rt, "memory");
    let site_fault = Err(ForwardFault::SiteFault);
    let line_fault = Err(ForwardFault::LineFault);
    for (call, tear, answer, kept, count) in [
        (1, 0, site_fault, false, 0),
        (1, 165, site_fault, false, 0),
        (2, 1, site_fault, false, 0),
        (2, 255, site_fault, false, 0),
        (3, 0, site_fault, false, 0),
        (3, 1, site_fault, true, 0),
        (3, 165, site_fault, true, 0),
        (3, 255, site_fault, false, 0),
        (4, 0, site_fault, false, 0),
        (4, 1, site_fault, true, 0),
        (5, 0, line_fault, true, 0),
        (5, 1, line_fault, true, 1),
        (6, 0, line_fault, true, 1),
        (6, 255, line_fault, true, 2),
        (7, 0, Ok(()), true, 2),
        (0, 0, Ok(()), true, 2),
    ] {
        let left = stopped_at(alloc, &outbox, call, tear);
        assert!(rt; left == Some((answer, kept, count)), "at {call}, {tear}");
    }
}

// The second send fails, and the node goes on.
fn goes_on(alloc: Global, outbox: &Outbox) -> Option<bool> {
    let mut fails = Places::new(alloc);
    fails.push(9).ok()?;
    let mut site = MemSite::new(alloc, fails);
    let mut journal = create(alloc, &mut site, &[7]).ok()?;
    let framed = framed(alloc, &[8; 3])?;
    let first = store_and_forward(&mut journal, &mut site, &framed, outbox);
    let tail = journal.tail();
    let second = store_and_forward(&mut journal, &mut site, &framed, outbox);
    Some(
        first == Err(ForwardFault::LineFault)
            && tail == 31
            && second.is_ok()
            && journal.tail() == 39
            && site.sent_count() == 3
            && has_sent(&site, 1, b"\0\0\0\x0b\x03BANKA001ok")
            && has_sent(&site, 3, b"\0\0\0\x09\x04BANKA001"),
    )
}

#[test]
fn a_failed_send_leaves_the_record_and_ends_the_turn(rt: HostRuntime) {
    let alloc = rt.alloc();
    let outbox = two_frames(alloc).expect(&rt, "memory");
    assert_eq!(rt; goes_on(alloc, &outbox), Some(true));
}

// A disk with a journal of 8,191 payloads, each of 131,072 zeros, and a line that takes nothing.
#[derive(Debug, Drop)]
struct FullDisk;

const LAST_GATE: u64 = 1_073_651_723;

impl Site for FullDisk {
    ghost told = { λ _. None };

    ghost disk_faults = { λ _. 0 };

    ghost line_faults = { λ _. 0 };

    fn size(&mut self) -> Result<u64, Failed> {
        Ok(LAST_GATE + 1)
    }

    fn read_at(&mut self, at: u64, buf: &mut [u8]) -> Result<usize, Failed> {
        if at == 0 && buf.len() == 16 {
            buf.copy_from_slice(b"FAIMJRN1\0\0\0\0\0\0\0\0");
        } else if at < LAST_GATE && buf.len() == 5 {
            buf.copy_from_slice(b"\xa5\0\x02\0\0");
        }
        Ok(buf.len())
    }

    fn write_at(&mut self, _: u64, _: &[u8]) -> Result<(), Failed> {
        Ok(())
    }

    fn sync(&mut self) -> Result<(), Failed> {
        Ok(())
    }

    fn send(&mut self, _: &[u8]) -> Result<(), Failed> {
        Ok(())
    }
}

// Takes each payload.
#[derive(Debug, Drop)]
struct Any;

impl Visit for Any {
    ghost stands = { λ _ _. Unit {0} };

    ghost follows = { λ _ _. Unit {0} };

    fn take(&mut self, _: &[u8]) -> Result<(), VisitFault> {
        Ok(())
    }
}

#[test]
fn a_full_journal_is_told_with_its_tail_and_the_need(rt: HostRuntime) -> Result<(), Fail> {
    let alloc = rt.alloc();
    let outbox = two_frames(alloc).expect(&rt, "memory");
    let mut site = FullDisk;
    let mut journal = resume(alloc, &mut site, &mut Any).expect(&rt, "a journal");
    let framed = framed(alloc, &[8; 100_000]).expect(&rt, "memory");
    let answer = store_and_forward(&mut journal, &mut site, &framed, &outbox);
    let full = ForwardFault::JournalFull {
        tail: LAST_GATE + 1,
        need: 100_005,
    };
    assert_eq!(rt; answer, Err(full));
    assert_eq!(rt; journal.tail(), LAST_GATE + 1);
    assert_eq!(rt; full.to_string(alloc)?.as_str(), "JournalFull");
    let site_fault = ForwardFault::SiteFault.to_string(alloc)?;
    assert_eq!(rt; site_fault.as_str(), "SiteFault");
    let line_fault = ForwardFault::LineFault.to_string(alloc)?;
    assert_eq!(rt; line_fault.as_str(), "LineFault");
    Ok(())
}
