// Sessions of a bank are run on a site in memory.
use super::{Streams, morning, places, run_on};
use crate::{Reason, Status};
use faim_base::NoMemory;
use link_frames::FrameFault;
use site_core::{MemSite, Site, StopSite};
use std::alloc::Global;
use std::test::Fail;

// A draft of 1,500.00 from the first account to the second.
const DRAFT: &[u8] =
    b"\0\0\0\x73\x06BANKA001{1500}30USERREQ1T {1510}1000{2000}000000150000{3100}021000021ALPHA BANK*{3400}121042882BETA BANK*{3600}BTR";

const SUBMITTED: &[u8] =
    b"\0\0\0\x8f\x01BANKA001{1500}30USERREQ1T {1510}1000{1520}20240102BANKA001000001{2000}000000150000{3100}021000021ALPHA BANK*{3400}121042882BETA BANK*{3600}BTR";

// A reminder, and the frames that it has a bank send.
const TICK: &[u8] = b"\0\0\0\x09\x07BANKA001";

const SUBMITTED_AGAIN: &[u8] =
    b"\0\0\0\x8f\x01BANKA001{1500}30USERREQ1TP{1510}1000{1520}20240102BANKA001000001{2000}000000150000{3100}021000021ALPHA BANK*{3400}121042882BETA BANK*{3600}BTR";

const ASKED: &[u8] = b"\0\0\0\x17\x02BANKA00120240102000001";

// A bank's session that writes nothing and reads no clock: either would fail.
fn session(alloc: Global, site: &mut MemSite, input: &[u8]) -> Result<Status, NoMemory> {
    let streams = Streams {
        cuts: &[],
        read_fails: &[],
        write_fails: &[1],
    };
    let clock = morning(alloc, &[1])?;
    Ok(run_on(alloc, &["bank", "journal"], input, &streams, site, clock)?.status)
}

// A site with the journal of a bank that has no entries, which fails at these device calls.
fn made(alloc: Global, fails: &[usize]) -> Result<MemSite, NoMemory> {
    let streams = Streams {
        cuts: &[],
        read_fails: &[],
        write_fails: &[],
    };
    let mut site = MemSite::new(alloc, places(alloc, fails)?);
    let clock = morning(alloc, &[])?;
    run_on(
        alloc,
        &["bank", "init", "journal"],
        b"bank BANKA001 T 20240102",
        &streams,
        &mut site,
        clock,
    )?;
    Ok(site)
}

fn is_sent(site: &MemSite, number: u64, frame: &[u8]) -> bool {
    match site.sent(number) {
        Some(sent) => sent == frame,
        None => false,
    }
}

// A session over a draft on a new journal: how it ended, whether its one frame was sent, and whether the image has the draft.
fn drafted(alloc: Global, fails: &[usize]) -> Result<(Status, bool, bool), NoMemory> {
    let mut site = made(alloc, fails)?;
    let status = session(alloc, &mut site, DRAFT)?;
    let sent = site.sent_count() == 1 && is_sent(&site, 1, SUBMITTED);
    Ok((status, sent, site.size() == Ok(186)))
}

// A session over a reminder after such a one: how it ended, and whether it submitted the draft again and asked for outputs.
fn reminded(alloc: Global, fails: &[usize]) -> Result<(Status, bool), NoMemory> {
    let mut site = made(alloc, fails)?;
    let _ = session(alloc, &mut site, DRAFT)?;
    let before = site.sent_count();
    let status = session(alloc, &mut site, TICK)?;
    let again = is_sent(&site, before.saturating_add(1), SUBMITTED_AGAIN);
    let asked = is_sent(&site, before.saturating_add(2), ASKED);
    let counted = site.sent_count() == before.saturating_add(2);
    Ok((status, again && asked && counted && site.size() == Ok(186)))
}

#[test]
fn a_draft_is_submitted(rt: HostRuntime) -> Result<(), Fail> {
    assert_eq!(rt; drafted(rt.alloc(), &[])?, (Status::Done, true, true));
    Ok(())
}

// The draft is kept where its one send failed, which is call 13.
#[test]
fn a_reminder_submits_a_draft_again(rt: HostRuntime) -> Result<(), Fail> {
    assert_eq!(rt; reminded(rt.alloc(), &[])?, (Status::Done, true));
    assert_eq!(rt; reminded(rt.alloc(), &[13])?, (Status::Done, true));
    Ok(())
}

// Three calls made the journal. The session reads it by five, records the draft by four, and sends one frame.
#[test]
fn each_device_call_that_fails_ends_a_session(rt: HostRuntime) -> Result<(), Fail> {
    for call in [4, 5, 6, 7, 8, 9] {
        let want = (Status::DiskFault, false, false);
        assert_eq!(rt; drafted(rt.alloc(), &[call])?, want, "call {call}");
    }
    for call in [10, 11, 12] {
        let want = (Status::DiskFault, false, true);
        assert_eq!(rt; drafted(rt.alloc(), &[call])?, want, "call {call}");
    }
    let want = (Status::LineFault, false, true);
    assert_eq!(rt; drafted(rt.alloc(), &[13])?, want);
    Ok(())
}

// How a session over this input ends on a new journal in which this byte stands at place 16, where its first gate is.
fn ended(alloc: Global, input: &[u8], gate: u8) -> Result<(Status, u64), NoMemory> {
    let mut site = made(alloc, &[])?;
    let _ = site.write_at(16, &[gate]);
    let status = session(alloc, &mut site, input)?;
    let sent = site.sent_count();
    Ok((status, sent))
}

#[test]
fn what_is_no_frame_and_no_journal_is_told(rt: HostRuntime) -> Result<(), Fail> {
    let cut = Status::Refused(Reason::Frame(FrameFault::CutFrame(4)));
    assert_eq!(rt; ended(rt.alloc(), b"\0\0\0\x09", 0xa5)?, (cut, 0));
    let damaged = Status::Damaged { place: 16 };
    assert_eq!(rt; ended(rt.alloc(), TICK, 0)?, (damaged, 0));
    Ok(())
}

// A bank's session on an empty disk.
fn served_nothing(alloc: Global) -> Result<(Status, u64), NoMemory> {
    let mut site = MemSite::new(alloc, places(alloc, &[])?);
    let status = session(alloc, &mut site, TICK)?;
    let sent = site.sent_count();
    Ok((status, sent))
}

#[test]
fn a_site_without_a_journal_serves_no_bank(rt: HostRuntime) -> Result<(), Fail> {
    assert_eq!(rt; served_nothing(rt.alloc())?, (Status::NoJournal, 0));
    Ok(())
}
