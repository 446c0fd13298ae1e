// A host's journal is made, and sessions of it are run, on a site in memory.
use super::{ALPHA, BETA, Ran, Streams, morning, places, run_on, text_of};
use crate::{Reason, Status};
use faim_base::{NoMemory, Places};
use link_frames::FrameFault;
use site_core::{MemSite, Site, StopSite};
use std::alloc::Global;
use std::test::Fail;
use world_text::{ScriptFault, Why};

const CUTOFFS: &str = "host T 20240102 1800 1830";

// 1,500.00 from the first account to the second.
const SUBMISSION: &[u8] =
    b"\0\0\0\x8f\x01BANKA001{1500}30USERREQ1T {1510}1000{1520}20240102BANKA001000001{2000}000000150000{3100}021000021ALPHA BANK*{3400}121042882BETA BANK*{3600}BTR";

// The frames that answer it.
const ACK: &[u8] =
    b"\0\0\0\x6a\x03BANKA001{1100}30T 2{1110}01020930FAIM{1120}20240102BANKB00100000101020930FAIM{1520}20240102BANKA001000001";

const OUTPUT: &[u8] =
    b"\0\0\0\xd4\x04BANKB001{1100}30T N{1110}01020930FAIM{1120}20240102BANKB00100000101020930FAIM{1500}30USERREQ1T {1510}1000{1520}20240102BANKA001000001{2000}000000150000{3100}021000021ALPHA BANK*{3400}121042882BETA BANK*{3600}BTR";

const WHOLE: Streams<'static> = Streams {
    cuts: &[],
    read_fails: &[],
    write_fails: &[],
};

fn init(alloc: Global, site: &mut MemSite) -> Result<Ran, NoMemory> {
    let text = text_of(alloc, &[CUTOFFS, ALPHA, BETA])?;
    let clock = morning(alloc, &[1])?;
    run_on(
        alloc,
        &["host", "init", "journal"],
        text.as_slice(),
        &WHOLE,
        site,
        clock,
    )
}

fn session(
    alloc: Global,
    site: &mut MemSite,
    input: &[u8],
    clock_fails: &[usize],
) -> Result<Status, NoMemory> {
    let streams = Streams {
        cuts: &[],
        read_fails: &[],
        write_fails: &[1],
    };
    let clock = morning(alloc, clock_fails)?;
    Ok(run_on(alloc, &["host", "journal"], input, &streams, site, clock)?.status)
}

// A site with the journal of a host that has no entries, which fails at these device calls.
fn made(alloc: Global, fails: &[usize]) -> Result<MemSite, NoMemory> {
    let mut site = MemSite::new(alloc, places(alloc, fails)?);
    init(alloc, &mut site)?;
    Ok(site)
}

fn is_sent(site: &MemSite, number: u64, frame: &[u8]) -> bool {
    match site.sent(number) {
        Some(sent) => sent == frame,
        None => false,
    }
}

#[test]
fn an_init_makes_a_journal_once(rt: HostRuntime) -> Result<(), Fail> {
    let mut site = MemSite::new(rt.alloc(), Places::new(rt.alloc()));
    let first = init(rt.alloc(), &mut site)?;
    assert_eq!(rt; first.status, Status::Done);
    assert!(rt; first.written.as_slice().is_empty());
    assert_eq!(rt; site.size(), Ok(100));
    let mut gate = [9; 1];
    assert_eq!(rt; site.read_at(99, &mut gate), Ok(1));
    assert_eq!(rt; gate, [0]);
    let second = init(rt.alloc(), &mut site)?;
    assert_eq!(rt; second.status, Status::NoJournal);
    assert_eq!(rt; site.size(), Ok(100));
    assert_eq!(rt; site.sent_count(), 0);
    Ok(())
}

// No device call is made: the first one would fail.
#[test]
fn a_text_that_is_no_configuration_makes_no_journal(rt: HostRuntime) -> Result<(), Fail> {
    let cases: [(&[u8], &[u8], ScriptFault); 3] = [
        (
            b"",
            b"line 1 ended\n",
            ScriptFault {
                line: 1,
                why: Why::Ended,
            },
        ),
        (
            b"host T 20240102 1800 1830\n",
            b"line 2 ended\n",
            ScriptFault {
                line: 2,
                why: Why::Ended,
            },
        ),
        (
            b"host T 20240102 1800 1830\naccount 021000021 BANKA001 1 0\nbegin\n",
            b"line 3 shape\n",
            ScriptFault {
                line: 3,
                why: Why::Shape,
            },
        ),
    ];
    for (text, line, fault) in cases {
        let mut site = MemSite::new(rt.alloc(), places(rt.alloc(), &[1])?);
        let clock = morning(rt.alloc(), &[1])?;
        let ran = run_on(
            rt.alloc(),
            &["host", "init", "journal"],
            text,
            &WHOLE,
            &mut site,
            clock,
        )?;
        assert_eq!(rt; ran.status, Status::Refused(Reason::Script(fault)));
        assert_eq!(rt; ran.written.as_slice(), line);
    }
    Ok(())
}

#[test]
fn an_init_on_a_broken_disk_is_a_disk_fault(rt: HostRuntime) -> Result<(), Fail> {
    for call in [1, 2, 3] {
        let mut site = MemSite::new(rt.alloc(), places(rt.alloc(), &[call])?);
        let ran = init(rt.alloc(), &mut site)?;
        assert_eq!(rt; ran.status, Status::DiskFault);
        assert!(rt; ran.written.as_slice().is_empty());
    }
    Ok(())
}

// How a session over a submission ended, and whether its two frames are sent and its entry is kept.
fn recorded(alloc: Global) -> Result<(Status, bool), NoMemory> {
    let mut site = made(alloc, &[])?;
    let status = session(alloc, &mut site, SUBMISSION, &[])?;
    let sent = site.sent_count() == 2 && is_sent(&site, 1, ACK) && is_sent(&site, 2, OUTPUT);
    Ok((status, sent && site.size() == Ok(307)))
}

#[test]
fn a_submission_is_recorded_and_answered(rt: HostRuntime) -> Result<(), Fail> {
    assert_eq!(rt; recorded(rt.alloc())?, (Status::Done, true));
    Ok(())
}

// The answer of a session, how many frames it sends, and the size of the image after it.
fn told(
    alloc: Global,
    input: &[u8],
    fails: &[usize],
    clock_fails: &[usize],
) -> Result<(Status, u64, bool), NoMemory> {
    let mut site = made(alloc, fails)?;
    let status = session(alloc, &mut site, input, clock_fails)?;
    let sent = site.sent_count();
    Ok((status, sent, site.size() == Ok(307)))
}

// An init makes three device calls, and a resume of it five.
#[test]
fn faults_end_a_session(rt: HostRuntime) -> Result<(), Fail> {
    let bad = Status::Refused(Reason::Frame(FrameFault::BadLength(8_202)));
    let cut = Status::Refused(Reason::Frame(FrameFault::CutFrame(3)));
    let cases: [(&[u8], &[usize], &[usize], (Status, u64, bool)); 5] = [
        (b"", &[], &[], (Status::Done, 0, false)),
        (b"\0\0\x20\x0a", &[], &[], (bad, 0, false)),
        (b"\0\0\0", &[], &[], (cut, 0, false)),
        (SUBMISSION, &[], &[1], (Status::ClockFault, 0, false)),
        (SUBMISSION, &[4], &[], (Status::DiskFault, 0, false)),
    ];
    for (input, fails, clock_fails, want) in cases {
        assert_eq!(rt; told(rt.alloc(), input, fails, clock_fails)?, want);
    }
    Ok(())
}

// How a session ended on a disk that has these bytes, and how many frames it sent.
fn served_on(alloc: Global, image: &[u8]) -> Result<(Status, u64), NoMemory> {
    let mut site = MemSite::new(alloc, Places::new(alloc));
    let _ = site.write_at(0, image);
    let status = session(alloc, &mut site, SUBMISSION, &[1])?;
    let sent = site.sent_count();
    Ok((status, sent))
}

#[test]
fn a_site_without_a_journal_serves_no_session(rt: HostRuntime) -> Result<(), Fail> {
    for image in [b"".as_slice(), b"HELLO".as_slice()] {
        assert_eq!(rt; served_on(rt.alloc(), image)?, (Status::NoJournal, 0));
    }
    Ok(())
}
