// A bank's journal is made on a site in memory.
use super::{Ran, Streams, morning, places, run_on};
use crate::{Reason, Status};
use faim_base::{NoMemory, Places};
use site_core::{MemSite, Site, StopSite};
use std::alloc::Global;
use std::test::Fail;
use world_text::{ScriptFault, Why};

const TEXT: &[u8] = b"bank BANKA001 T 20240102";

// The image of a bank of that text: the header, an open gate, the length of the opening, the opening, a closed gate.
const IMAGE: &[u8; 36] = b"FAIMJRN1\0\0\0\0\0\0\0\0\xa5\0\0\0\x0eBBANKA001T\0\0\x22\x3f\0";

const WHOLE: Streams<'static> = Streams {
    cuts: &[],
    read_fails: &[],
    write_fails: &[],
};

// A bank is made of a text, and the clock would fail.
fn init(
    alloc: Global,
    text: &[u8],
    streams: &Streams,
    site: &mut MemSite,
) -> Result<Ran, NoMemory> {
    let clock = morning(alloc, &[1])?;
    run_on(
        alloc,
        &["bank", "init", "journal"],
        text,
        streams,
        site,
        clock,
    )
}

fn is_image(site: &mut MemSite, image: &[u8; 36]) -> bool {
    let mut found = [9; 36];
    let read = site.read_at(0, &mut found);
    read == Ok(36) && found.as_slice() == image.as_slice() && site.size() == Ok(36)
}

#[test]
fn a_text_makes_an_image_of_36_bytes(rt: HostRuntime) -> Result<(), Fail> {
    for text in [TEXT, b"bank BANKA001 T 20240102\n".as_slice()] {
        let mut site = MemSite::new(rt.alloc(), Places::new(rt.alloc()));
        let ran = init(rt.alloc(), text, &WHOLE, &mut site)?;
        assert_eq!(rt; ran.status, Status::Done);
        assert!(rt; ran.written.as_slice().is_empty());
        assert!(rt; is_image(&mut site, IMAGE));
        assert_eq!(rt; site.sent_count(), 0);
    }
    Ok(())
}

#[test]
fn an_image_that_is_there_stays(rt: HostRuntime) -> Result<(), Fail> {
    let mut site = MemSite::new(rt.alloc(), Places::new(rt.alloc()));
    init(rt.alloc(), TEXT, &WHOLE, &mut site)?;
    let again = init(rt.alloc(), b"bank BANKB001 P 20240103\n", &WHOLE, &mut site)?;
    assert_eq!(rt; again.status, Status::NoJournal);
    assert!(rt; again.written.as_slice().is_empty());
    assert!(rt; is_image(&mut site, IMAGE));
    let mut site = MemSite::new(rt.alloc(), Places::new(rt.alloc()));
    let _ = site.write_at(0, b"\0");
    let taken = init(rt.alloc(), TEXT, &WHOLE, &mut site)?;
    assert_eq!(rt; taken.status, Status::NoJournal);
    assert_eq!(rt; site.size(), Ok(1));
    Ok(())
}

// No device call is made: the first one would fail.
#[test]
fn a_text_that_is_no_banks_makes_no_journal(rt: HostRuntime) -> Result<(), Fail> {
    let cases: [(&[u8], &[u8], u64, Why); 8] = [
        (b"", b"line 1 ended\n", 1, Why::Ended),
        (b"\n", b"line 1 shape\n", 1, Why::Shape),
        (b"bank BANKA001 T", b"line 1 shape\n", 1, Why::Shape),
        (
            b"host T 20240102 1800 1830\naccount 021000021 BANKA001 1 0\n",
            b"line 1 shape\n",
            1,
            Why::Shape,
        ),
        (b"bank BANKA01 T 20240102", b"line 1 value\n", 1, Why::Value),
        (
            b"bank BANKA001 X 20240102",
            b"line 1 value\n",
            1,
            Why::Value,
        ),
        (
            b"bank BANKA001 T 20240230",
            b"line 1 value\n",
            1,
            Why::Value,
        ),
        (
            b"bank BANKA001 T 20240102\n\n",
            b"line 2 shape\n",
            2,
            Why::Shape,
        ),
    ];
    for (text, written, line, why) in cases {
        let mut site = MemSite::new(rt.alloc(), places(rt.alloc(), &[1])?);
        let ran = init(rt.alloc(), text, &WHOLE, &mut site)?;
        let fault = ScriptFault { line, why };
        assert_eq!(rt; ran.status, Status::Refused(Reason::Script(fault)));
        assert_eq!(rt; ran.written.as_slice(), written);
    }
    Ok(())
}

#[test]
fn each_call_that_fails_ends_an_init(rt: HostRuntime) -> Result<(), Fail> {
    for call in [1, 2, 3] {
        let mut site = MemSite::new(rt.alloc(), places(rt.alloc(), &[call])?);
        let ran = init(rt.alloc(), TEXT, &WHOLE, &mut site)?;
        assert_eq!(rt; ran.status, Status::DiskFault, "call {call}");
        assert!(rt; ran.written.as_slice().is_empty());
    }
    let failing = Streams {
        cuts: &[],
        read_fails: &[2],
        write_fails: &[1],
    };
    let mut site = MemSite::new(rt.alloc(), places(rt.alloc(), &[1])?);
    let ran = init(rt.alloc(), TEXT, &failing, &mut site)?;
    assert_eq!(rt; ran.status, Status::ReadFault);
    let failing = Streams {
        read_fails: &[],
        ..failing
    };
    let ran = init(rt.alloc(), b"bank", &failing, &mut site)?;
    assert_eq!(rt; ran.status, Status::WriteFault);
    assert!(rt; ran.written.as_slice().is_empty());
    Ok(())
}
