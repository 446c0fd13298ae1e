// What no clause says of a journal: its bytes, and each answer once.
ghost use Rattle.std.specs.Prelude.{◌≡◌, ◌≤◌, map, length};
ghost use Rattle.torn_journal.specs.Journal.{IsPayload};

use crate::{
    AppendFault, CreateFault, Journal, ResumeFault, Visit, VisitFault, create, frame_payload,
    resume,
};
use faim_base::Places;
use site_core::{MemSite, Site, StopSite};
use std::alloc::Global;
use std::test::Fail;

/// Keeps the length of each payload, and takes none that is longer than 1,000 bytes.
#[derive(Debug, Drop)]
struct Lengths {
    seen: Vec<usize>,
}

impl Visit for Lengths {
    ghost stands = { λ v payloads. map length payloads ≡ v.seen.items };

    ghost follows = { λ payloads payload. length payload ≤ 1000 };

    fn take(&mut self, payload: &[u8]) -> Result<(), VisitFault> {
        if payload.len() > 1000 {
            return Err(VisitFault::Bad);
        }
        match self.seen.push(payload.len()) {
            Ok(()) => Ok(()),
            Err(_) => Err(VisitFault::NoMemory),
        }
    }
}

// What `append` answers to a payload, or `None` where memory ran out.
fn added(
    alloc: Global,
    site: &mut MemSite,
    journal: &mut Journal,
    payload: &[u8],
) -> Option<Result<(), AppendFault>>
    requires { IsPayload payload.now }
{
    let mut framed = Vec::new(alloc);
    match frame_payload(payload, &mut framed) {
        Ok(()) => Some(journal.append(site, &framed)),
        Err(_) => None,
    }
}

#[test]
fn a_journal_grows_by_what_is_framed_and_is_read_back(rt: HostRuntime) -> Result<(), Fail> {
    let alloc = rt.alloc();
    let mut site = MemSite::new(alloc, Places::new(alloc));
    assert!(rt; create(alloc, &mut site, &[b'C'; 78]).is_ok());
    assert!(rt; site.size() == Ok(100));
    let mut visit = Lengths {
        seen: Vec::new(alloc),
    };
    let resumed = resume(alloc, &mut site, &mut visit);
    assert!(rt; visit.seen.as_slice() == [78].as_slice());
    match resumed {
        Ok(mut journal) => {
            assert!(rt; journal.tail() == 100);
            assert!(rt; added(alloc, &mut site, &mut journal, &[b'P'; 202]) == Some(Ok(())));
            assert!(rt; journal.tail() == 307);
        }
        Err(_) => assert!(rt; false),
    }
    assert!(rt; site.size() == Ok(307));
    let mut visit = Lengths {
        seen: Vec::new(alloc),
    };
    assert!(rt; resume(alloc, &mut site, &mut visit).is_ok());
    assert!(rt; visit.seen.as_slice() == [78, 202].as_slice());
    match create(alloc, &mut site, &[1]) {
        Err(CreateFault::NotEmpty) => {}
        _ => assert!(rt; false),
    }
    Ok(())
}

// A journal of one payload, CALL is the device call of an append that is stopped. Is the new payload there?
#[test]
fn a_stop_in_an_append_keeps_the_payload_only_with_its_gate(rt: HostRuntime) -> Result<(), Fail> {
    let alloc = rt.alloc();
    for (call, tear, count) in [
        (1, 0, 1),
        (1, 1, 1),
        (2, 255, 1),
        (3, 0, 1),
        (3, 1, 2),
        (3, 255, 1),
        (3, 165, 2),
        (4, 0, 1),
        (4, 1, 2),
        (4, 255, 1),
    ] {
        let mut site = MemSite::new(alloc, Places::new(alloc));
        match create(alloc, &mut site, &[7]) {
            Ok(mut journal) => {
                assert!(rt; !site.stopped());
                site.arm(call, tear);
                let answer = added(alloc, &mut site, &mut journal, &[8; 3]);
                assert!(rt; answer == Some(Err(AppendFault::SiteFault)), "at {call}");
            }
            Err(_) => assert!(rt; false),
        }
        assert!(rt; site.stopped());
        site.restart();
        let mut visit = Lengths {
            seen: Vec::new(alloc),
        };
        assert!(rt; resume(alloc, &mut site, &mut visit).is_ok());
        assert!(rt; visit.seen.len() == count, "at {call}, {tear}");
    }
    Ok(())
}

#[test]
fn damage_is_found_at_its_gate(rt: HostRuntime) -> Result<(), Fail> {
    let alloc = rt.alloc();
    let head = b"FAIMJRN1\0\0\0\0\0\0\0\0\xa5\0\0\0\x01C";
    for (tail, place) in [
        (b"".as_slice(), 22),
        (b"\xa5".as_slice(), 22),
        (b"\xa5\0\0\0\0".as_slice(), 22),
        (b"\xa5\0\x02\0\x01".as_slice(), 22),
        (b"\xa5\xff\xff\xff\xff".as_slice(), 22),
        (b"\xa5\0\0\x10\0".as_slice(), 22),
        (b"\xa5\0\0\0\x01x".as_slice(), 28),
    ] {
        let mut site = MemSite::new(alloc, Places::new(alloc));
        assert!(rt; site.write_at(0, head.as_slice()).is_ok());
        assert!(rt; site.write_at(22, tail).is_ok());
        let mut visit = Lengths {
            seen: Vec::new(alloc),
        };
        match resume(alloc, &mut site, &mut visit) {
            Err(ResumeFault::Damaged { place: found }) => assert!(rt; found == place, "{found}"),
            _ => assert!(rt; false),
        }
    }
    let mut site = MemSite::new(alloc, Places::new(alloc));
    assert!(rt; site.write_at(0, b"FAIMJRN2".as_slice()).is_ok());
    let mut visit = Lengths {
        seen: Vec::new(alloc),
    };
    match resume(alloc, &mut site, &mut visit) {
        Err(ResumeFault::NoHeader) => {}
        _ => assert!(rt; false),
    }
    Ok(())
}

#[test]
fn the_text_of_a_fault_is_its_name(rt: HostRuntime) -> Result<(), Fail> {
    let alloc = rt.alloc();
    let full = AppendFault::JournalFull { tail: 17, need: 6 };
    for (text, name) in [
        (CreateFault::SiteFault.to_string(alloc)?, "SiteFault"),
        (CreateFault::NotEmpty.to_string(alloc)?, "NotEmpty"),
        (CreateFault::NoMemory.to_string(alloc)?, "NoMemory"),
        (ResumeFault::SiteFault.to_string(alloc)?, "SiteFault"),
        (ResumeFault::NoHeader.to_string(alloc)?, "NoHeader"),
        (
            ResumeFault::Damaged { place: 16 }.to_string(alloc)?,
            "Damaged",
        ),
        (ResumeFault::NoMemory.to_string(alloc)?, "NoMemory"),
        (AppendFault::SiteFault.to_string(alloc)?, "SiteFault"),
        (full.to_string(alloc)?, "JournalFull"),
        (VisitFault::Bad.to_string(alloc)?, "Bad"),
        (VisitFault::NoMemory.to_string(alloc)?, "NoMemory"),
    ] {
        assert!(rt; text.as_str() == name, "{name}");
    }
    Ok(())
}
