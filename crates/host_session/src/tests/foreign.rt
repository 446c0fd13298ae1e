// Images that are no host's, and entries that no host makes.
use super::{ACK, OPENING, OUTPUT, PAYMENT, RECORD, has_sent_first, has_size, made, served};
use crate::SessionEnd;
use faim_base::Places;
use site_core::{MemSite, Site, StopSite};
use std::alloc::Global;
use std::test::Fail;

// The first bytes of the image of a host with no entry, so many, and then others.
fn begun(alloc: Global, count: usize, others: &[u8]) -> Result<MemSite, Fail> {
    let mut whole = made(alloc, 0)?;
    let mut image = [0; 100];
    let found = whole.read_at(0, &mut image).or(Err("a read"))?;
    if found != 100 || 100 < count {
        return Err(Fail::from("so many bytes"));
    }
    let mut site = MemSite::new(alloc, Places::new(alloc));
    site.write_at(0, &image[..count]).or(Err("a write"))?;
    site.write_at(count as u64, others).or(Err("a write"))?;
    Ok(site)
}

// The last image is a journal: its gate is closed, and what stands behind it means nothing.
#[test]
fn an_image_that_is_no_journal_is_told_and_left(rt: HostRuntime) -> Result<(), Fail> {
    let alloc = rt.alloc();
    let none = Err(SessionEnd::NoJournal);
    let first = Err(SessionEnd::Damaged { place: 16 });
    let tail = Err(SessionEnd::Damaged { place: 99 });
    let images: [(usize, &[u8], Result<(), SessionEnd>, usize, u64); 10] = [
        (0, b"", none, 0, 0),
        (0, b"FAIMJRN2\0\0\0\0\0\0\0\0\0", none, 0, 17),
        (15, b"", none, 0, 15),
        (16, b"", first, 0, 16),
        (16, b"\0", first, 0, 17),
        (17, b"\0\0\0\0", first, 0, 21),
        (99, b"", tail, 0, 99),
        (99, b"\xa5\0\0\x10\0", tail, 0, 104),
        (99, b"\xa5\0\0\0\0", tail, 0, 104),
        (99, b"\x5a\0\0\x10\0", Ok(()), 2, 307),
    ];
    for (count, others, end, sent, size) in images {
        let mut site = begun(alloc, count, others)?;
        assert_eq!(rt; served(alloc, &mut site, &[PAYMENT])?, end, "from {count}");
        assert!(rt;
            has_sent_first(&site, 0, &[ACK, OUTPUT], sent),
            "from {count}"
        );
        assert!(rt; has_size(&mut site, size), "from {count}");
    }
    Ok(())
}

// The image of a host with these two records; one of no bytes is none.
fn behind(alloc: Global, first: &[u8], second: &[u8]) -> Result<MemSite, Fail> {
    let mut site = begun(alloc, OPENING, first)?;
    let next = (OPENING as u64).saturating_add(first.len() as u64);
    site.write_at(next, second).or(Err("a write"))?;
    let tail = next.saturating_add(second.len() as u64);
    site.write_at(tail, b"\0").or(Err("a write"))?;
    Ok(site)
}

// The gate behind the payment's record is at 306, and that behind a new cycle date's at 113.
#[test]
fn an_entry_that_may_not_come_is_damage_at_its_gate(rt: HostRuntime) -> Result<(), Fail> {
    let alloc = rt.alloc();
    let roll: &[u8] = b"\xa5\0\0\0\x09R\0\xc0\xa4\x9a\0\0\x22\x40";
    let first = Err(SessionEnd::Damaged { place: 99 });
    let records: [(&[u8], &[u8], Result<(), SessionEnd>, u64); 9] = [
        (RECORD, b"", Ok(()), 2),
        (RECORD, RECORD, Err(SessionEnd::Damaged { place: 306 }), 0),
        (roll, b"", Ok(()), 2),
        (RECORD, roll, Ok(()), 2),
        (roll, RECORD, Err(SessionEnd::Damaged { place: 113 }), 0),
        (roll, roll, Err(SessionEnd::Damaged { place: 113 }), 0),
        (b"\xa5\0\0\0\x09R\0\xc0\xa4\x9a\0\0\x22\x3f", b"", first, 0),
        (b"\xa5\0\0\0\x09R\0\xc0\xa4\x9a\0\0\x22\x3e", b"", first, 0),
        (
            RECORD,
            b"\xa5\0\0\0\x09R\0\xc0\xa4\x99\0\0\x22\x40",
            Err(SessionEnd::Damaged { place: 306 }),
            0,
        ),
    ];
    for (former, latter, end, sent) in records {
        let mut site = behind(alloc, former, latter)?;
        assert_eq!(rt; served(alloc, &mut site, &[])?, end);
        assert_eq!(rt; site.sent_count(), sent);
    }
    Ok(())
}

// The image with the payment, one byte of it another.
#[test]
fn a_payment_that_was_changed_is_damage(rt: HostRuntime) -> Result<(), Fail> {
    let alloc = rt.alloc();
    let first = Err(SessionEnd::Damaged { place: 99 });
    let bytes: [(u64, &[u8; 1], Result<(), SessionEnd>); 16] = [
        (0, b"f", Err(SessionEnd::NoJournal)),
        (21, b"D", Err(SessionEnd::Damaged { place: 16 })),
        (99, b"\0", Ok(())),
        (103, b"\xc9", first),
        (104, b"Q", first),
        (120, b"\x02", first),
        (129, b"2", first),
        (151, b"\xf1", first),
        (152, b"\x02", first),
        (153, b"\xff", first),
        (157, b"\x03", first),
        (165, b"2", first),
        (169, b"\x02", first),
        (171, b"\x85", first),
        (172, b"[", first),
        (306, b"\xa5", Err(SessionEnd::Damaged { place: 306 })),
    ];
    for (place, byte, end) in bytes {
        let mut site = behind(alloc, RECORD, b"")?;
        site.write_at(place, byte).or(Err("a write"))?;
        assert_eq!(rt; served(alloc, &mut site, &[])?, end, "at {place}");
        assert!(rt;
            site.sent_count() == 0 && has_size(&mut site, 307),
            "at {place}"
        );
    }
    Ok(())
}
