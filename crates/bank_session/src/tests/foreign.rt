// Images that are no bank's, and entries that no bank makes.
use super::{DRAFT, OPENING, RECORD, SUBMITTED, has_sent_first, has_size, made, served};
use crate::SessionEnd;
use faim_base::Places;
use site_core::{MemSite, Site};
use std::alloc::Global;
use std::test::Fail;

// The first bytes of the image of a bank with no entry, so many, and then others.
fn begun(alloc: Global, count: usize, others: &[u8]) -> Result<MemSite, Fail> {
    let mut whole = made(alloc, b"BANKA001", 0)?;
    let mut image = [0; 36];
    let found = whole.read_at(0, &mut image).or(Err("a read"))?;
    if found != 36 || 36 < count {
        return Err(Fail::from("so many bytes"));
    }
    let mut site = MemSite::new(alloc, Places::new(alloc));
    site.write_at(0, &image[..count]).or(Err("a write"))?;
    site.write_at(count as u64, others).or(Err("a write"))?;
    Ok(site)
}

#[test]
fn an_image_that_is_no_journal_of_a_bank_is_told_and_left(rt: HostRuntime) -> Result<(), Fail> {
    let alloc = rt.alloc();
    let none = Err(SessionEnd::NoJournal);
    let first = Err(SessionEnd::Damaged { place: 16 });
    let tail = Err(SessionEnd::Damaged { place: 35 });
    let images: [(usize, &[u8], Result<(), SessionEnd>, usize, u64); 9] = [
        (0, b"", none, 0, 0),
        (0, b"FAIMJRN2\0\0\0\0\0\0\0\0\0", none, 0, 17),
        (15, b"", none, 0, 15),
        (16, b"", first, 0, 16),
        (16, b"\0", first, 0, 17),
        (16, b"\xa5\0\0\0\x01B\0", first, 0, 23),
        (35, b"", tail, 0, 35),
        (35, b"\xa5\0\0\0\0", tail, 0, 40),
        (35, b"\x5a\0\0\x10\0", Ok(()), 1, 186),
    ];
    for (count, others, end, sent, size) in images {
        let mut site = begun(alloc, count, others)?;
        assert_eq!(rt; served(alloc, &mut site, &[DRAFT])?, end, "from {count}");
        assert!(rt;
            has_sent_first(&site, 0, &[SUBMITTED], sent),
            "from {count}"
        );
        assert!(rt; has_size(&mut site, size), "from {count}");
    }
    Ok(())
}

// The image of a bank with these two records; one of no bytes is none.
fn behind(alloc: Global, first: &[u8], second: &[u8]) -> Result<MemSite, Fail> {
    let mut site = begun(alloc, OPENING, first)?;
    let next = (OPENING as u64).saturating_add(first.len() as u64);
    site.write_at(next, second).or(Err("a write"))?;
    let tail = next.saturating_add(second.len() as u64);
    site.write_at(tail, b"\0").or(Err("a write"))?;
    Ok(site)
}

// The same draft under number 2.
const SECOND: &[u8] =
    b"\xa5\0\0\0\x91D\0\0\x22\x3f\0\0\0\x02\0\x86{1500}30USERREQ1T {1510}1000{1520}20240102BANKA001000002{2000}000000150000{3100}021000021ALPHA BANK*{3400}121042882BETA BANK*{3600}BTR";

#[test]
fn a_draft_whose_number_is_not_the_next_is_damage_at_its_gate(rt: HostRuntime) -> Result<(), Fail> {
    let alloc = rt.alloc();
    let first = Err(SessionEnd::Damaged { place: 35 });
    let records: [(&[u8], &[u8], Result<(), SessionEnd>); 4] = [
        (RECORD, b"", Ok(())),
        (RECORD, SECOND, Ok(())),
        (RECORD, RECORD, Err(SessionEnd::Damaged { place: 185 })),
        (SECOND, b"", first),
    ];
    for (former, latter, end) in records {
        let mut site = behind(alloc, former, latter)?;
        assert_eq!(rt; served(alloc, &mut site, &[])?, end);
        assert!(rt; has_sent_first(&site, 0, &[], 0));
    }
    Ok(())
}
