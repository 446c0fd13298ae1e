// Drafts are numbered, submitted, submitted again, and answered.
use super::{
    ASKED_FROM_ONE, DRAFT, NUMBERED, OPENING, RECORD, REPEATED, SUBMITTED, SUBMITTED_AGAIN, TAKEN,
    Told, has_outcome, has_sent, made, resumed,
};
use faim_base::before;
use link_frames::FrameKind;
use site_core::{MemSite, Site, StopSite};
use std::alloc::Global;
use std::test::Fail;

// Whether the image has so many bytes.
pub(super) fn has_size(site: &mut MemSite, size: u64) -> bool {
    match site.size() {
        Ok(found) => found == size,
        Err(_) => false,
    }
}

// Whether the image has the record of the draft behind the opening, and a closed gate behind that.
fn has_draft(site: &mut MemSite) -> bool {
    let mut found = [0; 151];
    match site.read_at(OPENING as u64, &mut found) {
        Ok(151) => before(&found, 150) == RECORD && found[150] == 0,
        Ok(_) => false,
        Err(_) => false,
    }
}

// Drafts the first draft.
pub(super) fn drafts(alloc: Global, site: &mut MemSite) -> Result<bool, Fail> {
    has_outcome(alloc, site, FrameKind::Draft, DRAFT, (b'D', 8_767, 1))
}

// Whether the bank that the site has keeps one draft, with its text, so many of them unanswered.
fn keeps_draft(alloc: Global, site: &mut MemSite, unanswered: usize) -> Result<bool, Fail> {
    let bank = resumed(alloc, site)?;
    let books = bank.books();
    let text = match books.draft(0) {
        Some(text) => text == NUMBERED,
        None => false,
    };
    Ok(text && books.drafts() == 1 && books.inbox() == 0 && books.open_count() == unanswered)
}

#[test]
fn a_draft_is_kept_and_submitted(rt: HostRuntime) -> Result<(), Fail> {
    let alloc = rt.alloc();
    let mut site = made(alloc, b"BANKA001", 0)?;
    assert!(rt; has_size(&mut site, 36));
    assert!(rt; drafts(alloc, &mut site)?);
    assert!(rt; has_sent(&site, 0, &[SUBMITTED]));
    assert!(rt; has_size(&mut site, 186) && has_draft(&mut site));
    assert!(rt; keeps_draft(alloc, &mut site, 1)?);
    Ok(())
}

#[test]
fn a_tick_submits_what_has_no_answer_and_asks_for_what_is_wanted(
    rt: HostRuntime,
) -> Result<(), Fail> {
    let alloc = rt.alloc();
    let mut site = made(alloc, b"BANKA001", 0)?;
    assert!(rt; drafts(alloc, &mut site)?);
    assert!(rt;
        has_outcome(
            alloc,
            &mut site,
            FrameKind::Tick,
            b"any payload",
            (b'T', 0, 1)
        )?
    );
    assert!(rt; has_sent(&site, 1, &[SUBMITTED_AGAIN, ASKED_FROM_ONE]));
    assert!(rt; has_size(&mut site, 186));
    Ok(())
}

#[test]
fn a_draft_is_answered_once(rt: HostRuntime) -> Result<(), Fail> {
    let alloc = rt.alloc();
    let mut site = made(alloc, b"BANKA001", 0)?;
    assert!(rt; drafts(alloc, &mut site)?);
    for outcome in [(b'A', 8_767, 1), REPEATED] {
        assert!(rt; has_outcome(alloc, &mut site, FrameKind::Ack, TAKEN, outcome)?);
    }
    assert!(rt; has_size(&mut site, 213));
    assert!(rt; keeps_draft(alloc, &mut site, 0)?);
    assert!(rt; has_outcome(alloc, &mut site, FrameKind::Tick, b"", (b'T', 0, 0))?);
    assert!(rt; has_sent(&site, 1, &[ASKED_FROM_ONE]));
    Ok(())
}

#[test]
fn a_draft_of_another_env_and_mark_is_taken_and_what_is_none_is_refused(
    rt: HostRuntime,
) -> Result<(), Fail> {
    let alloc = rt.alloc();
    let mut site = made(alloc, b"BANKA001", 0)?;
    let other: &[u8] =
        b"{1500}30USERREQ1PP{1510}1000{2000}000000150000{3100}021000021ALPHA BANK*{3400}121042882BETA BANK*{3600}BTR";
    assert!(rt; has_outcome(alloc, &mut site, FrameKind::Draft, other, (b'D', 8_767, 1))?);
    let faults: [(&[u8], Told); 4] = [
        (NUMBERED, (b'B', 29, 0)),
        (b"{1500}30USERREQ1T {1", (b'C', 0, 0)),
        (b"", (b'C', 0, 0)),
        (b"{1500}30USERREQ1T {2000}000000150000", (b'M', 1_510, 0)),
    ];
    for (text, fault) in faults {
        assert!(rt; has_outcome(alloc, &mut site, FrameKind::Draft, text, fault)?);
    }
    assert!(rt; has_size(&mut site, 186));
    Ok(())
}
