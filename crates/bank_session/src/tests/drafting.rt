// A draft is kept once, submitted, and submitted again until it is answered.
use super::{
    ACK, ASKED, DRAFT, SUBMITTED, SUBMITTED_AGAIN, TICK, has_record, has_sent, has_size, made,
    served, source_of,
};
use crate::serve;
use site_core::{MemSite, Site};
use std::alloc::Global;
use std::test::Fail;

#[test]
fn a_draft_is_kept_and_submitted(rt: HostRuntime) -> Result<(), Fail> {
    let alloc = rt.alloc();
    for size in [1, 2, 13, 119, 4_096] {
        let mut site = made(alloc, b"BANKA001", 0)?;
        assert!(rt; has_size(&mut site, 36));
        let mut source = source_of(alloc, &[DRAFT], size, &[])?;
        assert_eq!(rt;
            serve(alloc, &mut source, &mut site),
            Ok(()),
            "in pieces of {size}"
        );
        assert!(rt; has_sent(&site, 0, &[SUBMITTED]), "in pieces of {size}");
        assert!(rt; has_size(&mut site, 186) && has_record(&mut site));
    }
    Ok(())
}

#[test]
fn a_resume_sends_nothing_and_a_reminder_submits_again(rt: HostRuntime) -> Result<(), Fail> {
    let alloc = rt.alloc();
    let mut site = made(alloc, b"BANKA001", 0)?;
    assert_eq!(rt; served(alloc, &mut site, &[DRAFT])?, Ok(()));
    assert_eq!(rt; served(alloc, &mut site, &[])?, Ok(()));
    assert!(rt; has_sent(&site, 1, &[]));
    assert_eq!(rt; served(alloc, &mut site, &[TICK])?, Ok(()));
    assert!(rt; has_sent(&site, 1, &[SUBMITTED_AGAIN, ASKED]));
    assert!(rt; has_size(&mut site, 186) && has_record(&mut site));
    Ok(())
}

#[test]
fn an_answered_draft_is_submitted_no_more(rt: HostRuntime) -> Result<(), Fail> {
    let alloc = rt.alloc();
    let mut site = made(alloc, b"BANKA001", 0)?;
    assert_eq!(rt; served(alloc, &mut site, &[DRAFT, ACK, TICK])?, Ok(()));
    assert!(rt; has_sent(&site, 0, &[SUBMITTED, ASKED]));
    let size = site_size(&mut site)?;
    assert_eq!(rt; served(alloc, &mut site, &[ACK, TICK, ACK])?, Ok(()));
    assert!(rt; has_sent(&site, 2, &[ASKED]) && has_size(&mut site, size));
    Ok(())
}

fn site_size(site: &mut MemSite) -> Result<u64, Fail> {
    Ok(site.size().or(Err("a size"))?)
}
