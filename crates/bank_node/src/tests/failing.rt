// One device call fails, each in turn, while a draft is handled, and the bank goes on after it.
use super::drafts::{drafts, has_size};
use super::{
    ASKED_FROM_ONE, DRAFT, SUBMITTED, SUBMITTED_AGAIN, answers, has_outcome, has_sent, made,
    resumed,
};
use crate::BankFault;
use link_frames::FrameKind;
use site_core::{MemSite, StopSite};
use std::alloc::Global;
use std::test::Fail;

// What is left of handling a draft: the fault, how many frames were sent, the size of the image, and how many drafts are kept.
type Left = (Option<BankFault>, u64, u64, usize);

fn handles(alloc: Global, site: &mut MemSite) -> Result<Option<BankFault>, Fail> {
    match answers(alloc, site, FrameKind::Draft, DRAFT)? {
        Ok(_) => Ok(None),
        Err(fault) => Ok(Some(fault)),
    }
}

fn left_at(alloc: Global, call: usize) -> Result<Left, Fail> {
    let mut site = made(alloc, b"BANKA001", call)?;
    let fault = handles(alloc, &mut site)?;
    let sent = site.sent_count();
    let size = if has_size(&mut site, 36) { 36 } else { 186 };
    let kept = resumed(alloc, &mut site)?.books().drafts();
    Ok((fault, sent, size, kept))
}

// The image is read by five calls; the draft is kept by four, and submitted by one.
#[test]
fn a_failing_device_call_keeps_a_draft_or_none_and_no_number_is_used_twice(
    rt: HostRuntime,
) -> Result<(), Fail> {
    let alloc = rt.alloc();
    let disk = Some(BankFault::SiteFault);
    let line = Some(BankFault::LineFault);
    for (call, left) in [
        (6, (disk, 0, 36, 0)),
        (7, (disk, 0, 186, 0)),
        (8, (disk, 0, 186, 0)),
        (9, (disk, 0, 186, 1)),
        (10, (line, 0, 186, 1)),
        (0, (None, 1, 186, 1)),
    ] {
        assert_eq!(rt; left_at(alloc, call)?, left, "at call {call}");
        assert!(rt; goes_on(alloc, call, left.3)?, "at call {call}");
    }
    Ok(())
}

// Whether the bank then drafts under the next number, and submits all that it keeps when it is reminded.
fn goes_on(alloc: Global, call: usize, kept: usize) -> Result<bool, Fail> {
    let mut site = made(alloc, b"BANKA001", call)?;
    let _ = handles(alloc, &mut site)?;
    let before = site.sent_count();
    if kept == 0 {
        return Ok(drafts(alloc, &mut site)? && has_sent(&site, before, &[SUBMITTED]));
    }
    let ticked = has_outcome(alloc, &mut site, FrameKind::Tick, b"", (b'T', 0, 1))?;
    let resent = has_sent(&site, before, &[SUBMITTED_AGAIN, ASKED_FROM_ONE]);
    let second = (b'D', 8_767, 2);
    Ok(ticked && resent && has_outcome(alloc, &mut site, FrameKind::Draft, DRAFT, second)?)
}
