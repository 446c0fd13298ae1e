// A stop at each device call, with the tears of docs/FORMATS.md, "Tears".
use super::{DRAFT, SUBMITTED, has_sent_first, made, reminds, served};
use crate::SessionEnd;
use site_core::{MemSite, StopSite};
use std::alloc::Global;
use std::test::Fail;

// The last two read as an open gate and as a closed one.
const TEARS: [u64; 5] = [0, 1, 2, 165, 255];

// How a session ends that reads the draft and is stopped at this call; the site restarts after it.
fn stopped_at(
    alloc: Global,
    site: &mut MemSite,
    call: u64,
    tear: u64,
) -> Result<Result<(), SessionEnd>, Fail> {
    if site.stopped() {
        return Err(Fail::from("a site that goes on"));
    }
    site.arm(call, tear);
    let end = served(alloc, site, &[DRAFT])?;
    site.restart();
    Ok(end)
}

// The first tear at which a stop of a session leaves something else than so many frames that were sent, and an image that has the
// draft already or not, 1 or 0.
fn first_amiss(
    alloc: Global,
    call: u64,
    end: Result<(), SessionEnd>,
    left: &[(usize, usize); 5],
) -> Result<Option<u64>, Fail> {
    for (tear, (sent, entries)) in TEARS.iter().zip(left.iter()) {
        let mut site = made(alloc, b"BANKA001", 0)?;
        let found = stopped_at(alloc, &mut site, call, *tear)?;
        let is_so = found == end && has_sent_first(&site, 0, &[SUBMITTED], *sent);
        if !is_so || !reminds(alloc, &mut site, *entries)? {
            return Ok(Some(*tear));
        }
    }
    Ok(None)
}

#[test]
fn a_draft_that_is_out_is_kept_whatever_stops(rt: HostRuntime) -> Result<(), Fail> {
    let alloc = rt.alloc();
    let disk = Err(SessionEnd::DiskFault);
    let line = Err(SessionEnd::LineFault);
    for (call, end, left) in [
        (1, disk, [(0, 0); 5]),
        (2, disk, [(0, 0); 5]),
        (3, disk, [(0, 0); 5]),
        (4, disk, [(0, 0); 5]),
        (5, disk, [(0, 0); 5]),
        (6, disk, [(0, 0); 5]),
        (7, disk, [(0, 0); 5]),
        (8, disk, [(0, 0), (0, 1), (0, 0), (0, 1), (0, 0)]),
        (9, disk, [(0, 0), (0, 1), (0, 0), (0, 1), (0, 0)]),
        (10, line, [(0, 1), (1, 1), (0, 1), (1, 1), (1, 1)]),
        (11, Ok(()), [(1, 1); 5]),
    ] {
        assert_eq!(rt;
            first_amiss(alloc, call, end, &left)?,
            None,
            "at call {call}"
        );
    }
    Ok(())
}
