// A stop at each device call, with the tears of docs/FORMATS.md, "Tears".
use super::{
    ACK, ACK_AGAIN, OUTPUT, OUTPUT_AGAIN, PAYMENT, answers_again, has_sent_first, made, served,
};
use crate::SessionEnd;
use site_core::{MemSite, StopSite};
use std::alloc::Global;
use std::test::Fail;

// The last two read as an open gate and as a closed one.
const TEARS: [u64; 5] = [0, 1, 2, 165, 255];

// How a session ends that reads the payment and is stopped at this call; the site restarts after it.
fn stopped_at(
    alloc: Global,
    site: &mut MemSite,
    call: u64,
    tear: u64,
) -> Result<Result<(), SessionEnd>, Fail> {
    if site.stopped() {
        return Err(Fail::from("a site that goes on"));
    }
    site.arm(call, tear);
    let end = served(alloc, site, &[PAYMENT])?;
    site.restart();
    Ok(end)
}

// The first tear at which a stop of a session leaves something else than so many frames that were sent, and an image that has the
// payment already or not, 1 or 0.
fn first_amiss(
    alloc: Global,
    call: u64,
    end: Result<(), SessionEnd>,
    left: &[(usize, usize); 5],
) -> Result<Option<u64>, Fail> {
    for (tear, (sent, entries)) in TEARS.iter().zip(left.iter()) {
        let mut site = made(alloc, 0)?;
        let found = stopped_at(alloc, &mut site, call, *tear)?;
        let is_so = found == end && has_sent_first(&site, 0, &[ACK, OUTPUT], *sent);
        if !is_so || !answers_again(alloc, &mut site, *entries)? {
            return Ok(Some(*tear));
        }
    }
    Ok(None)
}

#[test]
fn a_stop_keeps_what_was_acknowledged(rt: HostRuntime) -> Result<(), Fail> {
    let alloc = rt.alloc();
    let disk = Err(SessionEnd::DiskFault);
    let line = Err(SessionEnd::LineFault);
    for (call, end, left) in [
        (1, disk, [(0, 0); 5]),
        (2, disk, [(0, 0); 5]),
        (3, disk, [(0, 0); 5]),
        (4, disk, [(0, 0); 5]),
        (5, disk, [(0, 0); 5]),
        (6, disk, [(0, 0); 5]),
        (7, disk, [(0, 0); 5]),
        (8, disk, [(0, 0), (0, 1), (0, 0), (0, 1), (0, 0)]),
        (9, disk, [(0, 0), (0, 1), (0, 0), (0, 1), (0, 0)]),
        (10, line, [(0, 1), (1, 1), (0, 1), (1, 1), (1, 1)]),
        (11, line, [(1, 1), (2, 1), (1, 1), (2, 1), (2, 1)]),
        (12, Ok(()), [(2, 1); 5]),
    ] {
        assert_eq!(rt;
            first_amiss(alloc, call, end, &left)?,
            None,
            "at call {call}"
        );
    }
    Ok(())
}

// The session reads an image of the payment by seven calls, sends two frames again, and answers once more.
#[test]
fn a_stop_while_frames_are_sent_again_changes_nothing(rt: HostRuntime) -> Result<(), Fail> {
    let alloc = rt.alloc();
    let disk = Err(SessionEnd::DiskFault);
    let line = Err(SessionEnd::LineFault);
    for (call, tear, end, sent) in [
        (1, 1, disk, 0),
        (2, 165, disk, 0),
        (7, 0, disk, 0),
        (8, 0, line, 0),
        (8, 1, line, 1),
        (9, 0, line, 1),
        (9, 255, line, 2),
        (10, 2, line, 2),
        (10, 3, line, 3),
        (11, 1, Ok(()), 3),
    ] {
        let mut site = made(alloc, 0)?;
        assert_eq!(rt; served(alloc, &mut site, &[PAYMENT])?, Ok(()));
        assert_eq!(rt;
            stopped_at(alloc, &mut site, call, tear)?,
            end,
            "at {call}, {tear}"
        );
        assert!(rt;
            has_sent_first(&site, 2, &[ACK_AGAIN, OUTPUT_AGAIN, ACK_AGAIN], sent),
            "at {call}, {tear}"
        );
        assert!(rt; answers_again(alloc, &mut site, 1)?, "at {call}, {tear}");
    }
    Ok(())
}
