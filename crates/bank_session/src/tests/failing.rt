// One call fails, each in turn, of the site and of the source.
use super::{
    ASKED, DRAFT, SUBMITTED, SUBMITTED_AGAIN, TICK, has_sent_first, has_size, made, reminds,
    served, source_of,
};
use crate::{SessionEnd, serve};
use std::test::Fail;

// The session reads its image by five calls, records the draft by four, and sends one frame.
#[test]
fn a_failing_device_call_ends_a_session_and_the_next_one_goes_on(
    rt: HostRuntime,
) -> Result<(), Fail> {
    let alloc = rt.alloc();
    let disk = Err(SessionEnd::DiskFault);
    for (call, end, sent, size, entries) in [
        (1, disk, 0, 36, 0),
        (2, disk, 0, 36, 0),
        (3, disk, 0, 36, 0),
        (4, disk, 0, 36, 0),
        (5, disk, 0, 36, 0),
        (6, disk, 0, 36, 0),
        (7, disk, 0, 186, 0),
        (8, disk, 0, 186, 0),
        (9, disk, 0, 186, 1),
        (10, Err(SessionEnd::LineFault), 0, 186, 1),
        (0, Ok(()), 1, 186, 1),
    ] {
        let mut site = made(alloc, b"BANKA001", call)?;
        assert_eq!(rt; served(alloc, &mut site, &[DRAFT])?, end, "at call {call}");
        assert!(rt;
            has_sent_first(&site, 0, &[SUBMITTED], sent),
            "at call {call}"
        );
        assert!(rt; has_size(&mut site, size), "at call {call}");
        assert!(rt; reminds(alloc, &mut site, entries)?, "at call {call}");
    }
    Ok(())
}

#[test]
fn the_frames_before_a_failing_read_are_handled(rt: HostRuntime) -> Result<(), Fail> {
    let alloc = rt.alloc();
    for (read, end, sent, size) in [
        (1, Err(SessionEnd::ReadFault), 0, 36),
        (2, Err(SessionEnd::ReadFault), 1, 186),
        (3, Err(SessionEnd::ReadFault), 3, 186),
        (4, Ok(()), 3, 186),
    ] {
        let mut site = made(alloc, b"BANKA001", 0)?;
        let mut source = source_of(alloc, &[DRAFT, TICK], DRAFT.len(), &[read])?;
        assert_eq!(rt; serve(alloc, &mut source, &mut site), end, "at read {read}");
        assert!(rt;
            has_sent_first(&site, 0, &[SUBMITTED, SUBMITTED_AGAIN, ASKED], sent),
            "at read {read}"
        );
        assert!(rt; has_size(&mut site, size), "at read {read}");
    }
    Ok(())
}
