// One call fails, each in turn, of the site, the clock and the source.
use super::{
    ACK, ACK_AGAIN, OUTPUT, PAYMENT, answers_again, clock_of, has_sent_first, has_size, made,
    served, source_of,
};
use crate::{SessionEnd, serve};
use site_core::MemSite;
use std::alloc::Global;
use std::test::Fail;

// The session reads its image by five calls, records the payment by four, and sends two frames.
#[test]
fn a_failing_device_call_ends_a_session_and_the_next_one_posts_once(
    rt: HostRuntime,
) -> Result<(), Fail> {
    let alloc = rt.alloc();
    let disk = Err(SessionEnd::DiskFault);
    let line = Err(SessionEnd::LineFault);
    for (call, end, sent, size, entries) in [
        (1, disk, 0, 100, 0),
        (2, disk, 0, 100, 0),
        (3, disk, 0, 100, 0),
        (4, disk, 0, 100, 0),
        (5, disk, 0, 100, 0),
        (6, disk, 0, 100, 0),
        (7, disk, 0, 307, 0),
        (8, disk, 0, 307, 0),
        (9, disk, 0, 307, 1),
        (10, line, 0, 307, 1),
        (11, line, 1, 307, 1),
        (0, Ok(()), 2, 307, 1),
    ] {
        let mut site = made(alloc, call)?;
        assert_eq!(rt;
            served(alloc, &mut site, &[PAYMENT])?,
            end,
            "at call {call}"
        );
        assert!(rt;
            has_sent_first(&site, 0, &[ACK, OUTPUT], sent),
            "at call {call}"
        );
        assert!(rt; has_size(&mut site, size), "at call {call}");
        assert!(rt; answers_again(alloc, &mut site, entries)?, "at call {call}");
    }
    Ok(())
}

// How a session ends that reads the payment twice, a frame at a time, by a source and a clock that fail at these calls.
fn twice_served(
    alloc: Global,
    site: &mut MemSite,
    read: usize,
    reading: usize,
) -> Result<Result<(), SessionEnd>, Fail> {
    let mut source = source_of(alloc, &[PAYMENT, PAYMENT], PAYMENT.len(), &[read])?;
    let mut clock = clock_of(alloc, &[reading])?;
    Ok(serve(alloc, &mut source, site, &mut clock))
}

#[test]
fn the_frames_before_a_failing_read_or_reading_are_handled(rt: HostRuntime) -> Result<(), Fail> {
    let alloc = rt.alloc();
    for (read, reading, end, sent, size) in [
        (1, 0, Err(SessionEnd::ReadFault), 0, 100),
        (2, 0, Err(SessionEnd::ReadFault), 2, 307),
        (3, 0, Err(SessionEnd::ReadFault), 3, 307),
        (0, 1, Err(SessionEnd::ClockFault), 0, 100),
        (0, 2, Err(SessionEnd::ClockFault), 2, 307),
        (4, 3, Ok(()), 3, 307),
    ] {
        let mut site = made(alloc, 0)?;
        assert_eq!(rt; twice_served(alloc, &mut site, read, reading)?, end);
        assert!(rt;
            has_sent_first(&site, 0, &[ACK, OUTPUT, ACK_AGAIN], sent),
            "at {read}, {reading}"
        );
        assert!(rt; has_size(&mut site, size), "at {read}, {reading}");
    }
    Ok(())
}
