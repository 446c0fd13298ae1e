// Frames that a bank takes nothing from, and what is no frame.
use super::{DRAFT, SUBMITTED, has_record, has_sent, has_size, made, served};
use crate::SessionEnd;
use link_frames::FrameFault;
use std::test::Fail;

#[test]
fn frames_that_a_bank_takes_nothing_from_change_and_send_nothing(
    rt: HostRuntime,
) -> Result<(), Fail> {
    let alloc = rt.alloc();
    let frames: [&[u8]; 9] = [
        b"\0\0\0\x09\x01BANKA001",
        b"\0\0\0\x17\x02BANKA00120240102000001",
        b"\0\0\0\x11\x05OPERATOR20240103",
        b"\0\0\0\x09\x03BANKA001",
        b"\0\0\0\x09\x04BANKA001",
        b"\0\0\0\x09\x06BANKA001",
        b"\0\0\0\x09\x06BANKB001",
        b"\0\0\0\x09\x07BANKB001",
        b"\0\0\0\x6a\x03BANKA001{1100}30T 2{1110}01020930FAIM{1120}20240102BANKB00100000101020930FAIM{1520}20240102BANKA001000001",
    ];
    for frame in frames {
        let mut site = made(alloc, b"BANKA001", 0)?;
        assert_eq!(rt; served(alloc, &mut site, &[frame])?, Ok(()));
        assert!(rt; has_sent(&site, 0, &[]) && has_size(&mut site, 36));
        assert_eq!(rt; served(alloc, &mut site, &[frame, DRAFT])?, Ok(()));
        assert!(rt; has_sent(&site, 0, &[SUBMITTED]) && has_record(&mut site));
    }
    Ok(())
}

// The frames before what is none are handled.
#[test]
fn what_is_no_frame_ends_a_session(rt: HostRuntime) -> Result<(), Fail> {
    let alloc = rt.alloc();
    let rests: [(&[u8], FrameFault); 6] = [
        (b"\0\0\0\x08", FrameFault::BadLength(8)),
        (b"\0\0\x20\x0a", FrameFault::BadLength(8_202)),
        (b"\0\0\0\x09\0", FrameFault::BadKind(0)),
        (b"\0\0\0\x09\x08", FrameFault::BadKind(8)),
        (b"\0\0\0\x09\x07BANKA 01", FrameFault::BadEndpoint),
        (b"\0\0\0\x09\x07BANKA00", FrameFault::CutFrame(12)),
    ];
    for (rest, fault) in rests {
        let mut site = made(alloc, b"BANKA001", 0)?;
        let end = served(alloc, &mut site, &[DRAFT, rest])?;
        assert_eq!(rt; end, Err(SessionEnd::Frame(fault)));
        assert!(rt; has_sent(&site, 0, &[SUBMITTED]) && has_record(&mut site));
    }
    Ok(())
}
