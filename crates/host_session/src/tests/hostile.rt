// Frames that a host takes nothing from, and what is no frame.
use super::{ACK, OUTPUT, PAYMENT, has_payment, has_sent, has_sent_first, has_size, made, served};
use crate::SessionEnd;
use link_frames::FrameFault;
use std::test::Fail;

#[test]
fn strange_frames_change_and_send_nothing(rt: HostRuntime) -> Result<(), Fail> {
    let alloc = rt.alloc();
    let frames: [&[u8]; 10] = [
        b"\0\0\0\x09\x03BANKA001",
        b"\0\0\0\x09\x04BANKB001",
        b"\0\0\0\x09\x06BANKA001",
        b"\0\0\0\x09\x07BANKA001",
        b"\0\0\0\x11\x05BANKA00120240103",
        b"\0\0\0\x10\x05OPERATOR2024010",
        b"\0\0\0\x11\x05OPERATOR20240102",
        b"\0\0\0\x17\x02BANKB00120240102000000",
        b"\0\0\0\x16\x02BANKB0012024010200001",
        b"\0\0\0\x17\x02BANKB00120240102000001",
    ];
    for frame in frames {
        let mut site = made(alloc, 0)?;
        assert_eq!(rt; served(alloc, &mut site, &[frame])?, Ok(()));
        assert!(rt; has_sent(&site, 0, &[]) && has_size(&mut site, 100));
        assert_eq!(rt; served(alloc, &mut site, &[frame, PAYMENT])?, Ok(()));
        assert!(rt; has_sent(&site, 0, &[ACK, OUTPUT]) && has_payment(&mut site));
    }
    Ok(())
}

#[test]
fn what_is_turned_away_is_answered_and_not_kept(rt: HostRuntime) -> Result<(), Fail> {
    let alloc = rt.alloc();
    let no_text: &[u8] =
        b"\0\0\0\x46\x03BANKA001{1100}30T 3{1110}01020930FAIM{1130}E001TEXT IS NOT A MESSAGE*";
    let cases: [(&[u8], &[u8]); 4] = [
        (b"\0\0\0\x09\x01BANKA001", no_text),
        (b"\0\0\0\x12\x01BANKA001{1500}30U", no_text),
        (b"\0\0\0\x0e\x01BANKA001HELLO", no_text),
        (
            b"\0\0\0\x8f\x01BANKB001{1500}30USERREQ1T {1510}1000{1520}20240102BANKA001000001{2000}000000150000{3100}021000021ALPHA BANK*{3400}121042882BETA BANK*{3600}BTR",
            b"\0\0\0\x6a\x03BANKB001{1100}30T 3{1110}01020930FAIM{1130}H102INPUT SOURCE IS NOT THIS LINE*{1520}20240102BANKA001000001",
        ),
    ];
    for (frame, answer) in cases {
        let mut site = made(alloc, 0)?;
        assert_eq!(rt; served(alloc, &mut site, &[frame])?, Ok(()));
        assert!(rt; has_sent(&site, 0, &[answer]) && has_size(&mut site, 100));
        assert_eq!(rt; served(alloc, &mut site, &[frame, PAYMENT])?, Ok(()));
        assert!(rt; has_sent(&site, 1, &[answer, ACK, OUTPUT]) && has_payment(&mut site));
    }
    Ok(())
}

#[test]
fn outputs_are_given_again_to_their_endpoint_alone(rt: HostRuntime) -> Result<(), Fail> {
    let alloc = rt.alloc();
    let given: &[u8] =
        b"\0\0\0\xd4\x04BANKB001{1100}30TRN{1110}01020930FAIM{1120}20240102BANKB00100000101020930FAIM{1500}30USERREQ1T {1510}1000{1520}20240102BANKA001000001{2000}000000150000{3100}021000021ALPHA BANK*{3400}121042882BETA BANK*{3600}BTR";
    let cases: [(&[u8], usize); 4] = [
        (b"\0\0\0\x17\x02BANKB00120240102000001", 3),
        (b"\0\0\0\x17\x02BANKB00120240102000002", 2),
        (b"\0\0\0\x17\x02BANKA00120240102000001", 2),
        (b"\0\0\0\x17\x02BANKZ99920240102000001", 2),
    ];
    for (frame, sent) in cases {
        let mut site = made(alloc, 0)?;
        assert_eq!(rt; served(alloc, &mut site, &[PAYMENT, frame])?, Ok(()));
        assert!(rt; has_sent_first(&site, 0, &[ACK, OUTPUT, given], sent));
        assert!(rt; has_payment(&mut site));
    }
    Ok(())
}

// The frames before what is none are handled.
#[test]
fn what_is_no_frame_ends_a_session(rt: HostRuntime) -> Result<(), Fail> {
    let alloc = rt.alloc();
    let rests: [(&[u8], FrameFault); 6] = [
        (b"\0\0\x20\x0a", FrameFault::BadLength(8_202)),
        (b"\0\0\0\x08\x07BANKA00", FrameFault::BadLength(8)),
        (b"\0\0\0", FrameFault::CutFrame(3)),
        (b"\0\0\0\x09\x07BANKA00", FrameFault::CutFrame(12)),
        (b"\0\0\0\x09\x08BANKA001", FrameFault::BadKind(8)),
        (b"\0\0\0\x09\x07BANKA 01", FrameFault::BadEndpoint),
    ];
    for (rest, fault) in rests {
        let end = Err(SessionEnd::Frame(fault));
        let mut site = made(alloc, 0)?;
        assert!(rt; served(alloc, &mut site, &[rest, PAYMENT])?.is_err());
        assert_eq!(rt; served(alloc, &mut site, &[rest])?, end);
        assert!(rt; has_sent(&site, 0, &[]) && has_size(&mut site, 100));
        assert_eq!(rt; served(alloc, &mut site, &[PAYMENT, rest])?, end);
        assert!(rt; has_sent(&site, 0, &[ACK, OUTPUT]) && has_payment(&mut site));
    }
    Ok(())
}
