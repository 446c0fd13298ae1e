// What no clause says of frames: their bytes, and each answer once.
ghost use Rattle.std.specs.Prelude.{◌≡◌, ◌++◌, OnOk};
ghost use Rattle.link_frames.specs.Lending.{left_after};

use crate::{Frame, FrameFault, FrameKind, Splitter, encode_frame};
use faim_base::{Endpoint, NoMemory};
use std::alloc::Global;
use std::test::Fail;

// The frame of the worked submission, whose message has 134 bytes.
const SUBMITTED: [u8; 147] =
    *b"\x00\x00\x00\x8f\x01BANKA001{1500}30USERREQ1T {1510}1000{1520}20240102BANKA001000001{2000}000000150000{3100}021000021ALPHA BANK*{3400}121042882BETA BANK*{3600}BTR";

// Three frames, and three bytes of a fourth.
const RUN: [u8; 55] =
    *b"\x00\x00\x00\x0e\x01BANKA001HELLO\x00\x00\x00\x09\x07BANKB001\x00\x00\x00\x11\x05OPERATOR20240103\x00\x00\x00";

const FRAMES_OF_RUN: &[u8] = b"\x01BANKA001HELLO|\x07BANKB001|\x05OPERATOR20240103|";

// What an end says, where no whole frame is held.
fn ended(splitter: Splitter) -> Option<Result<(), FrameFault>> {
    if splitter.frame().is_some() {
        return None;
    }
    Some(splitter.finish())
}

// Writes down the kind, the endpoint and the payload of the frame that is held, if there is one.
fn note(splitter: &mut Splitter, seen: &mut Vec<u8>) -> Result<(), Fail> {
    if let Some(frame) = splitter.take() {
        seen.push(frame.kind.byte())?;
        seen.extend_from_slice(&frame.endpoint().bytes())?;
        seen.extend_from_slice(frame.payload)?;
        seen.push(b'|')?;
    }
    Ok(())
}

// Passes on the frame that is held, if there is one: the bytes that went on, joined with those that are held, stay the same.
fn pass_on(splitter: &mut Splitter, out: &mut Vec<u8>) -> Result<(), NoMemory>
    ensures left { splitter.new ≡ left_after splitter.old }
    ensures joined { OnOk result (out.new.items ++ splitter.new ≡ out.old.items ++ splitter.old) }
{
    match splitter.take() {
        Some(frame) => encode_frame(&frame, out),
        None => Ok(()),
    }
}

// Reads a piece frame by frame, and answers whether all of it was taken.
fn read_piece(splitter: &mut Splitter, piece: &[u8], seen: &mut Vec<u8>) -> Result<bool, Fail> {
    let mut rest = piece;
    for _ in piece {
        match splitter.feed(rest) {
            Ok(taken) => rest = &rest[taken..],
            Err(_) => break,
        }
        note(splitter, seen)?;
    }
    Ok(rest.is_empty())
}

#[test]
fn a_submission_is_framed_and_read_back(rt: HostRuntime) {
    let alloc = rt.alloc();
    let endpoint = Endpoint::read(b"BANKA001").expect(&rt, "an endpoint");
    let frame = Frame::new(FrameKind::Submit, endpoint, &SUBMITTED[13..]);
    let mut out = Vec::new(alloc);
    out.push(b'>').expect(&rt, "memory");
    encode_frame(&frame, &mut out).expect(&rt, "memory");
    assert_eq!(rt; out[0], b'>');
    assert_eq!(rt; &out[1..], SUBMITTED.as_slice());
    let mut splitter = Splitter::new(alloc).expect(&rt, "memory");
    assert_eq!(rt; splitter.feed(&out[1..]), Ok(147));
    match splitter.frame() {
        Some(read) => {
            assert_eq!(rt; read.kind, FrameKind::Submit);
            assert_eq!(rt; read.endpoint(), frame.endpoint());
            assert_eq!(rt; read.payload, frame.payload);
        }
        None => assert!(rt; false),
    }
}

#[test]
fn each_kind_has_its_byte(rt: HostRuntime) {
    let kinds = [
        (1, FrameKind::Submit),
        (2, FrameKind::Retrieve),
        (3, FrameKind::Ack),
        (4, FrameKind::Output),
        (5, FrameKind::Roll),
        (6, FrameKind::Draft),
        (7, FrameKind::Tick),
    ];
    for (byte, kind) in kinds {
        assert_eq!(rt; kind.byte(), byte);
        assert_eq!(rt; FrameKind::read(byte), Some(kind));
    }
    for byte in [0, 8, 200, 255] {
        assert_eq!(rt; FrameKind::read(byte), None);
    }
}

#[test]
fn a_fault_comes_with_the_byte_that_shows_it_and_stays(rt: HostRuntime) {
    let cases: [(&[u8], FrameFault); 14] = [
        (b"\x00\x00\x20\x0a", FrameFault::BadLength(8202)),
        (b"\x00\x00\x00\x08", FrameFault::BadLength(8)),
        (b"\x00\x00\x00\x00", FrameFault::BadLength(0)),
        (b"\xff\xff\xff\xff", FrameFault::BadLength(4_294_967_295)),
        (b"\x01\x00\x00\x09", FrameFault::BadLength(16_777_225)),
        (b"\x00\x00\x00\x09\x00", FrameFault::BadKind(0)),
        (b"\x00\x00\x20\x09\x08", FrameFault::BadKind(8)),
        (b"\x00\x00\x00\x09\xc8", FrameFault::BadKind(200)),
        (b"\x00\x00\x00\x09\x01 ", FrameFault::BadEndpoint),
        (b"\x00\x00\x00\x09\x01BANKA00 ", FrameFault::BadEndpoint),
        (b"\x00\x00\x00\x09\x07BANK*", FrameFault::BadEndpoint),
        (b"\x00\x00\x00\x09\x07BANK}", FrameFault::BadEndpoint),
        (b"\x00\x00\x00\x09\x07\x1f", FrameFault::BadEndpoint),
        (b"\x00\x00\x00\x09\x07\x7f", FrameFault::BadEndpoint),
    ];
    for (bytes, fault) in cases {
        let (last, front) = bytes.split_last().expect(&rt, "a byte");
        let mut splitter = Splitter::new(rt.alloc()).expect(&rt, "memory");
        assert_eq!(rt; splitter.feed(front), Ok(front.len()), "{fault:?}");
        assert_eq!(rt; splitter.feed(&[*last]), Err(fault));
        assert_eq!(rt; splitter.feed(b"\x00\x00\x00\x09\x07BANKA001"), Err(fault));
        assert_eq!(rt; splitter.feed(b""), Err(fault));
        assert!(rt; splitter.take().is_none());
        assert_eq!(rt; ended(splitter), Some(Err(fault)));
        let mut splitter = Splitter::new(rt.alloc()).expect(&rt, "memory");
        assert_eq!(rt; splitter.feed(bytes), Err(fault));
    }
}

#[test]
fn an_end_tells_how_much_of_a_frame_is_there(rt: HostRuntime) {
    for (bytes, end) in [
        (b"".as_slice(), Ok(())),
        (b"\x00\x00\x00".as_slice(), Err(FrameFault::CutFrame(3))),
        (b"\xff".as_slice(), Err(FrameFault::CutFrame(1))),
        (
            b"\x00\x00\x00\x09\x01BANKA00".as_slice(),
            Err(FrameFault::CutFrame(12)),
        ),
        (
            b"\x00\x00\x00\x0b\x01BANKA0011".as_slice(),
            Err(FrameFault::CutFrame(14)),
        ),
    ] {
        let mut splitter = Splitter::new(rt.alloc()).expect(&rt, "memory");
        assert_eq!(rt; splitter.feed(bytes), Ok(bytes.len()));
        assert!(rt; splitter.take().is_none());
        assert_eq!(rt; ended(splitter), Some(end));
    }
}

#[test]
fn a_frame_is_handed_out_once(rt: HostRuntime) -> Result<(), Fail> {
    let mut splitter = Splitter::new(rt.alloc()).expect(&rt, "memory");
    let mut seen = Vec::new(rt.alloc());
    assert_eq!(rt; splitter.feed(&RUN[..5]), Ok(5));
    note(&mut splitter, &mut seen)?;
    assert_eq!(rt; splitter.feed(&RUN[5..]), Ok(13));
    assert_eq!(rt; splitter.feed(&RUN[18..]), Ok(0));
    note(&mut splitter, &mut seen)?;
    note(&mut splitter, &mut seen)?;
    assert_eq!(rt; seen.as_slice(), b"\x01BANKA001HELLO|".as_slice());
    assert_eq!(rt; splitter.feed(&RUN[18..]), Ok(13));
    if splitter.frame().is_some() {
        splitter.hand_out();
    }
    assert!(rt; splitter.frame().is_none());
    assert_eq!(rt; ended(splitter), Some(Ok(())));
    Ok(())
}

#[test]
fn a_frame_is_passed_on_once(rt: HostRuntime) {
    let mut splitter = Splitter::new(rt.alloc()).expect(&rt, "memory");
    let mut out = Vec::new(rt.alloc());
    assert_eq!(rt; splitter.feed(&RUN[..17]), Ok(17));
    assert!(rt; pass_on(&mut splitter, &mut out).is_ok());
    assert!(rt; out.is_empty());
    assert_eq!(rt; splitter.feed(&RUN[17..]), Ok(1));
    assert!(rt; pass_on(&mut splitter, &mut out).is_ok());
    assert!(rt; pass_on(&mut splitter, &mut out).is_ok());
    assert_eq!(rt; out.as_slice(), &RUN[..18]);
    assert_eq!(rt; ended(splitter), Some(Ok(())));
}

#[test]
fn frames_are_the_same_however_the_bytes_are_cut_in_three(rt: HostRuntime) -> Result<(), Fail> {
    for second in 0..=RUN.len() {
        for first in 0..=second {
            let mut splitter = Splitter::new(rt.alloc()).expect(&rt, "memory");
            let mut seen = Vec::new(rt.alloc());
            for piece in [&RUN[..first], &RUN[first..second], &RUN[second..]] {
                assert!(rt; read_piece(&mut splitter, piece, &mut seen)?);
            }
            assert_eq!(rt;
                seen.as_slice(),
                FRAMES_OF_RUN,
                "cut at {first} and {second}"
            );
            assert_eq!(rt; ended(splitter), Some(Err(FrameFault::CutFrame(3))));
        }
    }
    Ok(())
}

#[test]
fn the_greatest_frame_is_taken(rt: HostRuntime) {
    let alloc: Global = rt.alloc();
    let endpoint = Endpoint::read(b"BANKB001").expect(&rt, "an endpoint");
    let frame = Frame::new(FrameKind::Output, endpoint, &[b'x'; 8_192]);
    let mut out = Vec::new(alloc);
    encode_frame(&frame, &mut out).expect(&rt, "memory");
    assert_eq!(rt; out.len(), 8_205);
    assert_eq!(rt; &out[..5], b"\x00\x00\x20\x09\x04".as_slice());
    let mut splitter = Splitter::new(alloc).expect(&rt, "memory");
    let (last, front) = out.split_last().expect(&rt, "a byte");
    assert_eq!(rt; splitter.feed(front), Ok(8_204));
    assert!(rt; splitter.frame().is_none());
    assert_eq!(rt; splitter.feed(&[*last]), Ok(1));
    match splitter.take() {
        Some(read) => {
            assert_eq!(rt; read.payload.len(), 8_192);
            assert!(rt; read.payload.iter().all(|b| *b == b'x'));
        }
        None => assert!(rt; false),
    }
}
