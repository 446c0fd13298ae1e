// What no clause says of reading frames: the bytes of inputs, in pieces of each size, and each answer once.
use crate::{FrameReader, InputEnd};
use faim_base::{Bytes, NoMemory, Places};
use link_frames::{FrameFault, FrameKind};
use site_core::{MemSource, Source};
use std::alloc::Global;
use std::test::Fail;

// Three frames.
const RUN: [u8; 52] =
    *b"\x00\x00\x00\x0e\x01BANKA001HELLO\x00\x00\x00\x09\x07BANKB001\x00\x00\x00\x11\x05OPERATOR20240103";

const FRAMES_OF_RUN: &[u8] = b"\x01BANKA001HELLO|\x07BANKB001|\x05OPERATOR20240103|";

// A source of these bytes that gives so many at a time, and fails at the calls with these numbers.
fn source_of(
    alloc: Global,
    text: &[u8],
    size: usize,
    fails: &[usize],
) -> Result<MemSource, NoMemory> {
    let mut bytes = Bytes::new(alloc);
    bytes.extend(text)?;
    let mut cuts = Places::new(alloc);
    for place in 1..text.len() {
        if place.checked_rem(size) == Some(0) {
            cuts.extend(&[place])?;
        }
    }
    let mut failing = Places::new(alloc);
    failing.extend(fails)?;
    Ok(MemSource::new(bytes, cuts, failing))
}

// Writes down the kind, the endpoint and the payload of the frame that is held, and hands it out.
fn note(reader: &mut FrameReader, seen: &mut Vec<u8>) -> Result<(), Fail> {
    match reader.frame() {
        Some(frame) => {
            seen.push(frame.kind.byte())?;
            seen.extend_from_slice(&frame.endpoint().bytes())?;
            seen.extend_from_slice(frame.payload)?;
            seen.push(b'|')?;
        }
        None => return Ok(()),
    }
    reader.hand_out();
    Ok(())
}

// Reads a source up to the first answer that is no frame.
fn read_on(
    reader: &mut FrameReader,
    source: &mut MemSource,
    limit: u32,
    seen: &mut Vec<u8>,
) -> Result<Result<bool, InputEnd>, Fail> {
    for _ in 0..100 {
        match reader.advance_within(source, u64::from(limit)) {
            Ok(true) => note(reader, seen)?,
            end => return Ok(end),
        }
    }
    Ok(Ok(true))
}

// What a new reader says of these bytes.
fn read_all(
    alloc: Global,
    text: &[u8],
    size: usize,
    limit: u32,
    seen: &mut Vec<u8>,
) -> Result<Result<bool, InputEnd>, Fail> {
    let mut reader = FrameReader::new(alloc)?;
    let mut source = source_of(alloc, text, size, &[])?;
    read_on(&mut reader, &mut source, limit, seen)
}

#[test]
fn frames_are_the_same_in_pieces_of_each_size(rt: HostRuntime) -> Result<(), Fail> {
    for size in 1..=RUN.len() {
        let mut seen = Vec::new(rt.alloc());
        let end = read_all(rt.alloc(), &RUN, size, 1_000, &mut seen)?;
        assert_eq!(rt; end, Ok(false));
        assert_eq!(rt; seen.as_slice(), FRAMES_OF_RUN, "pieces of {size}");
    }
    Ok(())
}

#[test]
fn an_end_within_a_frame_tells_how_much_of_it_is_there(rt: HostRuntime) -> Result<(), Fail> {
    let cases: [(usize, Result<bool, InputEnd>); 6] = [
        (0, Ok(false)),
        (1, Err(InputEnd::Frame(FrameFault::CutFrame(1)))),
        (17, Err(InputEnd::Frame(FrameFault::CutFrame(17)))),
        (18, Ok(false)),
        (30, Err(InputEnd::Frame(FrameFault::CutFrame(12)))),
        (51, Err(InputEnd::Frame(FrameFault::CutFrame(20)))),
    ];
    for (length, end) in cases {
        for size in [1, 5, 100] {
            let mut seen = Vec::new(rt.alloc());
            assert_eq!(rt;
                read_all(rt.alloc(), &RUN[..length], size, 1_000, &mut seen)?,
                end
            );
        }
    }
    Ok(())
}

// The fault comes with its byte, stays, and no byte after it is taken.
#[test]
fn a_fault_ends_the_frames_with_the_byte_that_shows_it(rt: HostRuntime) -> Result<(), Fail> {
    let cases: [(&[u8], usize, FrameFault); 4] = [
        (
            b"\x00\x00\x00\x09\x07BANKB001\x00\x00\x20\x0a",
            10,
            FrameFault::BadLength(8_202),
        ),
        (
            b"\x00\x00\x00\x09\x07BANKB001\x00\x00\x00\x09\x08",
            10,
            FrameFault::BadKind(8),
        ),
        (
            b"\x00\x00\x00\x09\x07BANKB001\x00\x00\x00\x09\x01BANK ",
            10,
            FrameFault::BadEndpoint,
        ),
        (b"\xff\xff\xff\xff", 0, FrameFault::BadLength(4_294_967_295)),
    ];
    for (front, noted, fault) in cases {
        let mut text = Vec::new(rt.alloc());
        text.extend_from_slice(front)?;
        text.extend_from_slice(b"next")?;
        let mut source = source_of(rt.alloc(), &text, 1, &[])?;
        let mut reader = FrameReader::new(rt.alloc())?;
        let mut seen = Vec::new(rt.alloc());
        let end = read_on(&mut reader, &mut source, 1_000, &mut seen)?;
        assert_eq!(rt; end, Err(InputEnd::Frame(fault)));
        assert_eq!(rt; seen.len(), noted);
        assert_eq!(rt; reader.advance(&mut source), Err(InputEnd::Frame(fault)));
        assert!(rt; reader.frame().is_none());
        let mut buf = [0; 1];
        assert_eq!(rt; source.read(&mut buf), Ok(1));
        assert_eq!(rt; buf, *b"n");
    }
    Ok(())
}

#[test]
fn a_failed_read_takes_nothing_and_the_next_one_goes_on(rt: HostRuntime) -> Result<(), Fail> {
    let mut source = source_of(rt.alloc(), &RUN, 20, &[2])?;
    let mut reader = FrameReader::new(rt.alloc())?;
    let mut seen = Vec::new(rt.alloc());
    let first = read_on(&mut reader, &mut source, 1_000, &mut seen)?;
    assert_eq!(rt; first, Err(InputEnd::ReadFault));
    assert_eq!(rt; seen.as_slice(), &FRAMES_OF_RUN[..15]);
    let second = read_on(&mut reader, &mut source, 1_000, &mut seen)?;
    assert_eq!(rt; second, Ok(false));
    assert_eq!(rt; seen.as_slice(), FRAMES_OF_RUN);
    Ok(())
}

// All frames come with the first read; the second call of the source would fail.
#[test]
fn no_read_is_made_while_a_frame_is_held(rt: HostRuntime) -> Result<(), Fail> {
    let mut source = source_of(rt.alloc(), &RUN, 100, &[2])?;
    let mut reader = FrameReader::new(rt.alloc())?;
    let mut seen = Vec::new(rt.alloc());
    assert_eq!(rt; reader.advance(&mut source), Ok(true));
    assert_eq!(rt; reader.advance(&mut source), Ok(true));
    match reader.frame() {
        Some(frame) => assert_eq!(rt; frame.kind, FrameKind::Submit),
        None => assert!(rt; false),
    }
    let end = read_on(&mut reader, &mut source, 1_000, &mut seen)?;
    assert_eq!(rt; end, Err(InputEnd::ReadFault));
    assert_eq!(rt; seen.as_slice(), FRAMES_OF_RUN);
    let mut buf = [0; 1];
    assert_eq!(rt; source.read(&mut buf), Ok(0));
    Ok(())
}

// The input has the whole limit, and one byte more.
#[test]
fn an_input_at_the_limit_is_read_and_one_byte_more_is_too_long(
    rt: HostRuntime,
) -> Result<(), Fail> {
    let cases: [(usize, u32, Result<bool, InputEnd>); 6] = [
        (18, 18, Ok(false)),
        (31, 31, Ok(false)),
        (31, 30, Err(InputEnd::TooLong)),
        (19, 18, Err(InputEnd::TooLong)),
        (20, 20, Err(InputEnd::Frame(FrameFault::CutFrame(2)))),
        (20, 19, Err(InputEnd::TooLong)),
    ];
    for (length, limit, end) in cases {
        let mut source = source_of(rt.alloc(), &RUN[..length], 7, &[])?;
        let mut reader = FrameReader::new(rt.alloc())?;
        let mut seen = Vec::new(rt.alloc());
        assert_eq!(rt; read_on(&mut reader, &mut source, limit, &mut seen)?, end);
        assert_eq!(rt; read_on(&mut reader, &mut source, limit, &mut seen)?, end);
        assert!(rt; reader.frame().is_none());
        assert_eq!(rt; seen.len(), if limit < 31 { 15 } else { 25 });
    }
    Ok(())
}

// The first read, of 4,096 bytes, ends two bytes after the first frame, right after it, and within it.
#[test]
fn frames_may_end_where_the_buffer_does(rt: HostRuntime) -> Result<(), Fail> {
    let filler = [b'x'; 4_084];
    let cases: [(&[u8], &[u8]); 3] = [
        (b"\x00\x00\x0f\xfa\x04BANKB001", &filler[3..]),
        (b"\x00\x00\x0f\xfc\x04BANKB001", &filler[1..]),
        (b"\x00\x00\x0f\xfd\x04BANKB001", &filler),
    ];
    for (head, payload) in cases {
        let mut text = Vec::new(rt.alloc());
        text.extend_from_slice(head)?;
        text.extend_from_slice(payload)?;
        text.extend_from_slice(&RUN)?;
        let mut seen = Vec::new(rt.alloc());
        let end = read_all(rt.alloc(), &text, 10_000, 10_000, &mut seen)?;
        assert_eq!(rt; end, Ok(false));
        assert_eq!(rt; seen.len(), 10 + payload.len() + FRAMES_OF_RUN.len());
        assert!(rt; seen.ends_with(FRAMES_OF_RUN));
    }
    Ok(())
}

#[test]
fn an_input_of_no_bytes_ends_with_no_frame(rt: HostRuntime) -> Result<(), Fail> {
    let mut source = source_of(rt.alloc(), b"", 1, &[1])?;
    let mut reader = FrameReader::new(rt.alloc())?;
    assert_eq!(rt; reader.advance(&mut source), Err(InputEnd::ReadFault));
    assert_eq!(rt; reader.advance(&mut source), Ok(false));
    assert_eq!(rt; reader.advance(&mut source), Ok(false));
    assert!(rt; reader.frame().is_none());
    Ok(())
}
