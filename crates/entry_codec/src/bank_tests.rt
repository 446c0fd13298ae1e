// The bytes of a bank's opening and of its entries, written out.
use crate::{CodecFault, read_bank_entry, read_opening, spell_bank_entry, spell_opening};
use bank_books::BankEntry;
use faim_base::{CycleDate, Endpoint, Seq, Verdict};
use std::alloc::Global;
use std::test::Fail;

// With a header, a length and two gates around it an image has 36 bytes.
const OPENING: &[u8] = b"BBANKA001T\0\0\x22\x3f";

const DRAFTED: &[u8] =
    b"D\0\0\x22\x3f\0\0\0\x01\0\x86{1500}30USERREQ1T {1510}1000{1520}20240102BANKA001000001{2000}000000150000{3100}021000021ALPHA BANK*{3400}121042882BETA BANK*{3600}BTR";

const TAKEN: &[u8] = b"A\0\0\x22\x3f\0\0\0\x01\x01BANKB001\0\0\0\x01";

const REFUSED: &[u8] = b"A\0\0\x22\x3f\0\0\0\x01\x02F\x01\x91";

const RECEIVED: &[u8] =
    b"I\0\0\x22\x3f\0\0\0\x01\0\0\xcb{1100}30T N{1110}01020930FAIM{1120}20240102BANKB00100000101020930FAIM{1500}30USERREQ1T {1510}1000{1520}20240102BANKA001000001{2000}000000150000{3100}021000021ALPHA BANK*{3400}121042882BETA BANK*{3600}BTR";

const CYCLE_END: &[u8] =
    b"I\0\0\x22\x3f\0\0\0\x02\x01\0\0\x22\x40\0\x59{1100}30T E{1110}01020930FAIM{1120}20240102BANKB00100000201020930FAIM{9000}NEXT 20240103*";

#[test]
fn an_opening_has_14_bytes(rt: HostRuntime) -> Result<(), Fail> {
    assert!(rt; OPENING.len() == 14);
    match read_opening(OPENING) {
        Ok(opening) => {
            assert!(rt; opening.endpoint.bytes() == *b"BANKA001");
            assert!(rt; opening.env == b'T' && opening.date.get() == 8767);
            let mut out = Vec::new(rt.alloc());
            spell_opening(&opening, &mut out)?;
            assert!(rt; out.as_slice() == OPENING);
        }
        Err(_) => assert!(rt; false),
    }
    Ok(())
}

#[test]
fn each_part_of_an_opening_ends_at_its_limit(rt: HostRuntime) -> Result<(), Fail> {
    for (bytes, sound) in [
        (b"BBANKA001P\0\0\x22\x3f".as_slice(), true),
        (b"BOPERATORT\0\0\0\0".as_slice(), true),
        (b"BBANKA001T\0\x2c\x95\xd3".as_slice(), true),
        (b"BBANKA001T\0\x2c\x95\xd4".as_slice(), false),
        (b"BBANKA001T\xff\xff\xff\xff".as_slice(), false),
        (b"BBANKA001Q\0\0\x22\x3f".as_slice(), false),
        (b"BBANKA001t\0\0\x22\x3f".as_slice(), false),
        (b"BBANK 001T\0\0\x22\x3f".as_slice(), false),
        (b"BBANK*001T\0\0\x22\x3f".as_slice(), false),
        (b"CBANKA001T\0\0\x22\x3f".as_slice(), false),
        (b"BBANKA001T\0\0\x22\x3f\0".as_slice(), false),
    ] {
        match read_opening(bytes) {
            Ok(opening) => {
                assert!(rt; sound);
                let mut out = Vec::new(rt.alloc());
                spell_opening(&opening, &mut out)?;
                assert!(rt; out.as_slice() == bytes);
            }
            Err(fault) => assert!(rt; !sound && fault == CodecFault::Damaged),
        }
    }
    for count in 0..OPENING.len() {
        assert!(rt;
            matches!(read_opening(&OPENING[..count]), Err(CodecFault::Damaged)),
            "cut at {count}"
        );
    }
    Ok(())
}

fn bank(name: &[u8; 8]) -> Result<Endpoint, Fail> {
    Ok(Endpoint::read(name).ok_or("an endpoint")?)
}

#[test]
fn entries_are_read_and_spelled_again(rt: HostRuntime) -> Result<(), Fail> {
    let alloc = rt.alloc();
    let source = bank(b"BANKA001")?;
    for (bytes, size) in [
        (DRAFTED, 145),
        (TAKEN, 22),
        (REFUSED, 13),
        (RECEIVED, 215),
        (CYCLE_END, 105),
    ] {
        assert!(rt; bytes.len() == size);
        let mut joined = Vec::new(alloc);
        joined.extend_from_slice(bytes)?;
        joined.extend_from_slice(b"A\0")?;
        match read_bank_entry(alloc, &joined, source) {
            Ok((entry, count)) => {
                assert!(rt; count == size);
                let mut out = Vec::new(alloc);
                spell_bank_entry(&entry, &mut out)?;
                assert!(rt; out.as_slice() == bytes);
            }
            Err(_) => assert!(rt; false),
        }
    }
    Ok(())
}

#[test]
fn a_draft_has_the_source_that_is_given(rt: HostRuntime) -> Result<(), Fail> {
    let alloc = rt.alloc();
    for name in [b"BANKA001", b"BANKB001"] {
        let source = bank(name)?;
        match read_bank_entry(alloc, DRAFTED, source) {
            Ok((entry, _)) => match &entry {
                BankEntry::Drafted { imad, text } => {
                    assert!(rt; imad.date.get() == 8767 && imad.seq.get() == 1);
                    assert!(rt; imad.source == source);
                    assert!(rt; text.as_slice() == &DRAFTED[11..]);
                }
                BankEntry::Answered { .. } => assert!(rt; false),
                BankEntry::Received { .. } => assert!(rt; false),
            },
            Err(_) => assert!(rt; false),
        }
    }
    Ok(())
}

#[test]
fn an_answer_has_its_verdict(rt: HostRuntime) -> Result<(), Fail> {
    let source = bank(b"BANKA001")?;
    let dest = bank(b"BANKB001")?;
    match read_bank_entry(rt.alloc(), TAKEN, source) {
        Ok((entry, _)) => match &entry {
            BankEntry::Answered { imad, verdict } => {
                assert!(rt; imad.date.get() == 8767 && imad.seq.get() == 1);
                assert!(rt; imad.source == source);
                let seq = Seq::new(1).ok_or("a number")?;
                assert!(rt; *verdict == Verdict::Taken { dest, seq });
            }
            BankEntry::Drafted { .. } => assert!(rt; false),
            BankEntry::Received { .. } => assert!(rt; false),
        },
        Err(_) => assert!(rt; false),
    }
    Ok(())
}

#[test]
fn the_end_of_a_cycle_names_the_next_date(rt: HostRuntime) -> Result<(), Fail> {
    let source = bank(b"BANKB001")?;
    for (bytes, number, date) in [(RECEIVED, 1, None), (CYCLE_END, 2, CycleDate::new(8768))] {
        match read_bank_entry(rt.alloc(), bytes, source) {
            Ok((entry, _)) => match &entry {
                BankEntry::Received { at, text, next } => {
                    assert!(rt; at.date.get() == 8767 && at.seq.get() == number);
                    assert!(rt; *next == date);
                    assert!(rt; bytes.ends_with(text.as_slice()));
                }
                BankEntry::Drafted { .. } => assert!(rt; false),
                BankEntry::Answered { .. } => assert!(rt; false),
            },
            Err(_) => assert!(rt; false),
        }
    }
    Ok(())
}

#[test]
fn cut_or_changed_entries_are_damaged(rt: HostRuntime) -> Result<(), Fail> {
    let alloc = rt.alloc();
    let source = bank(b"BANKA001")?;
    for bytes in [DRAFTED, TAKEN, REFUSED, RECEIVED, CYCLE_END] {
        for count in 0..bytes.len() {
            assert!(rt;
                is_damaged(alloc, &bytes[..count], source),
                "cut at {count}"
            );
        }
    }
    for (bytes, place, byte) in [
        (DRAFTED, 0, b'd'),
        (DRAFTED, 0, b'P'),
        (DRAFTED, 2, 0x2d),
        (DRAFTED, 8, 0),
        (DRAFTED, 6, 0x10),
        (DRAFTED, 9, 0x10),
        (DRAFTED, 10, 0x87),
        (TAKEN, 9, 3),
        (TAKEN, 10, b' '),
        (TAKEN, 21, 0),
        (REFUSED, 10, b'G'),
        (REFUSED, 12, 0x92),
        (RECEIVED, 9, 2),
        (RECEIVED, 11, 0xcc),
        (CYCLE_END, 9, 255),
        (CYCLE_END, 11, 0x2d),
    ] {
        let mut changed = Vec::new(alloc);
        changed.extend_from_slice(bytes)?;
        if let Some(slot) = changed.get_mut(place) {
            *slot = byte;
        }
        assert!(rt; is_damaged(alloc, &changed, source), "changed at {place}");
    }
    Ok(())
}

fn is_damaged(alloc: Global, bytes: &[u8], source: Endpoint) -> bool {
    matches!(
        read_bank_entry(alloc, bytes, source),
        Err(CodecFault::Damaged)
    )
}

#[test]
fn only_a_refusal_that_is_kept_answers(rt: HostRuntime) -> Result<(), Fail> {
    let source = bank(b"BANKA001")?;
    for (refusal, kept) in [
        (b"F\x01\x91", true),
        (b"H\0\x65", true),
        (b"W\x01\x2e", true),
        (b"E\0\x75", true),
        (b"E\0\x76", false),
        (b"E\0\x01", false),
        (b"H\0\x66", false),
        (b"X\0\xc9", false),
    ] {
        let mut bytes = Vec::new(rt.alloc());
        bytes.extend_from_slice(&REFUSED[..10])?;
        bytes.extend_from_slice(refusal)?;
        assert!(rt; is_damaged(rt.alloc(), &bytes, source) != kept);
    }
    Ok(())
}

#[test]
fn a_text_has_1_to_4234_bytes(rt: HostRuntime) -> Result<(), Fail> {
    let alloc = rt.alloc();
    let source = bank(b"BANKA001")?;
    for (length, kept) in [(0u16, false), (1, true), (4_234, true), (4_235, false)] {
        for front in [&DRAFTED[..9], &RECEIVED[..10], &CYCLE_END[..14]] {
            let mut bytes = Vec::new(alloc);
            bytes.extend_from_slice(front)?;
            bytes.extend_from_slice(&length.to_be_bytes())?;
            for _ in 0..length {
                bytes.push(b'x')?;
            }
            assert!(rt; is_damaged(alloc, &bytes, source) != kept, "{length}");
        }
    }
    Ok(())
}
