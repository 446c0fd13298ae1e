// The bytes of entries, written out.
use crate::{CodecFault, read_entry, spell_entry};
use faim_base::{CycleDate, Moment, Verdict};
use host_ledger::Entry;
use std::alloc::Global;
use std::test::Fail;

// What comes before the verdict.
const FRONT: &[u8] =
    b"P\0\0\x22\x3fBANKA001\0\0\0\x01021000021121042882BTR\x0a\0\0\0\0\0\0\x02\x49\xf0\0\0\xc0\xa4\x9a";

const TAKEN: &[u8] = b"\x01BANKB001\0\0\0\x01";

const BODY: &[u8] =
    b"\0\x86{1500}30USERREQ1T {1510}1000{1520}20240102BANKA001000001{2000}000000150000{3100}021000021ALPHA BANK*{3400}121042882BETA BANK*{3600}BTR";

fn spelling(alloc: Global, verdict: &[u8]) -> Result<Vec<u8>, Fail> {
    let mut bytes = Vec::new(alloc);
    bytes.extend_from_slice(FRONT)?;
    bytes.extend_from_slice(verdict)?;
    bytes.extend_from_slice(BODY)?;
    Ok(bytes)
}

#[test]
fn a_roll_has_nine_bytes(rt: HostRuntime) -> Result<(), Fail> {
    let moment = Moment::new(12_625_050).ok_or("a moment")?;
    let date = CycleDate::new(8768).ok_or("a date")?;
    let mut out = Vec::new(rt.alloc());
    spell_entry(&Entry::Roll { moment, date }, &mut out)?;
    assert!(rt; out.as_slice() == b"R\0\xc0\xa4\x9a\0\0\x22\x40".as_slice());
    Ok(())
}

#[test]
fn a_message_that_was_taken_is_read_and_spelled_again(rt: HostRuntime) -> Result<(), Fail> {
    let alloc = rt.alloc();
    let bytes = spelling(alloc, TAKEN)?;
    let mut joined = Vec::new(alloc);
    joined.extend_from_slice(&bytes)?;
    joined.extend_from_slice(b"R\0")?;
    match read_entry(alloc, &joined) {
        Ok((entry, count)) => {
            assert!(rt; count == 202);
            let mut out = Vec::new(alloc);
            spell_entry(&entry, &mut out)?;
            assert!(rt; out.as_slice() == bytes.as_slice());
            match &entry {
                Entry::Posted {
                    head,
                    body,
                    resent,
                    moment,
                    verdict,
                } => {
                    assert!(rt; head.imad.date.get() == 8767);
                    assert!(rt; head.code == *b"BTR");
                    assert!(rt; head.kind == 10 && head.sub == 0);
                    assert!(rt; head.amount.get() == 150_000);
                    assert!(rt; body.as_slice().len() == 134);
                    assert!(rt; !*resent);
                    assert!(rt; moment.get() == 12_625_050);
                    assert!(rt; matches!(verdict, Verdict::Taken { .. }));
                }
                Entry::Roll { .. } => assert!(rt; false),
            }
        }
        Err(_) => assert!(rt; false),
    }
    Ok(())
}

#[test]
fn only_a_refusal_that_is_kept_has_a_spelling(rt: HostRuntime) -> Result<(), Fail> {
    let alloc = rt.alloc();
    let bytes = spelling(alloc, b"\x02F\x01\x91")?;
    let (entry, count) = read_entry(alloc, &bytes).ok().ok_or("an entry")?;
    assert!(rt; count == bytes.len());
    let mut out = Vec::new(alloc);
    spell_entry(&entry, &mut out)?;
    assert!(rt; out.as_slice() == bytes.as_slice());
    let bytes = spelling(alloc, b"\x02H\0\x66")?;
    match read_entry(alloc, &bytes) {
        Err(CodecFault::Damaged) => {}
        _ => assert!(rt; false),
    }
    Ok(())
}

#[test]
fn cut_or_changed_bytes_are_damaged(rt: HostRuntime) -> Result<(), Fail> {
    let alloc = rt.alloc();
    let bytes = spelling(alloc, TAKEN)?;
    for count in 0..bytes.len() {
        match read_entry(alloc, &bytes[..count]) {
            Err(CodecFault::Damaged) => {}
            _ => assert!(rt; false, "cut at {count}"),
        }
    }
    for (place, byte) in [
        (0, b'Q'),
        (1, 1),
        (5, b' '),
        (16, 0),
        (17, b'x'),
        (35, b'*'),
        (38, 100),
        (40, 1),
        (48, 2),
        (49, 255),
        (53, 3),
        (67, 0),
        (66, 255),
    ] {
        let mut changed = spelling(alloc, TAKEN)?;
        if let Some(slot) = changed.get_mut(place) {
            *slot = byte;
        }
        match read_entry(alloc, &changed) {
            Err(CodecFault::Damaged) => {}
            _ => assert!(rt; false, "changed at {place}"),
        }
    }
    Ok(())
}
