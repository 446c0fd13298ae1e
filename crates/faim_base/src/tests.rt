use crate::*;
use std::alloc::Global;
use std::test::Fail;

#[test]
fn numbers_end_at_their_bounds(rt: HostRuntime) {
    for (n, there) in [(0, false), (1, true), (999_999, true), (1_000_000, false)] {
        assert_eq!(rt; Seq::new(n).is_some(), there, "message number {n}");
    }
    for (n, there) in [(0, true), (2_921_939, true), (2_921_940, false)] {
        assert_eq!(rt; CycleDate::new(n).is_some(), there, "day {n}");
    }
    for (n, there) in [(0, true), (4_207_593_599, true), (4_207_593_600, false)] {
        assert_eq!(rt; Moment::new(n).is_some(), there, "minute {n}");
    }
    for (n, there) in [(999_999_999_999, true), (1_000_000_000_000, false)] {
        assert_eq!(rt; Cents::new(n).is_some(), there, "cents {n}");
    }
    for (n, there) in [
        (1100, true),
        (1101, false),
        (3600, true),
        (9000, true),
        (0, false),
    ] {
        assert_eq!(rt; TagNo::new(n).is_some(), there, "tag {n}");
    }
}

#[test]
fn numbers_come_back(rt: HostRuntime) {
    assert_eq!(rt; Seq::new(42).map(|n| n.get()), Some(42));
    assert_eq!(rt; Cents::new(42).map(|n| n.get()), Some(42));
    assert_eq!(rt; CycleDate::new(42).map(|n| n.get()), Some(42));
    assert_eq!(rt; Moment::new(42).map(|n| n.get()), Some(42));
    assert_eq!(rt; TagNo::new(6500).map(|n| n.get()), Some(6500));
}

#[test]
fn digits_spell_numbers(rt: HostRuntime) {
    let cases: [(&[u8], Option<u64>); 6] = [
        (b"000000", Some(0)),
        (b"000042", Some(42)),
        (b"999999999999999999", Some(999_999_999_999_999_999)),
        (b"", None),
        (b"12a", None),
        (b" 12", None),
    ];
    for (text, want) in cases {
        assert_eq!(rt; digits(text), want);
    }
    let mut text = *b"??????";
    padded(907, &mut text);
    assert_eq!(rt; text, *b"000907");
}

#[test]
fn eight_digits_name_a_day(rt: HostRuntime) {
    let cases: [(&[u8; 8], Option<u32>); 12] = [
        (b"20000101", Some(0)),
        (b"20000229", Some(59)),
        (b"20001231", Some(365)),
        (b"20240102", Some(8767)),
        (b"20240229", Some(8825)),
        (b"21000301", Some(36_584)),
        (b"99991231", Some(2_921_939)),
        (b"20240230", None),
        (b"21000229", None),
        (b"20241301", None),
        (b"19991231", None),
        (b"2024 102", None),
    ];
    for (text, want) in cases {
        assert_eq!(rt; CycleDate::read(text).map(|d| d.get()), want);
    }
    for (day, want) in [
        (0, b"20000101"),
        (8825, b"20240229"),
        (2_921_939, b"99991231"),
    ] {
        let mut text = [0; 8];
        CycleDate::new(day).expect(&rt, "a day").write(&mut text);
        assert_eq!(rt; text, *want);
    }
}

#[test]
fn a_moment_has_a_day_and_a_minute(rt: HostRuntime) {
    let moment = Moment::new(12_625_050).expect(&rt, "a moment");
    let (day, minute) = civil(moment);
    assert_eq!(rt; day.get(), 8767);
    assert_eq!(rt; minute, 570);
    let want = Stamp {
        month: 1,
        day: 2,
        hour: 9,
        minute: 30,
    };
    assert_eq!(rt; stamp(moment), want);
}

#[test]
fn check_digits_hold(rt: HostRuntime) {
    let cases: [(&[u8; 9], bool); 5] = [
        (b"021000021", true),
        (b"121042882", true),
        (b"231380104", true),
        (b"021000022", false),
        (b"012000021", false),
    ];
    for (text, want) in cases {
        let aba = Aba::read(text).expect(&rt, "nine digits");
        assert_eq!(rt; aba_check(&aba), want);
        assert_eq!(rt; aba.bytes(), *text);
    }
    assert_eq!(rt; Aba::read(b"02100002A"), None);
}

#[test]
fn endpoints_have_no_blank(rt: HostRuntime) {
    let cases: [(&[u8; 8], bool); 6] = [
        (b"BANKAAA1", true),
        (b"~!#$%&'(", true),
        (b"BANK AA1", false),
        (b"BANK*AA1", false),
        (b"BANK{AA}", false),
        (b"BANKAA1\x7f", false),
    ];
    for (text, there) in cases {
        let endpoint = Endpoint::read(text);
        assert_eq!(rt; endpoint.is_some(), there);
        assert_eq!(rt; endpoint.map_or(*text, |e| e.bytes()), *text);
    }
}

#[test]
fn the_first_bad_part_of_an_imad_is_named(rt: HostRuntime) {
    let good = b"20240102BANKAAA1000042";
    let imad = Imad::read(good).expect(&rt, "an IMAD");
    assert_eq!(rt; imad.date.get(), 8767);
    assert_eq!(rt; imad.source.bytes(), *b"BANKAAA1");
    assert_eq!(rt; imad.seq.get(), 42);
    let mut text = [0; 22];
    imad.write(&mut text);
    assert_eq!(rt; text, *good);
    let cases: [(&[u8; 22], IdFault); 4] = [
        (b"20240230BANK AA1000000", IdFault::BadDate),
        (b"20240102BANK AA1000000", IdFault::BadSource),
        (b"20240102BANKAAA1000000", IdFault::BadSeq),
        (b"20240102BANKAAA100004A", IdFault::BadSeq),
    ];
    for (text, fault) in cases {
        assert_eq!(rt; Imad::read(text), Err(fault));
    }
}

#[test]
fn positions_have_a_date_and_a_number(rt: HostRuntime) {
    let good = b"20240102000907";
    let position = OutPos::read(good).expect(&rt, "a position");
    assert_eq!(rt; (position.date.get(), position.seq.get()), (8767, 907));
    let mut text = [0; 14];
    position.write(&mut text);
    assert_eq!(rt; text, *good);
    assert_eq!(rt; OutPos::read(b"20240230000907"), None);
    assert_eq!(rt; OutPos::read(b"20240102000000"), None);
    let next = OutPos::read(b"20240103000001").expect(&rt, "a position");
    assert!(rt; position < next);
}

#[test]
fn the_first_bad_part_of_an_omad_is_named(rt: HostRuntime) {
    let good = b"20240102BANKAAA100004202291405FAIM";
    let omad = Omad::read(good).expect(&rt, "an OMAD");
    assert_eq!(rt; (omad.date.get(), omad.seq.get()), (8767, 42));
    assert_eq!(rt; omad.dest.bytes(), *b"BANKAAA1");
    let want = Stamp {
        month: 2,
        day: 29,
        hour: 14,
        minute: 5,
    };
    assert_eq!(rt; omad.stamp, want);
    let mut text = [0; 34];
    omad.write(&mut text);
    assert_eq!(rt; text, *good);
    let cases: [(&[u8; 34], IdFault); 8] = [
        (b"20240230BANK AA100000002301405FAIN", IdFault::BadDate),
        (b"20240102BANK AA100000002301405FAIN", IdFault::BadSource),
        (b"20240102BANKAAA100000002301405FAIN", IdFault::BadSeq),
        (b"20240102BANKAAA100004202301405FAIN", IdFault::BadStamp),
        (b"20240102BANKAAA100004213011405FAIM", IdFault::BadStamp),
        (b"20240102BANKAAA100004202292405FAIM", IdFault::BadStamp),
        (b"20240102BANKAAA100004202291460FAIM", IdFault::BadStamp),
        (
            b"20240102BANKAAA100004202291405FAIN",
            IdFault::BadApplication,
        ),
    ];
    for (text, fault) in cases {
        assert_eq!(rt; Omad::read(text), Err(fault));
    }
}

#[test]
fn lists_grow_at_their_end(rt: HostRuntime) -> Result<(), Fail> {
    let alloc: Global = rt.alloc();
    let mut bytes = Bytes::new(alloc);
    assert!(rt; bytes.as_slice().is_empty());
    bytes.push(7)?;
    bytes.extend(b"ab")?;
    assert_eq!(rt; bytes.as_slice(), [7, 97, 98].as_slice());
    let mut days = Moments::new(alloc);
    days.push(Moment::new(3).expect(&rt, "a moment"))?;
    assert_eq!(rt; days.as_slice().len(), 1);
    Ok(())
}

#[test]
fn items_are_put_in_and_written_over(rt: HostRuntime) -> Result<(), Fail> {
    let mut bytes = Bytes::new(rt.alloc());
    bytes.extend(b"ad")?;
    bytes.insert(1, b'c')?;
    bytes.insert(3, b'e')?;
    match bytes.get_mut(1) {
        Some(byte) => *byte = b'b',
        None => assert!(rt; false, "the second byte"),
    }
    assert!(rt; bytes.get_mut(4).is_none());
    assert_eq!(rt; bytes.as_slice(), b"abde".as_slice());
    Ok(())
}
