// What the rows of the table let through and what they don't, value by value.
use super::failed;
use faim_base::is_text_byte;
use std::alloc::Global;
use std::test::Fail;

// A submission that pays 1,500.00, with this type and subtype and this code.
fn submission(kind: &[u8; 4], code: &[u8; 3]) -> [u8; 113] {
    let mut bytes =
        *b"{1500}30USERREQ1T {1510}0000{1520}20240102BANKA001000001{2000}000000150000{3100}021000021{3400}121042882{3600}???";
    bytes[24..28].copy_from_slice(kind);
    bytes[110..113].copy_from_slice(code);
    bytes
}

// The same without an amount.
fn without_amount(kind: &[u8; 4], code: &[u8; 3]) -> [u8; 113] {
    let mut bytes = submission(kind, code);
    bytes[62..74].copy_from_slice(b"000000000000");
    bytes
}

// A party's tag with this identification code.
fn with_id(tag: &[u8; 7], id: u8) -> [u8; 7] {
    let mut party = *tag;
    party[6] = id;
    party
}

// The first edit that the bytes fail with more tags, 0 where they fail none.
fn failed_with(alloc: Global, bytes: &[u8], more: &[u8], last: &[u8]) -> Result<u16, Fail> {
    let mut whole = Vec::new(alloc);
    whole.extend_from_slice(bytes)?;
    whole.extend_from_slice(more)?;
    whole.extend_from_slice(last)?;
    failed(alloc, whole.as_slice())
}

#[test]
fn two_marks_are_let_through(rt: HostRuntime) -> Result<(), Fail> {
    for mark in 0..=127 {
        if is_text_byte(mark) {
            let mut bytes = submission(b"1000", b"BTR");
            bytes[17] = mark;
            let want = if mark == b' ' || mark == b'P' { 0 } else { 103 };
            assert_eq!(rt; failed(rt.alloc(), &bytes)?, want, "mark {mark}");
        }
    }
    Ok(())
}

#[test]
fn one_version_is_let_through(rt: HostRuntime) -> Result<(), Fail> {
    for (version, want) in [
        (b"30", 0),
        (b"03", 101),
        (b"31", 101),
        (b"20", 101),
        (b"3 ", 101),
    ] {
        let mut bytes = submission(b"1000", b"BTR");
        bytes[6..8].copy_from_slice(version);
        assert_eq!(rt; failed(rt.alloc(), &bytes)?, want);
    }
    Ok(())
}

// Every type and subtype that some code permits, and some that none does.
const KINDS: [&[u8; 4]; 28] = [
    b"0000", b"1000", b"1001", b"1002", b"1007", b"1008", b"1031", b"1032", b"1033", b"1090",
    b"1099", b"1500", b"1501", b"1502", b"1507", b"1508", b"1531", b"1590", b"1600", b"1601",
    b"1602", b"1607", b"1608", b"1631", b"1632", b"1633", b"1690", b"9999",
];

// The types and subtypes that a code permits, and which of these name an earlier message.
#[derive(Clone, Copy)]
struct Permitted {
    code: &'static [u8; 3],
    alone: &'static [&'static [u8; 4]],
    answering: &'static [&'static [u8; 4]],
    needed: &'static [u8],
}

// The ten codes; `needed` holds the tags that the code asks for.
const PERMITTED: [Permitted; 10] = [
    Permitted {
        code: b"SVC",
        alone: &[b"1690", b"1633", b"1590", b"1090", b"1033"],
        answering: &[b"1607", b"1601", b"1507", b"1501", b"1007", b"1001"],
        needed: b"",
    },
    Permitted {
        code: b"FFS",
        alone: &[b"1600"],
        answering: &[b"1608", b"1602"],
        needed: b"",
    },
    Permitted {
        code: b"FFR",
        alone: &[b"1600"],
        answering: &[b"1608", b"1602"],
        needed: b"",
    },
    Permitted {
        code: b"DRW",
        alone: &[b"1632", b"1032"],
        answering: &[],
        needed: b"",
    },
    Permitted {
        code: b"DRC",
        alone: &[b"1631", b"1031"],
        answering: &[],
        needed: b"{4400}D1*",
    },
    Permitted {
        code: b"DRB",
        alone: &[b"1631", b"1031"],
        answering: &[],
        needed: b"{4400}D1*",
    },
    Permitted {
        code: b"DEP",
        alone: &[b"1600"],
        answering: &[b"1608", b"1602"],
        needed: b"",
    },
    Permitted {
        code: b"CTR",
        alone: &[b"1600", b"1500", b"1000"],
        answering: &[b"1608", b"1602", b"1508", b"1502", b"1008", b"1002"],
        needed: b"{4200}D1*{5000}D2*",
    },
    Permitted {
        code: b"CKS",
        alone: &[b"1600"],
        answering: &[b"1608", b"1602"],
        needed: b"",
    },
    Permitted {
        code: b"BTR",
        alone: &[b"1600", b"1500", b"1000"],
        answering: &[b"1608", b"1602", b"1508", b"1502", b"1008", b"1002"],
        needed: b"",
    },
];

#[test]
fn each_code_permits_its_types_and_subtypes(rt: HostRuntime) -> Result<(), Fail> {
    for Permitted {
        code,
        alone,
        answering,
        needed,
    } in PERMITTED {
        for kind in KINDS {
            let (without, with) = if alone.contains(&kind) {
                (0, 0)
            } else if answering.contains(&kind) {
                (112, 0)
            } else {
                (105, 105)
            };
            let bytes = submission(kind, code);
            let alloc = rt.alloc();
            assert_eq!(rt;
                failed_with(alloc, &bytes, needed, b"")?,
                without,
                "{code:?} {kind:?}"
            );
            assert_eq!(rt;
                failed_with(alloc, &bytes, needed, b"{3500}1*")?,
                with,
                "{code:?} {kind:?}"
            );
        }
    }
    Ok(())
}

#[test]
fn subtype_90_alone_may_have_no_amount(rt: HostRuntime) -> Result<(), Fail> {
    for Permitted {
        code,
        alone,
        needed,
        ..
    } in PERMITTED {
        for kind in alone {
            let bytes = without_amount(*kind, code);
            let want = if kind.ends_with(b"90") { 0 } else { 108 };
            assert_eq!(rt;
                failed_with(rt.alloc(), &bytes, needed, b"")?,
                want,
                "{code:?} {kind:?}"
            );
        }
    }
    Ok(())
}

#[test]
fn tags_are_for_their_codes(rt: HostRuntime) -> Result<(), Fail> {
    let cases: [(&[u8], u16, &[&[u8; 3]]); 4] = [
        (b"{9000}PLEASE CALL*", 113, &[b"SVC"]),
        (b"{4400}D1*", 114, &[b"DRW", b"SVC"]),
        (b"{5400}021000021", 115, &[b"DRB", b"DRC", b"DRW", b"SVC"]),
        (b"{6110}LTR*", 116, &[b"DRB", b"DRC", b"DRW", b"SVC"]),
    ];
    for (tag, number, codes) in cases {
        for Permitted {
            code,
            alone,
            needed,
            ..
        } in PERMITTED {
            if number != 114 || !needed.starts_with(b"{4400}") {
                let want = if codes.contains(&code) { 0 } else { number };
                let bytes = submission(alone[0], code);
                assert_eq!(rt;
                    failed_with(rt.alloc(), &bytes, needed, tag)?,
                    want,
                    "{code:?}"
                );
            }
        }
    }
    Ok(())
}

#[test]
fn thirteen_identification_codes_are_let_through(rt: HostRuntime) -> Result<(), Fail> {
    let tags: [&[u8; 7]; 7] = [
        b"{4000}?", b"{4100}?", b"{4200}?", b"{4400}?", b"{5000}?", b"{5100}?", b"{5200}?",
    ];
    for tag in tags {
        for id in 0..=127 {
            if is_text_byte(id) {
                let party = with_id(tag, id);
                let want = if b" UTFDCB954321".contains(&id) {
                    0
                } else {
                    117
                };
                let bytes = submission(b"1033", b"SVC");
                assert_eq!(rt;
                    failed_with(rt.alloc(), &bytes, &party, b"")?,
                    want,
                    "{tag:?} {id}"
                );
            }
        }
    }
    Ok(())
}

#[test]
fn a_customer_transfer_names_both_customers(rt: HostRuntime) -> Result<(), Fail> {
    let cases: [(&[u8; 4], &[u8; 3], &[u8], u16); 6] = [
        (b"1000", b"CTR", b"", 109),
        (b"1000", b"CTR", b"{4200}D1*", 110),
        (b"1000", b"CTR", b"{5000}D1*", 109),
        (b"1031", b"DRB", b"", 111),
        (b"1031", b"DRC", b"{5400}021000021", 111),
        (b"1032", b"DRW", b"", 0),
    ];
    for (kind, code, more, want) in cases {
        let bytes = submission(kind, code);
        assert_eq!(rt; failed_with(rt.alloc(), &bytes, more, b"")?, want);
    }
    Ok(())
}
