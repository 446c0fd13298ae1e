use crate::{EditNo, print_edit, print_table, text_of};
use faim_base::Reject;
use std::test::Fail;

#[test]
fn the_table_is_printed(rt: HostRuntime) -> Result<(), Fail> {
    let want = b"BTR 1000 1002 1008 1500 1502 1508 1600 1602 1608\n\
        CKS 1600 1602 1608\n\
        CTR 1000 1002 1008 1500 1502 1508 1600 1602 1608\n\
        DEP 1600 1602 1608\n\
        DRB 1031 1631\n\
        DRC 1031 1631\n\
        DRW 1032 1632\n\
        FFR 1600 1602 1608\n\
        FFS 1600 1602 1608\n\
        SVC 1001 1007 1033 1090 1501 1507 1590 1601 1607 1633 1690\n\
        E101 FORMAT VERSION IS NOT 30\n\
        E102 TEST OR PRODUCTION CODE IS WRONG\n\
        E103 DUPLICATION CODE IS WRONG\n\
        E104 BUSINESS FUNCTION CODE UNKNOWN\n\
        E105 TYPE AND SUBTYPE NOT FOR CODE\n\
        E106 SENDER CHECK DIGIT IS WRONG\n\
        E107 RECEIVER CHECK DIGIT IS WRONG\n\
        E108 AMOUNT IS ZERO\n\
        E109 TAG 4200 IS MISSING\n\
        E110 TAG 5000 IS MISSING\n\
        E111 TAG 4400 IS MISSING\n\
        E112 TAG 3500 IS MISSING\n\
        E113 TAG 9000 NOT FOR CODE\n\
        E114 TAG 4400 NOT FOR CODE\n\
        E115 TAG 5400 NOT FOR CODE\n\
        E116 TAG 6110 NOT FOR CODE\n\
        E117 ID CODE IS NOT LISTED\n\
        E161 SENDER NOT SERVED ON THIS LINE\n\
        E162 RECEIVER IS NOT SERVED\n";
    let text = print_table(rt.alloc(), 1)?;
    assert_eq!(rt; text.as_slice(), want.as_slice());
    Ok(())
}

#[test]
fn listed_refusals_have_texts(rt: HostRuntime) {
    let cases: [(u8, u16, Option<&[u8]>); 33] = [
        (b'E', 101, Some(b"FORMAT VERSION IS NOT 30")),
        (b'E', 102, Some(b"TEST OR PRODUCTION CODE IS WRONG")),
        (b'E', 103, Some(b"DUPLICATION CODE IS WRONG")),
        (b'E', 104, Some(b"BUSINESS FUNCTION CODE UNKNOWN")),
        (b'E', 105, Some(b"TYPE AND SUBTYPE NOT FOR CODE")),
        (b'E', 106, Some(b"SENDER CHECK DIGIT IS WRONG")),
        (b'E', 107, Some(b"RECEIVER CHECK DIGIT IS WRONG")),
        (b'E', 108, Some(b"AMOUNT IS ZERO")),
        (b'E', 109, Some(b"TAG 4200 IS MISSING")),
        (b'E', 110, Some(b"TAG 5000 IS MISSING")),
        (b'E', 111, Some(b"TAG 4400 IS MISSING")),
        (b'E', 112, Some(b"TAG 3500 IS MISSING")),
        (b'E', 113, Some(b"TAG 9000 NOT FOR CODE")),
        (b'E', 114, Some(b"TAG 4400 NOT FOR CODE")),
        (b'E', 115, Some(b"TAG 5400 NOT FOR CODE")),
        (b'E', 116, Some(b"TAG 6110 NOT FOR CODE")),
        (b'E', 117, Some(b"ID CODE IS NOT LISTED")),
        (b'E', 161, Some(b"SENDER NOT SERVED ON THIS LINE")),
        (b'E', 162, Some(b"RECEIVER IS NOT SERVED")),
        (b'E', 1, Some(b"TEXT IS NOT A MESSAGE")),
        (b'E', 2, Some(b"IMAD IS NOT VALID")),
        (b'F', 401, Some(b"BALANCE BELOW FLOOR")),
        (b'H', 101, Some(b"CYCLE DATE IS NOT CURRENT")),
        (b'H', 102, Some(b"INPUT SOURCE IS NOT THIS LINE")),
        (b'I', 501, Some(b"OUTPUT NUMBERS ARE USED UP")),
        (b'W', 301, Some(b"CUSTOMER CUTOFF IS PAST")),
        (b'W', 302, Some(b"BANK CUTOFF IS PAST")),
        (b'X', 201, Some(b"IMAD IS KNOWN WITH OTHER TEXT")),
        (b'E', 118, None),
        (b'E', 0, None),
        (b'F', 101, None),
        (b'H', 103, None),
        (b'e', 101, None),
    ];
    for (category, code, want) in cases {
        assert_eq!(rt; text_of(Reject { category, code }), want, "refusal {code}");
    }
}

#[test]
fn edits_have_numbers(rt: HostRuntime) {
    for (n, there) in [
        (100, false),
        (101, true),
        (117, true),
        (118, false),
        (160, false),
        (161, true),
        (162, true),
        (163, false),
    ] {
        assert_eq!(rt;
            EditNo::new(n).map(|edit| edit.get()),
            if there { Some(n) } else { None }
        );
    }
}

#[test]
fn an_edit_is_printed_with_its_text(rt: HostRuntime) -> Result<(), Fail> {
    let edit = EditNo::new(107).ok_or("an edit")?;
    let mut line = Vec::new(rt.alloc());
    line.extend_from_slice(b"edit ")?;
    print_edit(edit, &mut line)?;
    assert_eq!(rt;
        line.as_slice(),
        b"edit E107 RECEIVER CHECK DIGIT IS WRONG".as_slice()
    );
    let want = Reject {
        category: b'E',
        code: 107,
    };
    assert_eq!(rt; edit.reject(), want);
    Ok(())
}
