use super::{ALPHA, BANK, BETA, BOTH, HOST, Kind, add_lines, line_told};
use crate::{ScriptFault, ScriptRefused, Why, read_bank_text, read_config_text, read_script};
use faim_base::{Bytes, NoMemory};
use std::alloc::Global;
use std::process::Abort;
use std::test::Fail;

// Lines at the head of a text, and why they may not stand there.
const FIRST_LINES: [(&str, &str); 19] = [
    ("", "shape"),
    (" host T 20240102 2400 2400", "shape"),
    ("hosts X 20240230 1800 1800", "shape"),
    ("host T 20240102 2400", "shape"),
    ("host T 20240102 2400 2400 ", "shape"),
    ("host T 20240102  2400 2400", "shape"),
    ("account 021000021 BANKA001 1000000 0", "shape"),
    ("begin", "shape"),
    ("host  20240102 2400 2400", "value"),
    ("host t 20240102 2400 2400", "value"),
    ("host T 20240230 2400 2400", "value"),
    ("host T 2024010 2400 2400", "value"),
    ("host T 20240102 2401 2400", "value"),
    ("host T 20240102 2400 2360", "value"),
    ("host T 20240102 1860 2400", "value"),
    ("host T 20240102 2400 930", "value"),
    ("host T 20240102 24000 2400", "value"),
    ("host T 20240102 2400 +930", "value"),
    ("host T 20240102 2400 2400\r", "value"),
];

// Lines after an account.
const ACCOUNT_LINES: [(&str, &str); 33] = [
    ("", "shape"),
    ("begin ", "shape"),
    ("begin\r", "shape"),
    ("host T 20240102 2400 2400", "shape"),
    ("submit BANKA001 HELLO", "shape"),
    ("bank BANKA001", "shape"),
    ("clock 20240102 0930", "shape"),
    ("accounts 021000021 BANKA001 -0 +1", "shape"),
    ("account 231380104 BANKC001 1", "shape"),
    ("account 231380104 BANKC001 1 0 ", "shape"),
    ("account 231380104  BANKC001 1 0", "shape"),
    ("account 231380105 BANKC001 1 0", "value"),
    ("account 23138010 BANKC001 1 0", "value"),
    ("account 23138010A BANKC001 1 0", "value"),
    ("account 231380104 BANKC01 1 0", "value"),
    ("account 231380104 BANKC0*1 1 0", "value"),
    ("account 231380104 BANKC001  0", "value"),
    ("account 231380104 BANKC001 - 0", "value"),
    ("account 231380104 BANKC001 -0 0", "value"),
    ("account 231380104 BANKC001 01 0", "value"),
    ("account 231380104 BANKC001 -01 0", "value"),
    ("account 231380104 BANKC001 00 0", "value"),
    ("account 231380104 BANKC001 +1 0", "value"),
    ("account 231380104 BANKC001 1.5 0", "value"),
    ("account 231380104 BANKC001 1000000000000 0", "value"),
    ("account 231380104 BANKC001 -1000000000000 0", "value"),
    ("account 231380104 BANKC001 0 -0", "value"),
    ("account 231380104 BANKC001 0 +1", "value"),
    ("account 231380104 BANKC001 0 0\r", "value"),
    ("account 021000021 BANKC001 -0 0", "value"),
    ("account 021000021 BANKC001 1 0", "twice"),
    ("account 021000021 OPERATOR 1 0", "twice"),
    ("account 231380104 OPERATOR 1 0", "place"),
];

// Lines after an event.
const EVENT_LINES: [(&str, &str); 28] = [
    ("", "shape"),
    ("begin", "shape"),
    ("host T 20240102 2400 2400", "shape"),
    ("account 231380104 BANKC001 1 0", "shape"),
    ("clock", "shape"),
    ("clock 20240102", "shape"),
    ("clock 20240230 2400 ", "shape"),
    ("clocks 20240102 0930", "shape"),
    ("clock 20240230 0930", "value"),
    ("clock 20240102 2400", "value"),
    ("clock 20240102 0960", "value"),
    ("clock 20240102 930", "value"),
    ("clock 20240102 0930\r", "value"),
    ("submit", "shape"),
    ("submit BANKA001", "shape"),
    ("submit BANKA01", "shape"),
    ("submit\tBANKA001 HELLO", "shape"),
    ("retrieve BANKA001 20240102", "shape"),
    ("retrieve BANKA001 20240102 000001 ", "shape"),
    ("retrieve BANKA01 20240230", "shape"),
    ("submit BANKA01 HELLO", "value"),
    ("submit  HELLO", "value"),
    ("retrieve BANKA01 20240102 000001", "value"),
    ("retrieve BANKA001 20240230 000001", "value"),
    ("retrieve BANKA001  000001", "value"),
    ("retrieve BANKA001 20240102 000000", "value"),
    ("retrieve BANKA001 20240102 00001", "value"),
    ("retrieve BANKA001 20240102 000001\r", "value"),
];

// The first line of a bank's text.
const BANK_LINES: [(&str, &str); 21] = [
    ("", "shape"),
    (" bank BANKA001 T 20240102", "shape"),
    ("banks BANKA01 X 20240230", "shape"),
    ("BANK BANKA001 T 20240102", "shape"),
    ("bank", "shape"),
    ("bank BANKA001", "shape"),
    ("bank BANKA01 X", "shape"),
    ("bank BANKA001 T 20240102 ", "shape"),
    ("bank BANKA001  T 20240102", "shape"),
    ("bank\tBANKA001 T 20240102", "shape"),
    ("host T 20240102 2400 2400", "shape"),
    ("bank BANKA01 T 20240102", "value"),
    ("bank BANKA0012 T 20240102", "value"),
    ("bank BANKA0*1 T 20240102", "value"),
    ("bank  T 20240102", "value"),
    ("bank BANKA001 t 20240102", "value"),
    ("bank BANKA001 TT 20240102", "value"),
    ("bank BANKA001  20240102", "value"),
    ("bank BANKA001 T 20240230", "value"),
    ("bank BANKA001 P 2024010", "value"),
    ("bank BANKA001 T 20240102\r", "value"),
];

fn check_lines(
    rt: &impl Abort,
    alloc: Global,
    kind: Kind,
    before: &[&str],
    cases: &[(&str, &str)],
) -> Result<(), Fail> {
    let number = before.len().saturating_add(1);
    for (line, why) in cases {
        let mut text = Bytes::new(alloc);
        add_lines(&mut text, before)?;
        add_lines(&mut text, &[line])?;
        let told = line_told(alloc, kind, text.as_slice())?;
        let want = format!(in alloc; "line {number} {why}\n")?;
        assert_eq!(rt; told.as_slice(), want.as_bytes(), "{line}");
    }
    Ok(())
}

// The first lines of a configuration are those of a script, each refused at the same line and for the same reason.
#[test]
fn lines_are_refused_for_their_first_reason(rt: HostRuntime) -> Result<(), Fail> {
    for kind in BOTH {
        check_lines(&rt, rt.alloc(), kind, &[], &FIRST_LINES)?;
        check_lines(&rt, rt.alloc(), kind, &[HOST], &[("begin", "shape")])?;
        check_lines(&rt, rt.alloc(), kind, &[HOST, ALPHA], &ACCOUNT_LINES)?;
    }
    let before = [HOST, ALPHA, BETA, "begin", "submit BANKA001 HELLO"];
    check_lines(&rt, rt.alloc(), Kind::Script, &before, &EVENT_LINES)?;
    let accounts = [HOST, ALPHA, BETA];
    check_lines(
        &rt,
        rt.alloc(),
        Kind::Config,
        &accounts,
        &[("begin", "shape"), ("", "shape"), ("account", "shape")],
    )
}

#[test]
fn a_line_of_a_bank_stands_alone(rt: HostRuntime) -> Result<(), Fail> {
    check_lines(&rt, rt.alloc(), Kind::Bank, &[], &BANK_LINES)?;
    check_lines(
        &rt,
        rt.alloc(),
        Kind::Bank,
        &[BANK],
        &[("", "shape"), (BANK, "shape"), ("begin", "shape")],
    )?;
    let cases: [(&[u8], &[u8]); 6] = [
        (b"", b"line 1 ended\n"),
        (b"\n", b"line 1 shape\n"),
        (b"bank BANKA001 T 20240102", b""),
        (b"bank BANKA001 T 20240102\n", b""),
        (b"bank BANKA001 T 20240102\nx", b"line 2 shape\n"),
        (b"bank BANKA001 T 20240230\n\n", b"line 1 value\n"),
    ];
    for (text, want) in cases {
        let told = line_told(rt.alloc(), Kind::Bank, text)?;
        assert_eq!(rt; told.as_slice(), want);
    }
    Ok(())
}

// What is told of a text as a script, and what of it as a configuration; nothing where it is one.
#[test]
fn texts_end_where_their_lines_may(rt: HostRuntime) -> Result<(), Fail> {
    let cases: [(&[u8], &[u8], &[u8]); 9] = [
        (b"", b"line 1 ended\n", b"line 1 ended\n"),
        (b"\n", b"line 1 shape\n", b"line 1 shape\n"),
        (
            b"host T 20240102 2400 2400",
            b"line 2 ended\n",
            b"line 2 ended\n",
        ),
        (
            b"host T 20240102 2400 2400\n",
            b"line 2 ended\n",
            b"line 2 ended\n",
        ),
        (
            b"host T 20240102 2400 2400\n\n",
            b"line 2 shape\n",
            b"line 2 shape\n",
        ),
        (
            b"host T 20240102 2400 2400\naccount 021000021 BANKA001 1 0",
            b"line 3 ended\n",
            b"",
        ),
        (
            b"host T 20240102 2400 2400\naccount 021000021 BANKA001 1 0\nbegin",
            b"",
            b"line 3 shape\n",
        ),
        (
            b"host T 20240102 2400 2400\naccount 021000021 BANKA001 1 0\nbegin\nsubmit",
            b"line 4 shape\n",
            b"line 3 shape\n",
        ),
        (
            b"host T 20240102 2400 2400\naccount 021000021 BANKA001 1 0\n\nbegin\n",
            b"line 3 shape\n",
            b"line 3 shape\n",
        ),
    ];
    for (text, of_script, of_config) in cases {
        let told = line_told(rt.alloc(), Kind::Script, text)?;
        assert_eq!(rt; told.as_slice(), of_script);
        let told = line_told(rt.alloc(), Kind::Config, text)?;
        assert_eq!(rt; told.as_slice(), of_config);
    }
    Ok(())
}

// An account whose number is made of these four digits and a check digit.
fn account(alloc: Global, number: usize, endpoint: &str) -> Result<String, NoMemory> {
    let n = number % 10_000;
    let weighed = 7 * (n / 1_000) + n / 100 % 10 + 3 * (n / 10 % 10) + 7 * (n % 10);
    let check = (10 - weighed % 10) % 10;
    Ok(format!(in alloc; "account 0000{n:04}{check} {endpoint} 0 0")?)
}

// A `host` line, and so many accounts, each with an endpoint of its own if that is wanted.
fn many_accounts(alloc: Global, count: usize, own: bool) -> Result<Bytes, NoMemory> {
    let mut text = Bytes::new(alloc);
    add_lines(&mut text, &[HOST])?;
    for number in 0..count {
        let place = if own { number % 10_000 } else { 0 };
        let endpoint = format!(in alloc; "BANK{place:04}")?;
        let line = account(alloc, number, endpoint.as_str())?;
        add_lines(&mut text, &[line.as_str()])?;
    }
    Ok(text)
}

#[test]
fn accounts_and_endpoints_have_limits(rt: HostRuntime) -> Result<(), Fail> {
    let cases: [(usize, bool, &str, &[u8]); 8] = [
        (
            1_024,
            false,
            "account 231380104 BANK0000 0 0",
            b"line 1026 limit\n",
        ),
        (
            1_024,
            false,
            "account 231380104 OPERATOR 0 0",
            b"line 1026 place\n",
        ),
        (
            1_024,
            false,
            "account 000000000 BANK0000 0 0",
            b"line 1026 twice\n",
        ),
        (
            1_024,
            false,
            "account 231380104 BANK0000 0 -0",
            b"line 1026 value\n",
        ),
        (1_024, false, "", b"line 1026 shape\n"),
        (
            64,
            true,
            "account 231380104 BANKC001 0 0",
            b"line 66 limit\n",
        ),
        (
            64,
            true,
            "account 231380104 OPERATOR 0 0",
            b"line 66 place\n",
        ),
        (
            64,
            true,
            "account 000000000 BANKC001 0 0",
            b"line 66 twice\n",
        ),
    ];
    for (count, own, line, want) in cases {
        let mut text = many_accounts(rt.alloc(), count, own)?;
        add_lines(&mut text, &[line])?;
        let told = line_told(rt.alloc(), Kind::Config, text.as_slice())?;
        assert_eq!(rt; told.as_slice(), want, "{line} after {count}");
    }
    for (count, own) in [(1_024, false), (64, true)] {
        let mut text = many_accounts(rt.alloc(), count, own)?;
        if own {
            add_lines(&mut text, &["account 231380104 BANK0000 0 0"])?;
        }
        let told = line_told(rt.alloc(), Kind::Config, text.as_slice())?;
        assert!(rt; told.as_slice().is_empty(), "{count}");
        add_lines(&mut text, &["begin"])?;
        let told = line_told(rt.alloc(), Kind::Script, text.as_slice())?;
        assert!(rt; told.as_slice().is_empty(), "{count}");
    }
    Ok(())
}

#[test]
fn texts_of_any_bytes_have_a_limit(rt: HostRuntime) -> Result<(), Fail> {
    let cases: [(usize, &[u8]); 4] = [
        (0, b""),
        (255, b""),
        (8_192, b""),
        (8_193, b"line 4 value\n"),
    ];
    for (count, want) in cases {
        let mut script = Bytes::new(rt.alloc());
        add_lines(&mut script, &[HOST, ALPHA, "begin"])?;
        script.extend(b"submit BANKA001 ")?;
        for place in 0..count {
            let byte = (place % 256) as u8;
            script.push(if byte == b'\n' { b' ' } else { byte })?;
        }
        let told = line_told(rt.alloc(), Kind::Script, script.as_slice())?;
        assert_eq!(rt; told.as_slice(), want, "{count} bytes");
    }
    Ok(())
}

fn repeated(alloc: Global, byte: u8, count: usize) -> Result<Vec<u8>, NoMemory> {
    Ok(vec![in alloc; byte; count]?)
}

#[test]
fn texts_have_a_size_limit(rt: HostRuntime) -> Result<(), Fail> {
    for (count, line, why) in [(67_108_864, 1, Why::Shape), (67_108_865, 0, Why::Size)] {
        let text = repeated(rt.alloc(), b'x', count)?;
        let want = ScriptRefused::Fault(ScriptFault { line, why });
        let refused = read_config_text(rt.alloc(), text.as_slice()).err();
        assert_eq!(rt; refused, Some(want), "{count} bytes");
        let refused = read_bank_text(rt.alloc(), text.as_slice()).err();
        assert_eq!(rt; refused, Some(want), "{count} bytes");
        if line == 0 {
            let refused = read_script(rt.alloc(), text.as_slice()).err();
            assert_eq!(rt; refused, Some(want), "{count} bytes");
        }
    }
    Ok(())
}
