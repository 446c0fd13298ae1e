use super::{ALPHA, HOST, add_lines, replayed};
use crate::{Reason, Status};
use faim_base::Bytes;
use std::test::Fail;
use world_text::{ScriptFault, Why};

#[test]
fn a_text_that_is_no_script_is_answered_by_one_line(rt: HostRuntime) -> Result<(), Fail> {
    let cases: [(&[&str], &[u8], u64, Why); 4] = [
        (&[], b"line 1 ended\n", 1, Why::Ended),
        (&[HOST], b"line 2 ended\n", 2, Why::Ended),
        (&[HOST, ALPHA, ALPHA], b"line 3 twice\n", 3, Why::Twice),
        (
            &[HOST, ALPHA, "begin", "submit BANKA01 HELLO", ""],
            b"line 4 value\n",
            4,
            Why::Value,
        ),
    ];
    for (lines, want, line, why) in cases {
        let mut text = Bytes::new(rt.alloc());
        add_lines(&mut text, lines)?;
        let ran = replayed(rt.alloc(), text.as_slice())?;
        let fault = ScriptFault { line, why };
        assert_eq!(rt; ran.status, Status::Refused(Reason::Script(fault)));
        assert_eq!(rt; ran.status.code(), 3);
        assert_eq!(rt; ran.written.as_slice(), want);
    }
    Ok(())
}

#[test]
fn a_script_may_end_without_events_or_a_line_end(rt: HostRuntime) -> Result<(), Fail> {
    let script = b"host T 20240102 2400 2400\naccount 021000021 BANKA001 1 0\nbegin";
    let report = b"cycle 20240102\nbalance 021000021 1\noutputs BANKA001 0\nend\n";
    let ran = replayed(rt.alloc(), script)?;
    assert_eq!(rt; ran.status, Status::Done);
    assert_eq!(rt; ran.written.as_slice(), report.as_slice());
    Ok(())
}

#[test]
fn texts_of_any_bytes_are_submitted(rt: HostRuntime) -> Result<(), Fail> {
    let report =
        b"1 turned E001\ncycle 20240102\nbalance 021000021 1000000\noutputs BANKA001 0\nend\n";
    for count in [0_usize, 255, 8_192] {
        let mut script = Bytes::new(rt.alloc());
        add_lines(&mut script, &[HOST, ALPHA, "begin"])?;
        script.extend(b"submit BANKA001 ")?;
        for place in 0..count {
            let byte = (place % 256) as u8;
            script.push(if byte == b'\n' { b' ' } else { byte })?;
        }
        let ran = replayed(rt.alloc(), script.as_slice())?;
        assert_eq!(rt; ran.written.as_slice(), report.as_slice(), "{count} bytes");
    }
    Ok(())
}
