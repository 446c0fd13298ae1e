use super::{ALPHA, BETA, FIRST, HOST, Streams, owned, run_over, text_of};
use crate::{Reason, Status, words_after_name};
use faim_base::Places;
use std::io::ErrorKind;
use std::test::Fail;
use world_text::{ScriptFault, Why};

#[test]
fn other_words_are_no_command(rt: HostRuntime) -> Result<(), Fail> {
    let streams = Streams {
        cuts: &[],
        read_fails: &[1],
        write_fails: &[1],
    };
    let cases: [&[&str]; 21] = [
        &["host", "init", "journal", "x"],
        &["bank", "init", "journal", "x"],
        &["bank", "begin", "journal"],
        &["bank"],
        &["Bank", "journal"],
        &["Bank", "init", "journal"],
        &["check", "init", "journal"],
        &["host", "begin", "journal"],
        &["Host", "journal"],
        &[],
        &[""],
        &["replay", "x"],
        &["check", "now"],
        &["host"],
        &["table"],
        &["table", "2"],
        &["table", "9"],
        &["table", "01"],
        &["table", "1", "1"],
        &["Replay"],
        &["replay "],
    ];
    for words in cases {
        let ran = run_over(rt.alloc(), words, b"", &streams)?;
        assert_eq!(rt; ran.status, Status::Usage);
        assert!(rt; ran.written.as_slice().is_empty());
    }
    Ok(())
}

#[test]
fn a_table_needs_no_input(rt: HostRuntime) -> Result<(), Fail> {
    let table =
        b"BTR 1000 1002 1008 1500 1502 1508 1600 1602 1608\nCKS 1600 1602 1608\nCTR 1000 1002 1008 1500 1502 1508 1600 1602 1608\nDEP 1600 1602 1608\nDRB 1031 1631\nDRC 1031 1631\nDRW 1032 1632\nFFR 1600 1602 1608\nFFS 1600 1602 1608\nSVC 1001 1007 1033 1090 1501 1507 1590 1601 1607 1633 1690\nE101 FORMAT VERSION IS NOT 30\nE102 TEST OR PRODUCTION CODE IS WRONG\nE103 DUPLICATION CODE IS WRONG\nE104 BUSINESS FUNCTION CODE UNKNOWN\nE105 TYPE AND SUBTYPE NOT FOR CODE\nE106 SENDER CHECK DIGIT IS WRONG\nE107 RECEIVER CHECK DIGIT IS WRONG\nE108 AMOUNT IS ZERO\nE109 TAG 4200 IS MISSING\nE110 TAG 5000 IS MISSING\nE111 TAG 4400 IS MISSING\nE112 TAG 3500 IS MISSING\nE113 TAG 9000 NOT FOR CODE\nE114 TAG 4400 NOT FOR CODE\nE115 TAG 5400 NOT FOR CODE\nE116 TAG 6110 NOT FOR CODE\nE117 ID CODE IS NOT LISTED\nE161 SENDER NOT SERVED ON THIS LINE\nE162 RECEIVER IS NOT SERVED\n";
    for (write_fails, want) in [(&[9], Status::Done), (&[1], Status::WriteFault)] {
        let streams = Streams {
            cuts: &[],
            read_fails: &[1],
            write_fails,
        };
        let ran = run_over(rt.alloc(), &["table", "1"], b"HELLO", &streams)?;
        assert_eq!(rt; ran.status, want);
        let is_done = want == Status::Done;
        assert_eq!(rt; ran.written.as_slice() == table.as_slice(), is_done);
    }
    Ok(())
}

#[test]
fn faults_of_streams_end_a_run(rt: HostRuntime) -> Result<(), Fail> {
    let script = text_of(rt.alloc(), &[HOST, ALPHA, BETA, "begin", FIRST])?;
    let cuts = [100];
    let cases: [(&[usize], &[usize], &[usize], Status); 5] = [
        (&[], &[1], &[], Status::ReadFault),
        (&[], &[], &[1], Status::WriteFault),
        (&cuts, &[2], &[], Status::ReadFault),
        (&[], &[2], &[], Status::ReadFault),
        (&[], &[4], &[2], Status::Done),
    ];
    for (cuts, read_fails, write_fails, want) in cases {
        let streams = Streams {
            cuts,
            read_fails,
            write_fails,
        };
        let ran = run_over(rt.alloc(), &["replay"], script.as_slice(), &streams)?;
        assert_eq!(rt; ran.status, want);
        let is_done = want == Status::Done;
        assert_eq!(rt; ran.written.as_slice().is_empty(), !is_done);
    }
    Ok(())
}

#[test]
fn cuts_of_reads_change_nothing(rt: HostRuntime) -> Result<(), Fail> {
    let script = text_of(rt.alloc(), &[HOST, ALPHA, BETA, "begin", FIRST])?;
    let report =
        b"1 taken 20240102BANKB001000001\ncycle 20240102\nbalance 021000021 850000\nbalance 121042882 150000\noutputs BANKA001 0\noutputs BANKB001 1\nend\n";
    let mut all = Places::new(rt.alloc());
    for cut in 1..script.as_slice().len() {
        all.push(cut)?;
        for cuts in [&[cut], all.as_slice()] {
            let streams = Streams {
                cuts,
                read_fails: &[],
                write_fails: &[],
            };
            let ran = run_over(rt.alloc(), &["replay"], script.as_slice(), &streams)?;
            assert_eq!(rt; ran.status, Status::Done, "cut at {cut}");
            assert_eq!(rt; ran.written.as_slice(), report.as_slice(), "cut at {cut}");
        }
    }
    Ok(())
}

#[test]
fn a_shell_is_told_how_a_run_ended(rt: HostRuntime) -> Result<(), Fail> {
    let fault = ScriptFault {
        line: 1,
        why: Why::Ended,
    };
    for (status, code, line) in [
        (Status::Done, 0, "faim: done"),
        (
            Status::without_words(ErrorKind::InvalidData),
            2,
            "faim: usage",
        ),
        (Status::Refused(Reason::Script(fault)), 3, "faim: refused"),
        (Status::Refused(Reason::TooLong), 3, "faim: refused"),
        (
            Status::without_words(ErrorKind::OutOfMemory),
            4,
            "faim: no memory",
        ),
        (Status::ReadFault, 5, "faim: read fault"),
        (Status::WriteFault, 6, "faim: write fault"),
        (Status::DiskFault, 7, "faim: disk fault"),
        (Status::LineFault, 8, "faim: line fault"),
        (Status::Damaged { place: 99 }, 9, "faim: damaged at 99"),
        (
            Status::JournalFull {
                tail: 1_073_741_800,
                need: 207,
            },
            10,
            "faim: journal full at 1073741800 needing 207",
        ),
        (Status::NoJournal, 11, "faim: no journal"),
        (Status::ClockFault, 12, "faim: clock fault"),
    ] {
        assert_eq!(rt; status.code(), code);
        assert_eq!(rt; status.to_string(rt.alloc())?.as_str(), line);
    }
    Ok(())
}

#[test]
fn the_name_of_the_program_is_no_word(rt: HostRuntime) -> Result<(), Fail> {
    let all = owned(rt.alloc(), &["faim", "check"])?;
    match words_after_name(all.as_slice()) {
        [word] => assert_eq!(rt; word.as_str(), "check"),
        _ => assert!(rt; false),
    }
    assert!(rt; words_after_name(&[]).is_empty());
    Ok(())
}
