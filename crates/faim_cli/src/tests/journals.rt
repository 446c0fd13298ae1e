// A host's journal in a real file.
use super::words_of;
use crate::between::run_between;
use crate::file_site::{FileSite, open_file};
use crate::wall_clock::WallClock;
use faim_base::NoMemory;
use faim_top::{Reason, Status};
use site_core::MemSite;
use std::fs;
use std::test::Fail;
use world_text::{ScriptFault, Why};

const CONFIG: &[u8] =
    b"host T 99991231 2400 2400\naccount 021000021 BANKA001 1000000 0\naccount 121042882 BANKB001 0 0\n";

// A submission on the last date of the calendar.
const SUBMISSION: &[u8] =
    b"\0\0\0\x8f\x01BANKA001{1500}30USERREQ1T {1510}1000{1520}99991231BANKA001000001{2000}000000150000{3100}021000021ALPHA BANK*{3400}121042882BETA BANK*{3600}BTR";

// How a run over a file ended, and how many bytes of frames it sent.
fn run_on_file(
    rt: &HostRuntime,
    words: &[&str],
    path: &str,
    input: &[u8],
) -> Result<(Status, usize), NoMemory> {
    let alloc = rt.alloc();
    let words = words_of(alloc, words)?;
    let mut site = FileSite::new(open_file(rt, path), Vec::new(alloc));
    let mut stage: Vec<MemSite> = Vec::new(alloc);
    let mut clock = WallClock::new(rt);
    let ran = run_between(
        alloc,
        words.as_slice(),
        input,
        Vec::new(alloc),
        &mut site,
        &mut stage,
        &mut clock,
    );
    Ok((ran.status, site.line.len()))
}

// The frames of the first session are 110 and 216 bytes long, and so are those that are sent again.
#[test]
fn a_host_keeps_its_journal_in_a_file(rt: HostRuntime) -> Result<(), Fail> {
    let path = "faim_cli_host_journal";
    let _ = fs::remove_file(&rt, path);
    let init = ["host", "init", path];
    let session = ["host", path];
    assert_eq!(rt; run_on_file(&rt, &init, path, b"host")?.1, 0);
    assert_eq!(rt;
        run_on_file(&rt, &session, path, b"")?,
        (Status::NoJournal, 0)
    );
    assert_eq!(rt; run_on_file(&rt, &init, path, CONFIG)?, (Status::Done, 0));
    assert_eq!(rt;
        run_on_file(&rt, &init, path, CONFIG)?,
        (Status::NoJournal, 0)
    );
    assert_eq!(rt;
        run_on_file(&rt, &session, path, SUBMISSION)?,
        (Status::Done, 326)
    );
    assert_eq!(rt; run_on_file(&rt, &session, path, b"")?, (Status::Done, 326));
    assert_eq!(rt;
        run_on_file(&rt, &session, path, SUBMISSION)?,
        (Status::Done, 436)
    );
    assert_eq!(rt;
        run_on_file(&rt, &session, ".", b"")?,
        (Status::DiskFault, 0)
    );
    let kept = fs::read(&rt, path)?;
    assert_eq!(rt; kept.len(), 307);
    assert!(rt; fs::remove_file(&rt, path).is_ok());
    Ok(())
}
