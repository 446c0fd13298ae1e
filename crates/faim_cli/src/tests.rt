// What standard input and output are read and written through, over bytes in memory.
use crate::adapters::{StdSink, StdSource};
use crate::between::{Ran, run_between};
use crate::wall_clock::WallClock;
use faim_base::{Failed, NoMemory, Places};
use faim_top::Status;
use site_core::{MemSite, Sink, Source};
use std::alloc::Global;
use std::io::Write;
use std::test::Fail;

mod clocks;
mod files;
mod journals;

fn words_of(alloc: Global, words: &[&str]) -> Result<Vec<String>, NoMemory> {
    let mut texts = Vec::new(alloc);
    for word in words {
        texts.push(word.to_string(alloc)?)?;
    }
    Ok(texts)
}

// A run of one word over bytes, with a site in memory and the machine's clock.
fn run_over<'a, W: Write + Drop>(
    rt: &HostRuntime,
    word: &str,
    input: &'a [u8],
    writer: W,
) -> Result<Ran<&'a [u8], W>, NoMemory> {
    let alloc = rt.alloc();
    let words = words_of(alloc, &[word])?;
    let mut site = MemSite::new(alloc, Places::new(alloc));
    let mut stage: Vec<MemSite> = Vec::new(alloc);
    let mut clock = WallClock::new(rt);
    Ok(run_between(
        alloc,
        words.as_slice(),
        input,
        writer,
        &mut site,
        &mut stage,
        &mut clock,
    ))
}

#[test]
fn a_source_gives_what_its_reader_gives(rt: HostRuntime) {
    let mut source = StdSource::new(b"message".as_slice());
    let mut buf = [0; 4];
    assert_eq!(rt; source.read(&mut buf), Ok(4));
    assert_eq!(rt; buf, *b"mess");
    assert_eq!(rt; source.read(&mut buf), Ok(3));
    assert_eq!(rt; &buf[..3], b"age".as_slice());
    assert_eq!(rt; source.read(&mut buf), Ok(0));
}

#[test]
fn a_writer_that_takes_nothing_has_failed(rt: HostRuntime) {
    let mut room = [0; 5];
    let mut sink = StdSink::new(room.as_mut_slice());
    assert_eq!(rt; sink.write(b"mess"), Ok(4));
    assert_eq!(rt; sink.write(b"age"), Ok(1));
    assert_eq!(rt; sink.write(b"ge"), Err(Failed));
}

#[test]
fn a_run_goes_from_its_reader_to_its_writer(rt: HostRuntime) -> Result<(), Fail> {
    let message =
        b"{1500}30USERREQ1T {1510}1000{1520}20240102BANKA001000001{2000}000000150000{3100}021000021ALPHA BANK*{3400}121042882BETA BANK*{3600}BTR";
    let ran = run_over(&rt, "check", message.as_slice(), Vec::new(rt.alloc()))?;
    assert_eq!(rt; ran.status, Status::Done);
    assert!(rt; ran.reader.is_empty());
    let answer =
        b"accepted\n{1500}30USERREQ1T {1510}1000{1520}20240102BANKA001000001{2000}000000150000{3100}021000021ALPHA BANK*{3400}121042882BETA BANK*{3600}BTR";
    assert_eq!(rt; ran.writer.as_slice(), answer.as_slice());
    Ok(())
}

#[test]
fn a_writer_without_room_ends_a_run(rt: HostRuntime) -> Result<(), Fail> {
    let mut room = [0; 5];
    let ran = run_over(&rt, "replay", b"".as_slice(), room.as_mut_slice())?;
    assert_eq!(rt; ran.status, Status::WriteFault);
    assert_eq!(rt; room, *b"line ");
    Ok(())
}
