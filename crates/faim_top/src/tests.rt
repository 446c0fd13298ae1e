mod bank_serving;
mod banking;
mod checking;
mod ends;
mod hosting;
mod keeping;
mod playing;
mod refusing;

use crate::{Status, run};
use faim_base::{Bytes, Moment, Moments, NoMemory, Places};
use site_core::{MemClock, MemSink, MemSite, MemSource};
use std::alloc::Global;

// 2024-01-02 09:30.
const MORNING: u32 = 12_625_050;

const HOST: &str = "host T 20240102 2400 2400";

const ALPHA: &str = "account 021000021 BANKA001 1000000 0";

const BETA: &str = "account 121042882 BANKB001 0 0";

// Three messages that move 1,500.00 from the first account to the second.
const FIRST: &str =
    "submit BANKA001 {1500}30USERREQ1T {1510}1000{1520}20240102BANKA001000001{2000}000000150000{3100}021000021ALPHA BANK*{3400}121042882BETA BANK*{3600}BTR";

const SECOND: &str =
    "submit BANKA001 {1500}30USERREQ1T {1510}1000{1520}20240102BANKA001000002{2000}000000150000{3100}021000021ALPHA BANK*{3400}121042882BETA BANK*{3600}BTR";

const THIRD: &str =
    "submit BANKA001 {1500}30USERREQ1T {1510}1000{1520}20240102BANKA001000003{2000}000000150000{3100}021000021ALPHA BANK*{3400}121042882BETA BANK*{3600}BTR";

// How a run ended, and what it wrote.
#[derive(Debug, Drop)]
struct Ran {
    status: Status,
    written: Bytes,
}

// Where reads end, and which calls of the source and of the sink fail.
#[derive(Clone, Copy)]
struct Streams<'a> {
    cuts: &'a [usize],
    read_fails: &'a [usize],
    write_fails: &'a [usize],
}

// The program over these words and this input, and a site that is empty.
fn run_over(
    alloc: Global,
    words: &[&str],
    input: &[u8],
    streams: &Streams,
) -> Result<Ran, NoMemory> {
    let mut site = MemSite::new(alloc, Places::new(alloc));
    run_on(
        alloc,
        words,
        input,
        streams,
        &mut site,
        morning(alloc, &[])?,
    )
}

// The program over these words, this input, this site and this clock.
fn run_on(
    alloc: Global,
    words: &[&str],
    input: &[u8],
    streams: &Streams,
    site: &mut MemSite,
    clock: MemClock,
) -> Result<Ran, NoMemory> {
    let mut clock = clock;
    let words = owned(alloc, words)?;
    let cuts = places(alloc, streams.cuts)?;
    let fails = places(alloc, streams.read_fails)?;
    let mut source = MemSource::new(bytes(alloc, input)?, cuts, fails);
    let mut sink = MemSink::new(alloc, places(alloc, streams.write_fails)?);
    let status = run_between(
        alloc,
        words.as_slice(),
        &mut source,
        &mut sink,
        site,
        &mut clock,
    );
    let written = bytes(alloc, sink.bytes())?;
    Ok(Ran { status, written })
}

// The program over these objects, and no stage.
fn run_between(
    alloc: Global,
    words: &[String],
    source: &mut MemSource,
    sink: &mut MemSink,
    site: &mut MemSite,
    clock: &mut MemClock,
) -> Status {
    let mut stage: Vec<MemSite> = Vec::new(alloc);
    run(alloc, words, source, sink, site, &mut stage, clock)
}

// A clock that stands at 2024-01-02 09:30.
fn morning(alloc: Global, fails: &[usize]) -> Result<MemClock, NoMemory> {
    let mut readings = Moments::new(alloc);
    match Moment::new(MORNING) {
        Some(moment) => readings.push(moment)?,
        None => unreachable!(),
    }
    Ok(MemClock::new(readings, places(alloc, fails)?))
}

// A script is replayed, and no call fails.
fn replayed(alloc: Global, script: &[u8]) -> Result<Ran, NoMemory> {
    let streams = Streams {
        cuts: &[],
        read_fails: &[],
        write_fails: &[],
    };
    run_over(alloc, &["replay"], script, &streams)
}

fn owned(alloc: Global, words: &[&str]) -> Result<Vec<String>, NoMemory> {
    let mut texts = Vec::new(alloc);
    for word in words {
        texts.push(word.to_string(alloc)?)?;
    }
    Ok(texts)
}

fn bytes(alloc: Global, text: &[u8]) -> Result<Bytes, NoMemory> {
    let mut copy = Bytes::new(alloc);
    copy.extend(text)?;
    Ok(copy)
}

fn places(alloc: Global, places: &[usize]) -> Result<Places, NoMemory> {
    let mut copy = Places::new(alloc);
    copy.extend(places)?;
    Ok(copy)
}

// Lines, each ended by LF.
fn text_of(alloc: Global, lines: &[&str]) -> Result<Bytes, NoMemory> {
    let mut text = Bytes::new(alloc);
    add_lines(&mut text, lines)?;
    Ok(text)
}

fn add_lines(text: &mut Bytes, lines: &[&str]) -> Result<(), NoMemory> {
    for line in lines {
        text.extend(line.as_bytes())?;
        text.push(b'\n')?;
    }
    Ok(())
}
