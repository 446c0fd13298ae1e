ghost use Rattle.std.specs.Prelude.{◌<◌};

use super::{Ran, Streams, bytes, morning, owned, run_between, run_over};
use crate::{Reason, Status};
use faim_base::{Bytes, NoMemory, Places, Refused, TagNo};
use faim_edits::EditNo;
use site_core::{MemSink, MemSite, MemSource, Source};
use std::alloc::Global;
use std::test::Fail;

const JOINED: &[u8] =
    b"{1500}30USERREQ1T {1510}1000{1520}20240102BANKA001000001{2000}000000150000{3100}021000021ALPHA BANK*{3400}121042882BETA BANK*{3600}BTR";

// The same message with LF after each tag, the names filled up with blanks, and a last star element without its star.
const IN_LINES: &[u8] =
    b"{1500}30USERREQ1T \n{1510}1000\n{1520}20240102BANKA001000001\n{2000}000000150000\n{3100}021000021ALPHA BANK        *\n{3400}121042882BETA BANK         *\n{3600}BTR   \n";

// A payment of a customer, with CR and LF between its tags and nothing after the last.
const OF_CUSTOMER: &[u8] =
    b"{1500}30INVOICE1P \r\n{1510}1000\r\n{1520}20240102BANKA001000002\r\n{2000}000000025000\r\n{3100}021000021ALPHA BANK*\r\n{3400}121042882BETA BANK*\r\n{3600}CTR\r\n{4200}D123456789*JOHN DOE*1 MAIN ST*ANYTOWN*\r\n{4320}REF 2024-1*\r\n{5000}D987654321*ACME CORP*\r\n{6000}INVOICE 1*INVOICE 2*INVOICE 3*THANK YOU*";

const FULL_NAME: &[u8] =
    b"{1500}30USERREQ1T {1510}1000{1520}20240102BANKA001000001{2000}000000150000{3100}021000021ABCDEFGHIJKLMNOPQR{3400}121042882BETA BANK*{3600}BTR";

const NAME_TOO_LONG: &[u8] =
    b"{1500}30USERREQ1T {1510}1000{1520}20240102BANKA001000001{2000}000000150000{3100}021000021ABCDEFGHIJKLMNOPQRS{3400}121042882BETA BANK*{3600}BTR";

// The check digit of this receiver holds, though no account has the number.
const TO_NOBODY: &[u8] =
    b"{1500}30USERREQ1T {1510}1000{1520}20240102BANKA001000001{2000}000000150000{3100}021000021ALPHA BANK*{3400}231380104BETA BANK*{3600}BTR";

// The check digit of this receiver is wrong.
const TO_WRONG_DIGIT: &[u8] =
    b"{1500}30USERREQ1T {1510}1000{1520}20240102BANKA001000001{2000}000000150000{3100}021000021ALPHA BANK*{3400}021000022BETA BANK*{3600}BTR";

// An input is checked that comes in pieces of this size.
fn checked(alloc: Global, input: &[u8], size: usize) -> Result<Ran, NoMemory>
    requires { 0 < size }
{
    let cuts = cuts_after(alloc, size, input.len())?;
    let streams = Streams {
        cuts: cuts.as_slice(),
        read_fails: &[],
        write_fails: &[],
    };
    run_over(alloc, &["check"], input, &streams)
}

// A size that is larger than each input here.
const WHOLE: usize = 10_000;

fn joined(alloc: Global, front: &[u8], after: &[u8]) -> Result<Bytes, NoMemory> {
    let mut all = bytes(alloc, front)?;
    all.extend(after)?;
    Ok(all)
}

// Cuts of so many bytes into pieces of this size.
fn cuts_after(alloc: Global, size: usize, length: usize) -> Result<Places, NoMemory>
    requires { 0 < size }
{
    let mut cuts = Places::new(alloc);
    for cut in 1..length {
        if cut % size == 0 {
            cuts.push(cut)?;
        }
    }
    Ok(cuts)
}

#[test]
fn a_message_is_accepted_and_written_again(rt: HostRuntime) -> Result<(), Fail> {
    for message in [JOINED, IN_LINES, OF_CUSTOMER, FULL_NAME, TO_NOBODY] {
        let wanted = joined(rt.alloc(), b"accepted\n", message)?;
        let ran = checked(rt.alloc(), message, WHOLE)?;
        assert_eq!(rt; ran.status, Status::Done);
        assert_eq!(rt; ran.written.as_slice(), wanted.as_slice());
    }
    Ok(())
}

#[test]
fn an_input_is_refused_at_its_first_wrong_byte(rt: HostRuntime) -> Result<(), Fail> {
    let alloc = rt.alloc();
    let other_break = joined(alloc, &IN_LINES[..160], b"\r\n")?;
    let tag_again = joined(alloc, JOINED, b"{6000}HELLO*{6000}AGAIN*")?;
    let cases: [(&[u8], &[u8], usize); 3] = [
        (other_break.as_slice(), b"byte 160\n", 160),
        (tag_again.as_slice(), b"byte 148\n", 148),
        (NAME_TOO_LONG, b"byte 107\n", 107),
    ];
    for (input, line, place) in cases {
        let ran = checked(alloc, input, WHOLE)?;
        assert_eq!(rt;
            ran.status,
            Status::Refused(Reason::Text(Refused::Byte(place)))
        );
        assert_eq!(rt; ran.written.as_slice(), line);
    }
    Ok(())
}

#[test]
fn pieces_change_no_answer(rt: HostRuntime) -> Result<(), Fail> {
    let alloc = rt.alloc();
    let inputs: [&[u8]; 7] = [
        JOINED,
        IN_LINES,
        OF_CUSTOMER,
        NAME_TOO_LONG,
        &JOINED[..125],
        &OF_CUSTOMER[..20],
        TO_WRONG_DIGIT,
    ];
    for input in inputs {
        let whole = checked(alloc, input, WHOLE)?;
        for size in [1, 2, 64] {
            let ran = checked(alloc, input, size)?;
            assert_eq!(rt; ran.status, whole.status);
            assert_eq!(rt; ran.written.as_slice(), whole.written.as_slice());
        }
    }
    Ok(())
}

#[test]
fn an_input_that_ends_too_early_is_refused(rt: HostRuntime) -> Result<(), Fail> {
    let alloc = rt.alloc();
    let code = TagNo::new(3600).ok_or("the code's tag")?;
    let returned = joined(alloc, OF_CUSTOMER, b"\r")?;
    let cases: [(&[u8], &[u8], Refused); 3] = [
        (b"", b"cut\n", Refused::Cut),
        (returned.as_slice(), b"cut\n", Refused::Cut),
        (&JOINED[..125], b"missing 3600\n", Refused::Missing(code)),
    ];
    for (input, line, why) in cases {
        let ran = checked(alloc, input, WHOLE)?;
        assert_eq!(rt; ran.status, Status::Refused(Reason::Text(why)));
        assert_eq!(rt; ran.written.as_slice(), line);
        assert_eq!(rt; ran.status.code(), 3);
    }
    Ok(())
}

#[test]
fn the_first_edit_that_fails_is_told(rt: HostRuntime) -> Result<(), Fail> {
    let cases: [(&[u8], &[u8], u16); 3] = [
        (
            TO_WRONG_DIGIT,
            b"edit E107 RECEIVER CHECK DIGIT IS WRONG\n",
            107,
        ),
        (
            b"{1500}30USERREQ1X {1510}1000{1520}20240102BANKA001000001{2000}000000150000{3100}021000021ALPHA BANK*{3400}021000022BETA BANK*{3600}BTR",
            b"edit E102 TEST OR PRODUCTION CODE IS WRONG\n",
            102,
        ),
        (
            b"{1500}30USERREQ1PR{1510}1000{1520}20240102BANKA001000001{2000}000000000000{3100}021000021ALPHA BANK*{3400}121042882BETA BANK*{3600}BTR",
            b"edit E103 DUPLICATION CODE IS WRONG\n",
            103,
        ),
    ];
    for (input, line, number) in cases {
        let ran = checked(rt.alloc(), input, WHOLE)?;
        let number = EditNo::new(number).ok_or("an edit")?;
        assert_eq!(rt; ran.status, Status::Refused(Reason::Edit(number)));
        assert_eq!(rt; ran.written.as_slice(), line);
        assert_eq!(rt; ran.status.code(), 3);
    }
    Ok(())
}

// A message, and so many thousands of letters after it.
fn with_letters(alloc: Global, thousands: usize) -> Result<Bytes, NoMemory> {
    let mut text = bytes(alloc, JOINED)?;
    for _ in 0..thousands {
        text.extend(&[b'x'; 1_000])?;
    }
    Ok(text)
}

// How many bytes a source has left, where that is 4 MB at most.
fn count_left(source: &mut MemSource) -> usize {
    let mut buf = [0; 4_096];
    let mut count: usize = 0;
    for _ in 0..1_000 {
        count = count.saturating_add(source.read(&mut buf).unwrap_or(0));
    }
    count
}

#[test]
fn nothing_is_read_after_a_wrong_byte(rt: HostRuntime) -> Result<(), Fail> {
    let alloc = rt.alloc();
    let words = owned(alloc, &["check"])?;
    for (thousands, size, left) in [
        (5, WHOLE, 1_038),
        (1_000, WHOLE, 996_038),
        (1_000, 64, 999_942),
    ] {
        let input = with_letters(alloc, thousands)?;
        let mut source = MemSource::new(input, cuts_after(alloc, size, 4_235)?, Places::new(alloc));
        let mut sink = MemSink::new(alloc, Places::new(alloc));
        let mut site = MemSite::new(alloc, Places::new(alloc));
        let mut clock = morning(alloc, &[])?;
        let status = run_between(
            alloc,
            words.as_slice(),
            &mut source,
            &mut sink,
            &mut site,
            &mut clock,
        );
        assert_eq!(rt; status, Status::Refused(Reason::Text(Refused::Byte(137))));
        assert_eq!(rt; status.code(), 3);
        assert_eq!(rt; sink.bytes(), b"byte 137\n".as_slice());
        assert_eq!(rt; count_left(&mut source), left);
    }
    Ok(())
}

#[test]
fn faults_end_a_check(rt: HostRuntime) -> Result<(), Fail> {
    let cases: [(&[usize], &[usize], Status); 4] = [
        (&[1], &[], Status::ReadFault),
        (&[2], &[], Status::ReadFault),
        (&[], &[1], Status::WriteFault),
        (&[3], &[2], Status::Done),
    ];
    for (read_fails, write_fails, want) in cases {
        let streams = Streams {
            cuts: &[],
            read_fails,
            write_fails,
        };
        let ran = run_over(rt.alloc(), &["check"], JOINED, &streams)?;
        let is_done = want == Status::Done;
        assert_eq!(rt; ran.status, want);
        assert_eq!(rt; ran.written.as_slice().is_empty(), !is_done);
    }
    Ok(())
}
