// What no clause says of a decoder: its answers to literal bytes, however they are cut.
ghost use Rattle.std.specs.Prelude.{[]};
ghost use Rattle.faim_stream.specs.Fed.{IsFed};

use crate::Decoder;
use faim_base::{Refused, TagNo, after, before};
use faim_message::{Form, Message, encode};
use std::alloc::Global;
use std::test::Fail;

const JOINED: &[u8] =
    b"{1500}30USERREQ1T {1510}1000{1520}20240102BANKA001000001{2000}000000150000{3100}021000021ALPHA BANK*{3400}121042882BETA BANK*{3600}BTR";

const WITH_FEEDS: &[u8] =
    b"{1500}30USERREQ1T \n{1510}1000\n{1520}20240102BANKA001000001\n{2000}000000150000\n{3100}021000021ALPHA BANK        *\n{3400}121042882BETA BANK         *\n{3600}BTR   \n";

const WITH_RETURNS: &[u8] =
    b"{1500}30INVOICE1P \r\n{1510}1000\r\n{1520}20240102BANKA001000002\r\n{2000}000000025000\r\n{3100}021000021ALPHA BANK*\r\n{3400}121042882BETA BANK*\r\n{3600}CTR\r\n{4320}REF 2024-1*\r\n{6000}INVOICE 1*THANK YOU*\r\n";

// A decoder to which the pieces were fed, or the first refusal.
fn fed(alloc: Global, form: Form, pieces: &[&[u8]]) -> Result<Decoder, Refused> {
    let mut decoder = match Decoder::new(alloc, form) {
        Ok(decoder) => decoder,
        Err(_) => return Err(Refused::NoMemory),
    };
    for piece in pieces {
        match decoder.feed(piece) {
            Ok(()) => {}
            Err(refused) => return Err(refused),
        }
    }
    Ok(decoder)
}

// The message that the pieces spell together, or why they spell none.
fn message_of(alloc: Global, form: Form, pieces: &[&[u8]]) -> Result<Message, Refused> {
    match fed(alloc, form, pieces) {
        Ok(decoder) => decoder.finish(),
        Err(refused) => Err(refused),
    }
}

// The pieces spell the message that the bytes spell.
fn give(alloc: Global, pieces: &[&[u8]], bytes: &[u8]) -> Result<bool, Fail> {
    match message_of(alloc, Form::Input, pieces) {
        Ok(message) => {
            let mut out = Vec::new(alloc);
            encode(&message, &mut out)?;
            Ok(out.as_slice() == bytes)
        }
        Err(_) => Ok(false),
    }
}

// The bytes are a message in whatever way they are cut in three.
fn give_in_three(alloc: Global, bytes: &[u8]) -> Result<bool, Fail> {
    for end in 0..=bytes.len() {
        let (front, last) = (before(bytes, end), after(bytes, end));
        for cut in 0..=front.len() {
            if !give(alloc, &[before(front, cut), after(front, cut), last], bytes)? {
                return Ok(false);
            }
        }
    }
    Ok(true)
}

#[test]
fn messages_are_read_in_every_way_to_cut_them_in_three(rt: HostRuntime) -> Result<(), Fail> {
    for bytes in [JOINED, WITH_FEEDS, WITH_RETURNS] {
        assert!(rt; give_in_three(rt.alloc(), bytes)?);
    }
    Ok(())
}

#[test]
fn a_message_is_read_byte_by_byte(rt: HostRuntime) -> Result<(), Fail> {
    let mut decoder = Decoder::new(rt.alloc(), Form::Input)?;
    for b in WITH_RETURNS {
        assert_eq!(rt; decoder.feed(&[*b]), Ok(()));
        assert_eq!(rt; decoder.feed(b""), Ok(()));
    }
    assert!(rt; decoder.finish().is_ok());
    Ok(())
}

// Bytes that are read, piece by piece, the piece in which a byte is barred, and its place.
type Barred = (&'static [&'static [u8]], &'static [u8], usize);

const BARRED: [Barred; 7] = [
    (&[b"{15", b"00}30USERREQ1T "], b"x", 18),
    (&[b"{1500}30USERREQ1T {15"], b"0", 21),
    (&[b"{1500}30USERREQ1T \r", b"\n{1510}1000\r"], b"\n\n", 32),
    (&[b"{1500}30USERREQ1T \r"], b"{", 19),
    (&[b"", b"{", b""], b"x", 1),
    (&[JOINED, b" "], b"YYY", 137),
    (&[], b"{1510}1000", 3),
];

#[test]
fn the_first_byte_with_which_no_message_goes_on_is_named(rt: HostRuntime) -> Result<(), Fail> {
    for (fronts, last, place) in BARRED {
        let mut decoder = fed(rt.alloc(), Form::Input, fronts)
            .ok()
            .ok_or("the bytes before are read")?;
        for piece in [last, b"", JOINED] {
            assert_eq!(rt; decoder.feed(piece), Err(Refused::Byte(place)));
        }
        assert!(rt;
            decoder
                .finish()
                .is_err_and(|refused| refused == Refused::Byte(place))
        );
    }
    Ok(())
}

// Why the pieces spell no submission. None where they spell one.
fn refusal(alloc: Global, pieces: &[&[u8]]) -> Option<Refused> {
    message_of(alloc, Form::Input, pieces).err()
}

#[test]
fn an_end_is_judged_as_that_of_all_bytes(rt: HostRuntime) -> Result<(), Fail> {
    let cases: [(&[&[u8]], Option<Refused>); 5] = [
        (&[], Some(Refused::Cut)),
        (&[b"{1500}30USER", b"REQ1T"], Some(Refused::Cut)),
        (&[b"{1500}30USERREQ1T \r"], Some(Refused::Cut)),
        (&[b"{1500}30USERREQ1T ", b"\r\r"], Some(Refused::Byte(19))),
        (&[JOINED], None),
    ];
    for (pieces, refused) in cases {
        assert_eq!(rt; refusal(rt.alloc(), pieces), refused);
    }
    let missed = TagNo::new(1510).ok_or("1510 is a tag")?;
    assert_eq!(rt;
        refusal(
            rt.alloc(),
            &[b"{1500}30USERREQ1T ", b"{2000}0000", b"00150000"]
        ),
        Some(Refused::Missing(missed))
    );
    Ok(())
}

#[test]
fn one_decoder_reads_many_messages(rt: HostRuntime) -> Result<(), Fail> {
    let alloc = rt.alloc();
    let mut decoder = Decoder::new(alloc, Form::Input)?;
    assert!(rt; reads_between_refusals(alloc, &mut decoder, JOINED)?);
    assert!(rt; reads_between_refusals(alloc, &mut decoder, WITH_FEEDS)?);
    assert!(rt; reads_between_refusals(alloc, &mut decoder, WITH_RETURNS)?);
    assert!(rt; reads_between_refusals(alloc, &mut decoder, JOINED)?);
    Ok(())
}

// The bytes are read in the room of a decoder to which nothing was fed, and it is as it was: after refusals of each kind too.
fn reads_between_refusals(alloc: Global, decoder: &mut Decoder, bytes: &[u8]) -> Result<bool, Fail>
    requires { IsFed decoder.old [] }
    ensures { IsFed decoder.new [] }
{
    let barred = decoder.decode(b"{1500}30USERREQ1T x");
    let cut = decoder.decode(b"{15");
    let missing = decoder.decode(b"{1500}30USERREQ1T {2000}000000150000");
    let read = decoder.decode(bytes);
    let mut out = Vec::new(alloc);
    match read {
        Ok(message) => encode(&message, &mut out)?,
        Err(_) => return Ok(false),
    }
    Ok(
        is_refused(&barred, Refused::Byte(18))
            && is_refused(&cut, Refused::Cut)
            && is_missing(&missing)
            && out.as_slice() == bytes,
    )
}

fn is_refused(answer: &Result<Message, Refused>, refused: Refused) -> bool {
    match answer {
        Ok(_) => false,
        Err(found) => *found == refused,
    }
}

fn is_missing(answer: &Result<Message, Refused>) -> bool {
    matches!(answer, Err(Refused::Missing(_)))
}
