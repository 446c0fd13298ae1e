// What a bank of the test line reads on 2024-01-02: what no clause says of literal bytes.
ghost use Rattle.std.specs.Prelude.{◌≡◌};
ghost use Rattle.faim_message.specs.declared.form.Form.{Form};

mod strange;

use crate::*;
use bank_books::BankOpening;
use faim_base::{CycleDate, Endpoint, Imad, OutPos, Refused, Reject, Seq, TagNo, Verdict};
use faim_message::{Form, Message};
use std::alloc::Global;
use std::test::Fail;

// What a host sends of a payment that it takes, of one that it refuses, and at the end of a cycle.
const TAKEN: &[u8] =
    b"{1100}30T 2{1110}01020930FAIM{1120}20240102BANKB00100000101020930FAIM{1520}20240102BANKA001000001";

const REFUSED: &[u8] =
    b"{1100}30TP3{1110}01020930FAIM{1130}F401BALANCE BELOW FLOOR*{1520}20240102BANKA001000002";

const DELIVERED: &[u8] =
    b"{1100}30T N{1110}01020930FAIM{1120}20240102BANKB00100000101020930FAIM{1500}30USERREQ1T {1510}1000{1520}20240102BANKA001000001{2000}000000150000{3100}021000021ALPHA BANK*{3400}121042882BETA BANK*{3600}BTR";

const SENT_AGAIN: &[u8] =
    b"{1100}30TPN{1110}01020930FAIM{1120}20240102BANKB00100000101020930FAIM{1500}30USERREQ1T {1510}1000{1520}20240102BANKA001000001{2000}000000150000{3100}021000021ALPHA BANK*{3400}121042882BETA BANK*{3600}BTR";

const CYCLE_END: &[u8] =
    b"{1100}30T E{1110}01020930FAIM{1120}20240102BANKB00100000201020930FAIM{9000}NEXT 20240103*";

// A draft with an LF after each tag, and the submission that it becomes.
const DRAFT: &[u8] =
    b"{1500}30USERREQ1TP\n{1510}1000\n{2000}000000150000\n{3100}021000021*\n{3400}121042882*\n{3600}BTR\n";

const NUMBERED: &[u8] =
    b"{1500}30USERREQ1T \n{1510}1000\n{1520}20240102BANKA001000001\n{2000}000000150000\n{3100}021000021*\n{3400}121042882*\n{3600}BTR\n";

const MARKED: &[u8] =
    b"{1500}30USERREQ1TP\n{1510}1000\n{1520}20240102BANKA001000001\n{2000}000000150000\n{3100}021000021*\n{3400}121042882*\n{3600}BTR\n";

fn opening(name: &[u8; 8]) -> Result<BankOpening, Fail> {
    Ok(BankOpening {
        endpoint: Endpoint::read(name).ok_or("an endpoint")?,
        env: b'T',
        date: CycleDate::new(8_767).ok_or("a date")?,
    })
}

fn imad(text: &[u8; 22]) -> Result<Imad, Fail> {
    Ok(Imad::read(text)?)
}

#[test]
fn acknowledgements_tell_verdicts(rt: HostRuntime) -> Result<(), Fail> {
    let payer = opening(b"BANKA001")?;
    let taken = Verdict::Taken {
        dest: Endpoint::read(b"BANKB001").ok_or("an endpoint")?,
        seq: Seq::new(1).ok_or("a number")?,
    };
    let refused = Verdict::Refused(Reject {
        category: b'F',
        code: 401,
    });
    let mut reader = AckReader::new(rt.alloc())?;
    let cases = [
        (TAKEN, b"20240102BANKA001000001", taken),
        (REFUSED, b"20240102BANKA001000002", refused),
    ];
    for (payload, named, verdict) in cases {
        let told = AckRead {
            imad: imad(named)?,
            verdict,
        };
        tells(&mut reader, &payer, payload, &told)?;
    }
    Ok(())
}

fn tells(
    reader: &mut AckReader,
    payer: &BankOpening,
    payload: &[u8],
    want: &AckRead,
) -> Result<(), Fail> {
    match reader.read(payer, payload) {
        Ok(Some(told)) => {
            if told == *want {
                Ok(())
            } else {
                Err(Fail::from("another verdict"))
            }
        }
        Ok(None) => Err(Fail::from("a verdict")),
        Err(fault) => Err(Fail::from(fault)),
    }
}

#[test]
fn outputs_give_texts_with_blank_marks(rt: HostRuntime) -> Result<(), Fail> {
    let payee = opening(b"BANKB001")?;
    let mut reader = OutputReader::new(rt.alloc())?;
    gives(
        &mut reader,
        &payee,
        DELIVERED,
        b"20240102000001",
        DELIVERED,
        None,
    )?;
    gives(
        &mut reader,
        &payee,
        SENT_AGAIN,
        b"20240102000001",
        DELIVERED,
        None,
    )?;
    let next = CycleDate::new(8_768);
    gives(
        &mut reader,
        &payee,
        CYCLE_END,
        b"20240102000002",
        CYCLE_END,
        next,
    )
}

fn gives(
    reader: &mut OutputReader,
    payee: &BankOpening,
    payload: &[u8],
    place: &[u8; 14],
    text: &[u8],
    next: Option<CycleDate>,
) -> Result<(), Fail> {
    let at = OutPos::read(place).ok_or("a position")?;
    match reader.read(payee, payload)? {
        Some(read) => {
            if read.at != at || read.text.as_slice() != text || read.next != next {
                return Err(Fail::from("another output"));
            }
        }
        None => return Err(Fail::from("an output")),
    }
    is_kept(reader, payee, at, text, next)
}

// The text is kept with this position and this next date, and with no others.
fn is_kept(
    reader: &mut OutputReader,
    payee: &BankOpening,
    at: OutPos,
    text: &[u8],
    next: Option<CycleDate>,
) -> Result<(), Fail> {
    let elsewhere = OutPos::read(b"20240102000003").ok_or("a position")?;
    let other = CycleDate::new(8_769);
    if !reader.keeps_output(payee, at, text, next)?
        || reader.keeps_output(payee, elsewhere, text, next)?
        || reader.keeps_output(payee, at, text, other)?
        || reader.keeps_output(payee, at, SENT_AGAIN, next)?
    {
        return Err(Fail::from("another answer"));
    }
    Ok(())
}

#[test]
fn drafts_are_numbered(rt: HostRuntime) -> Result<(), Fail> {
    let mut reader = DraftReader::new(rt.alloc())?;
    match reader.read(DRAFT)? {
        DraftRead::Message(message) => {
            if message.form() != Form::Draft {
                return Err(Fail::from("a draft"));
            }
            becomes(rt.alloc(), message)
        }
        DraftRead::Refused(_) => Err(Fail::from("a draft")),
    }
}

fn becomes(alloc: Global, message: Message) -> Result<(), Fail>
    requires { message.form ≡ Form.Draft }
{
    let text = number_draft(alloc, message, imad(b"20240102BANKA001000001")?)?;
    if text.as_slice() != NUMBERED {
        return Err(Fail::from("another text"));
    }
    Ok(())
}

#[test]
fn texts_that_are_no_drafts_have_their_faults(rt: HostRuntime) -> Result<(), Fail> {
    let mut reader = DraftReader::new(rt.alloc())?;
    let missing = TagNo::new(1510).ok_or("a tag")?;
    let cases: [(&[u8], Refused); 4] = [
        (b"{1500}30USERREQ1T ", Refused::Missing(missing)),
        (b"{1500}30USERREQ1T {", Refused::Cut),
        (NUMBERED, Refused::Byte(31)),
        (b"", Refused::Cut),
    ];
    for (text, fault) in cases {
        match reader.read(text)? {
            DraftRead::Refused(found) => assert_eq!(rt; found, fault),
            DraftRead::Message(_) => return Err(Fail::from("a fault")),
        }
    }
    Ok(())
}

#[test]
fn a_draft_is_kept_under_its_own_imad(rt: HostRuntime) -> Result<(), Fail> {
    let mut reader = KeptReader::new(rt.alloc())?;
    let cases: [(&[u8], &[u8; 22], bool); 4] = [
        (NUMBERED, b"20240102BANKA001000001", true),
        (NUMBERED, b"20240102BANKA001000002", false),
        (MARKED, b"20240102BANKA001000001", false),
        (DRAFT, b"20240102BANKA001000001", false),
    ];
    for (text, named, kept) in cases {
        assert_eq!(rt; reader.keeps_draft(&imad(named)?, text)?, kept);
    }
    Ok(())
}
