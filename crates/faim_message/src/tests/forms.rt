use crate::{Breaks, Form, body, decode, encode, with_imad};
use faim_base::{Aba, Cents, CycleDate, Endpoint, Head, IdFault, Imad, Refused, Seq, TagNo};
use std::alloc::Global;
use std::test::Fail;

const TRANSFER: &[u8] =
    b"{1500}30USERREQ1T {1510}1000{1520}20240102BANKA001000001{2000}000000150000{3100}021000021ALPHA BANK*{3400}121042882BETA BANK*{3600}BTR";

// The identifier of that message.
fn identifier() -> Result<Imad, Fail> {
    Ok(Imad {
        date: CycleDate::new(8767).ok_or("2 January 2024")?,
        source: Endpoint::read(b"BANKA001").ok_or("an endpoint")?,
        seq: Seq::new(1).ok_or("a message number")?,
    })
}

// The head of the submission that the bytes are.
fn head_in(alloc: Global, bytes: &[u8]) -> Option<Result<Head, IdFault>> {
    match decode(alloc, bytes, Form::Input) {
        Ok(message) => Some(message.head()),
        Err(_) => None,
    }
}

// Why the bytes are no message, or whether what is read is written again.
fn read_again(alloc: Global, bytes: &[u8], form: Form) -> Result<bool, Refused> {
    let message = match decode(alloc, bytes, form) {
        Ok(message) => message,
        Err(refused) => return Err(refused),
    };
    let mut out = Vec::new(alloc);
    if encode(&message, &mut out).is_err() {
        return Err(Refused::NoMemory);
    }
    Ok(out.as_slice() == bytes)
}

#[test]
fn submissions_are_read_and_written_again(rt: HostRuntime) {
    let cases: [&[u8]; 4] = [
        TRANSFER,
        b"{1500}30USERREQ1T \n{1510}1000\n{1520}20240102BANKA001000001\n{2000}000000150000\n{3100}021000021ALPHA BANK        *\n{3400}121042882BETA BANK         *\n{3600}BTR   \n",
        b"{1500}30INVOICE1P \r\n{1510}1000\r\n{1520}20240102BANKA001000002\r\n{2000}000000025000\r\n{3100}021000021ALPHA BANK*\r\n{3400}121042882BETA BANK*\r\n{3600}CTR\r\n{4200}D123456789*JOHN DOE*1 MAIN ST*ANYTOWN*\r\n{4320}REF 2024-1*\r\n{5000}D987654321*ACME CORP*\r\n{6000}INVOICE 1*INVOICE 2*INVOICE 3*THANK YOU*",
        b"{1500}30USERREQ1T {1510}1000{1520}20240102BANKA001000001{2000}000000150000{3100}021000021ABCDEFGHIJKLMNOPQR{3400}121042882BETA BANK*{3600}BTR",
    ];
    for bytes in cases {
        assert_eq!(rt; read_again(rt.alloc(), bytes, Form::Input), Ok(true));
    }
}

#[test]
fn other_bytes_are_refused_at_their_first_wrong_byte(rt: HostRuntime) {
    let cases: [(&[u8], Refused); 7] = [
        (b"", Refused::Cut),
        (
            b"{1500}30USERREQ1T {1510}1000{1520}20240102BANKA001000001{2000}000000150000{3100}021000021ABCDEFGHIJKLMNOPQRS",
            Refused::Byte(107),
        ),
        (
            b"{1500}30USERREQ1T {1510}1000{1520}20240102BANKA001000001{2000}000000150000{3100}021000021ALPHA BANK*{3400}121042882BETA BANK*{3600}BTR{6000}HELLO*{6000}AGAIN*",
            Refused::Byte(148),
        ),
        (b"{1500}30USERREQ1T \n{1510}1000\r\n", Refused::Byte(29)),
        (b"{1500}30USERREQ1T \r\n{1510}1000\r", Refused::Cut),
        (b"{1500}30USERREQ1T \n\n", Refused::Byte(19)),
        (b"{1510}1000", Refused::Byte(3)),
    ];
    for (bytes, refused) in cases {
        assert_eq!(rt; read_again(rt.alloc(), bytes, Form::Input), Err(refused));
    }
}

#[test]
fn the_least_mandatory_tag_is_missed(rt: HostRuntime) -> Result<(), Fail> {
    let missed = TagNo::new(3600).ok_or("3600 is a tag")?;
    assert_eq!(rt;
        read_again(rt.alloc(), &TRANSFER[..125], Form::Input),
        Err(Refused::Missing(missed))
    );
    let missed = TagNo::new(1510).ok_or("1510 is a tag")?;
    assert_eq!(rt;
        read_again(rt.alloc(), &TRANSFER[..18], Form::Draft),
        Err(Refused::Missing(missed))
    );
    Ok(())
}

#[test]
fn a_message_tells_its_parts(rt: HostRuntime) -> Result<(), Fail> {
    let message = decode(rt.alloc(), TRANSFER, Form::Input)
        .ok()
        .ok_or("a submission")?;
    let code = TagNo::new(3600).ok_or("3600 is a tag")?;
    let note = TagNo::new(6000).ok_or("6000 is a tag")?;
    assert!(rt; message.form() == Form::Input);
    assert!(rt; message.breaks() == Breaks::Joined);
    assert_eq!(rt; message.mark(), b' ');
    assert!(rt; message.get(code).is_some());
    assert!(rt; message.get(note).is_none());
    let text = body(rt.alloc(), &message).ok().ok_or("memory")?;
    assert!(rt; text.as_slice() == TRANSFER);
    Ok(())
}

#[test]
fn a_new_mark_changes_its_byte_alone(rt: HostRuntime) -> Result<(), Fail> {
    let cases: [(Form, &[u8], &[u8]); 2] = [
        (
            Form::Input,
            TRANSFER,
            b"{1500}30USERREQ1TP{1510}1000{1520}20240102BANKA001000001{2000}000000150000{3100}021000021ALPHA BANK*{3400}121042882BETA BANK*{3600}BTR",
        ),
        (
            Form::Ack,
            b"{1100}30T 3{1110}01020930FAIM{1130}E001TEXT IS NOT A MESSAGE*",
            b"{1100}30TP3{1110}01020930FAIM{1130}E001TEXT IS NOT A MESSAGE*",
        ),
    ];
    for (form, bytes, marked) in cases {
        let mut message = decode(rt.alloc(), bytes, form).ok().ok_or("a message")?;
        message.set_mark(b'P');
        let mut out = Vec::new(rt.alloc());
        encode(&message, &mut out).ok().ok_or("memory")?;
        assert_eq!(rt; message.mark(), b'P');
        assert!(rt; out.as_slice() == marked);
    }
    Ok(())
}

#[test]
fn a_submission_gives_its_head(rt: HostRuntime) -> Result<(), Fail> {
    let head = Head {
        imad: identifier()?,
        sender: Aba::read(b"021000021").ok_or("the sender")?,
        receiver: Aba::read(b"121042882").ok_or("the receiver")?,
        code: *b"BTR",
        kind: 10,
        sub: 0,
        amount: Cents::new(150_000).ok_or("an amount")?,
    };
    let undated =
        b"{1500}30USERREQ1T {1510}1000{1520}20240230BANKA001000001{2000}000000150000{3100}021000021ALPHA BANK*{3400}121042882BETA BANK*{3600}BTR";
    assert_eq!(rt; head_in(rt.alloc(), TRANSFER), Some(Ok(head)));
    assert_eq!(rt; head_in(rt.alloc(), undated), Some(Err(IdFault::BadDate)));
    Ok(())
}

#[test]
fn a_draft_gets_its_identifier_after_its_type(rt: HostRuntime) -> Result<(), Fail> {
    let cases: [(&[u8], &[u8]); 2] = [
        (
            b"{1500}30USERREQ1T {1510}1000{2000}000000150000{3100}021000021ALPHA BANK*{3400}121042882BETA BANK*{3600}BTR",
            TRANSFER,
        ),
        (
            b"{1500}30USERREQ1T {2000}000000150000{3100}021000021ALPHA BANK*{3400}121042882BETA BANK*{3600}BTR{1510}1000",
            b"{1500}30USERREQ1T {2000}000000150000{3100}021000021ALPHA BANK*{3400}121042882BETA BANK*{3600}BTR{1510}1000{1520}20240102BANKA001000001",
        ),
    ];
    for (draft, submission) in cases {
        let message = decode(rt.alloc(), draft, Form::Draft)
            .ok()
            .ok_or("a draft")?;
        let numbered = with_imad(rt.alloc(), message, identifier()?)
            .ok()
            .ok_or("memory")?;
        let mut out = Vec::new(rt.alloc());
        encode(&numbered, &mut out).ok().ok_or("memory")?;
        assert!(rt; out.as_slice() == submission);
    }
    Ok(())
}

#[test]
fn what_the_service_writes_is_read_and_written_again(rt: HostRuntime) -> Result<(), Fail> {
    let cases: [(Form, &[u8], u8); 2] = [
        (
            Form::Ack,
            b"{1100}30T 2{1110}01020930FAIM{1120}20240102BANKB00100000101020930FAIM{1520}20240102BANKA001000001",
            b' ',
        ),
        (
            Form::Output,
            b"{1100}30TPN\n{1110}01020930FAIM\n{1120}20240102BANKB00100000101020930FAIM\n{1500}30USERREQ1T \n{1510}1000\n",
            b'P',
        ),
    ];
    for (form, bytes, mark) in cases {
        assert_eq!(rt; read_again(rt.alloc(), bytes, form), Ok(true));
        let message = decode(rt.alloc(), bytes, form).ok().ok_or("a message")?;
        assert_eq!(rt; message.mark(), mark);
    }
    Ok(())
}
