// What is strange to a bank, for each reason (docs/FORMATS.md, "What a bank takes").
use super::opening;
use crate::{AckReader, OutputReader};
use std::test::Fail;

const STRANGE_ACKS: [(&[u8], &str); 13] = [
    (
        b"{1100}30T 2{1110}01020930FAIM{1520}20240102BANKA001000001{9000}X*",
        "no Ack message",
    ),
    (
        b"{1100}30P 2{1110}01020930FAIM{1120}20240102BANKB00100000101020930FAIM{1520}20240102BANKA001000001",
        "its code",
    ),
    (
        b"{1100}30T 2{1110}01020930FAIM{1120}20240102BANKB00100000101020930FAIM",
        "no identifier",
    ),
    (
        b"{1100}30T 2{1110}01020930FAIM{1120}20240102BANKB00100000101020930FAIM{1520}20240102BANKA001000000",
        "no IMAD",
    ),
    (
        b"{1100}30T 2{1110}01020930FAIM{1120}20240102BANKB00100000101020930FAIM{1520}20240102BANKB001000001",
        "of another bank",
    ),
    (
        b"{1100}30T 2{1110}01020930FAIM{1120}20240102BANKB00100000101020930FAIM{1130}F401BALANCE BELOW FLOOR*{1520}20240102BANKA001000001",
        "both tags",
    ),
    (
        b"{1100}30T 2{1110}01020930FAIM{1520}20240102BANKA001000001",
        "neither tag",
    ),
    (
        b"{1100}30T 2{1110}01020930FAIM{1120}20240102BANKB00100000001020930FAIM{1520}20240102BANKA001000001",
        "no OMAD",
    ),
    (
        b"{1100}30T 2{1110}01020930FAIM{1120}20240103BANKB00100000101020930FAIM{1520}20240102BANKA001000001",
        "of another date",
    ),
    (
        b"{1100}30T 3{1110}01020930FAIM{1130}E112TAG 3500 IS MISSING*{1520}20240102BANKA001000001 ",
        "a byte too many",
    ),
    (
        b"{1100}30T 3{1110}01020930FAIM{1130}X201IMAD IS KNOWN WITH OTHER TEXT*{1520}20240102BANKA001000001",
        "not recorded",
    ),
    (
        b"{1100}30T 3{1110}01020930FAIM{1130}E001TEXT IS NOT A MESSAGE*{1520}20240102BANKA001000001",
        "turned away",
    ),
    (
        b"{1100}30T 3{1110}01020930FAIM{1130}F402BALANCE BELOW FLOOR*{1520}20240102BANKA001000001",
        "not listed",
    ),
];

const STRANGE_OUTPUTS: [(&[u8], &str); 12] = [
    (b"{1100}30T S{1110}01020930FAIM", "no Output message"),
    (
        b"{1100}30P S{1110}01020930FAIM{1120}20240102BANKB00100000101020930FAIM",
        "its code",
    ),
    (
        b"{1100}30T S{1110}01020930FAIM{1120}20240102BANKB00100000001020930FAIM",
        "no OMAD",
    ),
    (
        b"{1100}30T S{1110}01020930FAIM{1120}20240102BANKA00100000101020930FAIM",
        "of another bank",
    ),
    (
        b"{1100}30TXS{1110}01020930FAIM{1120}20240102BANKB00100000101020930FAIM",
        "its mark",
    ),
    (
        b"{1100}30T E{1110}01020930FAIM{1120}20240102BANKB00100000101020930FAIM",
        "an end without 9000",
    ),
    (
        b"{1100}30T E{1110}01020930FAIM{1120}20240102BANKB00100000101020930FAIM{9000}NEXT 20240103*X*",
        "two elements",
    ),
    (
        b"{1100}30T E{1110}01020930FAIM{1120}20240102BANKB00100000101020930FAIM{9000}THEN 20240103*",
        "no NEXT",
    ),
    (
        b"{1100}30T E{1110}01020930FAIM{1120}20240102BANKB00100000101020930FAIM{9000}NEXT 20240230*",
        "no date",
    ),
    (
        b"{1100}30T E{1110}01020930FAIM{1120}20240102BANKB00100000101020930FAIM{9000}NEXT 20240102*",
        "no later date",
    ),
    (
        b"{1100}30T E{1110}01020930FAIM{1120}20240102BANKB00100000101020930FAIM{9000}NEX*",
        "a short element",
    ),
    (
        b"{1100}30T S{1110}01020930FAIM{1120}20240102BANKB00199999901020930FAIM",
        "the last number",
    ),
];

#[test]
fn strange_acknowledgements_tell_nothing(rt: HostRuntime) -> Result<(), Fail> {
    let payer = opening(b"BANKA001")?;
    let mut reader = AckReader::new(rt.alloc())?;
    for (payload, why) in STRANGE_ACKS {
        match reader.read(&payer, payload) {
            Ok(Some(_)) => return Err(Fail::from(why)),
            Ok(None) => {}
            Err(fault) => return Err(Fail::from(fault)),
        }
    }
    Ok(())
}

#[test]
fn strange_outputs_give_nothing(rt: HostRuntime) -> Result<(), Fail> {
    let payee = opening(b"BANKB001")?;
    let mut reader = OutputReader::new(rt.alloc())?;
    for (payload, why) in STRANGE_OUTPUTS {
        assert!(rt; reader.read(&payee, payload)?.is_none(), "{why}");
    }
    Ok(())
}
