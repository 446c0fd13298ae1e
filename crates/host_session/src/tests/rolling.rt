// The end of a cycle.
use super::{ACK, ACK_AGAIN, OUTPUT, PAYMENT, has_sent, has_size, made, served};
use std::test::Fail;

const ROLL: &[u8] = b"\0\0\0\x11\x05OPERATOR20240103";

// The payment as its sender sends it again.
const MARKED: &[u8] =
    b"\0\0\0\x8f\x01BANKA001{1500}30USERREQ1TP{1510}1000{1520}20240102BANKA001000001{2000}000000150000{3100}021000021ALPHA BANK*{3400}121042882BETA BANK*{3600}BTR";

#[test]
fn the_end_of_a_cycle_is_sent_to_each_endpoint(rt: HostRuntime) -> Result<(), Fail> {
    let alloc = rt.alloc();
    let mut site = made(alloc, 0)?;
    let input = [PAYMENT, ROLL, MARKED, ROLL, PAYMENT];
    assert_eq!(rt; served(alloc, &mut site, &input)?, Ok(()));
    let ends: [&[u8]; 6] = [
        ACK,
        OUTPUT,
        b"\0\0\0\x62\x04BANKA001{1100}30T E{1110}01020930FAIM{1120}20240102BANKA00100000101020930FAIM{9000}NEXT 20240103*",
        b"\0\0\0\x62\x04BANKB001{1100}30T E{1110}01020930FAIM{1120}20240102BANKB00100000201020930FAIM{9000}NEXT 20240103*",
        ACK_AGAIN,
        ACK_AGAIN,
    ];
    assert!(rt; has_sent(&site, 0, &ends) && has_size(&mut site, 321));
    Ok(())
}

#[test]
fn a_cycle_without_outputs_ends_with_number_one(rt: HostRuntime) -> Result<(), Fail> {
    let alloc = rt.alloc();
    let mut site = made(alloc, 0)?;
    assert_eq!(rt; served(alloc, &mut site, &[ROLL])?, Ok(()));
    let ends: [&[u8]; 2] = [
        b"\0\0\0\x62\x04BANKA001{1100}30T E{1110}01020930FAIM{1120}20240102BANKA00100000101020930FAIM{9000}NEXT 20240103*",
        b"\0\0\0\x62\x04BANKB001{1100}30T E{1110}01020930FAIM{1120}20240102BANKB00100000101020930FAIM{9000}NEXT 20240103*",
    ];
    assert!(rt; has_sent(&site, 0, &ends) && has_size(&mut site, 114));
    Ok(())
}

#[test]
fn the_end_of_a_cycle_is_sent_again_by_a_session(rt: HostRuntime) -> Result<(), Fail> {
    let alloc = rt.alloc();
    let mut site = made(alloc, 0)?;
    assert_eq!(rt; served(alloc, &mut site, &[PAYMENT, ROLL])?, Ok(()));
    let back: &[u8] = b"\0\0\0\x11\x05OPERATOR20240102";
    assert_eq!(rt; served(alloc, &mut site, &[back, PAYMENT])?, Ok(()));
    let again: [&[u8]; 3] = [
        b"\0\0\0\x62\x04BANKA001{1100}30TPE{1110}01020930FAIM{1120}20240102BANKA00100000101020930FAIM{9000}NEXT 20240103*",
        b"\0\0\0\x62\x04BANKB001{1100}30TPE{1110}01020930FAIM{1120}20240102BANKB00100000201020930FAIM{9000}NEXT 20240103*",
        ACK_AGAIN,
    ];
    assert!(rt; has_sent(&site, 4, &again) && has_size(&mut site, 321));
    Ok(())
}
