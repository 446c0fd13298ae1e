// Outputs are kept one after another, over cycles, and what is missing is asked for.
use super::{has_sent, has_size, made, served};
use std::test::Fail;

const OUTPUT: &[u8] =
    b"\0\0\0\xd4\x04BANKB001{1100}30T N{1110}01020930FAIM{1120}20240102BANKB00100000101020930FAIM{1500}30USERREQ1T {1510}1000{1520}20240102BANKA001000001{2000}000000150000{3100}021000021ALPHA BANK*{3400}121042882BETA BANK*{3600}BTR";

// The end of the cycle as the second output, with the next date.
const END: &[u8] =
    b"\0\0\0\x62\x04BANKB001{1100}30T E{1110}01020930FAIM{1120}20240102BANKB00100000201020930FAIM{9000}NEXT 20240103*";

// A draft of the second bank, and what it is submitted as under the next cycle date.
const DRAFT: &[u8] =
    b"\0\0\0\x73\x06BANKB001{1500}30USERREQ1T {1510}1000{2000}000000150000{3100}021000021ALPHA BANK*{3400}121042882BETA BANK*{3600}BTR";

const SUBMITTED: &[u8] =
    b"\0\0\0\x8f\x01BANKB001{1500}30USERREQ1T {1510}1000{1520}20240103BANKB001000001{2000}000000150000{3100}021000021ALPHA BANK*{3400}121042882BETA BANK*{3600}BTR";

const TICK: &[u8] = b"\0\0\0\x09\x07BANKB001";

const ASKED: &[u8] = b"\0\0\0\x17\x02BANKB00120240102000001";

const ASKED_NEXT: &[u8] = b"\0\0\0\x17\x02BANKB00120240103000001";

#[test]
fn an_output_above_the_wanted_one_is_asked_for_and_not_kept(rt: HostRuntime) -> Result<(), Fail> {
    let alloc = rt.alloc();
    let mut site = made(alloc, b"BANKB001", 0)?;
    assert_eq!(rt; served(alloc, &mut site, &[END])?, Ok(()));
    assert!(rt; has_sent(&site, 0, &[ASKED]) && has_size(&mut site, 36));
    assert_eq!(rt;
        served(alloc, &mut site, &[OUTPUT, OUTPUT, END, OUTPUT, TICK])?,
        Ok(())
    );
    assert!(rt; has_sent(&site, 1, &[ASKED_NEXT]));
    Ok(())
}

#[test]
fn a_draft_after_the_end_of_a_cycle_is_number_one_of_the_next(rt: HostRuntime) -> Result<(), Fail> {
    let alloc = rt.alloc();
    let mut site = made(alloc, b"BANKB001", 0)?;
    assert_eq!(rt; served(alloc, &mut site, &[OUTPUT, END])?, Ok(()));
    assert_eq!(rt; served(alloc, &mut site, &[DRAFT])?, Ok(()));
    assert!(rt; has_sent(&site, 0, &[SUBMITTED]));
    Ok(())
}
