// The bytes of configurations, written out.
use crate::{CodecFault, read_config, spell_config};
use faim_base::{Aba, Endpoint, padded};
use host_ledger::Account;
use std::alloc::Global;
use std::test::Fail;

// What comes before the accounts.
const FIELDS: &[u8; 12] = b"CT\0\0\x22\x3f\x04\x38\x04\x56\0\x02";

const FIRST: &[u8; 33] = b"021000021BANKA001\0\0\0\0\0\x0f\x42\x40\0\0\0\0\0\0\0\0";

const SECOND: &[u8; 33] = b"121042882BANKB001\0\0\0\0\0\0\0\0\0\0\0\0\0\0\0\0";

fn configuration(alloc: Global, fields: &[u8], first: &[u8]) -> Result<Vec<u8>, Fail> {
    let mut bytes = Vec::new(alloc);
    bytes.extend_from_slice(fields)?;
    bytes.extend_from_slice(first)?;
    bytes.extend_from_slice(SECOND)?;
    Ok(bytes)
}

fn account(aba: &[u8; 9], endpoint: &[u8; 8], opening: i64, floor: i64) -> Result<Account, Fail> {
    Ok(Account {
        aba: Aba::read(aba).ok_or("a number")?,
        endpoint: Endpoint::read(endpoint).ok_or("an endpoint")?,
        opening,
        floor,
    })
}

#[test]
fn a_configuration_of_two_accounts_has_78_bytes(rt: HostRuntime) -> Result<(), Fail> {
    let alloc = rt.alloc();
    let bytes = configuration(alloc, FIELDS, FIRST)?;
    assert!(rt; bytes.len() == 78);
    let first = account(b"021000021", b"BANKA001", 1_000_000, 0)?;
    let second = account(b"121042882", b"BANKB001", 0, 0)?;
    match read_config(alloc, &bytes) {
        Ok(config) => {
            assert!(rt; config.env == b'T' && config.date.get() == 8767);
            assert!(rt; config.customer == 1080 && config.bank == 1110);
            assert!(rt; config.accounts.as_slice() == [first, second].as_slice());
            let mut out = Vec::new(alloc);
            spell_config(&config, &mut out)?;
            assert!(rt; out.as_slice() == bytes.as_slice());
        }
        Err(_) => assert!(rt; false),
    }
    Ok(())
}

#[test]
fn a_floor_may_be_negative(rt: HostRuntime) -> Result<(), Fail> {
    let alloc = rt.alloc();
    let first = b"021000021BANKA001\0\0\0\0\0\0\0\0\xff\xff\xff\xff\xff\xff\xfe\x0c";
    let bytes = configuration(alloc, FIELDS, first)?;
    let config = read_config(alloc, &bytes).ok().ok_or("a configuration")?;
    match config.accounts.as_slice() {
        [account, _] => assert!(rt; account.opening == 0 && account.floor == -500),
        _ => assert!(rt; false),
    }
    Ok(())
}

#[test]
fn a_configuration_has_all_its_bytes_and_no_others(rt: HostRuntime) -> Result<(), Fail> {
    let alloc = rt.alloc();
    let mut bytes = configuration(alloc, FIELDS, FIRST)?;
    for count in 0..bytes.len() {
        assert!(rt; is_damaged(alloc, &bytes[..count]), "cut at {count}");
    }
    bytes.push(0)?;
    assert!(rt; is_damaged(alloc, &bytes));
    Ok(())
}

#[test]
fn bytes_of_no_configuration_are_damaged(rt: HostRuntime) -> Result<(), Fail> {
    let alloc = rt.alloc();
    for fields in [
        b"DT\0\0\x22\x3f\x04\x38\x04\x56\0\x02",
        b"CX\0\0\x22\x3f\x04\x38\x04\x56\0\x02",
        b"CT\0\x2c\x95\xd4\x04\x38\x04\x56\0\x02",
        b"CT\0\0\x22\x3f\x04\x38\x04\x56\0\x01",
        b"CT\0\0\x22\x3f\x04\x38\x04\x56\0\x03",
    ] {
        let bytes = configuration(alloc, fields, FIRST)?;
        assert!(rt; is_damaged(alloc, &bytes));
    }
    for first in [
        b"02100002ABANKA001\0\0\0\0\0\x0f\x42\x40\0\0\0\0\0\0\0\0",
        b"021000021BANK 001\0\0\0\0\0\x0f\x42\x40\0\0\0\0\0\0\0\0",
    ] {
        let bytes = configuration(alloc, FIELDS, first)?;
        assert!(rt; is_damaged(alloc, &bytes));
    }
    Ok(())
}

fn is_damaged(alloc: Global, bytes: &[u8]) -> bool {
    matches!(read_config(alloc, bytes), Err(CodecFault::Damaged))
}

// What the bytes of a configuration hold: its cutoffs, so many accounts on so many endpoints, the opening balance and the
// floor of each, and the number and the endpoint of one account more.
#[derive(Clone, Copy)]
struct Held {
    customer: u16,
    bank: u16,
    accounts: u16,
    endpoints: u16,
    opening: i64,
    floor: i64,
    last: &'static [u8],
}

const HELD: Held = Held {
    customer: 1_080,
    bank: 1_110,
    accounts: 2,
    endpoints: 2,
    opening: 0,
    floor: 0,
    last: b"021000021BANK0000",
};

#[test]
fn each_range_ends_at_its_limit(rt: HostRuntime) -> Result<(), Fail> {
    let alloc = rt.alloc();
    for (held, sound) in [
        (HELD, true),
        (
            Held {
                customer: 1_440,
                ..HELD
            },
            true,
        ),
        (
            Held {
                customer: 1_441,
                ..HELD
            },
            false,
        ),
        (
            Held {
                bank: 1_440,
                ..HELD
            },
            true,
        ),
        (
            Held {
                bank: 1_441,
                ..HELD
            },
            false,
        ),
        (
            Held {
                opening: -999_999_999_999,
                ..HELD
            },
            true,
        ),
        (
            Held {
                opening: -1_000_000_000_000,
                ..HELD
            },
            false,
        ),
        (
            Held {
                opening: 999_999_999_999,
                ..HELD
            },
            true,
        ),
        (
            Held {
                opening: 1_000_000_000_000,
                ..HELD
            },
            false,
        ),
        (
            Held {
                floor: -999_999_999_999,
                ..HELD
            },
            true,
        ),
        (
            Held {
                floor: -1_000_000_000_000,
                ..HELD
            },
            false,
        ),
        (
            Held {
                floor: 999_999_999_999,
                ..HELD
            },
            true,
        ),
        (
            Held {
                floor: 1_000_000_000_000,
                ..HELD
            },
            false,
        ),
        (
            Held {
                accounts: 0,
                ..HELD
            },
            true,
        ),
        (
            Held {
                accounts: 0,
                last: b"",
                ..HELD
            },
            false,
        ),
        (
            Held {
                accounts: 1_023,
                ..HELD
            },
            true,
        ),
        (
            Held {
                accounts: 1_024,
                ..HELD
            },
            false,
        ),
        (
            Held {
                accounts: 64,
                endpoints: 64,
                ..HELD
            },
            true,
        ),
        (
            Held {
                accounts: 65,
                endpoints: 65,
                ..HELD
            },
            false,
        ),
        (
            Held {
                last: b"000000000BANK0000",
                ..HELD
            },
            false,
        ),
        (
            Held {
                last: b"021000022BANK0000",
                ..HELD
            },
            false,
        ),
        (
            Held {
                last: b"021000021OPERATOR",
                ..HELD
            },
            false,
        ),
    ] {
        let bytes = bytes_of(alloc, &held)?;
        match read_config(alloc, &bytes) {
            Ok(config) => {
                assert!(rt; sound && config.is_sound());
                let mut out = Vec::new(alloc);
                spell_config(&config, &mut out)?;
                assert!(rt; out.as_slice() == bytes.as_slice());
            }
            Err(fault) => assert!(rt; !sound && fault == CodecFault::Damaged),
        }
    }
    Ok(())
}

fn bytes_of(alloc: Global, held: &Held) -> Result<Vec<u8>, Fail> {
    let mut bytes = Vec::new(alloc);
    bytes.extend_from_slice(b"CT\0\0\x22\x3f")?;
    bytes.extend_from_slice(&held.customer.to_be_bytes())?;
    bytes.extend_from_slice(&held.bank.to_be_bytes())?;
    let more = if held.last.is_empty() { 0 } else { 1 };
    bytes.extend_from_slice(&held.accounts.saturating_add(more).to_be_bytes())?;
    for number in 0..held.accounts {
        bytes.extend_from_slice(&aba_number(number))?;
        bytes.extend_from_slice(&endpoint_number(number % held.endpoints.max(1)))?;
        bytes.extend_from_slice(&held.opening.to_be_bytes())?;
        bytes.extend_from_slice(&held.floor.to_be_bytes())?;
    }
    if !held.last.is_empty() {
        bytes.extend_from_slice(held.last)?;
        bytes.extend_from_slice(&held.opening.to_be_bytes())?;
        bytes.extend_from_slice(&held.floor.to_be_bytes())?;
    }
    Ok(bytes)
}

// The number of a bank that begins with zeros and these four digits, with its check digit.
fn aba_number(number: u16) -> [u8; 9] {
    let mut digits = *b"000000000";
    padded(u64::from(number % 10_000), &mut digits[4..8]);
    let weighed = 7 * (number / 1_000 % 10)
        + number / 100 % 10
        + 3 * (number / 10 % 10)
        + 7 * (number % 10);
    padded(u64::from((10 - weighed % 10) % 10), &mut digits[8..]);
    digits
}

fn endpoint_number(number: u16) -> [u8; 8] {
    let mut name = *b"BANK0000";
    padded(u64::from(number % 10_000), &mut name[4..]);
    name
}
