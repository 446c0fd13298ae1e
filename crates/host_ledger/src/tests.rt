use crate::*;
use faim_base::{Aba, CycleDate, Endpoint, Reject};
use std::alloc::Global;
use std::test::Fail;

mod balances;

fn account(aba: &[u8; 9], endpoint: &[u8; 8]) -> Result<Account, Fail> {
    Ok(Account {
        aba: Aba::read(aba).ok_or("a number")?,
        endpoint: Endpoint::read(endpoint).ok_or("an endpoint")?,
        opening: 1_000_000,
        floor: -500,
    })
}

// A configuration with these accounts.
fn config(alloc: Global, list: &[Account]) -> Result<Config, Fail> {
    let mut accounts = Accounts::new(alloc);
    accounts.extend(list)?;
    Ok(Config {
        env: b'T',
        date: CycleDate::new(8767).ok_or("a date")?,
        customer: 1080,
        bank: 1110,
        accounts,
    })
}

fn number(digits: &[u8; 9]) -> Result<Aba, Fail> {
    Ok(Aba::read(digits).ok_or("a number")?)
}

fn endpoint(name: &[u8; 8]) -> Result<Endpoint, Fail> {
    Ok(Endpoint::read(name).ok_or("an endpoint")?)
}

// Two accounts on two endpoints.
fn two(alloc: Global) -> Result<Accounts, Fail> {
    let mut accounts = Accounts::new(alloc);
    accounts.push(account(b"021000021", b"BANKA001")?)?;
    accounts.push(account(b"121042882", b"BANKB001")?)?;
    Ok(accounts)
}

#[test]
fn accounts_are_found_by_number(rt: HostRuntime) -> Result<(), Fail> {
    let accounts = two(rt.alloc())?;
    match account_in(accounts.as_slice(), &number(b"121042882")?) {
        Some(account) => assert_eq!(rt; account.endpoint.bytes(), *b"BANKB001"),
        None => assert!(rt; false),
    }
    assert!(rt; account_in(accounts.as_slice(), &number(b"011000015")?).is_none());
    Ok(())
}

#[test]
fn a_configuration_finds_its_accounts(rt: HostRuntime) -> Result<(), Fail> {
    let accounts = two(rt.alloc())?;
    let config = config(rt.alloc(), accounts.as_slice())?;
    match config.account(&number(b"021000021")?) {
        Some(account) => assert_eq!(rt; account.endpoint.bytes(), *b"BANKA001"),
        None => assert!(rt; false),
    }
    Ok(())
}

#[test]
fn endpoints_are_found_by_their_first_account(rt: HostRuntime) -> Result<(), Fail> {
    let alloc = rt.alloc();
    let accounts = two(alloc)?;
    let second = endpoint(b"BANKB001")?;
    assert!(rt; has_endpoint(accounts.as_slice(), &second));
    assert!(rt; !has_endpoint(&accounts.as_slice()[..1], &second));
    let mut endpoints = endpoints_of(alloc, accounts.as_slice())?;
    let known = account(b"011000015", b"BANKA001")?;
    add_endpoint(&mut endpoints, accounts.as_slice(), &known)?;
    match endpoints.as_slice() {
        [a, b] => assert!(rt; a.bytes() == *b"BANKA001" && b.bytes() == *b"BANKB001"),
        _ => assert!(rt; false),
    }
    Ok(())
}

#[test]
fn a_configuration_is_sound_or_not(rt: HostRuntime) -> Result<(), Fail> {
    let alloc = rt.alloc();
    let first = account(b"021000021", b"BANKA001")?;
    for (second, sound) in [
        (account(b"121042882", b"BANKB001")?, true),
        (account(b"121042882", b"BANKA001")?, true),
        (account(b"121042882", b"OPERATOR")?, false),
        (account(b"121042883", b"BANKB001")?, false),
    ] {
        assert_eq!(rt; second.is_sound(), sound);
        assert_eq!(rt; config(alloc, &[first, second])?.is_sound(), sound);
    }
    assert!(rt; !config(alloc, &[first, first])?.is_sound());
    assert!(rt; !config(alloc, &[])?.is_sound());
    assert!(rt; is_env(b'P') && !is_env(b'X'));
    assert!(rt; is_balance(-999_999_999_999) && !is_balance(-1_000_000_000_000));
    Ok(())
}

// The refusals that there are, and whether each is kept.
const REFUSALS: [(u8, u16, bool); 28] = [
    (b'E', 1, false),
    (b'E', 2, false),
    (b'E', 101, true),
    (b'E', 102, true),
    (b'E', 103, true),
    (b'E', 104, true),
    (b'E', 105, true),
    (b'E', 106, true),
    (b'E', 107, true),
    (b'E', 108, true),
    (b'E', 109, true),
    (b'E', 110, true),
    (b'E', 111, true),
    (b'E', 112, true),
    (b'E', 113, true),
    (b'E', 114, true),
    (b'E', 115, true),
    (b'E', 116, true),
    (b'E', 117, true),
    (b'E', 161, true),
    (b'E', 162, true),
    (b'F', 401, true),
    (b'H', 101, true),
    (b'H', 102, false),
    (b'I', 501, true),
    (b'W', 301, true),
    (b'W', 302, true),
    (b'X', 201, false),
];

#[test]
fn the_listed_refusals_are_kept_but_four(rt: HostRuntime) -> Result<(), Fail> {
    for (_, listed, _) in REFUSALS {
        for code in [listed.saturating_sub(1), listed, listed.saturating_add(1)] {
            for category in 0..=255 {
                let kept = REFUSALS.contains(&(category, code, true));
                let reject = Reject { category, code };
                assert!(rt; is_recorded(reject) == kept, "{category} {code}");
            }
        }
    }
    Ok(())
}
