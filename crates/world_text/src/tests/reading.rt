use super::{ALPHA, HOST, text_of};
use crate::{Act, Script, read_bank_text, read_config_text, read_script};
use bank_books::BankOpening;
use faim_base::{Aba, CycleDate, Endpoint};
use host_ledger::{Account, Config};
use std::test::Fail;

// A day that begins on 2024-01-02, with cutoffs at 18:00 and 18:30 and two accounts.
const DAY: &[u8] =
    b"host T 20240102 1800 1830\naccount 021000021 BANKA001 1000000 0\naccount 121042882 BANKB001 0 0\n";

#[test]
fn a_text_is_the_configuration_that_it_says(rt: HostRuntime) -> Result<(), Fail> {
    for text in [DAY, &DAY[..DAY.len() - 1]] {
        let Config {
            env,
            date,
            customer,
            bank,
            accounts,
        } = read_config_text(rt.alloc(), text)?;
        assert_eq!(rt; env, b'T');
        assert_eq!(rt; date, CycleDate::read(b"20240102").ok_or("a date")?);
        assert_eq!(rt; (customer, bank), (1_080, 1_110));
        let [first, second] = accounts.as_slice() else {
            return Err("two accounts".into());
        };
        let want = Account {
            aba: Aba::read(b"021000021").ok_or("a number")?,
            endpoint: Endpoint::read(b"BANKA001").ok_or("an endpoint")?,
            opening: 1_000_000,
            floor: 0,
        };
        assert_eq!(rt; *first, want);
        let want = Account {
            aba: Aba::read(b"121042882").ok_or("a number")?,
            endpoint: Endpoint::read(b"BANKB001").ok_or("an endpoint")?,
            opening: 0,
            floor: 0,
        };
        assert_eq!(rt; *second, want);
    }
    Ok(())
}

#[test]
fn a_script_has_its_configuration_and_events(rt: HostRuntime) -> Result<(), Fail> {
    let text = text_of(rt.alloc(), &[HOST, ALPHA, "begin", "submit BANKA001 HELLO"])?;
    let Script { config, events } = read_script(rt.alloc(), text.as_slice())?;
    let Config { date, accounts, .. } = config;
    assert_eq!(rt; date.get(), 8_767);
    assert_eq!(rt; accounts.as_slice().len(), 1);
    match events.as_slice() {
        [event] => match &event.act {
            Act::Submit { text, .. } => assert_eq!(rt; text.as_slice(), b"HELLO".as_slice()),
            _ => assert!(rt; false),
        },
        _ => assert!(rt; false),
    }
    Ok(())
}

// The operator may have a bank's text too.
#[test]
fn a_text_is_the_opening_that_it_says(rt: HostRuntime) -> Result<(), Fail> {
    let cases: [(&[u8], &[u8; 8], u8, u32); 4] = [
        (b"bank BANKA001 T 20240102\n", b"BANKA001", b'T', 8_767),
        (b"bank BANKA001 T 20240102", b"BANKA001", b'T', 8_767),
        (b"bank OPERATOR P 20000101\n", b"OPERATOR", b'P', 0),
        (b"bank ~!,;.:-_ P 99991231", b"~!,;.:-_", b'P', 2_921_939),
    ];
    for (text, endpoint, env, date) in cases {
        let want = BankOpening {
            endpoint: Endpoint::read(endpoint).ok_or("an endpoint")?,
            env,
            date: CycleDate::new(date).ok_or("a date")?,
        };
        let opening = read_bank_text(rt.alloc(), text)?;
        assert_eq!(rt; opening, want);
    }
    Ok(())
}
