// A production host of two banks, on whose lines texts are submitted.
ghost use Rattle.std.specs.Prelude.{IfOk};
ghost use Rattle.host_ledger.specs.Soundness.{IsConfig};

mod answers;
mod cycles;
mod payments;
mod plain;
mod searches;

use crate::{retrieve, submit};
use faim_base::{Aba, CycleDate, Endpoint, Imad, Moment, OutPos, Reject, Seq, Verdict};
use faim_model::HostOutcome;
use host_core::HostState;
use host_ledger::{Account, Accounts, Config};
use std::alloc::Global;
use std::test::Fail;

// A payment of 1,500.00, with an LF after each tag; again, with its mark; and of a cent more.
const PAYMENT: &[u8] =
    b"{1500}30USERREQ1P \n{1510}1000\n{1520}20240102BANKA001000001\n{2000}000000150000\n{3100}021000021*\n{3400}121042882*\n{3600}BTR\n";

const AGAIN: &[u8] =
    b"{1500}30USERREQ1PP\n{1510}1000\n{1520}20240102BANKA001000001\n{2000}000000150000\n{3100}021000021*\n{3400}121042882*\n{3600}BTR\n";

const A_CENT_MORE: &[u8] =
    b"{1500}30USERREQ1P \n{1510}1000\n{1520}20240102BANKA001000001\n{2000}000000150001\n{3100}021000021*\n{3400}121042882*\n{3600}BTR\n";

// The same payment as a test message, under the next number, and one without an identifier.
const OF_TEST: &[u8] =
    b"{1500}30USERREQ1T {1510}1000{1520}20240102BANKA001000002{2000}000000150000{3100}021000021*{3400}121042882*{3600}BTR";

const UNNUMBERED: &[u8] =
    b"{1500}30USERREQ1P {1510}1000{1520}20240102BANKA001000000{2000}000000150000{3100}021000021*{3400}121042882*{3600}BTR";

fn bank(name: &[u8; 8]) -> Result<Endpoint, Fail> {
    Ok(Endpoint::read(name).ok_or("an endpoint")?)
}

fn account(number: &[u8; 9], name: &[u8; 8], opening: i64) -> Result<Account, Fail> {
    Ok(Account {
        aba: Aba::read(number).ok_or("an account")?,
        endpoint: bank(name)?,
        opening,
        floor: 0,
    })
}

fn two_accounts(alloc: Global) -> Result<Accounts, Fail> {
    let mut accounts = Accounts::new(alloc);
    accounts.push(account(b"021000021", b"BANKA001", 1_000_000)?)?;
    accounts.push(account(b"121042882", b"BANKB001", 0)?)?;
    Ok(accounts)
}

// 2024-01-02, without cutoffs, for these accounts in this environment.
fn config_of(env: u8, accounts: Accounts) -> Result<Config, Fail>
    ensures { IfOk result IsConfig }
{
    let config = Config {
        env,
        date: CycleDate::new(8_767).ok_or("a date")?,
        customer: 1_440,
        bank: 1_440,
        accounts,
    };
    if !config.is_sound() {
        return Err(Fail::from("a sound configuration"));
    }
    Ok(config)
}

fn turned(category: u8, code: u16) -> HostOutcome {
    HostOutcome::TurnedAway(Reject { category, code })
}

// A host of the two banks before its first entry.
fn begun(alloc: Global, env: u8) -> Result<HostState, Fail> {
    let config = config_of(env, two_accounts(alloc)?)?;
    Ok(HostState::new(alloc, config)?)
}

#[test]
fn a_host_does_its_turn_at_each_text(rt: HostRuntime) -> Result<(), Fail> {
    let mut state = begun(rt.alloc(), b'P')?;
    does_each_turn(rt.alloc(), &mut state)?;
    is_given_one(&state)
}

fn does_each_turn(alloc: Global, state: &mut HostState) -> Result<(), Fail> {
    let turns: [(&[u8; 8], &[u8], HostOutcome, usize); 7] = [
        (b"BANKA001", b"{1500}", turned(b'E', 1), 0),
        (b"BANKA001", UNNUMBERED, turned(b'E', 2), 0),
        (b"BANKB001", PAYMENT, turned(b'H', 102), 0),
        (b"BANKA001", PAYMENT, payment_recorded()?, 1),
        (b"BANKA001", AGAIN, payment_known()?, 1),
        (b"BANKA001", A_CENT_MORE, turned(b'X', 201), 1),
        (b"BANKA001", OF_TEST, test_refused()?, 2),
    ];
    for (line, text, want, entries) in turns {
        does_turn(alloc, state, line, text, &want)?;
        has_entries(state, entries)?;
    }
    Ok(())
}

// A text on a line comes to this.
fn does_turn(
    alloc: Global,
    state: &mut HostState,
    line: &[u8; 8],
    text: &[u8],
    want: &HostOutcome,
) -> Result<(), Fail> {
    let reading = Moment::new(12_625_050).ok_or("a moment")?;
    match submit(alloc, state, bank(line)?, reading, text) {
        Ok(outcome) => is_outcome(&outcome, want),
        Err(fault) => Err(Fail::from(fault)),
    }
}

fn is_outcome(found: &HostOutcome, want: &HostOutcome) -> Result<(), Fail> {
    if found != want {
        return Err(Fail::from("another outcome"));
    }
    Ok(())
}

fn payment_recorded() -> Result<HostOutcome, Fail> {
    Ok(HostOutcome::Recorded {
        imad: Imad::read(b"20240102BANKA001000001")?,
        verdict: taken(1)?,
    })
}

fn payment_known() -> Result<HostOutcome, Fail> {
    Ok(HostOutcome::Known {
        imad: Imad::read(b"20240102BANKA001000001")?,
        verdict: taken(1)?,
    })
}

fn test_refused() -> Result<HostOutcome, Fail> {
    Ok(HostOutcome::Recorded {
        imad: Imad::read(b"20240102BANKA001000002")?,
        verdict: refused(b'E', 102),
    })
}

// What the second bank is given, under a number.
fn taken(number: u32) -> Result<Verdict, Fail> {
    Ok(Verdict::Taken {
        dest: bank(b"BANKB001")?,
        seq: Seq::new(number).ok_or("a number")?,
    })
}

fn refused(category: u8, code: u16) -> Verdict {
    Verdict::Refused(Reject { category, code })
}

fn has_entries(state: &HostState, count: usize) -> Result<(), Fail> {
    if state.len() != count {
        return Err(Fail::from("another count of entries"));
    }
    Ok(())
}

// The second bank's retrieval from its first output on gives one.
fn is_given_one(state: &HostState) -> Result<(), Fail> {
    let at = OutPos::read(b"20240102000001").ok_or("a position")?;
    match retrieve(state, bank(b"BANKB001")?, at) {
        Ok(HostOutcome::Retrieved(1)) => Ok(()),
        Ok(_) => Err(Fail::from("another count of outputs")),
        Err(fault) => Err(Fail::from(fault)),
    }
}
