// A ledger beside the plain sums over a list of messages.
ghost use Rattle.std.specs.Prelude.{IfOk};
ghost use Rattle.host_ledger.specs.Soundness.{IsConfig};

use super::{endpoint, number};
use crate::*;
use faim_base::{Cents, CycleDate, Head, Imad, Reject, Seq, Verdict};
use std::alloc::Global;
use std::test::Fail;

// Three accounts, two of them on one line, and a number that none has.
const ALPHA: [u8; 9] = *b"021000021";

const BETA: [u8; 9] = *b"121042882";

const GAMMA: [u8; 9] = *b"011000015";

const NOBODY: [u8; 9] = *b"231380104";

// A message as it counts here: who pays whom by which subtype, how many cents, and whether it was taken.
type Message = ([u8; 9], [u8; 9], u8, u64, bool);

const MESSAGES: [Message; 16] = [
    (ALPHA, BETA, 0, 150_000, true),
    (BETA, ALPHA, 2, 999_999_999_999, true),
    (ALPHA, GAMMA, 8, 1, true),
    (GAMMA, BETA, 32, 7_525, true),
    (BETA, BETA, 0, 40_000, true),
    (ALPHA, BETA, 0, 150_000, false),
    (GAMMA, ALPHA, 32, 999_999_999_999, false),
    (ALPHA, BETA, 1, 10, true),
    (BETA, GAMMA, 7, 20, true),
    (GAMMA, ALPHA, 31, 30, true),
    (ALPHA, BETA, 33, 40, true),
    (BETA, GAMMA, 90, 50, true),
    (GAMMA, GAMMA, 2, 60, true),
    (GAMMA, GAMMA, 2, 60, false),
    (BETA, ALPHA, 8, 0, true),
    (ALPHA, GAMMA, 0, 500_000, true),
];

fn account(aba: [u8; 9], line: &[u8; 8], opening: i64, floor: i64) -> Result<Account, Fail> {
    Ok(Account {
        aba: number(&aba)?,
        endpoint: endpoint(line)?,
        opening,
        floor,
    })
}

// A sound configuration with the three accounts.
fn three(alloc: Global) -> Result<Config, Fail>
    ensures { IfOk result IsConfig }
{
    let mut accounts = Accounts::new(alloc);
    accounts.push(account(ALPHA, b"BANKA001", 1_000_000, 0)?)?;
    accounts.push(account(BETA, b"BANKB001", -5_000, -999_999_999_999)?)?;
    accounts.push(account(GAMMA, b"BANKA001", 0, -10_000)?)?;
    let config = Config {
        env: b'T',
        date: CycleDate::new(8767).ok_or("a date")?,
        customer: 1080,
        bank: 1110,
        accounts,
    };
    if !config.is_sound() {
        return Err("a sound configuration".into());
    }
    Ok(config)
}

fn head(message: &Message) -> Result<Head, Fail> {
    let (sender, receiver, sub, amount, _) = *message;
    Ok(Head {
        imad: Imad {
            date: CycleDate::new(8767).ok_or("a date")?,
            source: endpoint(b"BANKA001")?,
            seq: Seq::new(1).ok_or("a number")?,
        },
        sender: number(&sender)?,
        receiver: number(&receiver)?,
        code: *b"BTR",
        kind: 10,
        sub,
        amount: Cents::new(amount).ok_or("an amount")?,
    })
}

fn verdict(message: &Message) -> Result<Verdict, Fail> {
    let (_, _, _, _, taken) = *message;
    if taken {
        return Ok(Verdict::Taken {
            dest: endpoint(b"BANKB001")?,
            seq: Seq::new(1).ok_or("a number")?,
        });
    }
    Ok(Verdict::Refused(Reject {
        category: b'F',
        code: 401,
    }))
}

// The ledger of the three accounts before any message.
fn opened(alloc: Global) -> Result<Ledger, Fail> {
    let config = three(alloc)?;
    Ok(Ledger::new(alloc, &config)?)
}

// The balances of the three accounts, and of the number that none has.
fn balances(ledger: &Ledger) -> Result<[Option<i128>; 4], Fail> {
    Ok([
        ledger.balance(&number(&ALPHA)?),
        ledger.balance(&number(&BETA)?),
        ledger.balance(&number(&GAMMA)?),
        ledger.balance(&number(&NOBODY)?),
    ])
}

// The same by a walk over the messages.
fn plain_balances(messages: &[Message]) -> [Option<i128>; 4] {
    [
        Some(plain_balance(1_000_000, messages, ALPHA)),
        Some(plain_balance(-5_000, messages, BETA)),
        Some(plain_balance(0, messages, GAMMA)),
        None,
    ]
}

fn plain_balance(opening: i64, messages: &[Message], aba: [u8; 9]) -> i128 {
    let mut balance = i128::from(opening);
    for (sender, receiver, sub, amount, taken) in messages {
        let counts = *taken && [0, 2, 8, 32].contains(sub);
        if counts && *receiver == aba {
            balance = balance.wrapping_add(i128::from(*amount));
        }
        if counts && *sender == aba {
            balance = balance.wrapping_sub(i128::from(*amount));
        }
    }
    balance
}

fn apply(ledger: &mut Ledger, message: &Message) -> Result<(), Fail> {
    ledger.apply(&head(message)?, &verdict(message)?);
    Ok(())
}

fn undo(ledger: &mut Ledger, message: &Message) -> Result<(), Fail> {
    ledger.undo(&head(message)?, &verdict(message)?);
    Ok(())
}

#[test]
fn a_ledger_has_the_plain_sums(rt: HostRuntime) -> Result<(), Fail> {
    let mut ledger = opened(rt.alloc())?;
    for (count, message) in MESSAGES.iter().enumerate() {
        assert_eq!(rt; balances(&ledger)?, plain_balances(&MESSAGES[..count]));
        apply(&mut ledger, message)?;
    }
    let closing = [
        Some(1_000_000_349_998),
        Some(-999_999_847_474),
        Some(492_476),
        None,
    ];
    assert_eq!(rt; balances(&ledger)?, closing);
    for (count, message) in MESSAGES.iter().enumerate().rev() {
        undo(&mut ledger, message)?;
        assert_eq!(rt; balances(&ledger)?, plain_balances(&MESSAGES[..count]));
    }
    Ok(())
}

// Which accounts a message on the line BANKA001 is refused for, as the number of the refusal.
const CHECKS: [([u8; 9], [u8; 9], u16); 5] = [
    (ALPHA, BETA, 0),
    (GAMMA, GAMMA, 0),
    (BETA, ALPHA, 161),
    (NOBODY, NOBODY, 161),
    (ALPHA, NOBODY, 162),
];

fn refusal(ledger: &Ledger, sender: [u8; 9], receiver: [u8; 9]) -> Result<u16, Fail> {
    let asked = head(&(sender, receiver, 0, 1, true))?;
    match ledger.check(endpoint(b"BANKA001")?, &asked) {
        Some(reject) if reject.category == b'E' => Ok(reject.code),
        Some(_) => Err("a refusal of category E".into()),
        None => Ok(0),
    }
}

#[test]
fn a_ledger_checks_accounts(rt: HostRuntime) -> Result<(), Fail> {
    let ledger = opened(rt.alloc())?;
    assert!(rt; ledger.endpoint(&number(&GAMMA)?) == Some(endpoint(b"BANKA001")?));
    assert!(rt; ledger.endpoint(&number(&NOBODY)?).is_none());
    for (sender, receiver, code) in CHECKS {
        assert_eq!(rt; refusal(&ledger, sender, receiver)?, code);
    }
    Ok(())
}

// What an account covers before any message, by its subtype and its cents.
const COVERS: [([u8; 9], u8, u64, bool); 7] = [
    (ALPHA, 0, 1_000_000, true),
    (ALPHA, 32, 1_000_001, false),
    (ALPHA, 31, 1_000_001, true),
    (BETA, 2, 999_999_994_999, true),
    (BETA, 8, 999_999_995_000, false),
    (GAMMA, 0, 10_000, true),
    (GAMMA, 0, 10_001, false),
];

fn is_covered(ledger: &Ledger, sender: [u8; 9], sub: u8, amount: u64) -> Result<bool, Fail> {
    Ok(ledger.covers(&head(&(sender, BETA, sub, amount, true))?))
}

#[test]
fn a_ledger_covers_down_to_the_floor(rt: HostRuntime) -> Result<(), Fail> {
    let ledger = opened(rt.alloc())?;
    for (sender, sub, amount, covered) in COVERS {
        assert_eq!(rt; is_covered(&ledger, sender, sub, amount)?, covered);
    }
    Ok(())
}
