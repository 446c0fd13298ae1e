// A day of two banks: one on the line BANKA001 pays the other, on the line BANKB001.
ghost use Rattle.std.specs.Prelude.{◌≡◌, ◌∷◌, [], IfOk, pos, codes};
ghost use Rattle.host_ledger.specs.Soundness.{IsConfig};
ghost use Rattle.faim_model.specs.Lawful.{Follows};

use crate::*;
use Change::{Amount, Code, Day, Edit, Line, Minute, Receiver, Sender, Subtype};
use faim_base::{
    Aba, Bytes, Cents, CycleDate, Endpoint, Head, Imad, Moment, OutPos, Reject, Seq, Verdict,
};
use host_ledger::{Account, Accounts, Config, Entry};
use std::alloc::Global;
use std::test::Fail;

// The text of a payment.
const TEXT: &[u8; 134] =
    b"{1500}30USERREQ1T {1510}1000{1520}20240102BANKA001000001{2000}000000150000{3100}021000021ALPHA BANK*{3400}121042882BETA BANK*{3600}BTR";

// What comes to the host, and when.
#[derive(Clone, Copy)]
struct Case {
    line: Endpoint,
    head: Head,
    edit: Option<Reject>,
    moment: Moment,
}

// What may be otherwise than in the payment.
#[derive(Clone, Copy)]
enum Change {
    Line([u8; 8]),
    Day(u32),
    Sender([u8; 9]),
    Receiver([u8; 9]),
    Code([u8; 3]),
    Subtype(u8),
    Amount(u64),
    Edit(u16),
    Minute(u16),
}

// The payer's account, the receiver's, and no account.
const PAYER: [u8; 9] = *b"021000021";

const PAYEE: [u8; 9] = *b"121042882";

const NOBODY: [u8; 9] = *b"231380104";

#[test]
fn the_first_refusal_that_holds_is_given(rt: HostRuntime) -> Result<(), Fail> {
    let state = begun(rt.alloc())?;
    refuses_each(&state)
}

fn refuses_each(state: &HostState) -> Result<(), Fail> {
    refuses_a_strange_source(state)?;
    let cases: [(&[Change], u8, u16); 9] = [
        (&[Day(8768), Edit(107)], b'H', 101),
        (&[Edit(107), Sender(NOBODY)], b'E', 107),
        (&[Sender(NOBODY), Receiver(NOBODY)], b'E', 161),
        (&[Sender(PAYEE)], b'E', 161),
        (&[Receiver(NOBODY), Minute(1110)], b'E', 162),
        (&[Code(*b"CTR"), Minute(1080)], b'W', 301),
        (&[Minute(1110), Amount(150_001)], b'W', 302),
        (&[Subtype(32), Amount(150_001)], b'F', 401),
        (&[Receiver(PAYER), Amount(150_001)], b'F', 401),
    ];
    for (changes, category, code) in cases {
        let want = Decision::New(Verdict::Refused(Reject { category, code }));
        decides(state, changes, want)?;
    }
    Ok(())
}

fn refuses_a_strange_source(state: &HostState) -> Result<(), Fail> {
    decides(
        state,
        &[Line(*b"BANKB001"), Day(8768)],
        Decision::WrongSource,
    )
}

#[test]
fn what_nothing_refuses_is_taken(rt: HostRuntime) -> Result<(), Fail> {
    let state = begun(rt.alloc())?;
    takes_each(&state)
}

fn takes_each(state: &HostState) -> Result<(), Fail> {
    let cases: [(&[Change], &[u8; 8]); 5] = [
        (&[], b"BANKB001"),
        (&[Receiver(PAYER)], b"BANKA001"),
        (&[Code(*b"CTR"), Minute(1079)], b"BANKB001"),
        (&[Minute(1109)], b"BANKB001"),
        (&[Subtype(31), Amount(150_001)], b"BANKB001"),
    ];
    for (changes, name) in cases {
        let want = Decision::New(Verdict::Taken {
            dest: bank(name)?,
            seq: number(1)?,
        });
        decides(state, changes, want)?;
    }
    Ok(())
}

#[test]
fn a_host_begins_with_no_entry(rt: HostRuntime) -> Result<(), Fail> {
    let state = begun(rt.alloc())?;
    is_new(&state)
}

fn is_new(state: &HostState) -> Result<(), Fail> {
    has_entries(state, 0)?;
    has_customer_cutoff(state, 1080)?;
    is_in_cycle(state, 8767)?;
    takes_effect(state, 3, 3)
}

// So many entries are there, and a first one where there is any.
fn has_entries(state: &HostState, count: usize) -> Result<(), Fail> {
    if state.len() != count || state.is_empty() != (count == 0) {
        return Err(Fail::from("another count of entries"));
    }
    if state.entry(0).is_some() != (count > 0) {
        return Err(Fail::from("another first entry"));
    }
    Ok(())
}

fn has_customer_cutoff(state: &HostState, minute: u16) -> Result<(), Fail> {
    if state.config().customer != minute {
        return Err(Fail::from("another cutoff"));
    }
    Ok(())
}

fn is_in_cycle(state: &HostState, days: u32) -> Result<(), Fail> {
    is_day(state.cycle(), days)
}

// What comes at a reading of the clock takes effect at this minute.
fn takes_effect(state: &HostState, reading: u32, minute: u32) -> Result<(), Fail> {
    is_minute(state.effective(moment(reading)?), minute)
}

fn is_minute(found: Moment, minute: u32) -> Result<(), Fail> {
    if found.get() != minute {
        return Err(Fail::from("another moment"));
    }
    Ok(())
}

fn is_day(found: CycleDate, days: u32) -> Result<(), Fail> {
    if found.get() != days {
        return Err(Fail::from("another date"));
    }
    Ok(())
}

#[test]
fn a_posted_payment_stands(rt: HostRuntime) -> Result<(), Fail> {
    let state = posted(rt.alloc())?;
    keeps_the_payment(&state)
}

fn keeps_the_payment(state: &HostState) -> Result<(), Fail> {
    has_entries(state, 1)?;
    takes_effect(state, 12_624_479, 12_624_480)?;
    decides(state, &[Day(8767)], Decision::Known(0))?;
    decides_on(state, &[Day(8767)], b"OTHER", Decision::Differs(0))
}

#[test]
fn a_posted_payment_moves_money(rt: HostRuntime) -> Result<(), Fail> {
    let (mut state, entry) = opened(rt.alloc())?;
    moves_money(&mut state, entry)
}

fn moves_money(state: &mut HostState, entry: Entry) -> Result<(), Fail>
    requires { Follows state.old.config state.old.entries entry }
{
    has_balances(state, 1_000_000, 0)?;
    state.push(entry)?;
    has_balances(state, 850_000, 150_000)
}

fn has_balances(state: &HostState, payer: i128, payee: i128) -> Result<(), Fail> {
    for (holder, cents) in [(PAYER, Some(payer)), (PAYEE, Some(payee)), (NOBODY, None)] {
        if state.balance(&account(&holder)?) != cents {
            return Err(Fail::from("another balance"));
        }
    }
    Ok(())
}

#[test]
fn a_posted_payment_is_given_to_its_receiver(rt: HostRuntime) -> Result<(), Fail> {
    let state = posted(rt.alloc())?;
    is_given_to_its_receiver(&state)
}

fn is_given_to_its_receiver(state: &HostState) -> Result<(), Fail> {
    has_outputs(state, b"BANKA001", 0)?;
    has_outputs(state, b"BANKB001", 1)?;
    gives(state, b"BANKB001", b"20240102000001", &[0])?;
    gives(state, b"BANKB001", b"20240102000002", &[])?;
    gives(state, b"BANKB001", b"20240101999999", &[0])
}

fn has_outputs(state: &HostState, name: &[u8; 8], count: usize) -> Result<(), Fail> {
    if state.outputs(bank(name)?) != count {
        return Err(Fail::from("another count of outputs"));
    }
    Ok(())
}

// A retrieval of an endpoint from a position on gives these places.
fn gives(state: &HostState, name: &[u8; 8], from: &[u8; 14], places: &[usize]) -> Result<(), Fail> {
    let at = OutPos::read(from).ok_or("a position")?;
    let found = state.retrieve(bank(name)?, at)?;
    if found.as_slice() != places {
        return Err(Fail::from("other places"));
    }
    Ok(())
}

#[test]
fn a_roll_goes_on_to_a_later_date(rt: HostRuntime) -> Result<(), Fail> {
    let mut state = begun(rt.alloc())?;
    goes_on_later(&mut state)
}

fn goes_on_later(state: &mut HostState) -> Result<(), Fail> {
    stays_at(state, 8766, 8767)?;
    stays_at(state, 8767, 8767)?;
    may_go_on(state, 8768)?;
    roll(state, 12_624_480, 8770)?;
    is_in_cycle(state, 8770)?;
    has_outputs(state, b"BANKA001", 1)
}

// The host doesn't go on to a date, and stays at its present one.
fn stays_at(state: &HostState, days: u32, present: u32) -> Result<(), Fail> {
    match state.roll_case(date(days)?) {
        RollCase::NotLater { current } => is_day(current, present),
        RollCase::Later => Err(Fail::from("a date that is not later")),
    }
}

fn may_go_on(state: &HostState, days: u32) -> Result<(), Fail> {
    match state.roll_case(date(days)?) {
        RollCase::Later => Ok(()),
        RollCase::NotLater { .. } => Err(Fail::from("a later date")),
    }
}

#[test]
fn a_roll_ends_the_cycle_of_each_endpoint(rt: HostRuntime) -> Result<(), Fail> {
    let state = rolled(rt.alloc())?;
    ends_each_cycle(&state)
}

fn ends_each_cycle(state: &HostState) -> Result<(), Fail> {
    has_entries(state, 2)?;
    has_balances(state, 850_000, 150_000)?;
    gives_ends(state)
}

fn gives_ends(state: &HostState) -> Result<(), Fail> {
    let cases: [(&[u8; 8], &[u8; 14], &[usize]); 7] = [
        (b"BANKA001", b"20240102000001", &[1]),
        (b"BANKA001", b"20240102000002", &[]),
        (b"BANKB001", b"20240102000001", &[0, 1]),
        (b"BANKB001", b"20240102000002", &[1]),
        (b"BANKB001", b"20240102000003", &[]),
        (b"BANKB001", b"20240103000001", &[]),
        (b"NOBANK01", b"20240102000001", &[]),
    ];
    for (name, from, places) in cases {
        gives(state, name, from, places)?;
    }
    Ok(())
}

#[test]
fn an_entry_gives_its_position(rt: HostRuntime) -> Result<(), Fail> {
    let state = rolled(rt.alloc())?;
    has_positions(&state)
}

fn has_positions(state: &HostState) -> Result<(), Fail> {
    let cases: [(&[u8; 8], usize, Option<u32>); 7] = [
        (b"BANKA001", 0, None),
        (b"BANKA001", 1, Some(1)),
        (b"BANKB001", 0, Some(1)),
        (b"BANKB001", 1, Some(2)),
        (b"BANKB001", 2, None),
        (b"NOBANK01", 0, None),
        (b"NOBANK01", 1, None),
    ];
    for (name, place, want) in cases {
        if number_at(state, bank(name)?, place)? != want {
            return Err(Fail::from("another position"));
        }
    }
    Ok(())
}

// The number of what the entry at a place gives the endpoint under the opening date.
fn number_at(state: &HostState, dest: Endpoint, place: usize) -> Result<Option<u32>, Fail> {
    match state.position(dest, place) {
        Some(at) if at.date.get() == 8767 => Ok(Some(at.seq.get())),
        Some(_) => Err(Fail::from("the opening date")),
        None => Ok(None),
    }
}

#[test]
fn a_new_cycle_numbers_from_one(rt: HostRuntime) -> Result<(), Fail> {
    let state = rolled(rt.alloc())?;
    decides_anew(&state)
}

fn decides_anew(state: &HostState) -> Result<(), Fail> {
    let late = Decision::New(Verdict::Refused(Reject {
        category: b'H',
        code: 101,
    }));
    let first = Decision::New(Verdict::Taken {
        dest: bank(b"BANKA001")?,
        seq: number(1)?,
    });
    decides(state, &[], Decision::Known(0))?;
    decides(state, &[Day(8769)], late)?;
    decides(
        state,
        &[Day(8768), Receiver(PAYER), Subtype(31), Minute(1440)],
        first,
    )
}

// The host goes on to a date at a minute, where it may.
fn roll(state: &mut HostState, minutes: u32, days: u32) -> Result<(), Fail> {
    roll_to(state, moment(minutes)?, date(days)?)
}

fn roll_to(state: &mut HostState, moment: Moment, date: CycleDate) -> Result<(), Fail> {
    if state.effective(moment) != moment {
        return Err(Fail::from("an entry that is later"));
    }
    match state.roll_case(date) {
        RollCase::Later => Ok(state.push(Entry::Roll { moment, date })?),
        RollCase::NotLater { .. } => Err(Fail::from("a later date")),
    }
}

// The decision on the payment with these changes is this one.
fn decides(state: &HostState, changes: &[Change], want: Decision) -> Result<(), Fail> {
    decides_on(state, changes, TEXT, want)
}

// The same on a message of this text.
fn decides_on(
    state: &HostState,
    changes: &[Change],
    body: &[u8],
    want: Decision,
) -> Result<(), Fail> {
    let case = changed(changes)?;
    if decided(state, &case, body) != want {
        return Err(Fail::from("another decision"));
    }
    Ok(())
}

// What the host decides on a case of this text.
fn decided(state: &HostState, case: &Case, body: &[u8]) -> Decision {
    let message = Judged {
        head: case.head,
        body,
        resent: false,
        edit: case.edit,
    };
    state.decide(case.line, &message, case.moment)
}

// The payment at midnight of its day, on the line of the bank that pays, with these changes.
fn changed(changes: &[Change]) -> Result<Case, Fail> {
    let mut case = Case {
        line: bank(b"BANKA001")?,
        head: payment()?,
        edit: None,
        moment: moment(12_624_480)?,
    };
    for change in changes {
        apply(change, &mut case)?;
    }
    Ok(case)
}

fn apply(change: &Change, case: &mut Case) -> Result<(), Fail> {
    match *change {
        Line(name) => case.line = bank(&name)?,
        Edit(code) => {
            case.edit = Some(Reject {
                category: b'E',
                code,
            })
        }
        Minute(minute) => case.moment = moment(12_624_480 + u32::from(minute))?,
        _ => apply_to_head(change, &mut case.head)?,
    }
    Ok(())
}

fn apply_to_head(change: &Change, head: &mut Head) -> Result<(), Fail> {
    match *change {
        Day(days) => head.imad.date = date(days)?,
        Sender(holder) => head.sender = account(&holder)?,
        Receiver(holder) => head.receiver = account(&holder)?,
        Code(code) => head.code = code,
        Subtype(sub) => head.sub = sub,
        Amount(amount) => head.amount = cents(amount)?,
        Line(_) | Edit(_) | Minute(_) => {}
    }
    Ok(())
}

fn bank(name: &[u8; 8]) -> Result<Endpoint, Fail>
    ensures { IfOk result (λ e. e ≡ name.now) }
{
    Ok(Endpoint::read(name).ok_or("an endpoint")?)
}

fn account(number: &[u8; 9]) -> Result<Aba, Fail>
    ensures { IfOk result (λ a. a ≡ number.now) }
{
    Ok(Aba::read(number).ok_or("an account")?)
}

fn moment(minutes: u32) -> Result<Moment, Fail>
    ensures { IfOk result (λ m. m ≡ minutes) }
{
    Ok(Moment::new(minutes).ok_or("a moment")?)
}

fn cents(amount: u64) -> Result<Cents, Fail>
    ensures { IfOk result (λ c. c ≡ amount) }
{
    Ok(Cents::new(amount).ok_or("an amount")?)
}

fn date(days: u32) -> Result<CycleDate, Fail>
    ensures { IfOk result (λ d. d ≡ days) }
{
    Ok(CycleDate::new(days).ok_or("a date")?)
}

fn number(n: u32) -> Result<Seq, Fail>
    ensures { IfOk result (λ k. k ≡ n) }
{
    Ok(Seq::new(n).ok_or("a number")?)
}

// The head of the payment, as its text says.
fn payment() -> Result<Head, Fail>
    ensures { IfOk result (λ h. h ≡ record {
      imad = record { date = 8767; source = codes "BANKA001"; seq = 1 };
      sender = codes "021000021";
      receiver = codes "121042882";
      code = codes "BTR";
      kind = 10;
      sub = 0;
      amount = 150_000;
    }) }
{
    Ok(Head {
        imad: Imad {
            date: date(8767)?,
            source: bank(b"BANKA001")?,
            seq: number(1)?,
        },
        sender: account(b"021000021")?,
        receiver: account(b"121042882")?,
        code: *b"BTR",
        kind: 10,
        sub: 0,
        amount: cents(150_000)?,
    })
}

// 2024-01-02, with 18:00 and 18:30 as its cutoffs.
fn config(alloc: Global) -> Result<Config, Fail>
    ensures sound { IfOk result IsConfig }
    ensures value { IfOk result (λ c. c ≡ record {
      env = 84;
      date = 8767;
      customer = 1080;
      bank = 1110;
      accounts = (record { aba = codes "021000021"; endpoint = codes "BANKA001"; opening = pos 1_000_000; floor = pos 850_000 })
          ∷ (record { aba = codes "121042882"; endpoint = codes "BANKB001"; opening = pos 0; floor = pos 0 }) ∷ [];
    }) }
{
    let mut accounts = Accounts::new(alloc);
    accounts.push(Account {
        aba: account(b"021000021")?,
        endpoint: bank(b"BANKA001")?,
        opening: 1_000_000,
        floor: 850_000,
    })?;
    accounts.push(Account {
        aba: account(b"121042882")?,
        endpoint: bank(b"BANKB001")?,
        opening: 0,
        floor: 0,
    })?;
    let config = Config {
        env: b'T',
        date: date(8767)?,
        customer: 1080,
        bank: 1110,
        accounts,
    };
    if !config.is_sound() {
        return Err(Fail::from("a sound configuration"));
    }
    Ok(config)
}

// The host before its first entry, and the payment as that entry.
fn opened(alloc: Global) -> Result<(HostState, Entry), Fail>
    ensures { IfOk result (λ p. Follows p.0.config p.0.entries p.1) }
{
    let state = HostState::new(alloc, config(alloc)?)?;
    let mut body = Bytes::new(alloc);
    body.extend(TEXT)?;
    let entry = Entry::Posted {
        head: payment()?,
        body,
        resent: false,
        moment: moment(12_624_480)?,
        verdict: Verdict::Taken {
            dest: bank(b"BANKB001")?,
            seq: number(1)?,
        },
    };
    Ok((state, entry))
}

// The host before its first entry.
fn begun(alloc: Global) -> Result<HostState, Fail> {
    Ok(HostState::new(alloc, config(alloc)?)?)
}

// The host after the payment.
fn posted(alloc: Global) -> Result<HostState, Fail> {
    let (mut state, entry) = opened(alloc)?;
    state.push(entry)?;
    Ok(state)
}

// The host after the payment, and the end of its cycle a minute before midnight.
fn rolled(alloc: Global) -> Result<HostState, Fail> {
    let mut state = posted(alloc)?;
    roll(&mut state, 12_625_919, 8768)?;
    Ok(state)
}
