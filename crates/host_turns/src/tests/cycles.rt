// A host over two cycles, and a retrieval of many outputs, as they were worked out by hand.
use super::payments::{Kind, Payment, aba, cents, days_on, record, repeat, roll};
use super::{bank, begun, has_entries, refused, taken};
use faim_base::{CycleDate, Imad, OutPos, Seq};
use host_core::{HostState, RollCase};
use std::alloc::Global;
use std::test::Fail;

// A payment from the first bank to the second, in thousands of cents.
fn payment(date: CycleDate, number: u32, thousands: usize) -> Result<Payment, Fail> {
    Ok(Payment {
        imad: Imad {
            date,
            source: bank(b"BANKA001")?,
            seq: Seq::new(number).ok_or("a number")?,
        },
        kind: Kind::Transfer,
        amount: cents(thousands)?,
        sender: aba(b"021000021")?,
        receiver: aba(b"121042882")?,
    })
}

// Whether these are the balances of the two banks in cents, and their counts of outputs.
fn stands(state: &HostState, balances: [i128; 2], outputs: [usize; 2]) -> Result<(), Fail> {
    has_balance(state, b"021000021", balances[0])?;
    has_balance(state, b"121042882", balances[1])?;
    has_outputs(state, b"BANKA001", outputs[0])?;
    has_outputs(state, b"BANKB001", outputs[1])
}

fn has_balance(state: &HostState, number: &[u8; 9], cents: i128) -> Result<(), Fail> {
    if state.balance(&aba(number)?) != Some(cents) {
        return Err(Fail::from("another balance"));
    }
    Ok(())
}

fn has_outputs(state: &HostState, name: &[u8; 8], count: usize) -> Result<(), Fail> {
    if state.outputs(bank(name)?) != count {
        return Err(Fail::from("another count of outputs"));
    }
    Ok(())
}

fn is_at(state: &HostState, name: &[u8; 8], place: usize, at: &[u8; 14]) -> Result<(), Fail> {
    let at = OutPos::read(at).ok_or("a position")?;
    if state.position(bank(name)?, place) != Some(at) {
        return Err(Fail::from("another position"));
    }
    Ok(())
}

fn is_in_cycle(state: &HostState, date: CycleDate) -> Result<(), Fail> {
    is_date(state.cycle(), date)
}

fn is_date(found: CycleDate, date: CycleDate) -> Result<(), Fail> {
    if found != date {
        return Err(Fail::from("another date"));
    }
    Ok(())
}

#[test]
fn a_cycle_goes_on_under_its_new_date(rt: HostRuntime) -> Result<(), Fail> {
    let mut state = begun(rt.alloc(), b'P')?;
    goes_on(rt.alloc(), &mut state)?;
    gives_under_both_dates(&state)
}

// A payment on each side of the Roll, both with the first number, and the first one again.
fn goes_on(alloc: Global, state: &mut HostState) -> Result<(), Fail> {
    let tuesday = state.cycle();
    let wednesday = days_on(tuesday, 1)?;
    let first = payment(tuesday, 1, 150)?;
    let second = payment(wednesday, 1, 150)?;
    record(alloc, state, &first, b' ', taken(1)?)?;
    roll(state, wednesday)?;
    record(alloc, state, &second, b' ', taken(1)?)?;
    repeat(alloc, state, &first, b'P', taken(1)?)?;
    is_in_cycle(state, wednesday)
}

fn gives_under_both_dates(state: &HostState) -> Result<(), Fail> {
    stands(state, [700_000, 300_000], [1, 3])?;
    is_at(state, b"BANKA001", 1, b"20240102000001")?;
    is_at(state, b"BANKB001", 0, b"20240102000001")?;
    is_at(state, b"BANKB001", 1, b"20240102000002")?;
    is_at(state, b"BANKB001", 2, b"20240103000001")?;
    has_entries(state, 3)
}

#[test]
fn a_refusal_before_a_roll_stands_after_it(rt: HostRuntime) -> Result<(), Fail> {
    let mut state = begun(rt.alloc(), b'P')?;
    comes_a_day_early(rt.alloc(), &mut state)?;
    stands(&state, [1_000_000, 0], [1, 1])
}

// A payment under the next date, which is refused, and again after the Roll to it.
fn comes_a_day_early(alloc: Global, state: &mut HostState) -> Result<(), Fail> {
    let wednesday = days_on(state.cycle(), 1)?;
    let early = payment(wednesday, 1, 150)?;
    record(alloc, state, &early, b' ', refused(b'H', 101))?;
    roll(state, wednesday)?;
    repeat(alloc, state, &early, b' ', refused(b'H', 101))?;
    stays_at(state, wednesday)
}

// A Roll to the present date is none to a later one.
fn stays_at(state: &HostState, date: CycleDate) -> Result<(), Fail> {
    match state.roll_case(date) {
        RollCase::NotLater { current } => is_date(current, date),
        RollCase::Later => Err(Fail::from("a date that is not later")),
    }
}

#[test]
fn sixty_four_of_many_outputs_are_retrieved(rt: HostRuntime) -> Result<(), Fail> {
    let mut state = begun(rt.alloc(), b'P')?;
    give_seventy(rt.alloc(), &mut state)?;
    sixty_four_are_retrieved(rt.alloc(), &state)
}

fn give_seventy(alloc: Global, state: &mut HostState) -> Result<(), Fail> {
    for number in 1..71 {
        give_next(alloc, state, number)?;
    }
    Ok(())
}

fn sixty_four_are_retrieved(alloc: Global, state: &HostState) -> Result<(), Fail> {
    has_outputs(state, b"BANKB001", 70)?;
    for (number, first, end) in [(1, 0, 64), (7, 6, 70), (8, 7, 70), (65, 64, 70)] {
        are_retrieved(alloc, state, number, first, end)?;
    }
    Ok(())
}

// Gives the next payment, which is taken.
fn give_next(alloc: Global, state: &mut HostState, number: u32) -> Result<(), Fail> {
    let payment = payment(state.cycle(), number, 10)?;
    record(alloc, state, &payment, b' ', taken(number)?)
}

// Whether the places from one up to another are given from a number of the present cycle on.
fn are_retrieved(
    alloc: Global,
    state: &HostState,
    number: u32,
    first: usize,
    end: usize,
) -> Result<(), Fail> {
    let from = OutPos {
        date: state.cycle(),
        seq: Seq::new(number).ok_or("a number")?,
    };
    let mut wanted = Vec::new(alloc);
    for place in first..end {
        wanted.push(place)?;
    }
    let found = state.retrieve(bank(b"BANKB001")?, from)?;
    if found.as_slice() != wanted.as_slice() {
        return Err(Fail::from("other places"));
    }
    Ok(())
}
