// A host answers as one does who searches its list: on lists that are made by chance, and on lists that are cut.
ghost use Rattle.std.specs.Prelude.{◌<◌};

use super::payments::{
    Kind, Payment, aba, cents, confuse, days_on, morning, record, repeat, roll, text_of,
};
use super::plain::Output;
use super::{account, bank, config_of, plain, two_accounts};
use faim_base::{Aba, CycleDate, Endpoint, Head, Imad, OutPos, Seq, Verdict};
use faim_model::Decision;
use host_core::{HostState, Judged};
use host_ledger::{Accounts, Entry};
use std::alloc::Global;
use std::test::Fail;

// The accounts, each with the line that serves it. The last one isn't there.
const ACCOUNTS: [(&[u8; 9], &[u8; 8]); 5] = [
    (b"021000021", b"BANKA001"),
    (b"121042882", b"BANKB001"),
    (b"231380104", b"BANKA001"),
    (b"011000015", b"BANKC001"),
    (b"026009593", b"BANKC001"),
];

// The endpoints, and one that has no account.
const LINES: [&[u8; 8]; 4] = [b"BANKA001", b"BANKB001", b"BANKC001", b"NOBANK01"];

const KINDS: [Kind; 4] = [Kind::Transfer, Kind::Request, Kind::Drawdown, Kind::Service];

const SEEDS: [u32; 8] = [1, 2, 3, 5, 8, 13, 21, 34];

// Numbers that look like chance, the same ones from the same seed.
#[derive(Clone, Copy)]
struct Chance(u32);

impl Chance {
    // A number below a limit.
    fn below(&mut self, limit: usize) -> usize
        requires { 0 < limit }
        ensures { result < limit }
    {
        self.0 = self.0.wrapping_mul(1_664_525).wrapping_add(1_013_904_223);
        (self.0 >> 16) as usize % limit
    }
}

// A host of three banks before its first entry.
fn begun(alloc: Global) -> Result<HostState, Fail> {
    let config = config_of(b'P', four_accounts(alloc)?)?;
    Ok(HostState::new(alloc, config)?)
}

fn four_accounts(alloc: Global) -> Result<Accounts, Fail> {
    let mut accounts = two_accounts(alloc)?;
    accounts.push(account(b"231380104", b"BANKA001", 250_000)?)?;
    accounts.push(account(b"011000015", b"BANKC001", 500_000)?)?;
    Ok(accounts)
}

// What is given to a host by chance, and how many texts were told what.
#[derive(Drop)]
struct Walk {
    chance: Chance,
    given: Vec<Payment>,
    taken: u32,
    refused: u32,
    known: u32,
    turned: u32,
}

impl Walk {
    fn new(alloc: Global) -> Walk {
        Walk {
            chance: Chance(0),
            given: Vec::new(alloc),
            taken: 0,
            refused: 0,
            known: 0,
            turned: 0,
        }
    }

    // Begins anew, and goes on counting.
    fn begin(&mut self, seed: u32) {
        self.chance = Chance(seed);
        self.given.clear();
    }

    fn count(&mut self, verdict: &Verdict) {
        match verdict {
            Verdict::Taken { .. } => self.taken = self.taken.saturating_add(1),
            Verdict::Refused(_) => self.refused = self.refused.saturating_add(1),
        }
    }

    // Whether each kind of answer came several times.
    fn is_varied(&self) -> bool {
        self.taken > 9 && self.refused > 9 && self.known > 9 && self.turned > 9
    }

    // The next payment: a new one, or at times one that was given before.
    fn next(&mut self, cycle: CycleDate) -> Result<Payment, Fail> {
        let repeats = self.chance.below(4) == 0;
        if repeats && !self.given.is_empty() {
            return self.again();
        }
        self.given.push(drawn(&mut self.chance, cycle)?)?;
        match self.given.as_slice().last() {
            Some(payment) => Ok(*payment),
            None => Err(Fail::from("a payment")),
        }
    }

    // A payment that was given before, at times with another amount.
    fn again(&mut self) -> Result<Payment, Fail> {
        let count = self.given.len();
        if count == 0 {
            return Err(Fail::from("an earlier payment"));
        }
        let place = self.chance.below(count);
        let mut payment = self.given[place];
        if self.chance.below(2) == 0 {
            payment.amount = cents(self.chance.below(400) + 1)?;
        }
        Ok(payment)
    }
}

// A payment under the present date, or seldom the next one. Its numbers are few, so that some come twice.
fn drawn(chance: &mut Chance, cycle: CycleDate) -> Result<Payment, Fail> {
    let (sender, line) = ACCOUNTS[chance.below(9) / 2];
    let (receiver, _) = ACCOUNTS[chance.below(9) / 2];
    let source = match chance.below(9) {
        0 => LINES[chance.below(3)],
        _ => line,
    };
    let days = u32::from(chance.below(6) == 0);
    let number = chance.below(12) as u32;
    Ok(Payment {
        imad: Imad {
            date: days_on(cycle, days)?,
            source: bank(source)?,
            seq: Seq::new(number + 1).ok_or("a number")?,
        },
        kind: KINDS[chance.below(4)],
        amount: cents(chance.below(400) + 1)?,
        sender: aba(sender)?,
        receiver: aba(receiver)?,
    })
}

// One step: a text, or each seventh time a Roll to the next date.
fn step(alloc: Global, state: &mut HostState, walk: &mut Walk, number: u32) -> Result<(), Fail> {
    if number % 7 == 6 {
        roll(state, days_on(state.cycle(), 1)?)?;
    } else {
        submit_next(alloc, state, walk)?;
    }
    agree(alloc, state)
}

// Submits the next payment, which is told what a search of the list finds.
fn submit_next(alloc: Global, state: &mut HostState, walk: &mut Walk) -> Result<(), Fail> {
    let payment = walk.next(state.cycle())?;
    let mark = if walk.chance.below(3) == 0 {
        b'P'
    } else {
        b' '
    };
    if let Some(place) = plain::place_of(state, &payment.imad) {
        return submit_again(alloc, state, walk, &payment, mark, place);
    }
    let verdict = plain::verdict_on(alloc, state, &payment)?;
    walk.count(&verdict);
    record(alloc, state, &payment, mark, verdict)
}

fn submit_again(
    alloc: Global,
    state: &mut HostState,
    walk: &mut Walk,
    payment: &Payment,
    mark: u8,
    place: usize,
) -> Result<(), Fail> {
    let text = text_of(alloc, payment, b' ')?;
    match plain::verdict_of(state, place, text.as_slice()) {
        Some(verdict) => {
            walk.known = walk.known.saturating_add(1);
            repeat(alloc, state, payment, mark, verdict)
        }
        None => {
            walk.turned = walk.turned.saturating_add(1);
            confuse(alloc, state, payment, mark)
        }
    }
}

// Whether the host answers as a search of its list does.
fn agree(alloc: Global, state: &HostState) -> Result<(), Fail> {
    agree_on_cycle(state)?;
    for (number, _) in ACCOUNTS {
        agree_on_balance(state, &aba(number)?)?;
    }
    for name in LINES {
        agree_on_outputs(alloc, state, bank(name)?)?;
    }
    for place in 0..state.len() {
        agree_on_entry(state, place)?;
    }
    Ok(())
}

fn agree_on_cycle(state: &HostState) -> Result<(), Fail> {
    if state.cycle() != plain::cycle_at(state, state.len()) {
        return Err(Fail::from("another cycle"));
    }
    Ok(())
}

fn agree_on_balance(state: &HostState, aba: &Aba) -> Result<(), Fail> {
    if state.balance(aba) != plain::balance(state, aba) {
        return Err(Fail::from("another balance"));
    }
    Ok(())
}

fn agree_on_outputs(alloc: Global, state: &HostState, dest: Endpoint) -> Result<(), Fail> {
    let outputs = plain::outputs(alloc, state, dest)?;
    agree_on_positions(state, dest, outputs.as_slice())?;
    agree_on_retrievals(alloc, state, dest, outputs.as_slice())
}

fn agree_on_positions(state: &HostState, dest: Endpoint, outputs: &[Output]) -> Result<(), Fail> {
    if state.outputs(dest) != outputs.len() {
        return Err(Fail::from("another count of outputs"));
    }
    for place in 0..=state.len() {
        if state.position(dest, place) != plain::position(outputs, place) {
            return Err(Fail::from("another position"));
        }
    }
    Ok(())
}

// From the position of each output on, and from a few others.
fn agree_on_retrievals(
    alloc: Global,
    state: &HostState,
    dest: Endpoint,
    outputs: &[Output],
) -> Result<(), Fail> {
    for output in outputs {
        agree_on_places(alloc, state, dest, outputs, output.at)?;
    }
    for from in [b"20000101000001", b"20240102999999", b"99991231999999"] {
        let from = OutPos::read(from).ok_or("a position")?;
        agree_on_places(alloc, state, dest, outputs, from)?;
    }
    Ok(())
}

fn agree_on_places(
    alloc: Global,
    state: &HostState,
    dest: Endpoint,
    outputs: &[Output],
    from: OutPos,
) -> Result<(), Fail> {
    let wanted = plain::places_from(alloc, outputs, &from)?;
    let found = state.retrieve(dest, from)?;
    if found.as_slice() != wanted.as_slice() {
        return Err(Fail::from("other places"));
    }
    Ok(())
}

// Whether an identifier that is posted is found there, with its text and with another one.
fn agree_on_entry(state: &HostState, place: usize) -> Result<(), Fail> {
    if let Some(Entry::Posted { head, body, .. }) = state.entry(place) {
        let found = plain::place_of(state, &head.imad).ok_or("a place")?;
        if decided(state, head, body.as_slice())? != Decision::Known(found) {
            return Err(Fail::from("another place of a text"));
        }
        if decided(state, head, b"{1500}")? != Decision::Differs(found) {
            return Err(Fail::from("another place of an identifier"));
        }
    }
    Ok(())
}

fn decided(state: &HostState, head: &Head, body: &[u8]) -> Result<Decision, Fail> {
    let message = Judged {
        head: *head,
        body,
        resent: false,
        edit: None,
    };
    Ok(state.decide(head.imad.source, &message, morning()?))
}

#[test]
fn a_host_answers_as_a_search_of_its_list_does(rt: HostRuntime) -> Result<(), Fail> {
    let mut walk = Walk::new(rt.alloc());
    for seed in SEEDS {
        grow(rt.alloc(), &mut walk, seed)?;
    }
    assert!(rt; walk.is_varied());
    Ok(())
}

fn grow(alloc: Global, walk: &mut Walk, seed: u32) -> Result<(), Fail> {
    let mut state = begun(alloc)?;
    walk.begin(seed);
    agree_and_grow(alloc, &mut state, walk)
}

fn agree_and_grow(alloc: Global, state: &mut HostState, walk: &mut Walk) -> Result<(), Fail> {
    agree(alloc, state)?;
    steps(alloc, state, walk, 21)
}

fn steps(alloc: Global, state: &mut HostState, walk: &mut Walk, count: u32) -> Result<(), Fail> {
    for number in 0..count {
        step(alloc, state, walk, number)?;
    }
    Ok(())
}

#[test]
fn a_host_that_is_cut_is_as_it_was(rt: HostRuntime) -> Result<(), Fail> {
    let mut walk = Walk::new(rt.alloc());
    for seed in SEEDS {
        grow_and_cut(rt.alloc(), &mut walk, seed)?;
    }
    Ok(())
}

fn grow_and_cut(alloc: Global, walk: &mut Walk, seed: u32) -> Result<(), Fail> {
    let mut state = begun(alloc)?;
    walk.begin(seed);
    grow_then_cut(alloc, &mut state, walk)
}

fn grow_then_cut(alloc: Global, state: &mut HostState, walk: &mut Walk) -> Result<(), Fail> {
    steps(alloc, state, walk, 21)?;
    for cut in 0..7 {
        cut_and_grow(alloc, state, walk, cut)?;
    }
    Ok(())
}

fn cut_and_grow(
    alloc: Global,
    state: &mut HostState,
    walk: &mut Walk,
    cut: u32,
) -> Result<(), Fail> {
    let len = length_after(cut, state.len());
    cut_to(alloc, state, len)?;
    steps(alloc, state, walk, 8)
}

// Lengths to which a list is cut: at the first two nothing changes, and the fifth takes back a Roll at least.
fn length_after(cut: u32, len: usize) -> usize {
    match cut {
        0 => len.saturating_add(1),
        1 => len,
        2 => len.saturating_sub(1),
        3 => len.saturating_sub(3),
        4 => len / 2,
        5 => 1,
        _ => 0,
    }
}

// Cuts the list: its first entries are left, and the host answers as a search of them does.
fn cut_to(alloc: Global, state: &mut HostState, len: usize) -> Result<(), Fail> {
    let before = imads(alloc, state)?;
    state.cut(len);
    let after = imads(alloc, state)?;
    let left = len.min(before.len());
    if after.as_slice() != &before.as_slice()[..left] {
        return Err(Fail::from("other entries"));
    }
    agree(alloc, state)
}

fn imads(alloc: Global, state: &HostState) -> Result<Vec<Option<Imad>>, Fail> {
    let mut imads = Vec::new(alloc);
    for place in 0..state.len() {
        imads.push(plain::imad_at(state, place))?;
    }
    Ok(imads)
}
