// What a list of entries says to one who walks over it from its begin, with nothing beside it.
use super::payments::Payment;
use super::refused;
use faim_base::{Aba, CycleDate, Endpoint, Imad, OutPos, Seq, Verdict};
use host_core::HostState;
use host_ledger::{Entry, has_endpoint};
use std::alloc::Global;
use std::test::Fail;

// An output of an endpoint, and the place of the entry that gives it.
#[derive(Clone, Copy, Debug)]
pub(super) struct Output {
    pub(super) at: OutPos,
    pub(super) place: usize,
}

// The place of the first entry that posts an identifier.
pub(super) fn place_of(state: &HostState, imad: &Imad) -> Option<usize> {
    for place in 0..state.len() {
        if imad_at(state, place) == Some(*imad) {
            return Some(place);
        }
    }
    None
}

// The identifier that the entry at a place posts. A Roll has none.
pub(super) fn imad_at(state: &HostState, place: usize) -> Option<Imad> {
    match state.entry(place) {
        Some(Entry::Posted { head, .. }) => Some(head.imad),
        _ => None,
    }
}

// The cycle date before the entry at a place: that of the last Roll before it, or the opening date.
pub(super) fn cycle_at(state: &HostState, place: usize) -> CycleDate {
    let mut cycle = state.config().date;
    for before in 0..place {
        if let Some(Entry::Roll { date, .. }) = state.entry(before) {
            cycle = *date;
        }
    }
    cycle
}

// The opening balance of an account, and all that messages moved.
pub(super) fn balance(state: &HostState, aba: &Aba) -> Option<i128> {
    let account = state.config().account(aba)?;
    let mut balance = i128::from(account.opening);
    for place in 0..state.len() {
        balance = balance.wrapping_add(moved_at(state, place, aba));
    }
    Some(balance)
}

// What the entry at a place moves to an account, less what it moves from it.
fn moved_at(state: &HostState, place: usize, aba: &Aba) -> i128 {
    match state.entry(place) {
        Some(
            Entry::Posted {
                head,
                verdict: Verdict::Taken { .. },
                ..
            },
        ) if matches!(head.sub, 0 | 2 | 8 | 32) => {
            let cents = i128::from(head.amount.get());
            let received = if head.receiver == *aba { cents } else { 0 };
            let paid = if head.sender == *aba { cents } else { 0 };
            received.wrapping_sub(paid)
        }
        _ => 0,
    }
}

// The outputs of an endpoint, in order.
pub(super) fn outputs(
    alloc: Global,
    state: &HostState,
    dest: Endpoint,
) -> Result<Vec<Output>, Fail> {
    let mut outputs = Vec::new(alloc);
    for place in 0..state.len() {
        if let Some(at) = output_at(state, dest, place, outputs.as_slice())? {
            outputs.push(Output { at, place })?;
        }
    }
    Ok(outputs)
}

// The position of what the entry at a place gives an endpoint, after the outputs that it has by then.
fn output_at(
    state: &HostState,
    dest: Endpoint,
    place: usize,
    before: &[Output],
) -> Result<Option<OutPos>, Fail> {
    match state.entry(place) {
        Some(
            Entry::Posted {
                head,
                verdict: Verdict::Taken { dest: to, seq },
                ..
            },
        ) if *to == dest => Ok(Some(OutPos {
            date: head.imad.date,
            seq: *seq,
        })),
        Some(Entry::Roll { .. }) if has_endpoint(state.config().accounts.as_slice(), &dest) => {
            let date = cycle_at(state, place);
            let seq = next_number(before, date)?;
            Ok(Some(OutPos { date, seq }))
        }
        _ => Ok(None),
    }
}

// The number after those of the outputs under a date.
fn next_number(outputs: &[Output], date: CycleDate) -> Result<Seq, Fail> {
    let mut next = 1_u32;
    for output in outputs {
        if output.at.date == date {
            next = next.saturating_add(1);
        }
    }
    Ok(Seq::new(next).ok_or("a number")?)
}

// The position of the output that the entry at a place gives.
pub(super) fn position(outputs: &[Output], place: usize) -> Option<OutPos> {
    for output in outputs {
        if output.place == place {
            return Some(output.at);
        }
    }
    None
}

// The places of the outputs from a position on, at most 64.
pub(super) fn places_from(
    alloc: Global,
    outputs: &[Output],
    from: &OutPos,
) -> Result<Vec<usize>, Fail> {
    let mut places = Vec::new(alloc);
    for output in outputs {
        if output.at >= *from && places.len() < 64 {
            places.push(output.place)?;
        }
    }
    Ok(places)
}

// The verdict that the entry at a place keeps of a text with a blank as its mark, where it keeps one.
pub(super) fn verdict_of(state: &HostState, place: usize, text: &[u8]) -> Option<Verdict> {
    match state.entry(place) {
        Some(Entry::Posted { body, verdict, .. }) if body.as_slice() == text => Some(*verdict),
        _ => None,
    }
}

// The verdict on a payment that is new on the line of its source, fails no edit and comes before the cutoffs.
pub(super) fn verdict_on(
    alloc: Global,
    state: &HostState,
    payment: &Payment,
) -> Result<Verdict, Fail> {
    let cycle = cycle_at(state, state.len());
    if payment.imad.date != cycle {
        return Ok(refused(b'H', 101));
    }
    if endpoint_of(state, &payment.sender) != Some(payment.imad.source) {
        return Ok(refused(b'E', 161));
    }
    let dest = match endpoint_of(state, &payment.receiver) {
        Some(dest) => dest,
        None => return Ok(refused(b'E', 162)),
    };
    if payment.kind.moves_money() && !covers(state, payment) {
        return Ok(refused(b'F', 401));
    }
    let outputs = outputs(alloc, state, dest)?;
    let seq = next_number(outputs.as_slice(), cycle)?;
    Ok(Verdict::Taken { dest, seq })
}

fn endpoint_of(state: &HostState, aba: &Aba) -> Option<Endpoint> {
    let account = state.config().account(aba)?;
    Some(account.endpoint)
}

// Whether a payment leaves its sender at the floor 0 or above, which all accounts have.
fn covers(state: &HostState, payment: &Payment) -> bool {
    match balance(state, &payment.sender) {
        Some(balance) => balance >= i128::from(payment.amount.get()),
        None => false,
    }
}
