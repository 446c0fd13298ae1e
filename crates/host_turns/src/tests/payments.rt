// Payments as a production host is given them on 2024-01-02 at 09:30, and the end of its cycle.
use super::refused;
use crate::submit;
use faim_base::{Aba, Cents, CycleDate, Imad, Moment, Verdict, padded};
use faim_model::HostOutcome;
use host_core::{HostState, RollCase};
use host_ledger::Entry;
use std::alloc::Global;
use std::test::Fail;

// What a text says.
#[derive(Clone, Copy, Debug)]
pub(super) struct Payment {
    pub(super) imad: Imad,
    pub(super) kind: Kind,
    pub(super) amount: Cents,
    pub(super) sender: Aba,
    pub(super) receiver: Aba,
}

// Its type and subtype, with a code that permits them.
#[derive(Clone, Copy, Debug)]
pub(super) enum Kind {
    Transfer,
    Request,
    Drawdown,
    Service,
}

impl Kind {
    fn tags(self) -> &'static [u8] {
        match self {
            Kind::Transfer => b"{1510}1000{3600}BTR",
            Kind::Request => b"{1510}1031{3600}DRB{4400}D",
            Kind::Drawdown => b"{1510}1032{3600}DRW",
            Kind::Service => b"{1510}1090{3600}SVC",
        }
    }

    pub(super) fn moves_money(self) -> bool {
        match self {
            Kind::Transfer | Kind::Drawdown => true,
            Kind::Request | Kind::Service => false,
        }
    }
}

pub(super) fn aba(number: &[u8; 9]) -> Result<Aba, Fail> {
    Ok(Aba::read(number).ok_or("an account's number")?)
}

// So many thousands of cents.
pub(super) fn cents(thousands: usize) -> Result<Cents, Fail> {
    let amount = (thousands as u64).saturating_mul(1_000);
    Ok(Cents::new(amount).ok_or("an amount")?)
}

// The date so many days later.
pub(super) fn days_on(date: CycleDate, days: u32) -> Result<CycleDate, Fail> {
    Ok(CycleDate::new(date.get().saturating_add(days)).ok_or("a date")?)
}

pub(super) fn morning() -> Result<Moment, Fail> {
    Ok(Moment::new(12_625_050).ok_or("a moment")?)
}

// The text of a payment, with a mark.
pub(super) fn text_of(alloc: Global, payment: &Payment, mark: u8) -> Result<Vec<u8>, Fail> {
    let mut text = Vec::new(alloc);
    write_begin(mark, &mut text)?;
    write_imad(&payment.imad, &mut text)?;
    write_amount(payment.amount, &mut text)?;
    write_parties(payment, &mut text)?;
    text.extend_from_slice(payment.kind.tags())?;
    Ok(text)
}

fn write_begin(mark: u8, text: &mut Vec<u8>) -> Result<(), Fail> {
    text.extend_from_slice(b"{1500}30USERREQ1P")?;
    Ok(text.push(mark)?)
}

fn write_imad(imad: &Imad, text: &mut Vec<u8>) -> Result<(), Fail> {
    let mut bytes = [0; 22];
    imad.write(&mut bytes);
    text.extend_from_slice(b"{1520}")?;
    Ok(text.extend_from_slice(&bytes)?)
}

fn write_amount(amount: Cents, text: &mut Vec<u8>) -> Result<(), Fail> {
    let mut digits = [0; 12];
    padded(amount.get(), &mut digits);
    text.extend_from_slice(b"{2000}")?;
    Ok(text.extend_from_slice(&digits)?)
}

fn write_parties(payment: &Payment, text: &mut Vec<u8>) -> Result<(), Fail> {
    text.extend_from_slice(b"{3100}")?;
    text.extend_from_slice(&payment.sender.bytes())?;
    text.extend_from_slice(b"*{3400}")?;
    text.extend_from_slice(&payment.receiver.bytes())?;
    Ok(text.extend_from_slice(b"*")?)
}

// Submits a payment on the line of its source.
fn give(
    alloc: Global,
    state: &mut HostState,
    payment: &Payment,
    mark: u8,
) -> Result<HostOutcome, Fail> {
    let text = text_of(alloc, payment, mark)?;
    let line = payment.imad.source;
    Ok(submit(alloc, state, line, morning()?, text.as_slice())?)
}

// Submits a payment of which a verdict is recorded.
pub(super) fn record(
    alloc: Global,
    state: &mut HostState,
    payment: &Payment,
    mark: u8,
    verdict: Verdict,
) -> Result<(), Fail> {
    let imad = payment.imad;
    let wanted = state.len().saturating_add(1);
    let outcome = give(alloc, state, payment, mark)?;
    if outcome == (HostOutcome::Recorded { imad, verdict }) && state.len() == wanted {
        Ok(())
    } else {
        Err(Fail::from("a verdict that is recorded"))
    }
}

// Submits a payment of which a verdict is told again.
pub(super) fn repeat(
    alloc: Global,
    state: &mut HostState,
    payment: &Payment,
    mark: u8,
    verdict: Verdict,
) -> Result<(), Fail> {
    let imad = payment.imad;
    let wanted = state.len();
    let outcome = give(alloc, state, payment, mark)?;
    if outcome == (HostOutcome::Known { imad, verdict }) && state.len() == wanted {
        Ok(())
    } else {
        Err(Fail::from("a verdict that is told again"))
    }
}

// Submits a payment whose identifier is known with another text.
pub(super) fn confuse(
    alloc: Global,
    state: &mut HostState,
    payment: &Payment,
    mark: u8,
) -> Result<(), Fail> {
    let wanted = state.len();
    let outcome = give(alloc, state, payment, mark)?;
    if refusal_of(&outcome) == Some(refused(b'X', 201)) && state.len() == wanted {
        Ok(())
    } else {
        Err(Fail::from("a text that is turned away"))
    }
}

// The refusal of a text that is turned away.
fn refusal_of(outcome: &HostOutcome) -> Option<Verdict> {
    match outcome {
        HostOutcome::TurnedAway(why) => Some(Verdict::Refused(*why)),
        _ => None,
    }
}

// Ends the cycle, where the date is later.
pub(super) fn roll(state: &mut HostState, date: CycleDate) -> Result<(), Fail> {
    let moment = morning()?;
    if state.effective(moment) != moment {
        return Err(Fail::from("an entry that is later"));
    }
    match state.roll_case(date) {
        RollCase::Later => Ok(state.push(Entry::Roll { moment, date })?),
        RollCase::NotLater { .. } => Err(Fail::from("a later date")),
    }
}
