// What becomes of what comes to a bank.
use faim_base::{Imad, OutPos, Refused};

/// What an acknowledgement of an IMAD is to a bank: `Strange` where no draft has the IMAD, `Repeated` where its verdict is
/// kept, else `Fresh`.
#[derive(Clone, Copy, Debug, PartialEq, Eq)]
pub enum AckCase {
    Fresh,
    Repeated,
    Strange,
}

/// What an output at a position is to a bank: `Next` where the position is the wanted one, `Repeated` where it is before it,
/// `Gap` where it is after it.
#[derive(Clone, Copy, Debug, PartialEq, Eq)]
pub enum OutCase {
    Next,
    Repeated,
    Gap,
}

/// The present cycle has 999,999 drafts, and no number is left for another. Nothing changed.
#[derive(Clone, Copy, Debug, PartialEq, Eq)]
pub struct SeqFull;

/// What a bank did with a frame. `Gap` names the position that it wants, and `Resent` the number of drafts that it sent
/// again.
#[derive(Clone, Copy, Debug, PartialEq, Eq)]
pub enum BankOutcome {
    Drafted(Imad),
    DraftRefused(Refused),
    SeqFull,
    Answered(Imad),
    Repeated,
    Received(OutPos),
    Gap { wanted: OutPos },
    Strange,
    Resent(u32),
}
