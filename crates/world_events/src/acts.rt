// Events of a world (docs/FORMATS.md, "Scripts").
use faim_base::{Bytes, CycleDate, Endpoint, Moment, OutPos};

/// One end of the lines: the host, or the bank of an endpoint.
#[derive(Clone, Copy, Debug, PartialEq, Eq)]
pub enum End {
    Host,
    Bank(Endpoint),
}

/// What happens at an event.
#[derive(Debug, Drop)]
pub enum Act {
    /// The clock reads this moment, from here on. It brings about nothing, and no line of the report tells of it.
    Clock(Moment),
    /// A text, of at most 8,192 bytes, is submitted on the line of an endpoint that has no bank here.
    Submit { line: Endpoint, text: Bytes },
    /// An endpoint that has no bank here asks for its outputs from a position on.
    Retrieve { line: Endpoint, at: OutPos },
    /// A bank is given a text, of at most 8,192 bytes, to draft.
    Draft { bank: Endpoint, text: Bytes },
    /// A bank is reminded of its open drafts.
    Tick(Endpoint),
    /// The operator asks for a cycle of this date.
    Roll(CycleDate),
    /// A frame that was sent to an end arrives there, again or for the first time. Frames to the host are numbered from 1 in
    /// the order in which the banks sent them, and those to a bank in the order in which the host sent them.
    Deliver { to: End, number: u64 },
    /// An end is stopped between two of its calls, and resumed.
    Restart(End),
}

/// One event. Where it carries a stop, the event's end is stopped at the device call with the first of the two numbers, counted
/// from 1, and the second one chooses what the disk and the line then have.
#[derive(Debug, Drop)]
pub struct Event {
    pub stop: Option<(u64, u64)>,
    pub act: Act,
}
