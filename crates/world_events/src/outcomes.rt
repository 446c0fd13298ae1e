// What events bring about (docs/FORMATS.md, "The report").
use bank_books::BankOutcome;
use faim_base::Endpoint;
use faim_model::HostOutcome;

/// What stands, after a stop, of the entry that an event was to add.
#[derive(Clone, Copy, Debug, PartialEq, Eq)]
pub enum Kept {
    /// It is kept.
    Kept,
    /// It is lost.
    Lost,
    /// There was none to add.
    Plain,
}

/// What an event brought about.
#[derive(Clone, Copy, Debug, PartialEq, Eq)]
pub enum Outcome {
    /// The clock was set.
    Silent,
    /// What the host did with a frame.
    Host(HostOutcome),
    /// What the bank of this endpoint did with a frame.
    Bank(Endpoint, BankOutcome),
    /// An end was resumed, which sent so many frames.
    Restarted(u64),
    /// No frame with this number was sent to that end.
    NoFrame,
    /// The end was stopped inside the event and resumed: what became of the entry, and how many frames went out before the stop.
    /// What the resume sent isn't counted.
    Stopped { kept: Kept, sent: u64 },
}
