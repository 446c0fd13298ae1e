// What a host decides on a message, and what it answers to its line.
use faim_base::{CycleDate, Imad, Reject, Verdict};

/// What a host does with a message: a new verdict to record; the place, from 0, of the entry that has its identifier
/// and its text, whose verdict stands; the place of the entry that has its identifier with another text; or another
/// line than its source's.
#[derive(Clone, Copy, Debug, PartialEq, Eq)]
pub enum Decision {
    New(Verdict),
    Known(usize),
    Differs(usize),
    WrongSource,
}

/// How a host's turn ended (docs/FORMATS.md, "The report").
#[derive(Clone, Copy, Debug, PartialEq, Eq)]
pub enum HostOutcome {
    /// A new entry with this verdict.
    Recorded { imad: Imad, verdict: Verdict },
    /// The verdict that stands.
    Known { imad: Imad, verdict: Verdict },
    /// A refusal that isn't recorded.
    TurnedAway(Reject),
    /// So many outputs were given again.
    Retrieved(u32),
    /// A new cycle began, of this date.
    Rolled(CycleDate),
    /// A Roll to no later date than that of the present cycle, which goes on.
    NotLater { current: CycleDate },
    /// A frame that a host doesn't take: of another kind, from another endpoint, or with another payload than its kind asks
    /// for.
    Strange,
}
