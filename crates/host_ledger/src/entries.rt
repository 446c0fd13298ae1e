// The entries of a host's list (docs/FORMATS.md, "Entries").
use faim_base::{Bytes, CycleDate, Head, Moment, Verdict};

/// One entry. A `Posted` entry keeps the message, with a blank as its mark, and the verdict that was given on it;
/// `resent` tells that the first submission that was recorded had the mark `P`. A `Roll` begins a new cycle date.
#[derive(Debug, Drop)]
pub enum Entry {
    Posted {
        head: Head,
        body: Bytes,
        resent: bool,
        moment: Moment,
        verdict: Verdict,
    },
    Roll {
        moment: Moment,
        date: CycleDate,
    },
}
