// A list with its journal.
use torn_journal::Journal;

/// A list, the journal that keeps it, and how many entries the last record has: 0 after the opening.
#[derive(Drop)]
pub struct Kept<L> {
    pub list: L,
    pub journal: Journal,
    pub last: usize,
}
