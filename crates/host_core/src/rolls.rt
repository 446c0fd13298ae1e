// What becomes of a Roll.
use faim_base::CycleDate;

/// What a host does with a Roll to a date: it may go on to a later date; a date at or before the present cycle it refuses,
/// and tells the present one.
#[derive(Clone, Copy, Debug, PartialEq, Eq)]
pub enum RollCase {
    Later,
    NotLater { current: CycleDate },
}
