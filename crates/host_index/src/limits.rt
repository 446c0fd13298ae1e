// Where a count of an endpoint's outputs ends.
ghost use Rattle.std.specs.Prelude.{◌≡◌};
ghost use Rattle.host_index.specs.Limits.{is_within};

use faim_base::{CycleDate, OutPos};

// Before a position, before a date, after a date, or nowhere.
#[derive(Clone, Copy)]
pub(crate) enum Limit {
    Position(OutPos),
    Date(CycleDate),
    EndOf(CycleDate),
    Never,
}

// Whether a position stands before the limit.
pub(crate) fn is_within(limit: &Limit, at: &OutPos) -> bool
    ensures { result ≡ is_within limit.now at.now }
{
    match limit {
        Limit::Position(end) => !end.is_up_to(at),
        Limit::Date(date) => at.date < *date,
        Limit::EndOf(date) => at.date <= *date,
        Limit::Never => true,
    }
}
