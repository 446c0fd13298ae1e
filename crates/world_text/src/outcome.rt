// What events bring about, and what stands at the end of a report.
use faim_base::{Aba, CycleDate, Endpoint, Items};
use faim_model::HostOutcome;

/// What an event brought about.
#[derive(Clone, Copy, Debug, PartialEq, Eq)]
pub enum Outcome {
    Host(HostOutcome),
}

/// Accounts' numbers and their balances in cents.
pub type Balances = Items<(Aba, i128)>;

/// Endpoints and the counts of their outputs.
pub type Counts = Items<(Endpoint, u64)>;

/// What stands at the end of a report: the cycle date, the balance of each account in the order of the configuration,
/// and the count of outputs of each endpoint in the order of their first accounts.
#[derive(Debug, Drop)]
pub struct Closing {
    pub cycle: CycleDate,
    pub balances: Balances,
    pub outputs: Counts,
}
