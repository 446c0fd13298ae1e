//! The host without its journal and its lines: what it decides on a message, and what it knows of its list.
#![tactic(auto)]

mod rolls;
mod state;
#[cfg(test)]
mod tests;
mod verdict;

pub use faim_model::{Decision, HostOutcome};
pub use host_ledger::moves_money;
pub use rolls::RollCase;
pub use state::{HostState, Judged};
