//! The configuration of a host, the entries of its list, and the balances that they make.
#![tactic(auto)]

mod accounts;
mod config;
mod entries;
mod funds;
mod laws;
mod ledger;
mod refusals;
mod soundness;
#[cfg(test)]
mod tests;

pub use accounts::{account_in, add_endpoint, endpoints_of, has_endpoint};
pub use config::{Account, Accounts, Config};
pub use entries::Entry;
pub use laws::{
    accepted_messages_alone_move_money, balance_moves, rolls_alone_move_the_cycle,
    rolls_leave_ledgers,
};
pub use ledger::{Ledger, moves_money};
pub use refusals::is_recorded;
pub use soundness::{
    ACCOUNT_LIMIT, ENDPOINT_LIMIT, GREATEST_CUTOFF, OPERATOR, is_balance, is_env, one_account_more,
};
