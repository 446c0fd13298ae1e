// The configuration of a host (docs/FORMATS.md, "Configurations").
use faim_base::{Aba, CycleDate, Endpoint, Items};

/// An account: its number, the endpoint that serves it, and its opening balance and floor in cents, each from
/// -999,999,999,999 to 999,999,999,999.
#[derive(Clone, Copy, Debug, PartialEq, Eq)]
pub struct Account {
    pub aba: Aba,
    pub endpoint: Endpoint,
    pub opening: i64,
    pub floor: i64,
}

/// A list of accounts.
pub type Accounts = Items<Account>;

/// What a host is set up with: `env` is `T` for test or `P` for production, `date` the opening cycle date, `customer`
/// and `bank` the cutoffs of that day in minutes, 0 to 1,440.
///
/// There are 1 to 1,024 accounts with distinct numbers whose check digits hold, on at most 64 endpoints, none of which
/// is `OPERATOR`. The endpoints are ordered by their first account.
#[derive(Debug, Drop)]
pub struct Config {
    pub env: u8,
    pub date: CycleDate,
    pub customer: u16,
    pub bank: u16,
    pub accounts: Accounts,
}
