// Which configurations are sound (docs/FORMATS.md, "Configurations").
ghost use Rattle.std.specs.Prelude.{◌≡◌, ◌≢◌, ◌≤◌, ◌<◌, ◌↔◌, ◌∷◌, [], ◌++◌, List, None, false, length, bytes_eq, IsTrue, if◌then◌else◌};
ghost use Rattle.std.specs.List.{AllByRecursion, IsDistinct};
ghost use Rattle.host_ledger.specs.declared.config.Account.{Account as Value};
ghost use Rattle.host_ledger.specs.Accounts.{account_in, has_endpoint, endpoints_of};
ghost use Rattle.host_ledger.specs.Soundness.{account_limit, endpoint_limit, numbers_of, IsEnv, IsCutoff, IsBalance, IsAccount, AreAccounts, IsConfig};

use crate::{Account, Config, account_in, has_endpoint};
use faim_base::aba_check;

/// How many accounts a configuration may have.
pub const ACCOUNT_LIMIT: usize = 1_024;

/// At how many endpoints they may be served.
pub const ENDPOINT_LIMIT: usize = 64;

/// The greatest cutoff, in minutes of the cycle date: its end.
pub const GREATEST_CUTOFF: u16 = 1_440;

/// The endpoint of the operator, which has no accounts.
pub const OPERATOR: [u8; 8] = *b"OPERATOR";

// The greatest opening balance or floor, and with a minus the least, in cents.
const GREATEST_BALANCE: u64 = 999_999_999_999;

impl Config {
    /// Whether the configuration is sound: `env` is `T` or `P`, each cutoff is at most 1,440 minutes, and there are 1 to
    /// 1,024 accounts, each sound, with distinct numbers, on at most 64 endpoints. It takes no memory.
    pub fn is_sound(&self) -> bool
        ensures { IsTrue result ↔ IsConfig self.now }
    {
        let accounts = self.accounts.as_slice();
        // The date is read since its reader tells that it is a day.
        let _day = self.date.get();
        if !is_env(self.env) {
            return false;
        }
        if self.customer > GREATEST_CUTOFF || self.bank > GREATEST_CUTOFF {
            return false;
        }
        !accounts.is_empty() && are_sound(accounts)
    }
}

impl Account {
    /// Whether the account is sound: its number's check digit holds, its endpoint isn't `OPERATOR`, and its opening
    /// balance and its floor are from -999,999,999,999 to 999,999,999,999 cents.
    pub fn is_sound(&self) -> bool
        ensures { IsTrue result ↔ IsAccount self.now }
    {
        // The digits are read since their reader tells that they are nine.
        let _digits = self.aba.bytes();
        if !aba_check(&self.aba) || self.endpoint.bytes() == OPERATOR {
            return false;
        }
        is_balance(self.opening) && is_balance(self.floor)
    }
}

/// Whether a byte is a host's code, `T` for test or `P` for production.
pub fn is_env(env: u8) -> bool
    ensures { IsTrue result ↔ IsEnv env }
{
    matches!(env, b'T' | b'P')
}

/// Whether an opening balance or a floor, in cents, is from -999,999,999,999 to 999,999,999,999.
pub fn is_balance(cents: i64) -> bool
    ensures { IsTrue result ↔ IsBalance cents }
{
    cents.unsigned_abs() <= GREATEST_BALANCE
}

// Whether the accounts may stand together. How many there are is asked first, since each is compared with each.
fn are_sound(accounts: &[Account]) -> bool
    ensures { IsTrue result ↔ AreAccounts accounts.now }
{
    if accounts.len() > ACCOUNT_LIMIT {
        return false;
    }
    are_each_sound(accounts)
        && are_distinct(accounts)
        && count_endpoints(accounts) <= ENDPOINT_LIMIT
}

fn are_each_sound(accounts: &[Account]) -> bool
    ensures { IsTrue result ↔ AllByRecursion IsAccount accounts.now }
{
    for account in accounts {
        if !account.is_sound() {
            return false;
        }
    }
    true
}

// Whether no account has the number of one after it.
fn are_distinct(accounts: &[Account]) -> bool
    ensures { IsTrue result ↔ IsDistinct bytes_eq (numbers_of accounts.now) }
{
    let mut left = accounts;
    while let Some((account, rest)) = left.split_first() {
        if account_in(rest, &account.aba).is_some() {
            return false;
        }
        left = rest;
    }
    true
}

// How many endpoints serve the accounts: of each the first account counts.
fn count_endpoints(accounts: &[Account]) -> usize
    ensures { result ≡ length (endpoints_of accounts.now) }
{
    let mut count = 0;
    for (place, account) in accounts.iter().enumerate() {
        count += new_endpoints(&accounts[..place], account);
    }
    count
}

// How many endpoints an account adds to those of the accounts before it.
fn new_endpoints(before: &[Account], account: &Account) -> usize
    ensures { result ≡ (if has_endpoint before.now account.now.endpoint then 0 else 1) }
{
    if has_endpoint(before, &account.endpoint) {
        0
    } else {
        1
    }
}

/// One account more may stand with others where it is sound, has another number, and neither limit is reached yet; at an
/// endpoint that serves one of them the endpoints' limit may be.
pub fn one_account_more()
    ensures { (accounts : List Value) (account : Value) → AreAccounts accounts → IsAccount account → account_in accounts account.aba ≡ None
        → length accounts < account_limit → (has_endpoint accounts account.endpoint ≡ false → length (endpoints_of accounts) < endpoint_limit)
        → AreAccounts (accounts ++ account ∷ []) }
{}
