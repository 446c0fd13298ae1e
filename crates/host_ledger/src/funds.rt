// The table behind a ledger: what is kept of each account, found by the account's number.
ghost use Rattle.std.specs.Prelude.{◌≡◌, [], ◌∷◌, ◌++◌, None, IfOk, OnOk, map, pos, neg_ℤ, bytes_eq};
ghost use Rattle.std.specs.List.{IsDistinct};
ghost use Rattle.std.specs.Map.{lookup};
ghost use Rattle.host_ledger.specs.Soundness.{numbers_of};
ghost use Rattle.host_ledger.specs.Tables.{rows_in, opened, added};

use crate::Account;
use faim_base::{Aba, Endpoint, NoMemory};
use indexmap::IndexMap;
use std::alloc::Global;

// What is kept of an account beside its number: its endpoint, and its floor and running balance in cents.
#[derive(Clone, Copy, Debug)]
pub(crate) struct Funds {
    pub(crate) endpoint: Endpoint,
    pub(crate) floor: i64,
    pub(crate) balance: i128,
}

// The accounts by their numbers, which whoever writes the configuration chooses: the default hash will do.
pub(crate) type Table = IndexMap<[u8; 9], Funds>;

// The accounts before any entry, each with its opening balance.
pub(crate) fn open(alloc: Global, accounts: &[Account]) -> Result<Table, NoMemory>
    requires { IsDistinct bytes_eq (numbers_of accounts.now) }
    ensures { IfOk result (λ table. rows_in table.entries ≡ map opened accounts.now) }
{
    let mut table: Table = IndexMap::new(alloc);
    for account in accounts {
        add_account(&mut table, account)?;
    }
    Ok(table)
}

// Adds an account with its opening balance, or changes nothing.
fn add_account(table: &mut Table, account: &Account) -> Result<(), NoMemory>
    requires { lookup (bytes_eq account.now.aba) table.old.entries ≡ None }
    ensures { OnOk result (rows_in table.new.entries ≡ rows_in table.old.entries ++ opened account.now ∷ []) }
{
    let funds = Funds {
        endpoint: account.endpoint,
        floor: account.floor,
        balance: i128::from(account.opening),
    };
    table.insert(account.aba.bytes(), funds)?;
    Ok(())
}

// What is kept of an account. None exactly where no account has the number.
pub(crate) fn funds_of(table: &Table, aba: &Aba) -> Option<Funds>
    ensures { result ≡ lookup (bytes_eq aba.now) table.now.entries }
{
    table.get(&aba.bytes()).copied()
}

// Moves an amount in cents from one account to another, which may be the same. An account that isn't there is left out.
pub(crate) fn transfer(table: &mut Table, from: &Aba, to: &Aba, amount: u64)
    ensures { rows_in table.new.entries ≡ added to.now (pos amount) (added from.now (neg_ℤ (pos amount)) (rows_in table.old.entries)) }
{
    let cents = i128::from(amount);
    add_cents(table, from, -cents);
    add_cents(table, to, cents);
}

// Adds cents to the balance of an account, where it is there. The balance of fewer than 2^64 entries is far from the
// limits of its integer, so that the sum never wraps there.
fn add_cents(table: &mut Table, aba: &Aba, cents: i128)
    ensures { rows_in table.new.entries ≡ added aba.now cents (rows_in table.old.entries) }
{
    match table.get_mut(&aba.bytes()) {
        Some(funds) => funds.balance = funds.balance.wrapping_add(cents),
        None => {}
    }
}
