// The accounts of a configuration and the endpoints that serve them (docs/FORMATS.md, "Configurations").
ghost use Rattle.std.specs.Prelude.{◌≡◌, ◌∷◌, [], ◌++◌, OnOk, OnErr, IfOk};
ghost use Rattle.std.specs.Option.{option_copied};
ghost use Rattle.host_ledger.specs.Accounts.{account_in, account_of, has_endpoint, endpoints_of};

use crate::{Account, Config};
use faim_base::{Aba, Endpoint, Endpoints, NoMemory};
use std::alloc::Global;

impl Config {
    /// The account with this number. None exactly where no account has it.
    pub fn account(&self, aba: &Aba) -> Option<&Account>
        ensures { option_copied result ≡ account_of self.now aba.now }
    {
        account_in(self.accounts.as_slice(), aba)
    }
}

/// The account with this number. None exactly where no account has it.
pub fn account_in<'a>(accounts: &'a [Account], aba: &Aba) -> Option<&'a Account>
    ensures { option_copied result ≡ account_in accounts.now aba.now }
{
    accounts.iter().find(|account| account.aba == *aba)
}

/// Whether some account is served at the endpoint.
pub fn has_endpoint(accounts: &[Account], endpoint: &Endpoint) -> bool
    ensures { result ≡ has_endpoint accounts.now endpoint.now }
{
    accounts.iter().any(|account| account.endpoint == *endpoint)
}

/// The endpoints of the accounts, each once, in the order of their first accounts.
pub fn endpoints_of(alloc: Global, accounts: &[Account]) -> Result<Endpoints, NoMemory>
    ensures { IfOk result (λ endpoints. endpoints ≡ endpoints_of accounts.now) }
{
    let mut endpoints = Endpoints::new(alloc);
    for (place, account) in accounts.iter().enumerate() {
        add_endpoint(&mut endpoints, &accounts[..place], account)?;
    }
    Ok(endpoints)
}

/// Makes the endpoints of the accounts before an account into those of the accounts up to it, or changes nothing.
#[tactic(auto, using(crate::proofs::EndpointLists::one_more))]
pub fn add_endpoint(
    endpoints: &mut Endpoints,
    before: &[Account],
    account: &Account,
) -> Result<(), NoMemory>
    requires { endpoints.old ≡ endpoints_of before.now }
    ensures ok { OnOk result (endpoints.new ≡ endpoints_of (before.now ++ account.now ∷ [])) }
    ensures err { OnErr result (endpoints.new ≡ endpoints.old) }
{
    if !has_endpoint(before, &account.endpoint) {
        endpoints.push(account.endpoint)?;
    }
    Ok(())
}
