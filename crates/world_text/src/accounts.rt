// Accounts beside those of earlier lines.
ghost use Rattle.std.specs.Prelude.{◌≡◌, MatchResult, Ok, Err};
ghost use Rattle.host_ledger.specs.Accounts.{endpoints_of};
ghost use Rattle.world_text.specs.Grammar.{account_beside, is_over_limit};

use crate::Why;
use faim_base::Endpoint;
use host_ledger::{ACCOUNT_LIMIT, Account, ENDPOINT_LIMIT, OPERATOR, account_in, has_endpoint};

// Whether an account may stand after these.
pub(crate) fn stands_beside(
    before: &[Account],
    endpoints: &[Endpoint],
    account: &Account,
) -> Result<(), Why>
    requires { endpoints.now ≡ endpoints_of before.now }
    ensures { MatchResult result (λ _. account_beside before.now account.now ≡ Ok account.now) (λ why. account_beside before.now account.now ≡ Err why) }
{
    if account_in(before, &account.aba).is_some() {
        return Err(Why::Twice);
    }
    if account.endpoint.bytes() == OPERATOR {
        return Err(Why::Place);
    }
    if is_over_limit(before, endpoints, account) {
        return Err(Why::Limit);
    }
    Ok(())
}

fn is_over_limit(before: &[Account], endpoints: &[Endpoint], account: &Account) -> bool
    requires { endpoints.now ≡ endpoints_of before.now }
    ensures { result ≡ is_over_limit before.now account.now }
{
    before.len() >= ACCOUNT_LIMIT
        || (!has_endpoint(before, &account.endpoint) && endpoints.len() >= ENDPOINT_LIMIT)
}
