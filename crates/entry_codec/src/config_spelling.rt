// Configurations as bytes (docs/FORMATS.md, "Bytes of configurations").
ghost use Rattle.std.specs.Prelude.{◌≡◌, ◌++◌, OnOk, OnErr};
ghost use Rattle.std.specs.List.{flat_map};
ghost use Rattle.host_ledger.specs.Soundness.{AreAccounts, IsConfig};
ghost use Rattle.entry_codec.specs.Spelling.{Keeps};
ghost use Rattle.entry_codec.specs.Config.{config_bytes, accounts_bytes, account_bytes, balance_bytes};

use faim_base::NoMemory;
use host_ledger::{Account, Accounts, Config};

/// Appends the spelling of a configuration, or changes nothing. The configuration is sound: `Config::is_sound` says so.
pub fn spell_config(value: &Config, out: &mut Vec<u8>) -> Result<(), NoMemory>
    requires { IsConfig value.now }
    ensures ok { OnOk result (out.new.items ≡ out.old.items ++ config_bytes value.now) }
    ensures err { OnErr result (out.new.items ≡ out.old.items) }
{
    let before = out.len();
    match put_config(value, out) {
        Ok(()) => Ok(()),
        Err(fault) => {
            out.truncate(before);
            Err(fault)
        }
    }
}

// Appends the spelling; what stood there before stays in front.
fn put_config(value: &Config, out: &mut Vec<u8>) -> Result<(), NoMemory>
    requires { IsConfig value.now }
    ensures ok { OnOk result (out.new.items ≡ out.old.items ++ config_bytes value.now) }
    ensures err { OnErr result (Keeps out.old.items out.new.items) }
{
    out.push(b'C')?;
    out.push(value.env)?;
    out.extend_from_slice(&value.date.get().to_be_bytes())?;
    out.extend_from_slice(&value.customer.to_be_bytes())?;
    out.extend_from_slice(&value.bank.to_be_bytes())?;
    put_accounts(&value.accounts, out)?;
    Ok(())
}

// Appends how many accounts there are, and each of them.
fn put_accounts(accounts: &Accounts, out: &mut Vec<u8>) -> Result<(), NoMemory>
    requires { AreAccounts accounts.now }
    ensures ok { OnOk result (out.new.items ≡ out.old.items ++ accounts_bytes accounts.now) }
    ensures err { OnErr result (Keeps out.old.items out.new.items) }
{
    let accounts = accounts.as_slice();
    out.extend_from_slice(&(accounts.len() as u16).to_be_bytes())?;
    put_each(accounts, out)?;
    Ok(())
}

fn put_each(accounts: &[Account], out: &mut Vec<u8>) -> Result<(), NoMemory>
    ensures ok { OnOk result (out.new.items ≡ out.old.items ++ flat_map account_bytes accounts.now) }
    ensures err { OnErr result (Keeps out.old.items out.new.items) }
{
    for account in accounts {
        put_account(account, out)?;
    }
    Ok(())
}

fn put_account(account: &Account, out: &mut Vec<u8>) -> Result<(), NoMemory>
    ensures ok { OnOk result (out.new.items ≡ out.old.items ++ account_bytes account.now) }
    ensures err { OnErr result (Keeps out.old.items out.new.items) }
{
    out.extend_from_slice(&account.aba.bytes())?;
    out.extend_from_slice(&account.endpoint.bytes())?;
    put_balance(account.opening, out)?;
    put_balance(account.floor, out)?;
    Ok(())
}

fn put_balance(cents: i64, out: &mut Vec<u8>) -> Result<(), NoMemory>
    ensures ok { OnOk result (out.new.items ≡ out.old.items ++ balance_bytes cents) }
    ensures err { OnErr result (Keeps out.old.items out.new.items) }
{
    out.extend_from_slice(&cents.to_be_bytes())?;
    Ok(())
}
