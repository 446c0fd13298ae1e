// Configurations from bytes (docs/FORMATS.md, "Bytes of configurations").
ghost use Rattle.std.specs.Prelude.{◌≡◌, ◌++◌, ℕ, List, IfOk, MatchResult, Err};
ghost use Rattle.host_ledger.specs.declared.config.Config.{Config as Value};
ghost use Rattle.host_ledger.specs.Soundness.{IsConfig};
ghost use Rattle.entry_codec.specs.Reading.{Gives};
ghost use Rattle.entry_codec.specs.Config.{config_bytes, balance_at, account_at, some_accounts_at, accounts_at, fields_at, config_at};

use crate::CodecFault;
use crate::parts::Front;
use host_ledger::{Account, Accounts, Config};
use std::alloc::Global;

impl<'a> Front<'a> {
    fn balance(&mut self) -> Result<i64, CodecFault>
        ensures { Gives result (balance_at self.old.rest.now) self.new.rest.now }
    {
        Ok(self.u64()?.cast_signed())
    }

    #[tactic(auto, unfolding(crate::specs::Config::account_at))]
    fn account(&mut self) -> Result<Account, CodecFault>
        ensures { Gives result (account_at self.old.rest.now) self.new.rest.now }
    {
        Ok(Account {
            aba: self.aba()?,
            endpoint: self.endpoint()?,
            opening: self.balance()?,
            floor: self.balance()?,
        })
    }

    // So many accounts.
    fn some_accounts(&mut self, alloc: Global, count: u16) -> Result<Accounts, CodecFault>
        ensures { Gives result (some_accounts_at count self.old.rest.now) self.new.rest.now }
    {
        let mut list = Accounts::new(alloc);
        for _ in 0..count {
            match self.account() {
                Ok(account) => list.push(account)?,
                Err(fault) => return Err(fault),
            }
        }
        Ok(list)
    }

    #[tactic(auto, unfolding(crate::specs::Config::accounts_at))]
    fn accounts(&mut self, alloc: Global) -> Result<Accounts, CodecFault>
        ensures { Gives result (accounts_at self.old.rest.now) self.new.rest.now }
    {
        let count = self.u16()?;
        self.some_accounts(alloc, count)
    }

    #[tactic(auto, unfolding(crate::specs::Config::fields_at))]
    fn fields(&mut self, alloc: Global) -> Result<Config, CodecFault>
        ensures { Gives result (fields_at self.old.rest.now) self.new.rest.now }
    {
        Ok(Config {
            env: self.byte()?,
            date: self.date()?,
            customer: self.u16()?,
            bank: self.u16()?,
            accounts: self.accounts(alloc)?,
        })
    }

    #[tactic(auto, unfolding(crate::specs::Config::config_at))]
    fn config(&mut self, alloc: Global) -> Result<Config, CodecFault>
        ensures { Gives result (config_at self.old.rest.now) self.new.rest.now }
    {
        if self.byte()? != b'C' {
            return Err(CodecFault::Damaged);
        }
        self.fields(alloc)
    }
}

/// Reads the configuration that the bytes spell, which is a sound one. `Damaged` comes exactly where they spell none:
/// bytes are missing or left over, a field is outside its range, or `Config::is_sound` says no.
pub fn read_config(alloc: Global, bytes: &[u8]) -> Result<Config, CodecFault>
    // What is read is sound, and it is spelled so.
    ensures found { IfOk result (λ read. IsConfig read × (bytes.now ≡ config_bytes read)) }
    // What is sound and spelled so is read, unless memory runs out.
    ensures only { (config : Value) → IsConfig config → bytes.now ≡ config_bytes config
        → MatchResult result (λ read. read ≡ config) (λ fault. fault ≡ CodecFault.NoMemory) }
    // What is damaged spells no sound configuration.
    ensures damaged { result ≡ Err CodecFault.Damaged → (config : Value) → IsConfig config → ¬ (bytes.now ≡ config_bytes config) }
{
    let mut front = Front { rest: bytes };
    let config = match front.config(alloc) {
        Ok(config) => config,
        Err(fault) => return Err(fault),
    };
    if !front.rest.is_empty() {
        return Err(CodecFault::Damaged);
    }
    let sound = config.is_sound();
    if !sound {
        return Err(CodecFault::Damaged);
    }
    Ok(config)
}

/// No spelling of a configuration begins another one, so a spelling has one configuration.
pub fn one_config()
    ensures { (a b : Value) (x y : List ℕ) → IsConfig a → IsConfig b → config_bytes a ++ x ≡ config_bytes b ++ y → (a ≡ b) × (x ≡ y) }
{}
