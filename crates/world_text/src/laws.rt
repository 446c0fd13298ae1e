// What every text has that is read. Each call does nothing: its contract is the law.
ghost use Rattle.std.specs.Prelude.{◌≡◌, ℕ, List, Ok};
ghost use Rattle.bank_books.specs.Openings.{IsBankOpening};
ghost use Rattle.bank_books.specs.declared.entries.BankOpening.{BankOpening};
ghost use Rattle.host_ledger.specs.Soundness.{IsConfig};
ghost use Rattle.host_ledger.specs.declared.config.Config.{Config};
ghost use Rattle.world_text.specs.declared.script.Script.{Script};
ghost use Rattle.world_text.specs.BankText.{bank_of};
ghost use Rattle.world_text.specs.Grammar.{config_of, script_of};

use host_ledger::one_account_more;

/// The configuration of every script is sound: its accounts have distinct numbers whose check digits hold, none of them
/// is served at `OPERATOR`, and there are no more of them and of their endpoints than there may be.
pub fn scripts_are_sound()
    ensures { (text : List ℕ) (s : Script) → script_of text ≡ Ok s → IsConfig s.config }
{
    one_account_more();
}

/// The configuration that a text is, is sound in the same way.
pub fn configurations_are_sound()
    ensures { (text : List ℕ) (c : Config) → config_of text ≡ Ok c → IsConfig c }
{
    one_account_more();
}

/// The opening that a bank's text is, is sound: its endpoint, its `env` and its date are values of their kinds.
pub fn bank_texts_are_sound()
    ensures { (text : List ℕ) (o : BankOpening) → bank_of text ≡ Ok o → IsBankOpening o }
{}
