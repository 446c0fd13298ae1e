// A host's running balances.
ghost use Rattle.std.specs.Prelude.{◌≡◌, ◌<◌, ◌^◌, ◌&&◌, ℕ, length, Bool, List, [], ◌∷◌, not, is_some, IsSome, if◌then◌else◌, None, Some, IfOk, int_lt, pos, ◌-ℤ◌};
ghost use Rattle.std.specs.Option.{option_map};
ghost use Rattle.host_ledger.specs.declared.config.Config.{Config as Configuration};
ghost use Rattle.host_ledger.specs.declared.entries.Entry.{Entry};
ghost use Rattle.host_ledger.specs.declared.entries.Entry.TheVariants.{Posted};
ghost use Rattle.host_ledger.specs.Accounts.{account_of, is_served_at};
ghost use Rattle.host_ledger.specs.Soundness.{IsConfig};
ghost use Rattle.host_ledger.specs.Sums.{balance, is_below_floor, is_taken, moves_money};
ghost use Rattle.host_ledger.specs.Ledgers.{Stands, account_refusal};
ghost use Rattle.host_ledger.specs.Tables.{funds_after};

use crate::Config;
use crate::funds::{Funds, Table, funds_of, open, transfer};
use faim_base::{Aba, Endpoint, Head, NoMemory, Reject, Verdict};
use std::alloc::Global;
use std::marker::Model;

/// The accounts of a configuration, each with its running balance in cents, found by its number. None of its calls but
/// `new` takes memory.
///
/// A ledger stands for a list of entries where each balance is the one after these entries. The clauses of each call hold
/// for whatever configuration and entries it stands for.
#[derive(Debug, Drop)]
pub struct Ledger {
    table: Table,
}

impl Model for Ledger {
    ghost use Rattle.std.specs.Prelude.{List};
    ghost use Rattle.host_ledger.specs.Ledgers.{Row};

    ghost Value = { List Row };

    ghost use Rattle.host_ledger.specs.Tables.{rows_in};

    ghost view = { λ l. rows_in l.table.entries };
}

impl Ledger {
    /// The ledger of a sound configuration before any entry. `NoMemory` leaves nothing.
    pub fn new(alloc: Global, config: &Config) -> Result<Ledger, NoMemory>
        requires { IsConfig config.now }
        ensures { IfOk result (λ ledger. Stands ledger config.now []) }
    {
        let table = open(alloc, config.accounts.as_slice())?;
        Ok(Ledger { table })
    }

    /// The balance of an account in cents: its opening, plus what accepted messages moved in, minus what they moved out.
    /// None exactly where no account has that number.
    pub fn balance(&self, aba: &Aba) -> Option<i128>
        ensures { (c : Configuration) (es : List Entry) → Stands self.now c es
            → result ≡ (if is_some (account_of c aba.now) then Some (balance c es aba.now) else None) }
    {
        let funds = self.funds(aba)?;
        Some(funds.balance)
    }

    /// The endpoint that serves an account. None exactly where no account has that number.
    pub fn endpoint(&self, aba: &Aba) -> Option<Endpoint>
        ensures { (c : Configuration) (es : List Entry) → Stands self.now c es
            → result ≡ option_map (λ a. a.endpoint) (account_of c aba.now) }
    {
        let funds = self.funds(aba)?;
        Some(funds.endpoint)
    }

    /// The refusal of a message from a line for its accounts: E161 exactly where the sender has no account on that line,
    /// else E162 exactly where the receiver has no account, else none. Where it is none both have accounts.
    pub fn check(&self, line: Endpoint, head: &Head) -> Option<Reject>
        ensures refusal { (c : Configuration) (es : List Entry) → Stands self.now c es
            → result ≡ account_refusal c line head.now }
        ensures both { (c : Configuration) (es : List Entry) → Stands self.now c es → result ≡ None
            → IsSome (account_of c head.now.sender) × IsSome (account_of c head.now.receiver) }
    {
        if !self.is_served_at(&head.sender, line) {
            return refusal(161);
        }
        if self.funds(&head.receiver).is_none() {
            return refusal(162);
        }
        None
    }

    /// Whether the sender's account covers the message: true exactly where the subtype moves no money, or the balance
    /// minus the amount is at least the floor. It is asked where the sender has an account.
    pub fn covers(&self, head: &Head) -> bool
        ensures { (c : Configuration) (es : List Entry) → Stands self.now c es
            → IsSome (account_of c head.now.sender)
            → result ≡ not (is_below_floor c es head.now) }
    {
        if !moves_money(head) {
            return true;
        }
        match self.funds(&head.sender) {
            Some(funds) => keeps_floor(&funds, head.amount.get()),
            None => false,
        }
    }

    /// Adds a message with the verdict on it: moves the amount from the sender to the receiver exactly where the message is
    /// taken and its subtype moves money. Afterwards the ledger stands for the list with the entry that posts it, if it
    /// stood for fewer than 2^64 entries.
    pub fn apply(&mut self, head: &Head, verdict: &Verdict)
        ensures { (c : Configuration) (es : List Entry) (body : List ℕ) (resent : Bool) (moment : ℕ)
            → IsConfig c → length es < 2 ^ 64 → Stands self.old c es
            → Stands self.new c (Posted head.now body resent moment verdict.now ∷ es) }
    {
        let amount = head.amount.get();
        if moves(head, verdict) {
            transfer(&mut self.table, &head.sender, &head.receiver, amount);
        }
    }

    /// Takes back the last entry, which posted a message with this head and this verdict. Afterwards the ledger stands for
    /// the list without it.
    pub fn undo(&mut self, head: &Head, verdict: &Verdict)
        ensures { (c : Configuration) (es : List Entry) (body : List ℕ) (resent : Bool) (moment : ℕ)
            → IsConfig c → length es < 2 ^ 64
            → Stands self.old c (Posted head.now body resent moment verdict.now ∷ es)
            → Stands self.new c es }
    {
        if moves(head, verdict) {
            let amount = head.amount.get();
            transfer(&mut self.table, &head.receiver, &head.sender, amount);
        }
    }

    // What is kept of an account. None exactly where no account has the number.
    fn funds(&self, aba: &Aba) -> Option<Funds>
        ensures { (c : Configuration) (es : List Entry) → Stands self.now c es
            → result ≡ option_map (funds_after c es) (account_of c aba.now) }
    {
        funds_of(&self.table, aba)
    }

    // Whether an account with this number is on the line.
    fn is_served_at(&self, aba: &Aba, line: Endpoint) -> bool
        ensures { (c : Configuration) (es : List Entry) → Stands self.now c es
            → result ≡ is_served_at c aba.now line }
    {
        match self.funds(aba) {
            Some(funds) => funds.endpoint == line,
            None => false,
        }
    }
}

/// Whether a message of this subtype moves money from its sender to its receiver.
pub fn moves_money(head: &Head) -> bool
    ensures { result ≡ moves_money head.now }
{
    matches!(head.sub, 0 | 2 | 8 | 32)
}

// Whether a message with this verdict moves money.
fn moves(head: &Head, verdict: &Verdict) -> bool
    ensures { result ≡ is_taken verdict.now && moves_money head.now }
{
    matches!(verdict, Verdict::Taken { .. }) && moves_money(head)
}

// Whether an account's balance minus an amount in cents is at least its floor.
fn keeps_floor(funds: &Funds, amount: u64) -> bool
    ensures { result ≡ not (int_lt (funds.now.balance -ℤ pos amount) funds.now.floor) }
{
    funds.balance >= i128::from(funds.floor) + i128::from(amount)
}

fn refusal(code: u16) -> Option<Reject>
    ensures { result ≡ Some (record { category = 69; code = code }) }
{
    Some(Reject {
        category: b'E',
        code,
    })
}
