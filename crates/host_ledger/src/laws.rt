// Laws of the balances and the cycle that a list of entries, the newest first, makes.
ghost use Rattle.std.specs.Prelude.{◌≡◌, ℕ, Bool, List, [], ◌∷◌, ◌&&◌, bytes_eq, if◌then◌else◌, pos, ◌+ℤ◌, ◌-ℤ◌};
ghost use Rattle.faim_base.specs.declared.judgement.Head.{Head};
ghost use Rattle.faim_base.specs.declared.judgement.Reject.{Reject};
ghost use Rattle.faim_base.specs.declared.judgement.Verdict.{Verdict};
ghost use Rattle.faim_base.specs.declared.judgement.Verdict.TheVariants.{Refused, Taken};
ghost use Rattle.host_ledger.specs.declared.config.Config.{Config};
ghost use Rattle.host_ledger.specs.declared.entries.Entry.{Entry};
ghost use Rattle.host_ledger.specs.declared.entries.Entry.TheVariants.{Posted, Roll};
ghost use Rattle.host_ledger.specs.Sums.{balance, cycle, gives, moves_money, takes};
ghost use Rattle.host_ledger.specs.Ledgers.{Row, Stands};

/// An entry moves each balance by what it gives the account and what it takes from it, in cents.
pub fn balance_moves()
    ensures { (c : Config) (x : Entry) (older : List Entry) (aba : List ℕ)
        → balance c (x ∷ older) aba
        ≡ (balance c older aba +ℤ pos (gives x aba)) -ℤ pos (takes x aba) }
{}

/// The cycle date is the opening date at first, and then that of the last `Roll`; messages leave it.
pub fn rolls_alone_move_the_cycle()
    ensures opening { (c : Config) → cycle c [] ≡ c.date }
    ensures rolled { (c : Config) (older : List Entry) (moment date : ℕ)
        → cycle c (Roll moment date ∷ older) ≡ date }
    ensures posted { (c : Config) (older : List Entry) (h : Head) (body : List ℕ) (resent : Bool)
        (moment : ℕ) (v : Verdict)
        → cycle c (Posted h body resent moment v ∷ older) ≡ cycle c older }
{}

/// Accepted messages of the subtypes that move money move it, from the sender to the receiver, and no others do. Amounts
/// are in cents.
pub fn accepted_messages_alone_move_money()
    ensures accepted { (h : Head) (body : List ℕ) (resent : Bool) (moment : ℕ) (dest : List ℕ) (seq : ℕ) (aba : List ℕ)
        → (gives (Posted h body resent moment (Taken dest seq)) aba
        ≡ (if moves_money h && bytes_eq h.receiver aba then h.amount else 0))
        × (takes (Posted h body resent moment (Taken dest seq)) aba
        ≡ (if moves_money h && bytes_eq h.sender aba then h.amount else 0)) }
    ensures refused { (h : Head) (body : List ℕ) (resent : Bool) (moment : ℕ) (why : Reject) (aba : List ℕ)
        → (gives (Posted h body resent moment (Refused why)) aba ≡ 0)
        × (takes (Posted h body resent moment (Refused why)) aba ≡ 0) }
    ensures rolled { (moment date : ℕ) (aba : List ℕ)
        → (gives (Roll moment date) aba ≡ 0) × (takes (Roll moment date) aba ≡ 0) }
{}

/// A ledger that stands for some entries stands for them with a `Roll` too, since that moves no money.
pub fn rolls_leave_ledgers()
    ensures { (rows : List Row) (c : Config) (es : List Entry) (moment date : ℕ)
        → Stands rows c es → Stands rows c (Roll moment date ∷ es) }
{}
