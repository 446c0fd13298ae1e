// Laws of a bank's accord with the host that it hears (docs/FORMATS.md, "What a bank takes"). Each call does nothing: its
// contract is the law.
ghost use Rattle.std.specs.Prelude.{List, [], ◌++◌};
ghost use Rattle.link_frames.specs.Frames.{Content as Frame};
ghost use Rattle.host_ledger.specs.declared.config.Config.{Config};
ghost use Rattle.host_ledger.specs.declared.entries.Entry.{Entry};
ghost use Rattle.bank_books.specs.declared.entries.BankEntry.{BankEntry};
ghost use Rattle.bank_books.specs.declared.entries.BankOpening.{BankOpening};
ghost use Rattle.bank_turns.specs.BankSteps.{adds_to, bank_step};
ghost use Rattle.bank_turns.specs.KeptTexts.{KeptBank};
ghost use Rattle.bank_accord.specs.Accord.{Accords, IsHost, IsTrusted};

/// A step over a frame keeps accord with any host of the bank's date whose list covers the frame, where that is an
/// acknowledgement or an output. So each verdict that the bank keeps is the host's on that IMAD, and the texts of its inbox are
/// the first of what the host puts out to its endpoint.
pub fn steps_keep_accord()
    ensures { (c : Config) (es : List Entry) (o : BankOpening) (kept : List BankEntry) (f : Frame)
        → IsHost c es o → KeptBank o kept → IsTrusted c es f → Accords c es o kept
        → Accords c es o (adds_to (bank_step o kept f).adds kept) }
{}

/// What a host adds later changes nothing of an accord, and a frame that may be trusted may be trusted from then on.
pub fn accord_outlasts_growth()
    ensures accord { (c : Config) (es newer : List Entry) (o : BankOpening) (kept : List BankEntry)
        → Accords c es o kept → Accords c (newer ++ es) o kept }
    ensures trust { (c : Config) (es newer : List Entry) (f : Frame) → IsTrusted c es f → IsTrusted c (newer ++ es) f }
{}

/// A new bank is in accord with each host.
pub fn new_banks_accord()
    ensures { (c : Config) (es : List Entry) (o : BankOpening) → Accords c es o [] }
{}
