// The opening and the entries of a bank's list (docs/FORMATS.md, "Entries").
ghost use Rattle.std.specs.Prelude.{◌≡◌, ◌↔◌, true};
ghost use Rattle.bank_books.specs.Openings.{IsBankOpening};

use faim_base::{Bytes, CycleDate, Endpoint, Imad, OutPos, Verdict};

/// What a bank is set up with: its endpoint, `env`, which is `T` for test or `P` for production, and its opening cycle
/// date.
#[derive(Clone, Copy, Debug, PartialEq, Eq)]
pub struct BankOpening {
    pub endpoint: Endpoint,
    pub env: u8,
    pub date: CycleDate,
}

impl BankOpening {
    /// Whether the opening is sound: its `env` is `T` or `P`.
    pub fn is_sound(&self) -> bool
        ensures { (result ≡ true) ↔ IsBankOpening self.now }
    {
        // That the endpoint and the date are values of their types is told here, and needs no test.
        let _ = self.endpoint.bytes();
        let _ = self.date.get();
        self.env == b'T' || self.env == b'P'
    }
}

/// One entry. A `Drafted` entry keeps a message that the bank numbered, an `Answered` entry the verdict that came for a
/// draft, and a `Received` entry an output at its position. Each text has a blank as its mark; `next` is the date that an
/// output goes on to which ends a cycle.
#[derive(Debug, Drop)]
pub enum BankEntry {
    Drafted {
        imad: Imad,
        text: Bytes,
    },
    Answered {
        imad: Imad,
        verdict: Verdict,
    },
    Received {
        at: OutPos,
        text: Bytes,
        next: Option<CycleDate>,
    },
}
