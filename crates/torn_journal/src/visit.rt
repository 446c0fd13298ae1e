// A visitor is handed the payloads of a journal in order, and refuses one that may not follow.
ghost use Rattle.std.specs.Prelude.{ℕ, List};
ghost use Rattle.torn_journal.specs.Visits.{Takes};

use thiserror::Error;

/// Why a visitor didn't take a payload. After either it isn't used again.
#[derive(Clone, Copy, Debug, Drop, PartialEq, Eq, Error)]
pub enum VisitFault {
    /// The payload may not follow those before it.
    #[error("Bad")]
    Bad,
    /// Memory ran out.
    #[error("NoMemory")]
    NoMemory,
}

/// What is handed the payloads of a journal.
pub trait Visit {
    /// The visitor stands for these payloads.
    ghost stands: { Self → List (List ℕ) → Type 0 };

    /// A payload may come right after these.
    ghost follows: { List (List ℕ) → List ℕ → Type 0 };

    /// Takes the payload exactly where it follows, unless memory runs out, and stands for it too then.
    fn take(&mut self, payload: &[u8]) -> Result<(), VisitFault>
        requires { (payloads : List (List ℕ)) × stands self.old payloads }
        ensures { Takes result follows (stands self.old) (stands self.new) payload.now };
}
