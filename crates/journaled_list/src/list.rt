// A list that a journal keeps: what it is, how it is read, and what it sends again.
ghost use Rattle.std.specs.Prelude.{◌≡◌, ◌≤◌, ◌++◌, ℕ, List, length, OnOk, OnErr};
ghost use Rattle.journaled_list.specs.Rules.{Rules, Listed, AreReadOnce, IsLawful};
ghost use Rattle.journaled_list.specs.Reading.{OpensWith, AddsOne};

use faim_base::NoMemory;
use store_forward::Outbox;
use torn_journal::VisitFault;

/// A list that a journal keeps: an opening, which its first payload spells, and entries, of which each later payload
/// spells one or more (docs/FORMATS.md, "Journals").
pub trait Journaled: Drop {
    /// What is made before a journal is read, and used with each payload.
    type Reader: Drop;

    ghost Opening: { Type 0 };

    ghost Entry: { Type 0 };

    /// How openings and entries are spelled, and which entry may come next.
    ghost rules: { Rules Opening Entry };

    /// The opening and the entries.
    ghost list: { Self → Listed Opening Entry };

    /// The frames that the newest entries, as many as told, are answered with again.
    ghost again: { Listed Opening Entry → ℕ → List (List ℕ) };

    /// The list of the opening that the bytes spell, with no entry yet. `Bad` exactly where they spell none.
    fn open(reader: &mut Self::Reader, opening: &[u8]) -> Result<Self, VisitFault>
        ensures { OpensWith rules list result opening.now };

    /// Adds the entry at the front of the bytes, and answers how many of them it has. `Bad` exactly where no entry stands
    /// there that may come next; after an error the list isn't used again.
    fn add(&mut self, reader: &mut Self::Reader, bytes: &[u8]) -> Result<usize, VisitFault>
        ensures { AddsOne rules result (list self.old) (list self.new) bytes.now };

    /// Appends the frames that the newest entries are answered with again, in the order of their first sending.
    fn send_again(&self, last: usize, outbox: &mut Outbox) -> Result<(), NoMemory>
        requires lawful { IsLawful rules (list self.now) }
        requires last { last ≤ length (list self.now).entries }
        ensures { OnOk result (outbox.new ≡ outbox.old ++ again (list self.now) last) };

    /// One spelling is read in one way.
    ghost read_once: { AreReadOnce rules };
}
