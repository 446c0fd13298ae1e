// One record more.
ghost use Rattle.std.specs.Prelude.{◌≡◌, ◌+◌, ◌<◌, ◌↔◌, ℕ, length, Err};
ghost use Rattle.site_core.specs.Told.{Goes};
ghost use Rattle.torn_journal.specs.Journal.{IsFramed, payload_of};
ghost use Rattle.torn_journal.specs.Limits.{greatest_tail};
ghost use Rattle.store_forward.specs.Storing.{IfStored, StoreCalls, StoreSends, StoreReason, DiskCount, LineCount};
ghost use Rattle.journaled_list.specs.Storing.{StoresAll};

use crate::{Journaled, Kept};
use site_core::Site;
use store_forward::{ForwardFault, Outbox, store_and_forward};

impl<L: Journaled> Kept<L> {
    /// Adds the record of a group that the list has already, so many entries, and then sends the frames that rest on it
    /// (docs/MODEL.md, "Lists in journals"). It takes no memory. The list stays: after `JournalFull`, before which no
    /// device call is made, it is for the caller to cut the group off, and after `SiteFault` the list is resumed before
    /// it is used again.
    pub fn store<S: Site>(
        &mut self,
        site: &mut S,
        count: usize,
        framed: &[u8],
        outbox: &Outbox,
    ) -> Result<(), ForwardFault>
        requires { IsFramed framed.now }

        ensures calls { Goes (S.told site.old) (S.told site.new) (StoreCalls self.old.journal framed.now outbox.now result) }
        ensures sent { Goes (S.told site.old) (S.told site.new) (StoreSends outbox.now result) }
        ensures reason { Goes (S.told site.old) (S.told site.new) (StoreReason result) }
        ensures moments { Goes (S.told site.old) (S.told site.new) (StoresAll L.rules result self.old.journal self.new.journal (payload_of framed.now) outbox.now) }
        ensures full { (greatest_tail < self.old.journal + length framed.now) ↔ (result ≡ Err (ForwardFault.JournalFull self.old.journal (length framed.now))) }
        ensures full_only { (tail need : ℕ) → result ≡ Err (ForwardFault.JournalFull tail need) → (tail ≡ self.old.journal) × (need ≡ length framed.now) }
        ensures untouched { greatest_tail < self.old.journal + length framed.now → site.new ≡ site.old }
        ensures list { self.new.list ≡ self.old.list }
        ensures last { IfStored result (self.new.last ≡ count) (self.new.last ≡ self.old.last) }
        ensures tail { IfStored result (self.new.journal ≡ self.old.journal + length framed.now) (self.new.journal ≡ self.old.journal) }
        ensures disk { DiskCount result (S.disk_faults site.old) (S.disk_faults site.new) }
        ensures line { LineCount result (S.line_faults site.old) (S.line_faults site.new) }
    {
        match store_and_forward(&mut self.journal, site, framed, outbox) {
            Ok(()) => {
                self.last = count;
                Ok(())
            }
            Err(ForwardFault::LineFault) => {
                self.last = count;
                Err(ForwardFault::LineFault)
            }
            Err(ForwardFault::SiteFault) => Err(ForwardFault::SiteFault),
            Err(ForwardFault::JournalFull { tail, need }) => {
                Err(ForwardFault::JournalFull { tail, need })
            }
        }
    }
}
