// A record goes into the journal before any frame that rests on it is sent.
ghost use Rattle.std.specs.Prelude.{◌≡◌, ◌+◌, ◌<◌, ◌↔◌, ℕ, length, Err};
ghost use Rattle.site_core.specs.Told.{Goes};
ghost use Rattle.torn_journal.specs.Journal.{IsFramed, payload_of};
ghost use Rattle.torn_journal.specs.Limits.{greatest_tail};
ghost use Rattle.store_forward.specs.Storing.{IfStored, StoreCalls, StoreSends, StoreReason, Stores, DiskCount, LineCount};

use crate::{ForwardFault, Outbox, send_all};
use site_core::Site;
use torn_journal::{AppendFault, Journal};

/// Adds what is framed to the journal by four device calls, and then sends the frames in order, each by one more
/// (docs/STOPS.md, "Storing and forwarding"). It takes no memory.
///
/// What each fault leaves stands at `ForwardFault`. `JournalFull` comes exactly where the tail and the length of what is
/// framed pass 1,073,741,824 together.
pub fn store_and_forward<S: Site>(
    journal: &mut Journal,
    site: &mut S,
    framed: &[u8],
    outbox: &Outbox,
) -> Result<(), ForwardFault>
    requires { IsFramed framed.now }

    ensures calls { Goes (S.told site.old) (S.told site.new) (StoreCalls journal.old framed.now outbox.now result) }
    ensures sent { Goes (S.told site.old) (S.told site.new) (StoreSends outbox.now result) }
    ensures reason { Goes (S.told site.old) (S.told site.new) (StoreReason result) }
    ensures moments { Goes (S.told site.old) (S.told site.new) (Stores result journal.old journal.new (payload_of framed.now) outbox.now) }
    ensures full { (greatest_tail < journal.old + length framed.now) ↔ (result ≡ Err (ForwardFault.JournalFull journal.old (length framed.now))) }
    ensures full_only { (tail need : ℕ) → result ≡ Err (ForwardFault.JournalFull tail need) → (tail ≡ journal.old) × (need ≡ length framed.now) }
    ensures untouched { greatest_tail < journal.old + length framed.now → site.new ≡ site.old }
    ensures tail { IfStored result (journal.new ≡ journal.old + length framed.now) (journal.new ≡ journal.old) }
    ensures disk { DiskCount result (S.disk_faults site.old) (S.disk_faults site.new) }
    ensures line { LineCount result (S.line_faults site.old) (S.line_faults site.new) }
{
    match journal.append(site, framed) {
        Ok(()) => match send_all(site, outbox) {
            Ok(()) => Ok(()),
            Err(_) => Err(ForwardFault::LineFault),
        },
        Err(AppendFault::SiteFault) => Err(ForwardFault::SiteFault),
        Err(AppendFault::JournalFull { tail, need }) => {
            Err(ForwardFault::JournalFull { tail, need })
        }
    }
}
