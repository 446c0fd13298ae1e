// A step that adds an entry: its record has room, is stored, and then its frames are sent.
ghost use Rattle.std.specs.Prelude.{◌≡◌, ◌⊎◌, ◌+◌, ◌≤◌, length, Some, Ok, Err, true};
ghost use Rattle.site_core.specs.Told.{Goes};
ghost use Rattle.torn_journal.specs.Journal.{IsFramed};
ghost use Rattle.torn_journal.specs.Limits.{greatest_tail};
ghost use Rattle.journaled_list.specs.Reading.{with_entry};
ghost use Rattle.journaled_list.specs.Rules.{Listed};
ghost use Rattle.journaled_steps.specs.Faults.{DiskCount, LineCount, FaultReason, IfUnchanged};
ghost use Rattle.journaled_steps.specs.Node.{node_with};
ghost use Rattle.journaled_steps.specs.Steps.{HandlesAll, HasRoom, NodeAfter, StepCalls, StepSends, TellsRoom, answered, live_after, record_for, stores_and_sends};

use crate::StepFault;
use journaled_list::{Journaled, Kept};
use site_core::Site;
use store_forward::{ForwardFault, Outbox};
use torn_journal::GREATEST_TAIL;

/// Whether what is framed ends within the greatest tail of a journal, 1,073,741,824 bytes (docs/FORMATS.md, "Journals").
/// `JournalFull` comes exactly where it would end beyond, with the tail and the length of what is framed; no other fault
/// comes.
pub fn room_for<L>(kept: &Kept<L>, framed: &[u8]) -> Result<(), StepFault>
    ensures { TellsRoom result kept.now.journal (length framed.now) }
{
    let tail = kept.journal.tail();
    let need = framed.len() as u64;
    if need <= GREATEST_TAIL - tail {
        Ok(())
    } else {
        Err(StepFault::JournalFull { tail, need })
    }
}

/// Secures the newest entry of a list, which the list has already, in a record of its own, and then sends the frames that
/// rest on it: a step that adds this entry, with this outcome (docs/MODEL.md, "Steps of a node"). The record was framed
/// before, and has room (`room_for`). It takes no memory, and the list stays as it is.
///
/// What each fault leaves stands at `StepFault`; only those of the disk and of the line come. Clauses that speak of an entry
/// and of the list before it hold where the list now is that one with this entry, and what is framed is its spelling; of
/// each moment they speak where the entry may come next.
pub fn store_step<S: Site, L: Journaled, X: Copy>(
    kept: &mut Kept<L>,
    site: &mut S,
    framed: &[u8],
    outbox: &Outbox,
    outcome: X,
) -> Result<X, StepFault>
    requires framed { IsFramed framed.now }
    requires room { kept.old.journal + length framed.now ≤ greatest_tail }

    ensures node { (before : Listed L.Opening L.Entry) (x : L.Entry) → L.list kept.old.list ≡ with_entry before x → framed.now ≡ record_for L.rules x
        → NodeAfter L.rules result (stores_and_sends x outbox.now outcome) (node_with before kept.old true) (node_with (L.list kept.new.list) kept.new (live_after result)) }
    ensures room { (x : L.Entry) → framed.now ≡ record_for L.rules x → HasRoom L.rules result (Some x) kept.old.journal }
    ensures calls { (x : L.Entry) → framed.now ≡ record_for L.rules x
        → Goes (S.told site.old) (S.told site.new) (StepCalls L.rules (Some x) outbox.now kept.old.journal result) }
    ensures sent { Goes (S.told site.old) (S.told site.new) (StepSends outbox.now result) }
    ensures moments { (before : Listed L.Opening L.Entry) (x : L.Entry) → L.list kept.old.list ≡ with_entry before x → L.rules.MayFollow before.opening before.entries x → framed.now ≡ record_for L.rules x
        → Goes (S.told site.old) (S.told site.new) (HandlesAll L.rules result (stores_and_sends x outbox.now outcome) (node_with before kept.old true) (node_with (L.list kept.new.list) kept.new (live_after result))) }
    ensures list { kept.new.list ≡ kept.old.list }
    ensures answer { (result ≡ Ok outcome) ⊎ ((result ≡ Err StepFault.SiteFault) ⊎ (result ≡ Err StepFault.LineFault)) }
    ensures reason { Goes (S.told site.old) (S.told site.new) (FaultReason result) }
    ensures untouched { IfUnchanged result (site.new ≡ site.old) }
    ensures disk { DiskCount result (S.disk_faults site.old) (S.disk_faults site.new) }
    ensures line { LineCount result (S.line_faults site.old) (S.line_faults site.new) }
{
    let stored = kept.store(site, 1, framed, outbox);
    answered(stored, outcome)
}

// The answer of a step, by that of storing and sending.
fn answered<X: Copy>(stored: Result<(), ForwardFault>, outcome: X) -> Result<X, StepFault>
    ensures { result ≡ answered outcome stored }
{
    match stored {
        Ok(()) => Ok(outcome),
        Err(ForwardFault::SiteFault) => Err(StepFault::SiteFault),
        Err(ForwardFault::LineFault) => Err(StepFault::LineFault),
        Err(ForwardFault::JournalFull { tail, need }) => Err(StepFault::JournalFull { tail, need }),
    }
}
