// What a step adds is secured in a record of its own, before the frames that rest on it are sent.
ghost use Rattle.std.specs.Prelude.{◌≡◌, Some, IfOk, true};
ghost use Rattle.site_core.specs.Told.{Goes};
ghost use Rattle.torn_journal.specs.Journal.{IsFramed};
ghost use Rattle.entry_codec.specs.BankRanges.{IsBankEntry};
ghost use Rattle.bank_turns.specs.KeptTexts.{BankMayFollow};
ghost use Rattle.journaled_steps.specs.Faults.{DiskCount, LineCount, FaultReason, IfUnchanged};
ghost use Rattle.journaled_steps.specs.Node.{node_with};
ghost use Rattle.journaled_steps.specs.Steps.{HandlesAll, HasRoom, NodeAfter, StepCalls, StepSends, live_after, record_for, stores_and_sends};
ghost use Rattle.bank_node.specs.BankRules.{bank_rules, listed};

use crate::bank_list::KeptBooks;
use bank_books::{BankEntry, BankOutcome};
use entry_codec::{bank_entry_is_a_payload, spell_bank_entry};
use faim_base::NoMemory;
use journaled_list::Kept;
use journaled_steps::{StepFault, room_for, store_step};
use site_core::Site;
use std::alloc::Global;
use store_forward::Outbox;
use torn_journal::frame_payload;

// Adds an entry that may come next, secures it, and then sends the frames: a step with this outcome. Memory and room are
// asked for before any device is called, and want of them leaves the list as it was.
pub(crate) fn secure<S: Site>(
    kept: &mut Kept<KeptBooks>,
    site: &mut S,
    entry: BankEntry,
    outbox: &Outbox,
    outcome: BankOutcome,
) -> Result<BankOutcome, StepFault>
    requires { BankMayFollow kept.old.list.opening kept.old.list.entries entry }
    ensures node { NodeAfter bank_rules result (stores_and_sends entry outbox.now outcome) (node_with (listed kept.old.list) kept.old true) (node_with (listed kept.new.list) kept.new (live_after result)) }
    ensures room { HasRoom bank_rules result (Some entry) kept.old.journal }
    ensures calls { Goes (S.told site.old) (S.told site.new) (StepCalls bank_rules (Some entry) outbox.now kept.old.journal result) }
    ensures sent { Goes (S.told site.old) (S.told site.new) (StepSends outbox.now result) }
    ensures moments { Goes (S.told site.old) (S.told site.new) (HandlesAll bank_rules result (stores_and_sends entry outbox.now outcome) (node_with (listed kept.old.list) kept.old true) (node_with (listed kept.new.list) kept.new (live_after result))) }
    ensures reason { Goes (S.told site.old) (S.told site.new) (FaultReason result) }
    ensures untouched { IfUnchanged result (site.new ≡ site.old) }
    ensures disk { DiskCount result (S.disk_faults site.old) (S.disk_faults site.new) }
    ensures line { LineCount result (S.line_faults site.old) (S.line_faults site.new) }
{
    match framed_entry(kept.list.alloc(), &entry) {
        Ok(framed) => match room_for(kept, framed.as_slice()) {
            Ok(()) => match kept.list.push(entry) {
                Ok(()) => store_step(kept, site, framed.as_slice(), outbox, outcome),
                Err(_) => Err(StepFault::NoMemory),
            },
            Err(fault) => Err(fault),
        },
        Err(_) => Err(StepFault::NoMemory),
    }
}

// What is written after the tail gate for an entry.
fn framed_entry(alloc: Global, entry: &BankEntry) -> Result<Vec<u8>, NoMemory>
    requires { IsBankEntry entry.now }
    ensures framed { IfOk result (λ framed. IsFramed framed.items) }
    ensures record { IfOk result (λ framed. framed.items ≡ record_for bank_rules entry.now) }
{
    bank_entry_is_a_payload();
    let mut payload = Vec::new(alloc);
    spell_bank_entry(entry, &mut payload)?;
    let mut framed = Vec::new(alloc);
    frame_payload(payload.as_slice(), &mut framed)?;
    Ok(framed)
}
