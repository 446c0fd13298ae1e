// The newest entry is secured in a record of its own, before the frames that rest on it are sent.
ghost use Rattle.std.specs.Prelude.{◌≡◌, ◌∷◌, List, IfOk, Some, true};
ghost use Rattle.site_core.specs.Told.{Goes};
ghost use Rattle.torn_journal.specs.Journal.{IsFramed};
ghost use Rattle.host_ledger.specs.Ranges.{IsEntry};
ghost use Rattle.host_ledger.specs.declared.config.Config.{Config};
ghost use Rattle.host_ledger.specs.declared.entries.Entry.{Entry};
ghost use Rattle.journaled_list.specs.Reading.{with_entry};
ghost use Rattle.journaled_list.specs.Rules.{Listed};
ghost use Rattle.journaled_steps.specs.Faults.{DiskCount, LineCount, FaultReason, IfUnchanged};
ghost use Rattle.journaled_steps.specs.Node.{node_with};
ghost use Rattle.journaled_steps.specs.Steps.{HandlesAll, HasRoom, NodeAfter, StepCalls, StepSends, live_after, record_for, stores_and_sends};
ghost use Rattle.host_node.specs.HostList.{host_rules, listed};
ghost use Rattle.host_node.specs.Stepping.{HasNewest};

use crate::{HostFault, HostList};
use entry_codec::{entry_is_a_payload, spell_entry};
use faim_base::NoMemory;
use faim_model::HostOutcome;
use host_core::HostState;
use journaled_list::Kept;
use journaled_steps::{room_for, store_step};
use site_core::Site;
use std::alloc::Global;
use store_forward::Outbox;
use torn_journal::frame_payload;

// Secures the newest entry, and then sends the frames that rest on it. Where it finds no memory, or the journal is full, it
// takes the entry back.
pub(crate) fn secure<S: Site>(
    kept: &mut Kept<HostList>,
    site: &mut S,
    outbox: &Outbox,
    outcome: HostOutcome,
) -> Result<HostOutcome, HostFault>
    requires { (before : Listed Config Entry) × (x : Entry) × HasNewest kept.old.list.state before x }
    ensures node { (before : Listed Config Entry) (x : Entry) → HasNewest kept.old.list.state before x
        → NodeAfter host_rules result (stores_and_sends x outbox.now outcome) (node_with before kept.old true) (node_with (listed kept.new.list.state) kept.new (live_after result)) }
    ensures room { (before : Listed Config Entry) (x : Entry) → HasNewest kept.old.list.state before x → HasRoom host_rules result (Some x) kept.old.journal }
    ensures calls { (before : Listed Config Entry) (x : Entry) → HasNewest kept.old.list.state before x
        → Goes (S.told site.old) (S.told site.new) (StepCalls host_rules (Some x) outbox.now kept.old.journal result) }
    ensures sent { Goes (S.told site.old) (S.told site.new) (StepSends outbox.now result) }
    ensures moments { (before : Listed Config Entry) (x : Entry) → HasNewest kept.old.list.state before x
        → Goes (S.told site.old) (S.told site.new) (HandlesAll host_rules result (stores_and_sends x outbox.now outcome) (node_with before kept.old true) (node_with (listed kept.new.list.state) kept.new (live_after result))) }
    ensures reason { Goes (S.told site.old) (S.told site.new) (FaultReason result) }
    ensures untouched { IfUnchanged result (site.new ≡ site.old) }
    ensures disk { DiskCount result (S.disk_faults site.old) (S.disk_faults site.new) }
    ensures line { LineCount result (S.line_faults site.old) (S.line_faults site.new) }
{
    match framed_newest(kept.list.alloc, &kept.list.state) {
        Ok(framed) => match room_for(kept, &framed) {
            Ok(()) => store_step(kept, site, &framed, outbox, outcome),
            Err(fault) => {
                take_back(&mut kept.list.state);
                Err(fault)
            }
        },
        Err(_) => {
            take_back(&mut kept.list.state);
            Err(HostFault::NoMemory)
        }
    }
}

// Takes the newest entry back.
fn take_back(state: &mut HostState)
    requires { (before : Listed Config Entry) × (x : Entry) × (listed state.old ≡ with_entry before x) }
    ensures { (before : Listed Config Entry) (x : Entry) → listed state.old ≡ with_entry before x → listed state.new ≡ before }
{
    state.cut(state.len() - 1);
}

// What is written after the tail gate for the newest entry.
fn framed_newest(alloc: Global, state: &HostState) -> Result<Vec<u8>, NoMemory>
    requires { (x : Entry) × (older : List Entry) × (state.now.entries ≡ x ∷ older) × IsEntry x }
    ensures framed { IfOk result (λ framed. IsFramed framed.items) }
    ensures record { IfOk result (λ framed. (x : Entry) (older : List Entry) → state.now.entries ≡ x ∷ older → framed.items ≡ record_for host_rules x) }
{
    entry_is_a_payload();
    let mut payload = Vec::new(alloc);
    match state.entry(state.len() - 1) {
        Some(entry) => spell_entry(entry, &mut payload)?,
        None => unreachable!(),
    }
    let mut framed = Vec::new(alloc);
    frame_payload(payload.as_slice(), &mut framed)?;
    Ok(framed)
}
