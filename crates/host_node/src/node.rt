// A host on its site.
ghost use Rattle.std.specs.Prelude.{◌≡◌, ◌≤◌, [], Err, IfOk, IfSome, OnOk, true};
ghost use Rattle.site_core.specs.Counts.{Rose};
ghost use Rattle.site_core.specs.Log.{reads};
ghost use Rattle.site_core.specs.Told.{Goes, HasReason};
ghost use Rattle.site_core.specs.Told.Part.{Disk};
ghost use Rattle.host_ledger.specs.Soundness.{IsConfig};
ghost use Rattle.entry_codec.specs.Config.{config_bytes};
ghost use Rattle.journaled_list.specs.Faults.{OpenReason, OpenDiskCount, OpenLineCount};
ghost use Rattle.journaled_list.specs.Loading.{SaysOfImage, AnswersImage};
ghost use Rattle.journaled_list.specs.Making.{Inits};
ghost use Rattle.journaled_list.specs.Resuming.{OpenCalls, ResumesAll};
ghost use Rattle.journaled_steps.specs.Node.{found_of};
ghost use Rattle.host_node.specs.HostList.{host_rules, listed, sent_again};

use crate::HostList;
use crate::host_list::HostReader;
use entry_codec::{config_is_a_payload, spell_config};
use host_core::HostState;
use host_ledger::Config;
use journaled_list::{Kept, OpenFault};
use site_core::Site;
use std::alloc::Global;
use std::marker::Model;
use store_forward::Outbox;
use torn_journal::CreateFault;

/// A host's list with its journal, and whether it may handle frames. Contracts see it as a `Node`.
#[derive(Drop)]
pub struct HostNode {
    pub(crate) kept: Kept<HostList>,
    pub(crate) outbox: Outbox,
    pub(crate) live: bool,
}

impl Model for HostNode {
    ghost use Rattle.host_ledger.specs.declared.config.Config.{Config};
    ghost use Rattle.host_ledger.specs.declared.entries.Entry.{Entry};
    ghost use Rattle.journaled_steps.specs.Node.{Node, node_with};
    ghost use Rattle.host_node.specs.HostList.{listed};

    ghost Value = { Node Config Entry };

    ghost view = { λ h. node_with (listed h.kept.list.state) h.kept h.live };
}

impl HostNode {
    /// Makes a host of a sound configuration, with no entry, on an empty disk (docs/FORMATS.md, "Journals"). It makes the
    /// device calls of `torn_journal::create` and no others, and has its answers.
    pub fn init<S: Site>(
        alloc: Global,
        site: &mut S,
        config: Config,
    ) -> Result<HostNode, CreateFault>
        requires { IsConfig config }

        ensures told { Goes (S.told site.old) (S.told site.new) (Inits host_rules found_of (config_bytes config) result) }
        ensures state { IfOk result (λ h. (h.list ≡ record { opening = config; entries = [] }) × (h.last ≡ 0)) }
        ensures live { IfOk result (λ h. h.live ≡ true) }
        ensures untouched { result ≡ Err CreateFault.NoMemory → site.new ≡ site.old }
        ensures later { S.disk_faults site.old ≤ S.disk_faults site.new }
        ensures kept { OnOk result (S.disk_faults site.new ≡ S.disk_faults site.old) }
        ensures not_empty { result ≡ Err CreateFault.NotEmpty → S.disk_faults site.new ≡ S.disk_faults site.old }
        ensures cause { result ≡ Err CreateFault.SiteFault → Rose (S.disk_faults site.old) (S.disk_faults site.new) }
        ensures reason { result ≡ Err CreateFault.SiteFault → Goes (S.told site.old) (S.told site.new) (HasReason Disk) }
        ensures line { S.line_faults site.new ≡ S.line_faults site.old }
    {
        config_is_a_payload();
        let mut opening = Vec::new(alloc);
        match spell_config(&config, &mut opening) {
            Ok(()) => {}
            Err(_) => return Err(CreateFault::NoMemory),
        }
        let state = match HostState::new(alloc, config) {
            Ok(state) => state,
            Err(_) => return Err(CreateFault::NoMemory),
        };
        let list = HostList { alloc, state };
        match journaled_list::init(alloc, site, list, opening.as_slice()) {
            Ok(kept) => Ok(HostNode {
                kept,
                outbox: Outbox::new(alloc),
                live: true,
            }),
            Err(fault) => Err(fault),
        }
    }

    /// Reads the host's journal, and then sends the acknowledgements and outputs of its last record again, marked `P`, in
    /// the order of their first sending; nothing after the opening. The room in which it reads texts is made before it asks
    /// the disk, which it does at most twice for each record and five times more. What each fault leaves stands at
    /// `OpenFault`.
    pub fn resume<S: Site>(alloc: Global, site: &mut S) -> Result<HostNode, OpenFault>
        ensures says { SaysOfImage host_rules found_of (S.told site.old) result }
        ensures image { IfSome (S.told site.old) (λ told. AnswersImage host_rules found_of (reads told.log) result) }
        ensures calls { Goes (S.told site.old) (S.told site.new) (OpenCalls host_rules found_of sent_again result) }
        ensures moments { Goes (S.told site.old) (S.told site.new) (ResumesAll host_rules found_of sent_again result) }
        ensures live { IfOk result (λ h. h.live ≡ true) }
        ensures reason { Goes (S.told site.old) (S.told site.new) (OpenReason result) }
        ensures disk { OpenDiskCount result (S.disk_faults site.old) (S.disk_faults site.new) }
        ensures line { OpenLineCount result (S.line_faults site.old) (S.line_faults site.new) }
    {
        let reader = match HostReader::new(alloc) {
            Ok(reader) => reader,
            Err(_) => return Err(OpenFault::NoMemory),
        };
        let mut outbox = Outbox::new(alloc);
        let resumed: Result<Kept<HostList>, OpenFault> = journaled_list::resume(
            alloc,
            reader,
            site,
            &mut outbox,
        );
        match resumed {
            Ok(kept) => Ok(HostNode {
                kept,
                outbox,
                live: true,
            }),
            Err(fault) => Err(fault),
        }
    }

    /// Whether it may handle frames: after `init` and `resume`, and until a fault of the disk.
    pub fn is_live(&self) -> bool
        ensures { result ≡ self.now.live }
    {
        self.live
    }

    /// Its configuration and entries.
    pub fn state(&self) -> &HostState
        ensures { listed result.now ≡ self.now.list }
    {
        &self.kept.list.state
    }
}
