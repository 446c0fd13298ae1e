// What an init makes a node of: a host of a configuration, a bank of its opening (docs/FORMATS.md, "Commands").
ghost use Rattle.std.specs.Prelude.{◌≡◌, ◌≤◌, ℕ, List, [], Err, IfOk, OnOk};
ghost use Rattle.site_core.specs.Counts.{Rose};
ghost use Rattle.site_core.specs.Told.{Goes, HasReason};
ghost use Rattle.site_core.specs.Told.Part.{Disk};
ghost use Rattle.journaled_list.specs.Loading.{Found};
ghost use Rattle.journaled_list.specs.Making.{Inits};
ghost use Rattle.world_text.specs.Reading.{ReadsText};
ghost use Rattle.faim_top.specs.Inits.{Made};
ghost use Rattle.faim_top.specs.LongTexts.{LongTextsAreNone};

use bank_books::BankOpening;
use bank_node::BankNode;
use host_ledger::Config;
use host_node::HostNode;
use site_core::Site;
use std::alloc::Global;
use torn_journal::CreateFault;
use world_text::{ScriptRefused, read_bank_text, read_config_text};

// An opening that a text may be, and the node whose journal begins with it.
pub(crate) trait Opening: Drop {
    type Node: Drop;

    ghost Entry: { Type 0 };

    // Which opening a text is, and the list that the node keeps.
    ghost made: { Made Self Entry };

    // What the node's journal keeps.
    ghost found: { Self.Node → Found Self Entry };

    // The opening that a text is.
    fn read(alloc: Global, text: &[u8]) -> Result<Self, ScriptRefused>
        ensures opening { ReadsText result (made.opening_of text.now) }
        ensures sound { IfOk result (λ o. made.rules.IsOpening o) };

    // Makes the node of a sound opening, with no entry, on an empty disk.
    fn make<S: Site>(self, alloc: Global, site: &mut S) -> Result<Self::Node, CreateFault>
        requires { made.rules.IsOpening self }
        ensures told { Goes (S.told site.old) (S.told site.new) (Inits made.rules found (made.rules.opening_bytes self) result) }
        ensures list { IfOk result (λ n. ((found n).list ≡ record { opening = self; entries = [] }) × ((found n).last ≡ 0)) }
        ensures untouched { result ≡ Err CreateFault.NoMemory → site.new ≡ site.old }
        ensures later { S.disk_faults site.old ≤ S.disk_faults site.new }
        ensures kept { OnOk result (S.disk_faults site.new ≡ S.disk_faults site.old) }
        ensures not_empty { result ≡ Err CreateFault.NotEmpty → S.disk_faults site.new ≡ S.disk_faults site.old }
        ensures cause { result ≡ Err CreateFault.SiteFault → Rose (S.disk_faults site.old) (S.disk_faults site.new) }
        ensures reason { result ≡ Err CreateFault.SiteFault → Goes (S.told site.old) (S.told site.new) (HasReason Disk) }
        ensures line { S.line_faults site.new ≡ S.line_faults site.old };

    // A text that has more bytes than it may is none, for its size.
    ghost long_texts: { LongTextsAreNone made };
}

impl Opening for Config {
    ghost use Rattle.host_ledger.specs.declared.entries.Entry.{Entry};
    ghost use Rattle.journaled_steps.specs.Node.{found_of};
    ghost use Rattle.faim_top.specs.Inits.{host_made};
    ghost use Rattle.faim_top.specs.LongTexts.{long_configs};

    type Node = HostNode;

    ghost Entry = { Entry };

    ghost made = { host_made };

    ghost found = { found_of };

    fn read(alloc: Global, text: &[u8]) -> Result<Config, ScriptRefused> {
        read_config_text(alloc, text)
    }

    fn make<S: Site>(self, alloc: Global, site: &mut S) -> Result<HostNode, CreateFault> {
        HostNode::init(alloc, site, self)
    }

    ghost long_texts = { long_configs };
}

impl Opening for BankOpening {
    ghost use Rattle.bank_books.specs.declared.entries.BankEntry.{BankEntry};
    ghost use Rattle.journaled_steps.specs.Node.{found_of};
    ghost use Rattle.faim_top.specs.Inits.{bank_made};
    ghost use Rattle.faim_top.specs.LongTexts.{long_bank_texts};

    type Node = BankNode;

    ghost Entry = { BankEntry };

    ghost made = { bank_made };

    ghost found = { found_of };

    fn read(alloc: Global, text: &[u8]) -> Result<BankOpening, ScriptRefused> {
        read_bank_text(alloc, text)
    }

    fn make<S: Site>(self, alloc: Global, site: &mut S) -> Result<BankNode, CreateFault> {
        BankNode::init(alloc, site, self)
    }

    ghost long_texts = { long_bank_texts };
}
