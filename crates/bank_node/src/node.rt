// A bank on its site.
ghost use Rattle.std.specs.Prelude.{◌≡◌, ◌≢◌, ◌≤◌, [], Err, IfOk, IfSome, OnOk, true};
ghost use Rattle.site_core.specs.Counts.{Rose};
ghost use Rattle.site_core.specs.Log.{reads};
ghost use Rattle.site_core.specs.Told.{Goes, HasReason};
ghost use Rattle.site_core.specs.Told.Part.{Disk};
ghost use Rattle.bank_books.specs.Openings.{IsBankOpening};
ghost use Rattle.entry_codec.specs.BankSpelling.{bank_opening_bytes};
ghost use Rattle.journaled_list.specs.Faults.{OpenReason, OpenDiskCount};
ghost use Rattle.journaled_list.specs.Loading.{SaysOfImage, AnswersImage};
ghost use Rattle.journaled_list.specs.Making.{Inits};
ghost use Rattle.journaled_list.specs.Resuming.{ReadCalls, ResumesAll, none_again};
ghost use Rattle.journaled_steps.specs.Node.{found_of};
ghost use Rattle.bank_node.specs.BankRules.{bank_rules, listed};

use crate::bank_list::{BankReader, KeptBooks};
use bank_books::{BankOpening, Books};
use entry_codec::{bank_opening_is_a_payload, spell_opening};
use journaled_list::{Kept, OpenFault, read_back};
use site_core::Site;
use std::alloc::Global;
use std::marker::Model;
use store_forward::Outbox;
use torn_journal::CreateFault;

/// A bank's list with its journal, and whether it may handle frames. Contracts see it as a `Node`.
#[derive(Drop)]
pub struct BankNode {
    pub(crate) kept: Kept<KeptBooks>,
    pub(crate) outbox: Outbox,
    pub(crate) live: bool,
}

impl Model for BankNode {
    ghost use Rattle.bank_books.specs.declared.entries.BankEntry.{BankEntry};
    ghost use Rattle.bank_books.specs.declared.entries.BankOpening.{BankOpening};
    ghost use Rattle.bank_node.specs.BankRules.{listed};
    ghost use Rattle.journaled_steps.specs.Node.{Node, node_with};

    ghost Value = { Node BankOpening BankEntry };

    ghost view = { λ b. node_with (listed b.kept.list) b.kept b.live };
}

impl BankNode {
    /// Makes a bank of a sound opening, with no entry, on an empty disk (docs/FORMATS.md, "Journals"). It makes the device
    /// calls of `torn_journal::create` and no others, and has its answers.
    pub fn init<S: Site>(
        alloc: Global,
        site: &mut S,
        opening: BankOpening,
    ) -> Result<BankNode, CreateFault>
        requires { IsBankOpening opening }

        ensures told { Goes (S.told site.old) (S.told site.new) (Inits bank_rules found_of (bank_opening_bytes opening) result) }
        ensures list { IfOk result (λ b. (b.list ≡ record { opening = opening; entries = [] }) × (b.last ≡ 0)) }
        ensures live { IfOk result (λ b. b.live ≡ true) }
        ensures untouched { result ≡ Err CreateFault.NoMemory → site.new ≡ site.old }
        ensures later { S.disk_faults site.old ≤ S.disk_faults site.new }
        ensures kept { OnOk result (S.disk_faults site.new ≡ S.disk_faults site.old) }
        ensures not_empty { result ≡ Err CreateFault.NotEmpty → S.disk_faults site.new ≡ S.disk_faults site.old }
        ensures cause { result ≡ Err CreateFault.SiteFault → Rose (S.disk_faults site.old) (S.disk_faults site.new) }
        ensures reason { result ≡ Err CreateFault.SiteFault → Goes (S.told site.old) (S.told site.new) (HasReason Disk) }
        ensures line { S.line_faults site.new ≡ S.line_faults site.old }
    {
        bank_opening_is_a_payload();
        let mut spelled = Vec::new(alloc);
        match spell_opening(&opening, &mut spelled) {
            Ok(()) => {}
            Err(_) => return Err(CreateFault::NoMemory),
        }
        let list = KeptBooks::new(alloc, opening);
        match journaled_list::init(alloc, site, list, spelled.as_slice()) {
            Ok(kept) => Ok(BankNode {
                kept,
                outbox: Outbox::new(alloc),
                live: true,
            }),
            Err(fault) => Err(fault),
        }
    }

    /// Reads the bank's journal, and sends nothing: `LineFault` never comes. The room in which it reads texts is made before
    /// it asks the disk, which it does at most twice for each record and five times more. What each fault leaves stands at
    /// `OpenFault`.
    pub fn resume<S: Site>(alloc: Global, site: &mut S) -> Result<BankNode, OpenFault>
        ensures says { SaysOfImage bank_rules found_of (S.told site.old) result }
        ensures image { IfSome (S.told site.old) (λ told. AnswersImage bank_rules found_of (reads told.log) result) }
        ensures calls { Goes (S.told site.old) (S.told site.new) (ReadCalls result) }
        ensures moments { Goes (S.told site.old) (S.told site.new) (ResumesAll bank_rules found_of none_again result) }
        ensures live { IfOk result (λ b. b.live ≡ true) }
        ensures never { result ≢ Err OpenFault.LineFault }
        ensures reason { Goes (S.told site.old) (S.told site.new) (OpenReason result) }
        ensures disk { OpenDiskCount result (S.disk_faults site.old) (S.disk_faults site.new) }
        ensures line { S.line_faults site.new ≡ S.line_faults site.old }
    {
        let reader = match BankReader::new(alloc) {
            Ok(reader) => reader,
            Err(_) => return Err(OpenFault::NoMemory),
        };
        let read: Result<Kept<KeptBooks>, OpenFault> = read_back(alloc, reader, site);
        match read {
            Ok(kept) => Ok(BankNode {
                kept,
                outbox: Outbox::new(alloc),
                live: true,
            }),
            Err(fault) => Err(fault),
        }
    }

    /// Whether it may handle frames: after `init` and `resume`, and until a fault of the disk.
    pub fn is_live(&self) -> bool
        ensures { result ≡ self.now.live }
    {
        self.live
    }

    /// Its opening and entries.
    pub fn books(&self) -> &Books
        ensures { listed result.now ≡ self.now.list }
    {
        self.kept.list.books()
    }
}
