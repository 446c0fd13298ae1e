// A host's list, which its journal keeps.
ghost use Rattle.std.specs.Prelude.{◌≡◌};
ghost use Rattle.host_ledger.specs.declared.config.Config.{Config};
ghost use Rattle.host_ledger.specs.declared.entries.Entry.{Entry};
ghost use Rattle.host_node.specs.HostList.{host_rules, listed, sent_again};
ghost use Rattle.host_node.specs.HostReadOnce.{host_read_once};

use crate::following::may_follow;
use crate::resending::send_newest;
use entry_codec::{CodecFault, read_config, read_entry};
use faim_base::NoMemory;
use host_core::HostState;
use host_turns::TextReader;
use journaled_list::Journaled;
use std::alloc::Global;
use store_forward::Outbox;
use torn_journal::VisitFault;

/// A host's configuration and entries, as its journal keeps them (docs/FORMATS.md, "Bytes of configurations", "Entries").
#[derive(Drop)]
pub struct HostList {
    pub(crate) alloc: Global,
    pub(crate) state: HostState,
}

/// What reads a host's journal: it is made before the disk is asked, with the room for the texts of entries.
#[derive(Drop)]
pub struct HostReader {
    pub(crate) alloc: Global,
    pub(crate) texts: TextReader,
}

impl HostReader {
    pub(crate) fn new(alloc: Global) -> Result<HostReader, NoMemory> {
        Ok(HostReader {
            alloc,
            texts: TextReader::new(alloc)?,
        })
    }
}

impl Journaled for HostList {
    type Reader = HostReader;

    ghost Opening = { Config };

    ghost Entry = { Entry };

    ghost rules = { host_rules };

    ghost list = { λ h. listed h.state };

    ghost again = { sent_again };

    fn open(reader: &mut HostReader, opening: &[u8]) -> Result<HostList, VisitFault> {
        let alloc = reader.alloc;
        match read_config(alloc, opening) {
            Ok(config) => match HostState::new(alloc, config) {
                Ok(state) => Ok(HostList { alloc, state }),
                Err(_) => Err(VisitFault::NoMemory),
            },
            Err(CodecFault::Damaged) => Err(VisitFault::Bad),
            Err(CodecFault::NoMemory) => Err(VisitFault::NoMemory),
        }
    }

    fn add(&mut self, reader: &mut HostReader, bytes: &[u8]) -> Result<usize, VisitFault> {
        match read_entry(reader.alloc, bytes) {
            Ok((entry, size)) => match may_follow(reader, &self.state, &entry) {
                Ok(true) => match self.state.push(entry) {
                    Ok(()) => Ok(size),
                    Err(_) => Err(VisitFault::NoMemory),
                },
                Ok(false) => Err(VisitFault::Bad),
                Err(_) => Err(VisitFault::NoMemory),
            },
            Err(CodecFault::Damaged) => Err(VisitFault::Bad),
            Err(CodecFault::NoMemory) => Err(VisitFault::NoMemory),
        }
    }

    fn send_again(&self, last: usize, outbox: &mut Outbox) -> Result<(), NoMemory> {
        send_newest(self.alloc, &self.state, last, outbox)
    }

    ghost read_once = { host_read_once };
}
