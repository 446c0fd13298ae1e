// A bank's list, which its journal keeps.
ghost use Rattle.std.specs.Prelude.{◌≡◌, ◌∷◌, [], OnOk, OnErr};
ghost use Rattle.bank_books.specs.declared.entries.BankEntry.{BankEntry};
ghost use Rattle.bank_books.specs.declared.entries.BankOpening.{BankOpening};
ghost use Rattle.bank_books.specs.Openings.{IsBankOpening};
ghost use Rattle.bank_node.specs.BankReadOnce.{bank_read_once};
ghost use Rattle.bank_node.specs.BankRules.{bank_rules, listed};
ghost use Rattle.bank_turns.specs.KeptTexts.{BankMayFollow, KeptBank};
ghost use Rattle.journaled_list.specs.Resuming.{none_again};

use crate::following::may_follow;
use bank_books::{BankEntry, BankOpening, Books};
use bank_texts::{KeptReader, OutputReader};
use entry_codec::{CodecFault, read_bank_entry, read_opening};
use faim_base::NoMemory;
use journaled_list::Journaled;
use std::alloc::Global;
use std::marker::Model;
use store_forward::Outbox;
use torn_journal::VisitFault;

/// A bank's opening and entries, as its journal keeps them, each with the text that it is kept with (docs/FORMATS.md,
/// "Bytes of configurations", "Entries"). Contracts see the list.
#[derive(Drop)]
pub struct KeptBooks {
    alloc: Global,
    books: Books,
}

impl Model for KeptBooks {
    ghost use Rattle.bank_books.specs.State.{BankList};
    ghost use Rattle.bank_turns.specs.KeptTexts.{KeptBank};

    ghost Value = { BankList };

    ghost view = { λ k. k.books };

    ghost invariant = { λ k. KeptBank k.books.opening k.books.entries };
}

impl KeptBooks {
    /// The list of a sound opening, with no entries yet. It takes no memory.
    pub(crate) fn new(alloc: Global, opening: BankOpening) -> KeptBooks
        requires { IsBankOpening opening }
        ensures { result ≡ record { opening = opening; entries = [] } }
    {
        KeptBooks {
            alloc,
            books: Books::new(alloc, opening),
        }
    }

    /// The opening and the entries.
    pub(crate) fn books(&self) -> &Books
        ensures value { result.now ≡ self.now }
        ensures sound { IsBankOpening self.now.opening }
        ensures kept { KeptBank self.now.opening self.now.entries }
    {
        // The opening is read since its reader tells that it is sound.
        let _opening = self.books.opening();
        &self.books
    }

    pub(crate) fn alloc(&self) -> Global {
        self.alloc
    }

    /// Appends an entry that may come next. `NoMemory` changes nothing.
    pub(crate) fn push(&mut self, entry: BankEntry) -> Result<(), NoMemory>
        requires { BankMayFollow self.old.opening self.old.entries entry }
        ensures ok { OnOk result (self.new ≡ record { opening = self.old.opening; entries = entry ∷ self.old.entries }) }
        ensures err { OnErr result (self.new ≡ self.old) }
    {
        self.books.push(entry)
    }
}

impl Journaled for KeptBooks {
    type Reader = BankReader;

    ghost Opening = { BankOpening };

    ghost Entry = { BankEntry };

    ghost rules = { bank_rules };

    ghost list = { listed };

    ghost again = { none_again };

    fn open(reader: &mut BankReader, opening: &[u8]) -> Result<KeptBooks, VisitFault> {
        match read_opening(opening) {
            Ok(opening) => Ok(KeptBooks::new(reader.alloc, opening)),
            Err(CodecFault::Damaged) => Err(VisitFault::Bad),
            Err(CodecFault::NoMemory) => Err(VisitFault::NoMemory),
        }
    }

    fn add(&mut self, reader: &mut BankReader, bytes: &[u8]) -> Result<usize, VisitFault> {
        let source = self.books().opening().endpoint;
        match read_bank_entry(reader.alloc, bytes, source) {
            Ok((entry, size)) => match may_follow(reader, self.books(), &entry) {
                Ok(true) => match self.push(entry) {
                    Ok(()) => Ok(size),
                    Err(_) => Err(VisitFault::NoMemory),
                },
                Ok(false) => Err(VisitFault::Bad),
                Err(_) => Err(VisitFault::NoMemory),
            },
            Err(CodecFault::Damaged) => Err(VisitFault::Bad),
            Err(CodecFault::NoMemory) => Err(VisitFault::NoMemory),
        }
    }

    fn send_again(&self, _last: usize, _outbox: &mut Outbox) -> Result<(), NoMemory> {
        Ok(())
    }

    ghost read_once = { bank_read_once };
}

/// What reads a bank's journal: it is made before the disk is asked, with the room for the texts of entries.
#[derive(Drop)]
pub struct BankReader {
    pub(crate) alloc: Global,
    pub(crate) drafts: KeptReader,
    pub(crate) outputs: OutputReader,
}

impl BankReader {
    pub(crate) fn new(alloc: Global) -> Result<BankReader, NoMemory> {
        Ok(BankReader {
            alloc,
            drafts: KeptReader::new(alloc)?,
            outputs: OutputReader::new(alloc)?,
        })
    }
}
