// Why a journal can't be made, resumed or added to. The text of each fault is the name of its variant.
ghost use Rattle.std.specs.Prelude.{◌≡◌};
ghost use Rattle.torn_journal.specs.declared.faults.AppendFault.TheVariants as append_faults;
ghost use Rattle.torn_journal.specs.declared.faults.CreateFault.TheVariants as create_faults;
ghost use Rattle.torn_journal.specs.declared.faults.ResumeFault.TheVariants as resume_faults;

use faim_base::{Failed, NoMemory};
use std::alloc::AllocError;
use thiserror::Error;

/// Why a journal wasn't made.
#[derive(Clone, Copy, Debug, Drop, PartialEq, Eq, Error)]
pub enum CreateFault {
    /// A call of the disk failed. The image may be anything.
    #[error("SiteFault")]
    SiteFault,
    /// The image isn't empty. It stays as it is.
    #[error("NotEmpty")]
    NotEmpty,
    /// Memory ran out. No device call was made.
    #[error("NoMemory")]
    NoMemory,
}

/// Why a journal wasn't resumed.
#[derive(Clone, Copy, Debug, Drop, PartialEq, Eq, Error)]
pub enum ResumeFault {
    /// A call of the disk failed.
    #[error("SiteFault")]
    SiteFault,
    /// The first 16 bytes aren't the header of a journal.
    #[error("NoHeader")]
    NoHeader,
    /// The place of the gate, from 0, at which the image isn't a journal any more.
    #[error("Damaged")]
    Damaged { place: u64 },
    /// Memory ran out. The image is as before.
    #[error("NoMemory")]
    NoMemory,
}

/// Why a payload wasn't added.
#[derive(Clone, Copy, Debug, Drop, PartialEq, Eq, Error)]
pub enum AppendFault {
    /// A call of the disk failed. The payload may be there or not: the journal is resumed before it is used again.
    #[error("SiteFault")]
    SiteFault,
    /// The journal would pass 1,073,741,824 bytes. No device call was made.
    #[error("JournalFull")]
    JournalFull { tail: u64, need: u64 },
}

impl From<Failed> for AppendFault {
    ghost from_gives = { λ _ e. e ≡ append_faults.SiteFault };

    fn from(_: Failed) -> AppendFault {
        AppendFault::SiteFault
    }
}

impl From<Failed> for CreateFault {
    ghost from_gives = { λ _ e. e ≡ create_faults.SiteFault };

    fn from(_: Failed) -> CreateFault {
        CreateFault::SiteFault
    }
}

impl From<NoMemory> for CreateFault {
    ghost from_gives = { λ _ e. e ≡ create_faults.NoMemory };

    fn from(_: NoMemory) -> CreateFault {
        CreateFault::NoMemory
    }
}

impl From<Failed> for ResumeFault {
    ghost from_gives = { λ _ e. e ≡ resume_faults.SiteFault };

    fn from(_: Failed) -> ResumeFault {
        ResumeFault::SiteFault
    }
}

impl From<AllocError> for ResumeFault {
    ghost from_gives = { λ _ e. e ≡ resume_faults.NoMemory };

    fn from(_: AllocError) -> ResumeFault {
        ResumeFault::NoMemory
    }
}
