// How a session ends that doesn't come to the end of its input. The text of each end is the name of its variant.
use link_frames::FrameFault;
use thiserror::Error;

/// Why a session ended, where it isn't that its input ended between two frames.
#[derive(Clone, Copy, Debug, Drop, PartialEq, Eq, Error)]
pub enum SessionEnd {
    /// A read of the source failed. The frames that came are taken.
    #[error("ReadFault")]
    ReadFault,
    /// What comes next is no frame (docs/FORMATS.md, "Frames"), or the input ended within it. The frames before it are taken.
    #[error("Frame")]
    Frame(FrameFault),
    /// The input has more than 2^40 bytes. The frames of the first 2^40 are taken.
    #[error("TooLong")]
    TooLong,
    /// A reading of the clock failed. The frames before the one that it was asked for are taken.
    #[error("ClockFault")]
    ClockFault,
    /// A call of the disk failed. The journal stands as before its newest record, or with it.
    #[error("DiskFault")]
    DiskFault,
    /// A send failed. What was recorded stands, the frames before the one that failed were sent, that one was or it wasn't.
    #[error("LineFault")]
    LineFault,
    /// The disk has no journal. Nothing was read from the source.
    #[error("NoJournal")]
    NoJournal,
    /// The place of the gate, from 0, from which on the journal isn't sound. Nothing was read from the source.
    #[error("Damaged")]
    Damaged { place: u64 },
    /// The journal would pass 1,073,741,824 bytes: the place after its tail gate, and the bytes that were to come after it. The
    /// frames before the one that asked for them are taken.
    #[error("JournalFull")]
    JournalFull { tail: u64, need: u64 },
    /// Memory ran out, before a device call of the frame that came last.
    #[error("NoMemory")]
    NoMemory,
}
