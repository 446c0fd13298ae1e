// Why a turn broke off. The text of each fault is the name of its variant.
use thiserror::Error;

/// Why a record wasn't stored, or its frames weren't all sent.
#[derive(Clone, Copy, Debug, Drop, PartialEq, Eq, Error)]
pub enum ForwardFault {
    /// A call of the disk failed, and no frame was sent. The journal may have the record or not: it is resumed before it
    /// is used again.
    #[error("SiteFault")]
    SiteFault,
    /// The record is stored for good, and a send failed: the frames before it were sent, it was or it wasn't, and none
    /// after it was.
    #[error("LineFault")]
    LineFault,
    /// The journal would pass 1,073,741,824 bytes. No device call was made.
    #[error("JournalFull")]
    JournalFull { tail: u64, need: u64 },
}
