// Why a list wasn't resumed. The text of each fault is the name of its variant.
use thiserror::Error;

/// Why a list wasn't resumed (docs/FORMATS.md, "Journals").
#[derive(Clone, Copy, Debug, Drop, PartialEq, Eq, Error)]
pub enum OpenFault {
    /// A call of the disk failed. Nothing was sent.
    #[error("SiteFault")]
    SiteFault,
    /// A send failed. The frames before it were sent, it was or it wasn't, and none after it was. The image is as before.
    #[error("LineFault")]
    LineFault,
    /// The first 16 bytes aren't the header of a journal. Nothing was sent.
    #[error("NoHeader")]
    NoHeader,
    /// The place of the gate, from 0, from which on the image stands for no list. Nothing was sent.
    #[error("Damaged")]
    Damaged { place: u64 },
    /// Memory ran out, before anything was sent. The image is as before.
    #[error("NoMemory")]
    NoMemory,
}
