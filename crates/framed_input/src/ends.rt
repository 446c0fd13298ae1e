// Why no frame comes.
use link_frames::FrameFault;

/// Why no frame comes, where it isn't that the input ended between two frames.
#[derive(Clone, Copy, Debug, PartialEq, Eq)]
pub enum InputEnd {
    /// A read of the source failed.
    ReadFault,
    /// What comes next is no frame (docs/FORMATS.md, "Frames"), or the input ended within it.
    Frame(FrameFault),
    /// The input has more than 2^40 bytes.
    TooLong,
}
