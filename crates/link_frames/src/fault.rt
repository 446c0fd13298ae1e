// Why bytes are no frames.

/// Why bytes are no frames (docs/FORMATS.md, "Frames").
#[derive(Clone, Copy, Debug, PartialEq, Eq)]
pub enum FrameFault {
    /// The four length bytes give this number, which isn't 9 to 8,201.
    BadLength(u32),
    /// This byte is no kind's: it isn't 1 to 7.
    BadKind(u8),
    /// A byte of the endpoint is no text byte, or a blank.
    BadEndpoint,
    /// The bytes end after so many bytes of a frame, one at least.
    CutFrame(usize),
}
