// The sizes of frames and of their parts (docs/FORMATS.md, "Frames").

// The bytes of the length, which it doesn't count.
pub(crate) const LENGTH: usize = 4;

// The bytes of the kind and the endpoint, which the length counts.
pub(crate) const COUNTED: usize = 9;

// The bytes before the payload.
pub(crate) const HEAD: usize = 13;

// The bytes that a payload has at most.
pub(crate) const GREATEST_PAYLOAD: usize = 8_192;

// The bytes that a frame has at most.
pub(crate) const GREATEST_FRAME: usize = 8_205;
