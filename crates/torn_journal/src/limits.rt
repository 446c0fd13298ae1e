// The limits of a journal (docs/FORMATS.md, "Journals").

/// Bytes of the header, with which each image begins.
pub(crate) const HEADER_LENGTH: usize = 16;

/// Bytes of a record beside its payload: a gate and the length.
pub(crate) const RECORD_OVERHEAD: usize = 5;

/// The most bytes that a payload may have. The least is 1.
pub const LONGEST_PAYLOAD: usize = 131_072;

/// The tail that no journal passes, in bytes from the start of the image. Each gate that counts lies below this place.
pub const GREATEST_TAIL: u64 = 1_073_741_824;
