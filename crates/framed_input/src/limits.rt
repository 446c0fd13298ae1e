// How much is read.

/// The bytes that an input has at most, 2^40.
pub const GREATEST_INPUT: u64 = 1 << 40;

// The bytes that one read asks for at most.
pub(crate) const PIECE: usize = 4_096;

// The bytes at a frame's place that are held at most where they show a fault.
pub(crate) const HEAD: usize = 13;
