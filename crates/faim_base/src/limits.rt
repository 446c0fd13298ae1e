// Limits that several crates keep (docs/FORMATS.md, "Tags").

/// How many bytes the longest spelling of a message has. It follows from the layouts of the tags.
pub const LONGEST_MESSAGE: usize = 4_234;
