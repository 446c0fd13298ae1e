// What is asked of an input.

/// What is asked of an input, and answered in print.
#[derive(Clone, Copy, Debug, PartialEq, Eq)]
pub enum Query {
    /// Whether an input is a message that fails no edit.
    Check,
    /// The edit table in print.
    Table,
    /// The report of a script.
    Replay,
}
