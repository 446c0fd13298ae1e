// Forms and breaks.

/// What a message is for: what a bank submits, a draft that has no identifier yet, what the service delivers, and its
/// acknowledgement (docs/FORMATS.md, "Messages").
#[derive(Clone, Copy, Debug, PartialEq, Eq)]
pub enum Form {
    Input,
    Draft,
    Output,
    Ack,
}

/// What stands between the tags of a message: nothing, LF, or CR and LF. `last` tells that it stands after the last
/// tag too.
#[derive(Clone, Copy, Debug, PartialEq, Eq)]
pub enum Breaks {
    Joined,
    Lf { last: bool },
    CrLf { last: bool },
}
