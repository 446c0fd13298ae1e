// The two faults that every crate hands on.
use std::alloc::{AllocError, AllocFailed};

/// Memory ran out. The call that answers it changed nothing, unless its own page says otherwise.
#[derive(Clone, Copy, Debug, PartialEq, Eq)]
pub struct NoMemory;

impl From<AllocError> for NoMemory {
    fn from(_: AllocError) -> Self {
        NoMemory
    }
}

impl<T: Drop> From<AllocFailed<T>> for NoMemory {
    fn from(_: AllocFailed<T>) -> Self {
        NoMemory
    }
}

/// A call on an object outside the program failed. That object counts its failures.
#[derive(Clone, Copy, Debug, PartialEq, Eq)]
pub struct Failed;
