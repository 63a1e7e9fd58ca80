//! Want of memory, the one answer that any call which takes memory may give.

use std::alloc::{AllocError, AllocFailed};

/// There was no memory for what was asked. Nothing has changed, but for what the call's own
/// documentation names.
#[derive(Clone, Copy, Debug, PartialEq, Eq)]
pub struct NoMemory;

impl From<AllocError> for NoMemory {
    fn from(_error: AllocError) -> NoMemory {
        NoMemory
    }
}

impl<T: Drop> From<AllocFailed<T>> for NoMemory {
    fn from(_error: AllocFailed<T>) -> NoMemory {
        NoMemory
    }
}
