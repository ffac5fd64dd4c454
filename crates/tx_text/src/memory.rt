// Want of memory.
use std::alloc::{AllocError, AllocFailed};
use thiserror::Error;

/// Memory was refused. Every call that allocates answers it, alone or as a variant of its error, and `?` makes it of
/// what std answers.
#[derive(Clone, Copy, Debug, PartialEq, Eq, Error)]
#[error("out of memory")]
pub struct NoMemory;

impl From<AllocError> for NoMemory {
    fn from(_: AllocError) -> Self {
        NoMemory
    }
}

impl<T: Drop> From<AllocFailed<T>> for NoMemory {
    fn from(_: AllocFailed<T>) -> Self {
        NoMemory
    }
}
