// Want of memory.
use atomic_table::Refused;
use std::alloc::{AllocError, AllocFailed, Global};

/// There is no memory.
#[derive(Clone, Copy, Debug, PartialEq, Eq)]
pub struct OutOfMemory;

impl From<AllocError> for OutOfMemory {
    fn from(_error: AllocError) -> OutOfMemory {
        OutOfMemory
    }
}

impl<T: Drop> From<AllocFailed<T>> for OutOfMemory {
    fn from(_error: AllocFailed<T>) -> OutOfMemory {
        OutOfMemory
    }
}

impl<S: Drop> From<Refused<S, Global>> for OutOfMemory {
    fn from(_error: Refused<S, Global>) -> OutOfMemory {
        OutOfMemory
    }
}
