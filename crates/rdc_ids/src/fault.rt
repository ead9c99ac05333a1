//! Why an entry isn't stored.

use std::alloc::{AllocError, AllocFailed};

/// Why `push` stored nothing.
#[derive(Clone, Copy, Debug, PartialEq, Eq)]
pub enum PushFault {
    /// No memory for one more entry.
    Memory,
}

impl<T: Drop> From<AllocFailed<T>> for PushFault {
    fn from(failed: AllocFailed<T>) -> PushFault {
        let AllocFailed { value: _ } = failed;
        PushFault::Memory
    }
}
