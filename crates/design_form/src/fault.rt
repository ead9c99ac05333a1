//! Why a call gives up. Memory is the one cause.

use rdc_tern::WordFault;
use std::alloc::{AllocError, AllocFailed};

/// Why a design is not made.
#[derive(Clone, Copy, Debug, PartialEq, Eq)]
pub enum DesignFault {
    /// There is no memory for its tables.
    Memory,
}

impl From<AllocError> for DesignFault {
    fn from(_: AllocError) -> Self {
        DesignFault::Memory
    }
}

impl<T: Drop> From<AllocFailed<T>> for DesignFault {
    fn from(_: AllocFailed<T>) -> Self {
        DesignFault::Memory
    }
}

/// Why an expression is not evaluated.
#[derive(Clone, Copy, Debug, PartialEq, Eq)]
pub enum EvalFault {
    /// There is no memory for a word of it. No memory holds 2^63 values or more.
    Memory,
}

impl From<AllocError> for EvalFault {
    fn from(_: AllocError) -> Self {
        EvalFault::Memory
    }
}

impl<T: Drop> From<AllocFailed<T>> for EvalFault {
    fn from(_: AllocFailed<T>) -> Self {
        EvalFault::Memory
    }
}

impl From<WordFault> for EvalFault {
    fn from(_: WordFault) -> Self {
        EvalFault::Memory
    }
}
