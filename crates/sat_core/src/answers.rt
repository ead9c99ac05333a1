//! What `solve` answers.

use sat_chain::{AddFault, Chain};
use std::alloc::{AllocError, AllocFailed};

/// What was found out about clauses.
#[derive(Drop)]
pub enum Answer {
    /// A value for each variable, the first of which is 1, that makes each clause true.
    Model(Vec<bool>),
    /// A derivation of the empty clause.
    Refuted(Chain),
    /// A derivation of as many new clauses as the budget.
    Spent(Chain),
}

/// Why there is no answer.
#[derive(Clone, Copy, Debug, PartialEq, Eq)]
pub enum SolveFault {
    /// No memory for the clauses, the path or the chain.
    Memory,
}

impl From<AllocError> for SolveFault {
    fn from(_error: AllocError) -> SolveFault {
        SolveFault::Memory
    }
}

impl From<AddFault> for SolveFault {
    fn from(fault: AddFault) -> SolveFault {
        match fault {
            AddFault::Memory => SolveFault::Memory,
        }
    }
}

impl<T: Drop> From<AllocFailed<T>> for SolveFault {
    fn from(failed: AllocFailed<T>) -> SolveFault {
        let AllocFailed { value: _ } = failed;
        SolveFault::Memory
    }
}
