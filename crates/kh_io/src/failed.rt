//! The errors of this crate.
use std::alloc::{AllocError, AllocFailed};
use thiserror::Error;

/// The outside has failed in this call. The count of faults that belongs to the call rose.
#[derive(Clone, Copy, Debug, PartialEq, Eq, Drop, Error)]
#[error("a call of the host failed")]
pub struct Failed;

/// Memory ran out. The arguments are as they were before the call.
#[derive(Clone, Copy, Debug, PartialEq, Eq, Drop, Error)]
#[error("out of memory")]
pub struct NoMemory;

impl From<AllocError> for NoMemory {
    fn from(_: AllocError) -> Self {
        NoMemory
    }
}

impl<T: Drop> From<AllocFailed<T>> for NoMemory {
    fn from(_: AllocFailed<T>) -> Self {
        NoMemory
    }
}
