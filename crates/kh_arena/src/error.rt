// The one way in which an arena fails.
use std::alloc::{AllocError, AllocFailed};
use std::error::Error;
use std::fmt;

/// The allocator refused a block.
#[derive(Debug, Drop)]
pub struct NoMemory;

impl fmt::Display for NoMemory {
    fn fmt<W: fmt::Write>(&self, f: &mut fmt::Formatter<W>) -> fmt::Result {
        write!(f, "out of memory")
    }
}

impl Error for NoMemory {}

impl From<AllocError> for NoMemory {
    fn from(_error: AllocError) -> NoMemory {
        NoMemory
    }
}
