//! The errors of this crate.
ghost use Rattle.std.specs.Prelude.{◌≡◌};
ghost use Rattle.kh_log.specs.declared.error.LogError.TheVariants.{DiskFault, NoMemory};

use kh_io::Failed;
use std::alloc::{AllocError, AllocFailed};
use thiserror::Error;

/// Why a call of a log has failed.
#[derive(Clone, Copy, Debug, PartialEq, Eq, Drop, Error)]
pub enum LogError {
    /// The disk has failed in this call.
    #[error("the disk has failed")]
    DiskFault,
    /// The open record whose length stands at this offset lacks bytes.
    #[error("the record at offset {0} lacks bytes")]
    NotALog(u64),
    /// Memory ran out.
    #[error("out of memory")]
    NoMemory,
}

impl From<Failed> for LogError {
    ghost from_gives = { λ _ e. e ≡ DiskFault };

    fn from(_: Failed) -> Self {
        LogError::DiskFault
    }
}

impl From<AllocError> for LogError {
    ghost from_gives = { λ _ e. e ≡ NoMemory };

    fn from(_: AllocError) -> Self {
        LogError::NoMemory
    }
}

impl<T: Drop> From<AllocFailed<T>> for LogError {
    ghost from_gives = { λ _ e. e ≡ NoMemory };

    fn from(_: AllocFailed<T>) -> Self {
        LogError::NoMemory
    }
}
