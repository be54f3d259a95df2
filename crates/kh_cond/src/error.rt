//! Why a term is no condition or pattern.
use kh_term::NoMemory;
use std::alloc::{AllocError, AllocFailed};
use thiserror::Error;

/// Why a condition, a pattern or watched paths weren't read.
#[derive(Clone, Copy, Debug, PartialEq, Eq, Drop, Error)]
pub enum CondError {
    /// The term spells none. The number is that of the component at fault, counted from 1: 0 where the term of a pattern is no list,
    /// 33 where it has more than 32 components and the first 32 are right, and 1 where no pattern was read.
    #[error("component {0} is no condition")]
    BadCondition(u32),
    /// Memory ran out.
    #[error("out of memory")]
    NoMemory,
}

impl From<NoMemory> for CondError {
    ghost use Rattle.std.specs.Prelude.{◌≡◌};
    ghost use Rattle.kh_cond.specs.declared.error.CondError.TheVariants as error;

    ghost from_gives = { λ _ e. e ≡ error.NoMemory };

    fn from(_: NoMemory) -> CondError {
        CondError::NoMemory
    }
}

impl From<AllocError> for CondError {
    ghost use Rattle.std.specs.Prelude.{◌≡◌};
    ghost use Rattle.kh_cond.specs.declared.error.CondError.TheVariants as error;

    ghost from_gives = { λ _ e. e ≡ error.NoMemory };

    fn from(_: AllocError) -> CondError {
        CondError::NoMemory
    }
}

impl<T: Drop> From<AllocFailed<T>> for CondError {
    ghost use Rattle.std.specs.Prelude.{◌≡◌};
    ghost use Rattle.kh_cond.specs.declared.error.CondError.TheVariants as error;

    ghost from_gives = { λ _ e. e ≡ error.NoMemory };

    fn from(_: AllocFailed<T>) -> CondError {
        CondError::NoMemory
    }
}
