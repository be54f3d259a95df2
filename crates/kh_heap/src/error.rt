//! Why no term was made.
ghost use Rattle.std.specs.Prelude.{◌≡◌};
ghost use Rattle.kh_heap.specs.declared.error.HeapError.TheVariants.{NoMemory};

use crate::reference::Ref;
use kh_term::Class;
use std::alloc::{AllocError, AllocFailed};
use thiserror::Error;

/// Why a heap did not make a term.
#[derive(Clone, Copy, Debug, PartialEq, Eq, Error)]
pub enum HeapError {
    /// It has a size above 1,048,576 or a depth above 200.
    #[error("the term is too large")]
    TooLarge,
    #[error("out of memory")]
    NoMemory,
}

/// Why a built-in gave no term.
#[derive(Clone, Copy, Debug, PartialEq, Eq)]
pub enum BifError {
    /// It raised an exception with this reason.
    Raise { class: Class, reason: Ref },
    NoMemory,
}

impl From<kh_term::NoMemory> for HeapError {
    ghost from_gives = { λ _ e. e ≡ NoMemory };

    fn from(_error: kh_term::NoMemory) -> HeapError {
        HeapError::NoMemory
    }
}

impl From<kh_arena::NoMemory> for HeapError {
    ghost from_gives = { λ _ e. e ≡ NoMemory };

    fn from(_error: kh_arena::NoMemory) -> HeapError {
        HeapError::NoMemory
    }
}

impl From<AllocError> for HeapError {
    ghost from_gives = { λ _ e. e ≡ NoMemory };

    fn from(_error: AllocError) -> HeapError {
        HeapError::NoMemory
    }
}

impl<T: Drop> From<AllocFailed<T>> for HeapError {
    ghost from_gives = { λ _ e. e ≡ NoMemory };

    fn from(_error: AllocFailed<T>) -> HeapError {
        HeapError::NoMemory
    }
}
