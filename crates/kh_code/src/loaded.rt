//! What loading a module answers.
use kh_term::NoMemory;
use std::alloc::{AllocError, AllocFailed};
use thiserror::Error;

/// How a module was loaded.
#[derive(Clone, Copy, Debug, PartialEq, Eq, Drop)]
pub enum Loaded {
    /// No module had its name.
    New,
    /// It took the place of the module of its name.
    Replaced,
}

/// Why a module wasn't loaded.
#[derive(Clone, Copy, Debug, PartialEq, Eq, Drop, Error)]
pub enum CodeError {
    /// With it there would be more modules, instructions or literals than a code may have.
    #[error("too much code")]
    TooMuchCode,
    /// Memory ran out.
    #[error("out of memory")]
    NoMemory,
}

impl From<NoMemory> for CodeError {
    ghost use Rattle.std.specs.Prelude.{◌≡◌};
    ghost use Rattle.kh_code.specs.declared.loaded.CodeError.TheVariants as error;

    ghost from_gives = { λ _ e. e ≡ error.NoMemory };

    fn from(_: NoMemory) -> CodeError {
        CodeError::NoMemory
    }
}

impl From<AllocError> for CodeError {
    ghost use Rattle.std.specs.Prelude.{◌≡◌};
    ghost use Rattle.kh_code.specs.declared.loaded.CodeError.TheVariants as error;

    ghost from_gives = { λ _ e. e ≡ error.NoMemory };

    fn from(_: AllocError) -> CodeError {
        CodeError::NoMemory
    }
}

impl<T: Drop> From<AllocFailed<T>> for CodeError {
    ghost use Rattle.std.specs.Prelude.{◌≡◌};
    ghost use Rattle.kh_code.specs.declared.loaded.CodeError.TheVariants as error;

    ghost from_gives = { λ _ e. e ≡ error.NoMemory };

    fn from(_: AllocFailed<T>) -> CodeError {
        CodeError::NoMemory
    }
}
