//! Why a text isn't prepared.
use kh_term::NoMemory;
use std::alloc::{AllocError, AllocFailed};
use thiserror::Error;

/// Why `prepare` has added no text.
#[derive(Clone, Copy, Debug, PartialEq, Eq, Drop, Error)]
pub enum PrepareError {
    /// The engine refuses the text. Its count of refusals rose.
    #[error("the text is refused")]
    Refused,
    /// Memory ran out. The engine is as it was.
    #[error("out of memory")]
    NoMemory,
}

impl From<NoMemory> for PrepareError {
    ghost use Rattle.std.specs.Prelude.{◌≡◌};
    ghost use Rattle.kh_regexes.specs.declared.error.PrepareError.TheVariants as error;

    ghost from_gives = { λ _ e. e ≡ error.NoMemory };

    fn from(_: NoMemory) -> PrepareError {
        PrepareError::NoMemory
    }
}

impl From<AllocError> for PrepareError {
    ghost use Rattle.std.specs.Prelude.{◌≡◌};
    ghost use Rattle.kh_regexes.specs.declared.error.PrepareError.TheVariants as error;

    ghost from_gives = { λ _ e. e ≡ error.NoMemory };

    fn from(_: AllocError) -> PrepareError {
        PrepareError::NoMemory
    }
}

impl<T: Drop> From<AllocFailed<T>> for PrepareError {
    ghost use Rattle.std.specs.Prelude.{◌≡◌};
    ghost use Rattle.kh_regexes.specs.declared.error.PrepareError.TheVariants as error;

    ghost from_gives = { λ _ e. e ≡ error.NoMemory };

    fn from(_: AllocFailed<T>) -> PrepareError {
        PrepareError::NoMemory
    }
}
