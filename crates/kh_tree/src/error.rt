// Why a tree wasn't written.
ghost use Rattle.std.specs.Prelude.{◌≡◌};
ghost use Rattle.kh_tree.specs.declared.error.TreeError.TheVariants.{NoMemory};

use thiserror::Error;

/// Why a write answers no newer tree.
#[derive(Clone, Copy, Debug, PartialEq, Eq, Drop, Error)]
pub enum TreeError {
    /// There would be more than 200,000 nodes beside the root, or a version above 2^62.
    #[error("the store is full")]
    StoreFull,
    #[error("out of memory")]
    NoMemory,
}

impl From<kh_term::NoMemory> for TreeError {
    ghost from_gives = { λ _ e. e ≡ NoMemory };

    fn from(_error: kh_term::NoMemory) -> TreeError {
        TreeError::NoMemory
    }
}

impl From<kh_shared::NoMemory> for TreeError {
    ghost from_gives = { λ _ e. e ≡ NoMemory };

    fn from(_error: kh_shared::NoMemory) -> TreeError {
        TreeError::NoMemory
    }
}
