ghost use Rattle.std.specs.Prelude.{◌≡◌};
ghost use Rattle.kh_listing.specs.declared.error.ListingError.TheVariants.{NoMemory};

use kh_term::NoMemory as OutOfMemory;
use thiserror::Error;

/// Why no module was made.
#[derive(Clone, Copy, Debug, PartialEq, Eq, Error)]
pub enum ListingError {
    /// The number of the first form at fault, counted from 1 over all forms.
    #[error("form {0} of the listing is at fault")]
    BadListing(u64),
    /// Memory ran out.
    #[error("out of memory")]
    NoMemory,
}

impl From<OutOfMemory> for ListingError {
    ghost from_gives = { λ _ e. e ≡ NoMemory };

    fn from(_: OutOfMemory) -> Self {
        ListingError::NoMemory
    }
}
