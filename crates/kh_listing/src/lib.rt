//! Listings: the forms of a module's code become the module, or the first form at fault is named.
#![tactic(auto)]

mod draft;
mod entries;
mod error;
mod first;
mod form;
mod judging;
mod labels;
mod laws;
mod listing;
mod making;
mod names;
mod operands;
mod places;
mod placing;
mod reading;
#[cfg(test)]
mod tests;

pub use error::ListingError;
pub use form::{Form, Header};
pub use laws::one_outcome;
pub use listing::read_listing;
