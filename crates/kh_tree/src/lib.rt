//! The tree of a store: nodes by their paths, each with a payload and two versions.
//!
//! A `Tree` is never changed. A write answers a newer tree, and the older one stays as it was. The two
//! share all entries but those that were written and the ways down to them. `share` answers the same
//! tree once more, which takes no memory and always succeeds.
//!
//! Contracts see a tree as a finite map from paths to nodes. Each entry keeps the number of its
//! children beside its node, so that a view is one look-up.
#![tactic(auto)]

mod add;
mod entry;
mod error;
mod payload;
#[cfg(test)]
mod tests;
mod tree;

pub use error::TreeError;
pub use payload::Payload;
pub use tree::{MOST_NODES, MOST_VERSION, Tree};
