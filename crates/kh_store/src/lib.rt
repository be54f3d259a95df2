//! The store: the tree of nodes, what a command does to it, and the log that keeps it over a crash.
#![tactic(auto)]

mod command;
mod laws;
mod machine;
mod opening;
mod replay;
mod store;
mod tree;

pub use command::{pack_put, read_put};
pub use laws::{one_put, one_recovery};
pub use machine::Applied;
pub use store::{OpenError, Store, StoreError};
pub use tree::Tree;

#[cfg(test)]
mod tests;
