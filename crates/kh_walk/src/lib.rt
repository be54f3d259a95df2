//! The nodes of a tree that a pattern matches.
//!
//! `matching` walks over the nodes below the names with which a pattern begins, in order. For each
//! front of the path at which it is, it keeps a row of marks: which of the first components take that
//! front. So a node is judged by the rows of the nodes above it, and nothing is tried twice.
#![tactic(auto)]

mod front;
mod joining;
mod judging;
mod laws;
mod matches;
mod rows;
#[cfg(test)]
mod tests;
mod walk;

pub use laws::{
    any_matches_all_below, empty_matches_root, exact_matches_target, one_level_keeps_length,
};
pub use matches::{matches_at, matching};
