//! The built-ins of maps, lists, tuples and binaries, and those that raise.
//!
//! What each answers and costs is defined over terms: `specs/Answer.antt`.
#![tactic(auto)]

mod binaries;
mod building;
mod calling;
mod changing;
mod charging;
mod elements;
mod iolists;
mod laws;
mod lists;
mod lookups;
mod merging;
mod operation;
mod rows;
#[cfg(test)]
mod tests;
mod tuples;
mod values;

pub use calling::call;
pub use charging::extra;
pub use laws::{
    found_is_what_was_put, iolists_have_their_bytes, one_map_of_each_look_up,
    only_the_key_is_removed, the_second_map_counts,
};
pub use operation::Operation;
pub use rows::{arity, operation_of};
