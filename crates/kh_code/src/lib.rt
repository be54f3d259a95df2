//! Loaded code: modules by their names, and their functions by triple and by entry.
#![tactic(auto)]

mod code;
mod indexed;
mod indexes;
mod laws;
mod literals;
mod loaded;
#[cfg(test)]
mod tests;
mod totals;

pub use code::Code;
pub use laws::loading_changes_one_name;
pub use loaded::{CodeError, Loaded};
pub use totals::{MOST_INSTRUCTIONS, MOST_LITERALS, MOST_MODULES};
