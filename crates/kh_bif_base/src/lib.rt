//! What the built-ins have in common: how they answer, and the answers that many of them give.
//!
//! A built-in answers a value or a raise, by its definition over terms (`specs/Answer.antt`); a call gives a
//! reference that stands for it (`specs/Answers.antt`).
#![tactic(auto)]

mod answers;
mod arguments;
#[cfg(test)]
mod tests;

pub use answers::{bad_map, boolean, made, number, raise, raise_made};
pub use arguments::integer;
