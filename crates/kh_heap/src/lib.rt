//! The term heap: the memory in which code runs.
//!
//! Each term is a cell that names its parts by their places, so parts are shared and nothing moves. A
//! reference is the place of a cell. Contracts see a heap as the list of the terms that its cells stand
//! for, and a reference as a place in it: `specs/Heap.antt`.
#![tactic(auto)]

mod cell;
mod comparing;
mod error;
mod heap;
mod loading;
mod making;
mod reading;
mod reference;
mod storing;
mod tables;
#[cfg(test)]
mod tests;
mod view;

pub use error::{BifError, HeapError};
pub use heap::Heap;
pub use reference::Ref;
pub use view::View;
