//! A value on the heap with several owners, in one thread.
//!
//! `Shared::share` makes one more owner. It takes no memory and always succeeds. There is a count
//! of the owners, and the last one drops the value and frees its memory. The count saturates: once
//! 2^64 - 1 owners have been there at once it stays full, owners are counted no more, and the value
//! is never dropped. There is no way to write to the value, and there are no weak pointers.
#![tactic(auto)]

mod error;
mod parts;
mod shared;
#[cfg(test)]
mod tests;

pub use error::NoMemory;
pub use shared::Shared;
