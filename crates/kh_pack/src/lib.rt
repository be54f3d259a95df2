//! Terms as packed bytes, and back.
#![tactic(auto)]

mod error;
mod fields;
mod node;
mod packing;
mod pieces;
mod tags;
mod terms;
#[cfg(test)]
mod tests;
mod unpacking;

pub use error::UnpackError;
pub use packing::pack;
pub use unpacking::unpack;
