//! A log of records in one of the store's files.
#![tactic(auto)]

mod durable;
mod error;
mod gates;
mod log;
mod record;

pub use error::LogError;
pub use log::Log;
pub use record::{Record, prepare};

// the byte of an open gate
const OPEN: u8 = 0xa5;

#[cfg(test)]
mod tests;
