//! The outside of the store: a trait for the input, the output and the files, and what stands for it.
#![tactic(auto)]

mod contents;
mod failed;
mod fault;
mod files;
mod host;
mod journal;
mod memory;
mod real;
mod recorder;
mod replay;
mod room;
mod sound;

pub use failed::{Failed, NoMemory};
pub use fault::{Fault, hold_streams, lock_folder};
pub use files::{FileBytes, Files};
pub use host::{Disk, Host};
pub use memory::MemoryHost;
pub use real::RealHost;
pub use sound::SoundHost;

#[cfg(test)]
mod tests;
