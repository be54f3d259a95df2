//! The frames of running code: registers, the frames of the calls that run and wait, and the catches in them.
//!
//! `Frames` is the state of a run without its terms, its place in the code and its budget. Contracts see it as a
//! `State` of `specs/State.antt`: the x registers, the call that runs, the calls that wait, newest first, and the
//! pending exception. Each call has its frame and its own catches. What each method answers and leaves is one
//! function of `specs/Rules.antt`, over any type of values and any of places.
#![tactic(auto)]

mod calls;
mod error;
mod frames;
mod laws;
mod registers;
mod stack;
mod state;
#[cfg(test)]
mod tests;

pub use error::FrameError;
pub use frames::Frames;
pub use laws::{registers_are_maps, rules_are_blind};
pub use state::{Place, Slot};
