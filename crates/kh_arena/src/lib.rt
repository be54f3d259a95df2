//! A list whose items stay where they are.
//!
//! An arena keeps its items in chunks of memory, which it asks for one at a time as it grows and
//! frees together when it is dropped. The first chunk has 64 places and each next one twice as many,
//! up to 65,536. Contracts see it as the list of its items, the place in memory of each, and the
//! number of further items that have their place already.
//!
//! # What is proved of its memory
//!
//! The chunks lie behind raw pointers, which only `make`, `put`, `get` and `free` of `chunk.rt`
//! follow. A `Chunk` owns each of its places, with the item or the room that lies there, and the
//! right to free its block, once: `chunk_owns`, in `specs/Ownership.antt`. So these contracts say
//! which memory is touched.
//!
//! - A place is read only if it holds an item, which `Chunk::get` requires, and it holds one only
//!   after `Chunk::put`. `Arena::get` requires a place below the length, so the item was pushed, and
//!   `Arena::cut` lowers the length, so it was not cut since.
//! - A place is written only if it is one of the chunk's, which `Chunk::put` requires.
//! - Items stay where they are: `Arena::get` answers a reference to the place that the view names,
//!   and `push`, `reserve` and `cut` leave the places of the items that stay.
//! - `Chunk::free` takes the chunk, and with it the right to free its block, so no block is freed
//!   twice. A chunk cannot be let go otherwise, so each is freed when the arena is dropped.
#![tactic(auto)]

mod arena;
mod chunk;
mod error;
#[cfg(test)]
mod tests;

pub use arena::Arena;
pub use error::NoMemory;
