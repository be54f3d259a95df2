//! The shared map: a finite map whose older versions stay.
//!
//! A `PMap` is never changed. `with` and `without` answer a newer map, and the older one stays as it
//! was, so there is nothing to undo. The two share all nodes but those on one way down; keys and
//! values are shared and never copied. `share` answers the same map once more, which takes no memory
//! and always succeeds. A map that is dropped frees what no other one holds; the drop goes no deeper
//! than the tree is high.
//!
//! Contracts see a map as the list of its entries by strictly rising keys, in the words of std's
//! finite maps. The tree below it is kept in balance: the two sides of each node differ by at most
//! one in height. No contract says so, since no answer depends on it.
#![tactic(auto)]

mod balance;
mod change;
mod iter;
mod laws;
mod map;
mod search;
#[cfg(test)]
mod tests;
mod tree;

pub use iter::Iter;
pub use kh_shared::NoMemory;
pub use laws::first_is_least;
pub use map::PMap;
