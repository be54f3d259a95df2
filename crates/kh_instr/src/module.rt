//! Modules and their functions.
use crate::functions::Functions;
use crate::instr::Instrs;
use kh_term::{Atom, Origin, Terms};
use sqlite_items::Items;

/// A module as it was written.
#[derive(Drop)]
pub struct Module {
    pub name: Atom,
    pub exports: Exports,
    pub functions: Functions,
}

/// A function that a module offers to others.
#[derive(Drop)]
pub struct Export {
    pub name: Atom,
    pub arity: u8,
}

/// The functions that a module offers.
pub type Exports = Items<Export>;

/// A function: its entry is the number of a label of its code. Its origin is its own triple in a `Module`, and the triple
/// under which it was loaded in a `Standalone`.
#[derive(Drop)]
pub struct Function {
    pub name: Atom,
    pub arity: u8,
    pub entry: u32,
    pub origin: Origin,
    pub code: Instrs,
}

/// A module by itself: its functions, and the captured values of the first of them.
#[derive(Drop)]
pub struct Standalone {
    pub functions: Functions,
    pub env: Terms,
}
