use crate::bytes::{Atom, Bytes};
use crate::name::Origin;
use sqlite_items::{Boxed, Items};

/// A term without the promise that it is well formed.
#[cycle(term)]
#[derive(Drop)]
pub enum TermTree {
    /// An integer of 128 bits.
    Int(i128),
    Atom(Atom),
    Bin(Bytes),
    Nil,
    /// Elements and a tail.
    List(Trees, Boxed<TermTree>),
    Tuple(Trees),
    Map(TreePairs),
    /// A function and its captured values.
    Closure(Origin, Trees),
}

/// Parts of a term, one after another.
pub type Trees = Items<TermTree>;

/// Keys and values, one after another.
pub type TreePairs = Items<(TermTree, TermTree)>;
