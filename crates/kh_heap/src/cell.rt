// Cells, as the arena keeps them.

// What a cell is: an integer, a number in a table, a head and a tail, or the first of the cells of its parts and
// how many there are. The parts of a map are its keys and values in turn.
#[derive(Clone, Copy, Debug, PartialEq, Eq)]
pub(crate) enum Kind {
    Int(i128),
    Atom(usize),
    Bin(usize),
    Nil,
    Cons(u32, u32),
    Tuple(u32, u32),
    Map(u32, u32),
    Closure(usize, u32, u32),
}

// A cell, with the size and the depth of its term.
#[derive(Clone, Copy, Debug)]
pub(crate) struct Cell {
    pub(crate) kind: Kind,
    pub(crate) size: u32,
    pub(crate) depth: u32,
}
