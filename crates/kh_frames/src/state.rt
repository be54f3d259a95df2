// What lies in frames and calls.

/// An instruction of a function of the module, both counted from 0.
#[derive(Clone, Copy, Debug, PartialEq, Eq)]
pub struct Place {
    /// The function, by its place in the module.
    pub function: u32,
    /// The instruction, by its place in the function.
    pub index: u32,
}

/// A slot of a frame, over any type of values.
#[derive(Clone, Copy, Debug, PartialEq, Eq)]
pub enum Slot<V> {
    /// Not written.
    Absent,
    /// A value.
    Holds(V),
    /// The mark of a catch.
    Marked,
}

// How much of the stacks is a call's: the slots of its frame, if it has one, and the number of marks below its own.
#[derive(Clone, Copy)]
pub(crate) struct Extent {
    pub(crate) frame: Option<u32>,
    pub(crate) base: usize,
}

// A catch: the number of slots from the bottom up to the one that it marks, with it, and where it leads.
#[derive(Clone, Copy)]
pub(crate) struct Mark {
    pub(crate) height: usize,
    pub(crate) to: Place,
}

// A call that waits, and the place at which it goes on.
#[derive(Clone, Copy)]
pub(crate) struct Waiting {
    pub(crate) back: Place,
    pub(crate) extent: Extent,
}
