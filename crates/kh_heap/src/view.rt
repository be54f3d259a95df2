//! What a term is.
use crate::reference::Ref;

/// The kind of a term, with an integer itself, the number of bytes, elements, pairs or captured values,
/// and of a list its first element and what is left of it.
#[derive(Clone, Copy, Debug, PartialEq, Eq)]
pub enum View {
    Int(i128),
    Atom,
    Bin(u32),
    Nil,
    Cons(Ref, Ref),
    Tuple(u32),
    Map(u32),
    Closure(u32),
}
