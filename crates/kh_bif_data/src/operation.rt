//! What the built-ins of this crate do.
use kh_term::Class;

/// What a built-in of this crate does.
#[derive(Clone, Copy, Debug, PartialEq, Eq)]
pub enum Operation {
    /// The value at a key of a map.
    Get,
    IsKey,
    /// The value at a key of a map, where the key may be absent.
    Find,
    Put,
    Remove,
    Keys,
    Values,
    /// A map as a list of pairs.
    Pairs,
    Merge,
    FromList,
    Append,
    Reverse,
    ReverseOnto,
    Member,
    KeyFind,
    SetElement,
    TupleToList,
    ListToTuple,
    AtomToBinary,
    IntegerToBinary,
    BinaryToList,
    IolistToBinary,
    BinaryToInteger,
    Raise(Class),
}
