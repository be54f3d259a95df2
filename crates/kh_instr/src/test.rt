//! Tests: what an instruction asks before it goes on.
use crate::operand::{Source, Sources};

/// The tests of one operand's type.
#[derive(Clone, Copy, Debug, PartialEq, Eq)]
pub enum TypeTest {
    Integer,
    Number,
    Atom,
    Boolean,
    Nil,
    List,
    NonemptyList,
    Binary,
    /// Of a bit string: of a binary.
    Bitstr,
    Tuple,
    Map,
    Function,
    /// Never holds, as the three behind it.
    Float,
    Pid,
    Port,
    Reference,
}

/// The tests that compare two operands.
#[derive(Clone, Copy, Debug, PartialEq, Eq)]
pub enum Comparison {
    Lt,
    Ge,
    Eq,
    Ne,
    EqExact,
    NeExact,
}

/// A test with its operands.
#[derive(Drop)]
pub enum Test {
    Type(TypeTest, Source),
    /// Of a function that takes so many arguments.
    Function2(Source, Source),
    /// Of a tuple that has so many elements.
    Arity(Source, u32),
    /// Of a tuple that has so many elements, the first of them this one.
    TaggedTuple(Source, u32, Source),
    Compare(Comparison, Source, Source),
    /// Of a map that has all these keys.
    HasMapFields(Source, Sources),
}
