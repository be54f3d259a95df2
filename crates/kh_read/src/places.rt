use crate::follow::Follow;
use crate::whole::Whole;
use crate::word::Word;
use kh_term::{Atom, Term, Terms};

/// What stands open round a place, with what was read in it.
#[derive(Drop)]
pub enum Frame {
    List(Terms),
    /// Behind the bar of a list.
    Tail(Terms),
    Tuple(Terms),
    /// A key of a map.
    Key(Vec<(Term, Term)>),
    /// A value of a map, behind its key.
    Value(Vec<(Term, Term)>, Term),
    /// The module of a closure.
    Module,
    /// The name of a closure.
    Name(Atom),
    /// The arity of a closure.
    Arity(Atom, Atom),
    /// The bracket of captured values.
    Opening(Atom, Atom, i128),
    /// Captured values.
    Captured(Atom, Atom, i128, Terms),
    /// The end of a closure.
    Closing(Atom, Atom, i128, Terms),
    /// A binary: whether it has begun, its bytes, and whether a segment had a size.
    Binary(bool, Vec<u8>, bool),
    /// The module of `fun m:f/1`.
    Reference,
    /// The name of `fun m:f/1`.
    ReferenceName,
}

/// What a text in quotes is for.
#[derive(Clone, Copy, Debug, PartialEq, Eq)]
pub enum Use {
    /// A name with so many bytes left.
    Name(usize),
    List,
    Segment,
}

/// Where a text in quotes stands.
#[derive(Clone, Copy)]
pub enum Inner {
    Plain,
    /// Behind a backslash.
    Slash,
    /// Behind `\x`.
    Brace,
    /// Behind so many digits of a code, with their value.
    Code(u32, u32),
    /// In a code point of several bytes.
    Follow(Follow),
}

/// A text in quotes: what it is for, and its code points so far.
#[derive(Drop)]
pub struct Quoting {
    pub purpose: Use,
    pub points: Vec<u32>,
}

/// Where reading stands.
#[derive(Drop)]
pub enum Place {
    /// A value has to come.
    Before,
    After(Term),
    AfterName(Atom),
    AfterArity(i128),
    AfterByte(u8),
    AfterText(Vec<u32>),
    AfterSegment,
    /// Behind the minus sign of an integer that begins there.
    Minus(usize),
    /// In an integer that begins there.
    Digits(usize, Whole),
    Word(Word),
    Quote(Quoting, Inner),
    /// Behind the first `<`.
    Angle,
    /// Behind `#` and so many bytes of `fun`.
    Sharp(u8),
    /// Behind the `=` of an arrow.
    Arrow(Term),
    /// Behind the first `>`.
    Close,
    /// Behind the dot of a form.
    Dotted(Term),
    /// Behind an integer and a dot.
    Point(i128),
    Fraction,
    Mark,
    Signed,
    Exponent,
    SizeMark,
    Size,
    UtfMark,
    Utf(u8),
    /// Behind the word `fun` of a listing.
    Fun,
    CountMark,
    Count,
}
