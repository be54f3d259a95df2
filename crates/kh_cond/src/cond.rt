//! Conditions.
use kh_term::{Name, Term, Text};
use sqlite_items::{Boxed, Items};

/// What a name or a path is searched for.
#[derive(Drop)]
pub enum Regex {
    /// It is found in each.
    Any,
    /// The text of a regular expression.
    Text(Text),
}

/// How a number is to compare with another.
#[derive(Clone, Copy, Debug, PartialEq, Eq, Drop)]
pub enum Operator {
    Equal,
    NotEqual,
    Less,
    AtMost,
    Greater,
    AtLeast,
}

/// A number to which a version or a count is compared, as it was read.
#[derive(Clone, Copy, Debug, PartialEq, Eq, Drop)]
pub enum Comparison {
    /// The number is this.
    Is(i128),
    /// The number compares so with this.
    By(Operator, i128),
}

/// A condition on a node.
#[cycle(cond)]
#[derive(Drop)]
pub enum Cond {
    /// Its name is this.
    Name(Name),
    /// It exists, or it doesn't.
    NodeExists(bool),
    /// The regular expression is found in the bytes of its name.
    NameMatches(Regex),
    /// Met by no node: it takes names of a path and stands in patterns alone.
    PathMatches(Regex),
    /// It has a payload, or it has none.
    HasPayload(bool),
    /// It has data, or it has none.
    HasData(bool),
    /// It has a stored procedure, or it has none.
    HasSproc(bool),
    /// It has data that match this term, in which the atom `_` stands for any term.
    DataMatches(Term),
    PayloadVersion(Comparison),
    ChildListVersion(Comparison),
    /// The number of its children compares so.
    ChildListLength(Comparison),
    Not(Boxed<Cond>),
    All(Conds),
    Any(Conds),
}

/// Conditions, one after another.
pub type Conds = Items<Cond>;
