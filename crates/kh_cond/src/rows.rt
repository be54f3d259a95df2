//! What the rows of conditions ask of a node.
ghost use Rattle.std.specs.Prelude.{◌≡◌};
ghost use Rattle.kh_cond.specs.Holds.{agree, is_named, name_bytes, has_payload, has_data, has_sproc, data_match, compares, compares_by};

use crate::cond::{Comparison, Operator};
use crate::matching::matches_data;
use kh_term::{Kind, Name, Term};

/// Both or neither.
pub fn agree(first: bool, second: bool) -> bool
    ensures { result ≡ agree first second }
{
    if first { second } else { !second }
}

/// Whether a node has this name; the root has none.
pub fn is_named(name: &Name, of: &Option<Name>) -> bool
    ensures { result ≡ is_named name.now of.now }
{
    match of {
        Some(other) => name.cmp(other).is_eq(),
        None => false,
    }
}

/// The bytes of a node's name, none of the root.
pub fn name_bytes(name: &Option<Name>) -> &[u8]
    ensures { result.now ≡ name_bytes name.now }
{
    match name {
        Some(Name::Atom(text)) => text.as_slice(),
        Some(Name::Bin(bytes)) => bytes.as_slice(),
        None => &[],
    }
}

/// Whether a node of this kind has a payload.
pub fn has_payload(kind: Kind) -> bool
    ensures { result ≡ has_payload kind }
{
    match kind {
        Kind::Empty => false,
        Kind::Data => true,
        Kind::Sproc => true,
    }
}

/// Whether it has data.
pub fn has_data(kind: Kind) -> bool
    ensures { result ≡ has_data kind }
{
    match kind {
        Kind::Empty => false,
        Kind::Data => true,
        Kind::Sproc => false,
    }
}

/// Whether it has a stored procedure.
pub fn has_sproc(kind: Kind) -> bool
    ensures { result ≡ has_sproc kind }
{
    match kind {
        Kind::Empty => false,
        Kind::Data => false,
        Kind::Sproc => true,
    }
}

/// Whether there are data that match a pattern.
pub fn data_match(pattern: &Term, datum: &Option<Term>) -> bool
    ensures { result ≡ data_match pattern.now datum.now }
{
    match datum {
        Some(datum) => matches_data(pattern, datum),
        None => false,
    }
}

/// Whether a version or a count compares as a condition asks.
pub fn compares(comparison: Comparison, number: u64) -> bool
    ensures { result ≡ compares comparison number }
{
    match comparison {
        Comparison::Is(other) => compares_by(Operator::Equal, number as i128, other),
        Comparison::By(operator, other) => compares_by(operator, number as i128, other),
    }
}

fn compares_by(operator: Operator, number: i128, other: i128) -> bool
    ensures { result ≡ compares_by operator number other }
{
    let order = number.cmp(&other);
    match operator {
        Operator::Equal => order.is_eq(),
        Operator::NotEqual => order.is_ne(),
        Operator::Less => order.is_lt(),
        Operator::AtMost => order.is_le(),
        Operator::Greater => order.is_gt(),
        Operator::AtLeast => order.is_ge(),
    }
}
