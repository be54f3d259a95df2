//! The names of a path.
ghost use Rattle.std.specs.Prelude.{◌≡◌, List};
ghost use Rattle.kh_read.specs.Reading.{Gives, name_at, comma_at, names_at};

use crate::error::ReadError;
use crate::scan::word;
use kh_term::{Atom, Name};
use std::alloc::Global;

/// How many names a path may have.
const MAX_NAMES: u32 = 32;

// Reads a name.
#[tactic(auto, unfolding(crate::specs::Reading::name_at))]
fn name(alloc: Global, bytes: &[u8]) -> Result<(Name, &[u8]), ReadError>
    ensures { Gives (λ x. (x.0, x.1.now)) result (name_at bytes.now) }
{
    let (text, rest) = word(bytes)?;
    match Atom::new(Vec::from_slice(alloc, text)?) {
        Some(atom) => Ok((Name::Atom(atom), rest)),
        None => unreachable!(),
    }
}

// Reads a comma, behind which a further name comes, or the bracket behind the last one.
fn comma(bytes: &[u8]) -> Result<(bool, &[u8]), ReadError>
    ensures { Gives (λ x. (x.0, x.1.now)) result (comma_at bytes.now) }
{
    match bytes {
        [] => Err(ReadError::Incomplete),
        [b',', rest @ ..] => Ok((true, rest)),
        [b']', rest @ ..] => Ok((false, rest)),
        [_, ..] => Err(ReadError::Syntax),
    }
}

/// Reads 1 to 32 names and the bracket behind them.
pub fn names(alloc: Global, bytes: &[u8]) -> Result<(Vec<Name>, &[u8]), ReadError>
    ensures { Gives (λ x. (x.0.items, x.1.now)) result (names_at MAX_NAMES bytes.now) }
{
    let mut names = Vec::new(alloc);
    let mut rest = bytes;
    for count in 0..MAX_NAMES {
        let (first, after) = name(alloc, rest)?;
        names.push(first)?;
        let (more, after) = comma(after)?;
        if !more {
            return Ok((names, after));
        }
        rest = after;
    }
    Err(ReadError::Syntax)
}
