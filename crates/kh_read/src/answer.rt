//! What is answered of the bytes from a place on, by what was read in them.
ghost use Rattle.std.specs.Prelude.{◌≡◌, ◌≤◌, ◌+◌, length};
ghost use Rattle.kh_read.specs.Views.{answer_of, answer_offset, fault_of, fault_offset};

use crate::fault::ReadError;
use crate::reader::Reading;
use crate::state::Stop;
use kh_term::Term;

// A place behind another.
fn place_in(bytes: &[u8], at: usize, offset: usize) -> usize
    requires { at + offset ≤ length bytes.now }
    ensures { result ≡ at + offset }
{
    let left = bytes.len() - at;
    bytes.len() - (left - offset)
}

// Why no form was read, where the first byte that isn't blank has this offset.
fn fault(bytes: &[u8], at: usize, first: usize, stop: Stop, offset: usize) -> ReadError
    requires { at + fault_offset first stop offset ≤ length bytes.now }
    ensures { result ≡ fault_of at first stop offset }
{
    match stop {
        Stop::Syntax => ReadError::Syntax(place_in(bytes, at, offset)),
        Stop::Number(number) => ReadError::Number(place_in(bytes, at, number)),
        Stop::Deep => ReadError::TooDeep(place_in(bytes, at, offset)),
        Stop::Large => ReadError::TooLarge(place_in(bytes, at, first)),
        Stop::NoMemory => ReadError::NoMemory,
    }
}

/// The answer, where the first byte that isn't blank has this offset.
pub fn answer(
    bytes: &[u8],
    at: usize,
    first: usize,
    reading: Reading,
) -> Result<Option<(Term, usize)>, ReadError>
    requires { at + answer_offset first reading ≤ length bytes.now }
    ensures { result ≡ answer_of at first reading }
{
    match reading {
        Reading::Ended(term, end) => Ok(Some((term, place_in(bytes, at, end)))),
        Reading::Cut => Err(ReadError::Incomplete),
        Reading::Halted(stop, offset) => Err(fault(bytes, at, first, stop, offset)),
    }
}
