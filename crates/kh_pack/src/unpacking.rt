//! Unpacking.
ghost use Rattle.std.specs.Prelude.{◌≡◌, ℕ, IfOk, Err};
ghost use Rattle.kh_term.specs.declared.term.Term.{Term};
ghost use Rattle.kh_pack.specs.declared.error.UnpackError.TheVariants.{NotPacked};
ghost use Rattle.kh_pack.specs.Standing.{IsPackedAt, NothingPackedAt, IsUnlessMemory};

use crate::error::{Stop, UnpackError};
use crate::terms::read_term;
use kh_term::Term;
use std::alloc::Global;

// The greatest depth that is read.
const MAX_DEPTH: u32 = 256;

/// Reads the term of depth at most 256 that is packed at a place, and gives it with the place behind it. More bytes may
/// follow. Answers `NotPacked` with the place where there is no such term, at the end of the bytes and past it too.
pub fn unpack(alloc: Global, bytes: &[u8], at: usize) -> Result<(Term, usize), UnpackError>
    ensures found { IfOk result (λ read. IsPackedAt bytes.now at read.1 read.0.node) }
    ensures only { (t : Term) (end : ℕ) → IsPackedAt bytes.now at end t.node
        → IsUnlessMemory result (t, end) }
    ensures not_packed { (place : ℕ) → result ≡ Err (NotPacked place)
        → (place ≡ at) × NothingPackedAt bytes.now at }
{
    if at > bytes.len() {
        return Err(UnpackError::NotPacked(at));
    }
    let (_, left) = bytes.split_at(at);
    match read_term(alloc, MAX_DEPTH, left) {
        Ok((term, rest)) => Ok((term, bytes.len() - rest.len())),
        Err(Stop::NoTerm) => Err(UnpackError::NotPacked(at)),
        Err(Stop::NoMemory) => Err(UnpackError::NoMemory),
    }
}
