//! Code points as bytes and as terms.
ghost use Rattle.std.specs.Prelude.{◌≡◌, ◌++◌, false, true, IfOk, IfErr, MatchOption};
ghost use Rattle.std.specs.Str.{all_scalars, encode_utf8_all};
ghost use Rattle.kh_text_defs.specs.Spelled.{list_of_points};
ghost use Rattle.kh_read.specs.Steps.{all_latin};
ghost use Rattle.kh_read.specs.declared.state.Stop.TheVariants.{NoMemory};

use crate::state::Stop;
use kh_term::{Term, Terms, int, list};
use std::alloc::Global;

/// Bytes with code points behind them, where each is at most 255.
pub fn with_latin(bytes: Vec<u8>, points: &[u32]) -> Result<Option<Vec<u8>>, Stop>
    ensures ok { IfOk result (λ found. MatchOption found (all_latin points.now ≡ false)
        (λ all. (all_latin points.now ≡ true) × (all.items ≡ bytes.items ++ points.now))) }
    ensures err { IfErr result (λ e. e ≡ NoMemory) }
{
    let mut all = bytes;
    for point in points {
        match u8::try_from(*point) {
            Ok(byte) => all.push(byte)?,
            Err(_) => return Ok(None),
        }
    }
    Ok(Some(all))
}

/// Bytes with the UTF-8 of code points behind them, where none is a surrogate.
pub fn with_utf8(bytes: Vec<u8>, points: &[u32]) -> Result<Option<Vec<u8>>, Stop>
    ensures ok { IfOk result (λ found. MatchOption found (all_scalars points.now ≡ false)
        (λ all. (all_scalars points.now ≡ true)
        × (all.items ≡ bytes.items ++ encode_utf8_all points.now))) }
    ensures err { IfErr result (λ e. e ≡ NoMemory) }
{
    let mut all = bytes;
    for point in points {
        match char::from_u32(*point) {
            Some(character) => {
                let mut buffer = [0; 4];
                all.extend_from_slice(character.encode_utf8(&mut buffer).as_bytes())?;
            }
            None => return Ok(None),
        }
    }
    Ok(Some(all))
}

/// The list of code points.
pub fn points_term(alloc: Global, points: &[u32]) -> Result<Term, Stop>
    ensures ok { IfOk result (λ t. t.node ≡ list_of_points points.now) }
    ensures err { IfErr result (λ e. e ≡ NoMemory) }
{
    let mut parts = Terms::new(alloc);
    for point in points {
        parts.push(int(i128::from(*point)))?;
    }
    Ok(list(alloc, parts)?)
}
