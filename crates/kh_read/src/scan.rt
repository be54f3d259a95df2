//! The parts of a form, each read off the front of bytes.
ghost use Rattle.std.specs.Prelude.{◌≡◌, ◌≤◌, length, IfOk, IsTrue};
ghost use Rattle.std.specs.List.{prefix_len};
ghost use Rattle.std.specs.Char.{is_ascii_digit};
ghost use Rattle.kh_term.specs.Text.{is_atom_text};
ghost use Rattle.kh_text_defs.specs.Atoms.{is_word_byte};
ghost use Rattle.kh_read.specs.Form.{are_digits};
ghost use Rattle.kh_read.specs.Reading.{Gives, literal_at, split_front, word_at, digits_at};

use crate::error::ReadError;
use kh_text_defs::{is_reserved, is_word_byte};

/// Passes these very bytes.
pub fn literal<'a>(bytes: &'a [u8], wanted: &[u8]) -> Result<&'a [u8], ReadError>
    ensures { Gives (λ rest. rest.now) result (literal_at wanted.now bytes.now) }
{
    let mut rest = bytes;
    for byte in wanted {
        match rest {
            [] => return Err(ReadError::Incomplete),
            [first, others @ ..] => {
                if *first != *byte {
                    return Err(ReadError::Syntax);
                }
                rest = others;
            }
        }
    }
    Ok(rest)
}

// How many bytes from the front on are letters, digits, `_` or `@`.
fn word_len(bytes: &[u8]) -> usize
    ensures { result ≡ prefix_len is_word_byte bytes.now }
{
    bytes.iter().take_while(|byte| is_word_byte(**byte)).count()
}

// How many bytes from the front on are digits.
fn digits_len(bytes: &[u8]) -> usize
    ensures { result ≡ prefix_len is_ascii_digit bytes.now }
{
    bytes
        .iter()
        .take_while(|byte| byte.is_ascii_digit())
        .count()
}

// Splits a front off, which is at most so long and has a byte behind it.
fn split_front(bytes: &[u8], len: usize, most: usize) -> Result<(&[u8], &[u8]), ReadError>
    requires { len ≤ length bytes.now }
    ensures { Gives (λ x. (x.0.now, x.1.now)) result (split_front len most bytes.now) }
{
    if len > most {
        return Err(ReadError::Syntax);
    }
    if len == bytes.len() {
        return Err(ReadError::Incomplete);
    }
    Ok(bytes.split_at(len))
}

/// Reads a plain atom of at most 255 bytes, behind which a byte stands, and gives its text.
#[tactic(auto, unfolding(crate::specs::Reading::word_at))]
pub fn word(bytes: &[u8]) -> Result<(&[u8], &[u8]), ReadError>
    ensures exact { Gives (λ x. (x.0.now, x.1.now)) result (word_at bytes.now) }
    ensures text { IfOk result (λ x. IsTrue (is_atom_text x.0.now)) }
{
    match bytes {
        [] => return Err(ReadError::Incomplete),
        [first, ..] => {
            if !first.is_ascii_lowercase() {
                return Err(ReadError::Syntax);
            }
        }
    }
    let (text, rest) = split_front(bytes, word_len(bytes), 255)?;
    if is_reserved(text) {
        return Err(ReadError::Syntax);
    }
    Ok((text, rest))
}

/// Reads the text of 1 to 18 digits, behind which a byte stands.
#[tactic(auto, unfolding(crate::specs::Reading::digits_at))]
pub fn digits(bytes: &[u8]) -> Result<(&[u8], &[u8]), ReadError>
    ensures exact { Gives (λ x. (x.0.now, x.1.now)) result (digits_at bytes.now) }
    ensures text { IfOk result (λ x. IsTrue (are_digits x.0.now)) }
{
    let (text, rest) = split_front(bytes, digits_len(bytes), 18)?;
    if text.is_empty() {
        return Err(ReadError::Syntax);
    }
    Ok((text, rest))
}
