//! Whole forms.
ghost use Rattle.std.specs.Prelude.{◌≡◌, ◌<◌, ◌≤◌, ◌+◌, ◌↔◌, ℕ, List, ◌++◌, length, drop, Some, None, Ok, Err, IfOk, IfSome, slice_range};
ghost use Rattle.kh_read.specs.declared.error.ReadError.TheVariants.{Incomplete, Syntax};
ghost use Rattle.kh_read.specs.declared.form.Form.{Form};
ghost use Rattle.kh_read.specs.Form.{IsForm, BeginsForm, NoFormComes, AtMostOneForm};
ghost use Rattle.kh_read.specs.Reading.{Gives, ReadsForm, IsUnlessMemory, names_at, put_at, get_at, by_keyword, form_at, Grows};

use crate::error::ReadError;
use crate::form::Form;
use crate::number::integer;
use crate::path::names;
use crate::scan::literal;
use kh_term::Path;
use std::alloc::Global;

// Reads the names of a path and the bracket behind them.
fn path(alloc: Global, bytes: &[u8]) -> Result<(Path, &[u8]), ReadError>
    ensures { Gives (λ x. (x.0, x.1.now)) result (names_at 32 bytes.now) }
{
    let (names, rest) = names(alloc, bytes)?;
    match Path::new(names) {
        Some(path) => Ok((path, rest)),
        None => unreachable!(),
    }
}

#[tactic(auto, unfolding(crate::specs::Reading::put_at))]
fn put(alloc: Global, bytes: &[u8]) -> Result<(Form, &[u8]), ReadError>
    ensures { Gives (λ x. (x.0, x.1.now)) result (put_at bytes.now) }
{
    let rest = literal(bytes, b"put,[")?;
    let (path, rest) = path(alloc, rest)?;
    let rest = literal(rest, b",")?;
    let (number, rest) = integer(rest)?;
    let rest = literal(rest, b"}.")?;
    Ok((Form::Put(path, number), rest))
}

#[tactic(auto, unfolding(crate::specs::Reading::get_at))]
fn get(alloc: Global, bytes: &[u8]) -> Result<(Form, &[u8]), ReadError>
    ensures { Gives (λ x. (x.0, x.1.now)) result (get_at bytes.now) }
{
    let rest = literal(bytes, b"get,[")?;
    let (path, rest) = path(alloc, rest)?;
    let rest = literal(rest, b"}.")?;
    Ok((Form::Get(path), rest))
}

// Reads the form behind its first brace.
fn behind_brace(alloc: Global, bytes: &[u8]) -> Result<(Form, &[u8]), ReadError>
    ensures { Gives (λ x. (x.0, x.1.now)) result (by_keyword bytes.now) }
{
    match bytes {
        [] => Err(ReadError::Incomplete),
        [b'p', ..] => put(alloc, bytes),
        [b'g', ..] => get(alloc, bytes),
        [_, ..] => Err(ReadError::Syntax),
    }
}

#[tactic(auto, unfolding(crate::specs::Reading::form_at))]
fn form(alloc: Global, bytes: &[u8]) -> Result<(Form, &[u8]), ReadError>
    ensures { Gives (λ x. (x.0, x.1.now)) result (form_at bytes.now) }
{
    let rest = literal(bytes, b"{")?;
    behind_brace(alloc, rest)
}

/// Reads the form that begins at a place, and gives it with the place behind its dot; `None` at the end of the bytes.
pub fn read_form(alloc: Global, bytes: &[u8], at: usize) -> Result<Option<(Form, usize)>, ReadError>
    requires { at ≤ length bytes.now }
    ensures exact { ReadsForm bytes.now at result }
    ensures none { (result ≡ Ok None) ↔ (at ≡ length bytes.now) }
    ensures found { IfOk result (λ read. IfSome read (λ x. IsForm (slice_range bytes.now at x.1) x.0)) }
    ensures only { (text rest : List ℕ) (f : Form) → IsForm text f → drop at bytes.now ≡ text ++ rest → IsUnlessMemory result (Some (f, at + length text)) }
    ensures incomplete { result ≡ Err Incomplete → (at < length bytes.now) × BeginsForm (drop at bytes.now) }
    ensures syntax { result ≡ Err Syntax → NoFormComes (drop at bytes.now) }
{
    let (_, left) = bytes.split_at(at);
    if left.is_empty() {
        return Ok(None);
    }
    let (form, rest) = form(alloc, left)?;
    Ok(Some((form, bytes.len() - rest.len())))
}

/// Bytes that come later change no form that was read, and mend no fault.
pub fn later_bytes_change_nothing()
    ensures { Grows form_at }
{}

/// A form takes at least one byte.
pub fn a_form_takes_bytes()
    ensures { (bytes : List ℕ) (x : Form × List ℕ) → form_at bytes ≡ Ok x → length x.1 < length bytes }
{}

/// At most one form stands at the front of bytes, and its text is no other form's.
pub fn at_most_one_form()
    ensures { AtMostOneForm }
{}
