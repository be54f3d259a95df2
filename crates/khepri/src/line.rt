//! The lines of a script.
ghost use Rattle.std.specs.Prelude.{◌≤◌, length, IfOk};
ghost use Rattle.khepri.specs.Line.{ReadsLine, ReadsBehind};

use kh_read::{Form, ReadError, read_form};
use kh_term::NoMemory;
use std::alloc::Global;

/// What stands at a place of a script.
#[derive(Drop)]
pub enum Line {
    /// A form, and the place behind it and its newline.
    Form(Form, usize),
    /// The bytes end here.
    End,
    /// Nothing that could be a form.
    Fault,
    /// More has to come before it is known.
    Unfinished,
}

/// Reads the line at a place. `is_end` says that the input ends behind these bytes.
pub fn read_line(alloc: Global, input: &[u8], at: usize, is_end: bool) -> Result<Line, NoMemory>
    requires { at ≤ length input.now }
    ensures { IfOk result (λ line. ReadsLine is_end input.now at line) }
{
    match read_form(alloc, input, at) {
        Ok(None) => Ok(Line::End),
        Ok(Some((form, next))) => Ok(behind_form(input, form, next, is_end)),
        Err(ReadError::Syntax) => Ok(Line::Fault),
        Err(ReadError::Incomplete) => Ok(Line::Unfinished),
        Err(ReadError::NoMemory) => Err(NoMemory),
    }
}

// The line of a form by what stands behind it.
fn behind_form(input: &[u8], form: Form, next: usize, is_end: bool) -> Line
    requires { next ≤ length input.now }
    ensures { ReadsBehind is_end input.now form next result }
{
    match input.get(next) {
        Some(b'\n') => Line::Form(form, next + 1),
        Some(_) => Line::Fault,
        None => {
            if is_end {
                Line::Form(form, next)
            } else {
                Line::Unfinished
            }
        }
    }
}
