//! Compiling a text and searching for it.
ghost use Rattle.std.specs.Prelude.{◌≡◌, IfOk};
ghost use Rattle.regex.specs.Bytes.{regex_source};
ghost use Rattle.kh_regexes.specs.Search.{search};

use crate::PrepareError;
use crate::compiled::Compiled;
use kh_term::NoMemory;
use regex::Error;
use regex::bytes::Regex;
use std::alloc::Global;

/// The regular expression of a text, by the toolchain's `regex`, which refuses a text that is none or whose program is too big.
pub fn compile(alloc: Global, text: &str) -> Result<Compiled, PrepareError>
    ensures { IfOk result (λ made. regex_source made.regex ≡ text.now) }
{
    match Regex::new(alloc, text) {
        Ok(regex) => Ok(Compiled { regex }),
        Err(Error::OutOfMemory) => Err(PrepareError::NoMemory),
        Err(_) => Err(PrepareError::Refused),
    }
}

/// Whether a compiled text is found anywhere in the subject.
pub fn is_found(alloc: Global, compiled: &Compiled, subject: &[u8]) -> Result<bool, NoMemory>
    ensures { IfOk result (λ found. found ≡ search (regex_source compiled.now.regex) subject.now) }
{
    let mut matcher = compiled.regex.matcher(alloc)?;
    Ok(matcher.is_match(subject))
}
