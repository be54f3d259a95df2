// Names as bytes, joined.
ghost use Rattle.std.specs.Prelude.{◌≡◌, ◌+◌, ◌++◌, ◌∷◌, length, drop, IfOk, OnOk};
ghost use Rattle.kh_term.specs.Name.{name_text};
ghost use Rattle.kh_walk.specs.Takes.{joined};
ghost use Rattle.kh_walk.specs.Rows.{with_name};

use kh_term::{Name, NoMemory, push_byte, push_bytes};
use std::alloc::Global;

/// The bytes of names, joined by `/`.
#[tactic(auto, using(crate::proofs::Names::next_joined))]
pub(crate) fn joined(alloc: Global, names: &[Name]) -> Result<Vec<u8>, NoMemory>
    ensures { IfOk result (λ text. text.items ≡ joined names.now) }
{
    let mut text = Vec::new(alloc);
    for (i, name) in names.iter().enumerate() {
        push_name(&mut text, i == 0, name)?;
    }
    Ok(text)
}

// Adds a name, behind a `/` where it isn't the first.
fn push_name(text: &mut Vec<u8>, is_first: bool, name: &Name) -> Result<(), NoMemory>
    ensures { OnOk result (text.new.items ≡ with_name is_first text.old.items name.now) }
{
    if !is_first {
        push_byte(text, b'/')?;
    }
    push_bytes(text, bytes_of(name))
}

/// The bytes of a name.
pub(crate) fn bytes_of(name: &Name) -> &[u8]
    ensures { result.now ≡ name_text name.now }
{
    match name {
        Name::Atom(text) => text.as_slice(),
        Name::Bin(bytes) => bytes.as_slice(),
    }
}

/// What stands behind the first name of joined names.
pub(crate) fn behind_name<'a>(text: &'a [u8], name: &Name) -> &'a [u8]
    ensures { result.now ≡ drop (length (name_text name.now) + 1) text.now }
{
    let len = bytes_of(name).len();
    if len < text.len() {
        &text[len + 1..]
    } else {
        &[]
    }
}
