//! The canonical text of terms.
#![tactic(auto)]

ghost use Rattle.std.specs.Prelude.{◌≡◌, IfOk};
ghost use Rattle.kh_term.specs.Size.{depth_of};
ghost use Rattle.kh_text_defs.specs.declared.mode.Mode.{Mode};
ghost use Rattle.kh_text_defs.specs.Shown.{shown, shown_line};
ghost use Rattle.kh_text_defs.specs.Spelled.{within_limits, Spells};

mod atom;
mod binary;
mod node;
mod pieces;
#[cfg(test)]
mod tests;

use crate::node::push_node;
use kh_term::{NoMemory, Term, push_bytes};
use std::alloc::Global;

/// The canonical text of a term, which spells the term, in a script as in a listing. Answers `NoMemory` where the text
/// finds no room.
pub fn print(alloc: Global, term: &Term) -> Result<Vec<u8>, NoMemory>
    ensures text { IfOk result (λ bytes. bytes.items ≡ shown term.now.node) }
    ensures spelled { IfOk result (λ bytes. (mode : Mode)
        → Spells (within_limits mode) (depth_of term.now.node) bytes.items term.now.node) }
{
    let mut out = Vec::new(alloc);
    push_node(&mut out, &term.node)?;
    Ok(out)
}

/// A reply as a line: its canonical text, a dot and a newline. Answers `NoMemory` where the line finds no room.
pub fn print_line(alloc: Global, reply: &Term) -> Result<Vec<u8>, NoMemory>
    ensures line { IfOk result (λ bytes. bytes.items ≡ shown_line reply.now.node) }
{
    let mut out = Vec::new(alloc);
    push_node(&mut out, &reply.node)?;
    push_bytes(&mut out, b".\n")?;
    Ok(out)
}
