//! Instructions, as they are read.
ghost use Rattle.std.specs.Prelude.{◌≡◌, IsSome, IfOk};
ghost use Rattle.std.specs.Option.{option_copied};
ghost use Rattle.kh_term.specs.WellFormed.{IsTerm, AreTerms};
ghost use Rattle.kh_instr.specs.Rows.{alone_named, row_from, tuple_read, listed, word_of_parts, first_word, instr_read};

use crate::instr::Instr;
use crate::operands::atom_of;
use crate::rows::{read_alone, read_row};
use crate::words::Word;
use kh_term::{Atom, NoMemory, Term, TermTree};
use std::alloc::Global;

/// The first word of a form: the atom, or the atom that a tuple begins with. None where it is neither.
#[tactic(auto, using(crate::proofs::Trees::trees))]
pub fn first_word(tree: &TermTree) -> Option<&Atom>
    ensures { option_copied result ≡ first_word tree.now }
{
    match tree {
        TermTree::Atom(text) => Some(text),
        TermTree::Tuple(parts) => word_of_parts(parts.as_slice()),
        TermTree::Int(_)
        | TermTree::Bin(_)
        | TermTree::Nil
        | TermTree::List(_, _)
        | TermTree::Map(_)
        | TermTree::Closure(_, _) => None,
    }
}

fn word_of_parts(parts: &[TermTree]) -> Option<&Atom>
    ensures { option_copied result ≡ word_of_parts parts.now }
{
    match parts {
        [first, ..] => atom_of(first),
        [] => None,
    }
}

/// The instruction that a form spells, an unsupported one by its first word where the table has no such spelling. The form
/// is an atom, or a tuple that begins with one. The error is want of memory.
pub fn instr_of(alloc: Global, form: &Term) -> Result<Instr, NoMemory>
    requires { IsSome (first_word form.now.node) }
    ensures { IfOk result (λ i. i ≡ instr_read form.now.node) }
{
    tree_instr(alloc, &form.node)
}

/// The same of a part of a term.
pub fn tree_instr(alloc: Global, form: &TermTree) -> Result<Instr, NoMemory>
    requires term { IsTerm form.now }
    requires word { IsSome (first_word form.now) }
    ensures { IfOk result (λ i. i ≡ instr_read form.now) }
{
    if let Some(instr) = listed(alloc, form)? {
        return Ok(instr);
    }
    match first_word(form) {
        Some(word) => Ok(Instr::Unsupported(word.copy(alloc)?)),
        None => unreachable!(),
    }
}

// The instruction of a form, where the table has its spelling.
#[tactic(auto, using(crate::proofs::Trees::trees))]
fn listed(alloc: Global, form: &TermTree) -> Result<Option<Instr>, NoMemory>
    requires { IsTerm form.now }
    ensures { IfOk result (λ found. found ≡ listed form.now) }
{
    match form {
        TermTree::Atom(text) => Ok(alone_named(text.as_slice())),
        TermTree::Tuple(parts) => tuple_read(alloc, parts.as_slice()),
        TermTree::Int(_)
        | TermTree::Bin(_)
        | TermTree::Nil
        | TermTree::List(_, _)
        | TermTree::Map(_)
        | TermTree::Closure(_, _) => Ok(None),
    }
}

fn alone_named(text: &[u8]) -> Option<Instr>
    ensures { result ≡ alone_named text.now }
{
    read_alone(Word::named(text)?)
}

fn row_from(alloc: Global, text: &[u8], parts: &[TermTree]) -> Result<Option<Instr>, NoMemory>
    requires { AreTerms parts.now }
    ensures { IfOk result (λ found. found ≡ row_from text.now parts.now) }
{
    match Word::named(text) {
        Some(word) => read_row(alloc, word, parts),
        None => Ok(None),
    }
}

#[tactic(auto, using(crate::proofs::Trees::trees))]
fn tuple_read(alloc: Global, parts: &[TermTree]) -> Result<Option<Instr>, NoMemory>
    requires { AreTerms parts.now }
    ensures { IfOk result (λ found. found ≡ tuple_read parts.now) }
{
    match parts {
        [first, rest @ ..] => match atom_of(first) {
            Some(text) => row_from(alloc, text.as_slice(), rest),
            None => Ok(None),
        },
        [] => Ok(None),
    }
}
