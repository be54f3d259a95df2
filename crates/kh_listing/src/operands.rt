//! What the parts of a form are.
ghost use Rattle.std.specs.Prelude.{◌≡◌, IfOk};
ghost use Rattle.std.specs.Option.{option_copied};
ghost use Rattle.kh_term.specs.declared.tree.TermTree.{out-TermTree};
ghost use Rattle.kh_term.specs.Size.{is_nil};
ghost use Rattle.kh_instr.specs.Operands.{int_in, atom_of, number_below, count_of, arity_of, parts_of, items_of};

use kh_term::{Atom, NoMemory, TermTree};
use std::alloc::Global;

// An integer.
#[tactic(auto, using(kh_term::proofs::Layers::nils))]
fn int_of(tree: &TermTree) -> Option<i128>
    ensures { result ≡ int_in (out-TermTree tree.now) }
{
    match tree {
        TermTree::Int(number) => Some(*number),
        TermTree::Atom(_)
        | TermTree::Bin(_)
        | TermTree::Nil
        | TermTree::List(_, _)
        | TermTree::Tuple(_)
        | TermTree::Map(_)
        | TermTree::Closure(_, _) => None,
    }
}

#[tactic(auto, using(kh_term::proofs::Layers::nils))]
fn atom_of(tree: &TermTree) -> Option<&Atom>
    ensures { option_copied result ≡ atom_of tree.now }
{
    match tree {
        TermTree::Atom(text) => Some(text),
        TermTree::Int(_)
        | TermTree::Bin(_)
        | TermTree::Nil
        | TermTree::List(_, _)
        | TermTree::Tuple(_)
        | TermTree::Map(_)
        | TermTree::Closure(_, _) => None,
    }
}

/// A copy of an atom. The error is want of memory.
pub fn name_of(alloc: Global, tree: &TermTree) -> Result<Option<Atom>, NoMemory>
    ensures { IfOk result (λ found. found ≡ atom_of tree.now) }
{
    match atom_of(tree) {
        Some(text) => Ok(Some(text.copy(alloc)?)),
        None => Ok(None),
    }
}

// A number from 0 that is below a limit.
fn number_below(limit: u64, tree: &TermTree) -> Option<u64>
    ensures { result ≡ number_below limit tree.now }
{
    match int_of(tree) {
        Some(number) => {
            if 0 <= number && number < limit as i128 {
                Some(number as u64)
            } else {
                None
            }
        }
        None => None,
    }
}

/// A number from 0 to 2^32 - 1.
pub fn count_of(tree: &TermTree) -> Option<u32>
    ensures { result ≡ count_of tree.now }
{
    match number_below(1 << 32, tree) {
        Some(number) => Some(number as u32),
        None => None,
    }
}

/// A number of arguments, from 0 to 255.
pub fn arity_of(tree: &TermTree) -> Option<u8>
    ensures { result ≡ arity_of tree.now }
{
    match number_below(256, tree) {
        Some(number) => Some(number as u8),
        None => None,
    }
}

/// The elements of a tuple.
#[tactic(auto, using(kh_term::proofs::Layers::nils))]
pub fn parts_of(tree: &TermTree) -> Option<&[TermTree]>
    ensures { option_copied result ≡ parts_of tree.now }
{
    match tree {
        TermTree::Tuple(parts) => Some(parts.as_slice()),
        TermTree::Int(_)
        | TermTree::Atom(_)
        | TermTree::Bin(_)
        | TermTree::Nil
        | TermTree::List(_, _)
        | TermTree::Map(_)
        | TermTree::Closure(_, _) => None,
    }
}

/// The elements of a list that nil ends.
#[tactic(auto, using(kh_term::proofs::Layers::nils))]
pub fn items_of(tree: &TermTree) -> Option<&[TermTree]>
    ensures { option_copied result ≡ items_of tree.now }
{
    match tree {
        TermTree::Nil => Some(&[]),
        TermTree::List(items, tail) => {
            if is_nil(tail.get()) {
                Some(items.as_slice())
            } else {
                None
            }
        }
        TermTree::Int(_)
        | TermTree::Atom(_)
        | TermTree::Bin(_)
        | TermTree::Tuple(_)
        | TermTree::Map(_)
        | TermTree::Closure(_, _) => None,
    }
}

#[tactic(auto, using(kh_term::proofs::Layers::nils))]
fn is_nil(tree: &TermTree) -> bool
    ensures { result ≡ is_nil (out-TermTree tree.now) }
{
    match tree {
        TermTree::Nil => true,
        TermTree::Int(_)
        | TermTree::Atom(_)
        | TermTree::Bin(_)
        | TermTree::List(_, _)
        | TermTree::Tuple(_)
        | TermTree::Map(_)
        | TermTree::Closure(_, _) => false,
    }
}
