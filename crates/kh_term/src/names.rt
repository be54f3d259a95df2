//! Terms that stand for names, paths and origins.
ghost use Rattle.std.specs.Prelude.{◌≡◌, IfOk};
ghost use Rattle.kh_term.specs.declared.tree.TermTree.{out-TermTree};
ghost use Rattle.kh_term.specs.Parts.{named, name_of, names_of, path_of, origin_tree, origin_of, origin_of_parts, origin_with, atom_in, arity_in, arity_within};

use crate::bytes::Atom;
use crate::depths::is_nil;
use crate::limits::{MOST_ARITY, MOST_NAMES};
use crate::make::{atom, int, triple};
use crate::memory::NoMemory;
use crate::name::{Name, Origin};
use crate::path::Path;
use crate::plural::Names;
use crate::term::Term;
use crate::tree::TermTree;
use std::alloc::Global;

// A name, where it may name a node.
fn named(name: Name) -> Option<Name>
    ensures { result ≡ named name }
{
    if name.is_name() { Some(name) } else { None }
}

/// The name that a term stands for, where it is an atom or a binary that may name a node.
#[tactic(auto, using(crate::proofs::Layers::nils))]
pub fn name_of(alloc: Global, tree: &TermTree) -> Result<Option<Name>, NoMemory>
    ensures { IfOk result (λ name. name ≡ name_of tree.now) }
{
    match tree {
        TermTree::Atom(text) => Ok(named(Name::Atom(text.copy(alloc)?))),
        TermTree::Bin(bytes) => Ok(named(Name::Bin(bytes.copy(alloc)?))),
        TermTree::Int(_)
        | TermTree::Nil
        | TermTree::List(_, _)
        | TermTree::Tuple(_)
        | TermTree::Map(_)
        | TermTree::Closure(_, _) => Ok(None),
    }
}

/// The names that terms stand for, where each stands for one.
pub fn names_of(alloc: Global, trees: &[TermTree]) -> Result<Option<Names>, NoMemory>
    ensures { IfOk result (λ names. names ≡ names_of trees.now) }
{
    let mut names = Names::new(alloc);
    for tree in trees {
        match name_of(alloc, tree)? {
            Some(name) => names.push(name)?,
            None => return Ok(None),
        }
    }
    Ok(Some(names))
}

/// The path that a term stands for, where it is a list of at most 32 names.
#[tactic(auto, using(crate::proofs::Layers::nils))]
pub fn path_of(alloc: Global, tree: &TermTree) -> Result<Option<Path>, NoMemory>
    ensures { IfOk result (λ path. path ≡ path_of tree.now) }
{
    match tree {
        TermTree::Nil => Ok(Path::new(Vec::new(alloc))),
        TermTree::List(parts, tail) => {
            if !is_nil(tail.get()) || parts.len() > MOST_NAMES {
                return Ok(None);
            }
            match names_of(alloc, parts.as_slice())? {
                Some(names) => Ok(Path::new(names.into_vec())),
                None => Ok(None),
            }
        }
        TermTree::Int(_)
        | TermTree::Atom(_)
        | TermTree::Bin(_)
        | TermTree::Tuple(_)
        | TermTree::Map(_)
        | TermTree::Closure(_, _) => Ok(None),
    }
}

/// The triple of an origin: its module, its name and its arity.
pub fn origin_term(alloc: Global, origin: &Origin) -> Result<Term, NoMemory>
    ensures { IfOk result (λ t. t.node ≡ origin_tree origin.now) }
{
    let module = atom(origin.module.copy(alloc)?);
    let name = atom(origin.name.copy(alloc)?);
    triple(alloc, module, name, int(origin.arity as i128))
}

#[tactic(auto, using(crate::proofs::Layers::nils))]
fn atom_in(alloc: Global, tree: &TermTree) -> Result<Option<Atom>, NoMemory>
    ensures { IfOk result (λ text. text ≡ atom_in (out-TermTree tree.now)) }
{
    match tree {
        TermTree::Atom(text) => Ok(Some(text.copy(alloc)?)),
        TermTree::Int(_)
        | TermTree::Bin(_)
        | TermTree::Nil
        | TermTree::List(_, _)
        | TermTree::Tuple(_)
        | TermTree::Map(_)
        | TermTree::Closure(_, _) => Ok(None),
    }
}

#[tactic(auto, using(crate::proofs::Layers::nils))]
fn arity_in(tree: &TermTree) -> Option<u8>
    ensures { result ≡ arity_in (out-TermTree tree.now) }
{
    match tree {
        TermTree::Int(number) => arity_within(*number),
        TermTree::Atom(_)
        | TermTree::Bin(_)
        | TermTree::Nil
        | TermTree::List(_, _)
        | TermTree::Tuple(_)
        | TermTree::Map(_)
        | TermTree::Closure(_, _) => None,
    }
}

fn arity_within(number: i128) -> Option<u8>
    ensures { result ≡ arity_within number }
{
    if number < 0 || number > MOST_ARITY as i128 {
        return None;
    }
    Some(number as u8)
}

/// The origin that a term stands for, where it is a tuple of two atoms and an integer from 0 to 255.
#[tactic(auto, using(crate::proofs::Layers::nils))]
pub fn origin_of(alloc: Global, tree: &TermTree) -> Result<Option<Origin>, NoMemory>
    ensures { IfOk result (λ origin. origin ≡ origin_of tree.now) }
{
    match tree {
        TermTree::Tuple(parts) => origin_of_parts(alloc, parts.as_slice()),
        TermTree::Int(_)
        | TermTree::Atom(_)
        | TermTree::Bin(_)
        | TermTree::Nil
        | TermTree::List(_, _)
        | TermTree::Map(_)
        | TermTree::Closure(_, _) => Ok(None),
    }
}

fn origin_of_parts(alloc: Global, parts: &[TermTree]) -> Result<Option<Origin>, NoMemory>
    ensures { IfOk result (λ origin. origin ≡ origin_of_parts parts.now) }
{
    let [module, name, arity] = parts else {
        return Ok(None);
    };
    let module = atom_in(alloc, module)?;
    let name = atom_in(alloc, name)?;
    Ok(origin_with(module, name, arity_in(arity)))
}

fn origin_with(module: Option<Atom>, name: Option<Atom>, arity: Option<u8>) -> Option<Origin>
    ensures { result ≡ origin_with «module» name arity }
{
    match (module, name, arity) {
        (Some(module), Some(name), Some(arity)) => Some(Origin {
            module,
            name,
            arity,
        }),
        _ => None,
    }
}
