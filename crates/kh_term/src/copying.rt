//! Copies of terms.
ghost use Rattle.std.specs.Prelude.{◌≡◌, IfOk};
ghost use Rattle.kh_term.specs.WellFormed.{IsTerm, AreTerms, ArePairs};

use crate::memory::NoMemory;
use crate::name::Origin;
use crate::term::{Pairs, Term, Terms};
use crate::tree::{TermTree, TreePairs, Trees};
use sqlite_items::{Boxed, Items};
use std::alloc::Global;

impl Term {
    /// A copy, part by part.
    pub fn copy(&self, alloc: Global) -> Result<Term, NoMemory>
        ensures { IfOk result (λ t. t ≡ self.now) }
    {
        let node = copy_tree(alloc, &self.node)?;
        Ok(Term { node })
    }
}

impl Terms {
    /// A copy, part by part.
    pub fn copy(&self, alloc: Global) -> Result<Terms, NoMemory>
        ensures { IfOk result (λ ts. ts ≡ self.now) }
    {
        let nodes = copy_trees(alloc, self.nodes.as_slice())?;
        Ok(Terms { nodes })
    }
}

impl Pairs {
    /// A copy, part by part.
    pub fn copy(&self, alloc: Global) -> Result<Pairs, NoMemory>
        ensures { IfOk result (λ ps. ps ≡ self.now) }
    {
        let nodes = copy_pairs(alloc, self.nodes.as_slice())?;
        Ok(Pairs { nodes })
    }
}

/// A copy of a part of a term.
pub fn copy_of(alloc: Global, tree: &TermTree) -> Result<Term, NoMemory>
    requires { IsTerm tree.now }
    ensures { IfOk result (λ t. t.node ≡ tree.now) }
{
    let node = copy_tree(alloc, tree)?;
    Ok(Term { node })
}

/// A copy of parts of a term.
pub fn copy_of_all(alloc: Global, trees: &[TermTree]) -> Result<Terms, NoMemory>
    requires { AreTerms trees.now }
    ensures { IfOk result (λ ts. ts.nodes ≡ trees.now) }
{
    let nodes = copy_trees(alloc, trees)?;
    Ok(Terms { nodes })
}

/// A copy of the keys and values of a map.
pub fn copy_of_pairs(alloc: Global, pairs: &[(TermTree, TermTree)]) -> Result<Pairs, NoMemory>
    requires { ArePairs pairs.now }
    ensures { IfOk result (λ ps. ps.nodes ≡ pairs.now) }
{
    let nodes = copy_pairs(alloc, pairs)?;
    Ok(Pairs { nodes })
}

#[cycle(copy)]
fn copy_tree(alloc: Global, tree: &TermTree) -> Result<TermTree, NoMemory>
    ensures { IfOk result (λ t. t ≡ tree.now) }
{
    match tree {
        TermTree::Int(number) => Ok(TermTree::Int(*number)),
        TermTree::Atom(text) => Ok(TermTree::Atom(text.copy(alloc)?)),
        TermTree::Bin(bytes) => Ok(TermTree::Bin(bytes.copy(alloc)?)),
        TermTree::Nil => Ok(TermTree::Nil),
        TermTree::List(parts, tail) => {
            let parts = copy_trees(alloc, parts.as_slice())?;
            let tail = copy_tree(alloc, tail.get())?;
            Ok(TermTree::List(parts, Boxed::new(alloc, tail)?))
        }
        TermTree::Tuple(parts) => Ok(TermTree::Tuple(copy_trees(alloc, parts.as_slice())?)),
        TermTree::Map(pairs) => Ok(TermTree::Map(copy_pairs(alloc, pairs.as_slice())?)),
        TermTree::Closure(origin, env) => {
            let origin = origin.copy(alloc)?;
            Ok(TermTree::Closure(origin, copy_trees(alloc, env.as_slice())?))
        }
    }
}

#[cycle(copy)]
fn copy_trees(alloc: Global, trees: &[TermTree]) -> Result<Trees, NoMemory>
    ensures { IfOk result (λ ts. ts ≡ trees.now) }
{
    let mut all = Items::new(alloc);
    for tree in trees {
        all.push(copy_tree(alloc, tree)?)?;
    }
    Ok(all)
}

#[cycle(copy)]
fn copy_pairs(alloc: Global, pairs: &[(TermTree, TermTree)]) -> Result<TreePairs, NoMemory>
    ensures { IfOk result (λ ps. ps ≡ pairs.now) }
{
    let mut all = Items::new(alloc);
    for pair in pairs {
        let key = copy_tree(alloc, &pair.0)?;
        let value = copy_tree(alloc, &pair.1)?;
        all.push((key, value))?;
    }
    Ok(all)
}
