//! Making terms of their parts.
ghost use Rattle.std.specs.Prelude.{◌≡◌, ◌≤◌, ◌≢◌, [], ◌∷◌, ◌++◌, length, slice_get, IfOk, IfSome, OnOk, OnErr};
ghost use Rattle.std.specs.Option.{option_copied};
ghost use Rattle.kh_term.specs.declared.tree.TermTree.TheVariants as tree;
ghost use Rattle.kh_term.specs.WellFormed.{IsTerm, AreTerms};
ghost use Rattle.kh_term.specs.Make.{list_of, list_with_tail, name_tree, path_tree};

use crate::bytes::{Atom, Bytes};
use crate::limits::MOST_NAME_BYTES;
use crate::memory::NoMemory;
use crate::name::{Name, Origin};
use crate::path::Path;
use crate::term::{Pairs, Term, Terms};
use crate::tree::TermTree;
use sqlite_items::{Boxed, Items};
use std::alloc::Global;

impl Terms {
    /// No term.
    pub fn new(alloc: Global) -> Terms
        ensures { result.nodes ≡ [] }
    {
        Terms {
            nodes: Items::new(alloc),
        }
    }

    /// The number of terms.
    pub fn len(&self) -> usize
        ensures { result ≡ length self.now.nodes }
    {
        self.nodes.len()
    }

    /// The terms in order.
    pub fn as_slice(&self) -> &[TermTree]
        ensures terms { result.now ≡ self.now.nodes }
        ensures fit { AreTerms self.now.nodes }
    {
        self.nodes.as_slice()
    }

    /// The term at a place, counted from 0.
    #[tactic(auto, using(crate::specs::Lemmas::Fits::parts))]
    pub fn get(&self, at: usize) -> Option<&TermTree>
        ensures term { option_copied result ≡ slice_get self.now.nodes at }
        ensures fits { IfSome result (λ term. IsTerm term.now) }
    {
        match self.nodes.get(at) {
            Some(term) => Some(term),
            None => None,
        }
    }

    /// Adds a term at the end.
    pub fn push(&mut self, term: Term) -> Result<(), NoMemory>
        ensures ok { OnOk result (self.new.nodes ≡ self.old.nodes ++ term.node ∷ []) }
        ensures err { OnErr result (self.new ≡ self.old) }
    {
        let Term { node } = term;
        self.nodes.push(node)?;
        Ok(())
    }
}

/// An integer.
#[tactic(auto, using(crate::specs::Lemmas::Fits::terms))]
pub fn int(number: i128) -> Term
    ensures { result.node ≡ tree.Int number }
{
    Term {
        node: TermTree::Int(number),
    }
}

/// An atom.
#[tactic(auto, using(crate::specs::Lemmas::Fits::terms))]
pub fn atom(text: Atom) -> Term
    ensures { result.node ≡ tree.Atom text }
{
    let _fits = text.as_slice();
    Term {
        node: TermTree::Atom(text),
    }
}

/// A binary of these bytes.
#[tactic(auto, using(crate::specs::Lemmas::Fits::terms))]
pub fn bin(bytes: Bytes) -> Term
    ensures { result.node ≡ tree.Bin bytes }
{
    let _fits = bytes.as_slice();
    Term {
        node: TermTree::Bin(bytes),
    }
}

/// Nil, the empty list.
#[tactic(auto, using(crate::specs::Lemmas::Fits::terms))]
pub fn nil() -> Term
    ensures { result.node ≡ tree.Nil }
{
    Term {
        node: TermTree::Nil,
    }
}

/// The tuple of these terms.
#[tactic(auto, using(crate::specs::Lemmas::Fits::terms))]
pub fn tuple(parts: Terms) -> Term
    ensures { result.node ≡ tree.Tuple parts.nodes }
{
    let Terms { nodes } = parts;
    Term {
        node: TermTree::Tuple(nodes),
    }
}

/// The list of these terms, nil where there are none.
#[tactic(auto, using(crate::specs::Lemmas::Fits::terms))]
pub fn list(alloc: Global, parts: Terms) -> Result<Term, NoMemory>
    ensures { IfOk result (λ t. t.node ≡ list_of parts.nodes) }
{
    let Terms { nodes } = parts;
    if nodes.is_empty() {
        return Ok(Term {
            node: TermTree::Nil,
        });
    }
    let tail = Boxed::new(alloc, TermTree::Nil)?;
    Ok(Term {
        node: TermTree::List(nodes, tail),
    })
}

/// The list of these terms and a tail, which is a list itself or not; the tail alone where there are no terms.
#[tactic(auto, using(crate::specs::Lemmas::Fits::terms))]
pub fn list_with_tail(alloc: Global, parts: Terms, tail: Term) -> Result<Term, NoMemory>
    ensures { IfOk result (λ t. t.node ≡ list_with_tail parts.nodes tail.node) }
{
    let Terms { mut nodes } = parts;
    if nodes.is_empty() {
        return Ok(tail);
    }
    let Term { node } = tail;
    match node {
        TermTree::List(more, tail) => {
            nodes.append(more)?;
            Ok(Term {
                node: TermTree::List(nodes, tail),
            })
        }
        node => {
            let tail = Boxed::new(alloc, node)?;
            Ok(Term {
                node: TermTree::List(nodes, tail),
            })
        }
    }
}

/// The map of these pairs.
#[tactic(auto, using(crate::specs::Lemmas::Fits::terms))]
pub fn map(pairs: Pairs) -> Term
    ensures { result.node ≡ tree.Map pairs.nodes }
{
    let Pairs { nodes } = pairs;
    Term {
        node: TermTree::Map(nodes),
    }
}

/// The function of this origin with its captured values.
#[tactic(auto, using(crate::specs::Lemmas::Fits::terms))]
pub fn closure(origin: Origin, env: Terms) -> Term
    requires { length env.nodes ≤ origin.arity }
    ensures { result.node ≡ tree.Closure origin env.nodes }
{
    let _module = origin.module.as_slice();
    let _name = origin.name.as_slice();
    let Terms { nodes } = env;
    Term {
        node: TermTree::Closure(origin, nodes),
    }
}

/// The map with this one key.
#[tactic(auto, using(crate::specs::Lemmas::Fits::terms))]
pub fn map_of_one(alloc: Global, key: Term, value: Term) -> Result<Term, NoMemory>
    ensures { IfOk result (λ t. t.node ≡ tree.Map ((key.node, value.node) ∷ [])) }
{
    let mut nodes = Items::new(alloc);
    let Term { node: key } = key;
    let Term { node: value } = value;
    nodes.push((key, value))?;
    Ok(Term {
        node: TermTree::Map(nodes),
    })
}

/// The atom of a word.
pub fn word(alloc: Global, text: &str) -> Result<Term, NoMemory>
    requires { length text.now ≤ MOST_NAME_BYTES }
    ensures { IfOk result (λ t. t.node ≡ tree.Atom text.now) }
{
    match Atom::new(Vec::from_slice(alloc, text.as_bytes())?) {
        Some(text) => Ok(atom(text)),
        None => unreachable!(),
    }
}

/// A tuple of two terms.
pub fn pair(alloc: Global, first: Term, second: Term) -> Result<Term, NoMemory>
    ensures { IfOk result (λ t. t.node ≡ tree.Tuple (first.node ∷ second.node ∷ [])) }
{
    let mut parts = Terms::new(alloc);
    parts.push(first)?;
    parts.push(second)?;
    Ok(tuple(parts))
}

/// A tuple of three terms.
pub fn triple(alloc: Global, first: Term, second: Term, third: Term) -> Result<Term, NoMemory>
    ensures { IfOk result
        (λ t. t.node ≡ tree.Tuple (first.node ∷ second.node ∷ third.node ∷ [])) }
{
    let mut parts = Terms::new(alloc);
    parts.push(first)?;
    parts.push(second)?;
    parts.push(third)?;
    Ok(tuple(parts))
}

/// The atom or the binary of a name.
pub fn term_of_name(alloc: Global, name: &Name) -> Result<Term, NoMemory>
    ensures { IfOk result (λ t. t.node ≡ name_tree name.now) }
{
    match name {
        Name::Atom(text) => Ok(atom(text.copy(alloc)?)),
        Name::Bin(bytes) => Ok(bin(bytes.copy(alloc)?)),
    }
}

/// The list of the names of a path.
pub fn path_term(alloc: Global, path: &Path) -> Result<Term, NoMemory>
    ensures { IfOk result (λ t. t.node ≡ path_tree path.now) }
{
    let mut terms = Terms::new(alloc);
    for name in path.names() {
        terms.push(term_of_name(alloc, name)?)?;
    }
    list(alloc, terms)
}
