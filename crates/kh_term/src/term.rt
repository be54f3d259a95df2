ghost use Rattle.std.specs.Prelude.{IsTrue, nat_le, length};
ghost use Rattle.kh_term.specs.WellFormed.{IsTerm, AreTerms, ArePairs};

use crate::bytes::Atom;
use crate::tree::{TermTree, TreePairs, Trees};

/// A term.
#[derive(Drop)]
pub struct Term {
    pub node: TermTree,
    pub ghost fits: { IsTerm node },
}

/// Terms, one after another.
#[derive(Drop)]
pub struct Terms {
    pub nodes: Trees,
    pub ghost fit: { AreTerms nodes },
}

/// The keys and values of a map, by strictly rising keys.
#[derive(Drop)]
pub struct Pairs {
    pub nodes: TreePairs,
    pub ghost fit: { ArePairs nodes },
}

/// A function with its captured values, which are its last arguments: no more than its whole arity.
#[derive(Drop)]
pub struct Closure {
    pub module: Atom,
    pub name: Atom,
    pub arity: u8,
    pub env: Terms,
    pub ghost captured: { IsTrue (nat_le (length env.nodes) arity) },
}
