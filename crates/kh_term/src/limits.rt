//! What is asked of terms that are kept, passed on or computed.
ghost use Rattle.std.specs.Prelude.{◌≡◌, ◌-◌, ◌^◌, ◌||◌, min, nat_lt, ℕ};
ghost use Rattle.std.specs.List.{list_any};
ghost use Rattle.kh_term.specs.Limits.{holds_closure, is_small, most_size, most_depth};
ghost use Rattle.kh_term.specs.Size.{size_of, sizes_of, pair_sizes_of};

use crate::depths::depth;
use crate::term::Term;
use crate::tree::TermTree;

/// The greatest size of a term that is read or computed.
pub const MOST_SIZE: u64 = 1_048_576;

/// The greatest depth of a term that is read or computed.
pub const MOST_DEPTH: u32 = 200;

/// The most names of a path.
pub const MOST_NAMES: usize = 32;

/// The most bytes of an atom, and of the name of a node.
pub const MOST_NAME_BYTES: usize = 255;

/// The greatest whole arity of a function.
pub const MOST_ARITY: u8 = 255;

/// The most bytes of a text.
pub const MOST_TEXT_BYTES: usize = 4096;

/// Whether a function stands anywhere in a term.
pub fn holds_closure(term: &Term) -> bool
    ensures { result ≡ holds_closure term.now.node }
{
    tree_holds_closure(&term.node)
}

/// Whether a function stands anywhere in a part of a term.
#[cycle(holds)]
#[tactic(auto, using(crate::proofs::Layers::holds))]
pub fn tree_holds_closure(tree: &TermTree) -> bool
    ensures { result ≡ holds_closure tree.now }
{
    match tree {
        TermTree::Int(_) | TermTree::Atom(_) | TermTree::Bin(_) | TermTree::Nil => false,
        TermTree::List(parts, tail) => {
            any_holds_closure(parts.as_slice()) || tree_holds_closure(tail.get())
        }
        TermTree::Tuple(parts) => any_holds_closure(parts.as_slice()),
        TermTree::Map(pairs) => any_pair_holds_closure(pairs.as_slice()),
        TermTree::Closure(_, _) => true,
    }
}

#[cycle(holds)]
#[tactic(auto, using(crate::proofs::Layers::holds))]
fn any_holds_closure(trees: &[TermTree]) -> bool
    ensures { result ≡ list_any holds_closure trees.now }
{
    for tree in trees {
        if tree_holds_closure(tree) {
            return true;
        }
    }
    false
}

#[cycle(holds)]
#[tactic(auto, using(crate::proofs::Layers::holds))]
fn any_pair_holds_closure(pairs: &[(TermTree, TermTree)]) -> bool
    ensures { result ≡ list_any (λ p. holds_closure p.0 || holds_closure p.1) pairs.now }
{
    for pair in pairs {
        let key = tree_holds_closure(&pair.0);
        let value = tree_holds_closure(&pair.1);
        if key || value {
            return true;
        }
    }
    false
}

/// Whether a term has at most the size and the depth of one that is read or computed.
pub fn is_small(term: &Term) -> bool
    ensures { result ≡ is_small term.now.node }
{
    capped_size(&term.node) <= MOST_SIZE && depth(term) <= MOST_DEPTH
}

/// Whether a term is larger than one that is read or computed.
pub fn is_large(term: &Term) -> bool
    ensures { result ≡ nat_lt most_size (size_of term.now.node) }
{
    capped_size(&term.node) > MOST_SIZE
}

// The size of a term, or 2^64 - 1 where it is more.
#[cycle(capped)]
#[tactic(auto, using(crate::proofs::Layers::sizes))]
fn capped_size(tree: &TermTree) -> u64
    ensures { result ≡ min (size_of tree.now) (2 ^ 64 - 1) }
{
    match tree {
        TermTree::Int(_) | TermTree::Atom(_) | TermTree::Nil => 1,
        TermTree::Bin(bytes) => 1 + (bytes.as_slice().len() as u64 + 7) / 8,
        TermTree::List(parts, tail) => {
            let units = parts.len() as u64;
            let inner = capped_sizes(parts.as_slice());
            units
                .saturating_add(inner)
                .saturating_add(capped_size(tail.get()))
        }
        TermTree::Tuple(parts) => capped_sizes(parts.as_slice()).saturating_add(1),
        TermTree::Map(pairs) => capped_pair_sizes(pairs.as_slice()).saturating_add(1),
        TermTree::Closure(_, env) => capped_sizes(env.as_slice()).saturating_add(1),
    }
}

#[cycle(capped)]
#[tactic(auto, using(crate::proofs::Layers::sizes))]
fn capped_sizes(trees: &[TermTree]) -> u64
    ensures { result ≡ min (sizes_of trees.now) (2 ^ 64 - 1) }
{
    let mut all: u64 = 0;
    for tree in trees {
        all = all.saturating_add(capped_size(tree));
    }
    all
}

#[cycle(capped)]
#[tactic(auto, using(crate::proofs::Layers::sizes))]
fn capped_pair_sizes(pairs: &[(TermTree, TermTree)]) -> u64
    ensures { result ≡ min (pair_sizes_of pairs.now) (2 ^ 64 - 1) }
{
    let mut all: u64 = 0;
    for pair in pairs {
        let key = capped_size(&pair.0);
        let value = capped_size(&pair.1);
        all = all.saturating_add(key).saturating_add(value);
    }
    all
}
