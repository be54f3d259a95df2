//! The depth of a term.
ghost use Rattle.std.specs.Prelude.{◌≡◌, ◌<◌, ◌^◌, ℕ, map, max};
ghost use Rattle.kh_term.specs.declared.tree.TermTree.{out-TermTree};
ghost use Rattle.kh_term.specs.Size.{depth_of, is_nil, greatest};

use crate::term::Term;
use crate::tree::TermTree;

/// The depth of a term: 0 for an integer, an atom and a binary, 1 for nil, else 1 more than the depth of the deepest
/// part, where a nil tail isn't counted.
pub fn depth(term: &Term) -> u32
    requires { depth_of term.now.node < 2 ^ 32 }
    ensures { result ≡ depth_of term.now.node }
{
    tree_depth(&term.node)
}

#[tactic(auto, using(crate::proofs::Layers::depths))]
pub(crate) fn is_nil(tree: &TermTree) -> bool
    ensures { result ≡ is_nil (out-TermTree tree.now) }
{
    match tree {
        TermTree::Nil => true,
        TermTree::Int(_)
        | TermTree::Atom(_)
        | TermTree::Bin(_)
        | TermTree::List(_, _)
        | TermTree::Tuple(_)
        | TermTree::Map(_)
        | TermTree::Closure(_, _) => false,
    }
}

/// The depth of a part of a term.
#[cycle(depth)]
#[tactic(auto, using(crate::proofs::Layers::depths))]
pub fn tree_depth(tree: &TermTree) -> u32
    requires { depth_of tree.now < 2 ^ 32 }
    ensures { result ≡ depth_of tree.now }
{
    match tree {
        TermTree::Int(_) => 0,
        TermTree::Atom(_) => 0,
        TermTree::Bin(_) => 0,
        TermTree::Nil => 1,
        TermTree::List(parts, tail) => {
            let behind = if is_nil(tail.get()) {
                0
            } else {
                tree_depth(tail.get())
            };
            1 + deepest(parts.as_slice()).max(behind)
        }
        TermTree::Tuple(parts) => 1 + deepest(parts.as_slice()),
        TermTree::Map(pairs) => 1 + deepest_pair(pairs.as_slice()),
        TermTree::Closure(_, env) => 1 + deepest(env.as_slice()),
    }
}

#[cycle(depth)]
#[tactic(auto, using(crate::proofs::Layers::depths))]
fn deepest(trees: &[TermTree]) -> u32
    requires { greatest (map depth_of trees.now) < 2 ^ 32 }
    ensures { result ≡ greatest (map depth_of trees.now) }
{
    let mut most = 0;
    for tree in trees {
        most = tree_depth(tree).max(most);
    }
    most
}

#[cycle(depth)]
#[tactic(auto, using(crate::proofs::Layers::depths))]
fn deepest_pair(pairs: &[(TermTree, TermTree)]) -> u32
    requires { greatest (map (λ p. max (depth_of p.0) (depth_of p.1)) pairs.now) < 2 ^ 32 }
    ensures { result ≡ greatest (map (λ p. max (depth_of p.0) (depth_of p.1)) pairs.now) }
{
    let mut most = 0;
    for pair in pairs {
        let key = tree_depth(&pair.0);
        let value = tree_depth(&pair.1);
        most = key.max(value).max(most);
    }
    most
}
