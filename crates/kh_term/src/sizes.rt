//! The size of a term.
ghost use Rattle.std.specs.Prelude.{◌≡◌, ◌<◌, ◌^◌, ℕ};
ghost use Rattle.kh_term.specs.Size.{size_of, sizes_of, pair_sizes_of};

use crate::term::Term;
use crate::tree::TermTree;

/// The size of a term, as the limits count it.
pub fn size(term: &Term) -> u64
    requires { size_of term.now.node < 2 ^ 64 }
    ensures { result ≡ size_of term.now.node }
{
    tree_size(&term.node)
}

/// The size of a part of a term.
#[cycle(size)]
#[tactic(auto, using(crate::proofs::Layers::sizes))]
pub fn tree_size(tree: &TermTree) -> u64
    requires { size_of tree.now < 2 ^ 64 }
    ensures { result ≡ size_of tree.now }
{
    match tree {
        TermTree::Int(_) => 1,
        TermTree::Atom(_) => 1,
        TermTree::Bin(bytes) => 1 + (bytes.as_slice().len() as u64 + 7) / 8,
        TermTree::Nil => 1,
        TermTree::List(parts, tail) => parts.len() as u64
            + sizes(parts.as_slice())
            + tree_size(tail.get()),
        TermTree::Tuple(parts) => 1 + sizes(parts.as_slice()),
        TermTree::Map(pairs) => 1 + pair_sizes(pairs.as_slice()),
        TermTree::Closure(_, env) => 1 + sizes(env.as_slice()),
    }
}

#[cycle(size)]
#[tactic(auto, using(crate::proofs::Layers::sizes))]
fn sizes(trees: &[TermTree]) -> u64
    requires { sizes_of trees.now < 2 ^ 64 }
    ensures { result ≡ sizes_of trees.now }
{
    let mut all = 0;
    for tree in trees {
        all += tree_size(tree);
    }
    all
}

#[cycle(size)]
#[tactic(auto, using(crate::proofs::Layers::sizes))]
fn pair_sizes(pairs: &[(TermTree, TermTree)]) -> u64
    requires { pair_sizes_of pairs.now < 2 ^ 64 }
    ensures { result ≡ pair_sizes_of pairs.now }
{
    let mut all = 0;
    for pair in pairs {
        let key = tree_size(&pair.0);
        let value = tree_size(&pair.1);
        all += key + value;
    }
    all
}
