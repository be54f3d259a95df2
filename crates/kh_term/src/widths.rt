//! The greatest width in a term.
ghost use Rattle.std.specs.Prelude.{◌≡◌, map, max};
ghost use Rattle.kh_term.specs.Size.{width_of, greatest};

use crate::term::Term;
use crate::tree::TermTree;

/// The greatest number of elements, pairs, captured values or bytes that stands anywhere in a term.
pub fn widest(term: &Term) -> usize
    ensures { result ≡ width_of term.now.node }
{
    tree_width(&term.node)
}

/// The greatest width in a part of a term.
#[cycle(width)]
#[tactic(auto, using(crate::proofs::Layers::widths))]
pub fn tree_width(tree: &TermTree) -> usize
    ensures { result ≡ width_of tree.now }
{
    match tree {
        TermTree::Int(_) => 0,
        TermTree::Atom(text) => text.as_slice().len(),
        TermTree::Bin(bytes) => bytes.as_slice().len(),
        TermTree::Nil => 0,
        TermTree::List(parts, tail) => {
            let inner = widest_part(parts.as_slice()).max(tree_width(tail.get()));
            parts.len().max(inner)
        }
        TermTree::Tuple(parts) => parts.len().max(widest_part(parts.as_slice())),
        TermTree::Map(pairs) => pairs.len().max(widest_of_pairs(pairs.as_slice())),
        TermTree::Closure(origin, env) => {
            let texts = origin
                .module
                .as_slice()
                .len()
                .max(origin.name.as_slice().len());
            texts.max(env.len().max(widest_part(env.as_slice())))
        }
    }
}

#[cycle(width)]
#[tactic(auto, using(crate::proofs::Layers::widths))]
fn widest_part(trees: &[TermTree]) -> usize
    ensures { result ≡ greatest (map width_of trees.now) }
{
    let mut most = 0;
    for tree in trees {
        most = tree_width(tree).max(most);
    }
    most
}

#[cycle(width)]
#[tactic(auto, using(crate::proofs::Layers::widths))]
fn widest_of_pairs(pairs: &[(TermTree, TermTree)]) -> usize
    ensures { result ≡ greatest (map (λ p. max (width_of p.0) (width_of p.1)) pairs.now) }
{
    let mut most = 0;
    for pair in pairs {
        let key = tree_width(&pair.0);
        let value = tree_width(&pair.1);
        most = key.max(value).max(most);
    }
    most
}
