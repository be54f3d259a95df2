// A search tree whose nodes are shared: what it is made of, and how a node is made.
#![tactic(auto, using(crate::proofs::Layers::forked))]

ghost use Rattle.std.specs.Prelude.{◌≡◌, IfOk};
ghost use Rattle.kh_pmap.specs.Entries.{entries, held, joined};

use kh_shared::{NoMemory, Shared};
use std::alloc::Global;

/// A tree without entries, or a node.
#[cycle(tree)]
#[derive(Drop)]
pub(crate) enum Tree<K, V> {
    Leaf,
    Fork(Shared<Node<K, V>>),
}

/// An entry with the entries before it and those behind it. The height is that of the tree.
#[cycle(tree)]
#[derive(Drop)]
pub(crate) struct Node<K, V> {
    pub(crate) left: Tree<K, V>,
    pub(crate) key: Shared<K>,
    pub(crate) value: Shared<V>,
    pub(crate) height: u8,
    pub(crate) right: Tree<K, V>,
}

/// The same tree for one more owner.
pub(crate) fn share<K, V>(tree: &Tree<K, V>) -> Tree<K, V>
    ensures { result ≡ tree.now }
{
    match tree {
        Tree::Leaf => Tree::Leaf,
        Tree::Fork(node) => Tree::Fork(node.share()),
    }
}

/// The number of nodes on the longest way down.
pub(crate) fn height<K, V>(tree: &Tree<K, V>) -> u8 {
    match tree {
        Tree::Leaf => 0,
        Tree::Fork(node) => node.as_ref().height,
    }
}

/// A tree of two trees with an entry between them.
pub(crate) fn fork<K: Drop, V: Drop>(
    alloc: Global,
    left: &Tree<K, V>,
    key: &Shared<K>,
    value: &Shared<V>,
    right: &Tree<K, V>,
) -> Result<Tree<K, V>, NoMemory>
    ensures { IfOk result (λ t. entries t ≡ joined left.now (held key.now) (held value.now) right.now) }
{
    let height = height(left).max(height(right)).saturating_add(1);
    let node = Shared::new(
        alloc,
        Node {
            left: share(left),
            key: key.share(),
            value: value.share(),
            height,
            right: share(right),
        },
    )?;
    Ok(Tree::Fork(node))
}
