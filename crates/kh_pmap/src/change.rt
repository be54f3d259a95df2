// Newer trees, which share with the older one what the way to their entry leaves alone.
#![tactic(auto, using(crate::proofs::Layers::forked))]

ghost use Rattle.std.specs.Prelude.{◌≡◌, ◌++◌, ◌∷◌, T, IfOk};
ghost use Rattle.std.specs.FinMap.{put, is_sorted};
ghost use Rattle.std.specs.FinMap.Entries.{where_key};
ghost use Rattle.kh_pmap.specs.Entries.{entries, held, joined};
ghost use Rattle.kh_pmap.specs.Keyed.{is_other};

use crate::balance::balanced;
use crate::tree::{Tree, fork, share};
use kh_shared::{NoMemory, Shared};
use std::alloc::Global;
use std::cmp::Ordering;

/// The tree with a value at a key. At a key that is there, the key stays.
pub(crate) fn put_in<K: Ord + Drop, V: Drop>(
    alloc: Global,
    tree: &Tree<K, V>,
    key: &Shared<K>,
    value: &Shared<V>,
) -> Result<Tree<K, V>, NoMemory>
    ensures { T (is_sorted K.cmp (entries tree.now))
        → IfOk result (λ t. entries t ≡ put K.cmp (held key.now) (held value.now) (entries tree.now)) }
{
    let Tree::Fork(node) = tree else {
        return fork(alloc, tree, key, value, tree);
    };
    let node = node.as_ref();
    match key.as_ref().cmp(node.key.as_ref()) {
        Ordering::Less => {
            let left = put_in(alloc, &node.left, key, value)?;
            balanced(alloc, &left, &node.key, &node.value, &node.right)
        }
        Ordering::Equal => fork(alloc, &node.left, &node.key, value, &node.right),
        Ordering::Greater => {
            let right = put_in(alloc, &node.right, key, value)?;
            balanced(alloc, &node.left, &node.key, &node.value, &right)
        }
    }
}

/// An entry, and a tree of those behind it.
#[derive(Drop)]
struct First<K, V> {
    key: Shared<K>,
    value: Shared<V>,
    rest: Tree<K, V>,
}

// The first of the entries of two trees with an entry between them.
fn take_first<K: Drop, V: Drop>(
    alloc: Global,
    left: &Tree<K, V>,
    key: &Shared<K>,
    value: &Shared<V>,
    right: &Tree<K, V>,
) -> Result<First<K, V>, NoMemory>
    ensures { IfOk result (λ f. (held f.key, held f.value) ∷ entries f.rest
        ≡ joined left.now (held key.now) (held value.now) right.now) }
{
    let Tree::Fork(node) = left else {
        return Ok(First {
            key: key.share(),
            value: value.share(),
            rest: share(right),
        });
    };
    let node = node.as_ref();
    let first = take_first(alloc, &node.left, &node.key, &node.value, &node.right)?;
    let First {
        key: first_key,
        value: first_value,
        rest: below,
    } = first;
    let rest = balanced(alloc, &below, key, value, right)?;
    Ok(First {
        key: first_key,
        value: first_value,
        rest,
    })
}

// The entries of two trees, one behind the other.
fn appended<K: Drop, V: Drop>(
    alloc: Global,
    left: &Tree<K, V>,
    right: &Tree<K, V>,
) -> Result<Tree<K, V>, NoMemory>
    ensures { IfOk result (λ t. entries t ≡ entries left.now ++ entries right.now) }
{
    let Tree::Fork(node) = right else {
        return Ok(share(left));
    };
    let node = node.as_ref();
    let first = take_first(alloc, &node.left, &node.key, &node.value, &node.right)?;
    balanced(alloc, left, &first.key, &first.value, &first.rest)
}

/// The tree without a key.
pub(crate) fn take_in<K: Ord + Drop, V: Drop>(
    alloc: Global,
    tree: &Tree<K, V>,
    key: &K,
) -> Result<Tree<K, V>, NoMemory>
    ensures { T (is_sorted K.cmp (entries tree.now))
        → IfOk result (λ t. entries t ≡ where_key K.cmp (is_other K.cmp key.now) (entries tree.now)) }
{
    let Tree::Fork(node) = tree else {
        return Ok(Tree::Leaf);
    };
    let node = node.as_ref();
    match key.cmp(node.key.as_ref()) {
        Ordering::Less => {
            let left = take_in(alloc, &node.left, key)?;
            balanced(alloc, &left, &node.key, &node.value, &node.right)
        }
        Ordering::Equal => appended(alloc, &node.left, &node.right),
        Ordering::Greater => {
            let right = take_in(alloc, &node.right, key)?;
            balanced(alloc, &node.left, &node.key, &node.value, &right)
        }
    }
}
