// Trees whose two sides differ by at most one in height, made of two sides that differ by at most two.
ghost use Rattle.std.specs.Prelude.{◌≡◌, IfOk};
ghost use Rattle.kh_pmap.specs.Entries.{entries, held, joined};

use crate::tree::{Tree, fork, height};
use kh_shared::{NoMemory, Shared};
use std::alloc::Global;

/// `fork`, after a turn where one side is two higher than the other.
pub(crate) fn balanced<K: Drop, V: Drop>(
    alloc: Global,
    left: &Tree<K, V>,
    key: &Shared<K>,
    value: &Shared<V>,
    right: &Tree<K, V>,
) -> Result<Tree<K, V>, NoMemory>
    ensures { IfOk result (λ t. entries t ≡ joined left.now (held key.now) (held value.now) right.now) }
{
    let (left_height, right_height) = (height(left), height(right));
    if left_height > right_height.saturating_add(1) {
        turned_right(alloc, left, key, value, right)
    } else if right_height > left_height.saturating_add(1) {
        turned_left(alloc, left, key, value, right)
    } else {
        fork(alloc, left, key, value, right)
    }
}

// The left side is the higher one: its root, or the root of its right side, comes up.
fn turned_right<K: Drop, V: Drop>(
    alloc: Global,
    left: &Tree<K, V>,
    key: &Shared<K>,
    value: &Shared<V>,
    right: &Tree<K, V>,
) -> Result<Tree<K, V>, NoMemory>
    ensures { IfOk result (λ t. entries t ≡ joined left.now (held key.now) (held value.now) right.now) }
{
    let Tree::Fork(node) = left else {
        return fork(alloc, left, key, value, right);
    };
    let node = node.as_ref();
    match &node.right {
        Tree::Fork(inner) if height(&node.left) < height(&node.right) => {
            let inner = inner.as_ref();
            let low = fork(alloc, &node.left, &node.key, &node.value, &inner.left)?;
            let high = fork(alloc, &inner.right, key, value, right)?;
            fork(alloc, &low, &inner.key, &inner.value, &high)
        }
        _ => {
            let high = fork(alloc, &node.right, key, value, right)?;
            fork(alloc, &node.left, &node.key, &node.value, &high)
        }
    }
}

// The right side is the higher one.
fn turned_left<K: Drop, V: Drop>(
    alloc: Global,
    left: &Tree<K, V>,
    key: &Shared<K>,
    value: &Shared<V>,
    right: &Tree<K, V>,
) -> Result<Tree<K, V>, NoMemory>
    ensures { IfOk result (λ t. entries t ≡ joined left.now (held key.now) (held value.now) right.now) }
{
    let Tree::Fork(node) = right else {
        return fork(alloc, left, key, value, right);
    };
    let node = node.as_ref();
    match &node.left {
        Tree::Fork(inner) if height(&node.right) < height(&node.left) => {
            let inner = inner.as_ref();
            let low = fork(alloc, left, key, value, &inner.left)?;
            let high = fork(alloc, &inner.right, &node.key, &node.value, &node.right)?;
            fork(alloc, &low, &inner.key, &inner.value, &high)
        }
        _ => {
            let low = fork(alloc, left, key, value, &node.left)?;
            fork(alloc, &low, &node.key, &node.value, &node.right)
        }
    }
}
