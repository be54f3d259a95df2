// Looking for entries. Where keys rise, a key less than a node's is on its left, a greater one on its right.
ghost use Rattle.std.specs.Prelude.{◌≡◌, ◌-◌, T, length, slice_get};
ghost use Rattle.std.specs.Option.{option_copied, option_map};
ghost use Rattle.std.specs.Map.Iter.{deref_pair};
ghost use Rattle.std.specs.FinMap.{find, is_sorted};
ghost use Rattle.kh_pmap.specs.Entries.{entries};
ghost use Rattle.kh_pmap.specs.Keyed.{first_above};

use crate::tree::Tree;
use std::cmp::Ordering;

/// The value of a key.
pub(crate) fn find_in<'a, K: Ord, V>(tree: &'a Tree<K, V>, key: &K) -> Option<&'a V>
    ensures { T (is_sorted K.cmp (entries tree.now)) → option_copied result ≡ find K.cmp key.now (entries tree.now) }
{
    match tree {
        Tree::Leaf => None,
        Tree::Fork(node) => {
            let node = node.as_ref();
            match key.cmp(node.key.as_ref()) {
                Ordering::Less => find_in(&node.left, key),
                Ordering::Equal => Some(node.value.as_ref()),
                Ordering::Greater => find_in(&node.right, key),
            }
        }
    }
}

/// The entry with the least key that is greater than `key`.
pub(crate) fn next_in<'a, K: Ord, V>(tree: &'a Tree<K, V>, key: &K) -> Option<(&'a K, &'a V)>
    ensures { T (is_sorted K.cmp (entries tree.now)) → option_map deref_pair result ≡ first_above K.cmp key.now (entries tree.now) }
{
    match tree {
        Tree::Leaf => None,
        Tree::Fork(node) => {
            let node = node.as_ref();
            match key.cmp(node.key.as_ref()) {
                Ordering::Less => match next_in(&node.left, key) {
                    None => Some((node.key.as_ref(), node.value.as_ref())),
                    found => found,
                },
                _ => next_in(&node.right, key),
            }
        }
    }
}

/// The entry that stands first.
pub(crate) fn first_in<K, V>(tree: &Tree<K, V>) -> Option<(&K, &V)>
    ensures { option_map deref_pair result ≡ slice_get (entries tree.now) 0 }
{
    match tree {
        Tree::Leaf => None,
        Tree::Fork(node) => {
            let node = node.as_ref();
            match first_in(&node.left) {
                None => Some((node.key.as_ref(), node.value.as_ref())),
                found => found,
            }
        }
    }
}

/// The entry that stands last.
pub(crate) fn last_in<K, V>(tree: &Tree<K, V>) -> Option<(&K, &V)>
    ensures { option_map deref_pair result ≡ slice_get (entries tree.now) (length (entries tree.now) - 1) }
{
    match tree {
        Tree::Leaf => None,
        Tree::Fork(node) => {
            let node = node.as_ref();
            match last_in(&node.right) {
                None => Some((node.key.as_ref(), node.value.as_ref())),
                found => found,
            }
        }
    }
}
