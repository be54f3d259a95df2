// Owners and versions of a tree that go in every order, a count that fills, and two places with one
// value: run them too with an allocation refused.
ghost use Rattle.std.specs.Prelude.{◌≡◌};

use crate::parts::Parts;
use crate::{NoMemory, Shared};
use std::alloc::Global;
use std::process::Abort;
use std::rc::Rc;

// A map as a tree without balance, whose versions share what they have in common.
#[cycle(tree)]
#[derive(Drop)]
enum Tree<K, V> {
    Leaf,
    Fork(Shared<Node<K, V>>),
}

#[cycle(tree)]
#[derive(Drop)]
struct Node<K, V> {
    left: Tree<K, V>,
    key: K,
    value: V,
    right: Tree<K, V>,
}

impl<K, V> Tree<K, V> {
    fn share(&self) -> Tree<K, V>
        ensures { result ≡ self.now }
    {
        match self {
            Tree::Leaf => Tree::Leaf,
            Tree::Fork(node) => Tree::Fork(node.share()),
        }
    }

    fn root(&self) -> Option<(&K, &V)> {
        match self {
            Tree::Leaf => None,
            Tree::Fork(node) => {
                let node = node.as_ref();
                Some((&node.key, &node.value))
            }
        }
    }
}

// A version with one key more, below which the older one stands.
fn above<K: Drop, V: Drop>(
    alloc: Global,
    older: &Tree<K, V>,
    key: K,
    value: V,
) -> Result<Tree<K, V>, NoMemory> {
    let left = older.share();
    let right = Tree::Leaf;
    Ok(Tree::Fork(Shared::new(
        alloc,
        Node {
            left,
            key,
            value,
            right,
        },
    )?))
}

// A value whose owners outside are counted, so that its drops are seen.
fn noted(rt: &impl Abort, alloc: Global) -> Rc<u32> {
    match Rc::new(alloc, 7) {
        Ok(note) => note,
        Err(_) => match Rc::new(alloc, 7) {
            Ok(note) => note,
            Err(_) => panic!(rt; "memory is refused once"),
        },
    }
}

fn again(rt: &impl Abort, note: &Rc<u32>) -> Rc<u32> {
    note.clone().expect(rt, "the count of the note has room")
}

// A first owner. Where memory is refused, the value is dropped.
fn first(rt: &impl Abort, alloc: Global, note: &Rc<u32>) -> Shared<Rc<u32>> {
    let before = Rc::strong_count(note);
    match Shared::new(alloc, again(rt, note)) {
        Ok(shared) => shared,
        Err(NoMemory) => {
            assert_eq!(rt; Rc::strong_count(note), before);
            Shared::new(alloc, again(rt, note)).expect(rt, "memory is refused once")
        }
    }
}

fn version(
    rt: &impl Abort,
    alloc: Global,
    older: &Tree<u32, Rc<u32>>,
    note: &Rc<u32>,
) -> Tree<u32, Rc<u32>> {
    match above(alloc, older, 1, again(rt, note)) {
        Ok(tree) => tree,
        Err(NoMemory) => {
            above(alloc, older, 1, again(rt, note)).expect(rt, "memory is refused once")
        }
    }
}

// A pointer with a count of 2^64 - 3, of whose owners all but one are forgotten.
fn nearly_full(alloc: Global, note: Rc<u32>) -> Result<Shared<Rc<u32>>, NoMemory> {
    let count = Box::new(alloc, usize::MAX - 2)?;
    let value = Box::new(alloc, note)?;
    Ok(Shared::of_counted(Parts::of(count), Parts::of(value)))
}

fn ordered<T>(order: usize, a: T, b: T, c: T) -> (T, T, T) {
    match order {
        0 => (a, b, c),
        1 => (a, c, b),
        2 => (b, a, c),
        3 => (b, c, a),
        4 => (c, a, b),
        _ => (c, b, a),
    }
}

#[test]
fn the_last_of_three_owners_drops_the_value(rt: HostRuntime) {
    for order in 0..6 {
        let note = noted(&rt, rt.alloc());
        let one = first(&rt, rt.alloc(), &note);
        let (a, b, c) = ordered(order, one.share(), one.share(), one);
        drop(a);
        drop(b);
        assert_eq!(rt; **c.as_ref(), 7);
        assert_eq!(rt; Rc::strong_count(&note), 2);
        drop(c);
        assert_eq!(rt; Rc::strong_count(&note), 1);
    }
}

#[test]
fn versions_go_in_every_order(rt: HostRuntime) {
    let left = [[4, 3], [4, 3], [3, 3], [3, 2], [3, 3], [3, 2]];
    for (order, counts) in left.iter().enumerate() {
        let note = noted(&rt, rt.alloc());
        let below = version(&rt, rt.alloc(), &Tree::Leaf, &note);
        let second = version(&rt, rt.alloc(), &below, &note);
        let third = version(&rt, rt.alloc(), &below, &note);
        let (a, b, c) = ordered(order, below, second, third);
        drop(a);
        assert_eq!(rt; Rc::strong_count(&note), counts[0]);
        drop(b);
        assert_eq!(rt; Rc::strong_count(&note), counts[1]);
        assert!(rt; c.root().is_some());
        drop(c);
        assert_eq!(rt; Rc::strong_count(&note), 1);
    }
}

#[test]
fn a_full_count_keeps_the_value_for_good(rt: HostRuntime) {
    for order in 0..6 {
        let note = noted(&rt, rt.alloc());
        let first = match nearly_full(rt.alloc(), again(&rt, &note)) {
            Ok(first) => first,
            Err(NoMemory) => {
                nearly_full(rt.alloc(), again(&rt, &note)).expect(&rt, "memory is refused once")
            }
        };
        let second = first.share();
        let fills = second.share();
        let beyond = fills.share();
        let (a, b, c) = ordered(order, second, fills, beyond);
        drop(a);
        drop(b);
        drop(c);
        assert_eq!(rt; **first.as_ref(), 7);
        drop(first);
        assert_eq!(rt; Rc::strong_count(&note), 2);
    }
}

#[test]
fn a_share_lies_at_the_same_place(rt: HostRuntime) {
    let note = noted(&rt, rt.alloc());
    let one = first(&rt, rt.alloc(), &note);
    let other = first(&rt, rt.alloc(), &note);
    assert!(rt; one.same_place(&one.share()));
    assert!(rt; one.same_place(&one));
    assert!(rt; !one.same_place(&other));
}

#[test]
fn a_refusal_says_why(rt: HostRuntime) {
    let shown = match format!(in rt.alloc(); "{}", NoMemory) {
        Ok(shown) => shown,
        Err(_) => format!(in rt.alloc(); "{}", NoMemory).expect(&rt, "memory is refused once"),
    };
    assert_eq!(rt; shown.as_str(), "out of memory");
}
