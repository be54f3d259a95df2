// What no contract says: that memory is enough for maps of many entries, that trees are balanced, and what is left where an
// allocation was refused: run them too with each allocation refused in turn.
use crate::tree::{Tree, height};
use crate::{NoMemory, PMap};
use std::alloc::Global;
use std::process::Abort;
use std::test::Fail;

// How many entries the large maps have.
const MANY: u32 = 100_000;

// Orders of keys: rising, falling, mixed.
const STEPS: [u32; 3] = [1, MANY - 1, 48_271];

type Numbers = PMap<u64, u32>;

// The key at the turn `i` in the order of a step: each key below MANY once.
fn key_at(step: u32, i: u32) -> u64 {
    step as u64 * i as u64 % MANY as u64
}

// `with`, a second time where memory was refused.
fn put(rt: &impl Abort, map: &Numbers, key: u64, value: u32) -> Numbers {
    let before = map.len();
    match map.with(key, value) {
        Ok(newer) => newer,
        Err(NoMemory) => {
            assert_eq!(rt; map.len(), before);
            map.with(key, value).expect(rt, "memory is refused once")
        }
    }
}

// `without`, a second time where memory was refused.
fn take(rt: &impl Abort, map: &Numbers, key: u64) -> Numbers {
    let before = map.len();
    match map.without(&key) {
        Ok(newer) => newer,
        Err(NoMemory) => {
            assert_eq!(rt; map.len(), before);
            map.without(&key).expect(rt, "memory is refused once")
        }
    }
}

// Whether the two sides of each node differ by at most one in height.
fn is_balanced<K, V>(tree: &Tree<K, V>) -> bool {
    match tree {
        Tree::Leaf => true,
        Tree::Fork(node) => {
            let node = node.as_ref();
            let (left, right) = (height(&node.left), height(&node.right));
            left.abs_diff(right) <= 1
                && node.height == left.max(right).saturating_add(1)
                && is_balanced(&node.left)
                && is_balanced(&node.right)
        }
    }
}

// All keys in the order of a step, with a share kept before each.
fn all_put(rt: &impl Abort, alloc: Global, step: u32) -> Numbers {
    let mut map = PMap::new(alloc);
    for i in 0..MANY {
        let key = key_at(step, i);
        let older = map.share();
        map = put(rt, &older, key, i);
        assert_eq!(rt; older.get(&key), None);
        assert_eq!(rt; map.get(&key), Some(&i));
    }
    map
}

// The map without its odd keys, taken in the order of a step.
fn odd_taken(rt: &impl Abort, full: &Numbers, step: u32) -> Numbers {
    let mut map = full.share();
    for i in 0..MANY {
        let key = key_at(step, i);
        if key % 2 == 1 {
            let older = map.share();
            map = take(rt, &older, key);
            assert!(rt; older.get(&key).is_some());
            assert_eq!(rt; map.get(&key), None);
        }
    }
    map
}

// The number behind the last key of a map of the even numbers from 0 on, or the first key that is another.
fn behind_even_keys(map: &Numbers) -> u64 {
    let mut expected = 0u64;
    for (key, _) in map.iter() {
        if *key != expected {
            return *key;
        }
        expected = expected.wrapping_add(2);
    }
    expected
}

#[test]
fn many_keys_come_and_go_in_every_order(rt: HostRuntime) {
    for step in STEPS {
        let full = all_put(&rt, rt.alloc(), step);
        let half = odd_taken(&rt, &full, step);
        assert_eq!(rt; full.len(), MANY as usize);
        assert_eq!(rt; half.len(), MANY as usize / 2);
        assert!(rt; is_balanced(full.root()));
        assert!(rt; is_balanced(half.root()));
        assert_eq!(rt; behind_even_keys(&half), MANY as u64);
    }
}

// The keys of a map in order, read by `next_after`.
fn keys_by_steps(alloc: Global, map: &Numbers) -> Result<Vec<u64>, Fail> {
    let mut keys = Vec::new(alloc);
    let mut next = map.first();
    for _ in 0..map.len() {
        if let Some((key, _)) = next {
            keys.push(*key)?;
            next = map.next_after(key);
        }
    }
    Ok(keys)
}

#[test]
fn each_version_stays_as_it_was(rt: HostRuntime) -> Result<(), Fail> {
    let count = 1000u32;
    let mut versions = Vec::new(rt.alloc());
    let mut map: Numbers = PMap::new(rt.alloc());
    for i in 0..count {
        versions.push(map.share())?;
        map = put(&rt, &map, key_at(48_271, i), i);
    }
    for i in 0..count {
        versions.push(map.share())?;
        map = take(&rt, &map, key_at(48_271, i));
    }
    assert_eq!(rt; map.len(), 0);
    for (i, version) in versions.iter().enumerate() {
        let len = if i < 1000 {
            i
        } else {
            2000usize.saturating_sub(i)
        };
        assert_eq!(rt; version.len(), len);
        assert!(rt; is_balanced(version.root()));
        assert_eq!(rt; version.iter().count(), len);
    }
    Ok(())
}

#[test]
fn entries_at_the_ends_and_between(rt: HostRuntime) -> Result<(), Fail> {
    let none: Numbers = PMap::new(rt.alloc());
    assert_eq!(rt; none.iter().count(), 0);
    assert_eq!(rt; take(&rt, &none, 10).len(), 0);
    let mut map = put(&rt, &none, 10, 0);
    assert_eq!(rt; map.iter().count(), 1);
    for key in [40, 20, 50, 30] {
        map = put(&rt, &map, key, 0);
    }
    let replaced = put(&rt, &map, 30, 7);
    assert_eq!(rt; (replaced.len(), replaced.get(&30)), (5, Some(&7)));
    assert_eq!(rt; map.get(&30), Some(&0));
    for (key, keys) in [
        (10u64, [20u64, 30, 40, 50]),
        (50, [10, 20, 30, 40]),
        (30, [10, 20, 40, 50]),
    ] {
        let taken = take(&rt, &map, key);
        assert_eq!(rt;
            keys_by_steps(rt.alloc(), &taken)?.as_slice(),
            keys.as_slice()
        );
    }
    assert_eq!(rt; take(&rt, &map, 35).len(), 5);
    assert_eq!(rt; map.next_after(&35).map(|(key, _)| *key), Some(40));
    assert_eq!(rt; map.next_after(&50), None);
    assert_eq!(rt; map.last().map(|(key, _)| *key), Some(50));
    Ok(())
}

// A map over keys of any type: a value is put, found, replaced and taken.
fn comes_and_goes<K: Ord + Drop>(
    rt: &impl Abort,
    alloc: Global,
    key: K,
    same: K,
) -> Result<(), NoMemory> {
    let none = PMap::new(alloc);
    let one = none.with(key, 1u8)?;
    let again = one.with(same, 2u8)?;
    assert_eq!(rt; (one.len(), again.len()), (1, 1));
    if let Some((key, value)) = again.first() {
        assert_eq!(rt; *value, 2);
        assert_eq!(rt; one.get(key), Some(&1));
        assert_eq!(rt; again.without(key)?.len(), 0);
    }
    Ok(())
}

#[test]
fn keys_may_own_memory(rt: HostRuntime) -> Result<(), Fail> {
    let alloc = rt.alloc();
    comes_and_goes(
        &rt,
        alloc,
        String::from_str(alloc, "oak")?,
        String::from_str(alloc, "oak")?,
    )?;
    comes_and_goes(&rt, alloc, [1u8, 2].to_vec(alloc)?, [1u8, 2].to_vec(alloc)?)?;
    Ok(())
}
