// The map.
ghost use Rattle.std.specs.Prelude.{◌≡◌, ◌+◌, ◌-◌, [], T, length, slice_get, IfOk, IfSome};
ghost use Rattle.std.specs.Option.{option_copied, option_map};
ghost use Rattle.std.specs.Map.Iter.{deref_pair};
ghost use Rattle.std.specs.FinMap.{find, put, is_sorted};
ghost use Rattle.std.specs.FinMap.Entries.{where_key};
ghost use Rattle.kh_pmap.specs.Keyed.{first_above, is_other};

use crate::change::{put_in, take_in};
use crate::iter::Iter;
use crate::search::{find_in, first_in, last_in, next_in};
use crate::tree::{Tree, share};
use kh_shared::{NoMemory, Shared};
use std::alloc::Global;
use std::marker::Model;

/// A map from keys to values. It is never changed: a call that puts or takes an entry answers a
/// newer map, which shares with the older one all that the way to the entry leaves alone.
#[derive(Drop)]
pub struct PMap<K: Ord, V> {
    root: Tree<K, V>,
    len: usize,
    alloc: Global,
}

impl<K: Ord, V> Model for PMap<K, V> {
    ghost use Rattle.std.specs.Prelude.{List};

    ghost Value = { List (K × V) };

    ghost use Rattle.kh_pmap.specs.Entries.{entries, IsMap};

    ghost view = { λ a. entries a.root };

    ghost invariant = { λ a. IsMap K.cmp a.root a.len };
}

impl<K: Ord, V> PMap<K, V> {
    /// A map without entries, which takes no memory.
    pub fn new(alloc: Global) -> PMap<K, V>
        ensures { result ≡ [] }
    {
        PMap {
            root: Tree::Leaf,
            len: 0,
            alloc,
        }
    }

    /// The number of entries.
    pub fn len(&self) -> usize
        ensures entries { result ≡ length self.now }
        ensures rises { T (is_sorted K.cmp self.now) }
    {
        self.len
    }

    /// The value of a key, or `None` where it isn't there.
    pub fn get(&self, key: &K) -> Option<&V>
        ensures value { option_copied result ≡ find K.cmp key.now self.now }
        ensures rises { T (is_sorted K.cmp self.now) }
    {
        find_in(&self.root, key)
    }

    /// The entry with the least key that is greater than `key`, or `None` where none is.
    pub fn next_after(&self, key: &K) -> Option<(&K, &V)>
        ensures entry { option_map deref_pair result ≡ first_above K.cmp key.now self.now }
        ensures rises { T (is_sorted K.cmp self.now) }
    {
        next_in(&self.root, key)
    }

    /// The entry with the least key, or `None` where there is none.
    pub fn first(&self) -> Option<(&K, &V)>
        ensures entry { option_map deref_pair result ≡ slice_get self.now 0 }
        ensures rises { T (is_sorted K.cmp self.now) }
    {
        first_in(&self.root)
    }

    /// The entry with the greatest key, or `None` where there is none.
    pub fn last(&self) -> Option<(&K, &V)>
        ensures entry { option_map deref_pair result ≡ slice_get self.now (length self.now - 1) }
        ensures rises { T (is_sorted K.cmp self.now) }
    {
        last_in(&self.root)
    }

    /// The entries by rising keys.
    pub fn iter(&self) -> Iter<'_, K, V>
        ensures { result ≡ self.now }
    {
        Iter::over(self)
    }

    /// The same map for one more owner. It takes no memory and always succeeds.
    pub fn share(&self) -> PMap<K, V>
        ensures { result ≡ self.now }
    {
        PMap {
            root: share(&self.root),
            len: self.len,
            alloc: self.alloc,
        }
    }

    /// The tree, whose balance tests look at.
    #[cfg(test)]
    pub(crate) fn root(&self) -> &Tree<K, V> {
        &self.root
    }

    // The number of entries once the key is there, unless that is more than a `usize` counts.
    fn len_with(&self, key: &K) -> Option<usize>
        ensures { IfSome result (λ n. (value : V) → n ≡ length (put K.cmp key.now value self.now)) }
    {
        match self.get(key) {
            Some(_) => Some(self.len),
            None => self.len.checked_add(1),
        }
    }
}

impl<K: Ord + Drop, V: Drop> PMap<K, V> {
    /// The map with `value` at `key`. Where the key was there, the key stays and its value is new.
    /// It takes the memory of one way down.
    pub fn with(&self, key: K, value: V) -> Result<PMap<K, V>, NoMemory>
        ensures { IfOk result (λ map. map ≡ put K.cmp key value self.now) }
    {
        let Some(len) = self.len_with(&key) else {
            return Err(NoMemory);
        };
        let key = Shared::new(self.alloc, key)?;
        let value = Shared::new(self.alloc, value)?;
        let root = put_in(self.alloc, &self.root, &key, &value)?;
        Ok(PMap {
            root,
            len,
            alloc: self.alloc,
        })
    }

    /// The map without `key`. It takes the memory of one way down, and none where the key isn't
    /// there.
    pub fn without(&self, key: &K) -> Result<PMap<K, V>, NoMemory>
        ensures { IfOk result (λ map. map ≡ where_key K.cmp (is_other K.cmp key.now) self.now) }
    {
        if self.get(key).is_none() {
            return Ok(self.share());
        }
        let root = take_in(self.alloc, &self.root, key)?;
        Ok(PMap {
            root,
            len: self.len - 1,
            alloc: self.alloc,
        })
    }
}
