// The entries of a map, one after another.
ghost use Rattle.std.specs.Prelude.{◌≡◌};
ghost use Rattle.std.specs.Map.Iter.{deref_pair};
ghost use Rattle.std.specs.Iterator.{YieldsFirstBy, item_count};

use crate::map::PMap;
use std::marker::Model;

/// The entries of a map by rising keys. It is seen as the list of those that are left.
#[derive(Drop)]
pub struct Iter<'a, K: Ord, V> {
    map: &'a PMap<K, V>,
    next: Option<(&'a K, &'a V)>,
}

impl<'a, K: Ord, V> Model for Iter<'a, K, V> {
    ghost use Rattle.std.specs.Prelude.{List};

    ghost Value = { List (K × V) };

    ghost use Rattle.std.specs.Option.{option_map};
    ghost use Rattle.std.specs.Map.Iter.{deref_pair};
    ghost use Rattle.kh_pmap.specs.Keyed.{entries_from};

    ghost view = { λ a. entries_from K.cmp (option_map deref_pair a.next) a.map.now };
}

impl<'a, K: Ord, V> Iter<'a, K, V> {
    // All entries of a map.
    pub(crate) fn over(map: &'a PMap<K, V>) -> Iter<'a, K, V>
        ensures { result ≡ map.now }
    {
        Iter {
            map,
            next: map.first(),
        }
    }
}

impl<'a, K: Ord, V> Iterator for Iter<'a, K, V> {
    type Item = (&'a K, &'a V);

    ghost next_gives = { YieldsFirstBy deref_pair (λ left. left) };

    ghost remaining = { item_count (λ left. left) };

    fn next(&mut self) -> Option<(&'a K, &'a V)> {
        let (key, value) = self.next?;
        self.next = self.map.next_after(key);
        Some((key, value))
    }
}
