// What follows from the definitions.
ghost use Rattle.kh_pmap.specs.Keyed.{FirstIsLeast};

/// Where keys rise, the first entry above a key is the one with the least greater key, and where
/// none is found no key is greater.
pub fn first_is_least<K: Ord, V>()
    ensures { FirstIsLeast K.cmp V }
{}
