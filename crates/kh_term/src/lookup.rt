//! Keys among pairs.
ghost use Rattle.std.specs.Prelude.{◌≡◌, IfSome};
ghost use Rattle.std.specs.Option.{option_copied};
ghost use Rattle.kh_term.specs.Lookup.{IsPlaceOf, value_at};
ghost use Rattle.kh_term.specs.WellFormed.{ArePairs, IsTerm};

use crate::comparing::tree_cmp;
use crate::term::Term;
use crate::tree::TermTree;

/// The place of a key among pairs; else, as an error, the place at which it would stand.
pub fn place_of_key(pairs: &[(TermTree, TermTree)], key: &Term) -> Result<usize, usize>
    requires { ArePairs pairs.now }
    ensures { IsPlaceOf key.now.node pairs.now result }
{
    pairs.binary_search_by(|pair| tree_cmp(&pair.0, &key.node))
}

/// The value beside a key.
pub fn value_of_key<'a>(pairs: &'a [(TermTree, TermTree)], key: &Term) -> Option<&'a TermTree>
    requires { ArePairs pairs.now }
    ensures value { option_copied result ≡ value_at key.now.node pairs.now }
    ensures fits { IfSome result (λ value. IsTerm value.now) }
{
    match place_of_key(pairs, key) {
        Ok(at) => Some(&pairs[at].1),
        Err(_) => None,
    }
}
