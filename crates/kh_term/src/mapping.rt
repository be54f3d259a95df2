//! Maps from pairs in any order.
ghost use Rattle.std.specs.Prelude.{◌≡◌, IfOk};
ghost use Rattle.kh_term.specs.MapOf.{map_of, trees_of};

use crate::memory::NoMemory;
use crate::term::{Pairs, Term};
use sqlite_items::Items;
use std::alloc::Global;
use std::collections::BTreeMap;

/// The keys and values of a map from pairs in any order; of equal keys the last counts.
#[tactic(auto, using(crate::proofs::MapRead::map_read))]
pub fn pairs_of(alloc: Global, all: Vec<(Term, Term)>) -> Result<Pairs, NoMemory>
    ensures { IfOk result (λ pairs. pairs.nodes ≡ map_of (trees_of all.items)) }
{
    let mut kept = BTreeMap::new(alloc);
    for (key, value) in all {
        kept.insert(key, value)?;
    }
    in_order(alloc, kept)
}

// The entries of an ordered map, which stand by rising keys.
#[tactic(auto, using(crate::proofs::MapRead::pairs_fit))]
fn in_order(alloc: Global, kept: BTreeMap<Term, Term>) -> Result<Pairs, NoMemory>
    ensures { IfOk result (λ pairs. pairs.nodes ≡ trees_of kept.entries) }
{
    let mut nodes = Items::new(alloc);
    for (key, value) in kept {
        let Term { node: key } = key;
        let Term { node: value } = value;
        nodes.push((key, value))?;
    }
    Ok(Pairs { nodes })
}
