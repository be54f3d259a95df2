// Writing entries, and making the nodes above a path.
ghost use Rattle.std.specs.Prelude.{◌≡◌, ◌+◌, ◌-◌, ◌≤◌, length, None, IfOk, IfErr, OnOk, OnErr};
ghost use Rattle.std.specs.FinMap.{find, put};
ghost use Rattle.kh_term.specs.Name.{path_cmp};
ghost use Rattle.kh_tree.specs.declared.payload.Payload.TheVariants.{Empty};
ghost use Rattle.kh_tree.specs.Entries.{Counts, IsMade, nodes_of, none_to_come};
ghost use Rattle.kh_tree.specs.Nodes.{AreWithin, node_count};
ghost use Rattle.kh_tree.specs.Writes.{Refused, added, missing};

use crate::entry::Entry;
use crate::error::TreeError;
use crate::payload::Payload;
use crate::tree::{MOST_NODES, MOST_VERSION, Map};
use kh_shared::NoMemory;
use kh_term::{Path, Steps};
use std::alloc::Global;
use std::sync::ledger::Ledger;

/// The map with an entry at a path, which is one step.
pub(crate) fn put<S: Drop, L: Ledger>(
    map: &Map<S>,
    path: Path,
    entry: Entry<S>,
    steps: &mut Steps<L>,
) -> Result<Map<S>, NoMemory>
    ensures put { IfOk result (λ new. new ≡ put path_cmp path entry map.now) }
    ensures step { steps.new ≡ steps.old + 1 }
{
    steps.tick();
    map.with(path, entry)
}

/// The map in which the node above a missing path is there, with that one child more. The nodes that are
/// missing above it are made, from the shortest path on. `to` is the number of names of the last path to be
/// made: where there isn't room for all of them, or a version would be too great, nothing is written.
pub(crate) fn with_parents<S: Drop, L: Ledger>(
    alloc: Global,
    map: &Map<S>,
    path: &Path,
    to: usize,
    steps: &mut Steps<L>,
) -> Result<Map<S>, TreeError>
    requires kept { Counts map.now none_to_come }
    requires missing { find path_cmp path.now map.now ≡ None }
    requires length { length path.now ≤ to }
    requires short { to ≤ 32 }
    ensures made { IfOk result (λ new. IsMade new map.now path.now to) }
    ensures full { IfErr result (λ e. Refused e (AreWithin (added (nodes_of map.now) path.now Empty)
        (node_count (nodes_of map.now) + missing (nodes_of map.now) path.now + (to - length path.now)))) }
    ensures steps_ok { OnOk result (steps.new ≡ steps.old + missing (nodes_of map.now) path.now) }
    ensures steps_err { OnErr result (steps.new ≤ steps.old + missing (nodes_of map.now) path.now) }
{
    let above = path.front(alloc, path.len() - 1)?;
    match map.get(&above) {
        Some(entry) => {
            let nodes = map.len() as u64 + (to - path.len()) as u64;
            if nodes > MOST_NODES || entry.child_list_version >= MOST_VERSION {
                return Err(TreeError::StoreFull);
            }
            Ok(put(map, above, entry.with_child(), steps)?)
        }
        None => {
            let map = with_parents(alloc, map, &above, to, steps)?;
            let entry = Entry::new(alloc, Payload::Empty, 1)?;
            Ok(put(&map, above, entry, steps)?)
        }
    }
}
