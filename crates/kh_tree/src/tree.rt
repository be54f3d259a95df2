// The tree.
ghost use Rattle.std.specs.Prelude.{◌≡◌, ◌+◌, ◌≤◌, ◌<◌, ◌^◌, false, length, is_some, MatchOption, IfOk, IfErr, OnOk, OnErr, IsTrue};
ghost use Rattle.std.specs.FinMap.{get, contains_key};
ghost use Rattle.std.specs.Option.{option_copied, option_map};
ghost use Rattle.kh_tree.specs.Entries.{Counts, node_of, nodes_of, none_to_come};
ghost use Rattle.kh_tree.specs.Node.{payload_weight, shown};
ghost use Rattle.kh_tree.specs.Nodes.{AreWithin, IsTree, IsNext, NoneNext, Reads, last_name, node_count, view_of};
ghost use Rattle.kh_tree.specs.Writes.{Refused, added, missing, root_alone, written};

use crate::add::{put, with_parents};
use crate::entry::Entry;
use crate::error::TreeError;
use crate::payload::Payload;
use kh_pmap::{PMap, first_is_least};
use kh_term::{Name, NoMemory, NodeView, Path, Steps, Weight};
use std::alloc::Global;
use std::marker::Model;
use std::sync::ledger::Ledger;

/// The most nodes of a tree, beside the root.
pub const MOST_NODES: u64 = 200_000;

/// The greatest version of a node.
pub const MOST_VERSION: u64 = 1 << 62;

/// Entries by their paths.
pub(crate) type Map<S> = PMap<Path, Entry<S>>;

/// Nodes by their paths. The root is always there and holds nothing, and so is the parent of each other
/// node. A tree is never changed: a write answers a newer one.
#[derive(Drop)]
pub struct Tree<S> {
    map: Map<S>,
    alloc: Global,
}

impl<S> Model for Tree<S> {
    ghost use Rattle.std.specs.FinMap.{FinMap, code};
    ghost use Rattle.std.specs.Coded.{coded_list};
    ghost use Rattle.kh_term.specs.contracts.name.Name as name;
    ghost use Rattle.kh_term.specs.Name.{path_cmp};
    ghost use Rattle.kh_term.specs.contracts.term.Term as term;
    ghost use Rattle.kh_tree.specs.Node.{Node, node_code, payload_code};
    ghost use Rattle.kh_tree.specs.Entries.{Counts, node_of, nodes_of, none_to_come};

    ghost Value = { FinMap path_cmp (Node S) };

    ghost coded = { code (coded_list name.the_row.coded) (node_code (payload_code term.the_row.coded S.code)) };

    ghost view = { λ t. nodes_of t.map };

    ghost invariant = { λ t. Counts t.map none_to_come };
}

impl<S> Tree<S> {
    /// The number of nodes beside the root.
    pub fn node_count(&self) -> u64
        ensures { result ≡ node_count self.now }
    {
        self.map.len() as u64 - 1
    }

    /// A node as conditions see it, with a copy of its data, or `None` where there is none.
    pub fn view(&self, path: &Path) -> Result<Option<NodeView>, NoMemory>
        ensures { IfOk result (λ view. view ≡ view_of self.now path.now) }
    {
        match self.map.get(path) {
            Some(entry) => Ok(Some(view_of_entry(self.alloc, path, entry)?)),
            None => Ok(None),
        }
    }

    /// The payload of a node, or `None` where there is no node.
    pub fn payload(&self, path: &Path) -> Option<&Payload<S>>
        ensures payload { option_copied result ≡ option_map (λ n. n.payload) (get self.now path.now) }
        ensures node { is_some result ≡ contains_key self.now path.now }
    {
        match self.map.get(path) {
            Some(entry) => Some(entry.payload.as_ref()),
            None => None,
        }
    }

    /// The path of the node with the least greater path, or `None` where there is none. No node has to
    /// stand at the path asked. So a walk over all nodes begins at the root.
    pub fn next_after(&self, path: &Path) -> Option<&Path>
        ensures { MatchOption (option_copied result) (NoneNext self.now path.now) (IsNext self.now path.now) }
    {
        first_is_least::<Path, Entry<S>>();
        match self.map.next_after(path) {
            Some((next, _)) => Some(next),
            None => None,
        }
    }

    /// The root is there, the parent of each other node is there, and all is within the limits. The function has no code.
    pub fn parents_stand(&self)
        ensures { IsTree self.now }
    {
        let _map = &self.map;
    }

    /// The same tree for one more owner. It takes no memory and always succeeds.
    pub fn share(&self) -> Tree<S>
        ensures { result ≡ self.now }
    {
        Tree {
            map: self.map.share(),
            alloc: self.alloc,
        }
    }
}

impl<S: Weight + Eq + Drop> Tree<S> {
    /// The tree of the root alone.
    pub fn new(alloc: Global) -> Result<Tree<S>, NoMemory>
        ensures { IfOk result (λ tree. Reads tree root_alone) }
    {
        let root = root_map(alloc)?;
        Ok(Tree { map: root, alloc })
    }

    /// The tree with another payload at a node, which isn't the root. The payload version is one more where
    /// the payload differs from the one that was there. Both `NoMemory` and `StoreFull` leave this tree as it is.
    pub fn set_payload<L: Ledger>(
        &self,
        path: &Path,
        payload: Payload<S>,
        steps: &mut Steps<L>,
    ) -> Result<Tree<S>, TreeError>
        requires node { IsTrue (contains_key self.now path.now) }
        requires below_root { 0 < length path.now }
        requires weight { payload_weight S.weight_of payload < 2 ^ 40 }
        ensures ok { IfOk result (λ tree. Reads tree (written S.eq self.now path.now payload)) }
        ensures room { OnOk result (AreWithin (written S.eq self.now path.now payload) (node_count self.now)) }
        ensures full { IfErr result (λ e. Refused e
            (AreWithin (written S.eq self.now path.now payload) (node_count self.now))) }
        ensures steps_ok { OnOk result (steps.new ≡ steps.old + 1) }
        ensures steps_err { OnErr result (steps.new ≤ steps.old + 1) }
    {
        match self.map.get(path) {
            Some(entry) => {
                let entry = entry.with_payload(self.alloc, payload)?;
                let path = path.copy(self.alloc)?;
                let map = put(&self.map, path, entry, steps)?;
                Ok(Tree {
                    map,
                    alloc: self.alloc,
                })
            }
            None => unreachable!(),
        }
    }

    /// The tree with a node at a path where there was none, and with the nodes above it that are missing, which hold
    /// nothing. Both `NoMemory` and `StoreFull` leave this tree as it is.
    pub fn add<L: Ledger>(
        &self,
        path: &Path,
        payload: Payload<S>,
        steps: &mut Steps<L>,
    ) -> Result<Tree<S>, TreeError>
        requires missing { contains_key self.now path.now ≡ false }
        requires weight { payload_weight S.weight_of payload < 2 ^ 40 }
        ensures ok { IfOk result (λ tree. Reads tree (added self.now path.now payload)) }
        ensures room { OnOk result (AreWithin (added self.now path.now payload)
            (node_count self.now + missing self.now path.now)) }
        ensures full { IfErr result (λ e. Refused e (AreWithin (added self.now path.now payload)
            (node_count self.now + missing self.now path.now))) }
        ensures steps_ok { OnOk result (steps.new ≡ steps.old + missing self.now path.now + 1) }
        ensures steps_err { OnErr result (steps.new ≤ steps.old + missing self.now path.now + 1) }
    {
        let map = with_parents(self.alloc, &self.map, path, path.len(), steps)?;
        let entry = Entry::new(self.alloc, payload, 0)?;
        let path = path.copy(self.alloc)?;
        let map = put(&map, path, entry, steps)?;
        Ok(Tree {
            map,
            alloc: self.alloc,
        })
    }
}

// A node with its entry, as conditions see it.
fn view_of_entry<S>(alloc: Global, path: &Path, entry: &Entry<S>) -> Result<NodeView, NoMemory>
    ensures { IfOk result (λ view. view ≡ shown (last_name path.now) entry.now.children (node_of entry.now)) }
{
    let payload = entry.payload.as_ref();
    let name = last_name(alloc, path)?;
    let datum = payload.copy_data(alloc)?;
    Ok(NodeView {
        name,
        payload: payload.kind(),
        datum,
        payload_version: entry.payload_version,
        child_list_version: entry.child_list_version,
        children: entry.children,
    })
}

// The last name of a path, which the root has none of.
fn last_name(alloc: Global, path: &Path) -> Result<Option<Name>, NoMemory>
    ensures { IfOk result (λ name. name ≡ last_name path.now) }
{
    match path.names().last() {
        Some(name) => Ok(Some(name.copy(alloc)?)),
        None => Ok(None),
    }
}

// The entry of a root without children.
fn root_map<S: Drop>(alloc: Global) -> Result<Map<S>, NoMemory>
    ensures counts { IfOk result (λ map. Counts map none_to_come) }
    ensures root { IfOk result (λ map. Reads (nodes_of map) root_alone) }
{
    let map = PMap::new(alloc);
    let Some(path) = Path::new(Vec::new(alloc)) else {
        return Err(NoMemory);
    };
    match Entry::new(alloc, Payload::Empty, 0) {
        Ok(entry) => match map.with(path, entry) {
            Ok(map) => Ok(map),
            Err(_) => Err(NoMemory),
        },
        Err(_) => Err(NoMemory),
    }
}
