//! The tree of nodes.
ghost use Rattle.std.specs.Prelude.{◌≡◌, IfOk, IfSome, is_some};
ghost use Rattle.std.specs.BTreeMap.{insert_entry};
ghost use Rattle.kh_term.specs.Name.{path_cmp};
ghost use Rattle.kh_store.specs.Tree.{root, node_at, parents_of, with_node, with_nodes, put, fits, has_room};

use kh_pmap::PMap;
use kh_term::{NoMemory, Path};
use std::alloc::Global;
use std::marker::Model;

/// How many nodes a tree may have, without the root.
const NODE_LIMIT: usize = 200_000;

type Nodes = PMap<Path, Option<i128>>;

/// The nodes, each with an integer as its data or with none. The root is always there, and so is each parent of a node.
/// A tree is never changed: a put answers a newer one, and the older stays as it was.
#[derive(Drop)]
pub struct Tree {
    alloc: Global,
    nodes: Nodes,
}

impl Model for Tree {
    ghost use Rattle.std.specs.Prelude.{List, Option, ℤ};
    ghost use Rattle.std.specs.Coded.{coded_list, coded×};
    ghost use Rattle.kh_term.specs.declared.name.Name.{Name};

    ghost Value = { List (List Name × Option ℤ) };

    ghost view = { λ tree. tree.nodes };
}

impl Tree {
    /// The root alone.
    pub fn new(alloc: Global) -> Result<Tree, NoMemory>
        ensures { IfOk result (λ tree. tree ≡ root) }
    {
        let mut nodes = PMap::new(alloc);
        let names = Vec::new(alloc);
        if let Some(path) = Path::new(names) {
            nodes = with_entry(&nodes, path, None)?;
        }
        Ok(Tree { alloc, nodes })
    }

    /// The data of the node at a path, or none, where there is a node.
    #[tactic(auto, using(crate::proofs::Putting::as_find))]
    pub fn get(&self, path: &Path) -> Option<Option<i128>>
        ensures { result ≡ node_at self.now path.now }
    {
        self.nodes.get(path).copied()
    }

    /// The tree with this data at a path. The nodes above it that aren't there are made, without data.
    /// None where there is no room for them.
    pub fn with_put(&self, path: Path, number: i128) -> Result<Option<Tree>, NoMemory>
        ensures room { IfOk result (λ made. is_some made ≡ has_room self.now path number) }
        ensures made { IfOk result (λ made. IfSome made (λ tree. tree ≡ put self.now path number)) }
    {
        let nodes = with_parents(self.alloc, &self.nodes, &path)?;
        let nodes = with_entry(&nodes, path, Some(number))?;
        if !fits(&nodes) {
            return Ok(None);
        }
        Ok(Some(Tree {
            alloc: self.alloc,
            nodes,
        }))
    }
}

// Whether there are no more nodes than there may be.
fn fits(nodes: &Nodes) -> bool
    ensures { result ≡ fits nodes.now }
{
    nodes.len() <= NODE_LIMIT + 1
}

// The nodes with this at a path.
#[tactic(auto, using(crate::proofs::Putting::as_put))]
fn with_entry(nodes: &Nodes, path: Path, value: Option<i128>) -> Result<Nodes, NoMemory>
    ensures { IfOk result (λ new. new ≡ insert_entry path_cmp nodes.now path value) }
{
    match nodes.with(path, value) {
        Ok(new) => Ok(new),
        Err(_) => Err(NoMemory),
    }
}

// The nodes with one at a path, without data where there was none.
#[tactic(auto, using(crate::proofs::Putting::as_find))]
fn with_node(nodes: &Nodes, path: Path) -> Result<Nodes, NoMemory>
    ensures { IfOk result (λ new. new ≡ with_node nodes.now path) }
{
    match nodes.get(&path) {
        Some(_) => Ok(nodes.share()),
        None => with_entry(nodes, path, None),
    }
}

// The nodes with one at each path above this, without data where there was none.
#[tactic(auto, using(crate::proofs::Putting::with_nodes_behind))]
fn with_parents(alloc: Global, nodes: &Nodes, path: &Path) -> Result<Nodes, NoMemory>
    ensures { IfOk result (λ new. new ≡ with_nodes nodes.now (parents_of path.now)) }
{
    let mut all = nodes.share();
    for len in 0..path.len() {
        all = with_node(&all, path.front(alloc, len)?)?;
    }
    Ok(all)
}
