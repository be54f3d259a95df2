//! The worked rows, whole trees, and the shared map at paths.
ghost use Rattle.std.specs.Prelude.{◌≡◌, ◌<◌, ◌^◌};
ghost use Rattle.kh_tree.specs.Node.{payload_weight};

use crate::{MOST_NODES, Payload, Tree, TreeError};
use kh_pmap::PMap;
use kh_term::{
    Atom, Bytes, Kind, Name, NoMemory, Path, Steps, Term, Weight, int, is_small,
    packed_is_at_most_515_times_size,
};
use std::alloc::Global;
use std::marker::Brand;
use std::process::Abort;
use std::sync::ledger::{Blank, Ledger};
use std::test::Fail;

/// A procedure of the tests.
#[derive(Clone, Copy, Debug, PartialEq, Eq, Drop)]
struct Proc(u32);

impl Weight for Proc {
    ghost weight_of = { λ _. 1 };

    fn weight(&self) -> u64 {
        1
    }
}

type Nodes = Tree<Proc>;

// Data, where they are small enough to be kept.
fn data(term: Term) -> Payload<Proc>
    ensures { payload_weight ⟦<Proc as Weight>⟧.weight_of result < 2 ^ 40 }
{
    packed_is_at_most_515_times_size();
    if is_small(&term) {
        Payload::Data(term)
    } else {
        Payload::Empty
    }
}

// The payloads of the rows.
fn payload(kind: Kind, number: u32) -> Payload<Proc>
    ensures { payload_weight ⟦<Proc as Weight>⟧.weight_of result < 2 ^ 40 }
{
    match kind {
        Kind::Empty => Payload::Empty,
        Kind::Data => data(int(number as i128)),
        Kind::Sproc => Payload::Sproc(Proc(number)),
    }
}

// A name is an atom, or a binary where a `<` stands before it.
fn name(alloc: Global, text: &str) -> Result<Name, NoMemory> {
    match text.as_bytes() {
        [b'<', rest @ ..] => Ok(Name::Bin(Bytes::new(Vec::from_slice(alloc, rest)?))),
        all => match Atom::new(Vec::from_slice(alloc, all)?) {
            Some(atom) => Ok(Name::Atom(atom)),
            None => Err(NoMemory),
        },
    }
}

fn path(alloc: Global, texts: &[&str]) -> Result<Path, NoMemory> {
    let mut names = Vec::new(alloc);
    for text in texts {
        names.push(name(alloc, text)?)?;
    }
    Path::new(names).ok_or(NoMemory)
}

// Sets a payload, and makes the node where it is missing. The root stays.
fn put<L: Ledger>(
    tree: &Nodes,
    path: &Path,
    payload: Payload<Proc>,
    steps: &mut Steps<L>,
) -> Result<Nodes, TreeError>
    requires { payload_weight ⟦<Proc as Weight>⟧.weight_of payload < 2 ^ 40 }
{
    if path.len() == 0 {
        return Ok(tree.share());
    }
    match tree.payload(path) {
        None => tree.add(path, payload, steps),
        Some(_) => tree.set_payload(path, payload, steps),
    }
}

// Kind, payload version, child-list version and number of children of a node.
type Seen = (Kind, u64, u64, u64);

fn seen(tree: &Nodes, path: &Path) -> Result<Option<Seen>, NoMemory> {
    match tree.view(path)? {
        Some(view) => Ok(Some((
            view.payload,
            view.payload_version,
            view.child_list_version,
            view.children,
        ))),
        None => Ok(None),
    }
}

// Payloads that are written, and what is seen of nodes then.
const WRITES: [(&[&str], Kind, u32, &[(&[&str], Seen)]); 4] = [
    (
        &["stock", "wood", "<oak"],
        Kind::Data,
        1,
        &[
            (&[], (Kind::Empty, 1, 2, 1)),
            (&["stock"], (Kind::Empty, 1, 1, 1)),
            (&["stock", "wood", "<oak"], (Kind::Data, 1, 1, 0)),
        ],
    ),
    (
        &["stock", "wood", "<oak"],
        Kind::Data,
        1,
        &[(&["stock", "wood", "<oak"], (Kind::Data, 1, 1, 0))],
    ),
    (
        &["stock", "wood", "<oak"],
        Kind::Data,
        2,
        &[(&["stock", "wood", "<oak"], (Kind::Data, 2, 1, 0))],
    ),
    (
        &["stock", "wood", "elm", "a", "b"],
        Kind::Sproc,
        7,
        &[
            (&["stock", "wood"], (Kind::Empty, 1, 2, 2)),
            (&["stock"], (Kind::Empty, 1, 1, 1)),
            (&["stock", "wood", "elm", "a", "b"], (Kind::Sproc, 1, 1, 0)),
        ],
    ),
];

// Versions and numbers of children after each write.
fn children_and_versions<L: Ledger>(
    rt: &impl Abort,
    alloc: Global,
    steps: &mut Steps<L>,
) -> Result<(), Fail> {
    let mut tree = Nodes::new(alloc)?;
    for (place, kind, number, wanted) in &WRITES {
        tree = put(&tree, &path(alloc, place)?, payload(*kind, *number), steps)?;
        all_seen(rt, alloc, &tree, wanted)?;
    }
    Ok(())
}

fn all_seen(
    rt: &impl Abort,
    alloc: Global,
    tree: &Nodes,
    wanted: &[(&[&str], Seen)],
) -> Result<(), Fail> {
    for (place, wanted) in wanted {
        assert_eq!(rt; seen(tree, &path(alloc, place)?)?, Some(*wanted));
    }
    Ok(())
}

const PAYLOADS: [(Kind, u32); 5] = [
    (Kind::Empty, 0),
    (Kind::Data, 1),
    (Kind::Data, 2),
    (Kind::Sproc, 1),
    (Kind::Sproc, 2),
];

// Each payload over each: the version rises where they differ, and only there.
fn payload_over_payload<L: Ledger>(
    rt: &impl Abort,
    alloc: Global,
    steps: &mut Steps<L>,
) -> Result<(), Fail> {
    let place = path(alloc, &["a"])?;
    let new = Nodes::new(alloc)?;
    for first in PAYLOADS {
        let tree = put(&new, &place, payload(first.0, first.1), steps)?;
        for second in PAYLOADS {
            let next = put(&tree, &place, payload(second.0, second.1), steps)?;
            let version = if first == second { 1 } else { 2 };
            assert_eq!(rt; seen(&next, &place)?, Some((second.0, version, 1, 0)));
        }
    }
    Ok(())
}

// Paths, and the nodes that come next.
const NEXT: [(&[&str], Option<&[&str]>); 9] = [
    (&[], Some(&["a"])),
    (&["a"], Some(&["a", "c"])),
    (&["a", "a"], Some(&["a", "c"])),
    (&["a", "c"], Some(&["a", "<b"])),
    (&["a", "c", "x"], Some(&["a", "<b"])),
    (&["a", "<b"], Some(&["a", "<b", "d"])),
    (&["a", "<b", "d"], Some(&["b"])),
    (&["b"], Some(&["<a"])),
    (&["<a"], None),
];

fn keys_in_order<L: Ledger>(
    rt: &impl Abort,
    alloc: Global,
    steps: &mut Steps<L>,
) -> Result<(), Fail> {
    let mut tree = Nodes::new(alloc)?;
    for texts in [&["b"] as &[&str], &["<a"], &["a", "c"], &["a", "<b", "d"]] {
        tree = put(&tree, &path(alloc, texts)?, Payload::Empty, steps)?;
    }
    for (texts, wanted) in &NEXT {
        let here = path(alloc, texts)?;
        match (tree.next_after(&here), wanted) {
            (Some(next), Some(texts)) => assert!(rt; *next == path(alloc, texts)?),
            (next, wanted) => assert!(rt; next.is_none() && wanted.is_none()),
        }
    }
    Ok(())
}

// How many nodes are put before the tree is full but for one.
const MANY: u32 = 199_999;

// A tree with a node below the root for each number. A share kept before each write answers as before.
fn filled<L: Ledger>(rt: &impl Abort, alloc: Global, steps: &mut Steps<L>) -> Result<Nodes, Fail> {
    let mut tree = Nodes::new(alloc)?;
    let mut older = tree.share();
    let mut versions = Vec::new(alloc);
    for number in 0..MANY {
        if number < 10 {
            versions.push(tree.share())?;
        }
        older = tree.share();
        tree = put(&older, &numbered(alloc, number)?, Payload::Empty, steps)?;
    }
    assert_eq!(rt; older.node_count().saturating_add(1), tree.node_count());
    for (count, version) in versions.iter().enumerate() {
        assert_eq!(rt; version.node_count(), count as u64);
        assert_eq!(rt; version.share().node_count(), count as u64);
    }
    Ok(tree)
}

// A path of one binary of four bytes.
fn numbered(alloc: Global, number: u32) -> Result<Path, NoMemory> {
    let mut names = Vec::new(alloc);
    let bytes = number.to_be_bytes();
    names.push(Name::Bin(Bytes::new(Vec::from_slice(alloc, &bytes)?)))?;
    Path::new(names).ok_or(NoMemory)
}

// There is room for one node, then for none.
fn fills_up<L: Ledger>(rt: &impl Abort, alloc: Global, steps: &mut Steps<L>) -> Result<(), Fail> {
    let one = path(alloc, &["one"])?;
    let two = path(alloc, &["one", "two"])?;
    let tree = filled(rt, alloc, steps)?;
    is_refused(rt, &tree, &two, steps);
    let full = put(&tree, &one, Payload::Empty, steps)?;
    is_refused(rt, &full, &two, steps);
    assert_eq!(rt;
        (tree.node_count(), full.node_count()),
        (199_999, MOST_NODES)
    );
    let set = put(&full, &one, payload(Kind::Data, 1), steps)?;
    all_seen(rt, alloc, &set, &[(&["one"], (Kind::Data, 2, 1, 0))])?;
    all_seen(
        rt,
        alloc,
        &tree,
        &[(&[], (Kind::Empty, 1, 200_000, 199_999))],
    )
}

fn is_refused<L: Ledger>(rt: &impl Abort, tree: &Nodes, path: &Path, steps: &mut Steps<L>) {
    let error = put(tree, path, Payload::Empty, steps).err();
    assert!(rt; error == Some(TreeError::StoreFull));
}

fn all_rows<L: Ledger>(rt: &impl Abort, alloc: Global, blank: Blank) -> Result<(), Fail>
    requires name { blank.name ≡ L.name }
    requires parts { blank.parts ≡ L.parts }
    requires some { 0 < blank.parts }
{
    let mut steps = Steps::<L>::new(blank);
    children_and_versions(rt, alloc, &mut steps)?;
    payload_over_payload(rt, alloc, &mut steps)?;
    keys_in_order(rt, alloc, &mut steps)?;
    fills_up(rt, alloc, &mut steps)
}

#[test]
fn rows_of_the_tree(rt: HostRuntime) -> Result<(), Fail> {
    all_rows::<Brand>(&rt, rt.alloc(), Blank::new(1))
}

#[test]
fn a_shared_map_has_paths_as_keys(rt: HostRuntime) -> Result<(), Fail> {
    let alloc = rt.alloc();
    let none = PMap::new(alloc);
    let one = none.with(path(alloc, &["a"])?, 1u8)?;
    let two = one.with(path(alloc, &["a", "<b"])?, 2u8)?;
    let place = path(alloc, &["a"])?;
    assert_eq!(rt; (two.len(), two.get(&place)), (2, Some(&1)));
    assert_eq!(rt; two.next_after(&place).map(|(_, value)| *value), Some(2));
    assert_eq!(rt; two.without(&place)?.len(), 1);
    Ok(())
}
