// Rows along a path, and the walk over a subtree.
ghost use Rattle.std.specs.Prelude.{◌≡◌, ◌+◌, ◌≤◌, [], length, take, IfOk, OnOk, IsTrue, MatchOption, Some, None, if◌then◌else◌};
ghost use Rattle.std.specs.FinMap.{contains_key};
ghost use Rattle.std.specs.Option.{option_copied};
ghost use Rattle.kh_regexes.specs.Engine.{Stand};
ghost use Rattle.kh_tree.specs.Nodes.{begins};
ghost use Rattle.kh_walk.specs.Found.{Rise};
ghost use Rattle.kh_walk.specs.Prepared.{lacking_in};
ghost use Rattle.kh_walk.specs.Rows.{AreNodes, AreRows, IsRow};
ghost use Rattle.kh_walk.specs.Walked.{AreBelow, IsNextBelow, NoneBelow, with_path};

use crate::joining::joined;
use crate::judging::{Place, is_marked_last, mark};
use crate::rows::Row;
use kh_cond::Component;
use kh_regexes::Patterns;
use kh_term::{NoMemory, Path, Paths};
use kh_tree::Tree;
use std::alloc::Global;

/// The paths of the nodes that match, of a node and those below it, in order.
pub(crate) fn walk<S, P: Patterns>(
    alloc: Global,
    tree: &Tree<S>,
    start: &Path,
    components: &[Component],
    patterns: &mut P,
) -> Result<Paths, NoMemory>
    requires prepared { lacking_in (P.texts patterns.old) components.now ≡ 0 }
    requires node { IsTrue (contains_key tree.now start.now) }
    ensures rise { IfOk result (λ paths. Rise paths) }
    ensures below { IfOk result (λ paths.
        AreBelow P.search tree.now components.now start.now paths) }
    ensures engine { Stand (P.texts patterns.old, P.refusals patterns.old, P.refused patterns.old)
        (P.texts patterns.new, P.refusals patterns.new, P.refused patterns.new) }
{
    tree.parents_stand();
    let mut found = Paths::new(alloc);
    let mut rows = rows_along(alloc, tree, start, components, patterns)?;
    let mut at = start;
    'nodes: loop {
        let is_marked = is_marked_last(rows.as_slice(), components.len());
        note(alloc, &mut found, at, is_marked)?;
        let Some(next) = next_below(tree, at, start) else {
            return Ok(found);
        };
        push_row(alloc, tree, next, components, &mut rows, patterns)?;
        at = next;
    }
}

// Adds a path to those that were found, where it is marked.
fn note(alloc: Global, found: &mut Paths, path: &Path, is_marked: bool) -> Result<(), NoMemory>
    ensures { OnOk result (found.new ≡ with_path is_marked found.old path.now) }
{
    if is_marked {
        found.push(path.copy(alloc)?)?;
    }
    Ok(())
}

// The next node after a path in the subtree of another.
fn next_below<'a, S>(tree: &'a Tree<S>, at: &Path, start: &Path) -> Option<&'a Path>
    requires node { IsTrue (contains_key tree.now at.now) }
    requires below { IsTrue (begins start.now at.now) }
    ensures { MatchOption (option_copied result) (NoneBelow tree.now start.now at.now)
        (IsNextBelow tree.now start.now at.now) }
{
    match tree.next_after(at) {
        Some(next) => within(start, next),
        None => None,
    }
}

// A path that begins with another.
fn within<'a>(start: &Path, next: &'a Path) -> Option<&'a Path>
    ensures { option_copied result ≡ (if begins start.now next.now then Some next.now else None) }
{
    if next.names().starts_with(start.names()) {
        Some(next)
    } else {
        None
    }
}

/// The rows of a path's fronts, from the root to the path itself.
pub(crate) fn rows_along<S, P: Patterns>(
    alloc: Global,
    tree: &Tree<S>,
    path: &Path,
    components: &[Component],
    patterns: &mut P,
) -> Result<Vec<Row>, NoMemory>
    requires prepared { lacking_in (P.texts patterns.old) components.now ≡ 0 }
    requires node { IsTrue (contains_key tree.now path.now) }
    ensures rows { IfOk result (λ rows.
        AreRows P.search tree.now components.now path.now rows.items) }
    ensures long { IfOk result (λ rows. length rows.items ≡ length path.now + 1) }
    ensures engine { Stand (P.texts patterns.old, P.refusals patterns.old, P.refused patterns.old)
        (P.texts patterns.new, P.refusals patterns.new, P.refused patterns.new) }
{
    tree.parents_stand();
    let mut rows = Vec::new(alloc);
    for len in 0..path.len() + 1 {
        let front = path.front(alloc, len)?;
        push_row(alloc, tree, &front, components, &mut rows, patterns)?;
    }
    Ok(rows)
}

// Leaves the rows of the shorter fronts of a path, and adds its own.
#[tactic(auto, using(crate::proofs::Marks::next_row))]
fn push_row<S, P: Patterns>(
    alloc: Global,
    tree: &Tree<S>,
    path: &Path,
    components: &[Component],
    rows: &mut Vec<Row>,
    patterns: &mut P,
) -> Result<(), NoMemory>
    requires prepared { lacking_in (P.texts patterns.old) components.now ≡ 0 }
    requires node { IsTrue (contains_key tree.now path.now) }
    requires rows { AreRows P.search tree.now components.now path.now
        (take (length path.now) rows.old.items) }
    requires long { length path.now ≤ length rows.old.items }
    ensures rows { OnOk result (AreRows P.search tree.now components.now path.now rows.new.items) }
    ensures long { OnOk result (length rows.new.items ≡ length path.now + 1) }
    ensures engine { Stand (P.texts patterns.old, P.refusals patterns.old, P.refused patterns.old)
        (P.texts patterns.new, P.refusals patterns.new, P.refused patterns.new) }
{
    rows.truncate(path.len());
    let row = row_at(alloc, tree, path, components, rows.as_slice(), patterns)?;
    rows.push(row)?;
    Ok(())
}

// The row of a path, by those of its shorter fronts.
fn row_at<S, P: Patterns>(
    alloc: Global,
    tree: &Tree<S>,
    path: &Path,
    components: &[Component],
    rows: &[Row],
    patterns: &mut P,
) -> Result<Row, NoMemory>
    requires prepared { lacking_in (P.texts patterns.old) components.now ≡ 0 }
    requires node { IsTrue (contains_key tree.now path.now) }
    requires rows { AreRows P.search tree.now components.now path.now rows.now }
    requires long { length rows.now ≡ length path.now }
    ensures row { IfOk result (λ row. IsRow P.search tree.now components.now path.now row) }
    ensures engine { Stand (P.texts patterns.old, P.refusals patterns.old, P.refused patterns.old)
        (P.texts patterns.new, P.refusals patterns.new, P.refused patterns.new) }
{
    tree.parents_stand();
    let text = joined(alloc, path.names())?;
    let place = Place {
        tree,
        path,
        text: text.as_slice(),
        rows,
    };
    let mut view = None;
    let mut row = Row::begun(alloc, path.len() == 0)?;
    for i in 0..components.len() {
        row.push(mark(&place, components, i, &mut view, patterns)?)?;
    }
    Ok(row)
}
