//! The paths that a node watches, each with a condition.
ghost use Rattle.std.specs.Prelude.{◌≡◌, ◌↔◌, IsSome, IfSome, IsTrue};
ghost use Rattle.std.specs.List.{list_all};
ghost use Rattle.kh_term.specs.Name.{is_name};
ghost use Rattle.kh_cond.specs.Watched.{is_watched, paths_rise};

use crate::cond::Cond;
use kh_term::{MOST_NAMES, Name, Names};
use std::marker::Model;

/// Where a watched path begins.
#[derive(Clone, Copy, Debug, PartialEq, Eq, Drop)]
pub enum Start {
    /// At the root.
    Root,
    /// At the written node: the path begins with the atom `.`.
    Node,
    /// At its parent: the path begins with the atom `^`.
    Parent,
}

/// A watched path as it was written: where it begins, and the names from there on. It has at most 32 components, `.` and `^`
/// counted.
#[derive(Drop)]
pub struct WatchedPath {
    start: Start,
    names: Names,
}

impl Model for WatchedPath {
    ghost use Rattle.std.specs.Prelude.{List, IsTrue};
    ghost use Rattle.kh_term.specs.declared.name.Name.{Name};
    ghost use Rattle.kh_cond.specs.declared.watching.Start.{Start};

    ghost Value = { Start × List Name };

    ghost use Rattle.kh_cond.specs.Watched.{is_watched};

    ghost view = { λ path. (path.start, path.names) };

    ghost invariant = { λ path. IsTrue (is_watched (path.start, path.names)) };
}

impl WatchedPath {
    /// The watched path that begins there and goes on by these names, where it is one.
    pub fn new(start: Start, names: Names) -> Option<WatchedPath>
        ensures accepts { IsSome result ↔ IsTrue (is_watched (start, names)) }
        ensures value { IfSome result (λ path. path ≡ (start, names)) }
    {
        if !is_watched(start, &names) {
            return None;
        }
        Some(WatchedPath { start, names })
    }

    /// Where it begins.
    pub fn start(&self) -> Start
        ensures { result ≡ self.now.0 }
    {
        self.start
    }

    /// The names from there on.
    pub fn names(&self) -> &[Name]
        ensures names { result.now ≡ self.now.1 }
        ensures fits { IsTrue (is_watched self.now) }
    {
        self.names.as_slice()
    }
}

// Whether they are at most 32 components, each a name.
fn is_watched(start: Start, names: &Names) -> bool
    ensures { result ≡ is_watched (start, names.now) }
{
    let most = match start {
        Start::Root => MOST_NAMES,
        Start::Node | Start::Parent => MOST_NAMES - 1,
    };
    names.len() <= most && are_names(names.as_slice())
}

// Whether each may name a node.
fn are_names(names: &[Name]) -> bool
    ensures { result ≡ list_all is_name names.now }
{
    names.iter().all(|name| name.is_name())
}

/// Watched paths by the rising order of their terms, each with a condition: the value of the option `keep_while`.
#[derive(Drop)]
pub struct Watching {
    pub(crate) entries: Vec<(WatchedPath, Cond)>,
}

impl Model for Watching {
    ghost use Rattle.std.specs.Prelude.{List, IsTrue};
    ghost use Rattle.kh_term.specs.declared.name.Name.{Name};
    ghost use Rattle.std.specs.Coded.{codes};
    ghost use Rattle.kh_cond.specs.declared.cond.Cond.{Cond};
    ghost use Rattle.kh_cond.specs.declared.watching.Start.{Start};
    ghost use Rattle.kh_cond.specs.contracts.cond.Cond as cond;

    ghost Value = { List ((Start × List Name) × Cond) };

    ghost coded = { Prim.hlevel (codes, cond.the_row.coded) };

    ghost use Rattle.kh_cond.specs.Watched.{paths_rise};

    ghost view = { λ watching. watching.entries.items };

    ghost invariant = { λ watching. IsTrue (paths_rise watching.entries.items) };
}

impl Watching {
    /// The watched paths in order, each with its condition.
    pub fn entries(&self) -> &[(WatchedPath, Cond)]
        ensures entries { result.now ≡ self.now }
        ensures rise { IsTrue (paths_rise self.now) }
    {
        self.entries.as_slice()
    }
}
