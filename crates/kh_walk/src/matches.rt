// The nodes that a pattern matches.
ghost use Rattle.std.specs.Prelude.{◌≡◌, ◌↔◌, IfOk, IsTrue};
ghost use Rattle.std.specs.FinMap.{contains_key};
ghost use Rattle.kh_regexes.specs.Engine.{Stand};
ghost use Rattle.kh_walk.specs.Found.{AreMatching, Rise};
ghost use Rattle.kh_walk.specs.Prepared.{lacking_in};
ghost use Rattle.kh_walk.specs.Takes.{Matches};

use crate::front::plain_front;
use crate::judging::is_marked_last;
use crate::walk::{rows_along, walk};
use kh_cond::PathPattern;
use kh_regexes::Patterns;
use kh_term::{NoMemory, Path, Paths, Weight};
use kh_tree::Tree;
use std::alloc::Global;

/// The paths of the nodes that a pattern matches, in order. Its texts have to be prepared. The time is
/// linear in the nodes below the names with which the pattern begins.
pub fn matching<S: Weight + Eq, P: Patterns>(
    alloc: Global,
    tree: &Tree<S>,
    q: &PathPattern,
    patterns: &mut P,
) -> Result<Paths, NoMemory>
    requires prepared { lacking_in (P.texts patterns.old) q.now ≡ 0 }
    ensures rise { IfOk result (λ paths. Rise paths) }
    ensures matching { IfOk result (λ paths. AreMatching P.search tree.now q.now paths) }
    ensures engine { Stand (P.texts patterns.old, P.refusals patterns.old, P.refused patterns.old)
        (P.texts patterns.new, P.refusals patterns.new, P.refused patterns.new) }
{
    let components = q.components();
    let start = plain_front(alloc, components)?;
    tree.parents_stand();
    match tree.payload(&start) {
        Some(_) => Ok(walk(alloc, tree, &start, components, patterns)?),
        None => Ok(Paths::new(alloc)),
    }
}

/// Whether a pattern matches a node, which is there. Its texts have to be prepared.
pub fn matches_at<S: Weight + Eq, P: Patterns>(
    alloc: Global,
    tree: &Tree<S>,
    q: &PathPattern,
    path: &Path,
    patterns: &mut P,
) -> Result<bool, NoMemory>
    requires prepared { lacking_in (P.texts patterns.old) q.now ≡ 0 }
    requires node { IsTrue (contains_key tree.now path.now) }
    ensures matches { IfOk result (λ b. IsTrue b ↔ Matches P.search tree.now q.now path.now) }
    ensures engine { Stand (P.texts patterns.old, P.refusals patterns.old, P.refused patterns.old)
        (P.texts patterns.new, P.refusals patterns.new, P.refused patterns.new) }
{
    let components = q.components();
    let rows = rows_along(alloc, tree, path, components, patterns)?;
    Ok(is_marked_last(rows.as_slice(), components.len()))
}
