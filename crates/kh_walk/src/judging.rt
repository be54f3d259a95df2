// What a component says of a path.
ghost use Rattle.std.specs.Prelude.{◌≡◌, ◌+◌, ◌<◌, ◌↔◌, ◌&&◌, [], length, take, map, sum, IfOk, OnOk, IsTrue, Some, false, slice_index_or};
ghost use Rattle.std.specs.List.{list_all};
ghost use Rattle.kh_cond.specs.Holds.{holds, is_found, is_named};
ghost use Rattle.kh_cond.specs.Texts.{lacking, lacking_regex};
ghost use Rattle.kh_regexes.specs.Engine.{Stand};
ghost use Rattle.kh_tree.specs.Nodes.{last_name, view_of};
ghost use Rattle.kh_walk.specs.Prepared.{lacking_in};
ghost use Rattle.kh_walk.specs.Rows.{AreNodes, AreRows, IsFound, IsSeen, is_marked_last};
ghost use Rattle.kh_walk.specs.Takes.{AllTake, joined};

use crate::joining::behind_name;
use crate::rows::Row;
use kh_cond::{Component, Cond, Regex, is_found, judge};
use kh_regexes::Patterns;
use kh_term::{Name, NoMemory, NodeView, Path};
use kh_tree::Tree;

/// A path at which the components of a pattern are judged.
#[derive(Drop)]
pub(crate) struct Place<'a, S> {
    pub(crate) tree: &'a Tree<S>,
    pub(crate) path: &'a Path,
    /// The names of the path, joined by `/`.
    pub(crate) text: &'a [u8],
    /// The rows of the fronts that are shorter than the path.
    pub(crate) rows: &'a [Row],
}

/// Whether the component at a place of the pattern takes the end of the path, behind a front that
/// those before it take.
pub(crate) fn mark<S, P: Patterns>(
    place: &Place<S>,
    components: &[Component],
    i: usize,
    view: &mut Option<NodeView>,
    patterns: &mut P,
) -> Result<bool, NoMemory>
    requires component { i < length components.now }
    requires prepared { lacking_in (P.texts patterns.old) components.now ≡ 0 }
    requires text { place.now.text.now ≡ joined place.now.path.now }
    requires nodes { AreNodes place.now.tree.now place.now.path.now }
    requires rows { AreRows P.search place.now.tree.now components.now
        place.now.path.now place.now.rows.now }
    requires long { length place.now.rows.now ≡ length place.now.path.now }
    requires seen { IsSeen view.old (view_of place.now.tree.now place.now.path.now) }
    ensures mark { IfOk result (λ b. IsTrue b ↔
        AllTake P.search place.now.tree.now [] (take (i + 1) components.now) place.now.path.now) }
    ensures seen { OnOk result (IsSeen view.new (view_of place.now.tree.now place.now.path.now)) }
    ensures engine { Stand (P.texts patterns.old, P.refusals patterns.old, P.refused patterns.old)
        (P.texts patterns.new, P.refusals patterns.new, P.refused patterns.new) }
{
    match &components[i] {
        Component::One(cond) => Ok(one_holds(place, i, cond, view, patterns)?),
        Component::Many(regex) => Ok(found_behind(place, i, regex, patterns)?),
        Component::ManyAll(regex, further) => {
            if !found_behind(place, i, regex, patterns)? {
                return Ok(false);
            }
            Ok(all_hold(place, further.as_slice(), view, patterns)?)
        }
    }
}

// Whether the components before this one take the path above, and a condition holds of the node.
fn one_holds<S, P: Patterns>(
    place: &Place<S>,
    i: usize,
    cond: &Cond,
    view: &mut Option<NodeView>,
    patterns: &mut P,
) -> Result<bool, NoMemory>
    requires prepared { lacking (P.texts patterns.old) cond.now ≡ 0 }
    requires nodes { AreNodes place.now.tree.now place.now.path.now }
    requires seen { IsSeen view.old (view_of place.now.tree.now place.now.path.now) }
    ensures holds { IfOk result (λ b. b ≡ (is_marked_last place.now.rows.now i
        && holds P.search (view_of place.now.tree.now place.now.path.now) cond.now)) }
    ensures seen { OnOk result (IsSeen view.new (view_of place.now.tree.now place.now.path.now)) }
    ensures engine { Stand (P.texts patterns.old, P.refusals patterns.old, P.refused patterns.old)
        (P.texts patterns.new, P.refusals patterns.new, P.refused patterns.new) }
{
    if !is_marked_last(place.rows, i) {
        return Ok(false);
    }
    Ok(holds(place, cond, view, patterns)?)
}

/// Mark i of the last row, false where there is no row.
pub(crate) fn is_marked_last(rows: &[Row], i: usize) -> bool
    ensures { result ≡ is_marked_last rows.now i }
{
    match rows.last() {
        Some(row) => row.at(i),
        None => false,
    }
}

// Whether the components before this one take a front of the path, and a regular expression is
// found behind it.
fn found_behind<S, P: Patterns>(
    place: &Place<S>,
    i: usize,
    regex: &Regex,
    patterns: &mut P,
) -> Result<bool, NoMemory>
    requires prepared { lacking_regex (P.texts patterns.old) regex.now ≡ 0 }
    requires text { place.now.text.now ≡ joined place.now.path.now }
    requires long { length place.now.rows.now ≡ length place.now.path.now }
    ensures found { IfOk result (λ b. IsTrue b ↔
        IsFound P.search place.now.rows.now place.now.path.now i regex.now) }
    ensures engine { Stand (P.texts patterns.old, P.refusals patterns.old, P.refused patterns.old)
        (P.texts patterns.new, P.refusals patterns.new, P.refused patterns.new) }
{
    let names = place.path.names();
    let mut rest = place.text;
    for at in 0..place.rows.len() {
        if found_at(&place.rows[at], i, regex, rest, patterns)? {
            return Ok(true);
        }
        rest = behind_name(rest, &names[at]);
    }
    Ok(false)
}

// Whether a row has a mark, and a regular expression is found in bytes.
fn found_at<P: Patterns>(
    row: &Row,
    i: usize,
    regex: &Regex,
    rest: &[u8],
    patterns: &mut P,
) -> Result<bool, NoMemory>
    requires { lacking_regex (P.texts patterns.old) regex.now ≡ 0 }
    ensures found { IfOk result (λ b. b ≡
        (slice_index_or row.now i false && is_found P.search regex.now rest.now)) }
    ensures engine { Stand (P.texts patterns.old, P.refusals patterns.old, P.refused patterns.old)
        (P.texts patterns.new, P.refusals patterns.new, P.refused patterns.new) }
{
    if !row.at(i) {
        return Ok(false);
    }
    Ok(is_found(regex, rest, patterns)?)
}

// Whether each condition holds of the node.
fn all_hold<S, P: Patterns>(
    place: &Place<S>,
    conds: &[Cond],
    view: &mut Option<NodeView>,
    patterns: &mut P,
) -> Result<bool, NoMemory>
    requires prepared { sum (map (lacking (P.texts patterns.old)) conds.now) ≡ 0 }
    requires nodes { AreNodes place.now.tree.now place.now.path.now }
    requires seen { IsSeen view.old (view_of place.now.tree.now place.now.path.now) }
    ensures hold { IfOk result (λ b. b ≡
        list_all (holds P.search (view_of place.now.tree.now place.now.path.now)) conds.now) }
    ensures seen { OnOk result (IsSeen view.new (view_of place.now.tree.now place.now.path.now)) }
    ensures engine { Stand (P.texts patterns.old, P.refusals patterns.old, P.refused patterns.old)
        (P.texts patterns.new, P.refusals patterns.new, P.refused patterns.new) }
{
    for cond in conds {
        if !holds(place, cond, view, patterns)? {
            return Ok(false);
        }
    }
    Ok(true)
}

// Whether a condition holds of the node. A name is judged by the path, anything else by the view,
// which is made once.
fn holds<S, P: Patterns>(
    place: &Place<S>,
    cond: &Cond,
    view: &mut Option<NodeView>,
    patterns: &mut P,
) -> Result<bool, NoMemory>
    requires prepared { lacking (P.texts patterns.old) cond.now ≡ 0 }
    requires nodes { AreNodes place.now.tree.now place.now.path.now }
    requires seen { IsSeen view.old (view_of place.now.tree.now place.now.path.now) }
    ensures holds { IfOk result (λ b. b ≡
        holds P.search (view_of place.now.tree.now place.now.path.now) cond.now) }
    ensures seen { OnOk result (IsSeen view.new (view_of place.now.tree.now place.now.path.now)) }
    ensures engine { Stand (P.texts patterns.old, P.refusals patterns.old, P.refused patterns.old)
        (P.texts patterns.new, P.refusals patterns.new, P.refused patterns.new) }
{
    if let Cond::Name(name) = cond {
        return Ok(is_last(name, place.path));
    }
    see(place, view)?;
    Ok(judge(cond, view.as_ref(), patterns)?)
}

// Whether a name is the last of a path.
fn is_last(name: &Name, path: &Path) -> bool
    ensures { result ≡ is_named name.now (last_name path.now) }
{
    match path.names().last() {
        Some(last) => name == last,
        None => false,
    }
}

// Makes the view of the node, where it wasn't made yet.
#[tactic(auto, using(crate::proofs::Judged::seen_is))]
fn see<S>(place: &Place<S>, view: &mut Option<NodeView>) -> Result<(), NoMemory>
    requires { IsSeen view.old (view_of place.now.tree.now place.now.path.now) }
    ensures { OnOk result (view.new ≡ view_of place.now.tree.now place.now.path.now) }
{
    if view.is_none() {
        *view = place.tree.view(place.path)?;
    }
    Ok(())
}
