//! The worked rows: which paths a pattern matches.
ghost use Rattle.std.specs.Prelude.{◌≡◌, ◌<◌, ◌≤◌, length};

use crate::joining::{bytes_of, joined};
use crate::{matches_at, matching};
use kh_cond::{Component, Cond, PathPattern, Regex, prepare, push_pattern_texts};
use kh_regexes::{Patterns, PlainPatterns, RegexPatterns};
use kh_term::{
    Atom, Name, NoMemory, Path, Paths, Steps, Text, Texts, Weight, int, is_small,
    packed_is_at_most_515_times_size,
};
use kh_tree::{Payload, Tree};
use sqlite_items::Items;
use std::alloc::Global;
use std::marker::Brand;
use std::process::Abort;
use std::sync::ledger::{Blank, Ledger};
use std::test::Fail;

/// A procedure of the tests.
#[derive(Clone, Copy, PartialEq, Eq, Drop)]
struct Proc(u32);

impl Weight for Proc {
    ghost weight_of = { λ _. 1 };

    fn weight(&self) -> u64 {
        1
    }
}

/// A component of the table.
#[derive(Clone, Copy, Drop)]
enum Part {
    /// A name.
    Is(&'static str),
    /// An `if_all` of a name and of no data.
    Bare(&'static str),
    /// A name in which a text is found.
    Has(&'static str),
    /// Any names.
    Any,
    /// Any names, to a node with data.
    ToData,
    /// Names in which a text is found.
    Found(&'static str),
}

use Part::{Any, Bare, Found, Has, Is, ToData};

fn name(alloc: Global, text: &str) -> Result<Name, NoMemory> {
    match Atom::new(Vec::from_slice(alloc, text.as_bytes())?) {
        Some(word) => Ok(Name::Atom(word)),
        None => Err(NoMemory),
    }
}

fn path(alloc: Global, texts: &[&str]) -> Result<Path, NoMemory> {
    let mut names = Vec::new(alloc);
    for text in texts {
        names.push(name(alloc, text)?)?;
    }
    Path::new(names).ok_or(NoMemory)
}

fn regex(alloc: Global, text: &str) -> Result<Regex, NoMemory> {
    match Text::new(Vec::from_slice(alloc, text.as_bytes())?) {
        Some(text) => Ok(Regex::Text(text)),
        None => Err(NoMemory),
    }
}

fn component(alloc: Global, part: &Part) -> Result<Component, NoMemory> {
    match part {
        Is(text) => Ok(Component::One(Cond::Name(name(alloc, text)?))),
        Bare(text) => {
            let mut conds = Vec::new(alloc);
            conds.push(Cond::Name(name(alloc, text)?))?;
            conds.push(Cond::HasData(false))?;
            Ok(Component::One(Cond::All(Items::from_vec(conds))))
        }
        Has(text) => Ok(Component::One(Cond::NameMatches(regex(alloc, text)?))),
        Any => Ok(Component::Many(Regex::Any)),
        ToData => {
            let mut conds = Vec::new(alloc);
            conds.push(Cond::HasData(true))?;
            Ok(Component::ManyAll(Regex::Any, Items::from_vec(conds)))
        }
        Found(text) => Ok(Component::Many(regex(alloc, text)?)),
    }
}

fn pattern(alloc: Global, parts: &[Part]) -> Result<PathPattern, NoMemory> {
    let mut components = Vec::new(alloc);
    for part in parts {
        components.push(component(alloc, part)?)?;
    }
    PathPattern::new(components).ok_or(NoMemory)
}

// Each path with a `/` before each name and a space behind it.
fn text_of(alloc: Global, paths: &[Path]) -> Result<Vec<u8>, NoMemory> {
    let mut text = Vec::new(alloc);
    for path in paths {
        for name in path.names() {
            text.push(b'/')?;
            text.extend_from_slice(bytes_of(name))?;
        }
        text.push(b' ')?;
    }
    Ok(text)
}

// The paths that a pattern matches, and whether it matches one of them.
fn found<P: Patterns>(
    alloc: Global,
    tree: &Tree<Proc>,
    parts: &[Part],
    place: &Path,
    patterns: &mut P,
) -> Result<(Paths, bool), Fail>
    requires { length (P.texts patterns.old) ≡ 0 }
{
    let pattern = pattern(alloc, parts)?;
    let mut texts = Texts::new(alloc);
    push_pattern_texts(alloc, &pattern, &mut texts)?;
    if texts.len() > 64 {
        return Err(NoMemory.into());
    }
    prepare(&texts, patterns)?;
    let paths = matching(alloc, tree, &pattern, patterns)?;
    if tree.payload(place).is_none() {
        return Ok((paths, false));
    }
    let is_matched = matches_at(alloc, tree, &pattern, place, patterns)?;
    Ok((paths, is_matched))
}

// Whether a text is found in bytes, behind a `^` at their beginning and before a `$` at their end.
fn is_in(text: &str, bytes: &[u8]) -> bool {
    match text.as_bytes() {
        [b'^', all @ .., b'$'] => bytes == all,
        [b'^', front @ ..] => bytes.starts_with(front),
        part => {
            for at in 0..bytes.len() {
                if bytes[at..].starts_with(part) {
                    return true;
                }
            }
            false
        }
    }
}

// Whether a component takes the names of a node's path from one place to another.
fn takes(
    alloc: Global,
    tree: &Tree<Proc>,
    part: &Part,
    path: &Path,
    from: usize,
    to: usize,
) -> Result<bool, NoMemory>
    requires some { from < to }
    requires within { to ≤ length path.now }
{
    let is_one = to - from == 1;
    let text = joined(alloc, &path.names()[from..to])?;
    let last = path.front(alloc, to)?;
    let has_data = matches!(tree.payload(&last), Some(Payload::Data(_)));
    Ok(match part {
        Is(name) => is_one && text.as_slice() == name.as_bytes(),
        Bare(name) => is_one && text.as_slice() == name.as_bytes() && !has_data,
        Has(regex) => is_one && is_in(regex, text.as_slice()),
        Any => true,
        ToData => has_data,
        Found(regex) => is_in(regex, text.as_slice()),
    })
}

// Whether the last so many components take the names of a node's path from a place on: the first of them takes a
// front, the others take the rest.
fn all_take(
    alloc: Global,
    tree: &Tree<Proc>,
    parts: &[Part],
    left: usize,
    path: &Path,
    from: usize,
) -> Result<bool, NoMemory>
    requires left { left ≤ length parts.now }
    requires within { from ≤ length path.now }
{
    let len = path.len();
    if left == 0 {
        return Ok(from == len);
    }
    let part = &parts[parts.len() - left];
    for to in from + 1..len + 1 {
        if takes(alloc, tree, part, path, from, to)?
            && all_take(alloc, tree, parts, left - 1, path, to)?
        {
            return Ok(true);
        }
    }
    Ok(false)
}

// The paths of the nodes that match, by every way to cut them.
fn slowly_found(alloc: Global, tree: &Tree<Proc>, parts: &[Part]) -> Result<Paths, NoMemory> {
    let mut at = path(alloc, &[])?;
    let mut found = Paths::new(alloc);
    for _ in 0..100u32 {
        if all_take(alloc, tree, parts, parts.len(), &at, 0)? {
            found.push(at.copy(alloc)?)?;
        }
        match tree.next_after(&at) {
            Some(next) => at = next.copy(alloc)?,
            None => return Ok(found),
        }
    }
    Ok(found)
}

const NODES: [&[&str]; 6] = [
    &["stock", "wood", "oak"],
    &["stock", "wood", "elm"],
    &["t", "o", "x"],
    &["t", "p"],
    &["o"],
    &["o", "c", "d"],
];

// What a pattern matches, and whether the path `t`, `o`, `x` is among that.
const ROWS: [(&[Part], &str, bool); 20] = [
    (&[], " ", false),
    (&[Is("stock")], "/stock ", false),
    (&[Is("stock"), Is("wood")], "/stock/wood ", false),
    (&[Is("stock"), Is("gone")], "", false),
    (&[Is("gone"), Any], "", false),
    (&[Is("stock"), Bare("wood")], "/stock/wood ", false),
    (&[Bare("o")], "", false),
    (
        &[Any],
        "/o /o/c /o/c/d /stock /stock/wood /stock/wood/elm /stock/wood/oak /t /t/o /t/o/x /t/p ",
        true,
    ),
    (&[Is("t"), Any], "/t/o /t/o/x /t/p ", true),
    (&[Any, Is("wood")], "/stock/wood ", false),
    (&[Is("stock"), Any, Is("oak")], "/stock/wood/oak ", false),
    (
        &[Any, Any, Any],
        "/o/c/d /stock/wood/elm /stock/wood/oak /t/o/x ",
        true,
    ),
    (
        &[ToData],
        "/o /o/c/d /stock/wood/elm /stock/wood/oak /t/o/x /t/p ",
        true,
    ),
    (&[ToData, Is("x")], "", false),
    (&[Found("^t/o")], "/t/o /t/o/x ", true),
    (&[Found("^t$")], "/t ", false),
    (&[Is("t"), Found("o/x")], "/t/o/x ", true),
    (&[Has("o"), Has("^w")], "/stock/wood ", false),
    (&[Is("t"), Is("o"), Is("x"), Any], "", false),
    (&[Any, Found("^x$")], "/t/o/x ", true),
];

fn all_rows<L: Ledger>(rt: &impl Abort, alloc: Global, blank: Blank) -> Result<(), Fail>
    requires name { blank.name ≡ L.name }
    requires parts { blank.parts ≡ L.parts }
    requires some { 0 < blank.parts }
{
    let mut steps = Steps::<L>::new(blank);
    let mut tree: Tree<Proc> = Tree::new(alloc)?;
    for texts in NODES {
        tree = with_data(alloc, &tree, &path(alloc, texts)?, &mut steps)?;
    }
    let place = path(alloc, &["t", "o", "x"])?;
    for (parts, wanted, at_place) in &ROWS {
        let mut patterns = RegexPatterns::new(alloc)?;
        let (paths, is_matched) = found(alloc, &tree, parts, &place, &mut patterns)?;
        let slowly = slowly_found(alloc, &tree, parts)?;
        assert!(rt; paths.as_slice() == slowly.as_slice());
        let text = text_of(alloc, paths.as_slice())?;
        assert_eq!(rt;
            (text.as_slice(), is_matched),
            (wanted.as_bytes(), *at_place)
        );
    }
    many_levels(rt, alloc, &tree, &mut steps)
}

// The tree with a node with data, where it is missing.
fn with_data<L: Ledger>(
    alloc: Global,
    tree: &Tree<Proc>,
    path: &Path,
    steps: &mut Steps<L>,
) -> Result<Tree<Proc>, Fail> {
    packed_is_at_most_515_times_size();
    let datum = int(7);
    if tree.payload(path).is_some() || !is_small(&datum) {
        return Ok(tree.share());
    }
    Ok(tree.add(path, Payload::Data(datum), steps)?)
}

// 32 components of many levels match a path of 32 names, and that alone.
fn many_levels<L: Ledger>(
    rt: &impl Abort,
    alloc: Global,
    tree: &Tree<Proc>,
    steps: &mut Steps<L>,
) -> Result<(), Fail> {
    let deep = path(alloc, &["n"; 32])?;
    let tree = with_data(alloc, tree, &deep, steps)?;
    let mut patterns = PlainPatterns::new(alloc, Vec::new(alloc))?;
    let (paths, is_matched) = found(alloc, &tree, &[Any; 32], &deep, &mut patterns)?;
    assert!(rt; all_take(alloc, &tree, &[Any; 32], 32, &deep, 0)?);
    assert!(rt; is_matched && paths.as_slice() == [deep].as_slice());
    Ok(())
}

#[test]
fn rows_are_matched(rt: HostRuntime) -> Result<(), Fail> {
    all_rows::<Brand>(&rt, rt.alloc(), Blank::new(1))
}
