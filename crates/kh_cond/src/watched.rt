//! Watched paths, read and written.
ghost use Rattle.std.specs.Prelude.{◌≡◌, ◌++◌, IfOk, IfSome, OnOk, OnErr};
ghost use Rattle.std.specs.Option.{option_map, option_copied};
ghost use Rattle.kh_term.specs.WellFormed.{ArePairs, IsTerm};
ghost use Rattle.kh_term.specs.declared.tree.TermTree.{out-TermTree};
ghost use Rattle.kh_cond.specs.Faults.{IfBad};
ghost use Rattle.kh_cond.specs.Watched.{IsNoWatching, SpellsWatching, entries_in, entry_in, pairs_in, start_in, start_of, start_terms, watched_by, watched_in, watched_of, watched_tree, watched_with, watching_texts, watching_tree};

use crate::cond::Cond;
use crate::error::CondError;
use crate::printing::cond_term;
use crate::read::elements_of;
use crate::reading::cond_in;
use crate::texts::{append, collect};
use crate::watching::{Start, WatchedPath, Watching};
use kh_term::{
    Names, NoMemory, Pairs, Term, TermTree, Terms, Texts, list, map, names_of, term_of_name, word,
};
use std::alloc::Global;

/// The watched paths that a term spells: a map from paths to conditions. `BadCondition(1)` comes exactly where it spells none.
pub fn read_watching(alloc: Global, term: &Term) -> Result<Watching, CondError>
    ensures ok { IfOk result (λ watching. SpellsWatching term.now.node watching) }
    ensures bad { IfBad result (λ n. (n ≡ 1) × IsNoWatching term.now.node) }
{
    let Some(pairs) = pairs_in(&term.node) else {
        return Err(CondError::BadCondition(1));
    };
    match entries_in(alloc, pairs)? {
        Some(entries) => Ok(Watching { entries }),
        None => Err(CondError::BadCondition(1)),
    }
}

// The keys and values of a map.
#[tactic(auto, using(kh_term::proofs::Layers::nils, kh_term::specs::Lemmas::Fits::parts))]
fn pairs_in(tree: &TermTree) -> Option<&[(TermTree, TermTree)]>
    requires { IsTerm tree.now }
    ensures value { option_map (λ s. s.now) result ≡ pairs_in (out-TermTree tree.now) }
    ensures fits { IfSome result (λ s. ArePairs s.now) }
{
    match tree {
        TermTree::Map(pairs) => Some(pairs.as_slice()),
        TermTree::Int(_)
        | TermTree::Atom(_)
        | TermTree::Bin(_)
        | TermTree::Nil
        | TermTree::List(_, _)
        | TermTree::Tuple(_)
        | TermTree::Closure(_, _) => None,
    }
}

// The watched paths and conditions that the pairs of a map are read as.
#[tactic(auto, using(crate::proofs::ReadLayers::lists, kh_term::specs::Lemmas::Fits::parts))]
fn entries_in(
    alloc: Global,
    pairs: &[(TermTree, TermTree)],
) -> Result<Option<Vec<(WatchedPath, Cond)>>, NoMemory>
    requires { ArePairs pairs.now }
    ensures { IfOk result (λ entries. option_map (λ es. es.items) entries ≡ entries_in pairs.now) }
{
    let mut entries = Vec::new(alloc);
    for pair in pairs {
        match entry_in(alloc, &pair.0, &pair.1)? {
            Some(entry) => entries.push(entry)?,
            None => return Ok(None),
        }
    }
    Ok(Some(entries))
}

fn entry_in(
    alloc: Global,
    key: &TermTree,
    value: &TermTree,
) -> Result<Option<(WatchedPath, Cond)>, NoMemory>
    requires key { IsTerm key.now }
    requires value { IsTerm value.now }
    ensures { IfOk result (λ entry. entry ≡ entry_in (key.now, value.now)) }
{
    let Some(path) = watched_in(alloc, key)? else {
        return Ok(None);
    };
    match cond_in(alloc, value)? {
        Some(cond) => Ok(Some((path, cond))),
        None => Ok(None),
    }
}

// The watched path that a term is read as.
fn watched_in(alloc: Global, tree: &TermTree) -> Result<Option<WatchedPath>, NoMemory>
    requires { IsTerm tree.now }
    ensures { IfOk result (λ path. path ≡ watched_in tree.now) }
{
    match elements_of(tree) {
        Some(parts) => watched_of(alloc, parts),
        None => Ok(None),
    }
}

fn watched_of(alloc: Global, parts: &[TermTree]) -> Result<Option<WatchedPath>, NoMemory>
    ensures { IfOk result (λ path. path ≡ watched_of parts.now) }
{
    let [first, rest @ ..] = parts else {
        return Ok(watched_with(Start::Root, Some(Names::new(alloc))));
    };
    match start_in(first) {
        Some(start) => Ok(watched_with(start, names_of(alloc, rest)?)),
        None => Ok(watched_with(Start::Root, names_of(alloc, parts)?)),
    }
}

fn watched_with(start: Start, names: Option<Names>) -> Option<WatchedPath>
    ensures { result ≡ watched_with start names }
{
    match names {
        Some(names) => WatchedPath::new(start, names),
        None => None,
    }
}

#[tactic(auto, using(kh_term::proofs::Layers::nils))]
fn start_in(tree: &TermTree) -> Option<Start>
    ensures { result ≡ start_in (out-TermTree tree.now) }
{
    match tree {
        TermTree::Atom(text) => start_of(text.as_slice()),
        TermTree::Int(_)
        | TermTree::Bin(_)
        | TermTree::Nil
        | TermTree::List(_, _)
        | TermTree::Tuple(_)
        | TermTree::Map(_)
        | TermTree::Closure(_, _) => None,
    }
}

fn start_of(text: &[u8]) -> Option<Start>
    ensures { result ≡ start_of text.now }
{
    match text {
        b"." => Some(Start::Node),
        b"^" => Some(Start::Parent),
        _ => None,
    }
}

/// The short spelling of watched paths: the map of the paths, each with the short spelling of its condition.
#[tactic(auto, using(crate::proofs::Watches::written))]
pub fn watching_term(alloc: Global, watching: &Watching) -> Result<Term, NoMemory>
    ensures { IfOk result (λ t. t.node ≡ watching_tree watching.now) }
{
    let mut pairs = Pairs::new(alloc);
    for entry in watching.entries() {
        let path = watched_term(alloc, &entry.0)?;
        let cond = cond_term(alloc, &entry.1)?;
        pairs.push_rising(path, cond)?;
    }
    Ok(map(pairs))
}

fn watched_term(alloc: Global, path: &WatchedPath) -> Result<Term, NoMemory>
    ensures { IfOk result (λ t. t.node ≡ watched_tree path.now) }
{
    let mut terms = start_terms(alloc, path.start())?;
    for name in path.names() {
        terms.push(term_of_name(alloc, name)?)?;
    }
    list(alloc, terms)
}

fn start_terms(alloc: Global, start: Start) -> Result<Terms, NoMemory>
    ensures { IfOk result (λ terms. terms.nodes ≡ start_terms start) }
{
    let mut terms = Terms::new(alloc);
    match start {
        Start::Root => {}
        Start::Node => terms.push(word(alloc, ".")?)?,
        Start::Parent => terms.push(word(alloc, "^")?)?,
    }
    Ok(terms)
}

/// Adds the texts of the conditions at the end, in order of place.
pub fn push_watching_texts(
    alloc: Global,
    watching: &Watching,
    into: &mut Texts,
) -> Result<(), NoMemory>
    ensures ok { OnOk result (into.new ≡ into.old ++ watching_texts watching.now) }
    ensures err { OnErr result (into.new ≡ into.old) }
{
    let mut more = Vec::new(alloc);
    for entry in watching.entries() {
        collect(alloc, &entry.1, &mut more)?;
    }
    append(alloc, into, more)
}
