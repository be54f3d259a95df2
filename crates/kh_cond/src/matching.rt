//! Matching data.
ghost use Rattle.std.specs.Prelude.{◌≡◌, ◌||◌, map, codes};
ghost use Rattle.std.specs.Str.{bytes_eq};
ghost use Rattle.kh_term.specs.declared.tree.TermTree.{out-TermTree};
ghost use Rattle.kh_cond.specs.Matching.{matches_data, matched, matched_pair, is_wildcard, match_shared, match_parts, match_entries, match_pairs, int_match, text_match, bin_match, nil_match, tuple_match, map_match};

use kh_term::{Term, TermTree, tree_cmp};
use std::cmp::Ordering;

/// Whether data match a pattern, in which the atom `_` stands for any term, but not in the keys of maps.
pub fn matches_data(pattern: &Term, datum: &Term) -> bool
    ensures { result ≡ matches_data pattern.now.node datum.now.node }
{
    tree_matches(&pattern.node, &datum.node)
}

/// Whether a part of data matches a part of a pattern.
#[cycle(matching)]
#[tactic(auto, using(kh_term::proofs::Layers::nils, crate::proofs::MatchLayers::matching))]
pub fn tree_matches(pattern: &TermTree, whole: &TermTree) -> bool
    ensures { result ≡ matches_data pattern.now whole.now }
{
    match pattern {
        TermTree::Int(number) => int_matches(*number, whole),
        TermTree::Atom(text) => {
            either(
                is_underscore(text.as_slice()),
                atom_matches(text.as_slice(), whole),
            )
        }
        TermTree::Bin(bytes) => bin_matches(bytes.as_slice(), whole),
        TermTree::Nil => nil_matches(whole),
        TermTree::List(parts, tail) => match whole {
            TermTree::List(others, rest) => {
                if !shared_match(parts.as_slice(), others.as_slice()) {
                    return false;
                }
                match parts.len().cmp(&others.len()) {
                    Ordering::Less => is_wildcard(tail.get()),
                    Ordering::Equal => tree_matches(tail.get(), rest.get()),
                    Ordering::Greater => false,
                }
            }
            TermTree::Int(_)
            | TermTree::Atom(_)
            | TermTree::Bin(_)
            | TermTree::Nil
            | TermTree::Tuple(_)
            | TermTree::Map(_)
            | TermTree::Closure(_, _) => false,
        },
        TermTree::Tuple(parts) => tuple_matches(parts.as_slice(), whole),
        TermTree::Map(pairs) => map_matches(pairs.as_slice(), whole),
        TermTree::Closure(_, _) => tree_cmp(pattern, whole).is_eq(),
    }
}

fn either(first: bool, second: bool) -> bool
    ensures { result ≡ (first || second) }
{
    first || second
}

// Whether it is the text of the atom that stands for any term.
fn is_underscore(text: &[u8]) -> bool
    ensures { result ≡ bytes_eq text.now (codes "_") }
{
    match text {
        b"_" => true,
        _ => false,
    }
}

#[tactic(auto, using(kh_term::proofs::Layers::nils))]
fn is_wildcard(pattern: &TermTree) -> bool
    ensures { result ≡ is_wildcard (out-TermTree pattern.now) }
{
    match pattern {
        TermTree::Atom(text) => is_underscore(text.as_slice()),
        TermTree::Int(_)
        | TermTree::Bin(_)
        | TermTree::Nil
        | TermTree::List(_, _)
        | TermTree::Tuple(_)
        | TermTree::Map(_)
        | TermTree::Closure(_, _) => false,
    }
}

#[tactic(auto, using(kh_term::proofs::Layers::nils))]
fn int_matches(number: i128, whole: &TermTree) -> bool
    ensures { result ≡ int_match number (out-TermTree whole.now) }
{
    match whole {
        TermTree::Int(other) => number.cmp(other).is_eq(),
        TermTree::Atom(_)
        | TermTree::Bin(_)
        | TermTree::Nil
        | TermTree::List(_, _)
        | TermTree::Tuple(_)
        | TermTree::Map(_)
        | TermTree::Closure(_, _) => false,
    }
}

#[tactic(auto, using(kh_term::proofs::Layers::nils))]
fn atom_matches(text: &[u8], whole: &TermTree) -> bool
    ensures { result ≡ text_match text.now (out-TermTree whole.now) }
{
    match whole {
        TermTree::Atom(other) => text == other.as_slice(),
        TermTree::Int(_)
        | TermTree::Bin(_)
        | TermTree::Nil
        | TermTree::List(_, _)
        | TermTree::Tuple(_)
        | TermTree::Map(_)
        | TermTree::Closure(_, _) => false,
    }
}

#[tactic(auto, using(kh_term::proofs::Layers::nils))]
fn bin_matches(bytes: &[u8], whole: &TermTree) -> bool
    ensures { result ≡ bin_match bytes.now (out-TermTree whole.now) }
{
    match whole {
        TermTree::Bin(other) => bytes == other.as_slice(),
        TermTree::Int(_)
        | TermTree::Atom(_)
        | TermTree::Nil
        | TermTree::List(_, _)
        | TermTree::Tuple(_)
        | TermTree::Map(_)
        | TermTree::Closure(_, _) => false,
    }
}

#[tactic(auto, using(kh_term::proofs::Layers::nils))]
fn nil_matches(whole: &TermTree) -> bool
    ensures { result ≡ nil_match (out-TermTree whole.now) }
{
    match whole {
        TermTree::Nil => true,
        TermTree::Int(_)
        | TermTree::Atom(_)
        | TermTree::Bin(_)
        | TermTree::List(_, _)
        | TermTree::Tuple(_)
        | TermTree::Map(_)
        | TermTree::Closure(_, _) => false,
    }
}

#[cycle(matching)]
#[tactic(auto, using(kh_term::proofs::Layers::nils, crate::proofs::MatchLayers::matching))]
fn tuple_matches(parts: &[TermTree], whole: &TermTree) -> bool
    ensures { result ≡ tuple_match (map matched parts.now) (out-TermTree whole.now) }
{
    match whole {
        TermTree::Tuple(others) => parts_match(parts, others.as_slice()),
        TermTree::Int(_)
        | TermTree::Atom(_)
        | TermTree::Bin(_)
        | TermTree::Nil
        | TermTree::List(_, _)
        | TermTree::Map(_)
        | TermTree::Closure(_, _) => false,
    }
}

#[cycle(matching)]
#[tactic(auto, using(crate::proofs::MatchLayers::matching))]
fn parts_match(parts: &[TermTree], others: &[TermTree]) -> bool
    ensures { result ≡ match_parts (map matched parts.now) others.now }
{
    if parts.len() != others.len() {
        return false;
    }
    shared_match(parts, others)
}

// Element by element, as far as both go.
#[cycle(matching)]
#[tactic(auto, using(crate::proofs::MatchLayers::matching))]
fn shared_match(parts: &[TermTree], others: &[TermTree]) -> bool
    ensures { result ≡ match_shared (map matched parts.now) others.now }
{
    for (at, part) in parts.iter().enumerate() {
        if at >= others.len() {
            return true;
        }
        if !tree_matches(part, &others[at]) {
            return false;
        }
    }
    true
}

#[cycle(matching)]
#[tactic(auto, using(kh_term::proofs::Layers::nils, crate::proofs::MatchLayers::matching))]
fn map_matches(pairs: &[(TermTree, TermTree)], whole: &TermTree) -> bool
    ensures { result ≡ map_match (map matched_pair pairs.now) (out-TermTree whole.now) }
{
    match whole {
        TermTree::Map(others) => pairs_match(pairs, others.as_slice()),
        TermTree::Int(_)
        | TermTree::Atom(_)
        | TermTree::Bin(_)
        | TermTree::Nil
        | TermTree::List(_, _)
        | TermTree::Tuple(_)
        | TermTree::Closure(_, _) => false,
    }
}

#[cycle(matching)]
#[tactic(auto, using(crate::proofs::MatchLayers::matching))]
fn pairs_match(pairs: &[(TermTree, TermTree)], others: &[(TermTree, TermTree)]) -> bool
    ensures { result ≡ match_pairs (map matched_pair pairs.now) others.now }
{
    if pairs.len() != others.len() {
        return false;
    }
    entries_match(pairs, others)
}

// Equal keys with values that match, as far as both go.
#[cycle(matching)]
#[tactic(auto, using(crate::proofs::MatchLayers::matching))]
fn entries_match(pairs: &[(TermTree, TermTree)], others: &[(TermTree, TermTree)]) -> bool
    ensures { result ≡ match_entries (map matched_pair pairs.now) others.now }
{
    for (at, pair) in pairs.iter().enumerate() {
        if at >= others.len() {
            return true;
        }
        if !tree_cmp(&pair.0, &others[at].0).is_eq() {
            return false;
        }
        if !tree_matches(&pair.1, &others[at].1) {
            return false;
        }
    }
    true
}
