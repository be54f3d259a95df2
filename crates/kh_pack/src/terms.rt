//! Terms, read off the front of packed bytes.
ghost use Rattle.std.specs.Prelude.{◌≡◌, [], length, IfOk};
ghost use Rattle.kh_pack.specs.Reading.{Gives, many_at, pairs_at, tail_at, list_at, tuple_at, map_at, closure_at, flat_at, deep_at, term_at};

use crate::error::Stop;
use crate::fields::{binary, count, first, integer, origin, text};
use crate::tags::{ATOM, BINARY, CLOSURE, INTEGER, LIST, MAP, NIL, TUPLE};
use kh_term::{Pairs, Term, Terms, atom, bin, closure, int, list_with_tail, map, nil, tuple};
use std::alloc::Global;

// Reads a term of depth 0 behind its tag.
#[tactic(auto, unfolding(crate::specs::Reading::flat_at))]
fn read_flat(alloc: Global, tag: u8, bytes: &[u8]) -> Result<(Term, &[u8]), Stop>
    ensures { Gives (λ x. (x.0.node, x.1.now)) result (flat_at tag bytes.now) }
{
    match tag {
        INTEGER => {
            let (number, rest) = integer(bytes)?;
            Ok((int(number), rest))
        }
        ATOM => {
            let (text, rest) = text(alloc, bytes)?;
            Ok((atom(text), rest))
        }
        BINARY => {
            let (text, rest) = binary(alloc, bytes)?;
            Ok((bin(text), rest))
        }
        _ => Err(Stop::NoTerm),
    }
}

// Reads so many terms of at most this depth.
#[cycle(term)]
fn read_many(alloc: Global, depth: u32, count: u32, bytes: &[u8]) -> Result<(Terms, &[u8]), Stop>
    ensures exact { Gives (λ x. (x.0.nodes, x.1.now)) result
        (many_at (term_at depth) count [] bytes.now) }
    ensures number { IfOk result (λ x. length x.0.nodes ≡ count) }
{
    let mut parts = Terms::new(alloc);
    let mut rest = bytes;
    'parts: for _ in 0..count {
        let (part, after) = read_term(alloc, depth, rest)?;
        parts.push(part)?;
        rest = after;
    }
    Ok((parts, rest))
}

// Reads so many keys with their values, of at most this depth. The keys have to rise.
#[cycle(term)]
fn read_pairs(alloc: Global, depth: u32, count: u32, bytes: &[u8]) -> Result<(Pairs, &[u8]), Stop>
    ensures { Gives (λ x. (x.0.nodes, x.1.now)) result
        (pairs_at (term_at depth) count [] bytes.now) }
{
    let mut pairs = Pairs::new(alloc);
    let mut rest = bytes;
    'entries: for _ in 0..count {
        let (key, after) = read_term(alloc, depth, rest)?;
        let (value, after) = read_term(alloc, depth, after)?;
        let rises = pairs.push(key, value)?;
        if !rises {
            return Err(Stop::NoTerm);
        }
        rest = after;
    }
    Ok((pairs, rest))
}

// Reads the tail of a list, which is nil, or of at most this depth and no list.
#[cycle(term)]
#[tactic(auto, unfolding(crate::specs::Reading::tail_at))]
fn read_tail(alloc: Global, depth: u32, bytes: &[u8]) -> Result<(Term, &[u8]), Stop>
    ensures { Gives (λ x. (x.0.node, x.1.now)) result (tail_at (term_at depth) bytes.now) }
{
    match bytes {
        [] => Err(Stop::NoTerm),
        [NIL, rest @ ..] => Ok((nil(), rest)),
        [LIST, ..] => Err(Stop::NoTerm),
        [_, ..] => read_term(alloc, depth, bytes),
    }
}

// Reads a list behind its tag, whose parts are of at most this depth.
#[cycle(term)]
#[tactic(auto, unfolding(crate::specs::Reading::list_at))]
fn read_list(alloc: Global, depth: u32, bytes: &[u8]) -> Result<(Term, &[u8]), Stop>
    ensures { Gives (λ x. (x.0.node, x.1.now)) result (list_at (term_at depth) bytes.now) }
{
    let (count, rest) = count(bytes)?;
    if count == 0 {
        return Err(Stop::NoTerm);
    }
    let (parts, rest) = read_many(alloc, depth, count, rest)?;
    let (tail, rest) = read_tail(alloc, depth, rest)?;
    Ok((list_with_tail(alloc, parts, tail)?, rest))
}

// Reads a tuple behind its tag, whose parts are of at most this depth.
#[cycle(term)]
#[tactic(auto, unfolding(crate::specs::Reading::tuple_at))]
fn read_tuple(alloc: Global, depth: u32, bytes: &[u8]) -> Result<(Term, &[u8]), Stop>
    ensures { Gives (λ x. (x.0.node, x.1.now)) result (tuple_at (term_at depth) bytes.now) }
{
    let (count, rest) = count(bytes)?;
    let (parts, rest) = read_many(alloc, depth, count, rest)?;
    Ok((tuple(parts), rest))
}

// Reads a map behind its tag, whose keys and values are of at most this depth.
#[cycle(term)]
#[tactic(auto, unfolding(crate::specs::Reading::map_at))]
fn read_map(alloc: Global, depth: u32, bytes: &[u8]) -> Result<(Term, &[u8]), Stop>
    ensures { Gives (λ x. (x.0.node, x.1.now)) result (map_at (term_at depth) bytes.now) }
{
    let (count, rest) = count(bytes)?;
    let (pairs, rest) = read_pairs(alloc, depth, count, rest)?;
    Ok((map(pairs), rest))
}

// Reads a closure behind its tag, whose captured values are of at most this depth, and no more than its arity.
#[cycle(term)]
#[tactic(auto, unfolding(crate::specs::Reading::closure_at))]
fn read_closure(alloc: Global, depth: u32, bytes: &[u8]) -> Result<(Term, &[u8]), Stop>
    ensures { Gives (λ x. (x.0.node, x.1.now)) result (closure_at (term_at depth) bytes.now) }
{
    let (origin, rest) = origin(alloc, bytes)?;
    let (captured, rest) = first(rest)?;
    if origin.arity < captured {
        return Err(Stop::NoTerm);
    }
    let (env, rest) = read_many(alloc, depth, captured as u32, rest)?;
    Ok((closure(origin, env), rest))
}

// Reads a term behind its tag, whose parts are of at most this depth.
#[cycle(term)]
#[tactic(auto, unfolding(crate::specs::Reading::deep_at))]
fn read_deep(alloc: Global, depth: u32, tag: u8, bytes: &[u8]) -> Result<(Term, &[u8]), Stop>
    ensures { Gives (λ x. (x.0.node, x.1.now)) result (deep_at (term_at depth) tag bytes.now) }
{
    match tag {
        NIL => Ok((nil(), bytes)),
        LIST => read_list(alloc, depth, bytes),
        TUPLE => read_tuple(alloc, depth, bytes),
        MAP => read_map(alloc, depth, bytes),
        CLOSURE => read_closure(alloc, depth, bytes),
        _ => read_flat(alloc, tag, bytes),
    }
}

/// Reads a term of at most this depth.
#[cycle(term)]
#[tactic(auto, unfolding(crate::specs::Reading::term_at))]
pub fn read_term(alloc: Global, depth: u32, bytes: &[u8]) -> Result<(Term, &[u8]), Stop>
    ensures { Gives (λ x. (x.0.node, x.1.now)) result (term_at depth bytes.now) }
{
    let (tag, rest) = first(bytes)?;
    if depth == 0 {
        return read_flat(alloc, tag, rest);
    }
    read_deep(alloc, depth - 1, tag, rest)
}
