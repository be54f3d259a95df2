//! The built-ins that look up a key of a map, and those that list its pairs.
ghost use Rattle.std.specs.Prelude.{◌≡◌, ◌+◌, ◌*◌, ◌<◌, codes, length, map, IfOk, IfErr, IfSome, option_map};
ghost use Rattle.kh_term.specs.declared.tree.TermTree.TheVariants as tree;
ghost use Rattle.kh_term.specs.Make.{list_of};
ghost use Rattle.kh_term.specs.Lookup.{IsPlaceOf, value_at};
ghost use Rattle.kh_heap.specs.Heap.{most_cells, term_at, terms_at, Holds, HoldsAll};
ghost use Rattle.kh_heap.specs.declared.error.HeapError.TheVariants.{NoMemory};
ghost use Rattle.kh_heap.specs.Parts.{pairs_in, side};
ghost use Rattle.kh_heap.specs.View.{HasPairs};
ghost use Rattle.kh_bif_base.specs.Answer.{limited};
ghost use Rattle.kh_bif_base.specs.Answers.{Answers, GrewBy};
ghost use Rattle.kh_bif_data.specs.Answer.{pair_count};
ghost use Rattle.kh_bif_data.specs.Asked.{of_some};
ghost use Rattle.kh_bif_data.specs.Built.{Built};
ghost use Rattle.kh_bif_data.specs.Maps.{badkey, get, is_key, find_key, keys, ok_with, pair_tree, values, to_list};

use crate::building::{answer, atom, list, raise_built, tagged};
use crate::elements::half;
use crate::values::value;
use kh_bif_base::{bad_map, boolean};
use kh_heap::{BifError, Heap, HeapError, Ref, View};
use std::alloc::Global;
use std::cmp::Ordering;

// The place of a key among the pairs of a map; else, as an error, the place at which it would stand.
#[tactic(auto, using(crate::proofs::Sized::map_few))]
pub(crate) fn place(key: Ref, m: Ref, count: u32, heap: &Heap) -> Result<u32, u32>
    requires first { Holds heap.now key }
    requires second { Holds heap.now m }
    requires map { HasPairs (term_at heap.now m) count }
    ensures { IsPlaceOf (term_at heap.now key) (pairs_in (term_at heap.now m)) result }
{
    let _map = heap.size(m);
    let _key = heap.size(key);
    let mut low = 0;
    let mut high = count;
    'search: while low < high {
        let middle = low + (high - low) / 2;
        match heap.compare(heap.part(m, 2 * middle), key) {
            Ordering::Less => low = middle + 1,
            Ordering::Equal => return Ok(middle),
            Ordering::Greater => high = middle,
        }
    }
    Err(low)
}

// The value at a key.
#[tactic(auto, using(crate::proofs::Sized::map_few))]
fn value_at(key: Ref, m: Ref, count: u32, heap: &Heap) -> Option<Ref>
    requires first { Holds heap.now key }
    requires second { Holds heap.now m }
    requires map { HasPairs (term_at heap.now m) count }
    ensures held { IfSome result (Holds heap.now) }
    ensures value { option_map (term_at heap.now) result
        ≡ value_at (term_at heap.now key) (pairs_in (term_at heap.now m)) }
{
    let _map = heap.size(m);
    let _key = heap.size(key);
    match place(key, m, count, heap) {
        Ok(at) => Some(heap.part(m, 2 * at + 1)),
        Err(_) => None,
    }
}

// Raises `{badkey,K}`.
fn bad_key(alloc: Global, key: Ref, heap: &mut Heap) -> Result<Ref, BifError>
    requires held { Holds heap.old key }
    requires room { length heap.old + 7 < most_cells }
    ensures answer { Answers heap.new result (limited (badkey (term_at heap.old key))) }
    ensures grew { GrewBy 7 heap.old heap.new }
{
    let reason = tagged(alloc, "badkey", key, heap);
    raise_built(alloc, reason, heap)
}

// The value at a key of a map.
pub(crate) fn get(alloc: Global, key: Ref, m: Ref, heap: &mut Heap) -> Result<Ref, BifError>
    requires first { Holds heap.old key }
    requires second { Holds heap.old m }
    requires room { length heap.old + 16 < most_cells }
    ensures answer { Answers heap.new result
        (limited (get (term_at heap.old key) (term_at heap.old m))) }
    ensures grew { GrewBy 16 heap.old heap.new }
{
    match heap.view(m) {
        View::Map(count) => match value_at(key, m, count, heap) {
            Some(found) => value(found, heap),
            None => bad_key(alloc, key, heap),
        },
        _ => bad_map(alloc, m, heap),
    }
}

// Whether a map has a key.
pub(crate) fn is_key(alloc: Global, key: Ref, m: Ref, heap: &mut Heap) -> Result<Ref, BifError>
    requires first { Holds heap.old key }
    requires second { Holds heap.old m }
    requires room { length heap.old + 16 < most_cells }
    ensures answer { Answers heap.new result
        (limited (is_key (term_at heap.old key) (term_at heap.old m))) }
    ensures grew { GrewBy 16 heap.old heap.new }
{
    match heap.view(m) {
        View::Map(count) => {
            let found = value_at(key, m, count, heap).is_some();
            boolean(alloc, found, heap)
        }
        _ => bad_map(alloc, m, heap),
    }
}

// `{ok,V}`, or `error` where the key isn't there.
fn ok_or_error(alloc: Global, found: Option<Ref>, heap: &mut Heap) -> Result<Ref, HeapError>
    requires held { IfSome found (Holds heap.old) }
    requires room { length heap.old + 5 < most_cells }
    ensures built { Built heap.new (of_some (option_map (term_at heap.old) found)
        (tree.Atom (codes "error")) ok_with) result }
    ensures grew { GrewBy 5 heap.old heap.new }
{
    match found {
        Some(value) => tagged(alloc, "ok", value, heap),
        None => atom(alloc, "error", heap),
    }
}

// The value at a key of a map, where the key may be absent.
pub(crate) fn find(alloc: Global, key: Ref, m: Ref, heap: &mut Heap) -> Result<Ref, BifError>
    requires first { Holds heap.old key }
    requires second { Holds heap.old m }
    requires room { length heap.old + 16 < most_cells }
    ensures answer { Answers heap.new result
        (limited (find_key (term_at heap.old key) (term_at heap.old m))) }
    ensures grew { GrewBy 16 heap.old heap.new }
{
    match heap.view(m) {
        View::Map(count) => {
            let found = value_at(key, m, count, heap);
            let built = ok_or_error(alloc, found, heap);
            answer(alloc, built, heap)
        }
        _ => bad_map(alloc, m, heap),
    }
}

// The keys of a map, or with 1 in place of 0 its values.
fn halves(
    alloc: Global,
    m: Ref,
    half_of: u32,
    count: u32,
    heap: &mut Heap,
) -> Result<Ref, HeapError>
    requires held { Holds heap.old m }
    requires map { HasPairs (term_at heap.old m) count }
    requires half { half_of < 2 }
    requires room { length heap.old + count + 3 < most_cells }
    ensures built { Built heap.new
        (list_of (map (side half_of) (pairs_in (term_at heap.old m)))) result }
    ensures grew { GrewBy (count + 2) heap.old heap.new }
{
    let items = half(alloc, m, half_of, count, heap)?;
    list(items.as_slice(), heap)
}

// The keys of a map.
pub(crate) fn keys(alloc: Global, m: Ref, heap: &mut Heap) -> Result<Ref, BifError>
    requires held { Holds heap.old m }
    requires room { length heap.old + (5 * pair_count (term_at heap.old m) + 16) < most_cells }
    ensures answer { Answers heap.new result (limited (keys (term_at heap.old m))) }
    ensures grew { GrewBy (5 * pair_count (term_at heap.old m) + 16) heap.old heap.new }
{
    match heap.view(m) {
        View::Map(count) => {
            let built = halves(alloc, m, 0, count, heap);
            answer(alloc, built, heap)
        }
        _ => bad_map(alloc, m, heap),
    }
}

// The values of a map.
pub(crate) fn values(alloc: Global, m: Ref, heap: &mut Heap) -> Result<Ref, BifError>
    requires held { Holds heap.old m }
    requires room { length heap.old + (5 * pair_count (term_at heap.old m) + 16) < most_cells }
    ensures answer { Answers heap.new result (limited (values (term_at heap.old m))) }
    ensures grew { GrewBy (5 * pair_count (term_at heap.old m) + 16) heap.old heap.new }
{
    match heap.view(m) {
        View::Map(count) => {
            let built = halves(alloc, m, 1, count, heap);
            answer(alloc, built, heap)
        }
        _ => bad_map(alloc, m, heap),
    }
}

// The pairs of a map as tuples.
#[tactic(auto, using(crate::proofs::Sized::map_few))]
fn tuples(alloc: Global, m: Ref, count: u32, heap: &mut Heap) -> Result<Vec<Ref>, HeapError>
    requires held { Holds heap.old m }
    requires map { HasPairs (term_at heap.old m) count }
    requires room { length heap.old + (3 * count + 1) < most_cells }
    ensures held { IfOk result (λ rs. HoldsAll heap.new rs.items) }
    ensures terms { IfOk result (λ rs. terms_at heap.new rs.items
        ≡ map pair_tree (pairs_in (term_at heap.old m))) }
    ensures limits { IfErr result (λ e. e ≡ NoMemory) }
    ensures grew { GrewBy (3 * count) heap.old heap.new }
{
    let _size = heap.size(m);
    let _depth = heap.depth(m);
    let mut items = Vec::new(alloc);
    for i in 0..count {
        let key = heap.part(m, 2 * i);
        let value = heap.part(m, 2 * i + 1);
        let pair = heap.tuple(&[key, value])?;
        items.push(pair)?;
    }
    Ok(items)
}

// The list of the pairs of a map as tuples.
fn tuple_list(alloc: Global, m: Ref, count: u32, heap: &mut Heap) -> Result<Ref, HeapError>
    requires held { Holds heap.old m }
    requires map { HasPairs (term_at heap.old m) count }
    requires room { length heap.old + (4 * count + 4) < most_cells }
    ensures built { Built heap.new
        (list_of (map pair_tree (pairs_in (term_at heap.old m)))) result }
    ensures grew { GrewBy (4 * count + 3) heap.old heap.new }
{
    let items = tuples(alloc, m, count, heap)?;
    list(items.as_slice(), heap)
}

// A map as a list of pairs.
pub(crate) fn to_list(alloc: Global, m: Ref, heap: &mut Heap) -> Result<Ref, BifError>
    requires held { Holds heap.old m }
    requires room { length heap.old + (5 * pair_count (term_at heap.old m) + 16) < most_cells }
    ensures answer { Answers heap.new result (limited (to_list (term_at heap.old m))) }
    ensures grew { GrewBy (5 * pair_count (term_at heap.old m) + 16) heap.old heap.new }
{
    match heap.view(m) {
        View::Map(count) => {
            let built = tuple_list(alloc, m, count, heap);
            answer(alloc, built, heap)
        }
        _ => bad_map(alloc, m, heap),
    }
}
