//! Maps of the pairs of two maps, and of a list of pairs.
ghost use Rattle.std.specs.Prelude.{◌≡◌, ◌+◌, ◌*◌, ◌<◌, length, map, IfOk, IfSome, option_map};
ghost use Rattle.kh_term.specs.declared.tree.TermTree.TheVariants as tree;
ghost use Rattle.kh_term.specs.MapOf.{map_of, map_with};
ghost use Rattle.kh_term.specs.WellFormed.{AreTerms, IsTerm};
ghost use Rattle.kh_heap.specs.Heap.{most_cells, term_at, terms_at, pairs_at, Holds, HoldsAll, HoldsPairs};
ghost use Rattle.kh_heap.specs.Parts.{pairs_in};
ghost use Rattle.kh_heap.specs.View.{HasPairs};
ghost use Rattle.kh_bif_base.specs.Answer.{Value, badarg, limited};
ghost use Rattle.kh_bif_base.specs.Answers.{Answers, GrewBy};
ghost use Rattle.kh_bif_data.specs.Answer.{pair_count, where_map};
ghost use Rattle.kh_bif_data.specs.Asked.{of_some};
ghost use Rattle.kh_bif_data.specs.Built.{Built};
ghost use Rattle.kh_bif_data.specs.Lists.{elements};
ghost use Rattle.kh_bif_data.specs.Maps.{all_pairs, from_list, merge, pair_of, ByKeys};

use crate::building::answer;
use crate::elements::{pairs, proper};
use kh_bif_base::{bad_map, raise};
use kh_heap::{BifError, Heap, HeapError, Ref, View};
use kh_term::NoMemory;
use std::alloc::Global;
use std::cmp::Ordering;

// The pairs of both by rising keys; of equal keys the second one's.
fn merged(
    alloc: Global,
    first: &[(Ref, Ref)],
    second: &[(Ref, Ref)],
    heap: &Heap,
) -> Result<Vec<(Ref, Ref)>, NoMemory>
    requires first { HoldsPairs heap.now first.now }
    requires second { HoldsPairs heap.now second.now }
    requires first_rises { ByKeys (pairs_at heap.now first.now) }
    requires second_rises { ByKeys (pairs_at heap.now second.now) }
    ensures held { IfOk result (λ ps. HoldsPairs heap.now ps.items) }
    ensures terms { IfOk result (λ ps. pairs_at heap.now ps.items
        ≡ map_with (pairs_at heap.now first.now) (pairs_at heap.now second.now)) }
{
    let mut all = Vec::new(alloc);
    let mut left = first;
    let mut right = second;
    'walk: loop {
        let Some((l, behind_l)) = left.split_first() else {
            all.extend_from_slice(right)?;
            return Ok(all);
        };
        let Some((r, behind_r)) = right.split_first() else {
            all.extend_from_slice(left)?;
            return Ok(all);
        };
        match heap.compare(l.0, r.0) {
            Ordering::Less => {
                all.push(*l)?;
                left = behind_l;
            }
            Ordering::Equal => {
                all.push(*r)?;
                left = behind_l;
                right = behind_r;
            }
            Ordering::Greater => {
                all.push(*r)?;
                right = behind_r;
            }
        }
    }
}

// The map of the pairs of two maps.
fn both(
    alloc: Global,
    a: Ref,
    a_count: u32,
    b: Ref,
    b_count: u32,
    heap: &mut Heap,
) -> Result<Ref, HeapError>
    requires a_held { Holds heap.old a }
    requires a_map { HasPairs (term_at heap.old a) a_count }
    requires b_held { Holds heap.old b }
    requires b_map { HasPairs (term_at heap.old b) b_count }
    requires room { length heap.old + (2 * (a_count + b_count) + 2) < most_cells }
    ensures built { Built heap.new (tree.Map
        (map_with (pairs_in (term_at heap.old a)) (pairs_in (term_at heap.old b)))) result }
    ensures grew { GrewBy (2 * (a_count + b_count) + 1) heap.old heap.new }
{
    let _first = heap.size(a);
    let _second = heap.size(b);
    let first = pairs(alloc, a, a_count, heap)?;
    let second = pairs(alloc, b, b_count, heap)?;
    let all = merged(alloc, first.as_slice(), second.as_slice(), heap)?;
    heap.map(all.as_slice())
}

// The map of the pairs of two maps; of equal keys the second one's.
pub(crate) fn merge(alloc: Global, a: Ref, b: Ref, heap: &mut Heap) -> Result<Ref, BifError>
    requires first { Holds heap.old a }
    requires second { Holds heap.old b }
    requires room { length heap.old + (5 * where_map (term_at heap.old a) (where_map
        (term_at heap.old b) (pair_count (term_at heap.old a) + pair_count (term_at heap.old b)))
        + 16) < most_cells }
    ensures answer { Answers heap.new result
        (limited (merge (term_at heap.old a) (term_at heap.old b))) }
    ensures grew { GrewBy (5 * where_map (term_at heap.old a) (where_map
        (term_at heap.old b) (pair_count (term_at heap.old a) + pair_count (term_at heap.old b)))
        + 16) heap.old heap.new }
{
    let View::Map(a_count) = heap.view(a) else {
        return bad_map(alloc, a, heap);
    };
    let View::Map(b_count) = heap.view(b) else {
        return bad_map(alloc, b, heap);
    };
    let built = both(alloc, a, a_count, b, b_count, heap);
    answer(alloc, built, heap)
}

// The pair that a tuple of two elements is.
fn pair(r: Ref, heap: &Heap) -> Option<(Ref, Ref)>
    requires { Holds heap.now r }
    ensures held { IfSome result (λ p. Holds heap.now p.0 × Holds heap.now p.1) }
    ensures fits { IfSome result (λ p. IsTerm (term_at heap.now p.0)) }
    ensures terms { option_map (λ p. (term_at heap.now p.0, term_at heap.now p.1)) result
        ≡ pair_of (term_at heap.now r) }
{
    let _size = heap.size(r);
    match heap.view(r) {
        View::Tuple(count) => {
            if count == 2 {
                Some((heap.part(r, 0), heap.part(r, 1)))
            } else {
                None
            }
        }
        _ => None,
    }
}

// The pairs that these tuples are; none where one of them is none.
fn all_pairs(
    alloc: Global,
    tuples: &[Ref],
    heap: &Heap,
) -> Result<Option<Vec<(Ref, Ref)>>, NoMemory>
    requires { HoldsAll heap.now tuples.now }
    ensures held { IfOk result (λ r. IfSome r (λ ps. HoldsPairs heap.now ps.items)) }
    ensures fit { IfOk result
        (λ r. IfSome r (λ ps. AreTerms (map (λ p. p.0) (pairs_at heap.now ps.items)))) }
    ensures terms { IfOk result (λ r. option_map (λ ps. pairs_at heap.now ps.items) r
        ≡ all_pairs (terms_at heap.now tuples.now)) }
{
    let mut all = Vec::new(alloc);
    for tuple in tuples {
        let Some(found) = pair(*tuple, heap) else {
            return Ok(None);
        };
        all.push(found)?;
    }
    Ok(Some(all))
}

// The pairs by rising keys; of equal keys the last. Each half by itself, and then both.
#[cycle(order)]
fn in_order(alloc: Global, all: &[(Ref, Ref)], heap: &Heap) -> Result<Vec<(Ref, Ref)>, NoMemory>
    requires held { HoldsPairs heap.now all.now }
    requires fit { AreTerms (map (λ p. p.0) (pairs_at heap.now all.now)) }
    ensures held { IfOk result (λ ps. HoldsPairs heap.now ps.items) }
    ensures terms { IfOk result
        (λ ps. pairs_at heap.now ps.items ≡ map_of (pairs_at heap.now all.now)) }
{
    if all.len() < 2 {
        let one = Vec::from_slice(alloc, all)?;
        return Ok(one);
    }
    let (front, back) = all.split_at(all.len() / 2);
    let first = in_order(alloc, front, heap)?;
    let second = in_order(alloc, back, heap)?;
    merged(alloc, first.as_slice(), second.as_slice(), heap)
}

// The map of these pairs.
fn map_of(alloc: Global, all: Vec<(Ref, Ref)>, heap: &mut Heap) -> Result<Ref, HeapError>
    requires held { HoldsPairs heap.old all.items }
    requires fit { AreTerms (map (λ p. p.0) (pairs_at heap.old all.items)) }
    requires room { length heap.old + (2 * length all.items + 2) < most_cells }
    ensures built { Built heap.new (tree.Map (map_of (pairs_at heap.old all.items))) result }
    ensures grew { GrewBy (2 * length all.items + 1) heap.old heap.new }
{
    let pairs = in_order(alloc, all.as_slice(), heap)?;
    heap.map(pairs.as_slice())
}

// The map of tuples of two elements.
fn from_tuples(alloc: Global, tuples: &[Ref], heap: &mut Heap) -> Result<Ref, BifError>
    requires held { HoldsAll heap.old tuples.now }
    requires room { length heap.old + (5 * length tuples.now + 16) < most_cells }
    ensures answer { Answers heap.new result
        (limited (of_some (all_pairs (terms_at heap.old tuples.now)) badarg
        (λ ps. Value (tree.Map (map_of ps))))) }
    ensures grew { GrewBy (5 * length tuples.now + 16) heap.old heap.new }
{
    match all_pairs(alloc, tuples, heap) {
        Ok(Some(all)) => {
            let built = map_of(alloc, all, heap);
            answer(alloc, built, heap)
        }
        Ok(None) => raise(alloc, "badarg", heap),
        Err(_) => Err(BifError::NoMemory),
    }
}

// The map of a list of pairs; of equal keys the last counts.
pub(crate) fn from_list(alloc: Global, a: Ref, heap: &mut Heap) -> Result<Ref, BifError>
    requires held { Holds heap.old a }
    requires room { length heap.old + (5 * length (elements (term_at heap.old a)) + 16)
        < most_cells }
    ensures answer { Answers heap.new result (limited (from_list (term_at heap.old a))) }
    ensures grew { GrewBy (5 * length (elements (term_at heap.old a)) + 16) heap.old heap.new }
{
    match proper(alloc, a, heap) {
        Ok(Some(items)) => from_tuples(alloc, items.as_slice(), heap),
        Ok(None) => raise(alloc, "badarg", heap),
        Err(_) => Err(BifError::NoMemory),
    }
}
