//! The parts of terms, as references.
ghost use Rattle.std.specs.Prelude.{◌≡◌, ◌*◌, ◌<◌, length, map, option_map, IfOk, IfSome};
ghost use Rattle.kh_heap.specs.Heap.{term_at, terms_at, pairs_at, Holds, HoldsAll, HoldsPairs};
ghost use Rattle.kh_heap.specs.Parts.{bytes_in, pairs_in, parts_in, side};
ghost use Rattle.kh_heap.specs.View.{HasPairs, IsBin};
ghost use Rattle.kh_bif_data.specs.Lists.{elements, ends_in_nil, proper};

use kh_heap::{Heap, Ref, View};
use kh_term::NoMemory;
use std::alloc::Global;

// The elements of a list before its tail, and whether that is nil.
fn elements(alloc: Global, a: Ref, heap: &Heap) -> Result<(Vec<Ref>, bool), NoMemory>
    requires { Holds heap.now a }
    ensures held { IfOk result (λ r. HoldsAll heap.now r.0.items) }
    ensures terms { IfOk result
        (λ r. terms_at heap.now r.0.items ≡ elements (term_at heap.now a)) }
    ensures proper { IfOk result (λ r. r.1 ≡ ends_in_nil (term_at heap.now a)) }
{
    let mut items = Vec::new(alloc);
    let mut left = a;
    'along: loop {
        match heap.view(left) {
            View::Cons(head, rest) => {
                items.push(head)?;
                left = rest;
            }
            View::Nil => return Ok((items, true)),
            _ => return Ok((items, false)),
        }
    }
}

// The elements of nil or of a list that ends in nil; none of another term.
pub(crate) fn proper(alloc: Global, a: Ref, heap: &Heap) -> Result<Option<Vec<Ref>>, NoMemory>
    requires { Holds heap.now a }
    ensures held { IfOk result (λ r. IfSome r (λ rs. HoldsAll heap.now rs.items)) }
    ensures terms { IfOk result (λ r. option_map (λ rs. terms_at heap.now rs.items) r
        ≡ proper (term_at heap.now a)) }
{
    let (items, is_proper) = elements(alloc, a, heap)?;
    if is_proper { Ok(Some(items)) } else { Ok(None) }
}

// The number of elements of a list before its tail.
pub(crate) fn count(a: Ref, heap: &Heap) -> u64
    requires { Holds heap.now a }
    ensures { result ≡ length (elements (term_at heap.now a)) }
{
    let _bound = heap.size(a);
    let mut count = 0;
    let mut left = a;
    'along: loop {
        match heap.view(left) {
            View::Cons(_, rest) => {
                count += 1;
                left = rest;
            }
            _ => return count,
        }
    }
}

// The parts of a term.
pub(crate) fn parts(alloc: Global, r: Ref, count: u32, heap: &Heap) -> Result<Vec<Ref>, NoMemory>
    requires held { Holds heap.now r }
    requires count { length (parts_in (term_at heap.now r)) ≡ count }
    ensures held { IfOk result (λ rs. HoldsAll heap.now rs.items) }
    ensures terms { IfOk result (λ rs. terms_at heap.now rs.items ≡ parts_in (term_at heap.now r)) }
{
    let mut items = Vec::new(alloc);
    for i in 0..count {
        items.push(heap.part(r, i))?;
    }
    Ok(items)
}

// The keys of a map, or with 1 in place of 0 its values.
#[tactic(auto, using(crate::proofs::Sized::map_few))]
pub(crate) fn half(
    alloc: Global,
    r: Ref,
    half: u32,
    count: u32,
    heap: &Heap,
) -> Result<Vec<Ref>, NoMemory>
    requires held { Holds heap.now r }
    requires map { HasPairs (term_at heap.now r) count }
    requires half { half < 2 }
    ensures held { IfOk result (λ rs. HoldsAll heap.now rs.items) }
    ensures terms { IfOk result
        (λ rs. terms_at heap.now rs.items ≡ map (side half) (pairs_in (term_at heap.now r))) }
{
    let _size = heap.size(r);
    let mut items = Vec::new(alloc);
    for i in 0..count {
        items.push(heap.part(r, 2 * i + half))?;
    }
    Ok(items)
}

// The keys and values of a map.
#[tactic(auto, using(crate::proofs::Sized::map_few))]
pub(crate) fn pairs(
    alloc: Global,
    r: Ref,
    count: u32,
    heap: &Heap,
) -> Result<Vec<(Ref, Ref)>, NoMemory>
    requires held { Holds heap.now r }
    requires map { HasPairs (term_at heap.now r) count }
    ensures held { IfOk result (λ ps. HoldsPairs heap.now ps.items) }
    ensures terms { IfOk result (λ ps. pairs_at heap.now ps.items ≡ pairs_in (term_at heap.now r)) }
{
    let _size = heap.size(r);
    let mut items = Vec::new(alloc);
    for i in 0..count {
        let key = heap.part(r, 2 * i);
        let value = heap.part(r, 2 * i + 1);
        items.push((key, value))?;
    }
    Ok(items)
}

// The bytes of a binary.
pub(crate) fn bytes(alloc: Global, r: Ref, count: u32, heap: &Heap) -> Result<Vec<u8>, NoMemory>
    requires held { Holds heap.now r }
    requires binary { IsBin (term_at heap.now r) }
    requires count { length (bytes_in (term_at heap.now r)) ≡ count }
    ensures { IfOk result (λ bytes. bytes.items ≡ bytes_in (term_at heap.now r)) }
{
    let mut items = Vec::new(alloc);
    for i in 0..count {
        items.push(heap.byte(r, i))?;
    }
    Ok(items)
}
