//! The built-ins of lists.
ghost use Rattle.std.specs.Prelude.{◌≡◌, ◌+◌, ◌*◌, ◌<◌, ◌||◌, length, if◌then◌else◌, Some, None, IfSome, option_map};
ghost use Rattle.std.specs.List.{find, list_any};
ghost use Rattle.kh_term.specs.declared.tree.TermTree.TheVariants as tree;
ghost use Rattle.kh_term.specs.MapOf.{later};
ghost use Rattle.kh_heap.specs.Heap.{most_cells, term_at, Holds};
ghost use Rattle.kh_bif_base.specs.Answer.{limited};
ghost use Rattle.kh_bif_base.specs.Answers.{Answers, GrewBy};
ghost use Rattle.kh_bif_data.specs.Lists.{append, reverse_onto, member, keyfind, elements, ends_in_nil, is_term, has_at, from_zero, list_size};

use crate::building::{answer, empty, onto};
use crate::elements::proper;
use crate::values::value;
use kh_bif_base::{boolean, integer, raise};
use kh_heap::{BifError, Heap, Ref, View};
use std::alloc::Global;

// The elements of a list in front of a tail.
pub(crate) fn append(alloc: Global, a: Ref, tail: Ref, heap: &mut Heap) -> Result<Ref, BifError>
    requires first { Holds heap.old a }
    requires second { Holds heap.old tail }
    requires room { length heap.old + (5 * length (elements (term_at heap.old a)) + 16)
        < most_cells }
    ensures answer { Answers heap.new result
        (limited (append (term_at heap.old a) (term_at heap.old tail))) }
    ensures grew { GrewBy (5 * length (elements (term_at heap.old a)) + 16) heap.old heap.new }
{
    match proper(alloc, a, heap) {
        Ok(Some(items)) => {
            let built = onto(items.as_slice(), tail, heap);
            answer(alloc, built, heap)
        }
        Ok(None) => raise(alloc, "badarg", heap),
        Err(_) => Err(BifError::NoMemory),
    }
}

// The elements of a list backwards, in front of a tail.
pub(crate) fn reverse_onto(
    alloc: Global,
    a: Ref,
    tail: Ref,
    heap: &mut Heap,
) -> Result<Ref, BifError>
    requires first { Holds heap.old a }
    requires second { Holds heap.old tail }
    requires room { length heap.old + (5 * length (elements (term_at heap.old a)) + 12)
        < most_cells }
    ensures answer { Answers heap.new result
        (limited (reverse_onto (term_at heap.old a) (term_at heap.old tail))) }
    ensures grew { GrewBy (5 * length (elements (term_at heap.old a)) + 12) heap.old heap.new }
{
    match proper(alloc, a, heap) {
        Ok(Some(mut items)) => {
            items.reverse();
            let built = onto(items.as_slice(), tail, heap);
            answer(alloc, built, heap)
        }
        Ok(None) => raise(alloc, "badarg", heap),
        Err(_) => Err(BifError::NoMemory),
    }
}

// The elements of a list backwards.
pub(crate) fn reverse(alloc: Global, a: Ref, heap: &mut Heap) -> Result<Ref, BifError>
    requires held { Holds heap.old a }
    requires room { length heap.old + (5 * length (elements (term_at heap.old a)) + 16)
        < most_cells }
    ensures answer { Answers heap.new result
        (limited (reverse_onto (term_at heap.old a) tree.Nil)) }
    ensures grew { GrewBy (5 * length (elements (term_at heap.old a)) + 16) heap.old heap.new }
{
    match empty(heap) {
        Ok(nil) => reverse_onto(alloc, a, nil, heap),
        Err(_) => Err(BifError::NoMemory),
    }
}

fn either(a: bool, b: bool) -> bool
    ensures { result ≡ (a || b) }
{
    a || b
}

// Whether some element of a list is this term, and whether the list ends in nil.
fn found(x: Ref, a: Ref, heap: &Heap) -> (bool, bool)
    requires first { Holds heap.now x }
    requires second { Holds heap.now a }
    ensures found { result.0
        ≡ list_any (is_term (term_at heap.now x)) (elements (term_at heap.now a)) }
    ensures proper { result.1 ≡ ends_in_nil (term_at heap.now a) }
{
    let _bound = heap.size(a);
    let mut found = false;
    let mut left = a;
    'along: loop {
        match heap.view(left) {
            View::Cons(head, rest) => {
                found = either(found, heap.compare(head, x).is_eq());
                left = rest;
            }
            View::Nil => return (found, true),
            _ => return (found, false),
        }
    }
}

// Whether some element of a list is this term.
pub(crate) fn member(alloc: Global, x: Ref, a: Ref, heap: &mut Heap) -> Result<Ref, BifError>
    requires first { Holds heap.old x }
    requires second { Holds heap.old a }
    requires room { length heap.old + 16 < most_cells }
    ensures answer { Answers heap.new result
        (limited (member (term_at heap.old x) (term_at heap.old a))) }
    ensures grew { GrewBy 16 heap.old heap.new }
{
    let (found, is_proper) = found(x, a, heap);
    if is_proper {
        boolean(alloc, found, heap)
    } else {
        raise(alloc, "badarg", heap)
    }
}

// Whether a term is a tuple that has a key at a place, which is counted from 0.
fn has_at(key: Ref, place: u128, r: Ref, heap: &Heap) -> bool
    requires first { Holds heap.now key }
    requires second { Holds heap.now r }
    ensures { result ≡ has_at (term_at heap.now key) place (term_at heap.now r) }
{
    match heap.view(r) {
        View::Tuple(count) => {
            let many = u128::from(count);
            if place < many {
                let part = heap.part(r, place as u32);
                heap.compare(part, key).is_eq()
            } else {
                false
            }
        }
        _ => false,
    }
}

// What was found already, or else this term where it has a key at a place.
fn or_here(found: Option<Ref>, key: Ref, place: u128, r: Ref, heap: &Heap) -> Option<Ref>
    requires held { IfSome found (Holds heap.now) }
    requires first { Holds heap.now key }
    requires second { Holds heap.now r }
    ensures held { IfSome result (Holds heap.now) }
    ensures found { option_map (term_at heap.now) result
        ≡ later (option_map (term_at heap.now) found) (if has_at (term_at heap.now key) place
        (term_at heap.now r) then Some (term_at heap.now r) else None) }
{
    match found {
        Some(first) => Some(first),
        None => {
            if has_at(key, place, r, heap) {
                Some(r)
            } else {
                None
            }
        }
    }
}

// The first element of a list that has a key at a place, and whether the list ends in nil.
fn first_with(key: Ref, place: u128, a: Ref, heap: &Heap) -> (Option<Ref>, bool)
    requires first { Holds heap.now key }
    requires second { Holds heap.now a }
    ensures held { IfSome result.0 (Holds heap.now) }
    ensures found { option_map (term_at heap.now) result.0
        ≡ find (has_at (term_at heap.now key) place) (elements (term_at heap.now a)) }
    ensures proper { result.1 ≡ ends_in_nil (term_at heap.now a) }
{
    let _bound = heap.size(a);
    let mut found = None;
    let mut left = a;
    'along: loop {
        match heap.view(left) {
            View::Cons(head, rest) => {
                found = or_here(found, key, place, head, heap);
                left = rest;
            }
            View::Nil => return (found, true),
            _ => return (found, false),
        }
    }
}

// A place that is counted from 1, counted from 0.
fn from_zero(place: i128) -> Option<u128>
    ensures { result ≡ from_zero place }
{
    if place < 1 {
        None
    } else {
        Some(place.unsigned_abs() - 1)
    }
}

// The first tuple of a list that has a key at a place, which is counted from 1.
pub(crate) fn keyfind(
    alloc: Global,
    key: Ref,
    place: Ref,
    a: Ref,
    heap: &mut Heap,
) -> Result<Ref, BifError>
    requires first { Holds heap.old key }
    requires second { Holds heap.old place }
    requires third { Holds heap.old a }
    requires room { length heap.old + 16 < most_cells }
    ensures answer { Answers heap.new result (limited (keyfind (term_at heap.old key)
        (term_at heap.old place) (term_at heap.old a))) }
    ensures grew { GrewBy 16 heap.old heap.new }
{
    let Some(number) = integer(place, heap) else {
        return raise(alloc, "badarg", heap);
    };
    let Some(at) = from_zero(number) else {
        return raise(alloc, "badarg", heap);
    };
    let (found, is_proper) = first_with(key, at, a, heap);
    if !is_proper {
        return raise(alloc, "badarg", heap);
    }
    match found {
        Some(found) => value(found, heap),
        None => boolean(alloc, false, heap),
    }
}

// The size of nil or of a list, and 0 of another term.
pub(crate) fn list_size(a: Ref, heap: &Heap) -> u64
    requires { Holds heap.now a }
    ensures { result ≡ list_size (term_at heap.now a) }
{
    match heap.view(a) {
        View::Nil => heap.size(a),
        View::Cons(_, _) => heap.size(a),
        _ => 0,
    }
}
