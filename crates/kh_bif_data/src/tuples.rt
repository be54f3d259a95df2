//! The built-ins of tuples.
ghost use Rattle.std.specs.Prelude.{◌≡◌, ◌+◌, ◌*◌, ◌<◌, length, slice_set};
ghost use Rattle.kh_term.specs.declared.tree.TermTree.TheVariants as tree;
ghost use Rattle.kh_term.specs.Make.{list_of};
ghost use Rattle.kh_heap.specs.Heap.{most_cells, term_at, Holds};
ghost use Rattle.kh_heap.specs.Parts.{parts_in};
ghost use Rattle.kh_bif_base.specs.Answer.{limited};
ghost use Rattle.kh_bif_base.specs.Answers.{Answers, GrewBy};
ghost use Rattle.kh_bif_data.specs.Answer.{element_count, where_integer};
ghost use Rattle.kh_bif_data.specs.Built.{Built};
ghost use Rattle.kh_bif_data.specs.Lists.{elements};
ghost use Rattle.kh_bif_data.specs.Tuples.{place_in, set_element, tuple_to_list, list_to_tuple};

use crate::building::{answer, list};
use crate::elements::{parts, proper};
use kh_bif_base::{integer, raise};
use kh_heap::{BifError, Heap, HeapError, Ref, View};
use std::alloc::Global;

// A place that is counted from 1, counted from 0, if it is one of so many.
fn place_in(place: i128, count: u32) -> Option<u32>
    ensures { result ≡ place_in place count }
{
    let most = i128::from(count);
    if place < 1 {
        None
    } else if place <= most {
        Some(place as u32 - 1)
    } else {
        None
    }
}

// A tuple with another element at a place, which is counted from 0.
fn with_element(
    alloc: Global,
    place: u32,
    t: Ref,
    count: u32,
    item: Ref,
    heap: &mut Heap,
) -> Result<Ref, HeapError>
    requires first { Holds heap.old t }
    requires second { Holds heap.old item }
    requires count { length (parts_in (term_at heap.old t)) ≡ count }
    requires within { place < count }
    requires room { length heap.old + (count + 1) < most_cells }
    ensures built { Built heap.new (tree.Tuple
        (slice_set (parts_in (term_at heap.old t)) place (term_at heap.old item))) result }
    ensures grew { GrewBy (count + 1) heap.old heap.new }
{
    let mut items = parts(alloc, t, count, heap)?;
    items[place as usize] = item;
    heap.tuple(items.as_slice())
}

// A tuple with another element at a place, which is counted from 1.
pub(crate) fn set_element(
    alloc: Global,
    place: Ref,
    t: Ref,
    item: Ref,
    heap: &mut Heap,
) -> Result<Ref, BifError>
    requires first { Holds heap.old place }
    requires second { Holds heap.old t }
    requires third { Holds heap.old item }
    requires room { length heap.old + (5 * where_integer (term_at heap.old place)
        (element_count (term_at heap.old t)) + 16) < most_cells }
    ensures answer { Answers heap.new result (limited (set_element (term_at heap.old place)
        (term_at heap.old t) (term_at heap.old item))) }
    ensures grew { GrewBy (5 * where_integer (term_at heap.old place)
        (element_count (term_at heap.old t)) + 16) heap.old heap.new }
{
    let View::Tuple(count) = heap.view(t) else {
        return raise(alloc, "badarg", heap);
    };
    let Some(number) = integer(place, heap) else {
        return raise(alloc, "badarg", heap);
    };
    match place_in(number, count) {
        Some(at) => {
            let built = with_element(alloc, at, t, count, item, heap);
            answer(alloc, built, heap)
        }
        None => raise(alloc, "badarg", heap),
    }
}

// The elements of a tuple as a list.
fn as_list(alloc: Global, t: Ref, count: u32, heap: &mut Heap) -> Result<Ref, HeapError>
    requires held { Holds heap.old t }
    requires count { length (parts_in (term_at heap.old t)) ≡ count }
    requires room { length heap.old + (count + 3) < most_cells }
    ensures built { Built heap.new (list_of (parts_in (term_at heap.old t))) result }
    ensures grew { GrewBy (count + 2) heap.old heap.new }
{
    let items = parts(alloc, t, count, heap)?;
    list(items.as_slice(), heap)
}

// The list of the elements of a tuple.
pub(crate) fn tuple_to_list(alloc: Global, t: Ref, heap: &mut Heap) -> Result<Ref, BifError>
    requires held { Holds heap.old t }
    requires room { length heap.old + (5 * element_count (term_at heap.old t) + 16) < most_cells }
    ensures answer { Answers heap.new result (limited (tuple_to_list (term_at heap.old t))) }
    ensures grew { GrewBy (5 * element_count (term_at heap.old t) + 16) heap.old heap.new }
{
    match heap.view(t) {
        View::Tuple(count) => {
            let built = as_list(alloc, t, count, heap);
            answer(alloc, built, heap)
        }
        _ => raise(alloc, "badarg", heap),
    }
}

// The tuple of the elements of a list.
pub(crate) fn list_to_tuple(alloc: Global, a: Ref, heap: &mut Heap) -> Result<Ref, BifError>
    requires held { Holds heap.old a }
    requires room { length heap.old + (5 * length (elements (term_at heap.old a)) + 16)
        < most_cells }
    ensures answer { Answers heap.new result (limited (list_to_tuple (term_at heap.old a))) }
    ensures grew { GrewBy (5 * length (elements (term_at heap.old a)) + 16) heap.old heap.new }
{
    match proper(alloc, a, heap) {
        Ok(Some(items)) => {
            let built = heap.tuple(items.as_slice());
            answer(alloc, built, heap)
        }
        Ok(None) => raise(alloc, "badarg", heap),
        Err(_) => Err(BifError::NoMemory),
    }
}
