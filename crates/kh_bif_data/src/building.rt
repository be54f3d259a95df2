//! Terms that are built on the heap, and answered.
ghost use Rattle.std.specs.Prelude.{◌≡◌, ◌+◌, ◌<◌, ◌≤◌, [], ◌∷◌, length};
ghost use Rattle.kh_term.specs.declared.kinds.Class.TheVariants as class;
ghost use Rattle.kh_term.specs.declared.tree.TermTree.{TermTree};
ghost use Rattle.kh_term.specs.declared.tree.TermTree.TheVariants as tree;
ghost use Rattle.kh_term.specs.Make.{list_of, list_with_tail};
ghost use Rattle.kh_heap.specs.Heap.{most_cells, term_at, terms_at, Holds, HoldsAll};
ghost use Rattle.kh_bif_base.specs.Answer.{Value, Raise, limited};
ghost use Rattle.kh_bif_base.specs.Answers.{Answers, GrewBy};
ghost use Rattle.kh_bif_data.specs.Built.{Built};

use kh_bif_base::raise;
use kh_heap::{BifError, Heap, HeapError, Ref};
use kh_term::{Class, MOST_NAME_BYTES, nil, word};
use std::alloc::Global;

// Answers a term that was built. Where it was too large, `system_limit` is raised.
pub(crate) fn answer(
    alloc: Global,
    built: Result<Ref, HeapError>,
    heap: &mut Heap,
) -> Result<Ref, BifError>
    requires room { length heap.old + 2 < most_cells }
    ensures answer { (t : TermTree) → Built heap.old t built
        → Answers heap.new result (limited (Value t)) }
    ensures grew { GrewBy 2 heap.old heap.new }
{
    match built {
        Ok(r) => Ok(r),
        Err(HeapError::TooLarge) => raise(alloc, "system_limit", heap),
        Err(HeapError::NoMemory) => Err(BifError::NoMemory),
    }
}

// Raises an error with a reason that was built. Where it was too large, `system_limit` is raised.
pub(crate) fn raise_built(
    alloc: Global,
    built: Result<Ref, HeapError>,
    heap: &mut Heap,
) -> Result<Ref, BifError>
    requires room { length heap.old + 2 < most_cells }
    ensures answer { (t : TermTree) → Built heap.old t built
        → Answers heap.new result (limited (Raise class.Error t)) }
    ensures grew { GrewBy 2 heap.old heap.new }
{
    match answer(alloc, built, heap) {
        Ok(reason) => Err(BifError::Raise {
            class: Class::Error,
            reason,
        }),
        Err(e) => Err(e),
    }
}

// The atom of a text.
pub(crate) fn atom(alloc: Global, text: &str, heap: &mut Heap) -> Result<Ref, HeapError>
    requires few { length text.now ≤ MOST_NAME_BYTES }
    requires room { length heap.old + 2 < most_cells }
    ensures built { Built heap.new (tree.Atom text.now) result }
    ensures grew { GrewBy 2 heap.old heap.new }
{
    let atom = word(alloc, text)?;
    heap.load(&atom)
}

// The tuple of an atom and a term.
pub(crate) fn tagged(alloc: Global, text: &str, r: Ref, heap: &mut Heap) -> Result<Ref, HeapError>
    requires few { length text.now ≤ MOST_NAME_BYTES }
    requires held { Holds heap.old r }
    requires room { length heap.old + 5 < most_cells }
    ensures built { Built heap.new
        (tree.Tuple (tree.Atom text.now ∷ term_at heap.old r ∷ [])) result }
    ensures grew { GrewBy 5 heap.old heap.new }
{
    let name = atom(alloc, text, heap)?;
    heap.tuple(&[name, r])
}

// Nil, the empty list.
pub(crate) fn empty(heap: &mut Heap) -> Result<Ref, HeapError>
    requires room { length heap.old + 2 < most_cells }
    ensures built { Built heap.new tree.Nil result }
    ensures grew { GrewBy 2 heap.old heap.new }
{
    let nil = nil();
    heap.load(&nil)
}

// These terms in front of a tail, built from the end.
pub(crate) fn onto(items: &[Ref], tail: Ref, heap: &mut Heap) -> Result<Ref, HeapError>
    requires items { HoldsAll heap.old items.now }
    requires tail { Holds heap.old tail }
    requires room { length heap.old + length items.now + 1 < most_cells }
    ensures built { Built heap.new
        (list_with_tail (terms_at heap.old items.now) (term_at heap.old tail)) result }
    ensures grew { GrewBy (length items.now) heap.old heap.new }
{
    let _size = heap.size(tail);
    let _depth = heap.depth(tail);
    let mut list = tail;
    let mut i = items.len();
    while i > 0 {
        i -= 1;
        list = heap.cons(items[i], list)?;
    }
    Ok(list)
}

// The list of these terms.
pub(crate) fn list(items: &[Ref], heap: &mut Heap) -> Result<Ref, HeapError>
    requires items { HoldsAll heap.old items.now }
    requires room { length heap.old + length items.now + 3 < most_cells }
    ensures built { Built heap.new (list_of (terms_at heap.old items.now)) result }
    ensures grew { GrewBy (length items.now + 2) heap.old heap.new }
{
    let nil = empty(heap)?;
    onto(items, nil, heap)
}
