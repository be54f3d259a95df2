//! Answers that many built-ins give.
ghost use Rattle.std.specs.Prelude.{◌≡◌, ◌+◌, ◌<◌, ◌≤◌, length, codes, if◌then◌else◌, IfOk};
ghost use Rattle.kh_term.specs.declared.kinds.Class.TheVariants as class;
ghost use Rattle.kh_term.specs.declared.tree.TermTree.{TermTree};
ghost use Rattle.kh_term.specs.declared.tree.TermTree.TheVariants as tree;
ghost use Rattle.kh_heap.specs.declared.error.BifError.TheVariants as error;
ghost use Rattle.kh_heap.specs.Heap.{most_cells, term_at, Holds, Stands};
ghost use Rattle.kh_bif_base.specs.Answer.{Value, Raise, error_of, badmap, boolean, limited};
ghost use Rattle.kh_bif_base.specs.Answers.{Answers, GrewBy, Made};
ghost use Rattle.kh_bif_base.specs.Integers.{number};

use kh_heap::{BifError, Heap, HeapError, Ref};
use kh_term::{Class, MOST_NAME_BYTES, word};
use std::alloc::Global;

// The atom of a text.
fn atom(alloc: Global, text: &str, heap: &mut Heap) -> Result<Ref, HeapError>
    requires few { length text.now ≤ MOST_NAME_BYTES }
    requires room { length heap.old + 2 < most_cells }
    ensures term { IfOk result (λ r. Stands heap.new r (tree.Atom text.now)) }
    ensures grew { GrewBy 2 heap.old heap.new }
{
    let atom = word(alloc, text)?;
    heap.load(&atom)
}

// An error with a reason.
fn error(reason: Ref) -> BifError
    ensures { result ≡ error.Raise class.Error reason }
{
    BifError::Raise {
        class: Class::Error,
        reason,
    }
}

fn boolean_word(holds: bool) -> &'static str
    ensures word { result.now ≡ (if holds then codes "true" else codes "false") }
    ensures few { length result.now ≤ MOST_NAME_BYTES }
{
    if holds { "true" } else { "false" }
}

/// `true` or `false`.
pub fn boolean(alloc: Global, holds: bool, heap: &mut Heap) -> Result<Ref, BifError>
    requires room { length heap.old + 2 < most_cells }
    ensures answer { Answers heap.new result (limited (boolean holds)) }
    ensures grew { GrewBy 2 heap.old heap.new }
{
    match atom(alloc, boolean_word(holds), heap) {
        Ok(r) => Ok(r),
        Err(_) => Err(BifError::NoMemory),
    }
}

/// Raises an error whose reason is the atom of this text.
pub fn raise(alloc: Global, text: &str, heap: &mut Heap) -> Result<Ref, BifError>
    requires few { length text.now ≤ MOST_NAME_BYTES }
    requires room { length heap.old + 2 < most_cells }
    ensures answer { Answers heap.new result (limited (error_of text.now)) }
    ensures grew { GrewBy 2 heap.old heap.new }
{
    match atom(alloc, text, heap) {
        Ok(reason) => Err(error(reason)),
        Err(_) => Err(BifError::NoMemory),
    }
}

/// An integer. Where there is none it was past 128 bits, and `system_limit` is raised.
pub fn number(alloc: Global, n: Option<i128>, heap: &mut Heap) -> Result<Ref, BifError>
    requires room { length heap.old + 2 < most_cells }
    ensures answer { Answers heap.new result (limited (number n)) }
    ensures grew { GrewBy 2 heap.old heap.new }
{
    match n {
        Some(n) => match heap.int(n) {
            Ok(r) => Ok(r),
            Err(_) => Err(BifError::NoMemory),
        },
        None => raise(alloc, "system_limit", heap),
    }
}

/// A term that the heap was asked to make. Where it was too large, `system_limit` is raised.
pub fn made(alloc: Global, made: Result<Ref, HeapError>, heap: &mut Heap) -> Result<Ref, BifError>
    requires room { length heap.old + 2 < most_cells }
    ensures answer { (t : TermTree) → Made heap.old made t
        → Answers heap.new result (limited (Value t)) }
    ensures grew { GrewBy 2 heap.old heap.new }
{
    match made {
        Ok(r) => Ok(r),
        Err(HeapError::TooLarge) => raise(alloc, "system_limit", heap),
        Err(HeapError::NoMemory) => Err(BifError::NoMemory),
    }
}

/// Raises an error with a reason that the heap was asked to make. Where it was too large, `system_limit` is
/// raised.
pub fn raise_made(
    alloc: Global,
    reason: Result<Ref, HeapError>,
    heap: &mut Heap,
) -> Result<Ref, BifError>
    requires room { length heap.old + 2 < most_cells }
    ensures answer { (t : TermTree) → Made heap.old reason t
        → Answers heap.new result (limited (Raise class.Error t)) }
    ensures grew { GrewBy 2 heap.old heap.new }
{
    match made(alloc, reason, heap) {
        Ok(r) => Err(error(r)),
        Err(e) => Err(e),
    }
}

/// Raises the error `{badmap,V}`, or `system_limit` where that is too large.
pub fn bad_map(alloc: Global, v: Ref, heap: &mut Heap) -> Result<Ref, BifError>
    requires held { Holds heap.old v }
    requires room { length heap.old + 7 < most_cells }
    ensures answer { Answers heap.new result (limited (badmap (term_at heap.old v))) }
    ensures grew { GrewBy 7 heap.old heap.new }
{
    match atom(alloc, "badmap", heap) {
        Ok(name) => {
            let reason = heap.tuple(&[name, v]);
            raise_made(alloc, reason, heap)
        }
        Err(_) => Err(BifError::NoMemory),
    }
}
