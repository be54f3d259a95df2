//! What a term is, and its parts.
ghost use Rattle.std.specs.Prelude.{◌≡◌, ◌<◌, ◌≤◌, length, slice_get, slice_index_or, max, Some, ◌+◌};
ghost use Rattle.kh_term.specs.declared.tree.TermTree.TheVariants as tree;
ghost use Rattle.kh_term.specs.Limits.{most_size, most_depth};
ghost use Rattle.kh_term.specs.Size.{size_of, depth_of};
ghost use Rattle.kh_term.specs.WellFormed.{IsTerm};
ghost use Rattle.kh_heap.specs.Cells.{number_of, first_of, tail_depth};
ghost use Rattle.kh_heap.specs.Heap.{term_at, cons_tree, Holds};
ghost use Rattle.kh_heap.specs.Parts.{text_in, bytes_in, origin_in, parts_in};
ghost use Rattle.kh_heap.specs.View.{IsSeen, IsAtom, IsBin, IsFun};

use crate::cell::Kind;
use crate::heap::Heap;
use crate::reference::Ref;
use crate::view::View;
use kh_term::{Atom, Bytes, Origin};

// The number by which a cell names its text or its origin.
fn number(kind: Kind) -> usize
    ensures { result ≡ number_of kind }
{
    match kind {
        Kind::Atom(number) | Kind::Bin(number) | Kind::Closure(number, _, _) => number,
        Kind::Int(_) | Kind::Nil | Kind::Cons(_, _) | Kind::Tuple(_, _) | Kind::Map(_, _) => 0,
    }
}

// The place of a cell's first part.
fn first(kind: Kind) -> u32
    ensures { result ≡ first_of kind }
{
    match kind {
        Kind::Tuple(first, _) | Kind::Map(first, _) | Kind::Closure(_, first, _) => first,
        Kind::Int(_) | Kind::Atom(_) | Kind::Bin(_) | Kind::Nil | Kind::Cons(_, _) => 0,
    }
}

// What a tail adds to the depth of a list.
fn tail_depth(kind: Kind, depth: u32) -> u32
    ensures { result ≡ tail_depth kind depth }
{
    match kind {
        Kind::Nil => 0,
        Kind::Cons(_, _) => depth.saturating_sub(1),
        Kind::Int(_)
        | Kind::Atom(_)
        | Kind::Bin(_)
        | Kind::Tuple(_, _)
        | Kind::Map(_, _)
        | Kind::Closure(_, _, _) => depth,
    }
}

impl Heap {
    /// What the term of a reference is.
    pub fn view(&self, r: Ref) -> View
        requires { Holds self.now r }
        ensures { IsSeen self.now (term_at self.now r) result }
    {
        let cell = *self.cells.get(r.place);
        match cell.kind {
            Kind::Int(number) => View::Int(number),
            Kind::Atom(_) => View::Atom,
            Kind::Bin(number) => View::Bin(self.binaries.get(number).as_slice().len() as u32),
            Kind::Nil => View::Nil,
            Kind::Cons(head, tail) => View::Cons(Ref { place: head }, Ref { place: tail }),
            Kind::Tuple(_, count) => View::Tuple(count),
            Kind::Map(_, count) => View::Map(count),
            Kind::Closure(_, _, count) => View::Closure(count),
        }
    }

    /// The size of a term, which is at most 1,048,576.
    pub fn size(&self, r: Ref) -> u64
        requires { Holds self.now r }
        ensures size { result ≡ size_of (term_at self.now r) }
        ensures few { size_of (term_at self.now r) ≤ most_size }
        ensures fits { IsTerm (term_at self.now r) }
    {
        u64::from(self.cells.get(r.place).size)
    }

    /// The depth of a term, which is at most 200.
    pub fn depth(&self, r: Ref) -> u32
        requires { Holds self.now r }
        ensures depth { result ≡ depth_of (term_at self.now r) }
        ensures low { depth_of (term_at self.now r) ≤ most_depth }
    {
        self.cells.get(r.place).depth
    }

    // The depth of a head in front of a tail.
    pub(crate) fn cons_depth(&self, head: Ref, tail: Ref) -> u32
        requires head_held { Holds self.now head }
        requires tail_held { Holds self.now tail }
        ensures { result ≡ depth_of (cons_tree (term_at self.now head) (term_at self.now tail)) }
    {
        let above = self.depth(head);
        let cell = *self.cells.get(tail.place);
        1 + above.max(tail_depth(cell.kind, cell.depth))
    }

    /// An atom.
    pub fn atom(&self, r: Ref) -> &Atom
        requires held { Holds self.now r }
        requires atom { IsAtom (term_at self.now r) }
        ensures { result.now ≡ text_in (term_at self.now r) }
    {
        let kind = self.cells.get(r.place).kind;
        self.atoms.get(number(kind))
    }

    /// Where a function was written.
    pub fn origin(&self, r: Ref) -> &Origin
        requires held { Holds self.now r }
        requires function { IsFun (term_at self.now r) }
        ensures { result.now ≡ origin_in (term_at self.now r) }
    {
        let kind = self.cells.get(r.place).kind;
        self.origins.get(number(kind))
    }

    // The bytes of a binary.
    pub(crate) fn bytes(&self, r: Ref) -> &Bytes
        requires held { Holds self.now r }
        requires binary { IsBin (term_at self.now r) }
        ensures { result.now ≡ bytes_in (term_at self.now r) }
    {
        let kind = self.cells.get(r.place).kind;
        self.binaries.get(number(kind))
    }

    /// Byte `i` of a binary.
    pub fn byte(&self, r: Ref, i: u32) -> u8
        requires held { Holds self.now r }
        requires binary { IsBin (term_at self.now r) }
        requires within { i < length (bytes_in (term_at self.now r)) }
        ensures { slice_get (bytes_in (term_at self.now r)) i ≡ Some result }
    {
        self.bytes(r).as_slice()[i as usize]
    }

    /// Element `i` of a tuple, or captured value `i` of a function; of a map the key of pair j at `2 * j`
    /// and its value at `2 * j + 1`.
    pub fn part(&self, r: Ref, i: u32) -> Ref
        requires held { Holds self.now r }
        requires within { i < length (parts_in (term_at self.now r)) }
        ensures held { Holds self.now result }
        ensures part { term_at self.now result
            ≡ slice_index_or (parts_in (term_at self.now r)) i tree.Nil }
        ensures before { result < r }
    {
        let kind = self.cells.get(r.place).kind;
        Ref {
            place: first(kind) + i,
        }
    }
}
