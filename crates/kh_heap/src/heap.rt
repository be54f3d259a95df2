//! The heap, and the cells that its calls add.
ghost use Rattle.std.specs.Prelude.{ℕ, ◌≡◌, ◌+◌, ◌*◌, ◌<◌, ◌≤◌, [], ◌∷◌, ◌++◌, length, take, IfOk, IfErr, OnOk, OnErr};
ghost use Rattle.kh_term.specs.declared.tree.TermTree.TheVariants as tree;
ghost use Rattle.kh_term.specs.Limits.{most_size};
ghost use Rattle.kh_term.specs.WellFormed.{IsTerm};
ghost use Rattle.kh_heap.specs.declared.error.HeapError.TheVariants.{NoMemory};
ghost use Rattle.kh_heap.specs.Cells.{no_tables, value, Below, Measured, run_at};
ghost use Rattle.kh_heap.specs.Heap.{most_cells, term_at, Holds};
ghost use Rattle.kh_heap.specs.Parts.{parts_in};

use crate::cell::{Cell, Kind};
use crate::error::HeapError;
use crate::reference::Ref;
use crate::tables::Table;
use kh_arena::Arena;
use kh_term::{Atom, Bytes, Origin};
use std::alloc::Global;
use std::marker::Model;

/// The memory in which code runs.
#[derive(Drop)]
pub struct Heap {
    pub(crate) cells: Arena<Cell>,
    pub(crate) atoms: Table<Atom>,
    pub(crate) binaries: Table<Bytes>,
    pub(crate) origins: Table<Origin>,
    pub(crate) alloc: Global,
}

impl Model for Heap {
    ghost use Rattle.std.specs.Prelude.{List};
    ghost use Rattle.kh_term.specs.declared.tree.TermTree.{TermTree};
    ghost use Rattle.kh_heap.specs.Cells.{heap_of, AreCells};
    ghost use Rattle.kh_arena.specs.Listed.{items};
    ghost use Rattle.std.specs.Coded.{coded_list};
    ghost use Rattle.kh_term.specs.contracts.tree.TermTree as tree;

    ghost Value = { List TermTree };

    ghost coded = { coded_list tree.the_row.coded };

    ghost view = { λ h. heap_of (record { atoms = h.atoms; binaries = h.binaries; origins = h.origins }) (items h.cells) };

    ghost invariant = { λ h. AreCells (record { atoms = h.atoms; binaries = h.binaries; origins = h.origins }) (items h.cells) };
}

impl Heap {
    /// A heap without cells, which allocates nothing.
    pub fn new(alloc: Global) -> Heap
        ensures { result ≡ [] }
    {
        Heap {
            cells: Arena::new(alloc),
            atoms: Table::new(alloc),
            binaries: Table::new(alloc),
            origins: Table::new(alloc),
            alloc,
        }
    }

    /// The number of cells.
    pub fn len(&self) -> u32
        ensures { result ≡ length self.now }
    {
        self.cells.len()
    }

    // Each reference stands for a well-formed term, which has few parts.
    pub(crate) fn stands_for_terms(&self)
        ensures fits { (r : ℕ) → Holds self.now r → IsTerm (term_at self.now r) }
        ensures few { (r : ℕ) → Holds self.now r
            → length (parts_in (term_at self.now r)) ≤ most_size }
    {
        let _cells = self.cells.len();
    }

    // Leaves the first `mark` cells.
    pub(crate) fn cut(&mut self, mark: u32)
        requires { mark ≤ length self.old }
        ensures { self.new ≡ take mark self.old }
    {
        self.cells.cut(mark);
    }

    // Adds a cell that names no text.
    pub(crate) fn push(&mut self, kind: Kind, size: u32, depth: u32) -> Result<Ref, HeapError>
        requires room { length self.old < most_cells }
        requires below { Below no_tables (length self.old) kind }
        requires measured { Measured size depth (value no_tables self.old kind) }
        ensures place { IfOk result (λ r. r ≡ length self.old) }
        ensures added { OnOk result (self.new ≡ self.old ++ value no_tables self.old kind ∷ []) }
        ensures refused { OnErr result (self.new ≡ self.old) }
        ensures cause { IfErr result (λ e. e ≡ NoMemory) }
    {
        let cell = Cell { kind, size, depth };
        let place = self.cells.push(cell)?;
        Ok(Ref { place })
    }

    // Adds a cell for the term of another.
    pub(crate) fn push_copy(&mut self, r: Ref) -> Result<Ref, HeapError>
        requires room { length self.old < most_cells }
        requires held { Holds self.old r }
        ensures place { IfOk result (λ r. r ≡ length self.old) }
        ensures added { OnOk result (self.new ≡ self.old ++ term_at self.old r ∷ []) }
        ensures refused { OnErr result (self.new ≡ self.old) }
        ensures cause { IfErr result (λ e. e ≡ NoMemory) }
    {
        let cell = *self.cells.get(r.place);
        let place = self.cells.push(cell)?;
        Ok(Ref { place })
    }

    // Adds a cell for an atom.
    pub(crate) fn push_atom(&mut self, text: &Atom) -> Result<Ref, HeapError>
        requires room { length self.old < most_cells }
        ensures place { IfOk result (λ r. r ≡ length self.old) }
        ensures added { OnOk result (self.new ≡ self.old ++ tree.Atom text.now ∷ []) }
        ensures refused { OnErr result (self.new ≡ self.old) }
        ensures cause { IfErr result (λ e. e ≡ NoMemory) }
    {
        let _fits = text.as_slice();
        let copy = text.copy(self.alloc)?;
        let number = self.atoms.push(copy)?;
        let place = self.cells.push(Cell {
            kind: Kind::Atom(number),
            size: 1,
            depth: 0,
        })?;
        Ok(Ref { place })
    }

    // Adds a cell for a binary of this size.
    pub(crate) fn push_bin(&mut self, bytes: &Bytes, size: u32) -> Result<Ref, HeapError>
        requires room { length self.old < most_cells }
        requires measured { Measured size 0 (tree.Bin bytes.now) }
        ensures place { IfOk result (λ r. r ≡ length self.old) }
        ensures added { OnOk result (self.new ≡ self.old ++ tree.Bin bytes.now ∷ []) }
        ensures refused { OnErr result (self.new ≡ self.old) }
        ensures cause { IfErr result (λ e. e ≡ NoMemory) }
    {
        let copy = bytes.copy(self.alloc)?;
        let number = self.binaries.push(copy)?;
        let place = self.cells.push(Cell {
            kind: Kind::Bin(number),
            size,
            depth: 0,
        })?;
        Ok(Ref { place })
    }

    // Adds a cell for the function of an origin whose captured values are the terms of `count` cells from `first` on.
    pub(crate) fn push_closure(
        &mut self,
        origin: &Origin,
        first: u32,
        count: u32,
        size: u32,
        depth: u32,
    ) -> Result<Ref, HeapError>
        requires room { length self.old < most_cells }
        requires below { first + count ≤ length self.old }
        requires measured { Measured size depth
            (tree.Closure origin.now (run_at self.old first count)) }
        ensures place { IfOk result (λ r. r ≡ length self.old) }
        ensures added { OnOk result
            (self.new ≡ self.old ++ tree.Closure origin.now (run_at self.old first count) ∷ []) }
        ensures refused { OnErr result (self.new ≡ self.old) }
        ensures cause { IfErr result (λ e. e ≡ NoMemory) }
    {
        let copy = origin.copy(self.alloc)?;
        let number = self.origins.push(copy)?;
        let place = self.cells.push(Cell {
            kind: Kind::Closure(number, first, count),
            size,
            depth,
        })?;
        Ok(Ref { place })
    }
}
