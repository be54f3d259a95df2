// Rows of marks.
ghost use Rattle.std.specs.Prelude.{◌≡◌, ◌∷◌, ◌++◌, [], false, slice_index_or, IfOk, OnOk};

use kh_term::NoMemory;
use smallvec::SmallVec;
use std::alloc::Global;
use std::marker::Model;

/// A row of marks for a path: mark i says whether the first i components of the pattern take it.
#[derive(Drop)]
pub(crate) struct Row {
    marks: SmallVec<bool, 33>,
}

impl Model for Row {
    ghost use Rattle.std.specs.Prelude.{List, Bool};

    ghost Value = { List Bool };

    ghost view = { λ row. row.marks.items };
}

impl Row {
    /// A row with its first mark.
    pub(crate) fn begun(alloc: Global, mark: bool) -> Result<Row, NoMemory>
        ensures { IfOk result (λ row. row ≡ mark ∷ []) }
    {
        let mut row = Row {
            marks: SmallVec::new(alloc),
        };
        row.push(mark)?;
        Ok(row)
    }

    /// Adds the next mark.
    pub(crate) fn push(&mut self, mark: bool) -> Result<(), NoMemory>
        ensures { OnOk result (self.new ≡ self.old ++ mark ∷ []) }
    {
        self.marks.push(mark)?;
        Ok(())
    }

    /// The mark at a place, false where there is none.
    pub(crate) fn at(&self, i: usize) -> bool
        ensures { result ≡ slice_index_or self.now i false }
    {
        match self.marks.as_slice().get(i) {
            Some(mark) => *mark,
            None => false,
        }
    }
}
