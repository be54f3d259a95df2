// Texts and origins, which cells name by number.
ghost use Rattle.std.specs.Prelude.{◌≡◌, ◌<◌, [], ◌∷◌, ◌++◌, length, slice_get, Some, OnOk, OnErr, IfOk};

use kh_term::{Atom, Bytes, NoMemory, Origin};
use std::alloc::Global;
use std::marker::Model;

// Values, each at its number.
#[derive(Drop)]
pub(crate) struct Table<T> {
    all: Vec<T>,
}

impl<T> Model for Table<T> {
    ghost use Rattle.std.specs.Prelude.{List};

    ghost Value = { List T };

    ghost view = { λ t. t.all.items };
}

impl<T: Drop> Table<T> {
    // A table without values.
    pub(crate) fn new(alloc: Global) -> Table<T>
        ensures { result ≡ [] }
    {
        Table {
            all: Vec::new(alloc),
        }
    }

    // The value of a number.
    pub(crate) fn get(&self, number: usize) -> &T
        requires { number < length self.now }
        ensures { slice_get self.now number ≡ Some result.now }
    {
        &self.all[number]
    }

    // Adds a value, and answers its number.
    pub(crate) fn push(&mut self, value: T) -> Result<usize, NoMemory>
        ensures number { IfOk result (λ number. number ≡ length self.old) }
        ensures ok { OnOk result (self.new ≡ self.old ++ value ∷ []) }
        ensures err { OnErr result (self.new ≡ self.old) }
    {
        let number = self.all.len();
        self.all.push(value)?;
        Ok(number)
    }
}
