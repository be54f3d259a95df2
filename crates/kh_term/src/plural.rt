//! Lists of one type, as contracts see them.
ghost use Rattle.std.specs.Prelude.{◌≡◌, [], ◌∷◌, ◌++◌, length, slice_get, OnOk, OnErr};
ghost use Rattle.std.specs.Option.{option_copied};

use crate::memory::NoMemory;
use crate::name::Name;
use crate::path::Path;
use crate::text::Text;
use std::alloc::Global;
use std::marker::Model;

/// Values, one after another.
#[derive(Drop)]
pub struct Several<T> {
    all: Vec<T>,
}

/// Paths, one after another.
pub type Paths = Several<Path>;

/// Texts, one after another.
pub type Texts = Several<Text>;

/// Names, one after another: as many as there are, while a `Path` has at most 32.
pub type Names = Several<Name>;

impl<T> Model for Several<T> {
    ghost use Rattle.std.specs.Prelude.{List};
    ghost use Rattle.std.specs.Coded.{coded_list};

    ghost Value = { List T };

    ghost coded = { coded_list T.code };

    ghost view = { λ several. several.all.items };
}

impl<T> Several<T> {
    /// No value.
    pub fn new(alloc: Global) -> Several<T>
        ensures { result ≡ [] }
    {
        Several {
            all: Vec::new(alloc),
        }
    }

    /// The values of a vector, which takes no memory.
    pub fn from_vec(all: Vec<T>) -> Several<T>
        ensures { result ≡ all.items }
    {
        Several { all }
    }

    /// The vector of the values, which takes no memory.
    pub fn into_vec(self) -> Vec<T>
        ensures { result.items ≡ self }
    {
        let Several { all } = self;
        all
    }

    /// How many values there are.
    pub fn len(&self) -> usize
        ensures { result ≡ length self.now }
    {
        self.all.len()
    }

    /// The values in order.
    pub fn as_slice(&self) -> &[T]
        ensures { result.now ≡ self.now }
    {
        self.all.as_slice()
    }

    /// The value at a place, counted from 0.
    pub fn get(&self, at: usize) -> Option<&T>
        ensures { option_copied result ≡ slice_get self.now at }
    {
        self.all.as_slice().get(at)
    }
}

impl<T: Drop> Several<T> {
    /// Adds a value at the end.
    pub fn push(&mut self, value: T) -> Result<(), NoMemory>
        ensures ok { OnOk result (self.new ≡ self.old ++ value ∷ []) }
        ensures err { OnErr result (self.new ≡ self.old) }
    {
        self.all.push(value)?;
        Ok(())
    }
}
