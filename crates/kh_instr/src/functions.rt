//! Lists of functions.
ghost use Rattle.std.specs.Prelude.{◌≡◌, length, slice_get, IfOk};
ghost use Rattle.std.specs.Option.{option_copied};

use crate::module::Function;
use kh_term::NoMemory;
use sqlite_items::Items;
use std::alloc::Global;
use std::marker::Model;

/// Functions, one after another. They are made once and then read, so that a list can be shared.
#[derive(Drop)]
pub struct Functions {
    all: Items<Function>,
}

impl Model for Functions {
    ghost use Rattle.std.specs.Prelude.{List};
    ghost use Rattle.kh_instr.specs.declared.module.Function.{Function};
    ghost use Rattle.kh_instr.specs.contracts.module.Function as function;
    ghost use Rattle.std.specs.Coded.{coded_list};

    ghost Value = { List Function };

    ghost coded = { coded_list function.the_row.coded };

    ghost view = { λ f. f.all };
}

impl Functions {
    /// The list of these functions.
    pub fn new(_alloc: Global, all: Items<Function>) -> Result<Functions, NoMemory>
        ensures { IfOk result (λ functions. functions ≡ all) }
    {
        Ok(Functions { all })
    }

    pub fn len(&self) -> usize
        ensures { result ≡ length self.now }
    {
        self.all.len()
    }

    pub fn as_slice(&self) -> &[Function]
        ensures { result.now ≡ self.now }
    {
        self.all.as_slice()
    }

    pub fn get(&self, at: usize) -> Option<&Function>
        ensures { option_copied result ≡ slice_get self.now at }
    {
        self.all.get(at)
    }
}
