//! A module with its indexes.
ghost use Rattle.std.specs.Prelude.{◌≡◌, ◌&&◌, true, is_some, IfOk};
ghost use Rattle.std.specs.Option.{option_copied};
ghost use Rattle.std.specs.Str.{bytes_eq};
ghost use Rattle.kh_instr.specs.Code.{function_from, function_entered, is_among};
ghost use Rattle.kh_code.specs.Totals.{totals_of};

use crate::indexes::{by_entry, by_origin, exports};
use crate::totals::Totals;
use kh_instr::{Function, Module};
use kh_term::{NoMemory, Origin};
use std::alloc::Global;
use std::collections::{BTreeMap, BTreeSet};
use std::marker::Model;

/// A module with its functions by triple and by entry, what it exports, and how large it is.
#[derive(Drop)]
pub struct Indexed {
    module: Module,
    by_origin: BTreeMap<Origin, usize>,
    by_entry: BTreeMap<u32, usize>,
    exports: BTreeSet<Origin>,
    totals: Totals,
}

impl Model for Indexed {
    ghost use Rattle.std.specs.Prelude.{◌≡◌};
    ghost use Rattle.kh_instr.specs.declared.module.Module.{Module};
    ghost use Rattle.kh_instr.specs.contracts.module.Module as written;

    ghost Value = { Module };

    ghost coded = { written.the_row.coded };

    ghost use Rattle.kh_code.specs.Indexes.{LeadsByOrigin, LeadsByEntry, TellsExports};
    ghost use Rattle.kh_code.specs.Totals.{totals_of};

    ghost view = { λ m. m.module };

    ghost invariant = { λ m. LeadsByOrigin m.module.functions m.by_origin
        × LeadsByEntry m.module.functions m.by_entry
        × TellsExports m.module m.exports × (m.totals ≡ totals_of m.module) };
}

impl Indexed {
    /// The module with its indexes.
    pub fn new(alloc: Global, module: Module, totals: Totals) -> Result<Indexed, NoMemory>
        requires { totals ≡ totals_of «module» }
        ensures { IfOk result (λ indexed. indexed ≡ «module») }
    {
        let by_origin = by_origin(alloc, module.functions.as_slice())?;
        let by_entry = by_entry(alloc, module.functions.as_slice())?;
        let exports = exports(alloc, &module)?;
        Ok(Indexed {
            module,
            by_origin,
            by_entry,
            exports,
            totals,
        })
    }

    /// The function of a triple.
    pub fn find(&self, function: &Origin) -> Option<&Function>
        ensures { option_copied result ≡ function_from self.now.functions function.now }
    {
        match self.by_origin.get(function) {
            Some(at) => self.module.functions.get(*at),
            None => None,
        }
    }

    /// The function whose entry has this label.
    pub fn entered(&self, label: u32) -> Option<&Function>
        ensures { option_copied result ≡ function_entered self.now.functions label }
    {
        match self.by_entry.get(&label) {
            Some(at) => self.module.functions.get(*at),
            None => None,
        }
    }

    /// Whether a function of this module is among its exports, and there.
    pub fn exported(&self, function: &Origin) -> bool
        ensures { bytes_eq self.now.name function.now.«module» ≡ true
            → result ≡ (is_among self.now.exports function.now.name function.now.arity
            && is_some (function_from self.now.functions function.now)) }
    {
        both(
            self.exports.contains(function),
            self.find(function).is_some(),
        )
    }

    /// How much it counts for.
    pub fn totals(&self) -> Totals
        ensures { result ≡ totals_of self.now }
    {
        self.totals
    }
}

fn both(first: bool, second: bool) -> bool
    ensures { result ≡ (first && second) }
{
    first && second
}
