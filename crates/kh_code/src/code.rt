//! Loaded code.
ghost use Rattle.std.specs.Prelude.{◌≡◌, [], length, IfOk, OnOk, OnErr, IsTrue, not};
ghost use Rattle.std.specs.Option.{option_copied};
ghost use Rattle.kh_instr.specs.Code.{found_function, is_exported, is_hidden, meaning_of, module_named};
ghost use Rattle.kh_instr.specs.Written.{IsWritten, HasSmallLiterals};
ghost use Rattle.kh_code.specs.Limits.{fits};
ghost use Rattle.kh_code.specs.Loading.{IsCode, IfTooMuch, entered_function, loaded_over, with_module};
ghost use Rattle.kh_code.specs.Totals.{IsPart, code_totals, replaced_totals, totals_with};

use crate::indexed::Indexed;
use crate::loaded::{CodeError, Loaded};
use crate::totals::Totals;
use indexmap::IndexMap;
use kh_instr::{Function, Meaning, Module, builtin_of, service_of};
use kh_term::{Atom, NoMemory, Origin};
use std::alloc::Global;
use std::marker::Model;

/// Modules as they were written, in the order in which their names were first loaded, no two of one name.
#[derive(Drop)]
pub struct Code {
    alloc: Global,
    modules: IndexMap<Atom, Indexed>,
    totals: Totals,
}

impl Model for Code {
    ghost use Rattle.std.specs.Prelude.{List};
    ghost use Rattle.std.specs.Map.{values_of};
    ghost use Rattle.std.specs.Coded.{coded_list};
    ghost use Rattle.kh_instr.specs.declared.module.Module.{Module};
    ghost use Rattle.kh_instr.specs.contracts.module.Module as written;

    ghost Value = { List Module };

    ghost coded = { coded_list written.the_row.coded };

    ghost use Rattle.kh_code.specs.Totals.{IsKept};

    ghost view = { λ c. values_of c.modules.entries };

    ghost invariant = { λ c. IsKept c.modules.entries c.totals };
}

impl Code {
    /// Code without modules.
    pub fn new(alloc: Global) -> Result<Code, NoMemory>
        ensures { IfOk result (λ code. code ≡ []) }
    {
        Ok(Code {
            alloc,
            modules: IndexMap::new(alloc),
            totals: Totals::new(),
        })
    }

    /// Loads a module. One of its name goes, and it takes that one's place; else it stands at the end.
    pub fn load(&mut self, module: Module) -> Result<Loaded, CodeError>
        requires written { IsWritten «module» }
        requires small { HasSmallLiterals «module» }
        ensures ok { OnOk result (self.new ≡ with_module self.old «module») }
        ensures how { IfOk result (λ how. how ≡ loaded_over (module_named self.old «module».name)) }
        ensures fits { OnOk result (IsTrue (fits (with_module self.old «module»))) }
        ensures too_much { IfTooMuch result (IsTrue (not (fits (with_module self.old «module»)))) }
        ensures err { OnErr result (self.new ≡ self.old) }
    {
        let own = Totals::of(&module);
        let totals = self.totals_with(&module.name, &own);
        if !totals.are_within() {
            return Err(CodeError::TooMuchCode);
        }
        let name = module.name.copy(self.alloc)?;
        let module = Indexed::new(self.alloc, module, own)?;
        let old = self.modules.insert(name, module)?;
        self.totals = totals;
        Ok(loaded_over(old))
    }

    // What the module of a name counts for, if there is one.
    fn old_totals(&self, name: &Atom) -> Totals
        ensures totals { result ≡ replaced_totals (module_named self.now name.now) }
        ensures part { IsPart result (code_totals self.now) }
    {
        match self.modules.get(name) {
            Some(found) => found.totals(),
            None => Totals::new(),
        }
    }

    // How much code there would be with a module of this name that counts for so much.
    fn totals_with(&self, name: &Atom, own: &Totals) -> Totals
        ensures totals { result ≡ totals_with self.now name.now own.now }
        ensures code { IsCode self.now }
    {
        let old = self.old_totals(name);
        self.totals.replaced(&old, own)
    }

    /// The function of a triple, where its module is loaded and has it.
    pub fn find(&self, function: &Origin) -> Option<&Function>
        ensures function { option_copied result ≡ found_function self.now function.now }
        ensures code { IsCode self.now }
    {
        match self.modules.get(&function.module) {
            Some(found) => found.find(function),
            None => None,
        }
    }

    /// Whether a function is exported: its module names it among its exports, and has it.
    pub fn exported(&self, function: &Origin) -> bool
        ensures { result ≡ is_exported self.now function.now }
    {
        match self.modules.get(&function.module) {
            Some(found) => found.exported(function),
            None => false,
        }
    }

    /// What an external call of a function means.
    pub fn meaning(&self, function: &Origin) -> Meaning
        ensures { result ≡ meaning_of self.now function.now }
    {
        if let Some(builtin) = builtin_of(function) {
            return Meaning::Builtin(builtin);
        }
        if let Some(service) = service_of(function) {
            return Meaning::Service(service);
        }
        if !is_hidden(&function.module) && self.exported(function) {
            return Meaning::Function;
        }
        Meaning::Nothing
    }

    /// The function of a module whose entry has this label.
    pub fn entered(&self, module: &Atom, label: u32) -> Option<&Function>
        ensures function { option_copied result ≡ entered_function self.now «module».now label }
        ensures code { IsCode self.now }
    {
        match self.modules.get(module) {
            Some(found) => found.entered(label),
            None => None,
        }
    }
}

// How a module is loaded that takes the place of this one.
fn loaded_over(old: Option<Indexed>) -> Loaded
    ensures { result ≡ loaded_over old }
{
    match old {
        Some(_) => Loaded::Replaced,
        None => Loaded::New,
    }
}

// Whether a loaded module of this name is never called.
fn is_hidden(module: &Atom) -> bool
    ensures { result ≡ is_hidden «module».now }
{
    let name = module.as_slice();
    name == b"erlang".as_slice() || name == b"khepri_tx".as_slice()
}
