//! The indexes of a module.
ghost use Rattle.std.specs.Prelude.{◌≡◌, IfOk};
ghost use Rattle.kh_code.specs.Indexes.{LeadsByOrigin, LeadsByEntry, TellsExports};

use kh_instr::{Function, Module};
use kh_term::{NoMemory, Origin};
use std::alloc::Global;
use std::collections::{BTreeMap, BTreeSet};

/// The places of functions by their triples. Of one triple the first place counts.
pub fn by_origin(alloc: Global, functions: &[Function]) -> Result<BTreeMap<Origin, usize>, NoMemory>
    ensures { IfOk result (λ places. LeadsByOrigin functions.now places) }
{
    let mut places = BTreeMap::new(alloc);
    for at in (0..functions.len()).rev() {
        places.insert(functions[at].origin.copy(alloc)?, at)?;
    }
    Ok(places)
}

/// The places of functions by the labels of their entries. Of one label the first place counts.
pub fn by_entry(alloc: Global, functions: &[Function]) -> Result<BTreeMap<u32, usize>, NoMemory>
    ensures { IfOk result (λ places. LeadsByEntry functions.now places) }
{
    let mut places = BTreeMap::new(alloc);
    for at in (0..functions.len()).rev() {
        places.insert(functions[at].entry, at)?;
    }
    Ok(places)
}

/// The triples of what a module exports.
pub fn exports(alloc: Global, module: &Module) -> Result<BTreeSet<Origin>, NoMemory>
    ensures { IfOk result (λ triples. TellsExports «module».now triples) }
{
    let mut triples = BTreeSet::new(alloc);
    for export in module.exports.as_slice() {
        triples.insert(Origin {
            module: module.name.copy(alloc)?,
            name: export.name.copy(alloc)?,
            arity: export.arity,
        })?;
    }
    Ok(triples)
}
