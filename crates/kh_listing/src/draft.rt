//! What is made of a listing, from its end on.
ghost use Rattle.std.specs.Prelude.{ℕ, List, []};
ghost use Rattle.kh_listing.specs.Drafts.{IsDraft};

use kh_instr::{Exports, Function, Instr};
use sqlite_items::Items;
use std::alloc::Global;

/// What the forms behind a place give: their functions, the last one first; the pairs of their first `exports` form; and
/// the instructions up to their first function form, the last one first.
#[derive(Drop)]
pub struct Draft {
    pub functions: Vec<Function>,
    pub exports: Exports,
    pub code: Vec<Instr>,
}

impl Draft {
    /// That of no form.
    pub fn new(alloc: Global) -> Draft
        ensures { (module_name : List ℕ) → IsDraft module_name result [] }
    {
        Draft {
            functions: Vec::new(alloc),
            exports: Items::new(alloc),
            code: Vec::new(alloc),
        }
    }
}
