//! Functions that are defined a second time.
ghost use Rattle.std.specs.Prelude.{◌≡◌, ◌<◌, ◌||◌, ℕ, List, length, IfOk, OnOk};
ghost use Rattle.kh_listing.specs.Faults.{defines, is_defined_again, is_named};
ghost use Rattle.kh_listing.specs.Outcome.{IsFirst};
ghost use Rattle.kh_listing.specs.Sets.{has_name};

use crate::form::Form;
use crate::places::form_at;
use kh_term::{Atom, NoMemory};
use std::alloc::Global;
use std::collections::BTreeSet;

/// Names of functions, each with an arity.
type Names = BTreeSet<(Atom, u8)>;

// Adds the name of a function form. Answers whether it was there.
fn add_name(alloc: Global, names: &mut Names, form: &Form) -> Result<bool, NoMemory>
    ensures known { IfOk result (λ known. known ≡ is_named (has_name names.old) form.now) }
    ensures after { OnOk result ((name : List ℕ) (arity : ℕ) →
        has_name names.new name arity ≡
        (has_name names.old name arity || defines name arity form.now)) }
{
    match form {
        Form::Function(header) => {
            let name = header.name.copy(alloc)?;
            let is_new = names.insert((name, header.arity))?;
            Ok(!is_new)
        }
        _ => Ok(false),
    }
}

/// The first function form with the name and the arity of an earlier one. The error is want of memory.
pub fn first_defined_again(alloc: Global, forms: &[Form]) -> Result<Option<usize>, NoMemory>
    ensures { IfOk result (λ found.
        IsFirst (is_defined_again forms.now) (length forms.now) found) }
{
    let mut names = BTreeSet::new(alloc);
    for i in 0..forms.len() {
        let form = form_at(forms, i);
        let known = add_name(alloc, &mut names, form)?;
        if known {
            return Ok(Some(i));
        }
    }
    Ok(None)
}
