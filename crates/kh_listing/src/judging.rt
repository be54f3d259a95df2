//! The first form at fault.
ghost use Rattle.std.specs.Prelude.{length, IfOk};
ghost use Rattle.kh_listing.specs.Faults.{is_at_fault};
ghost use Rattle.kh_listing.specs.Outcome.{IsFirst};

use crate::entries::first_astray;
use crate::first::earlier;
use crate::form::Form;
use crate::labels::{first_jumping_out, first_labelled_again, first_lacking, homes_of};
use crate::names::first_defined_again;
use crate::placing::first_misplaced;
use kh_term::NoMemory;
use std::alloc::Global;

/// The place of the first form at fault, from 0, where there is one. The error is want of memory.
pub fn first_fault(alloc: Global, forms: &[Form]) -> Result<Option<usize>, NoMemory>
    ensures { IfOk result (λ found. IsFirst (is_at_fault forms.now) (length forms.now) found) }
{
    let homes = homes_of(alloc, forms)?;
    let jumping_out = first_jumping_out(alloc, &homes, forms)?;
    let lacking = first_lacking(&homes, forms);
    let astray = first_astray(alloc, forms)?;
    let labelled_again = first_labelled_again(alloc, forms)?;
    let defined_again = first_defined_again(alloc, forms)?;
    let misplaced = first_misplaced(forms);
    let calls = earlier(jumping_out, astray);
    let labels = earlier(labelled_again, calls);
    let entries = earlier(lacking, labels);
    let functions = earlier(defined_again, entries);
    let all = earlier(misplaced, functions);
    Ok(all)
}
