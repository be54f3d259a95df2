//! Reading a listing.
ghost use Rattle.std.specs.Prelude.{◌≡◌, ◌≤◌, length, IfOk, IfErr, IsTrue};
ghost use Rattle.std.specs.List.{list_all};
ghost use Rattle.kh_instr.specs.Written.{HasSmallLiterals, IsWritten};
ghost use Rattle.kh_term.specs.Limits.{is_small};
ghost use Rattle.kh_listing.specs.Forms.{forms_of};
ghost use Rattle.kh_listing.specs.Made.{module_of, code_len};
ghost use Rattle.kh_listing.specs.Outcome.{IsFaultless, IsCause};

use crate::error::ListingError;
use crate::judging::first_fault;
use crate::making::module_of;
use crate::reading::forms_of;
use kh_instr::Module;
use kh_term::Terms;
use std::alloc::Global;

/// The module of a listing's forms, from `{module,M}` on, without `listing_end`; or the number of the first form at fault,
/// counted from 1 over all forms as given. The forms of a listing are described in `docs/formats.md`.
pub fn read_listing(alloc: Global, forms: &Terms) -> Result<Module, ListingError>
    requires { 1 ≤ length forms.now.nodes }
    ensures faultless { IfOk result (λ m. IsFaultless (forms_of forms.now.nodes)) }
    ensures made { IfOk result (λ m. m ≡ module_of (forms_of forms.now.nodes)) }
    ensures fault { IfErr result (IsCause (forms_of forms.now.nodes)) }
    ensures written { IfOk result IsWritten }
    ensures small { IsTrue (list_all is_small forms.now.nodes) →
        IfOk result HasSmallLiterals }
    ensures kept { IfOk result (λ m. code_len m.functions ≤ length forms.now.nodes) }
{
    let read = forms_of(alloc, forms.as_slice())?;
    let fault = first_fault(alloc, read.as_slice())?;
    match fault {
        Some(place) => Err(ListingError::BadListing(place as u64 + 1)),
        None => Ok(module_of(alloc, read)?),
    }
}
