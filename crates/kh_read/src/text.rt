//! Reading the forms of the whole language.
ghost use Rattle.std.specs.Prelude.{◌≡◌, ◌≤◌, ◌↔◌, ℕ, length, drop, IfErr, IfOk, IfSome, None, Ok, Some};
ghost use Rattle.kh_term.specs.Size.{depth_of, size_of};
ghost use Rattle.kh_term.specs.declared.term.Term.{Term};
ghost use Rattle.kh_text_defs.specs.Blanks.{IsBlankToEnd};
ghost use Rattle.kh_text_defs.specs.Faults.{max_levels, max_size};
ghost use Rattle.kh_read.specs.Text.{Answers, IsRead, IsWhy};

use crate::answer::answer;
use crate::blanks::first_mark;
pub use crate::fault::ReadError;
use crate::reader::read;
use kh_term::Term;
use kh_text_defs::Mode;
use std::alloc::Global;

/// Reads the form at a place, and gives its term with the place behind its dot; `None` where only blanks are left.
pub fn read_form(
    alloc: Global,
    bytes: &[u8],
    at: usize,
    mode: Mode,
) -> Result<Option<(Term, usize)>, ReadError>
    requires { at ≤ length bytes.now }
    ensures none { (result ≡ Ok None) ↔ IsBlankToEnd (drop at bytes.now) }
    ensures found { IfOk result (λ read. IfSome read (λ x. IsRead mode bytes.now at x.0 x.1)) }
    ensures only { (t : Term) (end : ℕ) → IsRead mode bytes.now at t end
        → Answers result (Some (t, end)) }
    ensures why { IfErr result (λ e. IsWhy mode bytes.now at e) }
    ensures small { IfOk result (λ read. IfSome read (λ x. size_of x.0.node ≤ max_size)) }
    ensures shallow { IfOk result (λ read. IfSome read (λ x. depth_of x.0.node ≤ max_levels)) }
{
    let (_, left) = bytes.split_at(at);
    match first_mark(left) {
        None => Ok(None),
        Some(first) => answer(bytes, at, first, read(alloc, mode, left)),
    }
}
