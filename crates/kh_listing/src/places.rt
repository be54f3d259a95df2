//! Where forms stand.
ghost use Rattle.std.specs.Prelude.{◌≡◌, ◌<◌, ◌||◌, length};
ghost use Rattle.kh_listing.specs.Places.{form_at, is_function};

use crate::form::Form;

/// The form at a place.
pub fn form_at(forms: &[Form], i: usize) -> &Form
    requires { i < length forms.now }
    ensures { result.now ≡ form_at forms.now i }
{
    &forms[i]
}

/// Whether a form begins a function, and so ends the one before it.
pub fn is_function(form: &Form) -> bool
    ensures { result ≡ is_function form.now }
{
    match form {
        Form::Function(_) | Form::NoFunction => true,
        _ => false,
    }
}

/// Whether one of two holds.
pub fn either(a: bool, b: bool) -> bool
    ensures { result ≡ (a || b) }
{
    a || b
}
