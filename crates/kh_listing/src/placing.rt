//! Forms that stand where they must not.
ghost use Rattle.std.specs.Prelude.{◌≡◌, ◌||◌, length};
ghost use Rattle.kh_listing.specs.Faults.{is_lone, is_misplaced, may_stand};
ghost use Rattle.kh_listing.specs.Outcome.{IsFirst};
ghost use Rattle.kh_listing.specs.Places.{is_exports, is_attributes, is_labels, is_function};

use crate::form::Form;
use crate::places::{either, form_at, is_function};

/// Which kinds of forms stand in front of a place.
#[derive(Drop)]
pub struct Seen {
    pub exports: bool,
    pub attributes: bool,
    pub labels: bool,
    pub function: bool,
}

fn is_exports(form: &Form) -> bool
    ensures { result ≡ is_exports form.now }
{
    match form {
        Form::Exports(_) => true,
        _ => false,
    }
}

fn is_attributes(form: &Form) -> bool
    ensures { result ≡ is_attributes form.now }
{
    match form {
        Form::Attributes => true,
        _ => false,
    }
}

fn is_labels(form: &Form) -> bool
    ensures { result ≡ is_labels form.now }
{
    match form {
        Form::Labels => true,
        _ => false,
    }
}

// Which kinds stand in front of the next place.
fn and_seen(seen: Seen, form: &Form) -> Seen
    ensures exports { result.exports ≡ (seen.exports || is_exports form.now) }
    ensures attributes { result.attributes ≡ (seen.attributes || is_attributes form.now) }
    ensures labels { result.labels ≡ (seen.labels || is_labels form.now) }
    ensures function { result.function ≡ (seen.function || is_function form.now) }
{
    Seen {
        exports: either(seen.exports, is_exports(form)),
        attributes: either(seen.attributes, is_attributes(form)),
        labels: either(seen.labels, is_labels(form)),
        function: either(seen.function, is_function(form)),
    }
}

// Whether a form may stand at a place behind such forms.
fn may_stand(seen: &Seen, i: usize, form: &Form) -> bool
    ensures { result ≡ may_stand seen.now i form.now }
{
    match form {
        Form::Module(_) => i == 0,
        Form::Exports(_) => is_lone(i, seen.exports, seen.function),
        Form::Attributes => is_lone(i, seen.attributes, seen.function),
        Form::Labels => is_lone(i, seen.labels, seen.function),
        Form::Function(_) => i > 0,
        Form::NoFunction => false,
        Form::Skipped => i > 0,
        Form::Instr(_) => seen.function,
        Form::NoForm => false,
    }
}

fn is_lone(i: usize, such: bool, function: bool) -> bool
    ensures { result ≡ is_lone i such function }
{
    if either(such, function) { false } else { i > 0 }
}

/// The first form that isn't formed as its word asks, or stands elsewhere.
pub fn first_misplaced(forms: &[Form]) -> Option<usize>
    ensures { IsFirst (is_misplaced forms.now) (length forms.now) result }
{
    let mut seen = Seen {
        exports: false,
        attributes: false,
        labels: false,
        function: false,
    };
    for i in 0..forms.len() {
        let form = form_at(forms, i);
        if !may_stand(&seen, i, form) {
            return Some(i);
        }
        seen = and_seen(seen, form);
    }
    None
}
