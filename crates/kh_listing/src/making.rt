//! The module of the forms of a listing.
ghost use Rattle.std.specs.Prelude.{◌≡◌, ◌≤◌, ◌∷◌, List, length, reverse, Some, IfOk, IsSome};
ghost use Rattle.std.specs.Option.{option_copied};
ghost use Rattle.kh_listing.specs.declared.form.Form.{Form};
ghost use Rattle.kh_listing.specs.declared.form.Form.TheVariants as kind;
ghost use Rattle.kh_listing.specs.Drafts.{IsDraft};
ghost use Rattle.kh_listing.specs.Made.{function_with, module_name, module_of};
ghost use Rattle.kh_listing.specs.Places.{form_at};

use crate::draft::Draft;
use crate::form::{Form, Header};
use crate::places::form_at;
use kh_instr::{Function, Functions, Instr, Module};
use kh_term::{Atom, NoMemory, Origin};
use sqlite_items::Items;
use std::alloc::Global;

// The function of a form, with the instructions behind it, the last one first.
fn function_with(
    alloc: Global,
    module_name: &Atom,
    header: Header,
    mut turned: Vec<Instr>,
) -> Result<Function, NoMemory>
    ensures { IfOk result (λ f. f ≡ function_with module_name.now header (reverse turned.items)) }
{
    let Header { name, arity, entry } = header;
    let origin = Origin {
        module: module_name.copy(alloc)?,
        name: name.copy(alloc)?,
        arity,
    };
    turned.reverse();
    Ok(Function {
        name,
        arity,
        entry,
        origin,
        code: Items::from_vec(turned),
    })
}

// The draft with a function more in front.
fn with_function(
    alloc: Global,
    module_name: &Atom,
    draft: Draft,
    header: Header,
) -> Result<Draft, NoMemory>
    ensures { IfOk result (λ d. (fs : List Form) → IsDraft module_name.now draft fs →
        IsDraft module_name.now d (kind.Function header ∷ fs)) }
{
    let Draft {
        mut functions,
        exports,
        code,
    } = draft;
    let function = function_with(alloc, module_name, header, code)?;
    functions.push(function)?;
    Ok(Draft {
        functions,
        exports,
        code: Vec::new(alloc),
    })
}

// The draft with one form more in front.
fn with_form(
    alloc: Global,
    module_name: &Atom,
    mut draft: Draft,
    form: Form,
) -> Result<Draft, NoMemory>
    ensures { IfOk result (λ d. (fs : List Form) → IsDraft module_name.now draft fs →
        IsDraft module_name.now d (form ∷ fs)) }
{
    match form {
        Form::Function(header) => with_function(alloc, module_name, draft, header),
        Form::NoFunction => {
            draft.code = Vec::new(alloc);
            Ok(draft)
        }
        Form::Instr(instr) => {
            draft.code.push(instr)?;
            Ok(draft)
        }
        Form::Exports(pairs) => {
            draft.exports = pairs;
            Ok(draft)
        }
        _ => Ok(draft),
    }
}

// The name that a form gives the module.
fn module_name(form: &Form) -> Option<&Atom>
    ensures { option_copied result ≡ module_name form.now }
{
    match form {
        Form::Module(name) => Some(name),
        _ => None,
    }
}

// A copy of the name.
fn name_in(alloc: Global, form: &Form) -> Result<Atom, NoMemory>
    requires { IsSome (module_name form.now) }
    ensures { IfOk result (λ name. Some name ≡ module_name form.now) }
{
    match module_name(form) {
        Some(name) => name.copy(alloc),
        None => unreachable!(),
    }
}

// What the forms give, from the last one on.
fn drafted(alloc: Global, module_name: &Atom, mut forms: Vec<Form>) -> Result<Draft, NoMemory>
    ensures { IfOk result (λ d. IsDraft module_name.now d forms.items) }
{
    let mut draft = Draft::new(alloc);
    while let Some(form) = forms.pop() {
        draft = with_form(alloc, module_name, draft, form)?;
    }
    Ok(draft)
}

/// The module of forms, the first of which is a module's. The error is want of memory.
pub fn module_of(alloc: Global, forms: Vec<Form>) -> Result<Module, NoMemory>
    requires some { 1 ≤ length forms.items }
    requires begun { IsSome (module_name (form_at forms.items 0)) }
    ensures { IfOk result (λ m. m ≡ module_of forms.items) }
{
    let name = name_in(alloc, form_at(forms.as_slice(), 0))?;
    let draft = drafted(alloc, &name, forms)?;
    let Draft {
        mut functions,
        exports,
        code: _,
    } = draft;
    functions.reverse();
    let functions = Functions::new(alloc, Items::from_vec(functions))?;
    Ok(Module {
        name,
        exports,
        functions,
    })
}
