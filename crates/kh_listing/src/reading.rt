//! What each form of a listing is.
ghost use Rattle.std.specs.Prelude.{◌≡◌, IfOk, Some};
ghost use Rattle.kh_term.specs.WellFormed.{IsTerm, AreTerms};
ghost use Rattle.kh_instr.specs.Operands.{each, list_by};
ghost use Rattle.kh_instr.specs.Rows.{first_word};
ghost use Rattle.kh_listing.specs.declared.form.Form.TheVariants as kind;
ghost use Rattle.kh_listing.specs.Forms.{module_form, export_from, export_of, exports_form, lone_form, function_form, header_of, is_skipped, headed, tuple_form, worded, form_of, forms_of};

use crate::form::{Form, Header};
use crate::operands::{arity_of, count_of, items_of, name_of, parts_of};
use crate::places::either;
use kh_instr::{Export, Exports, first_word, tree_instr};
use kh_term::{Atom, NoMemory, TermTree};
use sqlite_items::Items;
use std::alloc::Global;

fn module_form(alloc: Global, parts: &[TermTree]) -> Result<Form, NoMemory>
    ensures { IfOk result (λ form. form ≡ module_form parts.now) }
{
    match parts {
        [name] => match name_of(alloc, name)? {
            Some(name) => Ok(Form::Module(name)),
            None => Ok(Form::NoForm),
        },
        _ => Ok(Form::NoForm),
    }
}

// A pair in `exports`.
fn export_of(alloc: Global, tree: &TermTree) -> Result<Option<Export>, NoMemory>
    ensures { IfOk result (λ found. found ≡ export_of tree.now) }
{
    match parts_of(tree) {
        Some(parts) => export_from(alloc, parts),
        None => Ok(None),
    }
}

fn export_from(alloc: Global, parts: &[TermTree]) -> Result<Option<Export>, NoMemory>
    ensures { IfOk result (λ found. found ≡ export_from parts.now) }
{
    match parts {
        [name, arity] => {
            let Some(name) = name_of(alloc, name)? else {
                return Ok(None);
            };
            let Some(arity) = arity_of(arity) else {
                return Ok(None);
            };
            Ok(Some(Export { name, arity }))
        }
        _ => Ok(None),
    }
}

// All pairs in `exports`, where each is one.
#[tactic(auto, using(crate::proofs::Each::steps))]
fn each_export(alloc: Global, items: &[TermTree]) -> Result<Option<Exports>, NoMemory>
    ensures { IfOk result (λ found. found ≡ each export_of items.now) }
{
    let mut all = Items::new(alloc);
    for item in items {
        match export_of(alloc, item)? {
            Some(pair) => all.push(pair)?,
            None => return Ok(None),
        }
    }
    Ok(Some(all))
}

fn exports_of(alloc: Global, tree: &TermTree) -> Result<Option<Exports>, NoMemory>
    ensures { IfOk result (λ found. found ≡ list_by export_of tree.now) }
{
    match items_of(tree) {
        Some(items) => each_export(alloc, items),
        None => Ok(None),
    }
}

fn exports_form(alloc: Global, parts: &[TermTree]) -> Result<Form, NoMemory>
    ensures { IfOk result (λ form. form ≡ exports_form parts.now) }
{
    match parts {
        [pairs] => match exports_of(alloc, pairs)? {
            Some(pairs) => Ok(Form::Exports(pairs)),
            None => Ok(Form::NoForm),
        },
        _ => Ok(Form::NoForm),
    }
}

fn attributes_form(parts: &[TermTree]) -> Form
    ensures { result ≡ lone_form kind.Attributes parts.now }
{
    match parts {
        [_] => Form::Attributes,
        _ => Form::NoForm,
    }
}

fn labels_form(parts: &[TermTree]) -> Form
    ensures { result ≡ lone_form kind.Labels parts.now }
{
    match parts {
        [_] => Form::Labels,
        _ => Form::NoForm,
    }
}

fn function_form(alloc: Global, parts: &[TermTree]) -> Result<Form, NoMemory>
    ensures { IfOk result (λ form. form ≡ function_form parts.now) }
{
    match parts {
        [name, arity, entry] => {
            let Some(name) = name_of(alloc, name)? else {
                return Ok(Form::NoFunction);
            };
            let Some(arity) = arity_of(arity) else {
                return Ok(Form::NoFunction);
            };
            let Some(entry) = count_of(entry) else {
                return Ok(Form::NoFunction);
            };
            Ok(Form::Function(Header { name, arity, entry }))
        }
        _ => Ok(Form::NoFunction),
    }
}

// What a tuple is that begins with a word that no instruction has.
fn header_of(alloc: Global, word: &[u8], parts: &[TermTree]) -> Result<Option<Form>, NoMemory>
    ensures { IfOk result (λ form. form ≡ header_of word.now parts.now) }
{
    if word == b"module".as_slice() {
        return Ok(Some(module_form(alloc, parts)?));
    }
    if word == b"exports".as_slice() {
        return Ok(Some(exports_form(alloc, parts)?));
    }
    if word == b"attributes".as_slice() {
        return Ok(Some(attributes_form(parts)));
    }
    if word == b"labels".as_slice() {
        return Ok(Some(labels_form(parts)));
    }
    if word == b"function".as_slice() {
        return Ok(Some(function_form(alloc, parts)?));
    }
    Ok(None)
}

fn is_skipped(word: &[u8]) -> bool
    ensures { result ≡ is_skipped word.now }
{
    either(word == b"line".as_slice(), word == b"%".as_slice())
}

// What a tuple of these parts is, where it begins with a word that no instruction has.
fn headed(alloc: Global, word: &[u8], parts: &[TermTree]) -> Result<Option<Form>, NoMemory>
    ensures { IfOk result (λ form. form ≡ headed word.now parts.now) }
{
    match parts {
        [_, rest @ ..] => header_of(alloc, word, rest),
        [] => Ok(None),
    }
}

fn tuple_form(alloc: Global, word: &[u8], tree: &TermTree) -> Result<Option<Form>, NoMemory>
    ensures { IfOk result (λ form. form ≡ tuple_form word.now tree.now) }
{
    match parts_of(tree) {
        Some(parts) => headed(alloc, word, parts),
        None => Ok(None),
    }
}

/// What a form is. The error is want of memory.
pub fn form_of(alloc: Global, tree: &TermTree) -> Result<Form, NoMemory>
    requires { IsTerm tree.now }
    ensures { IfOk result (λ form. form ≡ form_of tree.now) }
{
    match first_word(tree) {
        Some(word) => worded(alloc, word, tree),
        None => Ok(Form::NoForm),
    }
}

fn worded(alloc: Global, word: &Atom, tree: &TermTree) -> Result<Form, NoMemory>
    requires term { IsTerm tree.now }
    requires first { first_word tree.now ≡ Some word.now }
    ensures { IfOk result (λ form. form ≡ worded tree.now (Some word.now)) }
{
    if is_skipped(word.as_slice()) {
        return Ok(Form::Skipped);
    }
    match tuple_form(alloc, word.as_slice(), tree)? {
        Some(form) => Ok(form),
        None => Ok(Form::Instr(tree_instr(alloc, tree)?)),
    }
}

/// What forms are, one by one. The error is want of memory.
#[tactic(auto, using(kh_term::specs::Lemmas::Fits::parts))]
pub fn forms_of(alloc: Global, trees: &[TermTree]) -> Result<Vec<Form>, NoMemory>
    requires { AreTerms trees.now }
    ensures { IfOk result (λ forms. forms.items ≡ forms_of trees.now) }
{
    let mut forms = Vec::new(alloc);
    for tree in trees {
        forms.push(form_of(alloc, tree)?)?;
    }
    Ok(forms)
}
