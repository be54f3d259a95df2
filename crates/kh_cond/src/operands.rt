//! Reading the operands of conditions.
ghost use Rattle.std.specs.Prelude.{◌≡◌, codes, IfOk};
ghost use Rattle.std.specs.Option.{option_map};
ghost use Rattle.std.specs.Str.{bytes_eq};
ghost use Rattle.kh_term.specs.declared.tree.TermTree.{out-TermTree};
ghost use Rattle.kh_term.specs.Size.{is_nil};
ghost use Rattle.kh_cond.specs.Reading.{any_regex, bool_in, bool_of, comparison_by, comparison_in, comparison_of_parts, int_in, is_undefined, operator_in, point_in, point_within, points_in, regex_in, text_regex, word_in};

use crate::cond::{Comparison, Operator, Regex};
use crate::words::{Word, operator_of, word_of};
use kh_term::{NoMemory, TermTree, Text};
use std::alloc::Global;

/// The word that an atom is.
#[tactic(auto, using(kh_term::proofs::Layers::nils))]
pub fn word_in(tree: &TermTree) -> Option<Word>
    ensures { result ≡ word_in (out-TermTree tree.now) }
{
    match tree {
        TermTree::Atom(text) => word_of(text.as_slice()),
        TermTree::Int(_)
        | TermTree::Bin(_)
        | TermTree::Nil
        | TermTree::List(_, _)
        | TermTree::Tuple(_)
        | TermTree::Map(_)
        | TermTree::Closure(_, _) => None,
    }
}

/// Whether it is nil.
#[tactic(auto, using(kh_term::proofs::Layers::nils))]
pub fn is_nil(tree: &TermTree) -> bool
    ensures { result ≡ is_nil (out-TermTree tree.now) }
{
    match tree {
        TermTree::Nil => true,
        TermTree::Int(_)
        | TermTree::Atom(_)
        | TermTree::Bin(_)
        | TermTree::List(_, _)
        | TermTree::Tuple(_)
        | TermTree::Map(_)
        | TermTree::Closure(_, _) => false,
    }
}

/// Whether it is the atom that ends a record spelling.
#[tactic(auto, using(kh_term::proofs::Layers::nils))]
pub fn is_undefined(tree: &TermTree) -> bool
    ensures { result ≡ is_undefined tree.now }
{
    match tree {
        TermTree::Atom(text) => is_undefined_text(text.as_slice()),
        TermTree::Int(_)
        | TermTree::Bin(_)
        | TermTree::Nil
        | TermTree::List(_, _)
        | TermTree::Tuple(_)
        | TermTree::Map(_)
        | TermTree::Closure(_, _) => false,
    }
}

fn is_undefined_text(text: &[u8]) -> bool
    ensures { result ≡ bytes_eq text.now (codes "undefined") }
{
    text == b"undefined".as_slice()
}

/// The boolean that an atom is.
#[tactic(auto, using(kh_term::proofs::Layers::nils))]
pub fn bool_in(tree: &TermTree) -> Option<bool>
    ensures { result ≡ bool_in (out-TermTree tree.now) }
{
    match tree {
        TermTree::Atom(text) => bool_of(text.as_slice()),
        TermTree::Int(_)
        | TermTree::Bin(_)
        | TermTree::Nil
        | TermTree::List(_, _)
        | TermTree::Tuple(_)
        | TermTree::Map(_)
        | TermTree::Closure(_, _) => None,
    }
}

fn bool_of(text: &[u8]) -> Option<bool>
    ensures { result ≡ bool_of text.now }
{
    match text {
        b"true" => Some(true),
        b"false" => Some(false),
        _ => None,
    }
}

/// The comparison that a term is: an integer, or the word of an operator and one.
#[tactic(auto, using(kh_term::proofs::Layers::nils))]
pub fn comparison_in(tree: &TermTree) -> Option<Comparison>
    ensures { result ≡ comparison_in (out-TermTree tree.now) }
{
    match tree {
        TermTree::Int(number) => Some(Comparison::Is(*number)),
        TermTree::Tuple(parts) => comparison_of_parts(parts.as_slice()),
        TermTree::Atom(_)
        | TermTree::Bin(_)
        | TermTree::Nil
        | TermTree::List(_, _)
        | TermTree::Map(_)
        | TermTree::Closure(_, _) => None,
    }
}

fn comparison_of_parts(parts: &[TermTree]) -> Option<Comparison>
    ensures { result ≡ comparison_of_parts parts.now }
{
    let [operator, number] = parts else {
        return None;
    };
    comparison_by(operator_in(operator), int_in(number))
}

fn comparison_by(operator: Option<Operator>, number: Option<i128>) -> Option<Comparison>
    ensures { result ≡ comparison_by operator number }
{
    match (operator, number) {
        (Some(operator), Some(number)) => Some(Comparison::By(operator, number)),
        _ => None,
    }
}

#[tactic(auto, using(kh_term::proofs::Layers::nils))]
fn operator_in(tree: &TermTree) -> Option<Operator>
    ensures { result ≡ operator_in (out-TermTree tree.now) }
{
    match tree {
        TermTree::Atom(text) => operator_of(text.as_slice()),
        TermTree::Int(_)
        | TermTree::Bin(_)
        | TermTree::Nil
        | TermTree::List(_, _)
        | TermTree::Tuple(_)
        | TermTree::Map(_)
        | TermTree::Closure(_, _) => None,
    }
}

#[tactic(auto, using(kh_term::proofs::Layers::nils))]
fn int_in(tree: &TermTree) -> Option<i128>
    ensures { result ≡ int_in (out-TermTree tree.now) }
{
    match tree {
        TermTree::Int(number) => Some(*number),
        TermTree::Atom(_)
        | TermTree::Bin(_)
        | TermTree::Nil
        | TermTree::List(_, _)
        | TermTree::Tuple(_)
        | TermTree::Map(_)
        | TermTree::Closure(_, _) => None,
    }
}

/// The regular expression that a term is: `any`, a binary, or a list of code points.
#[tactic(auto, using(kh_term::proofs::Layers::nils))]
pub fn regex_in(alloc: Global, tree: &TermTree) -> Result<Option<Regex>, NoMemory>
    ensures { IfOk result (λ r. r ≡ regex_in (out-TermTree tree.now)) }
{
    match tree {
        TermTree::Atom(text) => Ok(any_regex(text.as_slice())),
        TermTree::Bin(bytes) => {
            let text = Vec::from_slice(alloc, bytes.as_slice())?;
            Ok(text_regex(Some(text)))
        }
        TermTree::Nil => Ok(text_regex(Some(Vec::new(alloc)))),
        TermTree::List(parts, tail) => {
            if !is_nil(tail.get()) {
                return Ok(None);
            }
            let text = points_in(alloc, parts.as_slice())?;
            Ok(text_regex(text))
        }
        TermTree::Int(_) | TermTree::Tuple(_) | TermTree::Map(_) | TermTree::Closure(_, _) => {
            Ok(None)
        }
    }
}

fn any_regex(text: &[u8]) -> Option<Regex>
    ensures { result ≡ any_regex text.now }
{
    match text {
        b"any" => Some(Regex::Any),
        _ => None,
    }
}

// A text that is UTF-8 and isn't too long.
fn text_regex(text: Option<Vec<u8>>) -> Option<Regex>
    ensures { result ≡ text_regex (option_map (λ t. t.items) text) }
{
    match text {
        Some(text) => match Text::new(text) {
            Some(text) => Some(Regex::Text(text)),
            None => None,
        },
        None => None,
    }
}

// The UTF-8 of code points.
#[tactic(auto, using(crate::proofs::ReadLayers::points))]
fn points_in(alloc: Global, parts: &[TermTree]) -> Result<Option<Vec<u8>>, NoMemory>
    ensures { IfOk result (λ text. option_map (λ t. t.items) text ≡ points_in parts.now) }
{
    let mut text = String::new(alloc);
    for part in parts {
        match point_in(part) {
            Some(point) => text.push(point)?,
            None => return Ok(None),
        }
    }
    Ok(Some(text.into_bytes()))
}

#[tactic(auto, using(kh_term::proofs::Layers::nils))]
fn point_in(tree: &TermTree) -> Option<char>
    ensures { result ≡ point_in (out-TermTree tree.now) }
{
    match tree {
        TermTree::Int(number) => point_within(*number),
        TermTree::Atom(_)
        | TermTree::Bin(_)
        | TermTree::Nil
        | TermTree::List(_, _)
        | TermTree::Tuple(_)
        | TermTree::Map(_)
        | TermTree::Closure(_, _) => None,
    }
}

fn point_within(number: i128) -> Option<char>
    ensures { result ≡ point_within number }
{
    if number < 0 || number > 0x10_ffff {
        return None;
    }
    char::from_u32(number as u32)
}
