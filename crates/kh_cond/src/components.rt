//! Reading components of patterns.
ghost use Rattle.std.specs.Prelude.{◌≡◌, IfOk};
ghost use Rattle.kh_term.specs.declared.tree.TermTree.{out-TermTree};
ghost use Rattle.kh_term.specs.WellFormed.{IsTerm, AreTerms};
ghost use Rattle.kh_cond.specs.Reading.{component_in, many_all_in, many_by, many_of_elements, many_of_list, many_of_parts, path_regex_by, path_regex_in, path_regex_of_parts};

use crate::component::Component;
use crate::cond::Regex;
use crate::operands::{is_nil, is_undefined, regex_in, word_in};
use crate::reading::{cond_in, each_in};
use crate::words::Word;
use kh_term::{NoMemory, TermTree};
use std::alloc::Global;

/// The component that a part of a term is read as.
pub fn component_in(alloc: Global, tree: &TermTree) -> Result<Option<Component>, NoMemory>
    requires { IsTerm tree.now }
    ensures { IfOk result (λ c. c ≡ component_in tree.now) }
{
    let cond = cond_in(alloc, tree)?;
    if let Some(cond) = cond {
        return Ok(Some(Component::One(cond)));
    }
    let regex = path_regex_in(alloc, tree)?;
    if let Some(regex) = regex {
        return Ok(Some(Component::Many(regex)));
    }
    Ok(many_all_in(alloc, tree)?)
}

#[tactic(auto, using(kh_term::proofs::Layers::nils))]
fn path_regex_in(alloc: Global, tree: &TermTree) -> Result<Option<Regex>, NoMemory>
    ensures { IfOk result (λ r. r ≡ path_regex_in (out-TermTree tree.now)) }
{
    match tree {
        TermTree::Tuple(parts) => path_regex_of_parts(alloc, parts.as_slice()),
        TermTree::Int(_)
        | TermTree::Atom(_)
        | TermTree::Bin(_)
        | TermTree::Nil
        | TermTree::List(_, _)
        | TermTree::Map(_)
        | TermTree::Closure(_, _) => Ok(None),
    }
}

fn path_regex_of_parts(alloc: Global, parts: &[TermTree]) -> Result<Option<Regex>, NoMemory>
    ensures { IfOk result (λ r. r ≡ path_regex_of_parts parts.now) }
{
    match parts {
        [word, operand] => path_regex_by(alloc, word_in(word), operand, true),
        [word, operand, last] => path_regex_by(alloc, word_in(word), operand, is_undefined(last)),
        _ => Ok(None),
    }
}

fn path_regex_by(
    alloc: Global,
    word: Option<Word>,
    operand: &TermTree,
    ends: bool,
) -> Result<Option<Regex>, NoMemory>
    ensures { IfOk result (λ r. r ≡ path_regex_by word operand.now ends) }
{
    match (word, ends) {
        (Some(Word::PathMatches), true) => regex_in(alloc, operand),
        _ => Ok(None),
    }
}

// An `if_all` that begins with a path's regular expression.
#[tactic(auto, using(kh_term::proofs::Layers::nils, kh_term::specs::Lemmas::Fits::parts))]
fn many_all_in(alloc: Global, tree: &TermTree) -> Result<Option<Component>, NoMemory>
    requires { IsTerm tree.now }
    ensures { IfOk result (λ c. c ≡ many_all_in (out-TermTree tree.now)) }
{
    match tree {
        TermTree::Tuple(parts) => many_of_parts(alloc, parts.as_slice()),
        TermTree::Int(_)
        | TermTree::Atom(_)
        | TermTree::Bin(_)
        | TermTree::Nil
        | TermTree::List(_, _)
        | TermTree::Map(_)
        | TermTree::Closure(_, _) => Ok(None),
    }
}

#[tactic(auto, using(kh_term::specs::Lemmas::Fits::parts, kh_term::specs::Lemmas::Fits::fits_front, kh_term::specs::Lemmas::Fits::fits_behind))]
fn many_of_parts(alloc: Global, parts: &[TermTree]) -> Result<Option<Component>, NoMemory>
    requires { AreTerms parts.now }
    ensures { IfOk result (λ c. c ≡ many_of_parts parts.now) }
{
    match parts {
        [word, operand] => many_by(alloc, word_in(word), operand),
        _ => Ok(None),
    }
}

fn many_by(
    alloc: Global,
    word: Option<Word>,
    operand: &TermTree,
) -> Result<Option<Component>, NoMemory>
    requires { IsTerm operand.now }
    ensures { IfOk result (λ c. c ≡ many_by word operand.now) }
{
    match word {
        Some(Word::All) => many_of_list(alloc, operand),
        _ => Ok(None),
    }
}

#[tactic(auto, using(kh_term::proofs::Layers::nils, kh_term::specs::Lemmas::Fits::parts))]
fn many_of_list(alloc: Global, tree: &TermTree) -> Result<Option<Component>, NoMemory>
    requires { IsTerm tree.now }
    ensures { IfOk result (λ c. c ≡ many_of_list (out-TermTree tree.now)) }
{
    match tree {
        TermTree::List(parts, tail) => {
            if !is_nil(tail.get()) {
                return Ok(None);
            }
            many_of_elements(alloc, parts.as_slice())
        }
        TermTree::Int(_)
        | TermTree::Atom(_)
        | TermTree::Bin(_)
        | TermTree::Nil
        | TermTree::Tuple(_)
        | TermTree::Map(_)
        | TermTree::Closure(_, _) => Ok(None),
    }
}

#[tactic(auto, using(kh_term::specs::Lemmas::Fits::fits_behind))]
fn many_of_elements(alloc: Global, parts: &[TermTree]) -> Result<Option<Component>, NoMemory>
    requires { AreTerms parts.now }
    ensures { IfOk result (λ c. c ≡ many_of_elements parts.now) }
{
    let [first, rest @ ..] = parts else {
        return Ok(None);
    };
    let regex = path_regex_in(alloc, first)?;
    let Some(regex) = regex else {
        return Ok(None);
    };
    let conds = each_in(alloc, rest)?;
    match conds {
        Some(conds) => Ok(Some(Component::ManyAll(regex, conds))),
        None => Ok(None),
    }
}
