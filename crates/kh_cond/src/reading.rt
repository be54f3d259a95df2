//! Reading conditions.
ghost use Rattle.std.specs.Prelude.{◌≡◌, ◌&&◌, map, IfOk};
ghost use Rattle.std.specs.Option.{option_map};
ghost use Rattle.kh_term.specs.Parts.{name_of};
ghost use Rattle.kh_term.specs.WellFormed.{IsTerm, AreTerms};
ghost use Rattle.kh_term.specs.Whole.{whole};
ghost use Rattle.kh_cond.specs.declared.cond.Cond.TheVariants as cond;
ghost use Rattle.kh_cond.specs.Reading.{cond_in, conds_in, data_record_in, each_in, part_of, record_in, records_in, row_in, tuple_in};

use crate::cond::{Cond, Conds};
use crate::operands::{bool_in, comparison_in, is_nil, is_undefined, regex_in, word_in};
use crate::words::{Shape, Word, shape_of};
use kh_term::{NoMemory, TermTree, copy_of, name_of};
use sqlite_items::{Boxed, Items};
use std::alloc::Global;

/// The condition that a part of a term is read as.
#[cycle(reading)]
#[tactic(auto, using(kh_term::specs::Lemmas::Fits::parts, crate::proofs::ReadLayers::reading))]
pub fn cond_in(alloc: Global, tree: &TermTree) -> Result<Option<Cond>, NoMemory>
    requires { IsTerm tree.now }
    ensures { IfOk result (λ c. c ≡ cond_in tree.now) }
{
    match tree {
        TermTree::Atom(_) => Ok(named(alloc, tree)?),
        TermTree::Bin(_) => Ok(named(alloc, tree)?),
        TermTree::Tuple(parts) => Ok(tuple_in(alloc, parts.as_slice())?),
        TermTree::Int(_)
        | TermTree::Nil
        | TermTree::List(_, _)
        | TermTree::Map(_)
        | TermTree::Closure(_, _) => Ok(None),
    }
}

// The condition of the parts of a tuple.
#[cycle(reading)]
#[tactic(auto, using(kh_term::specs::Lemmas::Fits::parts, crate::proofs::ReadLayers::tuples))]
fn tuple_in(alloc: Global, parts: &[TermTree]) -> Result<Option<Cond>, NoMemory>
    requires { AreTerms parts.now }
    ensures { IfOk result (λ c. c ≡ tuple_in (map part_of parts.now)) }
{
    let [word, operand] = parts else {
        return Ok(records_in(alloc, parts)?);
    };
    let Some(word) = word_in(word) else {
        return Ok(None);
    };
    match shape_of(word) {
        Shape::Not => Ok(negated(alloc, cond_in(alloc, operand)?)?),
        Shape::All => Ok(all_of(conds_in(alloc, operand)?)),
        Shape::Any => Ok(any_of(conds_in(alloc, operand)?)),
        Shape::Row(word) => Ok(row_in(alloc, word, operand)?),
    }
}

/// The conditions that the elements of a list are read as.
#[cycle(reading)]
#[tactic(auto, using(kh_term::specs::Lemmas::Fits::parts, crate::proofs::ReadLayers::reading))]
pub fn conds_in(alloc: Global, tree: &TermTree) -> Result<Option<Conds>, NoMemory>
    requires { IsTerm tree.now }
    ensures { IfOk result (λ cs. cs ≡ conds_in tree.now) }
{
    match tree {
        TermTree::Nil => Ok(Some(Items::new(alloc))),
        TermTree::List(parts, tail) => {
            if !is_nil(tail.get()) {
                return Ok(None);
            }
            Ok(each_in(alloc, parts.as_slice())?)
        }
        TermTree::Int(_)
        | TermTree::Atom(_)
        | TermTree::Bin(_)
        | TermTree::Tuple(_)
        | TermTree::Map(_)
        | TermTree::Closure(_, _) => Ok(None),
    }
}

/// The conditions that terms are read as, each as one.
#[cycle(reading)]
#[tactic(auto, using(kh_term::specs::Lemmas::Fits::parts, crate::proofs::ReadLayers::lists))]
pub fn each_in(alloc: Global, trees: &[TermTree]) -> Result<Option<Conds>, NoMemory>
    requires { AreTerms trees.now }
    ensures { IfOk result (λ cs. cs ≡ each_in trees.now) }
{
    let mut all = Items::new(alloc);
    for tree in trees {
        match cond_in(alloc, tree)? {
            Some(cond) => all.push(cond)?,
            None => return Ok(None),
        }
    }
    Ok(Some(all))
}

fn both(first: bool, second: bool) -> bool
    ensures { result ≡ (first && second) }
{
    first && second
}

fn named(alloc: Global, tree: &TermTree) -> Result<Option<Cond>, NoMemory>
    ensures { IfOk result (λ c. c ≡ option_map cond.Name (name_of tree.now)) }
{
    Ok(name_of(alloc, tree)?.map(|name| Cond::Name(name)))
}

fn negated(alloc: Global, part: Option<Cond>) -> Result<Option<Cond>, NoMemory>
    ensures { IfOk result (λ c. c ≡ option_map cond.Not part) }
{
    match part {
        Some(part) => Ok(Some(Cond::Not(Boxed::new(alloc, part)?))),
        None => Ok(None),
    }
}

fn all_of(parts: Option<Conds>) -> Option<Cond>
    ensures { result ≡ option_map cond.All parts }
{
    parts.map(|parts| Cond::All(parts))
}

fn any_of(parts: Option<Conds>) -> Option<Cond>
    ensures { result ≡ option_map cond.Any parts }
{
    parts.map(|parts| Cond::Any(parts))
}

// A data match.
fn data_cond(alloc: Global, pattern: &TermTree) -> Result<Cond, NoMemory>
    requires { IsTerm pattern.now }
    ensures { IfOk result (λ c. c ≡ cond.DataMatches (whole pattern.now)) }
{
    let pattern = copy_of(alloc, pattern)?;
    Ok(Cond::DataMatches(pattern))
}

// A row by its word and operand.
fn row_in(alloc: Global, word: Word, operand: &TermTree) -> Result<Option<Cond>, NoMemory>
    requires { IsTerm operand.now }
    ensures { IfOk result (λ c. c ≡ row_in word operand.now) }
{
    match word {
        Word::NodeExists => Ok(bool_in(operand).map(|b| Cond::NodeExists(b))),
        Word::NameMatches => Ok(regex_in(alloc, operand)?.map(|r| Cond::NameMatches(r))),
        Word::HasPayload => Ok(bool_in(operand).map(|b| Cond::HasPayload(b))),
        Word::HasData => Ok(bool_in(operand).map(|b| Cond::HasData(b))),
        Word::HasSproc => Ok(bool_in(operand).map(|b| Cond::HasSproc(b))),
        Word::DataMatches => Ok(Some(data_cond(alloc, operand)?)),
        Word::PayloadVersion => Ok(comparison_in(operand).map(|c| Cond::PayloadVersion(c))),
        Word::ChildListVersion => Ok(comparison_in(operand).map(|c| Cond::ChildListVersion(c))),
        Word::ChildListLength => Ok(comparison_in(operand).map(|c| Cond::ChildListLength(c))),
        Word::PathMatches | Word::Not | Word::All | Word::Any => Ok(None),
    }
}

// The record spellings.
#[tactic(auto, using(kh_term::specs::Lemmas::Fits::parts))]
fn records_in(alloc: Global, parts: &[TermTree]) -> Result<Option<Cond>, NoMemory>
    requires { AreTerms parts.now }
    ensures { IfOk result (λ c. c ≡ records_in parts.now) }
{
    match parts {
        [word, operand, last] => {
            Ok(record_in(alloc, word_in(word), operand, is_undefined(last))?)
        }
        [word, pattern, options, last] => {
            let ends = both(is_nil(options), is_undefined(last));
            Ok(data_record_in(alloc, word_in(word), pattern, ends)?)
        }
        _ => Ok(None),
    }
}

// The record spelling of a name's regular expression.
fn record_in(
    alloc: Global,
    word: Option<Word>,
    operand: &TermTree,
    ends: bool,
) -> Result<Option<Cond>, NoMemory>
    ensures { IfOk result (λ c. c ≡ record_in word operand.now ends) }
{
    match (word, ends) {
        (Some(Word::NameMatches), true) => {
            Ok(regex_in(alloc, operand)?.map(|r| Cond::NameMatches(r)))
        }
        _ => Ok(None),
    }
}

// The record spelling of a data match.
fn data_record_in(
    alloc: Global,
    word: Option<Word>,
    pattern: &TermTree,
    ends: bool,
) -> Result<Option<Cond>, NoMemory>
    requires { IsTerm pattern.now }
    ensures { IfOk result (λ c. c ≡ data_record_in word pattern.now ends) }
{
    match (word, ends) {
        (Some(Word::DataMatches), true) => { Ok(Some(data_cond(alloc, pattern)?)) }
        _ => Ok(None),
    }
}
