//! The short spelling of conditions and patterns.
ghost use Rattle.std.specs.Prelude.{◌≡◌, ◌++◌, map, IfOk, OnOk};
ghost use Rattle.kh_cond.specs.Forms.{form, bool_tree};
ghost use Rattle.kh_term.specs.Make.{list_of};
ghost use Rattle.kh_cond.specs.declared.words.Word.TheVariants as words;
ghost use Rattle.kh_cond.specs.Words.{word_text};
ghost use Rattle.kh_cond.specs.Short.{cond_tree, component_tree, pattern_tree, regex_tree, comparison_tree};

use crate::component::Component;
use crate::cond::{Comparison, Cond, Regex};
use crate::pattern::PathPattern;
use crate::words::{Word, operator_word, word_text};
use kh_term::{Bytes, NoMemory, Term, Terms, bin, int, list, pair, term_of_name, word};
use std::alloc::Global;

/// The short spelling of a condition, with regular expressions as binaries and comparisons as they were read.
#[cycle(printing)]
#[tactic(auto, using(crate::proofs::CondLayers::trees))]
pub fn cond_term(alloc: Global, cond: &Cond) -> Result<Term, NoMemory>
    ensures { IfOk result (λ t. t.node ≡ cond_tree cond.now) }
{
    match cond {
        Cond::Name(name) => Ok(term_of_name(alloc, name)?),
        Cond::NodeExists(b) => Ok(bool_form(alloc, Word::NodeExists, *b)?),
        Cond::NameMatches(r) => Ok(regex_form(alloc, Word::NameMatches, r)?),
        Cond::PathMatches(r) => Ok(regex_form(alloc, Word::PathMatches, r)?),
        Cond::HasPayload(b) => Ok(bool_form(alloc, Word::HasPayload, *b)?),
        Cond::HasData(b) => Ok(bool_form(alloc, Word::HasData, *b)?),
        Cond::HasSproc(b) => Ok(bool_form(alloc, Word::HasSproc, *b)?),
        Cond::DataMatches(pattern) => Ok(data_form(alloc, pattern)?),
        Cond::PayloadVersion(c) => Ok(number_form(alloc, Word::PayloadVersion, *c)?),
        Cond::ChildListVersion(c) => Ok(number_form(alloc, Word::ChildListVersion, *c)?),
        Cond::ChildListLength(c) => Ok(number_form(alloc, Word::ChildListLength, *c)?),
        Cond::Not(part) => Ok(form(alloc, Word::Not, cond_term(alloc, part.get())?)?),
        Cond::All(parts) => Ok(list_form(alloc, Word::All, parts.as_slice())?),
        Cond::Any(parts) => Ok(list_form(alloc, Word::Any, parts.as_slice())?),
    }
}

// A tuple of a word and the list of conditions.
#[cycle(printing)]
#[tactic(auto, using(crate::proofs::CondLayers::trees))]
fn list_form(alloc: Global, name: Word, conds: &[Cond]) -> Result<Term, NoMemory>
    ensures { IfOk result (λ t. t.node ≡ form (word_text name) (list_of (map cond_tree conds.now))) }
{
    let mut terms = Terms::new(alloc);
    push_conds(alloc, conds, &mut terms)?;
    Ok(form(alloc, name, list(alloc, terms)?)?)
}

// Adds the terms of conditions.
#[cycle(printing)]
#[tactic(auto, using(crate::proofs::CondLayers::trees))]
fn push_conds(alloc: Global, conds: &[Cond], into: &mut Terms) -> Result<(), NoMemory>
    ensures { OnOk result (into.new.nodes ≡ into.old.nodes ++ map cond_tree conds.now) }
{
    for cond in conds {
        into.push(cond_term(alloc, cond)?)?;
    }
    Ok(())
}

// A tuple of a word and an operand.
fn form(alloc: Global, name: Word, operand: Term) -> Result<Term, NoMemory>
    ensures { IfOk result (λ t. t.node ≡ form (word_text name) operand.node) }
{
    pair(alloc, word(alloc, word_text(name))?, operand)
}

fn bool_form(alloc: Global, name: Word, b: bool) -> Result<Term, NoMemory>
    ensures { IfOk result (λ t. t.node ≡ form (word_text name) (bool_tree b)) }
{
    let operand = if b {
        word(alloc, "true")?
    } else {
        word(alloc, "false")?
    };
    form(alloc, name, operand)
}

fn regex_form(alloc: Global, name: Word, regex: &Regex) -> Result<Term, NoMemory>
    ensures { IfOk result (λ t. t.node ≡ form (word_text name) (regex_tree regex.now)) }
{
    match regex {
        Regex::Any => form(alloc, name, word(alloc, "any")?),
        Regex::Text(text) => {
            let bytes = Vec::from_slice(alloc, text.as_slice())?;
            form(alloc, name, bin(Bytes::new(bytes)))
        }
    }
}

fn data_form(alloc: Global, pattern: &Term) -> Result<Term, NoMemory>
    ensures { IfOk result (λ t. t.node ≡ form (word_text words.DataMatches) pattern.now.node) }
{
    form(alloc, Word::DataMatches, pattern.copy(alloc)?)
}

fn number_form(alloc: Global, name: Word, comparison: Comparison) -> Result<Term, NoMemory>
    ensures { IfOk result (λ t. t.node ≡ form (word_text name) (comparison_tree comparison)) }
{
    match comparison {
        Comparison::Is(number) => form(alloc, name, int(number)),
        Comparison::By(operator, number) => {
            let operator = word(alloc, operator_word(operator))?;
            form(alloc, name, pair(alloc, operator, int(number))?)
        }
    }
}

fn component_term(alloc: Global, component: &Component) -> Result<Term, NoMemory>
    ensures { IfOk result (λ t. t.node ≡ component_tree component.now) }
{
    match component {
        Component::One(cond) => cond_term(alloc, cond),
        Component::Many(regex) => regex_form(alloc, Word::PathMatches, regex),
        Component::ManyAll(regex, conds) => {
            let mut terms = Terms::new(alloc);
            terms.push(regex_form(alloc, Word::PathMatches, regex)?)?;
            push_conds(alloc, conds.as_slice(), &mut terms)?;
            form(alloc, Word::All, list(alloc, terms)?)
        }
    }
}

/// The short spelling of a pattern.
pub fn pattern_term(alloc: Global, pattern: &PathPattern) -> Result<Term, NoMemory>
    ensures { IfOk result (λ t. t.node ≡ pattern_tree pattern.now) }
{
    let mut terms = Terms::new(alloc);
    for component in pattern.components() {
        terms.push(component_term(alloc, component)?)?;
    }
    list(alloc, terms)
}
