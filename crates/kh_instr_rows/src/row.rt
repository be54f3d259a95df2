//! What a row says.
use crate::reader::terms_of;
use anyhow::{Context, Result, bail};
use kh_instr::{
    Instr, builtin_of, far_callee, first_word, is_listed, labels, near_callee, service_of, term_of,
    tree_instr,
};
use kh_term::{Atom, Term, Terms, atom, int, list, nil, origin_of, origin_term, tree_cmp, word};
use std::alloc::Global;

/// Whether a row is met: its first word says what of the second term is to be the third.
pub fn is_met(alloc: Global, line: &str) -> Result<bool> {
    let row = terms_of(alloc, line)?;
    let first = word_at(&row, 0).context("no word")?;
    match first.as_slice() {
        b"same" => is_written(alloc, &row, 1),
        b"written" => is_written(alloc, &row, 2),
        b"unlisted" => Ok(is_first_word(&row, &kept_found(alloc, &row)?)),
        b"labels" => Ok(is_third(&row, &labels_found(alloc, &row)?)),
        b"callee" => Ok(is_third(&row, &callee_found(alloc, &row)?)),
        b"call" => Ok(is_third(&row, &call_found(alloc, &row)?)),
        _ => bail!("no such row"),
    }
}

fn is_third(row: &Terms, answer: &Term) -> bool {
    match row.get(2) {
        Some(wanted) => tree_cmp(wanted, &answer.node).is_eq(),
        None => false,
    }
}

// The instruction of the second term.
fn instr_of_row(alloc: Global, row: &Terms) -> Result<Instr> {
    let form = row.get(1).context("no form")?;
    if first_word(form).is_none() {
        bail!("no form");
    }
    Ok(tree_instr(alloc, form)?)
}

// Whether the second term is written as the one at this place.
fn is_written(alloc: Global, row: &Terms, place: usize) -> Result<bool> {
    let instr = instr_of_row(alloc, row)?;
    if !is_listed(&instr) {
        return Ok(false);
    }
    let written = term_of(alloc, &instr)?;
    let wanted = row.get(place).context("no spelling")?;
    Ok(tree_cmp(wanted, &written.node).is_eq())
}

// The word that is kept of the second term, where the table has no such spelling, and nil where it has.
fn kept_found(alloc: Global, row: &Terms) -> Result<Term> {
    let instr = instr_of_row(alloc, row)?;
    match kept_word(&instr) {
        Some(word) => Ok(atom(word.copy(alloc)?)),
        None => Ok(nil()),
    }
}

fn kept_word(instr: &Instr) -> Option<&Atom> {
    match instr {
        Instr::Unsupported(word) => Some(word),
        _ => None,
    }
}

// Whether what is kept is the first word of the second term.
fn is_first_word(row: &Terms, kept: &Term) -> bool {
    match (first_word(&kept.node), word_at(row, 1)) {
        (Some(kept), Some(first)) => kept.as_slice() == first.as_slice(),
        _ => false,
    }
}

// The first word of a term.
fn word_at(row: &Terms, place: usize) -> Option<&Atom> {
    first_word(row.get(place)?)
}

// The list of the labels to which it may jump.
fn labels_found(alloc: Global, row: &Terms) -> Result<Term> {
    let mut found = Terms::new(alloc);
    for label in labels(alloc, &instr_of_row(alloc, row)?)? {
        found.push(int(label as i128))?;
    }
    Ok(list(alloc, found)?)
}

// The label or the function that it calls, `none` if neither.
fn callee_found(alloc: Global, row: &Terms) -> Result<Term> {
    let instr = instr_of_row(alloc, row)?;
    if let Some(label) = near_callee(&instr) {
        return Ok(int(label as i128));
    }
    match far_callee(&instr) {
        Some(function) => Ok(origin_term(alloc, function)?),
        None => Ok(word(alloc, "none")?),
    }
}

// The name of the built-in or the service that a function is, `none` if neither.
fn call_found(alloc: Global, row: &Terms) -> Result<Term> {
    let function = row.get(1).context("no function")?;
    let function = origin_of(alloc, function)?.context("no function")?;
    if let Some(builtin) = builtin_of(&function) {
        return named(alloc, format!(in alloc; "{builtin:?}")?);
    }
    if let Some(service) = service_of(&function) {
        return named(alloc, format!(in alloc; "{service:?}")?);
    }
    Ok(word(alloc, "none")?)
}

fn named(alloc: Global, text: String) -> Result<Term> {
    let text = Vec::from_slice(alloc, text.as_bytes())?;
    Ok(atom(Atom::new(text).context("no name")?))
}
