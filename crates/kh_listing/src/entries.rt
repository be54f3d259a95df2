//! Calls and closures that lead to no function that fits.
ghost use Rattle.std.specs.Prelude.{◌≡◌, ◌||◌, ℕ, nat_eq, nat_le, length, IfOk, OnOk};
ghost use Rattle.std.specs.BTreeMap as tree;
ghost use Rattle.std.specs.Ordering.{nat_cmp};
ghost use Rattle.kh_listing.specs.Faults.{leads, leads_astray};
ghost use Rattle.kh_listing.specs.Outcome.{IsFirst};
ghost use Rattle.kh_listing.specs.Sets.{begins_at, has_pair, takes, leads_by, AreEntries, AreWidest};

use crate::form::Form;
use crate::places::form_at;
use kh_instr::Instr;
use kh_term::NoMemory;
use std::alloc::Global;
use std::collections::{BTreeMap, BTreeSet};

type Pairs = BTreeSet<(u32, u8)>;

type Widest = BTreeMap<u32, u8>;

// Adds the entry of a function form, with its arity.
fn add_exact(exact: &mut Pairs, form: &Form) -> Result<(), NoMemory>
    ensures { OnOk result ((l n : ℕ) →
        has_pair exact.new l n ≡ (has_pair exact.old l n || begins_at l (nat_eq n) form.now)) }
{
    if let Form::Function(header) = form {
        exact.insert((header.entry, header.arity))?;
    }
    Ok(())
}

// The entries of all functions, each with an arity.
fn exact_of(alloc: Global, forms: &[Form]) -> Result<Pairs, NoMemory>
    ensures { IfOk result (λ exact. AreEntries exact forms.now) }
{
    let mut exact = BTreeSet::new(alloc);
    for i in 0..forms.len() {
        let form = form_at(forms, i);
        add_exact(&mut exact, form)?;
    }
    Ok(exact)
}

// The greater of two arities, where there is one already.
fn wider(old: Option<u8>, arity: u8) -> u8
    ensures { (c : ℕ) → nat_le c result ≡ (takes old c || nat_le c arity) }
{
    match old {
        Some(other) => other.max(arity),
        None => arity,
    }
}

// The arity at an entry.
fn arity_at(widest: &Widest, entry: u32) -> Option<u8>
    ensures { result ≡ tree.get nat_cmp widest.now entry }
{
    widest.get(&entry).copied()
}

// Adds the entry of a function form, with the greatest arity there.
fn add_widest(widest: &mut Widest, form: &Form) -> Result<(), NoMemory>
    ensures { OnOk result ((l c : ℕ) →
        takes (tree.get nat_cmp widest.new l) c ≡
        (takes (tree.get nat_cmp widest.old l) c || begins_at l (nat_le c) form.now)) }
{
    if let Form::Function(header) = form {
        let old = arity_at(widest, header.entry);
        let arity = wider(old, header.arity);
        widest.insert(header.entry, arity)?;
    }
    Ok(())
}

// The entries of all functions, each with the greatest arity there.
fn widest_of(alloc: Global, forms: &[Form]) -> Result<Widest, NoMemory>
    ensures { IfOk result (λ widest. AreWidest widest forms.now) }
{
    let mut widest = BTreeMap::new(alloc);
    for i in 0..forms.len() {
        let form = form_at(forms, i);
        add_widest(&mut widest, form)?;
    }
    Ok(widest)
}

// Whether a local call or a closure leads to a function that fits.
fn leads_to(exact: &Pairs, widest: &Widest, instr: &Instr) -> bool
    ensures { result ≡ leads_by exact.now widest.now instr.now }
{
    match instr {
        Instr::Call(arguments, label)
        | Instr::CallLast(arguments, label, _)
        | Instr::CallOnly(arguments, label) => exact.contains(&(*label, *arguments)),
        Instr::MakeFun3(label, _, captured) => takes(widest, *label, captured.len()),
        _ => true,
    }
}

// Whether the function at a label takes so many captured values.
fn takes(widest: &Widest, label: u32, captured: usize) -> bool
    ensures { result ≡ takes (tree.get nat_cmp widest.now label) captured }
{
    match arity_at(widest, label) {
        Some(arity) => captured <= arity as usize,
        None => false,
    }
}

fn leads(exact: &Pairs, widest: &Widest, form: &Form) -> bool
    ensures { result ≡ leads (leads_by exact.now widest.now) form.now }
{
    match form {
        Form::Instr(instr) => leads_to(exact, widest, instr),
        _ => true,
    }
}

fn first_among(exact: &Pairs, widest: &Widest, forms: &[Form]) -> Option<usize>
    requires exact { AreEntries exact.now forms.now }
    requires widest { AreWidest widest.now forms.now }
    ensures { IsFirst (leads_astray forms.now) (length forms.now) result }
{
    for i in 0..forms.len() {
        let form = form_at(forms, i);
        if !leads(exact, widest, form) {
            return Some(i);
        }
    }
    None
}

/// The first instruction that calls what is no entry of a function of that arity, or makes a closure of what is no entry
/// or with more captured values than the arity there. The error is want of memory.
pub fn first_astray(alloc: Global, forms: &[Form]) -> Result<Option<usize>, NoMemory>
    ensures { IfOk result (λ found. IsFirst (leads_astray forms.now) (length forms.now) found) }
{
    let exact = exact_of(alloc, forms)?;
    let widest = widest_of(alloc, forms)?;
    Ok(first_among(&exact, &widest, forms))
}
