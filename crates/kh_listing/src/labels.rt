//! Labels that stand twice, and labels that aren't where they are named.
ghost use Rattle.std.specs.Prelude.{◌≡◌, ◌<◌, ◌≤◌, ◌+◌, ◌^◌, ◌&&◌, ◌||◌, ℕ, nat_eq, if◌then◌else◌, length, IfOk, OnOk};
ghost use Rattle.std.specs.BTreeSet.{contains};
ghost use Rattle.std.specs.List.{list_all, list_any};
ghost use Rattle.std.specs.Option.{option_to_list};
ghost use Rattle.std.specs.Ordering.{nat_cmp};
ghost use Rattle.kh_instr.specs.Written.{own_label};
ghost use Rattle.kh_listing.specs.Faults.{enters, has_number, is_labelled_again, jumps, jumps_out, lacks_entry};
ghost use Rattle.kh_listing.specs.Outcome.{IsFirst};
ghost use Rattle.kh_listing.specs.Places.{is_function, label_at};
ghost use Rattle.kh_listing.specs.Sets.{has_pair, AreHomes};

use crate::form::Form;
use crate::places::{form_at, is_function};
use kh_instr::{Instr, labels};
use kh_term::NoMemory;
use std::alloc::Global;
use std::collections::BTreeSet;

// The number of the label that a form is.
fn label_at(form: &Form) -> Option<u32>
    ensures { option_to_list result ≡ label_at form.now }
{
    match form {
        Form::Instr(instr) => own_label(instr),
        _ => None,
    }
}

fn own_label(instr: &Instr) -> Option<u32>
    ensures { option_to_list result ≡ own_label instr.now }
{
    match instr {
        Instr::Label(label) => Some(*label),
        _ => None,
    }
}

// Adds the number of a label. Answers whether it was there.
fn add_label(seen: &mut BTreeSet<u32>, form: &Form) -> Result<bool, NoMemory>
    ensures known { IfOk result (λ known.
        known ≡ list_any (contains nat_cmp seen.old) (label_at form.now)) }
    ensures after { OnOk result ((n : ℕ) →
        contains nat_cmp seen.new n ≡ (contains nat_cmp seen.old n || has_number n form.now)) }
{
    match label_at(form) {
        Some(label) => {
            let is_new = seen.insert(label)?;
            Ok(!is_new)
        }
        None => Ok(false),
    }
}

/// The first label with the number of an earlier one. The error is want of memory.
pub fn first_labelled_again(alloc: Global, forms: &[Form]) -> Result<Option<usize>, NoMemory>
    ensures { IfOk result (λ found.
        IsFirst (is_labelled_again forms.now) (length forms.now) found) }
{
    let mut seen = BTreeSet::new(alloc);
    for i in 0..forms.len() {
        let form = form_at(forms, i);
        let known = add_label(&mut seen, form)?;
        if known {
            return Ok(Some(i));
        }
    }
    Ok(None)
}

/// Labels, each behind the number of its function.
pub type Homes = BTreeSet<(usize, u32)>;

// Adds a label of the function of a number.
fn add_home(homes: &mut Homes, number: usize, form: &Form) -> Result<(), NoMemory>
    ensures { OnOk result ((k l : ℕ) →
        has_pair homes.new k l ≡
        (has_pair homes.old k l || (nat_eq number k && has_number l form.now))) }
{
    match label_at(form) {
        Some(label) => {
            homes.insert((number, label))?;
            Ok(())
        }
        None => Ok(()),
    }
}

/// The labels of all functions. The error is want of memory.
pub fn homes_of(alloc: Global, forms: &[Form]) -> Result<Homes, NoMemory>
    ensures { IfOk result (λ homes. AreHomes homes forms.now) }
{
    let mut homes = BTreeSet::new(alloc);
    let mut number = 0;
    for i in 0..forms.len() {
        let form = form_at(forms, i);
        number = number_at(number, form);
        add_home(&mut homes, number, form)?;
    }
    Ok(homes)
}

// The number of the function to which a form belongs, by that of the form in front of it.
fn number_at(before: usize, form: &Form) -> usize
    requires { before + 1 < 2 ^ 64 }
    ensures number { result ≡ before + (if is_function form.now then 1 else 0) }
    ensures few { result ≤ before + 1 }
{
    if is_function(form) {
        before + 1
    } else {
        before
    }
}

fn stands_by(homes: &Homes, number: usize, label: u32) -> bool
    ensures { result ≡ has_pair homes.now number label }
{
    homes.contains(&(number, label))
}

fn enters(homes: &Homes, number: usize, form: &Form) -> bool
    ensures { result ≡ enters (has_pair homes.now number) form.now }
{
    match form {
        Form::Function(header) => stands_by(homes, number, header.entry),
        _ => true,
    }
}

/// The first function form whose entry is no label of its function.
pub fn first_lacking(homes: &Homes, forms: &[Form]) -> Option<usize>
    requires { AreHomes homes.now forms.now }
    ensures { IsFirst (lacks_entry forms.now) (length forms.now) result }
{
    let mut number = 0;
    for i in 0..forms.len() {
        let form = form_at(forms, i);
        number = number_at(number, form);
        if !enters(homes, number, form) {
            return Some(i);
        }
    }
    None
}

// Whether labels stand in the function of a number.
fn all_stand(homes: &Homes, number: usize, labels: &[u32]) -> bool
    ensures { result ≡ list_all (has_pair homes.now number) labels.now }
{
    for label in labels {
        if !stands_by(homes, number, *label) {
            return false;
        }
    }
    true
}

fn jumps(alloc: Global, homes: &Homes, number: usize, form: &Form) -> Result<bool, NoMemory>
    ensures { IfOk result (λ right. right ≡ jumps (has_pair homes.now number) form.now) }
{
    match form {
        Form::Instr(instr) => {
            let named = labels(alloc, instr)?;
            Ok(all_stand(homes, number, named.as_slice()))
        }
        _ => Ok(true),
    }
}

/// The first instruction that jumps to a label that isn't in its function. The error is want of memory.
pub fn first_jumping_out(
    alloc: Global,
    homes: &Homes,
    forms: &[Form],
) -> Result<Option<usize>, NoMemory>
    requires { AreHomes homes.now forms.now }
    ensures { IfOk result (λ found. IsFirst (jumps_out forms.now) (length forms.now) found) }
{
    let mut number = 0;
    for i in 0..forms.len() {
        let form = form_at(forms, i);
        number = number_at(number, form);
        let right = jumps(alloc, homes, number, form)?;
        if !right {
            return Ok(Some(i));
        }
    }
    Ok(None)
}
