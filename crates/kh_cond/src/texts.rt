//! The texts of conditions and patterns.
ghost use Rattle.std.specs.Prelude.{◌≡◌, ◌++◌, OnOk, OnErr};
ghost use Rattle.std.specs.List.{flat_map};
ghost use Rattle.kh_cond.specs.Texts.{texts_of, regex_texts, component_texts, pattern_texts};

use crate::component::Component;
use crate::cond::{Cond, Regex};
use crate::pattern::PathPattern;
use kh_term::{NoMemory, Text, Texts};
use std::alloc::Global;
use std::mem;

/// Adds the texts of a condition at the end, in order of place.
pub fn push_cond_texts(alloc: Global, cond: &Cond, into: &mut Texts) -> Result<(), NoMemory>
    ensures ok { OnOk result (into.new ≡ into.old ++ texts_of cond.now) }
    ensures err { OnErr result (into.new ≡ into.old) }
{
    let mut more = Vec::new(alloc);
    collect(alloc, cond, &mut more)?;
    append(alloc, into, more)
}

/// Adds the texts of a pattern at the end, in order of place.
pub fn push_pattern_texts(
    alloc: Global,
    pattern: &PathPattern,
    into: &mut Texts,
) -> Result<(), NoMemory>
    ensures ok { OnOk result (into.new ≡ into.old ++ pattern_texts pattern.now) }
    ensures err { OnErr result (into.new ≡ into.old) }
{
    let mut more = Vec::new(alloc);
    for component in pattern.components() {
        collect_component(alloc, component, &mut more)?;
    }
    append(alloc, into, more)
}

/// Moves texts to the end of others.
pub fn append(alloc: Global, into: &mut Texts, more: Vec<Text>) -> Result<(), NoMemory>
    ensures ok { OnOk result (into.new ≡ into.old ++ more.items) }
    ensures err { OnErr result (into.new ≡ into.old) }
{
    let mut more = more;
    let mut all = mem::replace(into, Texts::new(alloc)).into_vec();
    let done = all.append(&mut more);
    *into = Texts::from_vec(all);
    done?;
    Ok(())
}

fn collect_component(
    alloc: Global,
    component: &Component,
    all: &mut Vec<Text>,
) -> Result<(), NoMemory>
    ensures { OnOk result (all.new.items ≡ all.old.items ++ component_texts component.now) }
{
    match component {
        Component::One(cond) => collect(alloc, cond, all),
        Component::Many(regex) => collect_regex(alloc, regex, all),
        Component::ManyAll(regex, conds) => {
            collect_regex(alloc, regex, all)?;
            collect_each(alloc, conds.as_slice(), all)
        }
    }
}

fn collect_regex(alloc: Global, regex: &Regex, all: &mut Vec<Text>) -> Result<(), NoMemory>
    ensures { OnOk result (all.new.items ≡ all.old.items ++ regex_texts regex.now) }
{
    match regex {
        Regex::Any => Ok(()),
        Regex::Text(text) => {
            all.push(text.copy(alloc)?)?;
            Ok(())
        }
    }
}

/// Adds the texts of a condition to a vector, in order of place.
#[cycle(collecting)]
#[tactic(auto, using(crate::proofs::CondLayers::texts))]
pub fn collect(alloc: Global, cond: &Cond, all: &mut Vec<Text>) -> Result<(), NoMemory>
    ensures { OnOk result (all.new.items ≡ all.old.items ++ texts_of cond.now) }
{
    match cond {
        Cond::NameMatches(regex) => collect_regex(alloc, regex, all),
        Cond::PathMatches(regex) => collect_regex(alloc, regex, all),
        Cond::Not(part) => collect(alloc, part.get(), all),
        Cond::All(parts) => collect_each(alloc, parts.as_slice(), all),
        Cond::Any(parts) => collect_each(alloc, parts.as_slice(), all),
        Cond::Name(_)
        | Cond::NodeExists(_)
        | Cond::HasPayload(_)
        | Cond::HasData(_)
        | Cond::HasSproc(_)
        | Cond::DataMatches(_)
        | Cond::PayloadVersion(_)
        | Cond::ChildListVersion(_)
        | Cond::ChildListLength(_) => Ok(()),
    }
}

#[cycle(collecting)]
#[tactic(auto, using(crate::proofs::CondLayers::texts))]
fn collect_each(alloc: Global, conds: &[Cond], all: &mut Vec<Text>) -> Result<(), NoMemory>
    ensures { OnOk result (all.new.items ≡ all.old.items ++ flat_map texts_of conds.now) }
{
    for cond in conds {
        collect(alloc, cond, all)?;
    }
    Ok(())
}
