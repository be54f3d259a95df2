//! Exact patterns.
ghost use Rattle.std.specs.Prelude.{◌≡◌, ◌≤◌, ◌↔◌, Some, length, is_some, IsSome, IfSome, IfOk, IsTrue};
ghost use Rattle.std.specs.Option.{option_copied};
ghost use Rattle.kh_term.specs.Parts.{named};
ghost use Rattle.kh_cond.specs.declared.cond.Cond.{out-Cond};
ghost use Rattle.kh_cond.specs.Exact.{is_exact, target_of, component_name, exact_name, first_name, plain_name};

use crate::component::Component;
use crate::cond::Cond;
use crate::pattern::PathPattern;
use kh_term::{Name, NoMemory, Path};
use std::alloc::Global;
use std::marker::Model;

/// A pattern that names one path: each component is a name, or an `if_all` that begins with a name.
#[derive(Drop)]
pub struct Exact {
    pattern: PathPattern,
}

impl Model for Exact {
    ghost use Rattle.std.specs.Prelude.{List, IsTrue};
    ghost use Rattle.kh_cond.specs.declared.component.Component.{Component};
    ghost use Rattle.std.specs.Coded.{codes, coded_list};
    ghost use Rattle.kh_cond.specs.contracts.component.Component as component;

    ghost Value = { List Component };

    ghost coded = { coded_list component.the_row.coded };

    ghost use Rattle.kh_cond.specs.Exact.{is_exact};

    ghost view = { λ exact. exact.pattern };

    ghost invariant = { λ exact. IsTrue (is_exact exact.pattern) };
}

impl Exact {
    /// The exact pattern that this pattern is, where it is one.
    pub fn new(pattern: PathPattern) -> Option<Exact>
        ensures accepts { IsSome result ↔ IsTrue (is_exact pattern) }
        ensures value { IfSome result (λ exact. exact ≡ pattern) }
    {
        if !are_exact(pattern.components()) {
            return None;
        }
        Some(Exact { pattern })
    }

    /// The pattern.
    pub fn pattern(&self) -> &PathPattern
        ensures pattern { result.now ≡ self.now }
        ensures exact { IsTrue (is_exact self.now) }
    {
        &self.pattern
    }

    /// The path that it names: the list of its names.
    pub fn target(&self, alloc: Global) -> Result<Path, NoMemory>
        ensures { IfOk result (λ path. target_of self.now ≡ Some path) }
    {
        target(alloc, self.pattern.components())
    }
}

// Whether each component has a name.
#[tactic(auto, using(crate::proofs::Targets::targets))]
fn are_exact(components: &[Component]) -> bool
    ensures { result ≡ is_exact components.now }
{
    for component in components {
        match component_name(component) {
            Some(_) => {}
            None => return false,
        }
    }
    true
}

// The names of components, each of which has one.
#[tactic(auto, using(crate::proofs::Targets::targets))]
fn names_in(alloc: Global, components: &[Component]) -> Result<Vec<Name>, NoMemory>
    requires { IsTrue (is_exact components.now) }
    ensures { IfOk result (λ names. target_of components.now ≡ Some names.items) }
{
    let mut names = Vec::new(alloc);
    for component in components {
        match component_name(component) {
            Some(name) => names.push(name.copy(alloc)?)?,
            None => unreachable!(),
        }
    }
    Ok(names)
}

#[tactic(auto, using(crate::proofs::Targets::target_is_path))]
fn target(alloc: Global, components: &[Component]) -> Result<Path, NoMemory>
    requires exact { IsTrue (is_exact components.now) }
    requires fits { length components.now ≤ 32 }
    ensures { IfOk result (λ path. target_of components.now ≡ Some path) }
{
    let names = names_in(alloc, components)?;
    match Path::new(names) {
        Some(path) => Ok(path),
        None => unreachable!(),
    }
}

fn component_name(component: &Component) -> Option<&Name>
    ensures { option_copied result ≡ component_name component.now }
{
    match component {
        Component::One(cond) => exact_name(cond),
        Component::Many(_) => None,
        Component::ManyAll(_, _) => None,
    }
}

#[tactic(auto, using(crate::proofs::CondLayers::outs))]
fn exact_name(cond: &Cond) -> Option<&Name>
    ensures { option_copied result ≡ exact_name (out-Cond cond.now) }
{
    match cond {
        Cond::Name(name) => named(name),
        Cond::All(parts) => first_name(parts.as_slice()),
        Cond::NodeExists(_)
        | Cond::NameMatches(_)
        | Cond::PathMatches(_)
        | Cond::HasPayload(_)
        | Cond::HasData(_)
        | Cond::HasSproc(_)
        | Cond::DataMatches(_)
        | Cond::PayloadVersion(_)
        | Cond::ChildListVersion(_)
        | Cond::ChildListLength(_)
        | Cond::Not(_)
        | Cond::Any(_) => None,
    }
}

fn first_name(parts: &[Cond]) -> Option<&Name>
    ensures { option_copied result ≡ first_name parts.now }
{
    match parts {
        [] => None,
        [first, ..] => plain_name(first),
    }
}

#[tactic(auto, using(crate::proofs::CondLayers::outs))]
fn plain_name(cond: &Cond) -> Option<&Name>
    ensures { option_copied result ≡ plain_name (out-Cond cond.now) }
{
    match cond {
        Cond::Name(name) => named(name),
        Cond::NodeExists(_)
        | Cond::NameMatches(_)
        | Cond::PathMatches(_)
        | Cond::HasPayload(_)
        | Cond::HasData(_)
        | Cond::HasSproc(_)
        | Cond::DataMatches(_)
        | Cond::PayloadVersion(_)
        | Cond::ChildListVersion(_)
        | Cond::ChildListLength(_)
        | Cond::Not(_)
        | Cond::All(_)
        | Cond::Any(_) => None,
    }
}

fn named(name: &Name) -> Option<&Name>
    ensures { option_copied result ≡ named name.now }
{
    if name.is_name() { Some(name) } else { None }
}
