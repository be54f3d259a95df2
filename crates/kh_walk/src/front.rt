// The names with which a pattern begins.
ghost use Rattle.std.specs.Prelude.{◌≡◌, ◌≤◌, length, IfOk, IfSome, IsTrue};
ghost use Rattle.std.specs.Option.{option_copied};
ghost use Rattle.std.specs.List.{list_all};
ghost use Rattle.kh_term.specs.Name.{is_name};
ghost use Rattle.kh_walk.specs.Front.{BeginsWith, plain};

use kh_cond::{Component, Cond};
use kh_term::{Name, NoMemory, Path};
use std::alloc::Global;

/// The path of the names with which a pattern begins.
#[tactic(auto, using(crate::proofs::Fronts::are_path))]
pub(crate) fn plain_front(alloc: Global, components: &[Component]) -> Result<Path, NoMemory>
    requires { length components.now ≤ 32 }
    ensures { IfOk result (λ path. BeginsWith components.now path) }
{
    let names = plain_names(alloc, components)?;
    match Path::new(names) {
        Some(path) => Ok(path),
        None => unreachable!(),
    }
}

// The names with which a pattern begins, as far as they may name a node.
#[tactic(auto, using(crate::proofs::Fronts::begins_more, crate::proofs::Fronts::named_more))]
fn plain_names(alloc: Global, components: &[Component]) -> Result<Vec<Name>, NoMemory>
    ensures begins { IfOk result (λ names. BeginsWith components.now names.items) }
    ensures names { IfOk result (λ names. IsTrue (list_all is_name names.items)) }
    ensures short { IfOk result (λ names. length names.items ≤ length components.now) }
{
    let mut names = Vec::new(alloc);
    for component in components {
        match plain_name(component) {
            Some(name) => names.push(name.copy(alloc)?)?,
            None => return Ok(names),
        }
    }
    Ok(names)
}

// The name that a component is, where it may name a node.
fn plain_name(component: &Component) -> Option<&Name>
    ensures plain { IfSome (option_copied result) (λ name. component.now ≡ plain name) }
    ensures name { IfSome (option_copied result) (λ name. IsTrue (is_name name)) }
{
    match component {
        Component::One(Cond::Name(name)) => named(name),
        _ => None,
    }
}

fn named(name: &Name) -> Option<&Name>
    ensures same { IfSome (option_copied result) (λ n. n ≡ name.now) }
    ensures name { IfSome (option_copied result) (λ n. IsTrue (is_name n)) }
{
    if name.is_name() { Some(name) } else { None }
}
