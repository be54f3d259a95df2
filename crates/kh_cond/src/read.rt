//! Reading conditions from terms.
ghost use Rattle.std.specs.Prelude.{◌≡◌, ◌≤◌, length, IfOk, IfSome};
ghost use Rattle.std.specs.Option.{option_map};
ghost use Rattle.kh_term.specs.WellFormed.{IsTerm, AreTerms};
ghost use Rattle.kh_term.specs.declared.tree.TermTree.{out-TermTree};
ghost use Rattle.kh_cond.specs.Faults.{IfBad, IsFaultOf, IsNoCond, PatternFault};
ghost use Rattle.kh_cond.specs.Reading.{elements_of};
ghost use Rattle.kh_cond.specs.Spells.{SpellComponents, SpellsCond, SpellsPattern};

use crate::component::Component;
use crate::components::component_in;
use crate::cond::Cond;
use crate::error::CondError;
use crate::operands::is_nil;
use crate::pattern::{MOST_COMPONENTS, PathPattern};
use crate::reading::cond_in;
use kh_term::{Term, TermTree};
use std::alloc::Global;

/// The condition that a term spells. `BadCondition(1)` comes exactly where it spells none.
pub fn read_cond(alloc: Global, term: &Term) -> Result<Cond, CondError>
    ensures ok { IfOk result (λ c. SpellsCond term.now.node c) }
    ensures bad { IfBad result (λ n. (n ≡ 1) × IsNoCond term.now.node) }
{
    match cond_in(alloc, &term.node)? {
        Some(cond) => Ok(cond),
        None => Err(CondError::BadCondition(1)),
    }
}

/// The pattern that a term spells. Where it spells none, the error has the number of the least component that is wrong, counted
/// from 1; 0 where the term is no list, and 33 where the first 32 components are right and there are more.
pub fn read_pattern(alloc: Global, term: &Term) -> Result<PathPattern, CondError>
    ensures ok { IfOk result (λ q. SpellsPattern term.now.node q) }
    ensures bad { IfBad result (PatternFault term.now.node) }
{
    let parts = match elements_of(&term.node) {
        Some(parts) => parts,
        None => return Err(CondError::BadCondition(0)),
    };
    let components = match components_in(alloc, parts) {
        Ok(components) => components,
        Err(error) => return Err(error),
    };
    match PathPattern::new(components) {
        Some(pattern) => Ok(pattern),
        None => unreachable!(),
    }
}

/// The elements of a list that nil ends.
#[tactic(auto, using(kh_term::proofs::Layers::nils, kh_term::specs::Lemmas::Fits::parts))]
pub fn elements_of(tree: &TermTree) -> Option<&[TermTree]>
    requires { IsTerm tree.now }
    ensures value { option_map (λ s. s.now) result ≡ elements_of (out-TermTree tree.now) }
    ensures fits { IfSome result (λ s. AreTerms s.now) }
{
    match tree {
        TermTree::Nil => Some(&[]),
        TermTree::List(parts, tail) => {
            if is_nil(tail.get()) {
                Some(parts.as_slice())
            } else {
                None
            }
        }
        TermTree::Int(_)
        | TermTree::Atom(_)
        | TermTree::Bin(_)
        | TermTree::Tuple(_)
        | TermTree::Map(_)
        | TermTree::Closure(_, _) => None,
    }
}

// The components that terms spell, at most 32.
fn components_in(alloc: Global, parts: &[TermTree]) -> Result<Vec<Component>, CondError>
    requires { AreTerms parts.now }
    ensures ok { IfOk result (λ cs. SpellComponents parts.now cs.items × (length cs.items ≤ 32)) }
    ensures bad { IfBad result (IsFaultOf parts.now) }
{
    let mut all = Vec::new(alloc);
    for (at, part) in parts.iter().enumerate() {
        if at >= MOST_COMPONENTS {
            return Err(CondError::BadCondition(33));
        }
        match component_in(alloc, part)? {
            Some(component) => all.push(component)?,
            None => return Err(CondError::BadCondition(at as u32 + 1)),
        }
    }
    Ok(all)
}
