//! The laws of patterns over trees: what a clause states of every one. The functions have no code.
ghost use Rattle.kh_walk.specs.Laws.{AnyMatchesAllBelow, EmptyMatchesRoot, ExactMatchesTarget, OneLevelKeepsLength};

/// The empty pattern matches the root alone.
#[tactic(auto, using(crate::proofs::LawLemmas::empty_root))]
pub fn empty_matches_root<S>()
    ensures { EmptyMatchesRoot S }
{}

/// Where each component takes one name, the paths that a pattern matches have its length.
#[tactic(auto, using(crate::proofs::LawLemmas::one_level))]
pub fn one_level_keeps_length<S>()
    ensures { OneLevelKeepsLength S }
{}

/// A component of many levels with `any` matches each node but the root.
#[tactic(auto, using(crate::proofs::LawLemmas::any_below))]
pub fn any_matches_all_below<S>()
    ensures { AnyMatchesAllBelow S }
{}

/// An exact pattern matches at most its target, and that exactly where each front of it is a node of
/// which the conditions hold.
#[tactic(auto, using(crate::proofs::ExactLaw::exact_target))]
pub fn exact_matches_target<S>()
    ensures { ExactMatchesTarget S }
{}
