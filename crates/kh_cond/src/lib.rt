//! Conditions on a node, patterns of paths, and the paths that a node watches.
#![tactic(auto)]

mod component;
mod components;
mod cond;
mod error;
mod exact;
mod judging;
mod laws;
mod matching;
mod operands;
mod pattern;
mod preparing;
mod printing;
mod read;
mod reading;
mod rows;
#[cfg(test)]
mod tests;
mod texts;
mod watched;
mod watching;
mod words;

pub use component::Component;
pub use cond::{Comparison, Cond, Conds, Operator, Regex};
pub use error::CondError;
pub use exact::Exact;
pub use judging::{is_found, judge};
pub use laws::{
    each_matches_itself, empty_all_holds, empty_any_fails, missing_needs_no_search, not_turns,
    pattern_spells_at_most_one, plain_pattern_matches_one, short_is_no_larger, short_is_spelling,
    short_pattern_is_no_larger, short_pattern_is_spelling, short_watching_is_no_larger,
    short_watching_is_spelling, spells_at_most_one, underscore_matches_all,
    watching_spells_at_most_one,
};
pub use matching::{matches_data, tree_matches};
pub use pattern::{MOST_COMPONENTS, PathPattern};
pub use preparing::prepare;
pub use printing::{cond_term, pattern_term};
pub use read::{read_cond, read_pattern};
pub use texts::{push_cond_texts, push_pattern_texts};
pub use watched::{push_watching_texts, read_watching, watching_term};
pub use watching::{Start, WatchedPath, Watching};
