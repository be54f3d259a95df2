//! Components of a pattern.
use crate::cond::{Cond, Conds, Regex};

/// What takes one or more names of a path.
#[derive(Drop)]
pub enum Component {
    /// Takes one name, of a node for which the condition holds.
    One(Cond),
    /// Takes one or more names; the regular expression sees them joined by `/`.
    Many(Regex),
    /// Takes one or more names, and these conditions hold of the node of the last.
    ManyAll(Regex, Conds),
}
