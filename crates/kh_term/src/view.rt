ghost use Rattle.std.specs.Prelude.{◌≡◌, ◌↔◌, IsTrue, is_some};
ghost use Rattle.kh_term.specs.View.{is_data};

use crate::kinds::Kind;
use crate::name::Name;
use crate::term::Term;

/// A node as conditions see it.
#[derive(PartialEq, Eq, Drop)]
pub struct NodeView {
    /// The root has none.
    pub name: Option<Name>,
    pub payload: Kind,
    /// The data, exactly where the payload is data.
    pub datum: Option<Term>,
    /// How often the payload was set to another one, counted from 1.
    pub payload_version: u64,
    /// How often a child came or went, counted from 1.
    pub child_list_version: u64,
    /// The number of children.
    pub children: u64,
    pub ghost data_stands: { is_some datum ≡ is_data payload },
}

impl NodeView {
    /// Whether two views are the same.
    pub fn is_same(&self, other: &NodeView) -> bool
        ensures { IsTrue result ↔ (self.now ≡ other.now) }
    {
        self == other
    }
}
