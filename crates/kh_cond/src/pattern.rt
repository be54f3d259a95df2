//! Patterns of paths.
ghost use Rattle.std.specs.Prelude.{◌≡◌, ◌↔◌, ◌≤◌, length, IsSome, IfSome};

use crate::component::Component;
use std::marker::Model;

/// The greatest number of components of a pattern.
pub const MOST_COMPONENTS: usize = 32;

/// A pattern of paths: at most 32 components.
#[derive(Drop)]
pub struct PathPattern {
    components: Vec<Component>,
}

impl Model for PathPattern {
    ghost use Rattle.std.specs.Prelude.{List, ◌≤◌, length};
    ghost use Rattle.kh_cond.specs.declared.component.Component.{Component};
    ghost use Rattle.std.specs.Coded.{codes, coded_list};
    ghost use Rattle.kh_cond.specs.contracts.component.Component as component;

    ghost Value = { List Component };

    ghost coded = { coded_list component.the_row.coded };

    ghost view = { λ pattern. pattern.components.items };

    ghost invariant = { λ pattern. length pattern.components.items ≤ 32 };
}

impl PathPattern {
    /// The pattern of these components, where they are at most 32.
    pub fn new(components: Vec<Component>) -> Option<PathPattern>
        ensures accepts { IsSome result ↔ (length components.items ≤ 32) }
        ensures value { IfSome result (λ pattern. pattern ≡ components.items) }
    {
        if components.len() > MOST_COMPONENTS {
            return None;
        }
        Some(PathPattern { components })
    }

    /// The components in order.
    pub fn components(&self) -> &[Component]
        ensures components { result.now ≡ self.now }
        ensures fits { length self.now ≤ 32 }
    {
        self.components.as_slice()
    }
}
