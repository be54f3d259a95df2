//! The weight of a module.
ghost use Rattle.std.specs.Prelude.{◌≡◌, ◌<◌, ◌^◌, length};
ghost use Rattle.kh_term.specs.Make.{list_of};
ghost use Rattle.kh_term.specs.Packed.{packed_of, all_packed_of};
ghost use Rattle.kh_instr.specs.Weight.{env_weight};

use crate::module::Standalone;
use kh_term::{TermTree, Weight, tree_packed_len};

/// The packed length of the captured values as a list.
impl Weight for Standalone {
    ghost weight_of = { λ m. env_weight m.env.nodes };

    fn weight(&self) -> u64 {
        list_len(self.env.as_slice())
    }
}

// The packed length of a list of terms.
#[tactic(auto, using(crate::proofs::Weights::weights))]
fn list_len(trees: &[TermTree]) -> u64
    requires { length (packed_of (list_of trees.now)) < 2 ^ 64 }
    ensures { result ≡ length (packed_of (list_of trees.now)) }
{
    match trees {
        [] => 1,
        _ => 6 + all_len(trees),
    }
}

// The packed lengths of terms together.
#[tactic(auto, using(crate::proofs::Weights::weights))]
fn all_len(trees: &[TermTree]) -> u64
    requires { length (all_packed_of trees.now) < 2 ^ 64 }
    ensures { result ≡ length (all_packed_of trees.now) }
{
    let mut all = 0;
    for tree in trees {
        all += tree_packed_len(tree);
    }
    all
}
