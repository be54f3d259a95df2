//! How much code there is. Each sum stops at 2^64 - 1.
ghost use Rattle.std.specs.Prelude.{◌≡◌, length};
ghost use Rattle.std.specs.List.{sum_by};
ghost use Rattle.kh_instr.specs.Written.{HasSmallLiterals};
ghost use Rattle.kh_code.specs.Capped.{capped};
ghost use Rattle.kh_code.specs.Totals.{IsPart, are_within, no_totals, replaced, totals_of};

use crate::literals::literals;
use kh_instr::{Function, Module};

/// The most modules of a code.
pub const MOST_MODULES: u64 = 1_024;

/// The most instructions of a code, labels among them.
pub const MOST_INSTRUCTIONS: u64 = 1_000_000;

/// The greatest size of the literals of a code together.
pub const MOST_LITERALS: u64 = 134_217_728;

/// Modules, their instructions, and the sizes of their literals together.
#[derive(Clone, Copy, Debug, PartialEq, Eq, Drop)]
pub struct Totals {
    pub modules: u64,
    pub instructions: u64,
    pub literals: u64,
}

impl Totals {
    /// Those of no module.
    pub fn new() -> Totals
        ensures { result ≡ no_totals }
    {
        Totals {
            modules: 0,
            instructions: 0,
            literals: 0,
        }
    }

    /// Those of one module.
    #[tactic(auto, using(crate::proofs::Sums::small_counts))]
    pub fn of(module: &Module) -> Totals
        requires { HasSmallLiterals «module».now }
        ensures { result ≡ totals_of «module».now }
    {
        Totals {
            modules: 1,
            instructions: instructions(module.functions.as_slice()),
            literals: literals(module.functions.as_slice()),
        }
    }

    /// With one part replaced by another.
    pub fn replaced(&self, old: &Totals, new: &Totals) -> Totals
        requires { IsPart old.now self.now }
        ensures { result ≡ replaced self.now old.now new.now }
    {
        Totals {
            modules: (self.modules - old.modules).saturating_add(new.modules),
            instructions: (self.instructions - old.instructions).saturating_add(new.instructions),
            literals: (self.literals - old.literals).saturating_add(new.literals),
        }
    }

    /// Whether a code may have so much.
    pub fn are_within(&self) -> bool
        ensures { result ≡ are_within self.now }
    {
        self.modules <= MOST_MODULES
            && self.instructions <= MOST_INSTRUCTIONS
            && self.literals <= MOST_LITERALS
    }
}

// The number of instructions.
#[tactic(auto, using(crate::proofs::Sums::instruction_counts))]
fn instructions(functions: &[Function]) -> u64
    ensures { result ≡ capped (sum_by (λ f. length f.code) functions.now) }
{
    let mut all: u64 = 0;
    for function in functions {
        all = all.saturating_add(function.code.len() as u64);
    }
    all
}
