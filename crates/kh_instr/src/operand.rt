//! Operands of instructions.
use kh_term::{Atom, Term};
use sqlite_items::Items;

/// A register: one of the arguments and results, or a slot of the frame.
#[derive(Clone, Copy, Debug, PartialEq, Eq)]
pub enum Reg {
    X(u32),
    Y(u32),
}

/// What an instruction reads.
#[derive(Drop)]
pub enum Source {
    Reg(Reg),
    Atom(Atom),
    Integer(i128),
    Nil,
    Literal(Term),
}

/// Registers, one after another.
pub type Regs = Items<Reg>;

/// Operands, one after another.
pub type Sources = Items<Source>;

/// Values, each with the label to which an equal one jumps.
pub type Cases = Items<(Source, u32)>;

/// Numbers of elements, each with the label to which a tuple of so many jumps.
pub type Sizes = Items<(u32, u32)>;

/// Keys, each with its new value.
pub type Puts = Items<(Source, Source)>;

/// Keys, each with the register that takes its value.
pub type Gets = Items<(Source, Reg)>;
