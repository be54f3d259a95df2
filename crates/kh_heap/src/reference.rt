//! References to terms.
use std::marker::Model;

/// A term of a heap: the place of its cell.
#[derive(Clone, Copy, Debug, PartialEq, Eq)]
pub struct Ref {
    pub(crate) place: u32,
}

impl Model for Ref {
    ghost use Rattle.std.specs.Prelude.{ℕ, ◌<◌, ◌^◌};

    ghost Value = { ℕ };

    ghost view = { λ r. r.place };

    ghost invariant = { λ r. r.place < 2 ^ 32 };

    ghost inverse = { λ n. record { place = n } };
}
