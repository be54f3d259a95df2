ghost use Rattle.std.specs.Prelude.{◌≡◌, ◌<◌, ◌^◌, ℕ};

/// The classes of exceptions.
#[derive(Clone, Copy, Debug, PartialEq, Eq, PartialOrd, Ord, Drop)]
pub enum Class {
    Error,
    Exit,
    Throw,
}

/// What a node holds: nothing, data or a stored procedure.
#[derive(Clone, Copy, Debug, PartialEq, Eq, PartialOrd, Ord, Drop)]
pub enum Kind {
    Empty,
    Data,
    Sproc,
}

/// What has a size that is charged and limited.
pub trait Weight {
    /// The weight of a value.
    ghost weight_of: { Self → ℕ };

    /// The weight, in the value's own unit, where it fits 64 bits.
    fn weight(&self) -> u64
        requires { weight_of self.now < 2 ^ 64 }
        ensures { result ≡ weight_of self.now };
}
