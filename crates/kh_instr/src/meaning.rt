//! What a call means.
use crate::builtin::{Builtin, Service};

/// What an external call means in a code.
#[derive(Clone, Copy, Debug, PartialEq, Eq)]
pub enum Meaning {
    Builtin(Builtin),
    Service(Service),
    /// An exported function of a loaded module.
    Function,
    Nothing,
}
