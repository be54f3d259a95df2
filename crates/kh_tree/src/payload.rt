// What a node holds.
ghost use Rattle.std.specs.Prelude.{◌≡◌, IfOk};
ghost use Rattle.kh_tree.specs.Node.{kind_of, data_of, same_payload};

use kh_term::{Kind, NoMemory, Term};
use std::alloc::Global;

/// What a node holds: nothing, data, or a stored procedure.
#[derive(Drop)]
pub enum Payload<S> {
    Empty,
    Data(Term),
    Sproc(S),
}

impl<S> Payload<S> {
    /// Which of the three it is.
    pub fn kind(&self) -> Kind
        ensures { result ≡ kind_of self.now }
    {
        match self {
            Payload::Empty => Kind::Empty,
            Payload::Data(_) => Kind::Data,
            Payload::Sproc(_) => Kind::Sproc,
        }
    }

    /// A copy of the data, where it is data.
    pub fn copy_data(&self, alloc: Global) -> Result<Option<Term>, NoMemory>
        ensures { IfOk result (λ term. term ≡ data_of self.now) }
    {
        match self {
            Payload::Data(term) => Ok(Some(term.copy(alloc)?)),
            Payload::Empty | Payload::Sproc(_) => Ok(None),
        }
    }
}

/// Whether two payloads are equal: of one kind, data as terms, procedures by their own `==`.
pub(crate) fn same_payload<S: Eq>(old: &Payload<S>, new: &Payload<S>) -> bool
    ensures { result ≡ same_payload S.eq old.now new.now }
{
    match (old, new) {
        (Payload::Empty, Payload::Empty) => true,
        (Payload::Data(old), Payload::Data(new)) => old == new,
        (Payload::Sproc(old), Payload::Sproc(new)) => old == new,
        _ => false,
    }
}
