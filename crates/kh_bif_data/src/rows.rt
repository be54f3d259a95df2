//! The built-ins of this crate.
ghost use Rattle.std.specs.Prelude.{◌≡◌};
ghost use Rattle.kh_bif_data.specs.Answer.{arity};
ghost use Rattle.kh_bif_data.specs.Rows.{operation_of, arity_of};

use crate::operation::Operation;
use kh_instr::Builtin;
use kh_term::Class;

/// What a built-in does, if it is one of this crate.
pub fn operation_of(b: Builtin) -> Option<Operation>
    ensures { result ≡ operation_of b }
{
    match b {
        Builtin::MapGet | Builtin::MapsGet => Some(Operation::Get),
        Builtin::IsMapKey | Builtin::MapsIsKey => Some(Operation::IsKey),
        Builtin::MapsFind => Some(Operation::Find),
        Builtin::MapsPut => Some(Operation::Put),
        Builtin::MapsRemove => Some(Operation::Remove),
        Builtin::MapsKeys => Some(Operation::Keys),
        Builtin::MapsValues => Some(Operation::Values),
        Builtin::MapsToList => Some(Operation::Pairs),
        Builtin::MapsMerge => Some(Operation::Merge),
        Builtin::MapsFromList => Some(Operation::FromList),
        Builtin::Append => Some(Operation::Append),
        Builtin::ListsReverse => Some(Operation::Reverse),
        Builtin::ListsReverseOnto => Some(Operation::ReverseOnto),
        Builtin::ListsMember => Some(Operation::Member),
        Builtin::ListsKeyfind => Some(Operation::KeyFind),
        Builtin::Setelement => Some(Operation::SetElement),
        Builtin::TupleToList => Some(Operation::TupleToList),
        Builtin::ListToTuple => Some(Operation::ListToTuple),
        Builtin::AtomToBinary => Some(Operation::AtomToBinary),
        Builtin::IntegerToBinary => Some(Operation::IntegerToBinary),
        Builtin::BinaryToList => Some(Operation::BinaryToList),
        Builtin::IolistToBinary => Some(Operation::IolistToBinary),
        Builtin::BinaryToInteger => Some(Operation::BinaryToInteger),
        Builtin::Error => Some(Operation::Raise(Class::Error)),
        Builtin::Exit => Some(Operation::Raise(Class::Exit)),
        Builtin::Throw => Some(Operation::Raise(Class::Throw)),
        Builtin::Add
        | Builtin::Subtract
        | Builtin::Multiply
        | Builtin::Div
        | Builtin::Rem
        | Builtin::Band
        | Builtin::Bor
        | Builtin::Bxor
        | Builtin::Bsl
        | Builtin::Bsr
        | Builtin::Plus
        | Builtin::Negate
        | Builtin::Bnot
        | Builtin::Abs => None,
        Builtin::EqExact
        | Builtin::NeExact
        | Builtin::Eq
        | Builtin::Ne
        | Builtin::Lt
        | Builtin::Gt
        | Builtin::Le
        | Builtin::Ge
        | Builtin::Min
        | Builtin::Max
        | Builtin::And
        | Builtin::Or
        | Builtin::Xor
        | Builtin::Not => None,
        Builtin::IsInteger
        | Builtin::IsNumber
        | Builtin::IsAtom
        | Builtin::IsBoolean
        | Builtin::IsList
        | Builtin::IsBinary
        | Builtin::IsTuple
        | Builtin::IsMap
        | Builtin::IsFunction
        | Builtin::IsFunction2 => None,
        Builtin::Hd
        | Builtin::Tl
        | Builtin::TupleSize
        | Builtin::MapSize
        | Builtin::ByteSize
        | Builtin::Element
        | Builtin::Length => None,
    }
}

// How many arguments an operation takes.
fn arity_of(operation: Operation) -> usize
    ensures { result ≡ arity_of operation }
{
    match operation {
        Operation::Put | Operation::KeyFind | Operation::SetElement => 3,
        Operation::Get
        | Operation::IsKey
        | Operation::Find
        | Operation::Remove
        | Operation::Merge
        | Operation::Append
        | Operation::ReverseOnto
        | Operation::Member => 2,
        Operation::Keys
        | Operation::Values
        | Operation::Pairs
        | Operation::FromList
        | Operation::Reverse
        | Operation::TupleToList
        | Operation::ListToTuple
        | Operation::AtomToBinary
        | Operation::IntegerToBinary
        | Operation::BinaryToList
        | Operation::IolistToBinary
        | Operation::BinaryToInteger
        | Operation::Raise(_) => 1,
    }
}

/// How many arguments a built-in of this crate takes; 0 of another.
pub fn arity(b: Builtin) -> usize
    ensures { result ≡ arity b }
{
    match operation_of(b) {
        Some(operation) => arity_of(operation),
        None => 0,
    }
}
