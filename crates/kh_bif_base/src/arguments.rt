//! Arguments of a kind.
ghost use Rattle.std.specs.Prelude.{◌≡◌};
ghost use Rattle.kh_heap.specs.Heap.{term_at, Holds};
ghost use Rattle.kh_bif_base.specs.Integers.{integer_in};

use kh_heap::{Heap, Ref, View};

/// The integer of a term, if it is one.
pub fn integer(r: Ref, heap: &Heap) -> Option<i128>
    requires { Holds heap.now r }
    ensures { result ≡ integer_in (term_at heap.now r) }
{
    match heap.view(r) {
        View::Int(number) => Some(number),
        _ => None,
    }
}
