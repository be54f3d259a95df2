//! Terms of the heap as answers.
ghost use Rattle.kh_heap.specs.Heap.{term_at, Holds};
ghost use Rattle.kh_bif_base.specs.Answer.{Value, limited};
ghost use Rattle.kh_bif_base.specs.Answers.{Answers};

use kh_heap::{BifError, Heap, Ref};

// A term of the heap. It is within the limits, as each of them is.
pub(crate) fn value(r: Ref, heap: &Heap) -> Result<Ref, BifError>
    requires { Holds heap.now r }
    ensures { Answers heap.now result (limited (Value (term_at heap.now r))) }
{
    let _size = heap.size(r);
    let _depth = heap.depth(r);
    Ok(r)
}
