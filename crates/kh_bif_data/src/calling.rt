//! The call of this crate.
ghost use Rattle.std.specs.Prelude.{◌≡◌, ◌+◌, ◌*◌, ◌<◌, ◌≤◌, List, IsTrue, length};
ghost use Rattle.kh_term.specs.declared.tree.TermTree.{TermTree};
ghost use Rattle.kh_heap.specs.Heap.{most_cells, term_at, terms_at, Holds, HoldsAll, Grew};
ghost use Rattle.kh_bif_base.specs.Answer.{limited, Raise};
ghost use Rattle.kh_bif_base.specs.Answers.{Answers, GrewBy};
ghost use Rattle.kh_bif_data.specs.Answer.{answer_of, extra_of, done, cost, first, middle, last, is_here, arity};
ghost use Rattle.kh_bif_data.specs.Rows.{arity_of};

use crate::binaries::{atom_to_binary, binary_to_integer, binary_to_list, integer_to_binary};
use crate::changing::{put, remove};
use crate::iolists::iolist_to_binary;
use crate::lists::{append, keyfind, member, reverse, reverse_onto};
use crate::lookups::{find, get, is_key, keys, to_list, values};
use crate::merging::{from_list, merge};
use crate::operation::Operation;
use crate::rows::operation_of;
use crate::tuples::{list_to_tuple, set_element, tuple_to_list};
use kh_heap::{BifError, Heap, Ref};
use kh_instr::Builtin;
use kh_term::Class;
use std::alloc::Global;

/// Calls a built-in of this crate. Memory may be wanting at any time.
pub fn call(alloc: Global, b: Builtin, args: &[Ref], heap: &mut Heap) -> Result<Ref, BifError>
    requires here { IsTrue (is_here b) }
    requires arity { length args.now ≡ arity b }
    requires held { HoldsAll heap.old args.now }
    requires room { length heap.old + 300 * (1 + extra_of b (terms_at heap.old args.now))
        < most_cells }
    ensures answer { Answers heap.new result
        (limited (answer_of b (terms_at heap.old args.now))) }
    ensures kept { Grew heap.old heap.new }
    ensures cells { length heap.new
        ≤ length heap.old + 300 * (1 + extra_of b (terms_at heap.old args.now)) }
{
    match operation_of(b) {
        Some(operation) => {
            let (first, middle, last) = arguments(operation, args);
            apply(alloc, operation, first, middle, last, heap)
        }
        None => unreachable!(),
    }
}

// The first, the middle and the last argument.
#[tactic(auto, using(crate::proofs::Calls::some_arguments))]
pub(crate) fn arguments(operation: Operation, args: &[Ref]) -> (Ref, Ref, Ref)
    requires { length args.now ≡ arity_of operation }
    ensures held { (heap : List TermTree) → HoldsAll heap args.now
        → Holds heap result.0 × Holds heap result.1 × Holds heap result.2 }
    ensures terms { (heap : List TermTree)
        → (term_at heap result.0 ≡ first (terms_at heap args.now))
        × (term_at heap result.1 ≡ middle (terms_at heap args.now))
        × (term_at heap result.2 ≡ last (terms_at heap args.now)) }
{
    (args[0], args[args.len() / 2], args[args.len() - 1])
}

// Raises an argument.
fn thrown(class: Class, reason: Ref, heap: &Heap) -> Result<Ref, BifError>
    requires { Holds heap.now reason }
    ensures { Answers heap.now result (limited (Raise class (term_at heap.now reason))) }
{
    let _size = heap.size(reason);
    let _depth = heap.depth(reason);
    Err(BifError::Raise { class, reason })
}

fn apply(
    alloc: Global,
    operation: Operation,
    a: Ref,
    b: Ref,
    c: Ref,
    heap: &mut Heap,
) -> Result<Ref, BifError>
    requires a_held { Holds heap.old a }
    requires b_held { Holds heap.old b }
    requires c_held { Holds heap.old c }
    requires room { length heap.old + (5 * cost operation (term_at heap.old a)
        (term_at heap.old b) (term_at heap.old c) + 16) < most_cells }
    ensures answer { Answers heap.new result (limited (done operation (term_at heap.old a)
        (term_at heap.old b) (term_at heap.old c))) }
    ensures grew { GrewBy (5 * cost operation (term_at heap.old a) (term_at heap.old b)
        (term_at heap.old c) + 16) heap.old heap.new }
{
    match operation {
        Operation::Get => get(alloc, a, c, heap),
        Operation::IsKey => is_key(alloc, a, c, heap),
        Operation::Find => find(alloc, a, c, heap),
        Operation::Put => put(alloc, a, b, c, heap),
        Operation::Remove => remove(alloc, a, c, heap),
        Operation::Keys => keys(alloc, a, heap),
        Operation::Values => values(alloc, a, heap),
        Operation::Pairs => to_list(alloc, a, heap),
        Operation::Merge => merge(alloc, a, c, heap),
        Operation::FromList => from_list(alloc, a, heap),
        Operation::Append => append(alloc, a, c, heap),
        Operation::Reverse => reverse(alloc, a, heap),
        Operation::ReverseOnto => reverse_onto(alloc, a, c, heap),
        Operation::Member => member(alloc, a, c, heap),
        Operation::KeyFind => keyfind(alloc, a, b, c, heap),
        Operation::SetElement => set_element(alloc, a, b, c, heap),
        Operation::TupleToList => tuple_to_list(alloc, a, heap),
        Operation::ListToTuple => list_to_tuple(alloc, a, heap),
        Operation::AtomToBinary => atom_to_binary(alloc, a, heap),
        Operation::IntegerToBinary => integer_to_binary(alloc, a, heap),
        Operation::BinaryToList => binary_to_list(alloc, a, heap),
        Operation::IolistToBinary => iolist_to_binary(alloc, a, heap),
        Operation::BinaryToInteger => binary_to_integer(alloc, a, heap),
        Operation::Raise(class) => thrown(class, a, heap),
    }
}
