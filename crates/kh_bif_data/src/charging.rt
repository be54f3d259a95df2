//! What the built-ins of this crate cost.
ghost use Rattle.std.specs.Prelude.{◌≡◌, IsTrue, length, ◌<◌, ◌^◌, if◌then◌else◌, nat_le};
ghost use Rattle.kh_term.specs.Limits.{most_size};
ghost use Rattle.kh_term.specs.Size.{size_of};
ghost use Rattle.kh_heap.specs.Heap.{term_at, terms_at, Holds, HoldsAll};
ghost use Rattle.kh_bif_base.specs.Answer.{limited};
ghost use Rattle.kh_bif_data.specs.Answer.{extra_of, cost, is_here, arity, pair_count, element_count, where_map, where_integer, where_binary, size_answered, text_cost};
ghost use Rattle.kh_bif_data.specs.Binaries.{atom_to_binary, integer_to_binary, binary_to_list};
ghost use Rattle.kh_bif_data.specs.Iolists.{iolist_to_binary};

use crate::calling::arguments;
use crate::elements::count;
use crate::iolists::{binary_size, iolist_len};
use crate::lists::list_size;
use crate::operation::Operation;
use crate::rows::operation_of;
use itoa::Buffer;
use kh_bif_base::integer;
use kh_heap::{Heap, Ref, View};
use kh_instr::Builtin;
use kh_term::MOST_SIZE;

/// What a built-in of this crate costs beside its step.
pub fn extra(b: Builtin, args: &[Ref], heap: &Heap) -> u64
    requires here { IsTrue (is_here b) }
    requires arity { length args.now ≡ arity b }
    requires held { HoldsAll heap.now args.now }
    ensures { result ≡ extra_of b (terms_at heap.now args.now) }
{
    match operation_of(b) {
        Some(operation) => {
            let (first, middle, last) = arguments(operation, args);
            charge(operation, first, middle, last, heap)
        }
        None => unreachable!(),
    }
}

// The number of pairs of a map.
fn pair_count(m: Ref, heap: &Heap) -> u64
    requires { Holds heap.now m }
    ensures count { result ≡ pair_count (term_at heap.now m) }
    ensures few { result < 2 ^ 32 }
{
    match heap.view(m) {
        View::Map(count) => u64::from(count),
        _ => 0,
    }
}

// The number of elements of a tuple.
fn element_count(t: Ref, heap: &Heap) -> u64
    requires { Holds heap.now t }
    ensures { result ≡ element_count (term_at heap.now t) }
{
    match heap.view(t) {
        View::Tuple(count) => u64::from(count),
        _ => 0,
    }
}

// Something else of a map, and 0 of another term.
fn where_map(m: Ref, n: u64, heap: &Heap) -> u64
    requires { Holds heap.now m }
    ensures { result ≡ where_map (term_at heap.now m) n }
{
    match heap.view(m) {
        View::Map(_) => n,
        _ => 0,
    }
}

// Something else of an integer, and 0 of another term.
fn where_integer(t: Ref, n: u64, heap: &Heap) -> u64
    requires { Holds heap.now t }
    ensures { result ≡ where_integer (term_at heap.now t) n }
{
    match integer(t, heap) {
        Some(_) => n,
        None => 0,
    }
}

// The size of a binary, and 0 of another term.
fn size_of_binary(b: Ref, heap: &Heap) -> u64
    requires { Holds heap.now b }
    ensures { result ≡ where_binary (term_at heap.now b) (size_of (term_at heap.now b)) }
{
    match heap.view(b) {
        View::Bin(_) => heap.size(b),
        _ => 0,
    }
}

// The size of an atom's text.
fn atom_size(a: Ref, heap: &Heap) -> u64
    requires { Holds heap.now a }
    ensures { result ≡ size_answered (limited (atom_to_binary (term_at heap.now a))) }
{
    match heap.view(a) {
        View::Atom => {
            let text = heap.atom(a).as_slice();
            binary_size(text.len() as u64)
        }
        _ => 0,
    }
}

// The size of an integer's text.
fn integer_size(a: Ref, heap: &Heap) -> u64
    requires { Holds heap.now a }
    ensures { result ≡ size_answered (limited (integer_to_binary (term_at heap.now a))) }
{
    match integer(a, heap) {
        Some(n) => {
            let mut buffer = Buffer::new();
            let text = buffer.format(n).as_bytes();
            binary_size(text.len() as u64)
        }
        None => 0,
    }
}

// A size, where it is within the limit, else 0.
fn within(size: u64) -> u64
    ensures { result ≡ (if nat_le size most_size then size else 0) }
{
    if size <= MOST_SIZE { size } else { 0 }
}

// The size of the list of a binary's bytes.
fn bytes_size(b: Ref, heap: &Heap) -> u64
    requires { Holds heap.now b }
    ensures { result ≡ size_answered (limited (binary_to_list (term_at heap.now b))) }
{
    match heap.view(b) {
        View::Bin(count) => within(2 * u64::from(count) + 1),
        _ => 0,
    }
}

// The size of the binary of a list of bytes.
fn iolist_size(r: Ref, heap: &Heap) -> u64
    requires { Holds heap.now r }
    ensures { result ≡ size_answered (limited (iolist_to_binary (term_at heap.now r))) }
{
    let _bound = heap.size(r);
    match iolist_len(r, heap) {
        Some(len) => within(binary_size(len)),
        None => 0,
    }
}

// What an operation costs that makes a text or bytes.
fn text_charge(operation: Operation, a: Ref, heap: &Heap) -> u64
    requires { Holds heap.now a }
    ensures { result ≡ text_cost operation (term_at heap.now a) }
{
    match operation {
        Operation::AtomToBinary => atom_size(a, heap),
        Operation::IntegerToBinary => integer_size(a, heap),
        Operation::BinaryToList => bytes_size(a, heap),
        Operation::IolistToBinary => iolist_size(a, heap),
        Operation::BinaryToInteger => size_of_binary(a, heap),
        _ => 0,
    }
}

fn charge(operation: Operation, a: Ref, b: Ref, c: Ref, heap: &Heap) -> u64
    requires a_held { Holds heap.now a }
    requires b_held { Holds heap.now b }
    requires c_held { Holds heap.now c }
    ensures { result ≡ cost operation (term_at heap.now a) (term_at heap.now b)
        (term_at heap.now c) }
{
    match operation {
        Operation::Get | Operation::IsKey | Operation::Find => where_map(c, heap.size(a), heap),
        Operation::Put | Operation::Remove => {
            let changed = pair_count(c, heap) + heap.size(a);
            where_map(c, changed, heap)
        }
        Operation::Keys | Operation::Values | Operation::Pairs => pair_count(a, heap),
        Operation::Merge => {
            let all = pair_count(a, heap) + pair_count(c, heap);
            where_map(a, where_map(c, all, heap), heap)
        }
        Operation::FromList
        | Operation::Append
        | Operation::Reverse
        | Operation::ReverseOnto
        | Operation::ListToTuple => count(a, heap),
        Operation::Member => list_size(c, heap),
        Operation::KeyFind => where_integer(b, list_size(c, heap), heap),
        Operation::SetElement => where_integer(a, element_count(b, heap), heap),
        Operation::TupleToList => element_count(a, heap),
        Operation::AtomToBinary
        | Operation::IntegerToBinary
        | Operation::BinaryToList
        | Operation::IolistToBinary
        | Operation::BinaryToInteger => text_charge(operation, a, heap),
        Operation::Raise(_) => 0,
    }
}
