//! The built-ins of binaries and of texts.
ghost use Rattle.std.specs.Prelude.{◌≡◌, ◌+◌, ◌*◌, ◌/◌, ◌<◌, ◌≤◌, length, IfOk, IsTrue, map};
ghost use Rattle.std.specs.Fmt.{signed_decimal};
ghost use Rattle.std.specs.Str.{all_ascii_digits};
ghost use Rattle.std.specs.Str.Parse.{signed_digits_value, without_leading_sign};
ghost use Rattle.kh_term.specs.declared.tree.TermTree.TheVariants as tree;
ghost use Rattle.kh_term.specs.Limits.{most_size};
ghost use Rattle.kh_term.specs.Make.{list_of};
ghost use Rattle.kh_term.specs.Size.{size_of};
ghost use Rattle.kh_heap.specs.Heap.{most_cells, term_at, Holds};
ghost use Rattle.kh_heap.specs.Parts.{bytes_in, text_in};
ghost use Rattle.kh_heap.specs.View.{IsAtom, IsBin};
ghost use Rattle.kh_bif_base.specs.Answer.{limited};
ghost use Rattle.kh_bif_base.specs.Answers.{Answers, GrewBy};
ghost use Rattle.kh_bif_base.specs.Integers.{fitted};
ghost use Rattle.kh_bif_data.specs.Answer.{size_answered};
ghost use Rattle.kh_bif_data.specs.Binaries.{atom_to_binary, integer_to_binary, binary_to_list, binary_to_integer, byte_tree, integer_of_text, is_numeral};
ghost use Rattle.kh_bif_data.specs.Built.{Built};

use crate::building::{answer, empty};
use crate::elements::bytes;
use itoa::Buffer;
use kh_bif_base::{integer, number, raise};
use kh_heap::{BifError, Heap, HeapError, Ref, View};
use kh_term::{Bytes, MOST_SIZE, NoMemory, bin};
use std::alloc::Global;

// The binary of these bytes.
pub(crate) fn binary(bytes: Vec<u8>, heap: &mut Heap) -> Result<Ref, HeapError>
    requires room { length heap.old + 2 * (1 + (length bytes.items + 7) / 8) < most_cells }
    ensures built { Built heap.new (tree.Bin bytes.items) result }
    ensures grew { GrewBy (2 * (1 + (length bytes.items + 7) / 8)) heap.old heap.new }
{
    let term = bin(Bytes::new(bytes));
    heap.load(&term)
}

// The text of an atom as a binary.
fn atom_text(alloc: Global, a: Ref, heap: &mut Heap) -> Result<Ref, HeapError>
    requires held { Holds heap.old a }
    requires atom { IsAtom (term_at heap.old a) }
    requires room { length heap.old + 2 * size_of (tree.Bin (text_in (term_at heap.old a)))
        < most_cells }
    ensures built { Built heap.new (tree.Bin (text_in (term_at heap.old a))) result }
    ensures grew { GrewBy (2 * size_of (tree.Bin (text_in (term_at heap.old a)))) heap.old heap.new }
{
    let text = Vec::from_slice(alloc, heap.atom(a).as_slice())?;
    binary(text, heap)
}

// The text of an atom.
pub(crate) fn atom_to_binary(alloc: Global, a: Ref, heap: &mut Heap) -> Result<Ref, BifError>
    requires held { Holds heap.old a }
    requires room { length heap.old + (5 * size_answered (limited (atom_to_binary
        (term_at heap.old a))) + 16) < most_cells }
    ensures answer { Answers heap.new result (limited (atom_to_binary (term_at heap.old a))) }
    ensures grew { GrewBy (5 * size_answered (limited (atom_to_binary
        (term_at heap.old a))) + 16) heap.old heap.new }
{
    match heap.view(a) {
        View::Atom => {
            let text = heap.atom(a);
            let _fits = text.as_slice();
            let built = atom_text(alloc, a, heap);
            answer(alloc, built, heap)
        }
        _ => raise(alloc, "badarg", heap),
    }
}

// The shortest decimal text of an integer.
fn decimal(alloc: Global, n: i128) -> Result<Vec<u8>, NoMemory>
    ensures text { IfOk result (λ text. text.items ≡ signed_decimal n) }
    ensures few { IfOk result (λ text. length text.items ≤ 40) }
{
    let mut buffer = Buffer::new();
    let text = Vec::from_slice(alloc, buffer.format(n).as_bytes())?;
    Ok(text)
}

// The shortest decimal text of an integer as a binary.
fn decimal_binary(alloc: Global, n: i128, heap: &mut Heap) -> Result<Ref, HeapError>
    requires room { length heap.old + 16 < most_cells }
    ensures built { Built heap.new (tree.Bin (signed_decimal n)) result }
    ensures grew { GrewBy 12 heap.old heap.new }
{
    let text = decimal(alloc, n)?;
    binary(text, heap)
}

// The text of an integer.
pub(crate) fn integer_to_binary(alloc: Global, a: Ref, heap: &mut Heap) -> Result<Ref, BifError>
    requires held { Holds heap.old a }
    requires room { length heap.old + 16 < most_cells }
    ensures answer { Answers heap.new result (limited (integer_to_binary (term_at heap.old a))) }
    ensures grew { GrewBy 16 heap.old heap.new }
{
    match integer(a, heap) {
        Some(n) => {
            let built = decimal_binary(alloc, n, heap);
            answer(alloc, built, heap)
        }
        None => raise(alloc, "badarg", heap),
    }
}

// The list of the bytes of a binary, built from the end.
fn byte_list(b: Ref, count: u32, heap: &mut Heap) -> Result<Ref, HeapError>
    requires held { Holds heap.old b }
    requires binary { IsBin (term_at heap.old b) }
    requires count { length (bytes_in (term_at heap.old b)) ≡ count }
    requires few { 2 * count + 1 ≤ most_size }
    requires room { length heap.old + (2 * count + 3) < most_cells }
    ensures built { Built heap.new
        (list_of (map byte_tree (bytes_in (term_at heap.old b)))) result }
    ensures grew { GrewBy (2 * count + 2) heap.old heap.new }
{
    let mut list = empty(heap)?;
    let mut i = count;
    while i > 0 {
        i -= 1;
        let byte = heap.byte(b, i);
        let item = heap.int(i128::from(byte))?;
        list = heap.cons(item, list)?;
    }
    Ok(list)
}

// The list of the bytes of a binary. Whether that is too large is known before it is built.
pub(crate) fn binary_to_list(alloc: Global, b: Ref, heap: &mut Heap) -> Result<Ref, BifError>
    requires held { Holds heap.old b }
    requires room { length heap.old + (5 * size_answered (limited (binary_to_list
        (term_at heap.old b))) + 16) < most_cells }
    ensures answer { Answers heap.new result (limited (binary_to_list (term_at heap.old b))) }
    ensures grew { GrewBy (5 * size_answered (limited (binary_to_list
        (term_at heap.old b))) + 16) heap.old heap.new }
{
    match heap.view(b) {
        View::Bin(count) => {
            let size = 2 * u64::from(count) + 1;
            if size <= MOST_SIZE {
                let built = byte_list(b, count, heap);
                answer(alloc, built, heap)
            } else {
                raise(alloc, "system_limit", heap)
            }
        }
        _ => raise(alloc, "badarg", heap),
    }
}

// A text without its sign.
fn without_sign(text: &[u8]) -> &[u8]
    ensures { result.now ≡ without_leading_sign text.now }
{
    match text {
        [b'-' | b'+', digits @ ..] => digits,
        _ => text,
    }
}

// Whether each byte is a digit.
fn are_digits(text: &[u8]) -> bool
    ensures { result ≡ all_ascii_digits text.now }
{
    for byte in text {
        if !byte.is_ascii_digit() {
            return false;
        }
    }
    true
}

// Whether a text is one sign or none, and then digits, at least one.
fn is_numeral(text: &[u8]) -> bool
    ensures { result ≡ is_numeral text.now }
{
    let digits = without_sign(text);
    !digits.is_empty() && are_digits(digits)
}

// The integer of a numeral, if it has 128 bits.
fn numeral(text: &[u8]) -> Option<i128>
    requires { IsTrue (is_numeral text.now) }
    ensures { result ≡ fitted (signed_digits_value 10 text.now) }
{
    match str::from_utf8(text) {
        Ok(text) => text.parse().ok(),
        Err(_) => None,
    }
}

// The integer of a text.
fn integer_of(alloc: Global, text: &[u8], heap: &mut Heap) -> Result<Ref, BifError>
    requires room { length heap.old + 16 < most_cells }
    ensures answer { Answers heap.new result (limited (integer_of_text text.now)) }
    ensures grew { GrewBy 16 heap.old heap.new }
{
    if is_numeral(text) {
        number(alloc, numeral(text), heap)
    } else {
        raise(alloc, "badarg", heap)
    }
}

// The integer of the text that a binary is.
pub(crate) fn binary_to_integer(alloc: Global, b: Ref, heap: &mut Heap) -> Result<Ref, BifError>
    requires held { Holds heap.old b }
    requires room { length heap.old + 16 < most_cells }
    ensures answer { Answers heap.new result (limited (binary_to_integer (term_at heap.old b))) }
    ensures grew { GrewBy 16 heap.old heap.new }
{
    match heap.view(b) {
        View::Bin(count) => match bytes(alloc, b, count, heap) {
            Ok(text) => integer_of(alloc, text.as_slice(), heap),
            Err(_) => Err(BifError::NoMemory),
        },
        _ => raise(alloc, "badarg", heap),
    }
}
