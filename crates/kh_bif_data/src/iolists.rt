//! Lists of bytes.
ghost use Rattle.std.specs.Prelude.{◌≡◌, ◌+◌, ◌*◌, ◌/◌, ◌^◌, ◌<◌, ◌≤◌, ℕ, List, ◌++◌, length, IfSome, OnOk, Some, option_map};
ghost use Rattle.kh_term.specs.declared.tree.TermTree.TheVariants as tree;
ghost use Rattle.kh_term.specs.Limits.{most_size};
ghost use Rattle.kh_term.specs.Size.{size_of};
ghost use Rattle.kh_heap.specs.Heap.{most_cells, term_at, Holds};
ghost use Rattle.kh_heap.specs.Parts.{bytes_in};
ghost use Rattle.kh_heap.specs.View.{IsBin};
ghost use Rattle.kh_bif_base.specs.Answer.{limited};
ghost use Rattle.kh_bif_base.specs.Answers.{Answers, GrewBy};
ghost use Rattle.kh_bif_data.specs.Answer.{size_answered};
ghost use Rattle.kh_bif_data.specs.Built.{Built};
ghost use Rattle.kh_bif_data.specs.Iolists.{iolist, iolist_bytes, iolist_to_binary, piece_of};

use crate::binaries::binary;
use crate::building::answer;
use kh_bif_base::raise;
use kh_heap::{BifError, Heap, HeapError, Ref, View};
use kh_term::{MOST_SIZE, NoMemory};
use std::alloc::Global;

// The number of bytes of a term that is a list of bytes.
#[cycle(lengths)]
pub(crate) fn iolist_len(r: Ref, heap: &Heap) -> Option<u64>
    requires { Holds heap.now r }
    ensures len { result ≡ option_map (λ bytes. length bytes) (iolist (term_at heap.now r)) }
    ensures few { IfSome result (λ len. len ≤ 8 * size_of (term_at heap.now r)) }
{
    let _bound = heap.size(r);
    let mut len = 0;
    let mut left = r;
    'along: loop {
        match heap.view(left) {
            View::Cons(head, rest) => {
                let piece = piece_len(head, heap)?;
                len += piece;
                left = rest;
            }
            View::Nil => return Some(len),
            View::Bin(count) => return Some(len + u64::from(count)),
            _ => return None,
        }
    }
}

// The number of bytes of an element.
#[cycle(lengths)]
fn piece_len(r: Ref, heap: &Heap) -> Option<u64>
    requires { Holds heap.now r }
    ensures len { result ≡ option_map (λ bytes. length bytes) (piece_of (term_at heap.now r)) }
    ensures few { IfSome result (λ len. len ≤ 8 * size_of (term_at heap.now r)) }
{
    match heap.view(r) {
        View::Int(n) => {
            if n < 0 {
                None
            } else if n < 256 {
                Some(1)
            } else {
                None
            }
        }
        _ => iolist_len(r, heap),
    }
}

// Adds the bytes of a binary.
fn add_binary(out: &mut Vec<u8>, r: Ref, count: u32, heap: &Heap) -> Result<(), NoMemory>
    requires held { Holds heap.now r }
    requires binary { IsBin (term_at heap.now r) }
    requires count { length (bytes_in (term_at heap.now r)) ≡ count }
    ensures { OnOk result (out.new.items ≡ out.old.items ++ bytes_in (term_at heap.now r)) }
{
    for i in 0..count {
        out.push(heap.byte(r, i))?;
    }
    Ok(())
}

// Adds the bytes of a term that is a list of bytes.
#[cycle(writing)]
fn add_iolist(out: &mut Vec<u8>, r: Ref, heap: &Heap) -> Result<(), NoMemory>
    requires held { Holds heap.now r }
    ensures { (bytes : List ℕ) → iolist (term_at heap.now r) ≡ Some bytes
        → OnOk result (out.new.items ≡ out.old.items ++ bytes) }
{
    let mut left = r;
    'along: loop {
        match heap.view(left) {
            View::Cons(head, rest) => {
                add_piece(out, head, heap)?;
                left = rest;
            }
            View::Bin(count) => return add_binary(out, left, count, heap),
            _ => return Ok(()),
        }
    }
}

// Adds the bytes of an element.
#[cycle(writing)]
fn add_piece(out: &mut Vec<u8>, r: Ref, heap: &Heap) -> Result<(), NoMemory>
    requires held { Holds heap.now r }
    ensures { (bytes : List ℕ) → piece_of (term_at heap.now r) ≡ Some bytes
        → OnOk result (out.new.items ≡ out.old.items ++ bytes) }
{
    match heap.view(r) {
        View::Int(n) => {
            if n < 0 {
                Ok(())
            } else if n < 256 {
                out.push(n as u8)?;
                Ok(())
            } else {
                Ok(())
            }
        }
        _ => add_iolist(out, r, heap),
    }
}

// The binary of the bytes of a term.
fn joined(alloc: Global, r: Ref, heap: &mut Heap) -> Result<Ref, HeapError>
    requires held { Holds heap.old r }
    requires given { iolist (term_at heap.old r) ≡ Some (iolist_bytes (term_at heap.old r)) }
    requires room { length heap.old + 2 * (1 + (length (iolist_bytes (term_at heap.old r)) + 7) / 8)
        < most_cells }
    ensures built { Built heap.new (tree.Bin (iolist_bytes (term_at heap.old r))) result }
    ensures grew { GrewBy (2 * (1 + (length (iolist_bytes (term_at heap.old r)) + 7) / 8))
        heap.old heap.new }
{
    let mut out = Vec::new(alloc);
    add_iolist(&mut out, r, heap)?;
    binary(out, heap)
}

// The size of a binary of so many bytes.
pub(crate) fn binary_size(len: u64) -> u64
    requires { len < 2 ^ 63 }
    ensures { result ≡ 1 + (len + 7) / 8 }
{
    1 + (len + 7) / 8
}

// The binary of the bytes of a term. Whether that is too large is known before it is made.
pub(crate) fn iolist_to_binary(alloc: Global, r: Ref, heap: &mut Heap) -> Result<Ref, BifError>
    requires held { Holds heap.old r }
    requires room { length heap.old + (5 * size_answered (limited (iolist_to_binary
        (term_at heap.old r))) + 16) < most_cells }
    ensures answer { Answers heap.new result (limited (iolist_to_binary (term_at heap.old r))) }
    ensures grew { GrewBy (5 * size_answered (limited (iolist_to_binary
        (term_at heap.old r))) + 16) heap.old heap.new }
{
    let _bound = heap.size(r);
    match iolist_len(r, heap) {
        Some(len) => {
            let size = binary_size(len);
            if size <= MOST_SIZE {
                let built = joined(alloc, r, heap);
                answer(alloc, built, heap)
            } else {
                raise(alloc, "system_limit", heap)
            }
        }
        None => raise(alloc, "badarg", heap),
    }
}
