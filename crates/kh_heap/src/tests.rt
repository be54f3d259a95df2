// Terms made of one another, up to the limits and past them: run them too with each allocation refused in turn.
ghost use Rattle.std.specs.Prelude.{◌≡◌, ◌+◌, ◌*◌, ◌<◌, ◌≤◌, length, IfOk, OnErr};
ghost use Rattle.kh_heap.specs.Heap.{most_cells, cells_to_load, Holds, Grew};

use crate::{Heap, HeapError, Ref, View};
use kh_term::{
    Atom, Bytes, Origin, Term, Terms, atom, bin, closure, int, list, list_with_tail, map_of_one,
    nil, pair,
};
use std::alloc::Global;
use std::cmp::Ordering;
use std::process::Abort;

// What a term is put into.
#[derive(Clone, Copy, Debug)]
enum Around {
    // a list whose tail is an integer
    List,
    // a list whose tail is the term itself
    Itself,
    // a tuple of one element
    Tuple,
    // a map with the integer as its key
    Map,
}

// A heap with one integer.
fn with_one(rt: &impl Abort, alloc: Global) -> (Heap, Ref)
    ensures held { Holds result.0 result.1 }
    ensures few { length result.0 ≤ 1 }
{
    let mut heap = Heap::new(alloc);
    match heap.int(1) {
        Ok(one) => (heap, one),
        Err(_) => {
            assert_eq!(rt; heap.len(), 0);
            let one = heap.int(1).expect(rt, "memory is refused once");
            (heap, one)
        }
    }
}

// The term in another.
fn wrapped(heap: &mut Heap, inner: Ref, one: Ref, around: Around) -> Result<Ref, HeapError>
    requires room { length heap.old + 3 < most_cells }
    requires inner { Holds heap.old inner }
    requires one { Holds heap.old one }
    ensures held { IfOk result (Holds heap.new) }
    ensures grew { Grew heap.old heap.new }
    ensures cells { length heap.new ≤ length heap.old + 3 }
{
    match around {
        Around::List => heap.cons(inner, one),
        Around::Itself => heap.cons(inner, inner),
        Around::Tuple => heap.tuple(&[inner]),
        Around::Map => heap.map(&[(one, inner)]),
    }
}

// The term in another, made again where memory was refused.
fn made(
    rt: &impl Abort,
    heap: &mut Heap,
    inner: Ref,
    one: Ref,
    around: Around,
) -> Result<Ref, HeapError>
    requires room { length heap.old + 6 < most_cells }
    requires inner { Holds heap.old inner }
    requires one { Holds heap.old one }
    ensures held { IfOk result (Holds heap.new) }
    ensures grew { Grew heap.old heap.new }
    ensures cells { length heap.new ≤ length heap.old + 6 }
{
    let before = heap.len();
    match wrapped(heap, inner, one, around) {
        Ok(r) => Ok(r),
        Err(HeapError::TooLarge) => {
            assert_eq!(rt; heap.len(), before);
            Err(HeapError::TooLarge)
        }
        Err(HeapError::NoMemory) => {
            assert_eq!(rt; heap.len(), before);
            wrapped(heap, inner, one, around)
        }
    }
}

// The integer inside so many others.
fn nested(
    rt: &impl Abort,
    heap: &mut Heap,
    one: Ref,
    around: Around,
    times: u32,
) -> Result<Ref, HeapError>
    requires room { length heap.old + 6 * times < most_cells }
    requires held { Holds heap.old one }
    ensures held { IfOk result (Holds heap.new) }
    ensures grew { Grew heap.old heap.new }
    ensures cells { length heap.new ≤ length heap.old + 6 * times }
{
    let mut inner = one;
    'levels: for _ in 0..times {
        inner = made(rt, heap, inner, one, around)?;
    }
    Ok(inner)
}

// The tuple of so many references to one term.
fn repeated(heap: &mut Heap, alloc: Global, r: Ref, count: usize) -> Result<Ref, HeapError>
    requires room { length heap.old + count + 1 < most_cells }
    requires held { Holds heap.old r }
    ensures held { IfOk result (Holds heap.new) }
    ensures grew { Grew heap.old heap.new }
    ensures cells { length heap.new ≤ length heap.old + count + 1 }
    ensures refused { OnErr result (heap.new ≡ heap.old) }
{
    let mut refs = Vec::new(alloc);
    'copies: for _ in 0..count {
        refs.push(r)?;
    }
    heap.tuple(refs.as_slice())
}

// The same, made again where memory was refused.
fn repeated_again(heap: &mut Heap, alloc: Global, r: Ref, count: usize) -> Result<Ref, HeapError>
    requires room { length heap.old + count + 1 < most_cells }
    requires held { Holds heap.old r }
    ensures held { IfOk result (Holds heap.new) }
    ensures grew { Grew heap.old heap.new }
    ensures cells { length heap.new ≤ length heap.old + count + 1 }
{
    match repeated(heap, alloc, r, count) {
        Ok(tuple) => Ok(tuple),
        Err(HeapError::TooLarge) => Err(HeapError::TooLarge),
        Err(HeapError::NoMemory) => repeated(heap, alloc, r, count),
    }
}

#[test]
fn a_term_is_made_at_a_limit_and_not_past_it(rt: HostRuntime) {
    for (around, times, size) in [
        (Around::List, 200, 401),
        (Around::Tuple, 200, 201),
        (Around::Map, 200, 401),
        (Around::Itself, 19, 1_048_575),
    ] {
        let (mut heap, one) = with_one(&rt, rt.alloc());
        let greatest = nested(&rt, &mut heap, one, around, times).expect(&rt, "within the limits");
        assert_eq!(rt; heap.size(greatest), size);
        let past = made(&rt, &mut heap, greatest, one, around);
        assert_eq!(rt; past, Err(HeapError::TooLarge));
        assert_eq!(rt; heap.size(greatest), size);
    }
}

#[test]
fn a_tuple_has_at_most_1_048_575_elements(rt: HostRuntime) {
    let (mut heap, one) = with_one(&rt, rt.alloc());
    let largest = repeated_again(&mut heap, rt.alloc(), one, 1_048_575).expect(&rt, "it is small");
    assert_eq!(rt; heap.size(largest), 1_048_576);
    let before = heap.len();
    let past = repeated_again(&mut heap, rt.alloc(), one, 1_048_576);
    assert_eq!(rt; past, Err(HeapError::TooLarge));
    assert_eq!(rt; heap.len(), before);
}

#[test]
fn an_improper_list_goes_on(rt: HostRuntime) {
    let (mut heap, one) = with_one(&rt, rt.alloc());
    let pair = made(&rt, &mut heap, one, one, Around::List).expect(&rt, "within the limits");
    let longer = made(&rt, &mut heap, pair, pair, Around::Itself).expect(&rt, "within the limits");
    assert_eq!(rt; heap.view(longer), View::Cons(pair, pair));
    assert_eq!(rt; heap.view(pair), View::Cons(one, one));
    assert_eq!(rt; heap.view(one), View::Int(1));
    assert!(rt; !heap.equal(one, pair));
    assert_eq!(rt; heap.compare(one, pair), Ordering::Less);
    assert_eq!(rt; heap.compare(longer, pair), Ordering::Greater);
}

fn word(rt: &impl Abort, alloc: Global, text: &[u8]) -> Result<Atom, HeapError> {
    let text = Vec::from_slice(alloc, text)?;
    Ok(Atom::new(text).expect(rt, "an atom's text"))
}

fn binary(alloc: Global, bytes: &[u8]) -> Result<Term, HeapError> {
    Ok(bin(Bytes::new(Vec::from_slice(alloc, bytes)?)))
}

// The list of a term of each kind.
fn every_kind(rt: &impl Abort, alloc: Global) -> Result<Term, HeapError> {
    let mut env = Terms::new(alloc);
    env.push(int(-7))?;
    let origin = Origin {
        module: word(rt, alloc, b"shop")?,
        name: word(rt, alloc, b"total")?,
        arity: 2,
    };
    let mut one = Terms::new(alloc);
    one.push(nil())?;
    let improper = list_with_tail(alloc, one, int(3))?;
    let key = atom(word(rt, alloc, b"key")?);
    let entry = map_of_one(alloc, key, binary(alloc, b"value")?)?;
    let mut parts = Terms::new(alloc);
    parts.push(closure(origin, env))?;
    parts.push(pair(alloc, improper, entry)?)?;
    Ok(list(alloc, parts)?)
}

// The term in the heap, loaded again where memory was refused.
fn loaded(rt: &impl Abort, heap: &mut Heap, term: &Term) -> Result<Ref, HeapError>
    requires room { length heap.old + cells_to_load term.now.node < most_cells }
    ensures held { IfOk result (Holds heap.new) }
    ensures grew { Grew heap.old heap.new }
    ensures cells { length heap.new ≤ length heap.old + cells_to_load term.now.node }
{
    let before = heap.len();
    match heap.load(term) {
        Err(HeapError::NoMemory) => {
            assert_eq!(rt; heap.len(), before);
            heap.load(term)
        }
        made => made,
    }
}

#[test]
fn a_loaded_term_is_stored_again(rt: HostRuntime) {
    let term = match every_kind(&rt, rt.alloc()) {
        Ok(term) => term,
        Err(_) => every_kind(&rt, rt.alloc()).expect(&rt, "memory is refused once"),
    };
    let mut heap = Heap::new(rt.alloc());
    let first = loaded(&rt, &mut heap, &term).expect(&rt, "it is small");
    let second = loaded(&rt, &mut heap, &term).expect(&rt, "it is small");
    let stored = match heap.store(first) {
        Ok(stored) => stored,
        Err(_) => heap.store(first).expect(&rt, "memory is refused once"),
    };
    assert!(rt; stored == term);
    assert!(rt; heap.equal(first, second));
    assert_eq!(rt; heap.compare(first, second), Ordering::Equal);
}
