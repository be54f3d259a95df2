// That pushes succeed from chunk to chunk, and that a refused one changes nothing: run them too with an allocation refused.
ghost use Rattle.std.specs.Prelude.{◌≡◌, ◌+◌, ◌<◌, ◌≤◌, [], ◌∷◌, ◌++◌, length};
ghost use Rattle.kh_arena.specs.Listed.{items, most_items};

use crate::{Arena, NoMemory};
use std::alloc::Global;
use std::process::Abort;

#[derive(Clone, Copy, Debug, PartialEq, Eq)]
struct Pair {
    head: u32,
    tail: u32,
}

// Pushes an item, a second time where the first was refused.
fn push<T: Copy>(rt: &impl Abort, arena: &mut Arena<T>, item: T) -> u32
    requires { length (items arena.old) < most_items }
    ensures place { result ≡ length (items arena.old) }
    ensures appended { items arena.new ≡ items arena.old ++ item ∷ [] }
{
    let before = arena.len();
    match arena.push(item) {
        Ok(place) => place,
        Err(NoMemory) => {
            assert_eq!(rt; arena.len(), before);
            arena.push(item).expect(rt, "memory is refused once")
        }
    }
}

// Pushes an item, reads it, and takes it away again.
fn read_back<T: Copy>(rt: &impl Abort, arena: &mut Arena<T>, item: T) -> T
    requires { length (items arena.old) < most_items }
    ensures item { result ≡ item }
    ensures arena { items arena.new ≡ items arena.old }
{
    let place = push(rt, arena, item);
    let read = *arena.get(place);
    arena.cut(place);
    read
}

// The numbers below `count`, each at its own place.
fn numbers(rt: &impl Abort, alloc: Global, count: u32) -> Arena<u32>
    requires { count < most_items }
    ensures { length (items result) ≡ count }
{
    let mut arena = Arena::new(alloc);
    for n in 0..count {
        assert_eq!(rt; push(rt, &mut arena, n), n);
    }
    arena
}

// Whether each of the first `count` places holds its own number.
fn counts_up(arena: &Arena<u32>, count: u32) -> bool
    requires { count ≤ length (items arena.now) }
{
    for n in 0..count {
        if *arena.get(n) != n {
            return false;
        }
    }
    true
}

// Pushes the first `count` numbers into places that are there.
fn fill(rt: &impl Abort, arena: &mut Arena<u32>, count: u32)
    requires { length (items arena.old) + count < most_items }
{
    for n in 0..count {
        arena.push(n).expect(rt, "a place was reserved");
    }
}

#[test]
fn items_lie_on_both_sides_of_each_border(rt: HostRuntime) {
    let mut arena = numbers(&rt, rt.alloc(), 200_000);
    assert!(&rt; counts_up(&arena, 200_000));
    arena.cut(5000);
    assert_eq!(rt; push(&rt, &mut arena, 7), 5000);
    assert_eq!(rt; *arena.get(5000), 7);
    assert!(&rt; counts_up(&arena, 5000));
    assert_eq!(rt; arena.len(), 5001);
}

#[test]
fn reserved_places_take_no_more_memory(rt: HostRuntime) {
    for count in [0, 1, 64, 65, 200, 70_000] {
        let mut arena = numbers(&rt, rt.alloc(), 3);
        if let Err(NoMemory) = arena.reserve(count) {
            assert_eq!(rt; arena.len(), 3);
            arena.reserve(count).expect(&rt, "memory is refused once");
        }
        assert!(&rt; arena.spare() >= count);
        fill(&rt, &mut arena, count);
        assert_eq!(rt; arena.len(), count + 3);
    }
}

#[test]
fn an_arena_is_dropped_without_items(rt: HostRuntime) {
    let arena: Arena<u32> = Arena::new(rt.alloc());
    assert_eq!(rt; arena.len(), 0);
    assert_eq!(rt; arena.spare(), 0);
}

#[test]
fn a_generic_caller_reads_back_items_of_two_types(rt: HostRuntime) {
    let mut numbers = numbers(&rt, rt.alloc(), 2);
    assert_eq!(rt; read_back(&rt, &mut numbers, 7), 7);
    assert_eq!(rt; numbers.len(), 2);
    let mut pairs = Arena::new(rt.alloc());
    let pair = Pair { head: 1, tail: 2 };
    assert_eq!(rt; push(&rt, &mut pairs, pair), 0);
    assert_eq!(rt;
        read_back(&rt, &mut pairs, Pair { head: 3, tail: 4 }),
        Pair { head: 3, tail: 4 }
    );
    assert_eq!(rt; pairs.len(), 1);
    assert_eq!(rt; *pairs.get(0), pair);
}

#[test]
fn a_refusal_says_why(rt: HostRuntime) {
    let shown = match format!(in rt.alloc(); "{}", NoMemory) {
        Ok(shown) => shown,
        Err(_) => format!(in rt.alloc(); "{}", NoMemory).expect(&rt, "memory is refused once"),
    };
    assert_eq!(rt; shown.as_str(), "out of memory");
}
