// A block of memory with a fixed number of places, each of which holds an item or room for one.
// `make`, `put`, `get` and `free` alone touch the memory, and `item_bytes` its layout. An item that is written
// over, or whose chunk is freed, is forgotten: an arena's items are `Copy`.
ghost use Rattle.std.specs.Prelude.{◌≡◌, ◌*◌, ◌^◌, ◌<◌, List, length, Some, None, IfSome, IsSome, IsTrue, slice_set, slice_index_or};
ghost use Rattle.std.specs.Coded.{coded_list, coded_option};
ghost use Rattle.std.specs.declared.option.Option.{Option};
ghost use Rattle.std.specs.Mem.{type_size};
ghost use Rattle.kh_arena.specs.Spots.{spot, address};
ghost use Rattle.kh_arena.specs.Ownership.{chunk_owns, chunk_lends, empty_places};

use std::alloc::Allocator;
use std::marker::{Model, PhantomData};
use std::mem::{align_of, size_of};

// The bytes of the largest block.
const MOST_BYTES: usize = isize::MAX as usize;

/// A block of `len` places at `at`, which `alloc` gave. It owns the places and the right to free them.
pub(crate) struct Chunk<T, A: Allocator> {
    at: *mut T,
    len: usize,
    by: PhantomData<A>,
    pub(crate) ghost alloc: { A },
    pub(crate) ghost places: { List (Option T) } by { coded_list (coded_option T.code) },
    pub(crate) ghost whole: { len ≡ length places },
}

impl<T, A: Allocator> Model for Chunk<T, A> {
    ghost also_owns = { λ c. chunk_owns (A.dealloc_token c.alloc) T.row c.at c.len c.places };

    ghost also_shares = { λ c _ κ. chunk_lends T.row c.at c.len c.places κ };
}

// The bytes of an item, unless they are 2^63 or more.
fn item_bytes<T>() -> usize
    ensures { result < 2 ^ 63 → result ≡ type_size T.row }
{
    size_of::<T>()
}

// Whether `len` items fit a block.
fn fits<T>(len: usize) -> bool
    requires { 0 < len }
    ensures { IsTrue result → len * type_size T.row < 2 ^ 63 }
{
    item_bytes::<T>() <= MOST_BYTES / len
}

impl<T, A: Allocator> Chunk<T, A> {
    /// A chunk of `len` places that hold nothing, or `None` where there is no memory.
    pub(crate) fn new(alloc: &A, len: usize) -> Option<Chunk<T, A>>
        requires { 0 < len }
        ensures empty { IfSome result (λ c. c.places ≡ empty_places len) }
        ensures by { IfSome result (λ c. c.alloc ≡ alloc.now) }
    {
        if fits::<T>(len) {
            Chunk::make(alloc, len)
        } else {
            None
        }
    }

    // Asks the allocator for the block, whose size is known to fit.
    fn make(alloc: &A, len: usize) -> Option<Chunk<T, A>>
        requires { len * type_size T.row < 2 ^ 63 }
        ensures empty { IfSome result (λ c. c.places ≡ empty_places len) }
        ensures by { IfSome result (λ c. c.alloc ≡ alloc.now) }
    {
        match alloc.allocate(len * size_of::<T>(), align_of::<T>()) {
            Ok(block) => Some(Chunk {
                at: block as *mut T,
                len,
                by: PhantomData,
            }),
            Err(_) => None,
        }
    }

    /// Writes an item into a place, over what it holds.
    pub(crate) fn put(&mut self, i: usize, item: T)
        requires { i < length self.old.places }
        ensures places { self.new.places ≡ slice_set self.old.places i (Some item) }
        ensures at { self.new.at ≡ self.old.at }
        ensures by { self.new.alloc ≡ self.old.alloc }
    {
        unsafe { self.at.add(i).write(item) }
    }

    /// The item of a place that holds one.
    pub(crate) fn get(&self, i: usize) -> &T
        requires { IsSome (slice_index_or self.now.places i None) }
        ensures item { slice_index_or self.now.places i None ≡ Some result.now }
        ensures there { result.ref_ptr ≡ address (type_size T.row) (spot self.now.at i) }
    {
        unsafe { &*self.at.add(i) }
    }

    /// Gives the block back to the allocator that it came from.
    pub(crate) fn free(self, alloc: &A)
        requires { self.alloc ≡ alloc.now }
    {
        let Chunk { at, len, by: _ } = self;
        unsafe {
            alloc.deallocate(at as *mut u8, len * size_of::<T>(), align_of::<T>());
        }
    }
}
