// The arena: chunks of places, of which the first `len` hold the items.
ghost use Rattle.std.specs.Prelude.{◌≡◌, ◌+◌, ◌*◌, ◌^◌, ◌<◌, ◌≤◌, [], ◌∷◌, ◌++◌, length, take, slice_get, option_map, IsOk, IfOk, OnOk, OnErr, Some};
ghost use Rattle.std.specs.Mem.{type_size};
ghost use Rattle.kh_arena.specs.Sizes.{chunk_len, places_before};
ghost use Rattle.kh_arena.specs.Spots.{address};
ghost use Rattle.kh_arena.specs.Listed.{items, spots, spare, most_items};

use crate::chunk::Chunk;
use crate::error::NoMemory;
use std::alloc::Global;
use std::marker::Model;

// The places of the first chunk, and how often they are doubled.
const FIRST_ITEMS: usize = 64;

const DOUBLINGS: usize = 10;

// The places of each chunk from the last doubling on.
const MOST_ITEMS: usize = 65_536;

type Chunks<T> = Vec<Chunk<T, Global>>;

/// A list whose items stay where they are until the arena is dropped.
pub struct Arena<T: Copy> {
    chunks: Chunks<T>,
    len: u32,
    // the places of all chunks, up to the number of items that fit an arena
    room: u32,
    alloc: Global,
}

impl<T: Copy> Model for Arena<T> {
    ghost use Rattle.std.specs.Prelude.{List, ℕ};
    ghost use Rattle.kh_arena.specs.Spots.{Spot};
    ghost use Rattle.kh_arena.specs.Listed.{view_of, IsArena};

    ghost Value = { (List T × List Spot) × ℕ };

    ghost view = { λ a. view_of a.len a.chunks.items };

    ghost invariant = { λ a. IsArena a.len a.room a.chunks.items };
}

// The number of places of chunk `k`.
fn chunk_items(k: usize) -> usize
    ensures places { result ≡ chunk_len k }
    ensures some { 0 < result }
    ensures few { result < 2 ^ 32 }
{
    if k < DOUBLINGS {
        FIRST_ITEMS << k
    } else {
        MOST_ITEMS
    }
}

// The chunk of the item at `i`, by the leading bit of its place, and the item's place there.
fn locate(i: u32) -> (usize, usize)
    ensures at { places_before result.0 + result.1 ≡ i }
    ensures within { result.1 < chunk_len result.0 }
{
    let n = i as usize + FIRST_ITEMS;
    if n < MOST_ITEMS {
        let top = n.ilog2() as usize;
        (top - 6, n - (1 << top))
    } else {
        (n / MOST_ITEMS + DOUBLINGS - 1, n % MOST_ITEMS)
    }
}

// Gives each chunk back.
fn free_chunks<T>(mut chunks: Chunks<T>, alloc: &Global) {
    while let Some(chunk) = chunks.pop() {
        chunk.free(alloc);
    }
    chunks.destroy_empty();
}

impl<T: Copy> Arena<T> {
    /// An arena without items, which allocates nothing.
    pub fn new(alloc: Global) -> Arena<T>
        ensures { result ≡ (([], []), 0) }
    {
        Arena {
            chunks: Vec::new(alloc),
            len: 0,
            room: 0,
            alloc,
        }
    }

    /// The number of items.
    pub fn len(&self) -> u32
        ensures { result ≡ length (items self.now) }
    {
        self.len
    }

    /// The number of items that can be pushed before more memory is taken.
    pub fn spare(&self) -> u32
        ensures { result ≡ spare self.now }
    {
        self.room - self.len
    }

    // Adds a chunk whose places are empty.
    fn grow(&mut self) -> Result<(), NoMemory>
        requires { length (items self.old) + spare self.old < most_items }
        ensures items { items self.new ≡ items self.old }
        ensures spots { spots self.new ≡ spots self.old }
        ensures more { OnOk result (spare self.old < spare self.new) }
        ensures refused { OnErr result (self.new ≡ self.old) }
    {
        let places = chunk_items(self.chunks.len());
        self.chunks.reserve(1)?;
        match Chunk::new(&self.alloc, places) {
            Some(chunk) => {
                self.chunks.push_reserved(chunk);
                self.room = self.room.saturating_add(places as u32);
                Ok(())
            }
            None => Err(NoMemory),
        }
    }

    // Writes an item into the next place, which is there.
    fn put(&mut self, item: T) -> u32
        requires { 0 < spare self.old }
        ensures place { result ≡ length (items self.old) }
        ensures appended { items self.new ≡ items self.old ++ item ∷ [] }
        ensures stays { take (length (items self.old)) (spots self.new) ≡ spots self.old }
        ensures spare { spare self.new + 1 ≡ spare self.old }
    {
        let place = self.len;
        let (chunk, offset) = locate(place);
        self.chunks[chunk].put(offset, item);
        self.len = place + 1;
        place
    }

    /// Sees to it that `n` further items can be pushed without more memory. Fails with `NoMemory` where
    /// a block is refused; the items stay where they are either way.
    pub fn reserve(&mut self, n: u32) -> Result<(), NoMemory>
        requires { length (items self.old) + n < most_items }
        ensures enough { OnOk result (n ≤ spare self.new) }
        ensures items { items self.new ≡ items self.old }
        ensures spots { spots self.new ≡ spots self.old }
        ensures kept { spare self.old ≤ spare self.new }
    {
        while self.spare() < n {
            self.grow()?;
        }
        Ok(())
    }

    /// Appends an item, and answers its place. Fails with `NoMemory` where there is no spare place and
    /// no memory for more, and then all is as before.
    pub fn push(&mut self, item: T) -> Result<u32, NoMemory>
        requires { length (items self.old) < most_items }
        ensures place { IfOk result (λ place. place ≡ length (items self.old)) }
        ensures appended { OnOk result (items self.new ≡ items self.old ++ item ∷ []) }
        ensures stays { OnOk result
            (take (length (items self.old)) (spots self.new) ≡ spots self.old) }
        ensures spare { OnOk result (spare self.old ≤ spare self.new + 1) }
        ensures reserved { 0 < spare self.old → IsOk result }
        ensures refused { OnErr result (self.new ≡ self.old) }
    {
        if self.spare() == 0 {
            self.grow()?;
        }
        Ok(self.put(item))
    }

    /// The item at the place `i`.
    pub fn get(&self, i: u32) -> &T
        requires { i < length (items self.now) }
        ensures item { slice_get (items self.now) i ≡ Some result.now }
        ensures there { option_map (address (type_size T.row))
            (slice_get (spots self.now) i) ≡ Some result.ref_ptr }
    {
        let (chunk, offset) = locate(i);
        self.chunks[chunk].get(offset)
    }

    /// Leaves the first `mark` items, where they are.
    pub fn cut(&mut self, mark: u32)
        requires { mark ≤ length (items self.old) }
        ensures items { items self.new ≡ take mark (items self.old) }
        ensures len { length (items self.new) ≡ mark }
        ensures spots { spots self.new ≡ take mark (spots self.old) }
        ensures spare { spare self.new + mark ≡ spare self.old + length (items self.old) }
    {
        self.len = mark;
    }
}

impl<T: Copy> Drop for Arena<T> {
    fn drop(self) {
        let Arena {
            chunks,
            len: _,
            room: _,
            alloc,
        } = self;
        free_chunks(chunks, &alloc);
    }
}
