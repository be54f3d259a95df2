//! The built-ins that change a map.
ghost use Rattle.std.specs.Prelude.{◌≡◌, ◌+◌, ◌*◌, ◌<◌, length, IfOk};
ghost use Rattle.std.specs.BTreeMap.{insert_entry};
ghost use Rattle.std.specs.List as List;
ghost use Rattle.kh_term.specs.declared.tree.TermTree.TheVariants as tree;
ghost use Rattle.kh_term.specs.Order.{term_cmp};
ghost use Rattle.kh_heap.specs.Heap.{most_cells, term_at, pairs_at, Holds, HoldsPairs};
ghost use Rattle.kh_heap.specs.Parts.{pairs_in};
ghost use Rattle.kh_heap.specs.View.{HasPairs};
ghost use Rattle.kh_bif_base.specs.Answer.{limited};
ghost use Rattle.kh_bif_base.specs.Answers.{Answers, GrewBy};
ghost use Rattle.kh_bif_data.specs.Answer.{pair_count};
ghost use Rattle.kh_bif_data.specs.Built.{Built};
ghost use Rattle.kh_bif_data.specs.Maps.{put, remove};

use crate::building::answer;
use crate::elements::pairs;
use crate::lookups::place;
use crate::values::value;
use kh_bif_base::bad_map;
use kh_heap::{BifError, Heap, HeapError, Ref, View};
use kh_term::NoMemory;
use std::alloc::Global;

// The pairs of a map with a value at a key.
fn pairs_with(
    alloc: Global,
    key: Ref,
    item: Ref,
    m: Ref,
    count: u32,
    heap: &Heap,
) -> Result<Vec<(Ref, Ref)>, NoMemory>
    requires first { Holds heap.now key }
    requires second { Holds heap.now item }
    requires third { Holds heap.now m }
    requires map { HasPairs (term_at heap.now m) count }
    ensures held { IfOk result (λ ps. HoldsPairs heap.now ps.items) }
    ensures terms { IfOk result (λ ps. pairs_at heap.now ps.items ≡ insert_entry term_cmp
        (pairs_in (term_at heap.now m)) (term_at heap.now key) (term_at heap.now item)) }
{
    let _map = heap.size(m);
    let _key = heap.size(key);
    let mut items = pairs(alloc, m, count, heap)?;
    match place(key, m, count, heap) {
        Ok(at) => {
            items[at as usize] = (key, item);
            Ok(items)
        }
        Err(at) => {
            items.insert(at as usize, (key, item))?;
            Ok(items)
        }
    }
}

// The map with a value at a key.
fn with(
    alloc: Global,
    key: Ref,
    item: Ref,
    m: Ref,
    count: u32,
    heap: &mut Heap,
) -> Result<Ref, HeapError>
    requires first { Holds heap.old key }
    requires second { Holds heap.old item }
    requires third { Holds heap.old m }
    requires map { HasPairs (term_at heap.old m) count }
    requires room { length heap.old + (2 * count + 4) < most_cells }
    ensures built { Built heap.new (tree.Map (insert_entry term_cmp
        (pairs_in (term_at heap.old m)) (term_at heap.old key) (term_at heap.old item))) result }
    ensures grew { GrewBy (2 * count + 3) heap.old heap.new }
{
    let _map = heap.size(m);
    let _key = heap.size(key);
    let items = pairs_with(alloc, key, item, m, count, heap)?;
    heap.map(items.as_slice())
}

// A map with a value at a key.
pub(crate) fn put(
    alloc: Global,
    key: Ref,
    item: Ref,
    m: Ref,
    heap: &mut Heap,
) -> Result<Ref, BifError>
    requires first { Holds heap.old key }
    requires second { Holds heap.old item }
    requires third { Holds heap.old m }
    requires room { length heap.old + (5 * pair_count (term_at heap.old m) + 16) < most_cells }
    ensures answer { Answers heap.new result (limited (put (term_at heap.old key)
        (term_at heap.old item) (term_at heap.old m))) }
    ensures grew { GrewBy (5 * pair_count (term_at heap.old m) + 16) heap.old heap.new }
{
    match heap.view(m) {
        View::Map(count) => {
            let built = with(alloc, key, item, m, count, heap);
            answer(alloc, built, heap)
        }
        _ => bad_map(alloc, m, heap),
    }
}

// The map without the pair at a place.
fn without(alloc: Global, at: u32, m: Ref, count: u32, heap: &mut Heap) -> Result<Ref, HeapError>
    requires held { Holds heap.old m }
    requires map { HasPairs (term_at heap.old m) count }
    requires within { at < count }
    requires room { length heap.old + (2 * count + 1) < most_cells }
    ensures built { Built heap.new
        (tree.Map (List.remove (pairs_in (term_at heap.old m)) at)) result }
    ensures grew { GrewBy (2 * count + 1) heap.old heap.new }
{
    let _map = heap.size(m);
    let mut items = pairs(alloc, m, count, heap)?;
    items.remove(at as usize);
    heap.map(items.as_slice())
}

// A map without a key.
pub(crate) fn remove(alloc: Global, key: Ref, m: Ref, heap: &mut Heap) -> Result<Ref, BifError>
    requires first { Holds heap.old key }
    requires second { Holds heap.old m }
    requires room { length heap.old + (5 * pair_count (term_at heap.old m) + 16) < most_cells }
    ensures answer { Answers heap.new result
        (limited (remove (term_at heap.old key) (term_at heap.old m))) }
    ensures grew { GrewBy (5 * pair_count (term_at heap.old m) + 16) heap.old heap.new }
{
    let _map = heap.size(m);
    let _key = heap.size(key);
    match heap.view(m) {
        View::Map(count) => match place(key, m, count, heap) {
            Ok(at) => {
                let built = without(alloc, at, m, count, heap);
                answer(alloc, built, heap)
            }
            Err(_) => value(m, heap),
        },
        _ => bad_map(alloc, m, heap),
    }
}
