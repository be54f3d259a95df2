//! Terms made of their parts.
ghost use Rattle.std.specs.Prelude.{◌≡◌, ◌+◌, ◌*◌, ◌<◌, ◌≤◌, ◌^◌, ◌++◌, ◌∷◌, [], length, map, take, IsTrue, IfOk, IfErr, OnOk, OnErr};
ghost use Rattle.kh_term.specs.declared.tree.TermTree.TheVariants as tree;
ghost use Rattle.kh_term.specs.Size.{sizes_of, pair_sizes_of, depth_of, greatest};
ghost use Rattle.kh_term.specs.WellFormed.{AreTerms, is_origin, keys_rise};
ghost use Rattle.kh_heap.specs.Cells.{Measured, pair_faults, deepest_pair};
ghost use Rattle.kh_heap.specs.declared.error.HeapError.TheVariants.{NoMemory};
ghost use Rattle.kh_heap.specs.Heap.{most_cells, term_at, terms_at, pairs_at, Holds, HoldsAll, HoldsPairs, Stands, Grew, Limits, is_too_large, cons_tree};
ghost use Rattle.kh_heap.specs.Parts.{in_turn};

use crate::cell::Kind;
use crate::error::HeapError;
use crate::heap::Heap;
use crate::reference::Ref;
use kh_term::{MOST_DEPTH, MOST_SIZE, Origin};

// Whether no term may be as large or as deep.
fn is_too_large(size: u64, depth: u32) -> bool
    ensures { result ≡ is_too_large size depth }
{
    size > MOST_SIZE || depth > MOST_DEPTH
}

// An origin is one.
fn fits(origin: &Origin)
    ensures { IsTrue (is_origin origin.now) }
{
    let _module = origin.module.as_slice();
    let _name = origin.name.as_slice();
    let _arity = origin.arity;
}

impl Heap {
    /// The integer of this value. Fails with `NoMemory` alone.
    pub fn int(&mut self, v: i128) -> Result<Ref, HeapError>
        requires room { length self.old + 1 < most_cells }
        ensures term { IfOk result (λ r. Stands self.new r (tree.Int v)) }
        ensures cause { IfErr result (λ e. e ≡ NoMemory) }
        ensures grew { Grew self.old self.new }
        ensures cells { length self.new ≤ length self.old + 1 }
        ensures refused { OnErr result (self.new ≡ self.old) }
    {
        self.push(Kind::Int(v), 1, 0)
    }

    /// The list with this head in front of a tail, which is a list or not.
    pub fn cons(&mut self, head: Ref, tail: Ref) -> Result<Ref, HeapError>
        requires room { length self.old + 1 < most_cells }
        requires head_held { Holds self.old head }
        requires tail_held { Holds self.old tail }
        ensures term { IfOk result
            (λ r. Stands self.new r (cons_tree (term_at self.old head) (term_at self.old tail))) }
        ensures limits { Limits result (cons_tree (term_at self.old head) (term_at self.old tail)) }
        ensures grew { Grew self.old self.new }
        ensures cells { length self.new ≤ length self.old + 1 }
        ensures refused { OnErr result (self.new ≡ self.old) }
    {
        let size = 1 + self.size(head) + self.size(tail);
        let depth = self.cons_depth(head, tail);
        if is_too_large(size, depth) {
            return Err(HeapError::TooLarge);
        }
        self.push(Kind::Cons(head.place, tail.place), size as u32, depth)
    }

    /// The tuple of these elements.
    pub fn tuple(&mut self, items: &[Ref]) -> Result<Ref, HeapError>
        requires room { length self.old + length items.now + 1 < most_cells }
        requires held { HoldsAll self.old items.now }
        ensures term { IfOk result
            (λ r. Stands self.new r (tree.Tuple (terms_at self.old items.now))) }
        ensures limits { Limits result (tree.Tuple (terms_at self.old items.now)) }
        ensures grew { Grew self.old self.new }
        ensures cells { length self.new ≤ length self.old + length items.now + 1 }
        ensures refused { OnErr result (self.new ≡ self.old) }
    {
        let size = 1 + self.sizes(items);
        let depth = 1 + self.deepest(items);
        if is_too_large(size, depth) {
            return Err(HeapError::TooLarge);
        }
        let mark = self.len();
        let made = self.push_tuple(items, size as u32, depth);
        self.settled(made, mark)
    }

    /// The map of these keys and values, the keys rising strictly.
    pub fn map(&mut self, pairs: &[(Ref, Ref)]) -> Result<Ref, HeapError>
        requires room { length self.old + 2 * length pairs.now + 1 < most_cells }
        requires held { HoldsPairs self.old pairs.now }
        requires rising { IsTrue (keys_rise (map (λ p. p.0) (pairs_at self.old pairs.now))) }
        ensures term { IfOk result
            (λ r. Stands self.new r (tree.Map (pairs_at self.old pairs.now))) }
        ensures limits { Limits result (tree.Map (pairs_at self.old pairs.now)) }
        ensures grew { Grew self.old self.new }
        ensures cells { length self.new ≤ length self.old + 2 * length pairs.now + 1 }
        ensures refused { OnErr result (self.new ≡ self.old) }
    {
        let size = 1 + self.pair_sizes(pairs);
        let depth = 1 + self.deepest_pair(pairs);
        if is_too_large(size, depth) {
            return Err(HeapError::TooLarge);
        }
        let mark = self.len();
        let made = self.push_map(pairs, size as u32, depth);
        self.settled(made, mark)
    }

    /// The function of this origin with these captured values, which are no more than its arity.
    pub fn closure(&mut self, origin: &Origin, env: &[Ref]) -> Result<Ref, HeapError>
        requires room { length self.old + length env.now + 1 < most_cells }
        requires held { HoldsAll self.old env.now }
        requires arity { length env.now ≤ origin.now.arity }
        ensures term { IfOk result
            (λ r. Stands self.new r (tree.Closure origin.now (terms_at self.old env.now))) }
        ensures limits { Limits result (tree.Closure origin.now (terms_at self.old env.now)) }
        ensures grew { Grew self.old self.new }
        ensures cells { length self.new ≤ length self.old + length env.now + 1 }
        ensures refused { OnErr result (self.new ≡ self.old) }
    {
        fits(origin);
        let size = 1 + self.sizes(env);
        let depth = 1 + self.deepest(env);
        if is_too_large(size, depth) {
            return Err(HeapError::TooLarge);
        }
        let mark = self.len();
        let made = self.push_function(origin, env, size as u32, depth);
        self.settled(made, mark)
    }

    // What was made. Where nothing was, the cells from the mark on go.
    pub(crate) fn settled(
        &mut self,
        made: Result<Ref, HeapError>,
        mark: u32,
    ) -> Result<Ref, HeapError>
        requires { mark ≤ length self.old }
        ensures same { result ≡ made }
        ensures kept { OnOk made (self.new ≡ self.old) }
        ensures cut { OnErr made (self.new ≡ take mark self.old) }
    {
        match made {
            Ok(r) => Ok(r),
            Err(error) => {
                self.cut(mark);
                Err(error)
            }
        }
    }

    fn push_tuple(&mut self, items: &[Ref], size: u32, depth: u32) -> Result<Ref, HeapError>
        requires room { length self.old + length items.now + 1 < most_cells }
        requires held { HoldsAll self.old items.now }
        requires measured { Measured size depth (tree.Tuple (terms_at self.old items.now)) }
        ensures term { IfOk result
            (λ r. Stands self.new r (tree.Tuple (terms_at self.old items.now))) }
        ensures cause { IfErr result (λ e. e ≡ NoMemory) }
        ensures grew { Grew self.old self.new }
        ensures cells { OnOk result (length self.new ≤ length self.old + length items.now + 1) }
    {
        let first = self.len();
        self.push_copies(items)?;
        self.push(Kind::Tuple(first, items.len() as u32), size, depth)
    }

    fn push_map(&mut self, pairs: &[(Ref, Ref)], size: u32, depth: u32) -> Result<Ref, HeapError>
        requires room { length self.old + 2 * length pairs.now + 1 < most_cells }
        requires held { HoldsPairs self.old pairs.now }
        requires measured { Measured size depth (tree.Map (pairs_at self.old pairs.now)) }
        ensures term { IfOk result
            (λ r. Stands self.new r (tree.Map (pairs_at self.old pairs.now))) }
        ensures cause { IfErr result (λ e. e ≡ NoMemory) }
        ensures grew { Grew self.old self.new }
        ensures cells { OnOk result (length self.new ≤ length self.old + 2 * length pairs.now + 1) }
    {
        let first = self.len();
        self.push_pairs(pairs)?;
        self.push(Kind::Map(first, pairs.len() as u32), size, depth)
    }

    fn push_function(
        &mut self,
        origin: &Origin,
        env: &[Ref],
        size: u32,
        depth: u32,
    ) -> Result<Ref, HeapError>
        requires room { length self.old + length env.now + 1 < most_cells }
        requires held { HoldsAll self.old env.now }
        requires measured { Measured size depth
            (tree.Closure origin.now (terms_at self.old env.now)) }
        ensures term { IfOk result
            (λ r. Stands self.new r (tree.Closure origin.now (terms_at self.old env.now))) }
        ensures cause { IfErr result (λ e. e ≡ NoMemory) }
        ensures grew { Grew self.old self.new }
        ensures cells { OnOk result (length self.new ≤ length self.old + length env.now + 1) }
    {
        let first = self.len();
        self.push_copies(env)?;
        self.push_closure(origin, first, env.len() as u32, size, depth)
    }

    // The sizes of terms together.
    pub(crate) fn sizes(&self, refs: &[Ref]) -> u64
        requires few { length refs.now < 2 ^ 32 }
        requires held { HoldsAll self.now refs.now }
        ensures sizes { result ≡ sizes_of (terms_at self.now refs.now) }
        ensures bounded { result < 2 ^ 52 }
        ensures fit { AreTerms (terms_at self.now refs.now) }
    {
        let mut all = 0;
        for r in refs {
            all += self.size(*r);
        }
        all
    }

    // The depth of the deepest of terms.
    pub(crate) fn deepest(&self, refs: &[Ref]) -> u32
        requires { HoldsAll self.now refs.now }
        ensures deepest { result ≡ greatest (map depth_of (terms_at self.now refs.now)) }
        ensures low { result < 2 ^ 16 }
    {
        let mut most = 0;
        for r in refs {
            most = self.depth(*r).max(most);
        }
        most
    }

    // Adds a cell for each of several terms.
    pub(crate) fn push_copies(&mut self, refs: &[Ref]) -> Result<(), HeapError>
        requires room { length self.old + length refs.now < most_cells }
        requires held { HoldsAll self.old refs.now }
        ensures added { OnOk result (self.new ≡ self.old ++ terms_at self.old refs.now) }
        ensures grew { Grew self.old self.new }
        ensures cause { IfErr result (λ e. e ≡ NoMemory) }
    {
        for r in refs {
            self.push_copy(*r)?;
        }
        Ok(())
    }

    // The sizes of keys and values together.
    fn pair_sizes(&self, pairs: &[(Ref, Ref)]) -> u64
        requires few { length pairs.now < 2 ^ 32 }
        requires held { HoldsPairs self.now pairs.now }
        ensures sizes { result ≡ pair_sizes_of (pairs_at self.now pairs.now) }
        ensures bounded { result < 2 ^ 53 }
        ensures fit { pair_faults (pairs_at self.now pairs.now) ≡ 0 }
    {
        let mut all = 0;
        for pair in pairs {
            let key = self.size(pair.0);
            let value = self.size(pair.1);
            all += key + value;
        }
        all
    }

    // The depth of the deepest of keys and values.
    fn deepest_pair(&self, pairs: &[(Ref, Ref)]) -> u32
        requires { HoldsPairs self.now pairs.now }
        ensures deepest { result ≡ deepest_pair (pairs_at self.now pairs.now) }
        ensures low { result < 2 ^ 16 }
    {
        let mut most = 0;
        for pair in pairs {
            let key = self.depth(pair.0);
            let value = self.depth(pair.1);
            most = key.max(value).max(most);
        }
        most
    }

    // Adds a cell for each key and each value, in turn.
    fn push_pairs(&mut self, pairs: &[(Ref, Ref)]) -> Result<(), HeapError>
        requires room { length self.old + 2 * length pairs.now < most_cells }
        requires held { HoldsPairs self.old pairs.now }
        ensures added { OnOk result (self.new ≡ self.old ++ in_turn (pairs_at self.old pairs.now)) }
        ensures grew { Grew self.old self.new }
        ensures cause { IfErr result (λ e. e ≡ NoMemory) }
    {
        for pair in pairs {
            self.push_copy(pair.0)?;
            self.push_copy(pair.1)?;
        }
        Ok(())
    }
}
