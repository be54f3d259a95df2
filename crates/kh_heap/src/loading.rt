//! Terms as cells.
ghost use Rattle.std.specs.Prelude.{◌≡◌, ◌+◌, ◌*◌, ◌<◌, ◌≤◌, length, map, IfOk, IfErr, OnOk, OnErr};
ghost use Rattle.kh_term.specs.Limits.{most_size, most_depth};
ghost use Rattle.kh_term.specs.Size.{size_of, sizes_of, pair_sizes_of, depth_of, greatest};
ghost use Rattle.kh_term.specs.WellFormed.{IsTerm, AreTerms};
ghost use Rattle.kh_heap.specs.declared.error.HeapError.TheVariants.{NoMemory};
ghost use Rattle.kh_heap.specs.Cells.{pair_faults, deepest_pair, onto};
ghost use Rattle.kh_heap.specs.Heap.{most_cells, term_at, terms_at, pairs_at, Holds, HoldsAll, HoldsPairs, Stands, Grew, Limits, cells_to_load, cons_tree};

use crate::cell::Kind;
use crate::error::HeapError;
use crate::heap::Heap;
use crate::reference::Ref;
use kh_term::{Term, TermTree, is_small};

impl Heap {
    /// The term itself, with cells of its own for each of its parts.
    pub fn load(&mut self, t: &Term) -> Result<Ref, HeapError>
        requires room { length self.old + cells_to_load t.now.node < most_cells }
        ensures term { IfOk result (λ r. Stands self.new r t.now.node) }
        ensures limits { Limits result t.now.node }
        ensures grew { Grew self.old self.new }
        ensures cells { length self.new ≤ length self.old + cells_to_load t.now.node }
        ensures refused { OnErr result (self.new ≡ self.old) }
    {
        if !is_small(t) {
            return Err(HeapError::TooLarge);
        }
        let mark = self.len();
        let made = self.load_tree(&t.node);
        self.settled(made, mark)
    }

    #[cycle(load)]
    fn load_tree(&mut self, tree: &TermTree) -> Result<Ref, HeapError>
        requires room { length self.old + 2 * size_of tree.now < most_cells }
        requires few { size_of tree.now ≤ most_size }
        requires low { depth_of tree.now ≤ most_depth }
        requires fits { IsTerm tree.now }
        ensures term { IfOk result (λ r. Stands self.new r tree.now) }
        ensures cause { IfErr result (λ e. e ≡ NoMemory) }
        ensures grew { Grew self.old self.new }
        ensures cells { OnOk result (length self.new + 1 ≤ length self.old + 2 * size_of tree.now) }
    {
        match tree {
            TermTree::Int(number) => self.int(*number),
            TermTree::Atom(text) => self.push_atom(text),
            TermTree::Bin(bytes) => {
                let units = (bytes.as_slice().len() + 7) / 8;
                self.push_bin(bytes, 1 + units as u32)
            }
            TermTree::Nil => self.push(Kind::Nil, 1, 1),
            TermTree::List(parts, tail) => {
                let last = self.load_tree(tail.get())?;
                let heads = self.load_all(parts.as_slice())?;
                self.cons_all(heads.as_slice(), last)
            }
            TermTree::Tuple(parts) => {
                let items = self.load_all(parts.as_slice())?;
                self.tuple(items.as_slice())
            }
            TermTree::Map(pairs) => {
                let pairs = self.load_pairs(pairs.as_slice())?;
                self.map(pairs.as_slice())
            }
            TermTree::Closure(origin, env) => {
                let env = self.load_all(env.as_slice())?;
                self.closure(origin, env.as_slice())
            }
        }
    }

    #[cycle(load)]
    fn load_all(&mut self, trees: &[TermTree]) -> Result<Vec<Ref>, HeapError>
        requires room { length self.old + 2 * sizes_of trees.now < most_cells }
        requires few { sizes_of trees.now ≤ most_size }
        requires low { greatest (map depth_of trees.now) ≤ most_depth }
        requires fits { AreTerms trees.now }
        ensures held { IfOk result (λ rs. HoldsAll self.new rs.items) }
        ensures terms { IfOk result (λ rs. terms_at self.new rs.items ≡ trees.now) }
        ensures cause { IfErr result (λ e. e ≡ NoMemory) }
        ensures grew { Grew self.old self.new }
        ensures cells { OnOk result
            (length self.new + length trees.now ≤ length self.old + 2 * sizes_of trees.now) }
    {
        let mut refs = Vec::new(self.alloc);
        for tree in trees {
            let r = self.load_tree(tree)?;
            refs.push(r)?;
        }
        Ok(refs)
    }

    #[cycle(load)]
    fn load_pairs(&mut self, pairs: &[(TermTree, TermTree)]) -> Result<Vec<(Ref, Ref)>, HeapError>
        requires room { length self.old + 2 * pair_sizes_of pairs.now < most_cells }
        requires few { pair_sizes_of pairs.now ≤ most_size }
        requires low { deepest_pair pairs.now ≤ most_depth }
        requires fits { pair_faults pairs.now ≡ 0 }
        ensures held { IfOk result (λ rs. HoldsPairs self.new rs.items) }
        ensures terms { IfOk result (λ rs. pairs_at self.new rs.items ≡ pairs.now) }
        ensures cause { IfErr result (λ e. e ≡ NoMemory) }
        ensures grew { Grew self.old self.new }
        ensures cells { OnOk result (length self.new + 2 * length pairs.now
            ≤ length self.old + 2 * pair_sizes_of pairs.now) }
    {
        let mut refs = Vec::new(self.alloc);
        for pair in pairs {
            let key = self.load_tree(&pair.0)?;
            let value = self.load_tree(&pair.1)?;
            refs.push((key, value))?;
        }
        Ok(refs)
    }

    // Terms in front of a tail.
    fn cons_all(&mut self, heads: &[Ref], last: Ref) -> Result<Ref, HeapError>
        requires room { length self.old + length heads.now + 1 < most_cells }
        requires held { HoldsAll self.old heads.now }
        requires last_held { Holds self.old last }
        requires few { size_of (onto (terms_at self.old heads.now) (term_at self.old last))
            ≤ most_size }
        requires low { depth_of (onto (terms_at self.old heads.now) (term_at self.old last))
            ≤ most_depth }
        ensures term { IfOk result
            (λ r. Stands self.new r (onto (terms_at self.old heads.now) (term_at self.old last))) }
        ensures cause { IfErr result (λ e. e ≡ NoMemory) }
        ensures grew { Grew self.old self.new }
        ensures cells { length self.new ≤ length self.old + length heads.now }
    {
        let mut list = last;
        let mut i = heads.len();
        while i > 0 {
            i -= 1;
            list = self.cons_small(heads[i], list)?;
        }
        Ok(list)
    }

    // A head in front of a tail, within the limits.
    fn cons_small(&mut self, head: Ref, tail: Ref) -> Result<Ref, HeapError>
        requires room { length self.old + 1 < most_cells }
        requires head_held { Holds self.old head }
        requires tail_held { Holds self.old tail }
        requires few { size_of (cons_tree (term_at self.old head) (term_at self.old tail))
            ≤ most_size }
        requires low { depth_of (cons_tree (term_at self.old head) (term_at self.old tail))
            ≤ most_depth }
        ensures term { IfOk result
            (λ r. Stands self.new r (cons_tree (term_at self.old head) (term_at self.old tail))) }
        ensures cause { IfErr result (λ e. e ≡ NoMemory) }
        ensures grew { Grew self.old self.new }
        ensures cells { length self.new ≤ length self.old + 1 }
    {
        self.cons(head, tail)
    }
}
