//! Cells as terms.
ghost use Rattle.std.specs.Prelude.{◌≡◌, ◌*◌, length, IfOk};
ghost use Rattle.kh_heap.specs.Heap.{term_at, cons_tree, Holds};
ghost use Rattle.kh_heap.specs.Cells.{paired};
ghost use Rattle.kh_heap.specs.Parts.{parts_in};

use crate::heap::Heap;
use crate::reference::Ref;
use crate::view::View;
use kh_term::{NoMemory, Term, TermTree, TreePairs, Trees};
use sqlite_items::{Boxed, Items};

impl Heap {
    /// A copy of the term of a reference.
    pub fn store(&self, r: Ref) -> Result<Term, NoMemory>
        requires { Holds self.now r }
        ensures { IfOk result (λ t. t.node ≡ term_at self.now r) }
    {
        self.stands_for_terms();
        let node = self.store_tree(r)?;
        Ok(Term { node })
    }

    #[cycle(store)]
    fn store_tree(&self, r: Ref) -> Result<TermTree, NoMemory>
        requires { Holds self.now r }
        ensures { IfOk result (λ t. t ≡ term_at self.now r) }
    {
        match self.view(r) {
            View::Int(number) => Ok(TermTree::Int(number)),
            View::Atom => Ok(TermTree::Atom(self.atom(r).copy(self.alloc)?)),
            View::Bin(_) => Ok(TermTree::Bin(self.bytes(r).copy(self.alloc)?)),
            View::Nil => Ok(TermTree::Nil),
            View::Cons(head, tail) => self.store_list(head, tail),
            View::Tuple(count) => Ok(TermTree::Tuple(self.store_parts(r, count)?)),
            View::Map(count) => Ok(TermTree::Map(self.store_pairs(r, count)?)),
            View::Closure(count) => {
                let origin = self.origin(r).copy(self.alloc)?;
                Ok(TermTree::Closure(origin, self.store_parts(r, count)?))
            }
        }
    }

    // A list, by a walk along its tails.
    #[cycle(store)]
    fn store_list(&self, head: Ref, tail: Ref) -> Result<TermTree, NoMemory>
        requires head_held { Holds self.now head }
        requires tail_held { Holds self.now tail }
        ensures { IfOk result (λ t. t ≡ cons_tree (term_at self.now head) (term_at self.now tail)) }
    {
        let mut parts = Items::new(self.alloc);
        parts.push(self.store_tree(head)?)?;
        let mut rest = tail;
        while let View::Cons(first, behind) = self.view(rest) {
            parts.push(self.store_tree(first)?)?;
            rest = behind;
        }
        let last = self.store_tree(rest)?;
        Ok(TermTree::List(parts, Boxed::new(self.alloc, last)?))
    }

    #[cycle(store)]
    fn store_parts(&self, r: Ref, count: u32) -> Result<Trees, NoMemory>
        requires held { Holds self.now r }
        requires count { length (parts_in (term_at self.now r)) ≡ count }
        ensures { IfOk result (λ ts. ts ≡ parts_in (term_at self.now r)) }
    {
        let mut parts = Items::new(self.alloc);
        for i in 0..count {
            let part = self.part(r, i);
            parts.push(self.store_tree(part)?)?;
        }
        Ok(parts)
    }

    #[cycle(store)]
    fn store_pairs(&self, r: Ref, count: u32) -> Result<TreePairs, NoMemory>
        requires held { Holds self.now r }
        requires count { length (parts_in (term_at self.now r)) ≡ 2 * count }
        ensures { IfOk result (λ ps. ps ≡ paired (parts_in (term_at self.now r))) }
    {
        self.stands_for_terms();
        let mut pairs = Items::new(self.alloc);
        for i in 0..count {
            let key = self.store_tree(self.part(r, 2 * i))?;
            let value = self.store_tree(self.part(r, 2 * i + 1))?;
            pairs.push((key, value))?;
        }
        Ok(pairs)
    }
}
