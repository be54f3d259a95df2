//! Equality and order of terms.
ghost use Rattle.std.specs.Prelude.{◌≡◌, ◌↔◌, ◌<◌, ◌&&◌, false, IsTrue, length, map, min};
ghost use Rattle.std.specs.Ordering.{nat_cmp};
ghost use Rattle.kh_term.specs.declared.tree.TermTree.{out-TermTree};
ghost use Rattle.kh_term.specs.Order.{term_cmp, rank_of, compared, compare_parts, compare_pairs, compare_shared};
ghost use Rattle.kh_term.specs.WellFormed.{is_list};
ghost use Rattle.kh_heap.specs.Heap.{term_at, Holds};
ghost use Rattle.kh_heap.specs.Parts.{pairs_in, parts_in, side};
ghost use Rattle.kh_heap.specs.View.{HasPairs, rank_seen};

use crate::heap::Heap;
use crate::reference::Ref;
use crate::view::View;
use std::cmp::Ordering;

// The rank of a kind of term.
fn rank(view: View) -> u8
    ensures { result ≡ rank_seen view }
{
    match view {
        View::Int(_) => 0,
        View::Atom => 1,
        View::Closure(_) => 2,
        View::Tuple(_) => 3,
        View::Map(_) => 4,
        View::Nil => 5,
        View::Cons(_, _) => 6,
        View::Bin(_) => 7,
    }
}

// Whether two references are one.
fn is_one(x: Ref, y: Ref) -> bool
    ensures { IsTrue result ↔ (x ≡ y) }
{
    x == y
}

impl Heap {
    /// Whether two references stand for the same term. It ends at once where their places are the same or the
    /// sizes of their terms differ.
    pub fn equal(&self, a: Ref, b: Ref) -> bool
        requires first { Holds self.now a }
        requires second { Holds self.now b }
        ensures { IsTrue result ↔ (term_at self.now a ≡ term_at self.now b) }
    {
        self.stands_for_terms();
        if self.size(a) != self.size(b) {
            return false;
        }
        self.compare(a, b).is_eq()
    }

    /// How the terms of two references compare. It ends at once where their places are the same.
    #[cycle(compare)]
    pub fn compare(&self, a: Ref, b: Ref) -> Ordering
        requires first { Holds self.now a }
        requires second { Holds self.now b }
        ensures { result ≡ term_cmp (term_at self.now a) (term_at self.now b) }
    {
        self.stands_for_terms();
        let mut x = a;
        let mut y = b;
        'along: while !is_one(x, y) {
            let View::Cons(h, t) = self.view(x) else {
                return self.compare_ends(x, y);
            };
            let View::Cons(g, s) = self.view(y) else {
                return self.compare_ends(x, y);
            };
            match self.compare(h, g) {
                Ordering::Equal => {
                    x = t;
                    y = s;
                }
                order => return order,
            }
        }
        Ordering::Equal
    }

    // How the kinds of two terms compare.
    fn compare_kinds(&self, x: Ref, y: Ref) -> Ordering
        requires first { Holds self.now x }
        requires second { Holds self.now y }
        ensures { result ≡ nat_cmp (rank_of (out-TermTree (term_at self.now x)))
            (rank_of (out-TermTree (term_at self.now y))) }
    {
        rank(self.view(x)).cmp(&rank(self.view(y)))
    }

    // How two terms compare that aren't both lists.
    #[cycle(compare)]
    fn compare_ends(&self, x: Ref, y: Ref) -> Ordering
        requires first { Holds self.now x }
        requires second { Holds self.now y }
        requires end { (is_list (out-TermTree (term_at self.now x))
            && is_list (out-TermTree (term_at self.now y))) ≡ false }
        ensures { result ≡ term_cmp (term_at self.now x) (term_at self.now y) }
    {
        self.stands_for_terms();
        match (self.view(x), self.view(y)) {
            (View::Int(m), View::Int(n)) => m.cmp(&n),
            (View::Atom, View::Atom) => self.atom(x).cmp(self.atom(y)),
            (View::Bin(_), View::Bin(_)) => self.bytes(x).cmp(self.bytes(y)),
            (View::Tuple(m), View::Tuple(n)) => match m.cmp(&n) {
                Ordering::Equal => self.compare_parts(x, y, n),
                order => order,
            },
            (View::Map(m), View::Map(n)) => match m.cmp(&n) {
                Ordering::Equal => self.compare_maps(x, y, n),
                order => order,
            },
            (View::Closure(m), View::Closure(n)) => {
                match self.origin(x).cmp(self.origin(y)) {
                    Ordering::Equal => self.compare_captured(x, y, m, n),
                    order => order,
                }
            }
            _ => self.compare_kinds(x, y),
        }
    }

    // The captured values of two functions, `m` and `n` of them.
    #[cycle(compare)]
    fn compare_captured(&self, x: Ref, y: Ref, m: u32, n: u32) -> Ordering
        requires first { Holds self.now x }
        requires second { Holds self.now y }
        requires count { length (parts_in (term_at self.now x)) ≡ m }
        requires other_count { length (parts_in (term_at self.now y)) ≡ n }
        ensures { result ≡ compare_parts (map compared (parts_in (term_at self.now x)))
            (parts_in (term_at self.now y)) }
    {
        match self.compare_parts(x, y, m.min(n)) {
            Ordering::Equal => m.cmp(&n),
            order => order,
        }
    }

    // Part by part, as far as both go.
    #[cycle(compare)]
    fn compare_parts(&self, x: Ref, y: Ref, count: u32) -> Ordering
        requires first { Holds self.now x }
        requires second { Holds self.now y }
        requires count { count ≡ min (length (parts_in (term_at self.now x)))
            (length (parts_in (term_at self.now y))) }
        ensures { result ≡ compare_shared (map compared (parts_in (term_at self.now x)))
            (parts_in (term_at self.now y)) }
    {
        for i in 0..count {
            let part = self.part(x, i);
            let other = self.part(y, i);
            match self.compare(part, other) {
                Ordering::Equal => {}
                order => return order,
            }
        }
        Ordering::Equal
    }

    // Two maps of `count` pairs: by their keys, then by their values.
    #[cycle(compare)]
    fn compare_maps(&self, x: Ref, y: Ref, count: u32) -> Ordering
        requires first { Holds self.now x }
        requires second { Holds self.now y }
        requires map { HasPairs (term_at self.now x) count }
        requires other_map { HasPairs (term_at self.now y) count }
        ensures { result ≡ compare_pairs (pairs_in (term_at self.now x))
            (pairs_in (term_at self.now y)) }
    {
        match self.compare_half(x, y, 0, count) {
            Ordering::Equal => self.compare_half(x, y, 1, count),
            order => order,
        }
    }

    // The keys of two maps of `count` pairs, or with 1 in place of 0 their values.
    #[cycle(compare)]
    fn compare_half(&self, x: Ref, y: Ref, half: u32, count: u32) -> Ordering
        requires first { Holds self.now x }
        requires second { Holds self.now y }
        requires half { half < 2 }
        requires map { HasPairs (term_at self.now x) count }
        requires other_map { HasPairs (term_at self.now y) count }
        ensures { result ≡ compare_shared
            (map compared (map (side half) (pairs_in (term_at self.now x))))
            (map (side half) (pairs_in (term_at self.now y))) }
    {
        self.stands_for_terms();
        for i in 0..count {
            let part = self.part(x, 2 * i + half);
            let other = self.part(y, 2 * i + half);
            match self.compare(part, other) {
                Ordering::Equal => {}
                order => return order,
            }
        }
        Ordering::Equal
    }
}
