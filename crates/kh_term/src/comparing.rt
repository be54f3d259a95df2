//! The order of terms.
ghost use Rattle.std.specs.Prelude.{◌≡◌, length, map};
ghost use Rattle.kh_term.specs.declared.tree.TermTree.{out-TermTree};
ghost use Rattle.kh_term.specs.Order.{term_cmp, rank_of, compared, compare_parts, compare_pairs, compare_shared};

use crate::term::Term;
use crate::tree::TermTree;
use std::cmp::Ordering;

/// How two terms compare.
pub fn compare(a: &Term, b: &Term) -> Ordering
    ensures { result ≡ term_cmp a.now.node b.now.node }
{
    tree_cmp(&a.node, &b.node)
}

// The rank of lists.
const LIST: u8 = 6;

#[tactic(auto, using(crate::proofs::Layers::nils))]
fn rank(tree: &TermTree) -> u8
    ensures { result ≡ rank_of (out-TermTree tree.now) }
{
    match tree {
        TermTree::Int(_) => 0,
        TermTree::Atom(_) => 1,
        TermTree::Closure(_, _) => 2,
        TermTree::Tuple(_) => 3,
        TermTree::Map(_) => 4,
        TermTree::Nil => 5,
        TermTree::List(_, _) => 6,
        TermTree::Bin(_) => 7,
    }
}

/// How two parts of terms compare.
#[cycle(compare)]
#[tactic(auto, using(crate::specs::Lemmas::Orders::kinds))]
pub fn tree_cmp(a: &TermTree, b: &TermTree) -> Ordering
    ensures { result ≡ term_cmp a.now b.now }
{
    match (a, b) {
        (TermTree::Int(x), TermTree::Int(y)) => x.cmp(y),
        (TermTree::Atom(x), TermTree::Atom(y)) => x.cmp(y),
        (TermTree::Bin(x), TermTree::Bin(y)) => x.cmp(y),
        (TermTree::Closure(x, xs), TermTree::Closure(y, ys)) => match x.cmp(y) {
            Ordering::Equal => parts_cmp(xs.as_slice(), ys.as_slice()),
            order => order,
        },
        (TermTree::Tuple(xs), TermTree::Tuple(ys)) => match xs.len().cmp(&ys.len()) {
            Ordering::Equal => parts_cmp(xs.as_slice(), ys.as_slice()),
            order => order,
        },
        (TermTree::Map(ps), TermTree::Map(qs)) => match ps.len().cmp(&qs.len()) {
            Ordering::Equal => pairs_cmp(ps.as_slice(), qs.as_slice()),
            order => order,
        },
        (TermTree::List(xs, tail), TermTree::List(ys, other)) => match shared_cmp(
            xs.as_slice(),
            ys.as_slice(),
        ) {
            Ordering::Equal => match xs.len().cmp(&ys.len()) {
                Ordering::Less => rank(tail.get()).cmp(&LIST),
                Ordering::Equal => tree_cmp(tail.get(), other.get()),
                Ordering::Greater => LIST.cmp(&rank(other.get())),
            },
            order => order,
        },
        _ => rank(a).cmp(&rank(b)),
    }
}

#[cycle(compare)]
#[tactic(auto, using(crate::specs::Lemmas::Orders::parts_by_shared))]
fn parts_cmp(xs: &[TermTree], ys: &[TermTree]) -> Ordering
    ensures { result ≡ compare_parts (map compared xs.now) ys.now }
{
    match shared_cmp(xs, ys) {
        Ordering::Equal => xs.len().cmp(&ys.len()),
        order => order,
    }
}

// Element by element, as far as both go.
#[cycle(compare)]
fn shared_cmp(xs: &[TermTree], ys: &[TermTree]) -> Ordering
    ensures { result ≡ compare_shared (map compared xs.now) ys.now }
{
    for (at, x) in xs.iter().enumerate() {
        if at >= ys.len() {
            return Ordering::Equal;
        }
        match tree_cmp(x, &ys[at]) {
            Ordering::Equal => {}
            order => return order,
        }
    }
    Ordering::Equal
}

// Two maps of as many pairs.
#[cycle(compare)]
#[tactic(auto, using(crate::specs::Lemmas::Orders::pairs_by_shared))]
fn pairs_cmp(ps: &[(TermTree, TermTree)], qs: &[(TermTree, TermTree)]) -> Ordering
    requires { length ps.now ≡ length qs.now }
    ensures { result ≡ compare_pairs ps.now qs.now }
{
    match keys_cmp(ps, qs) {
        Ordering::Equal => values_cmp(ps, qs),
        order => order,
    }
}

#[cycle(compare)]
fn keys_cmp(ps: &[(TermTree, TermTree)], qs: &[(TermTree, TermTree)]) -> Ordering
    ensures { result ≡ compare_shared (map (λ p. compared p.0) ps.now) (map (λ q. q.0) qs.now) }
{
    for (at, p) in ps.iter().enumerate() {
        if at >= qs.len() {
            return Ordering::Equal;
        }
        match tree_cmp(&p.0, &qs[at].0) {
            Ordering::Equal => {}
            order => return order,
        }
    }
    Ordering::Equal
}

#[cycle(compare)]
fn values_cmp(ps: &[(TermTree, TermTree)], qs: &[(TermTree, TermTree)]) -> Ordering
    ensures { result ≡ compare_shared (map (λ p. compared p.1) ps.now) (map (λ q. q.1) qs.now) }
{
    for (at, p) in ps.iter().enumerate() {
        if at >= qs.len() {
            return Ordering::Equal;
        }
        match tree_cmp(&p.1, &qs[at].1) {
            Ordering::Equal => {}
            order => return order,
        }
    }
    Ordering::Equal
}
