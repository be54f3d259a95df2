//! How operands are read.
ghost use Rattle.std.specs.Prelude.{◌≡◌, ◌≤◌, ◌^◌, ℕ, List, Option, IfOk};
ghost use Rattle.kh_term.specs.declared.tree.TermTree.{TermTree};
ghost use Rattle.kh_term.specs.WellFormed.{IsTerm, AreTerms};
ghost use Rattle.kh_instr.specs.Operands.{one, both, two, three, four, five, each, each_two};

use kh_term::{NoMemory, TermTree};
use sqlite_items::Items;
use std::alloc::Global;

/// The shape of an operand: how it is read.
pub trait Shape {
    type Value: Drop;

    ghost reads: { TermTree → Option Self.Value };

    /// The operand that a tree spells, if it spells one of this shape.
    fn read(alloc: Global, tree: &TermTree) -> Result<Option<Self::Value>, NoMemory>
        requires { IsTerm tree.now }
        ensures { IfOk result (λ found. found ≡ reads tree.now) };
}

/// One operand.
pub fn one<A: Shape>(alloc: Global, parts: &[TermTree]) -> Result<Option<A::Value>, NoMemory>
    requires { AreTerms parts.now }
    ensures { IfOk result (λ found. found ≡ one A.reads parts.now) }
{
    match parts {
        [a] => A::read(alloc, a),
        _ => Ok(None),
    }
}

/// Two operands, where both are there.
pub fn both<A: Shape, B: Shape>(
    alloc: Global,
    first: &TermTree,
    second: &TermTree,
) -> Result<Option<(A::Value, B::Value)>, NoMemory>
    requires first { IsTerm first.now }
    requires second { IsTerm second.now }
    ensures { IfOk result (λ found. found ≡ both A.reads B.reads first.now second.now) }
{
    let Some(first) = A::read(alloc, first)? else {
        return Ok(None);
    };
    let Some(second) = B::read(alloc, second)? else {
        return Ok(None);
    };
    Ok(Some((first, second)))
}

/// Two operands.
pub fn two<A: Shape, B: Shape>(
    alloc: Global,
    parts: &[TermTree],
) -> Result<Option<(A::Value, B::Value)>, NoMemory>
    requires { AreTerms parts.now }
    ensures { IfOk result (λ found. found ≡ two A.reads B.reads parts.now) }
{
    match parts {
        [a, b] => both::<A, B>(alloc, a, b),
        _ => Ok(None),
    }
}

/// Three operands.
pub fn three<A: Shape, B: Shape, C: Shape>(
    alloc: Global,
    parts: &[TermTree],
) -> Result<Option<(A::Value, B::Value, C::Value)>, NoMemory>
    requires { AreTerms parts.now }
    ensures { IfOk result (λ found. found ≡ three A.reads B.reads C.reads parts.now) }
{
    match parts {
        [a, b, c] => {
            let Some(a) = A::read(alloc, a)? else {
                return Ok(None);
            };
            let Some(b) = B::read(alloc, b)? else {
                return Ok(None);
            };
            let Some(c) = C::read(alloc, c)? else {
                return Ok(None);
            };
            Ok(Some((a, b, c)))
        }
        _ => Ok(None),
    }
}

/// Four operands.
pub fn four<A: Shape, B: Shape, C: Shape, D: Shape>(
    alloc: Global,
    parts: &[TermTree],
) -> Result<Option<(A::Value, B::Value, C::Value, D::Value)>, NoMemory>
    requires { AreTerms parts.now }
    ensures { IfOk result (λ found. found ≡ four A.reads B.reads C.reads D.reads parts.now) }
{
    match parts {
        [a, b, c, d] => {
            let Some(a) = A::read(alloc, a)? else {
                return Ok(None);
            };
            let Some(b) = B::read(alloc, b)? else {
                return Ok(None);
            };
            let Some(c) = C::read(alloc, c)? else {
                return Ok(None);
            };
            let Some(d) = D::read(alloc, d)? else {
                return Ok(None);
            };
            Ok(Some((a, b, c, d)))
        }
        _ => Ok(None),
    }
}

/// Five operands.
pub fn five<A: Shape, B: Shape, C: Shape, D: Shape, E: Shape>(
    alloc: Global,
    parts: &[TermTree],
) -> Result<Option<(A::Value, B::Value, C::Value, D::Value, E::Value)>, NoMemory>
    requires { AreTerms parts.now }
    ensures { IfOk result (λ found. found ≡
        five A.reads B.reads C.reads D.reads E.reads parts.now) }
{
    match parts {
        [a, b, c, d, e] => {
            let Some(a) = A::read(alloc, a)? else {
                return Ok(None);
            };
            let Some(b) = B::read(alloc, b)? else {
                return Ok(None);
            };
            let Some(c) = C::read(alloc, c)? else {
                return Ok(None);
            };
            let Some(d) = D::read(alloc, d)? else {
                return Ok(None);
            };
            let Some(e) = E::read(alloc, e)? else {
                return Ok(None);
            };
            Ok(Some((a, b, c, d, e)))
        }
        _ => Ok(None),
    }
}

/// Operands of one shape.
#[tactic(auto, using(crate::proofs::Trees::parts, crate::proofs::Each::steps))]
pub fn each<A: Shape>(
    alloc: Global,
    parts: &[TermTree],
) -> Result<Option<Items<A::Value>>, NoMemory>
    requires { AreTerms parts.now }
    ensures { IfOk result (λ found. found ≡ each A.reads parts.now) }
{
    let mut all = Items::new(alloc);
    for part in parts {
        match A::read(alloc, part)? {
            Some(value) => all.push(value)?,
            None => return Ok(None),
        }
    }
    Ok(Some(all))
}

/// Operands of two shapes, by turns.
#[tactic(auto, using(crate::proofs::Trees::parts, crate::proofs::Each::steps))]
pub fn each_two<A: Shape, B: Shape>(
    alloc: Global,
    parts: &[TermTree],
) -> Result<Option<Items<(A::Value, B::Value)>>, NoMemory>
    requires { AreTerms parts.now }
    ensures { IfOk result (λ found. found ≡ each_two A.reads B.reads parts.now) }
{
    let mut all = Items::new(alloc);
    let mut at = 0;
    while at < parts.len() {
        if at + 1 == parts.len() {
            return Ok(None);
        }
        match both::<A, B>(alloc, &parts[at], &parts[at + 1])? {
            Some(values) => all.push(values)?,
            None => return Ok(None),
        }
        at += 2;
    }
    Ok(Some(all))
}
