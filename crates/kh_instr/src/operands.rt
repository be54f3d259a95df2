//! The shapes of operands.
ghost use Rattle.std.specs.Prelude.{◌≡◌, ◌||◌, map, codes, option_map, IfOk};
ghost use Rattle.kh_instr.specs.declared.operand.Source.TheVariants as source;
ghost use Rattle.kh_term.specs.declared.tree.TermTree.{out-TermTree};
ghost use Rattle.kh_term.specs.Size.{is_nil};
ghost use Rattle.std.specs.Option.{option_copied};
ghost use Rattle.kh_term.specs.WellFormed.{IsTerm, AreTerms};
ghost use Rattle.kh_instr.specs.Operands.{int_of, number_below, count_of, arity_of, own_number_of, place_of, tagged, behind, any_of, label_of, slot_of, atom_of, quoted_of, reg_named, reg_from, reg_of, some_hold, holds_unsupported, literal_of, literal_or, integer_or, source_named, source_of_two, source_of_three, typed_reg, source_from, source_of, parts_of, items_of, is_word, list_by, listed_by, list_by_two, listed_by_two, function_from_parts, function_of};

use crate::operand::{Reg, Source};
use crate::shapes::{Shape, each, each_two};
use kh_term::{Atom, NoMemory, Origin, TermTree, copy_of};
use sqlite_items::Items;
use std::alloc::Global;

// An integer.
#[tactic(auto, using(crate::proofs::Trees::trees))]
fn int_of(tree: &TermTree) -> Option<i128>
    ensures { result ≡ int_of tree.now }
{
    match tree {
        TermTree::Int(number) => Some(*number),
        TermTree::Atom(_)
        | TermTree::Bin(_)
        | TermTree::Nil
        | TermTree::List(_, _)
        | TermTree::Tuple(_)
        | TermTree::Map(_)
        | TermTree::Closure(_, _) => None,
    }
}

// An atom.
#[tactic(auto, using(crate::proofs::Trees::trees))]
pub fn atom_of(tree: &TermTree) -> Option<&Atom>
    ensures { option_copied result ≡ atom_of tree.now }
{
    match tree {
        TermTree::Atom(text) => Some(text),
        TermTree::Int(_)
        | TermTree::Bin(_)
        | TermTree::Nil
        | TermTree::List(_, _)
        | TermTree::Tuple(_)
        | TermTree::Map(_)
        | TermTree::Closure(_, _) => None,
    }
}

// A number from 0 that is below a limit.
fn number_below(limit: u64, tree: &TermTree) -> Option<u64>
    ensures { result ≡ number_below limit tree.now }
{
    match int_of(tree) {
        Some(number) => {
            if 0 <= number && number < limit as i128 {
                Some(number as u64)
            } else {
                None
            }
        }
        None => None,
    }
}

// A count, a place or the number of a label.
fn count_of(tree: &TermTree) -> Option<u32>
    ensures { result ≡ count_of tree.now }
{
    match number_below(1 << 32, tree) {
        Some(number) => Some(number as u32),
        None => None,
    }
}

// A number of arguments.
fn arity_of(tree: &TermTree) -> Option<u8>
    ensures { result ≡ arity_of tree.now }
{
    match number_below(256, tree) {
        Some(number) => Some(number as u8),
        None => None,
    }
}

// The number of a slot or a register.
fn place_of(tree: &TermTree) -> Option<u32>
    ensures { result ≡ place_of tree.now }
{
    match number_below(1024, tree) {
        Some(number) => Some(number as u32),
        None => None,
    }
}

// The number of a label where it stands.
fn own_number_of(tree: &TermTree) -> Option<u32>
    ensures { result ≡ own_number_of tree.now }
{
    match count_of(tree) {
        Some(0) => None,
        Some(number) => Some(number),
        None => None,
    }
}

// What stands behind this word, in a tuple of the two.
#[tactic(auto, using(crate::proofs::Trees::trees))]
fn tagged<'a>(word: &[u8], tree: &'a TermTree) -> Option<&'a TermTree>
    ensures { option_copied result ≡ tagged word.now tree.now }
{
    match tree {
        TermTree::Tuple(parts) => behind(word, parts.as_slice()),
        TermTree::Int(_)
        | TermTree::Atom(_)
        | TermTree::Bin(_)
        | TermTree::Nil
        | TermTree::List(_, _)
        | TermTree::Map(_)
        | TermTree::Closure(_, _) => None,
    }
}

fn behind<'a>(word: &[u8], parts: &'a [TermTree]) -> Option<&'a TermTree>
    ensures { option_copied result ≡ behind word.now parts.now }
{
    match parts {
        [first, part] => {
            if is_word(word, atom_of(first)) {
                Some(part)
            } else {
                None
            }
        }
        _ => None,
    }
}

// Whether an atom is this word.
fn is_word(word: &[u8], atom: Option<&Atom>) -> bool
    ensures { result ≡ is_word word.now (option_copied atom.entry) }
{
    match atom {
        Some(text) => text.as_slice() == word,
        None => false,
    }
}

// What a label of this number is.
pub fn label_of(tree: &TermTree) -> Option<u32>
    ensures { result ≡ label_of tree.now }
{
    count_of(tagged(b"f", tree)?)
}

// The slot of a frame.
fn slot_of(tree: &TermTree) -> Option<u32>
    ensures { result ≡ slot_of tree.now }
{
    place_of(tagged(b"y", tree)?)
}

// The atom of `{atom,A}`.
fn quoted_of(tree: &TermTree) -> Option<&Atom>
    ensures { option_copied result ≡ quoted_of tree.now }
{
    atom_of(tagged(b"atom", tree)?)
}

fn reg_named(word: &[u8], tree: &TermTree) -> Option<Reg>
    ensures { result ≡ reg_named word.now tree.now }
{
    match word {
        b"x" => Some(Reg::X(place_of(tree)?)),
        b"y" => Some(Reg::Y(place_of(tree)?)),
        _ => None,
    }
}

fn reg_from(parts: &[TermTree]) -> Option<Reg>
    ensures { result ≡ reg_from parts.now }
{
    match parts {
        [first, part] => {
            let word = atom_of(first)?;
            reg_named(word.as_slice(), part)
        }
        _ => None,
    }
}

// The elements of a tuple.
#[tactic(auto, using(crate::proofs::Trees::trees))]
fn parts_of(tree: &TermTree) -> Option<&[TermTree]>
    ensures { option_copied result ≡ parts_of tree.now }
{
    match tree {
        TermTree::Tuple(parts) => Some(parts.as_slice()),
        TermTree::Int(_)
        | TermTree::Atom(_)
        | TermTree::Bin(_)
        | TermTree::Nil
        | TermTree::List(_, _)
        | TermTree::Map(_)
        | TermTree::Closure(_, _) => None,
    }
}

// A register.
fn reg_of(tree: &TermTree) -> Option<Reg>
    ensures { result ≡ reg_of tree.now }
{
    reg_from(parts_of(tree)?)
}

// The elements of a list that nil ends.
#[tactic(auto, using(crate::proofs::Trees::trees))]
pub fn items_of(tree: &TermTree) -> Option<&[TermTree]>
    ensures { option_copied result ≡ items_of tree.now }
{
    match tree {
        TermTree::Nil => Some(&[]),
        TermTree::List(items, tail) => {
            if is_nil(tail.get()) {
                Some(items.as_slice())
            } else {
                None
            }
        }
        TermTree::Int(_)
        | TermTree::Atom(_)
        | TermTree::Bin(_)
        | TermTree::Tuple(_)
        | TermTree::Map(_)
        | TermTree::Closure(_, _) => None,
    }
}

#[tactic(auto, using(crate::proofs::Trees::trees))]
fn is_nil(tree: &TermTree) -> bool
    ensures { result ≡ is_nil (out-TermTree tree.now) }
{
    match tree {
        TermTree::Nil => true,
        TermTree::Int(_)
        | TermTree::Atom(_)
        | TermTree::Bin(_)
        | TermTree::List(_, _)
        | TermTree::Tuple(_)
        | TermTree::Map(_)
        | TermTree::Closure(_, _) => false,
    }
}

// Whether the atom `'$unsupported'` is a part of a term, at any depth.
#[cycle(unsupported)]
#[tactic(auto, using(crate::proofs::Literals::literals))]
fn holds_unsupported(tree: &TermTree) -> bool
    ensures { result ≡ holds_unsupported tree.now }
{
    match tree {
        TermTree::Int(_) => false,
        TermTree::Atom(text) => text.as_slice() == b"$unsupported".as_slice(),
        TermTree::Bin(_) => false,
        TermTree::Nil => false,
        TermTree::List(parts, tail) => {
            let before = some_unsupported(parts.as_slice());
            either(before, holds_unsupported(tail.get()))
        }
        TermTree::Tuple(parts) => some_unsupported(parts.as_slice()),
        TermTree::Map(pairs) => some_pair_unsupported(pairs.as_slice()),
        TermTree::Closure(_, env) => some_unsupported(env.as_slice()),
    }
}

#[cycle(unsupported)]
#[tactic(auto, using(crate::proofs::Literals::literals))]
fn some_unsupported(trees: &[TermTree]) -> bool
    ensures { result ≡ some_hold (map holds_unsupported trees.now) }
{
    for tree in trees {
        if holds_unsupported(tree) {
            return true;
        }
    }
    false
}

#[cycle(unsupported)]
#[tactic(auto, using(crate::proofs::Literals::literals))]
fn some_pair_unsupported(pairs: &[(TermTree, TermTree)]) -> bool
    ensures { result ≡ some_hold
        (map (λ p. holds_unsupported p.0 || holds_unsupported p.1) pairs.now) }
{
    for pair in pairs {
        let key = holds_unsupported(&pair.0);
        let value = holds_unsupported(&pair.1);
        if either(key, value) {
            return true;
        }
    }
    false
}

fn either(a: bool, b: bool) -> bool
    ensures { result ≡ (a || b) }
{
    a || b
}

// A literal, where the atom `'$unsupported'` is no part of it.
fn literal_of(alloc: Global, tree: &TermTree) -> Result<Option<Source>, NoMemory>
    requires { IsTerm tree.now }
    ensures { IfOk result (λ found. found ≡ literal_of tree.now) }
{
    if holds_unsupported(tree) {
        return Ok(None);
    }
    let term = copy_of(alloc, tree)?;
    Ok(Some(Source::Literal(term)))
}

fn literal_or(alloc: Global, word: &[u8], tree: &TermTree) -> Result<Option<Source>, NoMemory>
    requires { IsTerm tree.now }
    ensures { IfOk result (λ found. found ≡ literal_or word.now tree.now) }
{
    if word == b"literal".as_slice() {
        literal_of(alloc, tree)
    } else {
        Ok(reg_source(reg_named(word, tree)))
    }
}

fn integer_or(alloc: Global, word: &[u8], tree: &TermTree) -> Result<Option<Source>, NoMemory>
    requires { IsTerm tree.now }
    ensures { IfOk result (λ found. found ≡ integer_or word.now tree.now) }
{
    if word == b"integer".as_slice() {
        Ok(integer_source(tree))
    } else {
        literal_or(alloc, word, tree)
    }
}

fn source_named(alloc: Global, word: &[u8], tree: &TermTree) -> Result<Option<Source>, NoMemory>
    requires { IsTerm tree.now }
    ensures { IfOk result (λ found. found ≡ source_named word.now tree.now) }
{
    if word == b"atom".as_slice() {
        atom_source(alloc, tree)
    } else {
        integer_or(alloc, word, tree)
    }
}

fn atom_source(alloc: Global, tree: &TermTree) -> Result<Option<Source>, NoMemory>
    ensures { IfOk result (λ found. found ≡ option_map (λ a. source.Atom a) (atom_of tree.now)) }
{
    match atom_of(tree) {
        Some(text) => Ok(Some(Source::Atom(text.copy(alloc)?))),
        None => Ok(None),
    }
}

fn integer_source(tree: &TermTree) -> Option<Source>
    ensures { result ≡ option_map (λ n. source.Integer n) (int_of tree.now) }
{
    Some(Source::Integer(int_of(tree)?))
}

fn reg_source(reg: Option<Reg>) -> Option<Source>
    ensures { result ≡ option_map (λ r. source.Reg r) reg }
{
    Some(Source::Reg(reg?))
}

// A register with the type of its value.
fn typed_reg(word: &[u8], tree: &TermTree) -> Option<Source>
    ensures { result ≡ typed_reg word.now tree.now }
{
    match word {
        b"tr" => reg_source(reg_of(tree)),
        _ => None,
    }
}

fn source_of_two(
    alloc: Global,
    word: Option<&Atom>,
    tree: &TermTree,
) -> Result<Option<Source>, NoMemory>
    requires { IsTerm tree.now }
    ensures { IfOk result (λ found. found ≡ source_of_two (option_copied word.entry) tree.now) }
{
    match word {
        Some(word) => source_named(alloc, word.as_slice(), tree),
        None => Ok(None),
    }
}

fn source_of_three(word: Option<&Atom>, tree: &TermTree) -> Option<Source>
    ensures { result ≡ source_of_three (option_copied word.entry) tree.now }
{
    match word {
        Some(word) => typed_reg(word.as_slice(), tree),
        None => None,
    }
}

fn source_from(alloc: Global, parts: &[TermTree]) -> Result<Option<Source>, NoMemory>
    requires { AreTerms parts.now }
    ensures { IfOk result (λ found. found ≡ source_from parts.now) }
{
    match parts {
        [first, part] => source_of_two(alloc, atom_of(first), part),
        [first, part, _] => Ok(source_of_three(atom_of(first), part)),
        _ => Ok(None),
    }
}

// What an instruction reads.
#[tactic(auto, using(crate::proofs::Trees::trees))]
fn source_of(alloc: Global, tree: &TermTree) -> Result<Option<Source>, NoMemory>
    requires { IsTerm tree.now }
    ensures { IfOk result (λ found. found ≡ source_of tree.now) }
{
    match tree {
        TermTree::Atom(text) => match text.as_slice() {
            b"nil" => Ok(Some(Source::Nil)),
            _ => Ok(None),
        },
        TermTree::Tuple(parts) => source_from(alloc, parts.as_slice()),
        TermTree::Int(_)
        | TermTree::Bin(_)
        | TermTree::Nil
        | TermTree::List(_, _)
        | TermTree::Map(_)
        | TermTree::Closure(_, _) => Ok(None),
    }
}

fn function_from_parts(alloc: Global, parts: &[TermTree]) -> Result<Option<Origin>, NoMemory>
    ensures { IfOk result (λ found. found ≡ function_from_parts parts.now) }
{
    match parts {
        [first, module, name, arity] => {
            if !is_word(b"extfunc", atom_of(first)) {
                return Ok(None);
            }
            let Some(module) = atom_of(module) else {
                return Ok(None);
            };
            let Some(name) = atom_of(name) else {
                return Ok(None);
            };
            let Some(arity) = arity_of(arity) else {
                return Ok(None);
            };
            let module = module.copy(alloc)?;
            let name = name.copy(alloc)?;
            Ok(Some(Origin {
                module,
                name,
                arity,
            }))
        }
        _ => Ok(None),
    }
}

// The function of `{extfunc,M,F,N}`.
fn function_of(alloc: Global, tree: &TermTree) -> Result<Option<Origin>, NoMemory>
    ensures { IfOk result (λ found. found ≡ function_of tree.now) }
{
    match parts_of(tree) {
        Some(parts) => function_from_parts(alloc, parts),
        None => Ok(None),
    }
}

/// Anything: it isn't kept.
pub struct AnyShape;

impl Shape for AnyShape {
    type Value = ();

    ghost reads = { any_of };

    fn read(_alloc: Global, _tree: &TermTree) -> Result<Option<()>, NoMemory> {
        Ok(Some(()))
    }
}

/// A count, a place or a slot.
pub struct CountShape;

impl Shape for CountShape {
    type Value = u32;

    ghost reads = { count_of };

    fn read(_alloc: Global, tree: &TermTree) -> Result<Option<u32>, NoMemory> {
        Ok(count_of(tree))
    }
}

/// A number of arguments.
pub struct ArityShape;

impl Shape for ArityShape {
    type Value = u8;

    ghost reads = { arity_of };

    fn read(_alloc: Global, tree: &TermTree) -> Result<Option<u8>, NoMemory> {
        Ok(arity_of(tree))
    }
}

/// The number of a label where it stands.
pub struct OwnNumberShape;

impl Shape for OwnNumberShape {
    type Value = u32;

    ghost reads = { own_number_of };

    fn read(_alloc: Global, tree: &TermTree) -> Result<Option<u32>, NoMemory> {
        Ok(own_number_of(tree))
    }
}

/// A label: `{f,L}`.
pub struct LabelShape;

impl Shape for LabelShape {
    type Value = u32;

    ghost reads = { label_of };

    fn read(_alloc: Global, tree: &TermTree) -> Result<Option<u32>, NoMemory> {
        Ok(label_of(tree))
    }
}

/// A slot: `{y,N}`.
pub struct SlotShape;

impl Shape for SlotShape {
    type Value = u32;

    ghost reads = { slot_of };

    fn read(_alloc: Global, tree: &TermTree) -> Result<Option<u32>, NoMemory> {
        Ok(slot_of(tree))
    }
}

/// An atom as it stands.
pub struct NameShape;

impl Shape for NameShape {
    type Value = Atom;

    ghost reads = { atom_of };

    fn read(alloc: Global, tree: &TermTree) -> Result<Option<Atom>, NoMemory> {
        match atom_of(tree) {
            Some(text) => Ok(Some(text.copy(alloc)?)),
            None => Ok(None),
        }
    }
}

/// An atom: `{atom,A}`.
pub struct QuotedShape;

impl Shape for QuotedShape {
    type Value = Atom;

    ghost reads = { quoted_of };

    fn read(alloc: Global, tree: &TermTree) -> Result<Option<Atom>, NoMemory> {
        match quoted_of(tree) {
            Some(text) => Ok(Some(text.copy(alloc)?)),
            None => Ok(None),
        }
    }
}

/// A register.
pub struct RegShape;

impl Shape for RegShape {
    type Value = Reg;

    ghost reads = { reg_of };

    fn read(_alloc: Global, tree: &TermTree) -> Result<Option<Reg>, NoMemory> {
        Ok(reg_of(tree))
    }
}

/// What an instruction reads.
pub struct SourceShape;

impl Shape for SourceShape {
    type Value = Source;

    ghost reads = { source_of };

    fn read(alloc: Global, tree: &TermTree) -> Result<Option<Source>, NoMemory> {
        source_of(alloc, tree)
    }
}

/// A function: `{extfunc,M,F,N}`.
pub struct FunctionShape;

impl Shape for FunctionShape {
    type Value = Origin;

    ghost reads = { function_of };

    fn read(alloc: Global, tree: &TermTree) -> Result<Option<Origin>, NoMemory> {
        function_of(alloc, tree)
    }
}

/// `[A,..]`.
pub struct ListOf<A: Shape> {
    item: A,
}

impl<A: Shape> Shape for ListOf<A> {
    type Value = Items<A::Value>;

    ghost reads = { list_by A.reads };

    #[tactic(auto, using(crate::proofs::Trees::items))]
    fn read(alloc: Global, tree: &TermTree) -> Result<Option<Items<A::Value>>, NoMemory> {
        match items_of(tree) {
            Some(items) => each::<A>(alloc, items),
            None => Ok(None),
        }
    }
}

/// `{list,[A,..]}`.
pub struct Listed<A: Shape> {
    item: A,
}

impl<A: Shape> Shape for Listed<A> {
    type Value = Items<A::Value>;

    ghost reads = { listed_by A.reads };

    #[tactic(auto, using(crate::proofs::Trees::items))]
    fn read(alloc: Global, tree: &TermTree) -> Result<Option<Items<A::Value>>, NoMemory> {
        match tagged(b"list", tree) {
            Some(list) => ListOf::<A>::read(alloc, list),
            None => Ok(None),
        }
    }
}

/// `[A,B,..]`.
pub struct PairsOf<A: Shape, B: Shape> {
    first: A,
    second: B,
}

impl<A: Shape, B: Shape> Shape for PairsOf<A, B> {
    type Value = Items<(A::Value, B::Value)>;

    ghost reads = { list_by_two A.reads B.reads };

    #[tactic(auto, using(crate::proofs::Trees::items))]
    fn read(
        alloc: Global,
        tree: &TermTree,
    ) -> Result<Option<Items<(A::Value, B::Value)>>, NoMemory> {
        match items_of(tree) {
            Some(items) => each_two::<A, B>(alloc, items),
            None => Ok(None),
        }
    }
}

/// `{list,[A,B,..]}`.
pub struct ListedTwo<A: Shape, B: Shape> {
    first: A,
    second: B,
}

impl<A: Shape, B: Shape> Shape for ListedTwo<A, B> {
    type Value = Items<(A::Value, B::Value)>;

    ghost reads = { listed_by_two A.reads B.reads };

    #[tactic(auto, using(crate::proofs::Trees::items))]
    fn read(
        alloc: Global,
        tree: &TermTree,
    ) -> Result<Option<Items<(A::Value, B::Value)>>, NoMemory> {
        match tagged(b"list", tree) {
            Some(list) => PairsOf::<A, B>::read(alloc, list),
            None => Ok(None),
        }
    }
}
