//! How operands are spelled.
ghost use Rattle.std.specs.Prelude.{◌≡◌, ◌≤◌, [], ◌∷◌, ◌++◌, length, map, codes, IfOk, OnOk, IsTrue};
ghost use Rattle.kh_term.specs.declared.tree.TermTree.{TermTree};
ghost use Rattle.kh_term.specs.declared.tree.TermTree.TheVariants as tree;
ghost use Rattle.kh_term.specs.Text.{is_atom_text};
ghost use Rattle.kh_instr.specs.Spelling.{number, with_word, reg_tree, label_tree, slot_tree, quoted_tree, source_tree, function_tree, list_tree, listed_tree, by_turns, listed_two_tree, formed};
ghost use Rattle.kh_instr.specs.Words.{word_text, test_text};

use crate::operand::{Reg, Source};
use crate::operands::{
    AnyShape, ArityShape, CountShape, FunctionShape, LabelShape, ListOf, Listed, ListedTwo,
    NameShape, QuotedShape, RegShape, SlotShape, SourceShape,
};
use crate::shapes::Shape;
use crate::words::{Spelled, TestName, Word};
use kh_term::{
    Atom, MOST_NAME_BYTES, NoMemory, Origin, Term, Terms, atom, int, list, pair, tuple, word,
};
use sqlite_items::Items;
use std::alloc::Global;

/// How an operand is spelled.
pub trait Spells {
    type Part;

    ghost spells: { Self.Part → TermTree };

    /// The term of an operand.
    fn term(alloc: Global, part: &Self::Part) -> Result<Term, NoMemory>
        ensures { IfOk result (λ t. t.node ≡ spells part.now) };
}

fn number(value: u32) -> Term
    ensures { result.node ≡ number value }
{
    int(value as i128)
}

fn with_word(alloc: Global, text: &str, part: Term) -> Result<Term, NoMemory>
    requires { length text.now ≤ MOST_NAME_BYTES }
    ensures { IfOk result (λ t. t.node ≡ with_word text.now part.node) }
{
    let first = word(alloc, text)?;
    pair(alloc, first, part)
}

// The atom of a text that is one.
fn text_term(alloc: Global, text: &[u8]) -> Result<Term, NoMemory>
    requires { IsTrue (is_atom_text text.now) }
    ensures { IfOk result (λ t. t.node ≡ tree.Atom text.now) }
{
    match Atom::new(Vec::from_slice(alloc, text)?) {
        Some(text) => Ok(atom(text)),
        None => unreachable!(),
    }
}

/// The atom of a word.
#[tactic(auto, using(crate::proofs::Texts::word_is_text))]
pub fn word_term(alloc: Global, word: Word) -> Result<Term, NoMemory>
    ensures { IfOk result (λ t. t.node ≡ tree.Atom (word_text word)) }
{
    text_term(alloc, word.text())
}

/// The atom of a test's name.
#[tactic(auto, using(crate::proofs::Texts::test_is_text))]
pub fn test_term(alloc: Global, name: TestName) -> Result<Term, NoMemory>
    ensures { IfOk result (λ t. t.node ≡ tree.Atom (test_text name)) }
{
    text_term(alloc, name.text())
}

fn reg_term(alloc: Global, reg: Reg) -> Result<Term, NoMemory>
    ensures { IfOk result (λ t. t.node ≡ reg_tree reg) }
{
    match reg {
        Reg::X(place) => with_word(alloc, "x", number(place)),
        Reg::Y(place) => with_word(alloc, "y", number(place)),
    }
}

fn quoted_term(alloc: Global, text: &Atom) -> Result<Term, NoMemory>
    ensures { IfOk result (λ t. t.node ≡ quoted_tree text.now) }
{
    with_word(alloc, "atom", atom(text.copy(alloc)?))
}

fn source_term(alloc: Global, source: &Source) -> Result<Term, NoMemory>
    ensures { IfOk result (λ t. t.node ≡ source_tree source.now) }
{
    match source {
        Source::Reg(reg) => reg_term(alloc, *reg),
        Source::Atom(text) => quoted_term(alloc, text),
        Source::Integer(value) => with_word(alloc, "integer", int(*value)),
        Source::Nil => word(alloc, "nil"),
        Source::Literal(term) => with_word(alloc, "literal", term.copy(alloc)?),
    }
}

fn function_term(alloc: Global, function: &Origin) -> Result<Term, NoMemory>
    ensures { IfOk result (λ t. t.node ≡ function_tree function.now) }
{
    let mut parts = Terms::new(alloc);
    parts.push(word(alloc, "extfunc")?)?;
    parts.push(atom(function.module.copy(alloc)?))?;
    parts.push(atom(function.name.copy(alloc)?))?;
    parts.push(number(function.arity as u32))?;
    Ok(tuple(parts))
}

/// The terms of operands of one shape.
pub fn terms_of<A: Spells>(alloc: Global, parts: &[A::Part]) -> Result<Terms, NoMemory>
    ensures { IfOk result (λ ts. ts.nodes ≡ map A.spells parts.now) }
{
    let mut terms = Terms::new(alloc);
    for part in parts {
        terms.push(A::term(alloc, part)?)?;
    }
    Ok(terms)
}

/// The terms of operands of two shapes, by turns.
fn terms_of_two<A: Spells, B: Spells>(
    alloc: Global,
    pairs: &[(A::Part, B::Part)],
) -> Result<Terms, NoMemory>
    ensures { IfOk result (λ ts. ts.nodes ≡ by_turns A.spells B.spells pairs.now) }
{
    let mut terms = Terms::new(alloc);
    for pair in pairs {
        push_both::<A, B>(alloc, &mut terms, &pair.0, &pair.1)?;
    }
    Ok(terms)
}

fn push_both<A: Spells, B: Spells>(
    alloc: Global,
    terms: &mut Terms,
    first: &A::Part,
    second: &B::Part,
) -> Result<(), NoMemory>
    ensures { OnOk result
        (terms.new.nodes ≡ terms.old.nodes ++ A.spells first.now ∷ B.spells second.now ∷ []) }
{
    let first = A::term(alloc, first)?;
    let second = B::term(alloc, second)?;
    terms.push(first)?;
    terms.push(second)?;
    Ok(())
}

/// A word, for the operands that are put behind it.
pub fn form(alloc: Global, word: Word) -> Result<Terms, NoMemory>
    ensures { IfOk result (λ ts. ts.nodes ≡ tree.Atom (word_text word) ∷ []) }
{
    let mut parts = Terms::new(alloc);
    parts.push(word_term(alloc, word)?)?;
    Ok(parts)
}

/// A word with one operand.
pub fn spell_one<A: Spells>(alloc: Global, word: Word, a: &A::Part) -> Result<Term, NoMemory>
    ensures { IfOk result (λ t. t.node ≡ formed (word_text word) (A.spells a.now ∷ [])) }
{
    let mut parts = form(alloc, word)?;
    parts.push(A::term(alloc, a)?)?;
    Ok(tuple(parts))
}

/// A word with two operands.
pub fn spell_two<A: Spells, B: Spells>(
    alloc: Global,
    word: Word,
    a: &A::Part,
    b: &B::Part,
) -> Result<Term, NoMemory>
    ensures { IfOk result (λ t. t.node ≡ formed (word_text word)
        (A.spells a.now ∷ B.spells b.now ∷ [])) }
{
    let mut parts = form(alloc, word)?;
    parts.push(A::term(alloc, a)?)?;
    parts.push(B::term(alloc, b)?)?;
    Ok(tuple(parts))
}

/// A word with three operands.
pub fn spell_three<A: Spells, B: Spells, C: Spells>(
    alloc: Global,
    word: Word,
    a: &A::Part,
    b: &B::Part,
    c: &C::Part,
) -> Result<Term, NoMemory>
    ensures { IfOk result (λ t. t.node ≡ formed (word_text word)
        (A.spells a.now ∷ B.spells b.now ∷ C.spells c.now ∷ [])) }
{
    let mut parts = form(alloc, word)?;
    parts.push(A::term(alloc, a)?)?;
    parts.push(B::term(alloc, b)?)?;
    parts.push(C::term(alloc, c)?)?;
    Ok(tuple(parts))
}

/// A word with four operands.
pub fn spell_four<A: Spells, B: Spells, C: Spells, D: Spells>(
    alloc: Global,
    word: Word,
    a: &A::Part,
    b: &B::Part,
    c: &C::Part,
    d: &D::Part,
) -> Result<Term, NoMemory>
    ensures { IfOk result (λ t. t.node ≡ formed (word_text word)
        (A.spells a.now ∷ B.spells b.now ∷ C.spells c.now ∷ D.spells d.now ∷ [])) }
{
    let mut parts = form(alloc, word)?;
    parts.push(A::term(alloc, a)?)?;
    parts.push(B::term(alloc, b)?)?;
    parts.push(C::term(alloc, c)?)?;
    parts.push(D::term(alloc, d)?)?;
    Ok(tuple(parts))
}

/// A word with five operands.
pub fn spell_five<A: Spells, B: Spells, C: Spells, D: Spells, E: Spells>(
    alloc: Global,
    word: Word,
    a: &A::Part,
    b: &B::Part,
    c: &C::Part,
    d: &D::Part,
    e: &E::Part,
) -> Result<Term, NoMemory>
    ensures { IfOk result (λ t. t.node ≡ formed (word_text word)
        (A.spells a.now ∷ B.spells b.now ∷ C.spells c.now ∷ D.spells d.now ∷ E.spells e.now ∷ [])) }
{
    let mut parts = form(alloc, word)?;
    parts.push(A::term(alloc, a)?)?;
    parts.push(B::term(alloc, b)?)?;
    parts.push(C::term(alloc, c)?)?;
    parts.push(D::term(alloc, d)?)?;
    parts.push(E::term(alloc, e)?)?;
    Ok(tuple(parts))
}

impl Spells for AnyShape {
    type Part = ();

    ghost spells = { λ _. number 0 };

    fn term(_alloc: Global, _part: &()) -> Result<Term, NoMemory> {
        Ok(number(0))
    }
}

impl Spells for CountShape {
    type Part = u32;

    ghost spells = { number };

    fn term(_alloc: Global, part: &u32) -> Result<Term, NoMemory> {
        Ok(number(*part))
    }
}

impl Spells for ArityShape {
    type Part = u8;

    ghost spells = { number };

    fn term(_alloc: Global, part: &u8) -> Result<Term, NoMemory> {
        Ok(number(*part as u32))
    }
}

impl Spells for LabelShape {
    type Part = u32;

    ghost spells = { label_tree };

    fn term(alloc: Global, part: &u32) -> Result<Term, NoMemory> {
        with_word(alloc, "f", number(*part))
    }
}

impl Spells for SlotShape {
    type Part = u32;

    ghost spells = { slot_tree };

    fn term(alloc: Global, part: &u32) -> Result<Term, NoMemory> {
        with_word(alloc, "y", number(*part))
    }
}

impl Spells for NameShape {
    type Part = Atom;

    ghost spells = { λ text. tree.Atom text };

    fn term(alloc: Global, part: &Atom) -> Result<Term, NoMemory> {
        Ok(atom(part.copy(alloc)?))
    }
}

impl Spells for QuotedShape {
    type Part = Atom;

    ghost spells = { quoted_tree };

    fn term(alloc: Global, part: &Atom) -> Result<Term, NoMemory> {
        quoted_term(alloc, part)
    }
}

impl Spells for RegShape {
    type Part = Reg;

    ghost spells = { reg_tree };

    fn term(alloc: Global, part: &Reg) -> Result<Term, NoMemory> {
        reg_term(alloc, *part)
    }
}

impl Spells for SourceShape {
    type Part = Source;

    ghost spells = { source_tree };

    fn term(alloc: Global, part: &Source) -> Result<Term, NoMemory> {
        source_term(alloc, part)
    }
}

impl Spells for FunctionShape {
    type Part = Origin;

    ghost spells = { function_tree };

    fn term(alloc: Global, part: &Origin) -> Result<Term, NoMemory> {
        function_term(alloc, part)
    }
}

/// `{atom,safe}`.
pub struct SafeShape;

impl Spells for SafeShape {
    type Part = ();

    ghost spells = { λ _. quoted_tree (codes "safe") };

    fn term(alloc: Global, _part: &()) -> Result<Term, NoMemory> {
        with_word(alloc, "atom", word(alloc, "safe")?)
    }
}

/// The name of a test.
pub struct TestShape;

impl Spells for TestShape {
    type Part = TestName;

    ghost spells = { λ name. tree.Atom (test_text name) };

    fn term(alloc: Global, part: &TestName) -> Result<Term, NoMemory> {
        test_term(alloc, *part)
    }
}

impl<A: Shape + Spells> Spells for ListOf<A> {
    type Part = Items<A::Part>;

    ghost spells = { list_tree A.spells };

    fn term(alloc: Global, part: &Items<A::Part>) -> Result<Term, NoMemory> {
        list(alloc, terms_of::<A>(alloc, part.as_slice())?)
    }
}

impl<A: Shape + Spells> Spells for Listed<A> {
    type Part = Items<A::Part>;

    ghost spells = { listed_tree A.spells };

    fn term(alloc: Global, part: &Items<A::Part>) -> Result<Term, NoMemory> {
        with_word(alloc, "list", ListOf::<A>::term(alloc, part)?)
    }
}

impl<A: Shape + Spells, B: Shape + Spells> Spells for ListedTwo<A, B> {
    type Part = Items<(A::Part, B::Part)>;

    ghost spells = { listed_two_tree A.spells B.spells };

    fn term(alloc: Global, part: &Items<(A::Part, B::Part)>) -> Result<Term, NoMemory> {
        with_word(
            alloc,
            "list",
            list(alloc, terms_of_two::<A, B>(alloc, part.as_slice())?)?,
        )
    }
}
