//! Instructions, as they are spelled.
ghost use Rattle.std.specs.Prelude.{◌≡◌, [], ◌∷◌, IfOk};
ghost use Rattle.kh_term.specs.declared.tree.TermTree.TheVariants as tree;
ghost use Rattle.kh_term.specs.Make.{list_of};
ghost use Rattle.kh_instr.specs.declared.words.TestName.TheVariants as test_name;
ghost use Rattle.kh_instr.specs.declared.words.Word.TheVariants as word;
ghost use Rattle.kh_instr.specs.Spelling.{instr_tree, test_trees, formed, raise_trees, number, label_tree, source_tree, IsListed};
ghost use Rattle.kh_instr.specs.Words.{word_text, test_text};

use crate::instr::Instr;
use crate::operand::{Reg, Source};
use crate::operands::{
    AnyShape, ArityShape, CountShape, FunctionShape, LabelShape, ListOf, Listed, ListedTwo,
    NameShape, QuotedShape, RegShape, SlotShape, SourceShape,
};
use crate::spellings::{
    SafeShape, Spells, TestShape, form, spell_five, spell_four, spell_one, spell_three, spell_two,
    test_term, word_term,
};
use crate::test::Test;
use crate::words::{TestName, Word};
use kh_term::{NoMemory, Term, Terms, list, tuple, word};
use std::alloc::Global;

/// The term that spells an instruction which the table lists. The error is want of memory.
pub fn term_of(alloc: Global, instr: &Instr) -> Result<Term, NoMemory>
    requires { IsListed instr.now }
    ensures { IfOk result (λ t. t.node ≡ instr_tree instr.now) }
{
    match instr {
        Instr::Label(n) => spell_one::<CountShape>(alloc, Word::Label, n),
        Instr::FuncInfo(f) => {
            spell_three::<QuotedShape, QuotedShape, ArityShape>(
                alloc,
                Word::FuncInfo,
                &f.module,
                &f.name,
                &f.arity,
            )
        }
        Instr::Move(s, r) => spell_two::<SourceShape, RegShape>(alloc, Word::Move, s, r),
        Instr::Swap(r, q) => spell_two::<RegShape, RegShape>(alloc, Word::Swap, r, q),
        Instr::Call(n, l) => spell_two::<ArityShape, LabelShape>(alloc, Word::Call, n, l),
        Instr::CallLast(n, l, d) => {
            spell_three::<ArityShape, LabelShape, CountShape>(alloc, Word::CallLast, n, l, d)
        }
        Instr::CallOnly(n, l) => spell_two::<ArityShape, LabelShape>(alloc, Word::CallOnly, n, l),
        Instr::CallExt(f) => {
            spell_two::<ArityShape, FunctionShape>(alloc, Word::CallExt, &f.arity, f)
        }
        Instr::CallExtLast(f, d) => {
            spell_three::<ArityShape, FunctionShape, CountShape>(
                alloc,
                Word::CallExtLast,
                &f.arity,
                f,
                d,
            )
        }
        Instr::CallExtOnly(f) => {
            spell_two::<ArityShape, FunctionShape>(alloc, Word::CallExtOnly, &f.arity, f)
        }
        Instr::CallFun(n) => spell_one::<ArityShape>(alloc, Word::CallFun, n),
        Instr::CallFun2(n, s) => {
            spell_three::<SafeShape, ArityShape, SourceShape>(alloc, Word::CallFun2, &(), n, s)
        }
        Instr::Allocate(n, live) => {
            spell_two::<CountShape, CountShape>(alloc, Word::Allocate, n, live)
        }
        Instr::Deallocate(n) => spell_one::<CountShape>(alloc, Word::Deallocate, n),
        Instr::Trim(n, rest) => spell_two::<CountShape, CountShape>(alloc, Word::Trim, n, rest),
        Instr::TestHeap(live) => {
            spell_two::<AnyShape, CountShape>(alloc, Word::TestHeap, &(), live)
        }
        Instr::InitYregs(rs) => spell_one::<Listed<RegShape>>(alloc, Word::InitYregs, rs),
        Instr::Return => word_term(alloc, Word::Return),
        Instr::Jump(l) => spell_one::<LabelShape>(alloc, Word::Jump, l),
        Instr::SelectVal(s, l, cases) => {
            spell_three::<SourceShape, LabelShape, ListedTwo<SourceShape, LabelShape>>(
                alloc,
                Word::SelectVal,
                s,
                l,
                cases,
            )
        }
        Instr::SelectTupleArity(s, l, sizes) => {
            spell_three::<SourceShape, LabelShape, ListedTwo<CountShape, LabelShape>>(
                alloc,
                Word::SelectTupleArity,
                s,
                l,
                sizes,
            )
        }
        Instr::GetList(s, r, q) => {
            spell_three::<SourceShape, RegShape, RegShape>(alloc, Word::GetList, s, r, q)
        }
        Instr::GetHd(s, r) => spell_two::<SourceShape, RegShape>(alloc, Word::GetHd, s, r),
        Instr::GetTl(s, r) => spell_two::<SourceShape, RegShape>(alloc, Word::GetTl, s, r),
        Instr::GetTupleElement(s, n, r) => {
            spell_three::<SourceShape, CountShape, RegShape>(alloc, Word::GetTupleElement, s, n, r)
        }
        Instr::PutList(s, t, r) => {
            spell_three::<SourceShape, SourceShape, RegShape>(alloc, Word::PutList, s, t, r)
        }
        Instr::PutTuple2(r, parts) => {
            spell_two::<RegShape, Listed<SourceShape>>(alloc, Word::PutTuple2, r, parts)
        }
        Instr::MakeFun3(l, r, parts) => {
            spell_five::<LabelShape, AnyShape, AnyShape, RegShape, Listed<SourceShape>>(
                alloc,
                Word::MakeFun3,
                l,
                &(),
                &(),
                r,
                parts,
            )
        }
        Instr::Bif(name, l, arguments, r) => {
            spell_four::<NameShape, LabelShape, ListOf<SourceShape>, RegShape>(
                alloc,
                Word::Bif,
                name,
                l,
                arguments,
                r,
            )
        }
        Instr::GcBif(name, l, live, arguments, r) => {
            spell_five::<NameShape, LabelShape, CountShape, ListOf<SourceShape>, RegShape>(
                alloc,
                Word::GcBif,
                name,
                l,
                live,
                arguments,
                r,
            )
        }
        Instr::PutMapAssoc(l, s, r, live, puts) => {
            spell_five::<
                LabelShape,
                SourceShape,
                RegShape,
                CountShape,
                ListedTwo<SourceShape, SourceShape>,
            >(alloc, Word::PutMapAssoc, l, s, r, live, puts)
        }
        Instr::PutMapExact(l, s, r, live, puts) => {
            spell_five::<
                LabelShape,
                SourceShape,
                RegShape,
                CountShape,
                ListedTwo<SourceShape, SourceShape>,
            >(alloc, Word::PutMapExact, l, s, r, live, puts)
        }
        Instr::GetMapElements(l, s, gets) => {
            spell_three::<LabelShape, SourceShape, ListedTwo<SourceShape, RegShape>>(
                alloc,
                Word::GetMapElements,
                l,
                s,
                gets,
            )
        }
        Instr::Badmatch(s) => spell_one::<SourceShape>(alloc, Word::Badmatch, s),
        Instr::CaseEnd(s) => spell_one::<SourceShape>(alloc, Word::CaseEnd, s),
        Instr::IfEnd => word_term(alloc, Word::IfEnd),
        Instr::TryCaseEnd(s) => spell_one::<SourceShape>(alloc, Word::TryCaseEnd, s),
        Instr::Try(n, l) => spell_two::<SlotShape, LabelShape>(alloc, Word::Try, n, l),
        Instr::Catch(n, l) => spell_two::<SlotShape, LabelShape>(alloc, Word::Catch, n, l),
        Instr::TryEnd(n) => spell_one::<SlotShape>(alloc, Word::TryEnd, n),
        Instr::TryCase(n) => spell_one::<SlotShape>(alloc, Word::TryCase, n),
        Instr::CatchEnd(n) => spell_one::<SlotShape>(alloc, Word::CatchEnd, n),
        Instr::RawRaise => word_term(alloc, Word::RawRaise),
        Instr::BuildStacktrace => word_term(alloc, Word::BuildStacktrace),
        Instr::BifRaise(trace, reason, target) => raise_form(alloc, trace, reason, target),
        Instr::Test(label, test) => test_form(alloc, label, test),
        Instr::Unsupported(_) => unreachable!(),
    }
}

// `{bif,raise,{f,0},[S,S],R}`.
fn raise_form(
    alloc: Global,
    trace: &Source,
    reason: &Source,
    target: &Reg,
) -> Result<Term, NoMemory>
    ensures { IfOk result (λ t. t.node ≡ formed (word_text word.Bif)
        (raise_trees trace.now reason.now target.now)) }
{
    let arguments = list_of_two::<SourceShape, SourceShape>(alloc, trace, reason)?;
    let mut parts = form(alloc, Word::Bif)?;
    parts.push(word(alloc, "raise")?)?;
    parts.push(LabelShape::term(alloc, &0)?)?;
    parts.push(arguments)?;
    parts.push(RegShape::term(alloc, target)?)?;
    Ok(tuple(parts))
}

// `[A]`.
fn list_of_one<A: Spells>(alloc: Global, part: &A::Part) -> Result<Term, NoMemory>
    ensures { IfOk result (λ t. t.node ≡ list_of (A.spells part.now ∷ [])) }
{
    let mut parts = Terms::new(alloc);
    parts.push(A::term(alloc, part)?)?;
    list(alloc, parts)
}

// `[A,B]`.
fn list_of_two<A: Spells, B: Spells>(
    alloc: Global,
    first: &A::Part,
    second: &B::Part,
) -> Result<Term, NoMemory>
    ensures { IfOk result (λ t. t.node ≡ list_of (A.spells first.now ∷ B.spells second.now ∷ [])) }
{
    let mut parts = Terms::new(alloc);
    parts.push(A::term(alloc, first)?)?;
    parts.push(B::term(alloc, second)?)?;
    list(alloc, parts)
}

// `[S,N,S]`.
fn list_of_tagged(
    alloc: Global,
    source: &Source,
    size: &u32,
    tag: &Source,
) -> Result<Term, NoMemory>
    ensures { IfOk result (λ t. t.node ≡
        list_of (source_tree source.now ∷ number size.now ∷ source_tree tag.now ∷ [])) }
{
    let mut parts = Terms::new(alloc);
    parts.push(SourceShape::term(alloc, source)?)?;
    parts.push(CountShape::term(alloc, size)?)?;
    parts.push(SourceShape::term(alloc, tag)?)?;
    list(alloc, parts)
}

// A test whose operands stand in a list.
fn listed_form(alloc: Global, label: &u32, name: TestName, operands: Term) -> Result<Term, NoMemory>
    ensures { IfOk result (λ t. t.node ≡ formed (word_text word.Test)
        (tree.Atom (test_text name) ∷ label_tree label.now ∷ operands.node ∷ [])) }
{
    let mut parts = form(alloc, Word::Test)?;
    parts.push(test_term(alloc, name)?)?;
    parts.push(LabelShape::term(alloc, label)?)?;
    parts.push(operands)?;
    Ok(tuple(parts))
}

fn test_form(alloc: Global, label: &u32, test: &Test) -> Result<Term, NoMemory>
    ensures { IfOk result (λ t. t.node ≡ formed (word_text word.Test)
        (test_trees label.now test.now)) }
{
    match test {
        Test::Type(which, s) => {
            let operands = list_of_one::<SourceShape>(alloc, s)?;
            listed_form(alloc, label, TestName::Type(*which), operands)
        }
        Test::Compare(which, s, t) => {
            let operands = list_of_two::<SourceShape, SourceShape>(alloc, s, t)?;
            listed_form(alloc, label, TestName::Compare(*which), operands)
        }
        Test::Function2(s, arity) => {
            let operands = list_of_two::<SourceShape, SourceShape>(alloc, s, arity)?;
            listed_form(alloc, label, TestName::Function2, operands)
        }
        Test::Arity(s, n) => {
            let operands = list_of_two::<SourceShape, CountShape>(alloc, s, n)?;
            listed_form(alloc, label, TestName::Arity, operands)
        }
        Test::TaggedTuple(s, n, tag) => {
            let operands = list_of_tagged(alloc, s, n, tag)?;
            listed_form(alloc, label, TestName::TaggedTuple, operands)
        }
        Test::HasMapFields(s, keys) => {
            spell_four::<TestShape, LabelShape, SourceShape, Listed<SourceShape>>(
                alloc,
                Word::Test,
                &TestName::HasMapFields,
                label,
                s,
                keys,
            )
        }
    }
}
