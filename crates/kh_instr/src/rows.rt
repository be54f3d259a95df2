//! The rows of the table, as they are read.
ghost use Rattle.std.specs.Prelude.{◌≡◌, IfOk, Option};
ghost use Rattle.std.specs.Option.{option_copied};
ghost use Rattle.kh_term.specs.WellFormed.{IsTerm, AreTerms};
ghost use Rattle.kh_instr.specs.declared.words.Word.TheVariants as word;
ghost use Rattle.kh_instr.specs.Rows.{row, few, is_raise, bif_made, fields_of, function2_of, test_arity_of, tagged_tuple_of, type_test_of, comparison_of, test_of, listed_test, fields_test, name_and_label, alone};

use crate::instr::Instr;
use crate::operand::{Reg, Source};
use crate::operands::{
    AnyShape, ArityShape, CountShape, FunctionShape, LabelShape, ListOf, Listed, ListedTwo,
    NameShape, OwnNumberShape, QuotedShape, RegShape, SlotShape, SourceShape, atom_of, items_of,
    label_of,
};
use crate::shapes::{Shape, both, each, five, four, one, three, two};
use crate::test::{Comparison, Test, TypeTest};
use crate::words::{TestName, Word};
use kh_term::{Atom, NoMemory, Origin, TermTree};
use sqlite_items::Items;
use std::alloc::Global;

fn read_label(alloc: Global, parts: &[TermTree]) -> Result<Option<Instr>, NoMemory>
    requires { AreTerms parts.now }
    ensures { IfOk result (λ found. found ≡ row word.Label parts.now) }
{
    match one::<OwnNumberShape>(alloc, parts)? {
        Some(number) => Ok(Some(Instr::Label(number))),
        None => Ok(None),
    }
}

fn read_func_info(alloc: Global, parts: &[TermTree]) -> Result<Option<Instr>, NoMemory>
    requires { AreTerms parts.now }
    ensures { IfOk result (λ found. found ≡ row word.FuncInfo parts.now) }
{
    match three::<QuotedShape, QuotedShape, ArityShape>(alloc, parts)? {
        Some((module, name, arity)) => Ok(Some(Instr::FuncInfo(Origin {
            module,
            name,
            arity,
        }))),
        None => Ok(None),
    }
}

fn read_move(alloc: Global, parts: &[TermTree]) -> Result<Option<Instr>, NoMemory>
    requires { AreTerms parts.now }
    ensures { IfOk result (λ found. found ≡ row word.Move parts.now) }
{
    match two::<SourceShape, RegShape>(alloc, parts)? {
        Some((source, target)) => Ok(Some(Instr::Move(source, target))),
        None => Ok(None),
    }
}

fn read_swap(alloc: Global, parts: &[TermTree]) -> Result<Option<Instr>, NoMemory>
    requires { AreTerms parts.now }
    ensures { IfOk result (λ found. found ≡ row word.Swap parts.now) }
{
    match two::<RegShape, RegShape>(alloc, parts)? {
        Some((first, second)) => Ok(Some(Instr::Swap(first, second))),
        None => Ok(None),
    }
}

fn read_call(alloc: Global, parts: &[TermTree]) -> Result<Option<Instr>, NoMemory>
    requires { AreTerms parts.now }
    ensures { IfOk result (λ found. found ≡ row word.Call parts.now) }
{
    match two::<ArityShape, LabelShape>(alloc, parts)? {
        Some((arity, label)) => Ok(Some(Instr::Call(arity, label))),
        None => Ok(None),
    }
}

fn read_call_last(alloc: Global, parts: &[TermTree]) -> Result<Option<Instr>, NoMemory>
    requires { AreTerms parts.now }
    ensures { IfOk result (λ found. found ≡ row word.CallLast parts.now) }
{
    match three::<ArityShape, LabelShape, CountShape>(alloc, parts)? {
        Some((arity, label, slots)) => Ok(Some(Instr::CallLast(arity, label, slots))),
        None => Ok(None),
    }
}

fn read_call_only(alloc: Global, parts: &[TermTree]) -> Result<Option<Instr>, NoMemory>
    requires { AreTerms parts.now }
    ensures { IfOk result (λ found. found ≡ row word.CallOnly parts.now) }
{
    match two::<ArityShape, LabelShape>(alloc, parts)? {
        Some((arity, label)) => Ok(Some(Instr::CallOnly(arity, label))),
        None => Ok(None),
    }
}

fn read_call_fun(alloc: Global, parts: &[TermTree]) -> Result<Option<Instr>, NoMemory>
    requires { AreTerms parts.now }
    ensures { IfOk result (λ found. found ≡ row word.CallFun parts.now) }
{
    match one::<ArityShape>(alloc, parts)? {
        Some(arity) => Ok(Some(Instr::CallFun(arity))),
        None => Ok(None),
    }
}

fn read_call_fun2(alloc: Global, parts: &[TermTree]) -> Result<Option<Instr>, NoMemory>
    requires { AreTerms parts.now }
    ensures { IfOk result (λ found. found ≡ row word.CallFun2 parts.now) }
{
    match three::<AnyShape, ArityShape, SourceShape>(alloc, parts)? {
        Some((_, arity, source)) => Ok(Some(Instr::CallFun2(arity, source))),
        None => Ok(None),
    }
}

fn read_allocate(alloc: Global, parts: &[TermTree]) -> Result<Option<Instr>, NoMemory>
    requires { AreTerms parts.now }
    ensures { IfOk result (λ found. found ≡ row word.Allocate parts.now) }
{
    match two::<CountShape, CountShape>(alloc, parts)? {
        Some((slots, live)) => Ok(Some(Instr::Allocate(slots, live))),
        None => Ok(None),
    }
}

fn read_allocate_heap(alloc: Global, parts: &[TermTree]) -> Result<Option<Instr>, NoMemory>
    requires { AreTerms parts.now }
    ensures { IfOk result (λ found. found ≡ row word.AllocateHeap parts.now) }
{
    match three::<CountShape, AnyShape, CountShape>(alloc, parts)? {
        Some((slots, _, live)) => Ok(Some(Instr::Allocate(slots, live))),
        None => Ok(None),
    }
}

fn read_deallocate(alloc: Global, parts: &[TermTree]) -> Result<Option<Instr>, NoMemory>
    requires { AreTerms parts.now }
    ensures { IfOk result (λ found. found ≡ row word.Deallocate parts.now) }
{
    match one::<CountShape>(alloc, parts)? {
        Some(slots) => Ok(Some(Instr::Deallocate(slots))),
        None => Ok(None),
    }
}

fn read_trim(alloc: Global, parts: &[TermTree]) -> Result<Option<Instr>, NoMemory>
    requires { AreTerms parts.now }
    ensures { IfOk result (λ found. found ≡ row word.Trim parts.now) }
{
    match two::<CountShape, CountShape>(alloc, parts)? {
        Some((slots, rest)) => Ok(Some(Instr::Trim(slots, rest))),
        None => Ok(None),
    }
}

fn read_test_heap(alloc: Global, parts: &[TermTree]) -> Result<Option<Instr>, NoMemory>
    requires { AreTerms parts.now }
    ensures { IfOk result (λ found. found ≡ row word.TestHeap parts.now) }
{
    match two::<AnyShape, CountShape>(alloc, parts)? {
        Some((_, live)) => Ok(Some(Instr::TestHeap(live))),
        None => Ok(None),
    }
}

fn read_init_yregs(alloc: Global, parts: &[TermTree]) -> Result<Option<Instr>, NoMemory>
    requires { AreTerms parts.now }
    ensures { IfOk result (λ found. found ≡ row word.InitYregs parts.now) }
{
    match one::<Listed<RegShape>>(alloc, parts)? {
        Some(regs) => Ok(Some(Instr::InitYregs(regs))),
        None => Ok(None),
    }
}

fn read_jump(alloc: Global, parts: &[TermTree]) -> Result<Option<Instr>, NoMemory>
    requires { AreTerms parts.now }
    ensures { IfOk result (λ found. found ≡ row word.Jump parts.now) }
{
    match one::<LabelShape>(alloc, parts)? {
        Some(label) => Ok(Some(Instr::Jump(label))),
        None => Ok(None),
    }
}

fn read_select_val(alloc: Global, parts: &[TermTree]) -> Result<Option<Instr>, NoMemory>
    requires { AreTerms parts.now }
    ensures { IfOk result (λ found. found ≡ row word.SelectVal parts.now) }
{
    match three::<SourceShape, LabelShape, ListedTwo<SourceShape, LabelShape>>(alloc, parts)? {
        Some((source, label, cases)) => Ok(Some(Instr::SelectVal(source, label, cases))),
        None => Ok(None),
    }
}

fn read_select_tuple_arity(alloc: Global, parts: &[TermTree]) -> Result<Option<Instr>, NoMemory>
    requires { AreTerms parts.now }
    ensures { IfOk result (λ found. found ≡ row word.SelectTupleArity parts.now) }
{
    match three::<SourceShape, LabelShape, ListedTwo<CountShape, LabelShape>>(alloc, parts)? {
        Some((source, label, sizes)) => Ok(Some(Instr::SelectTupleArity(source, label, sizes))),
        None => Ok(None),
    }
}

fn read_get_list(alloc: Global, parts: &[TermTree]) -> Result<Option<Instr>, NoMemory>
    requires { AreTerms parts.now }
    ensures { IfOk result (λ found. found ≡ row word.GetList parts.now) }
{
    match three::<SourceShape, RegShape, RegShape>(alloc, parts)? {
        Some((source, head, tail)) => Ok(Some(Instr::GetList(source, head, tail))),
        None => Ok(None),
    }
}

fn read_get_hd(alloc: Global, parts: &[TermTree]) -> Result<Option<Instr>, NoMemory>
    requires { AreTerms parts.now }
    ensures { IfOk result (λ found. found ≡ row word.GetHd parts.now) }
{
    match two::<SourceShape, RegShape>(alloc, parts)? {
        Some((source, target)) => Ok(Some(Instr::GetHd(source, target))),
        None => Ok(None),
    }
}

fn read_get_tl(alloc: Global, parts: &[TermTree]) -> Result<Option<Instr>, NoMemory>
    requires { AreTerms parts.now }
    ensures { IfOk result (λ found. found ≡ row word.GetTl parts.now) }
{
    match two::<SourceShape, RegShape>(alloc, parts)? {
        Some((source, target)) => Ok(Some(Instr::GetTl(source, target))),
        None => Ok(None),
    }
}

fn read_get_tuple_element(alloc: Global, parts: &[TermTree]) -> Result<Option<Instr>, NoMemory>
    requires { AreTerms parts.now }
    ensures { IfOk result (λ found. found ≡ row word.GetTupleElement parts.now) }
{
    match three::<SourceShape, CountShape, RegShape>(alloc, parts)? {
        Some((source, place, target)) => Ok(Some(Instr::GetTupleElement(source, place, target))),
        None => Ok(None),
    }
}

fn read_put_list(alloc: Global, parts: &[TermTree]) -> Result<Option<Instr>, NoMemory>
    requires { AreTerms parts.now }
    ensures { IfOk result (λ found. found ≡ row word.PutList parts.now) }
{
    match three::<SourceShape, SourceShape, RegShape>(alloc, parts)? {
        Some((head, tail, target)) => Ok(Some(Instr::PutList(head, tail, target))),
        None => Ok(None),
    }
}

fn read_put_tuple2(alloc: Global, parts: &[TermTree]) -> Result<Option<Instr>, NoMemory>
    requires { AreTerms parts.now }
    ensures { IfOk result (λ found. found ≡ row word.PutTuple2 parts.now) }
{
    match two::<RegShape, Listed<SourceShape>>(alloc, parts)? {
        Some((target, parts)) => Ok(Some(Instr::PutTuple2(target, parts))),
        None => Ok(None),
    }
}

fn read_make_fun3(alloc: Global, parts: &[TermTree]) -> Result<Option<Instr>, NoMemory>
    requires { AreTerms parts.now }
    ensures { IfOk result (λ found. found ≡ row word.MakeFun3 parts.now) }
{
    match five::<LabelShape, AnyShape, AnyShape, RegShape, Listed<SourceShape>>(alloc, parts)? {
        Some((label, _, _, target, captured)) => Ok(Some(Instr::MakeFun3(label, target, captured))),
        None => Ok(None),
    }
}

fn read_put_map_assoc(alloc: Global, parts: &[TermTree]) -> Result<Option<Instr>, NoMemory>
    requires { AreTerms parts.now }
    ensures { IfOk result (λ found. found ≡ row word.PutMapAssoc parts.now) }
{
    match five::<
        LabelShape,
        SourceShape,
        RegShape,
        CountShape,
        ListedTwo<SourceShape, SourceShape>,
    >(alloc, parts)?
    {
        Some((label, map, target, live, puts)) => Ok(Some(Instr::PutMapAssoc(
            label, map, target, live, puts,
        ))),
        None => Ok(None),
    }
}

fn read_put_map_exact(alloc: Global, parts: &[TermTree]) -> Result<Option<Instr>, NoMemory>
    requires { AreTerms parts.now }
    ensures { IfOk result (λ found. found ≡ row word.PutMapExact parts.now) }
{
    match five::<
        LabelShape,
        SourceShape,
        RegShape,
        CountShape,
        ListedTwo<SourceShape, SourceShape>,
    >(alloc, parts)?
    {
        Some((label, map, target, live, puts)) => Ok(Some(Instr::PutMapExact(
            label, map, target, live, puts,
        ))),
        None => Ok(None),
    }
}

fn read_get_map_elements(alloc: Global, parts: &[TermTree]) -> Result<Option<Instr>, NoMemory>
    requires { AreTerms parts.now }
    ensures { IfOk result (λ found. found ≡ row word.GetMapElements parts.now) }
{
    match three::<LabelShape, SourceShape, ListedTwo<SourceShape, RegShape>>(alloc, parts)? {
        Some((label, map, gets)) => Ok(Some(Instr::GetMapElements(label, map, gets))),
        None => Ok(None),
    }
}

fn read_badmatch(alloc: Global, parts: &[TermTree]) -> Result<Option<Instr>, NoMemory>
    requires { AreTerms parts.now }
    ensures { IfOk result (λ found. found ≡ row word.Badmatch parts.now) }
{
    match one::<SourceShape>(alloc, parts)? {
        Some(source) => Ok(Some(Instr::Badmatch(source))),
        None => Ok(None),
    }
}

fn read_case_end(alloc: Global, parts: &[TermTree]) -> Result<Option<Instr>, NoMemory>
    requires { AreTerms parts.now }
    ensures { IfOk result (λ found. found ≡ row word.CaseEnd parts.now) }
{
    match one::<SourceShape>(alloc, parts)? {
        Some(source) => Ok(Some(Instr::CaseEnd(source))),
        None => Ok(None),
    }
}

fn read_try_case_end(alloc: Global, parts: &[TermTree]) -> Result<Option<Instr>, NoMemory>
    requires { AreTerms parts.now }
    ensures { IfOk result (λ found. found ≡ row word.TryCaseEnd parts.now) }
{
    match one::<SourceShape>(alloc, parts)? {
        Some(source) => Ok(Some(Instr::TryCaseEnd(source))),
        None => Ok(None),
    }
}

fn read_try(alloc: Global, parts: &[TermTree]) -> Result<Option<Instr>, NoMemory>
    requires { AreTerms parts.now }
    ensures { IfOk result (λ found. found ≡ row word.Try parts.now) }
{
    match two::<SlotShape, LabelShape>(alloc, parts)? {
        Some((slot, label)) => Ok(Some(Instr::Try(slot, label))),
        None => Ok(None),
    }
}

fn read_catch(alloc: Global, parts: &[TermTree]) -> Result<Option<Instr>, NoMemory>
    requires { AreTerms parts.now }
    ensures { IfOk result (λ found. found ≡ row word.Catch parts.now) }
{
    match two::<SlotShape, LabelShape>(alloc, parts)? {
        Some((slot, label)) => Ok(Some(Instr::Catch(slot, label))),
        None => Ok(None),
    }
}

fn read_try_end(alloc: Global, parts: &[TermTree]) -> Result<Option<Instr>, NoMemory>
    requires { AreTerms parts.now }
    ensures { IfOk result (λ found. found ≡ row word.TryEnd parts.now) }
{
    match one::<SlotShape>(alloc, parts)? {
        Some(slot) => Ok(Some(Instr::TryEnd(slot))),
        None => Ok(None),
    }
}

fn read_try_case(alloc: Global, parts: &[TermTree]) -> Result<Option<Instr>, NoMemory>
    requires { AreTerms parts.now }
    ensures { IfOk result (λ found. found ≡ row word.TryCase parts.now) }
{
    match one::<SlotShape>(alloc, parts)? {
        Some(slot) => Ok(Some(Instr::TryCase(slot))),
        None => Ok(None),
    }
}

fn read_catch_end(alloc: Global, parts: &[TermTree]) -> Result<Option<Instr>, NoMemory>
    requires { AreTerms parts.now }
    ensures { IfOk result (λ found. found ≡ row word.CatchEnd parts.now) }
{
    match one::<SlotShape>(alloc, parts)? {
        Some(slot) => Ok(Some(Instr::CatchEnd(slot))),
        None => Ok(None),
    }
}

fn read_call_ext(alloc: Global, parts: &[TermTree]) -> Result<Option<Instr>, NoMemory>
    requires { AreTerms parts.now }
    ensures { IfOk result (λ found. found ≡ row word.CallExt parts.now) }
{
    match two::<ArityShape, FunctionShape>(alloc, parts)? {
        Some((arity, function)) => {
            if arity == function.arity {
                Ok(Some(Instr::CallExt(function)))
            } else {
                Ok(None)
            }
        }
        None => Ok(None),
    }
}

fn read_call_ext_only(alloc: Global, parts: &[TermTree]) -> Result<Option<Instr>, NoMemory>
    requires { AreTerms parts.now }
    ensures { IfOk result (λ found. found ≡ row word.CallExtOnly parts.now) }
{
    match two::<ArityShape, FunctionShape>(alloc, parts)? {
        Some((arity, function)) => {
            if arity == function.arity {
                Ok(Some(Instr::CallExtOnly(function)))
            } else {
                Ok(None)
            }
        }
        None => Ok(None),
    }
}

fn read_call_ext_last(alloc: Global, parts: &[TermTree]) -> Result<Option<Instr>, NoMemory>
    requires { AreTerms parts.now }
    ensures { IfOk result (λ found. found ≡ row word.CallExtLast parts.now) }
{
    match three::<ArityShape, FunctionShape, CountShape>(alloc, parts)? {
        Some((arity, function, slots)) => {
            if arity == function.arity {
                Ok(Some(Instr::CallExtLast(function, slots)))
            } else {
                Ok(None)
            }
        }
        None => Ok(None),
    }
}

// At most 255 arguments.
fn few(arguments: &[Source]) -> bool
    ensures { result ≡ few arguments.now }
{
    arguments.len() <= 255
}

fn is_raise(name: &Atom, label: u32) -> bool
    ensures { result ≡ is_raise name.now label }
{
    label == 0 && name.as_slice() == b"raise".as_slice()
}

// A `bif`, and the raise that is spelled as one.
fn bif_made(name: Atom, label: u32, mut arguments: Items<Source>, target: Reg) -> Instr
    ensures { result ≡ bif_made name label arguments target }
{
    if arguments.len() != 2 || !is_raise(&name, label) {
        return Instr::Bif(name, label, arguments, target);
    }
    match arguments.pop() {
        Some(reason) => match arguments.pop() {
            Some(trace) => Instr::BifRaise(trace, reason, target),
            None => unreachable!(),
        },
        None => unreachable!(),
    }
}

fn read_bif(alloc: Global, parts: &[TermTree]) -> Result<Option<Instr>, NoMemory>
    requires { AreTerms parts.now }
    ensures { IfOk result (λ found. found ≡ row word.Bif parts.now) }
{
    match four::<NameShape, LabelShape, ListOf<SourceShape>, RegShape>(alloc, parts)? {
        Some((name, label, arguments, target)) => {
            if few(arguments.as_slice()) {
                Ok(Some(bif_made(name, label, arguments, target)))
            } else {
                Ok(None)
            }
        }
        None => Ok(None),
    }
}

fn read_gc_bif(alloc: Global, parts: &[TermTree]) -> Result<Option<Instr>, NoMemory>
    requires { AreTerms parts.now }
    ensures { IfOk result (λ found. found ≡ row word.GcBif parts.now) }
{
    match five::<NameShape, LabelShape, CountShape, ListOf<SourceShape>, RegShape>(alloc, parts)? {
        Some((name, label, live, arguments, target)) => {
            if few(arguments.as_slice()) {
                Ok(Some(Instr::GcBif(name, label, live, arguments, target)))
            } else {
                Ok(None)
            }
        }
        None => Ok(None),
    }
}

// A map and keys.
fn fields_of(alloc: Global, parts: &[TermTree]) -> Result<Option<Test>, NoMemory>
    requires { AreTerms parts.now }
    ensures { IfOk result (λ found. found ≡ fields_of parts.now) }
{
    match parts {
        [] => Ok(None),
        [source, keys @ ..] => {
            let Some(source) = SourceShape::read(alloc, source)? else {
                return Ok(None);
            };
            let Some(keys) = each::<SourceShape>(alloc, keys)? else {
                return Ok(None);
            };
            Ok(Some(Test::HasMapFields(source, keys)))
        }
    }
}

fn function2_of(alloc: Global, parts: &[TermTree]) -> Result<Option<Test>, NoMemory>
    requires { AreTerms parts.now }
    ensures { IfOk result (λ found. found ≡ function2_of parts.now) }
{
    match two::<SourceShape, SourceShape>(alloc, parts)? {
        Some((source, arity)) => Ok(Some(Test::Function2(source, arity))),
        None => Ok(None),
    }
}

fn test_arity_of(alloc: Global, parts: &[TermTree]) -> Result<Option<Test>, NoMemory>
    requires { AreTerms parts.now }
    ensures { IfOk result (λ found. found ≡ test_arity_of parts.now) }
{
    match two::<SourceShape, CountShape>(alloc, parts)? {
        Some((source, size)) => Ok(Some(Test::Arity(source, size))),
        None => Ok(None),
    }
}

fn tagged_tuple_of(alloc: Global, parts: &[TermTree]) -> Result<Option<Test>, NoMemory>
    requires { AreTerms parts.now }
    ensures { IfOk result (λ found. found ≡ tagged_tuple_of parts.now) }
{
    match three::<SourceShape, CountShape, SourceShape>(alloc, parts)? {
        Some((source, size, tag)) => Ok(Some(Test::TaggedTuple(source, size, tag))),
        None => Ok(None),
    }
}

fn type_test_of(
    alloc: Global,
    which: TypeTest,
    parts: &[TermTree],
) -> Result<Option<Test>, NoMemory>
    requires { AreTerms parts.now }
    ensures { IfOk result (λ found. found ≡ type_test_of which parts.now) }
{
    match one::<SourceShape>(alloc, parts)? {
        Some(source) => Ok(Some(Test::Type(which, source))),
        None => Ok(None),
    }
}

fn comparison_of(
    alloc: Global,
    which: Comparison,
    parts: &[TermTree],
) -> Result<Option<Test>, NoMemory>
    requires { AreTerms parts.now }
    ensures { IfOk result (λ found. found ≡ comparison_of which parts.now) }
{
    match two::<SourceShape, SourceShape>(alloc, parts)? {
        Some((first, second)) => Ok(Some(Test::Compare(which, first, second))),
        None => Ok(None),
    }
}

// A test by its name, of these operands.
fn test_of(alloc: Global, name: TestName, parts: &[TermTree]) -> Result<Option<Test>, NoMemory>
    requires { AreTerms parts.now }
    ensures { IfOk result (λ found. found ≡ test_of name parts.now) }
{
    match name {
        TestName::Type(which) => type_test_of(alloc, which, parts),
        TestName::Compare(which) => comparison_of(alloc, which, parts),
        TestName::Function2 => function2_of(alloc, parts),
        TestName::Arity => test_arity_of(alloc, parts),
        TestName::TaggedTuple => tagged_tuple_of(alloc, parts),
        TestName::HasMapFields => fields_of(alloc, parts),
    }
}

// A test whose operands stand in a list.
#[tactic(auto, using(crate::proofs::Trees::items))]
fn listed_test(
    alloc: Global,
    name: TestName,
    label: u32,
    list: &TermTree,
) -> Result<Option<Instr>, NoMemory>
    requires { IsTerm list.now }
    ensures { IfOk result (λ found. found ≡ listed_test name label list.now) }
{
    let Some(parts) = items_of(list) else {
        return Ok(None);
    };
    match test_of(alloc, name, parts)? {
        Some(test) => Ok(Some(Instr::Test(label, test))),
        None => Ok(None),
    }
}

// A test for keys that stand behind the map.
fn fields_test(
    alloc: Global,
    name: TestName,
    label: u32,
    map: &TermTree,
    keys: &TermTree,
) -> Result<Option<Instr>, NoMemory>
    requires map { IsTerm map.now }
    requires keys { IsTerm keys.now }
    ensures { IfOk result (λ found. found ≡ fields_test name label map.now keys.now) }
{
    match name {
        TestName::HasMapFields => match both::<SourceShape, Listed<SourceShape>>(
            alloc, map, keys,
        )? {
            Some((source, keys)) => Ok(Some(Instr::Test(label, Test::HasMapFields(source, keys)))),
            None => Ok(None),
        },
        _ => Ok(None),
    }
}

fn read_test(alloc: Global, parts: &[TermTree]) -> Result<Option<Instr>, NoMemory>
    requires { AreTerms parts.now }
    ensures { IfOk result (λ found. found ≡ row word.Test parts.now) }
{
    match parts {
        [name, label, list] => match name_and_label(name, label) {
            Some((name, label)) => listed_test(alloc, name, label, list),
            None => Ok(None),
        },
        [name, label, map, keys] => match name_and_label(name, label) {
            Some((name, label)) => fields_test(alloc, name, label, map, keys),
            None => Ok(None),
        },
        _ => Ok(None),
    }
}

// The name of a test, and the label to which it jumps.
fn name_and_label(name: &TermTree, label: &TermTree) -> Option<(TestName, u32)>
    ensures { result ≡ name_and_label name.now label.now }
{
    let name = atom_of(name)?;
    let name = TestName::named(name.as_slice())?;
    let label = label_of(label)?;
    Some((name, label))
}

/// What the operands behind a word make, where they are as its row says.
pub fn read_row(alloc: Global, word: Word, parts: &[TermTree]) -> Result<Option<Instr>, NoMemory>
    requires { AreTerms parts.now }
    ensures { IfOk result (λ found. found ≡ row word parts.now) }
{
    match word {
        Word::Label => read_label(alloc, parts),
        Word::FuncInfo => read_func_info(alloc, parts),
        Word::Move => read_move(alloc, parts),
        Word::Swap => read_swap(alloc, parts),
        Word::Call => read_call(alloc, parts),
        Word::CallLast => read_call_last(alloc, parts),
        Word::CallOnly => read_call_only(alloc, parts),
        Word::CallExt => read_call_ext(alloc, parts),
        Word::CallExtLast => read_call_ext_last(alloc, parts),
        Word::CallExtOnly => read_call_ext_only(alloc, parts),
        Word::CallFun => read_call_fun(alloc, parts),
        Word::CallFun2 => read_call_fun2(alloc, parts),
        Word::Allocate => read_allocate(alloc, parts),
        Word::AllocateHeap => read_allocate_heap(alloc, parts),
        Word::Deallocate => read_deallocate(alloc, parts),
        Word::Trim => read_trim(alloc, parts),
        Word::TestHeap => read_test_heap(alloc, parts),
        Word::InitYregs => read_init_yregs(alloc, parts),
        Word::Test => read_test(alloc, parts),
        Word::Jump => read_jump(alloc, parts),
        Word::SelectVal => read_select_val(alloc, parts),
        Word::SelectTupleArity => read_select_tuple_arity(alloc, parts),
        Word::GetList => read_get_list(alloc, parts),
        Word::GetHd => read_get_hd(alloc, parts),
        Word::GetTl => read_get_tl(alloc, parts),
        Word::GetTupleElement => read_get_tuple_element(alloc, parts),
        Word::PutList => read_put_list(alloc, parts),
        Word::PutTuple2 => read_put_tuple2(alloc, parts),
        Word::MakeFun3 => read_make_fun3(alloc, parts),
        Word::Bif => read_bif(alloc, parts),
        Word::GcBif => read_gc_bif(alloc, parts),
        Word::PutMapAssoc => read_put_map_assoc(alloc, parts),
        Word::PutMapExact => read_put_map_exact(alloc, parts),
        Word::GetMapElements => read_get_map_elements(alloc, parts),
        Word::Badmatch => read_badmatch(alloc, parts),
        Word::CaseEnd => read_case_end(alloc, parts),
        Word::TryCaseEnd => read_try_case_end(alloc, parts),
        Word::Try => read_try(alloc, parts),
        Word::Catch => read_catch(alloc, parts),
        Word::TryEnd => read_try_end(alloc, parts),
        Word::TryCase => read_try_case(alloc, parts),
        Word::CatchEnd => read_catch_end(alloc, parts),
        Word::Return | Word::IfEnd | Word::RawRaise | Word::BuildStacktrace => Ok(None),
    }
}

/// What a word by itself is.
pub fn read_alone(word: Word) -> Option<Instr>
    ensures { result ≡ alone word }
{
    match word {
        Word::Return => Some(Instr::Return),
        Word::IfEnd => Some(Instr::IfEnd),
        Word::RawRaise => Some(Instr::RawRaise),
        Word::BuildStacktrace => Some(Instr::BuildStacktrace),
        _ => None,
    }
}
