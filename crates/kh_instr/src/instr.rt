//! Instructions.
use crate::operand::{Cases, Gets, Puts, Reg, Regs, Sizes, Source, Sources};
use crate::test::Test;
use kh_term::{Atom, Origin};
use sqlite_items::Items;

/// An instruction: one variant for each row of the table, its operands in the order in which they are spelled. A
/// number of arguments is a `u8`; labels, slots, counts and places are `u32`.
#[derive(Drop)]
pub enum Instr {
    /// The number of a label.
    Label(u32),
    FuncInfo(Origin),
    Move(Source, Reg),
    Swap(Reg, Reg),
    /// Arguments and the label of the function.
    Call(u8, u32),
    /// Arguments, the label of the function, and the slots of the frame.
    CallLast(u8, u32, u32),
    CallOnly(u8, u32),
    CallExt(Origin),
    /// The function, and the slots of the frame.
    CallExtLast(Origin, u32),
    CallExtOnly(Origin),
    CallFun(u8),
    CallFun2(u8, Source),
    /// Slots, and the arguments that are live.
    Allocate(u32, u32),
    Deallocate(u32),
    /// Slots that go, and slots that stay.
    Trim(u32, u32),
    /// The arguments that are live.
    TestHeap(u32),
    InitYregs(Regs),
    Return,
    /// The label where the test doesn't hold, and the test.
    Test(u32, Test),
    Jump(u32),
    /// The value, the label where none is equal, and the cases.
    SelectVal(Source, u32, Cases),
    SelectTupleArity(Source, u32, Sizes),
    GetList(Source, Reg, Reg),
    GetHd(Source, Reg),
    GetTl(Source, Reg),
    /// The tuple, and the place of the element, from 0.
    GetTupleElement(Source, u32, Reg),
    PutList(Source, Source, Reg),
    PutTuple2(Reg, Sources),
    /// The label of the function, and the captured values.
    MakeFun3(u32, Reg, Sources),
    /// A built-in of `erlang` by its name. Where it raises and the label isn't 0, it jumps there.
    Bif(Atom, u32, Sources, Reg),
    /// The same, with the arguments that are live behind the label.
    GcBif(Atom, u32, u32, Sources, Reg),
    PutMapAssoc(u32, Source, Reg, u32, Puts),
    PutMapExact(u32, Source, Reg, u32, Puts),
    GetMapElements(u32, Source, Gets),
    Badmatch(Source),
    CaseEnd(Source),
    IfEnd,
    TryCaseEnd(Source),
    /// The slot, and the label of the handler.
    Try(u32, u32),
    Catch(u32, u32),
    TryEnd(u32),
    TryCase(u32),
    CatchEnd(u32),
    /// Trace and reason: `{bif,raise,{f,0},[S,S],R}`.
    BifRaise(Source, Source, Reg),
    RawRaise,
    BuildStacktrace,
    /// Any other spelling, by its first word.
    Unsupported(Atom),
}

/// Instructions, one after another.
pub type Instrs = Items<Instr>;
