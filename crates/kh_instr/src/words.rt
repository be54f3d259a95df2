//! The words of the table.
ghost use Rattle.std.specs.Prelude.{◌≡◌, ℕ, List, find};
ghost use Rattle.std.specs.Str.{bytes_eq};
ghost use Rattle.kh_instr.specs.Words.{word_text, test_text, word_named, test_named};
ghost use Rattle.kh_instr.specs.declared.words.TestName.TheVariants as test_name;

use crate::test::{Comparison, TypeTest};

/// What is spelled by one word.
pub trait Spelled: Copy {
    ghost spelling: { Self → List ℕ };

    /// How it is spelled.
    fn text(self) -> &'static [u8]
        ensures { result.now ≡ spelling self };
}

// The first that is spelled so.
fn named<T: Spelled>(all: &[T], text: &[u8]) -> Option<T>
    ensures { result ≡ find (λ one. bytes_eq (T.spelling one) text.now) all.now }
{
    for one in all {
        if one.text() == text {
            return Some(*one);
        }
    }
    None
}

/// The first words of the listed instructions.
#[derive(Clone, Copy, Debug, PartialEq, Eq)]
pub enum Word {
    Label,
    FuncInfo,
    Move,
    Swap,
    Call,
    CallLast,
    CallOnly,
    CallExt,
    CallExtLast,
    CallExtOnly,
    CallFun,
    CallFun2,
    Allocate,
    AllocateHeap,
    Deallocate,
    Trim,
    TestHeap,
    InitYregs,
    Return,
    Test,
    Jump,
    SelectVal,
    SelectTupleArity,
    GetList,
    GetHd,
    GetTl,
    GetTupleElement,
    PutList,
    PutTuple2,
    MakeFun3,
    Bif,
    GcBif,
    PutMapAssoc,
    PutMapExact,
    GetMapElements,
    Badmatch,
    CaseEnd,
    IfEnd,
    TryCaseEnd,
    Try,
    Catch,
    TryEnd,
    TryCase,
    CatchEnd,
    RawRaise,
    BuildStacktrace,
}

const WORDS: [Word; 46] = [
    Word::Label,
    Word::FuncInfo,
    Word::Move,
    Word::Swap,
    Word::Call,
    Word::CallLast,
    Word::CallOnly,
    Word::CallExt,
    Word::CallExtLast,
    Word::CallExtOnly,
    Word::CallFun,
    Word::CallFun2,
    Word::Allocate,
    Word::AllocateHeap,
    Word::Deallocate,
    Word::Trim,
    Word::TestHeap,
    Word::InitYregs,
    Word::Return,
    Word::Test,
    Word::Jump,
    Word::SelectVal,
    Word::SelectTupleArity,
    Word::GetList,
    Word::GetHd,
    Word::GetTl,
    Word::GetTupleElement,
    Word::PutList,
    Word::PutTuple2,
    Word::MakeFun3,
    Word::Bif,
    Word::GcBif,
    Word::PutMapAssoc,
    Word::PutMapExact,
    Word::GetMapElements,
    Word::Badmatch,
    Word::CaseEnd,
    Word::IfEnd,
    Word::TryCaseEnd,
    Word::Try,
    Word::Catch,
    Word::TryEnd,
    Word::TryCase,
    Word::CatchEnd,
    Word::RawRaise,
    Word::BuildStacktrace,
];

impl Spelled for Word {
    ghost spelling = { word_text };

    fn text(self) -> &'static [u8] {
        match self {
            Word::Label => b"label",
            Word::FuncInfo => b"func_info",
            Word::Move => b"move",
            Word::Swap => b"swap",
            Word::Call => b"call",
            Word::CallLast => b"call_last",
            Word::CallOnly => b"call_only",
            Word::CallExt => b"call_ext",
            Word::CallExtLast => b"call_ext_last",
            Word::CallExtOnly => b"call_ext_only",
            Word::CallFun => b"call_fun",
            Word::CallFun2 => b"call_fun2",
            Word::Allocate => b"allocate",
            Word::AllocateHeap => b"allocate_heap",
            Word::Deallocate => b"deallocate",
            Word::Trim => b"trim",
            Word::TestHeap => b"test_heap",
            Word::InitYregs => b"init_yregs",
            Word::Return => b"return",
            Word::Test => b"test",
            Word::Jump => b"jump",
            Word::SelectVal => b"select_val",
            Word::SelectTupleArity => b"select_tuple_arity",
            Word::GetList => b"get_list",
            Word::GetHd => b"get_hd",
            Word::GetTl => b"get_tl",
            Word::GetTupleElement => b"get_tuple_element",
            Word::PutList => b"put_list",
            Word::PutTuple2 => b"put_tuple2",
            Word::MakeFun3 => b"make_fun3",
            Word::Bif => b"bif",
            Word::GcBif => b"gc_bif",
            Word::PutMapAssoc => b"put_map_assoc",
            Word::PutMapExact => b"put_map_exact",
            Word::GetMapElements => b"get_map_elements",
            Word::Badmatch => b"badmatch",
            Word::CaseEnd => b"case_end",
            Word::IfEnd => b"if_end",
            Word::TryCaseEnd => b"try_case_end",
            Word::Try => b"try",
            Word::Catch => b"catch",
            Word::TryEnd => b"try_end",
            Word::TryCase => b"try_case",
            Word::CatchEnd => b"catch_end",
            Word::RawRaise => b"raw_raise",
            Word::BuildStacktrace => b"build_stacktrace",
        }
    }
}

impl Word {
    /// What is spelled so, if there is one.
    pub fn named(text: &[u8]) -> Option<Word>
        ensures { result ≡ word_named text.now }
    {
        named(&WORDS, text)
    }
}

/// The names of the tests.
#[derive(Clone, Copy, Debug, PartialEq, Eq)]
pub enum TestName {
    Type(TypeTest),
    Compare(Comparison),
    Function2,
    Arity,
    TaggedTuple,
    HasMapFields,
}

const TESTS: [TestName; 26] = [
    TestName::Type(TypeTest::Integer),
    TestName::Type(TypeTest::Number),
    TestName::Type(TypeTest::Atom),
    TestName::Type(TypeTest::Boolean),
    TestName::Type(TypeTest::Nil),
    TestName::Type(TypeTest::List),
    TestName::Type(TypeTest::NonemptyList),
    TestName::Type(TypeTest::Binary),
    TestName::Type(TypeTest::Bitstr),
    TestName::Type(TypeTest::Tuple),
    TestName::Type(TypeTest::Map),
    TestName::Type(TypeTest::Function),
    TestName::Type(TypeTest::Float),
    TestName::Type(TypeTest::Pid),
    TestName::Type(TypeTest::Port),
    TestName::Type(TypeTest::Reference),
    TestName::Compare(Comparison::Lt),
    TestName::Compare(Comparison::Ge),
    TestName::Compare(Comparison::Eq),
    TestName::Compare(Comparison::Ne),
    TestName::Compare(Comparison::EqExact),
    TestName::Compare(Comparison::NeExact),
    TestName::Function2,
    TestName::Arity,
    TestName::TaggedTuple,
    TestName::HasMapFields,
];

impl Spelled for TypeTest {
    ghost spelling = { λ which. test_text (test_name.Type which) };

    fn text(self) -> &'static [u8] {
        match self {
            TypeTest::Integer => b"is_integer",
            TypeTest::Number => b"is_number",
            TypeTest::Atom => b"is_atom",
            TypeTest::Boolean => b"is_boolean",
            TypeTest::Nil => b"is_nil",
            TypeTest::List => b"is_list",
            TypeTest::NonemptyList => b"is_nonempty_list",
            TypeTest::Binary => b"is_binary",
            TypeTest::Bitstr => b"is_bitstr",
            TypeTest::Tuple => b"is_tuple",
            TypeTest::Map => b"is_map",
            TypeTest::Function => b"is_function",
            TypeTest::Float => b"is_float",
            TypeTest::Pid => b"is_pid",
            TypeTest::Port => b"is_port",
            TypeTest::Reference => b"is_reference",
        }
    }
}

impl Spelled for Comparison {
    ghost spelling = { λ which. test_text (test_name.Compare which) };

    fn text(self) -> &'static [u8] {
        match self {
            Comparison::Lt => b"is_lt",
            Comparison::Ge => b"is_ge",
            Comparison::Eq => b"is_eq",
            Comparison::Ne => b"is_ne",
            Comparison::EqExact => b"is_eq_exact",
            Comparison::NeExact => b"is_ne_exact",
        }
    }
}

impl Spelled for TestName {
    ghost spelling = { test_text };

    fn text(self) -> &'static [u8] {
        match self {
            TestName::Type(which) => which.text(),
            TestName::Compare(which) => which.text(),
            TestName::Function2 => b"is_function2",
            TestName::Arity => b"test_arity",
            TestName::TaggedTuple => b"is_tagged_tuple",
            TestName::HasMapFields => b"has_map_fields",
        }
    }
}

impl TestName {
    /// The test of this name, if there is one.
    pub fn named(text: &[u8]) -> Option<TestName>
        ensures { result ≡ test_named text.now }
    {
        named(&TESTS, text)
    }
}
