//! Built-ins and services, and the tables by which they are found.
ghost use Rattle.std.specs.Prelude.{◌≡◌, map};
ghost use Rattle.kh_instr.specs.Tables.{is_same_function, item_named, seen_row, builtin_named, service_named};

use kh_term::Origin;

/// The built-ins. Those of `erlang` have their own name, the others begin with their module.
#[derive(Clone, Copy, Debug, PartialEq, Eq)]
pub enum Builtin {
    Add,
    Subtract,
    Multiply,
    Div,
    Rem,
    Band,
    Bor,
    Bxor,
    Bsl,
    Bsr,
    Plus,
    Negate,
    Bnot,
    Abs,
    EqExact,
    NeExact,
    Eq,
    Ne,
    Lt,
    Gt,
    Le,
    Ge,
    Min,
    Max,
    And,
    Or,
    Xor,
    Not,
    IsInteger,
    IsNumber,
    IsAtom,
    IsBoolean,
    IsList,
    IsBinary,
    IsTuple,
    IsMap,
    IsFunction,
    IsFunction2,
    Hd,
    Tl,
    TupleSize,
    MapSize,
    ByteSize,
    Element,
    Length,
    MapGet,
    MapsGet,
    IsMapKey,
    MapsIsKey,
    MapsFind,
    MapsPut,
    MapsRemove,
    MapsKeys,
    MapsValues,
    MapsToList,
    MapsMerge,
    MapsFromList,
    Append,
    ListsReverse,
    ListsReverseOnto,
    ListsMember,
    ListsKeyfind,
    Setelement,
    TupleToList,
    ListToTuple,
    AtomToBinary,
    IntegerToBinary,
    BinaryToList,
    IolistToBinary,
    BinaryToInteger,
    Error,
    Exit,
    Throw,
}

/// The services of a transaction. `With` is the form that takes options.
#[derive(Clone, Copy, Debug, PartialEq, Eq)]
pub enum Service {
    Get,
    GetMany,
    Exists,
    Count,
    Put,
    PutWith,
    Create,
    CreateWith,
    Update,
    UpdateWith,
    CompareAndSwap,
    CompareAndSwapWith,
    PutMany,
    PutManyWith,
    Delete,
    DeleteMany,
    Abort,
    IsTransaction,
}

/// A row of a table: what the function of this module, name and arity is.
#[derive(Clone, Copy)]
pub struct Row<T: Copy> {
    pub item: T,
    pub module: &'static [u8],
    pub name: &'static [u8],
    pub arity: u8,
}

/// The table of the built-ins.
pub const BUILTINS: [Row<Builtin>; 73] = [
    Row {
        item: Builtin::Add,
        module: b"erlang",
        name: b"+",
        arity: 2,
    },
    Row {
        item: Builtin::Subtract,
        module: b"erlang",
        name: b"-",
        arity: 2,
    },
    Row {
        item: Builtin::Multiply,
        module: b"erlang",
        name: b"*",
        arity: 2,
    },
    Row {
        item: Builtin::Div,
        module: b"erlang",
        name: b"div",
        arity: 2,
    },
    Row {
        item: Builtin::Rem,
        module: b"erlang",
        name: b"rem",
        arity: 2,
    },
    Row {
        item: Builtin::Band,
        module: b"erlang",
        name: b"band",
        arity: 2,
    },
    Row {
        item: Builtin::Bor,
        module: b"erlang",
        name: b"bor",
        arity: 2,
    },
    Row {
        item: Builtin::Bxor,
        module: b"erlang",
        name: b"bxor",
        arity: 2,
    },
    Row {
        item: Builtin::Bsl,
        module: b"erlang",
        name: b"bsl",
        arity: 2,
    },
    Row {
        item: Builtin::Bsr,
        module: b"erlang",
        name: b"bsr",
        arity: 2,
    },
    Row {
        item: Builtin::Plus,
        module: b"erlang",
        name: b"+",
        arity: 1,
    },
    Row {
        item: Builtin::Negate,
        module: b"erlang",
        name: b"-",
        arity: 1,
    },
    Row {
        item: Builtin::Bnot,
        module: b"erlang",
        name: b"bnot",
        arity: 1,
    },
    Row {
        item: Builtin::Abs,
        module: b"erlang",
        name: b"abs",
        arity: 1,
    },
    Row {
        item: Builtin::EqExact,
        module: b"erlang",
        name: b"=:=",
        arity: 2,
    },
    Row {
        item: Builtin::NeExact,
        module: b"erlang",
        name: b"=/=",
        arity: 2,
    },
    Row {
        item: Builtin::Eq,
        module: b"erlang",
        name: b"==",
        arity: 2,
    },
    Row {
        item: Builtin::Ne,
        module: b"erlang",
        name: b"/=",
        arity: 2,
    },
    Row {
        item: Builtin::Lt,
        module: b"erlang",
        name: b"<",
        arity: 2,
    },
    Row {
        item: Builtin::Gt,
        module: b"erlang",
        name: b">",
        arity: 2,
    },
    Row {
        item: Builtin::Le,
        module: b"erlang",
        name: b"=<",
        arity: 2,
    },
    Row {
        item: Builtin::Ge,
        module: b"erlang",
        name: b">=",
        arity: 2,
    },
    Row {
        item: Builtin::Min,
        module: b"erlang",
        name: b"min",
        arity: 2,
    },
    Row {
        item: Builtin::Max,
        module: b"erlang",
        name: b"max",
        arity: 2,
    },
    Row {
        item: Builtin::And,
        module: b"erlang",
        name: b"and",
        arity: 2,
    },
    Row {
        item: Builtin::Or,
        module: b"erlang",
        name: b"or",
        arity: 2,
    },
    Row {
        item: Builtin::Xor,
        module: b"erlang",
        name: b"xor",
        arity: 2,
    },
    Row {
        item: Builtin::Not,
        module: b"erlang",
        name: b"not",
        arity: 1,
    },
    Row {
        item: Builtin::IsInteger,
        module: b"erlang",
        name: b"is_integer",
        arity: 1,
    },
    Row {
        item: Builtin::IsNumber,
        module: b"erlang",
        name: b"is_number",
        arity: 1,
    },
    Row {
        item: Builtin::IsAtom,
        module: b"erlang",
        name: b"is_atom",
        arity: 1,
    },
    Row {
        item: Builtin::IsBoolean,
        module: b"erlang",
        name: b"is_boolean",
        arity: 1,
    },
    Row {
        item: Builtin::IsList,
        module: b"erlang",
        name: b"is_list",
        arity: 1,
    },
    Row {
        item: Builtin::IsBinary,
        module: b"erlang",
        name: b"is_binary",
        arity: 1,
    },
    Row {
        item: Builtin::IsTuple,
        module: b"erlang",
        name: b"is_tuple",
        arity: 1,
    },
    Row {
        item: Builtin::IsMap,
        module: b"erlang",
        name: b"is_map",
        arity: 1,
    },
    Row {
        item: Builtin::IsFunction,
        module: b"erlang",
        name: b"is_function",
        arity: 1,
    },
    Row {
        item: Builtin::IsFunction2,
        module: b"erlang",
        name: b"is_function",
        arity: 2,
    },
    Row {
        item: Builtin::Hd,
        module: b"erlang",
        name: b"hd",
        arity: 1,
    },
    Row {
        item: Builtin::Tl,
        module: b"erlang",
        name: b"tl",
        arity: 1,
    },
    Row {
        item: Builtin::TupleSize,
        module: b"erlang",
        name: b"tuple_size",
        arity: 1,
    },
    Row {
        item: Builtin::MapSize,
        module: b"erlang",
        name: b"map_size",
        arity: 1,
    },
    Row {
        item: Builtin::ByteSize,
        module: b"erlang",
        name: b"byte_size",
        arity: 1,
    },
    Row {
        item: Builtin::Element,
        module: b"erlang",
        name: b"element",
        arity: 2,
    },
    Row {
        item: Builtin::Length,
        module: b"erlang",
        name: b"length",
        arity: 1,
    },
    Row {
        item: Builtin::MapGet,
        module: b"erlang",
        name: b"map_get",
        arity: 2,
    },
    Row {
        item: Builtin::MapsGet,
        module: b"maps",
        name: b"get",
        arity: 2,
    },
    Row {
        item: Builtin::IsMapKey,
        module: b"erlang",
        name: b"is_map_key",
        arity: 2,
    },
    Row {
        item: Builtin::MapsIsKey,
        module: b"maps",
        name: b"is_key",
        arity: 2,
    },
    Row {
        item: Builtin::MapsFind,
        module: b"maps",
        name: b"find",
        arity: 2,
    },
    Row {
        item: Builtin::MapsPut,
        module: b"maps",
        name: b"put",
        arity: 3,
    },
    Row {
        item: Builtin::MapsRemove,
        module: b"maps",
        name: b"remove",
        arity: 2,
    },
    Row {
        item: Builtin::MapsKeys,
        module: b"maps",
        name: b"keys",
        arity: 1,
    },
    Row {
        item: Builtin::MapsValues,
        module: b"maps",
        name: b"values",
        arity: 1,
    },
    Row {
        item: Builtin::MapsToList,
        module: b"maps",
        name: b"to_list",
        arity: 1,
    },
    Row {
        item: Builtin::MapsMerge,
        module: b"maps",
        name: b"merge",
        arity: 2,
    },
    Row {
        item: Builtin::MapsFromList,
        module: b"maps",
        name: b"from_list",
        arity: 1,
    },
    Row {
        item: Builtin::Append,
        module: b"erlang",
        name: b"++",
        arity: 2,
    },
    Row {
        item: Builtin::ListsReverse,
        module: b"lists",
        name: b"reverse",
        arity: 1,
    },
    Row {
        item: Builtin::ListsReverseOnto,
        module: b"lists",
        name: b"reverse",
        arity: 2,
    },
    Row {
        item: Builtin::ListsMember,
        module: b"lists",
        name: b"member",
        arity: 2,
    },
    Row {
        item: Builtin::ListsKeyfind,
        module: b"lists",
        name: b"keyfind",
        arity: 3,
    },
    Row {
        item: Builtin::Setelement,
        module: b"erlang",
        name: b"setelement",
        arity: 3,
    },
    Row {
        item: Builtin::TupleToList,
        module: b"erlang",
        name: b"tuple_to_list",
        arity: 1,
    },
    Row {
        item: Builtin::ListToTuple,
        module: b"erlang",
        name: b"list_to_tuple",
        arity: 1,
    },
    Row {
        item: Builtin::AtomToBinary,
        module: b"erlang",
        name: b"atom_to_binary",
        arity: 1,
    },
    Row {
        item: Builtin::IntegerToBinary,
        module: b"erlang",
        name: b"integer_to_binary",
        arity: 1,
    },
    Row {
        item: Builtin::BinaryToList,
        module: b"erlang",
        name: b"binary_to_list",
        arity: 1,
    },
    Row {
        item: Builtin::IolistToBinary,
        module: b"erlang",
        name: b"iolist_to_binary",
        arity: 1,
    },
    Row {
        item: Builtin::BinaryToInteger,
        module: b"erlang",
        name: b"binary_to_integer",
        arity: 1,
    },
    Row {
        item: Builtin::Error,
        module: b"erlang",
        name: b"error",
        arity: 1,
    },
    Row {
        item: Builtin::Exit,
        module: b"erlang",
        name: b"exit",
        arity: 1,
    },
    Row {
        item: Builtin::Throw,
        module: b"erlang",
        name: b"throw",
        arity: 1,
    },
];

/// The table of the services.
pub const SERVICES: [Row<Service>; 18] = [
    Row {
        item: Service::Get,
        module: b"khepri_tx",
        name: b"get",
        arity: 1,
    },
    Row {
        item: Service::GetMany,
        module: b"khepri_tx",
        name: b"get_many",
        arity: 1,
    },
    Row {
        item: Service::Exists,
        module: b"khepri_tx",
        name: b"exists",
        arity: 1,
    },
    Row {
        item: Service::Count,
        module: b"khepri_tx",
        name: b"count",
        arity: 1,
    },
    Row {
        item: Service::Put,
        module: b"khepri_tx",
        name: b"put",
        arity: 2,
    },
    Row {
        item: Service::PutWith,
        module: b"khepri_tx",
        name: b"put",
        arity: 3,
    },
    Row {
        item: Service::Create,
        module: b"khepri_tx",
        name: b"create",
        arity: 2,
    },
    Row {
        item: Service::CreateWith,
        module: b"khepri_tx",
        name: b"create",
        arity: 3,
    },
    Row {
        item: Service::Update,
        module: b"khepri_tx",
        name: b"update",
        arity: 2,
    },
    Row {
        item: Service::UpdateWith,
        module: b"khepri_tx",
        name: b"update",
        arity: 3,
    },
    Row {
        item: Service::CompareAndSwap,
        module: b"khepri_tx",
        name: b"compare_and_swap",
        arity: 3,
    },
    Row {
        item: Service::CompareAndSwapWith,
        module: b"khepri_tx",
        name: b"compare_and_swap",
        arity: 4,
    },
    Row {
        item: Service::PutMany,
        module: b"khepri_tx",
        name: b"put_many",
        arity: 2,
    },
    Row {
        item: Service::PutManyWith,
        module: b"khepri_tx",
        name: b"put_many",
        arity: 3,
    },
    Row {
        item: Service::Delete,
        module: b"khepri_tx",
        name: b"delete",
        arity: 1,
    },
    Row {
        item: Service::DeleteMany,
        module: b"khepri_tx",
        name: b"delete_many",
        arity: 1,
    },
    Row {
        item: Service::Abort,
        module: b"khepri_tx",
        name: b"abort",
        arity: 1,
    },
    Row {
        item: Service::IsTransaction,
        module: b"khepri_tx",
        name: b"is_transaction",
        arity: 0,
    },
];

/// The built-in that a function is, if it is one.
pub fn builtin_of(function: &Origin) -> Option<Builtin>
    ensures { result ≡ builtin_named function.now }
{
    item_of(&BUILTINS, function)
}

/// The service that a function is, if it is one.
pub fn service_of(function: &Origin) -> Option<Service>
    ensures { result ≡ service_named function.now }
{
    item_of(&SERVICES, function)
}

// What the first row of a function says that it is.
fn item_of<T: Copy>(rows: &[Row<T>], function: &Origin) -> Option<T>
    ensures { result ≡ item_named (map seen_row rows.now) function.now }
{
    for row in rows {
        if is_row(row, function) {
            return Some(row.item);
        }
    }
    None
}

fn is_row<T: Copy>(row: &Row<T>, function: &Origin) -> bool
    ensures { result ≡ is_same_function (seen_row row.now).1 function.now }
{
    row.arity == function.arity
        && row.module == function.module.as_slice()
        && row.name == function.name.as_slice()
}
