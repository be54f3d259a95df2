//! Forms of a listing.
use kh_instr::{Exports, Instr};
use kh_term::Atom;

/// A function's name, its number of arguments, and the number of the label at which it begins.
#[derive(Drop)]
pub struct Header {
    pub name: Atom,
    pub arity: u8,
    pub entry: u32,
}

/// What a form of a listing is. A form that begins with the word of another kind and isn't so formed is `NoForm`, but for a
/// function's.
#[derive(Drop)]
pub enum Form {
    /// `{module,M}`
    Module(Atom),
    /// `{exports,[{F,A},..]}`
    Exports(Exports),
    /// `{attributes,_}`
    Attributes,
    /// `{labels,_}`
    Labels,
    /// `{function,F,A,Entry}`
    Function(Header),
    /// A tuple that begins with `function` and isn't so formed. It ends the function before it all the same.
    NoFunction,
    /// `line` and `'%'`: passed over.
    Skipped,
    /// An instruction, also an unsupported one.
    Instr(Instr),
    /// Anything else.
    NoForm,
}
