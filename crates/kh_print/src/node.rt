//! The text of a term, part by part.
ghost use Rattle.std.specs.Prelude.{◌≡◌, ◌++◌, ◌∷◌, [], OnOk, map, decimal, codes};
ghost use Rattle.std.specs.Fmt.{signed_decimal};
ghost use Rattle.kh_text_defs.specs.Shown.{shown, shown_atom, with_commas};
ghost use Rattle.kh_print.specs.Parts.{shown_origin, shown_pair, shown_tail_of};

use crate::atom::push_atom;
use crate::binary::push_binary;
use crate::pieces::{push_decimal, push_separator};
use itoa::Buffer;
use kh_term::{NoMemory, Origin, TermTree, push_byte, push_bytes};

// Adds an integer.
fn push_integer(out: &mut Vec<u8>, number: i128) -> Result<(), NoMemory>
    ensures { OnOk result (out.new.items ≡ out.old.items ++ signed_decimal number) }
{
    let mut buffer = Buffer::new();
    push_bytes(out, buffer.format(number).as_bytes())
}

// Adds where a function was written, and the comma after it.
fn push_origin(out: &mut Vec<u8>, origin: &Origin) -> Result<(), NoMemory>
    ensures { OnOk result (out.new.items ≡ out.old.items ++ shown_origin origin.now) }
{
    push_atom(out, origin.module.as_slice())?;
    push_byte(out, b',')?;
    push_atom(out, origin.name.as_slice())?;
    push_byte(out, b',')?;
    push_decimal(out, origin.arity)?;
    push_byte(out, b',')
}

// Adds a bar and the tail of a list, nothing for nil.
#[cycle(node)]
fn push_tail(out: &mut Vec<u8>, tail: &TermTree) -> Result<(), NoMemory>
    ensures { OnOk result (out.new.items ≡ out.old.items ++ shown_tail_of tail.now) }
{
    match tail {
        TermTree::Nil => Ok(()),
        _ => {
            push_byte(out, b'|')?;
            push_node(out, tail)
        }
    }
}

// Adds terms, with commas between them.
#[cycle(node)]
fn push_parts(out: &mut Vec<u8>, parts: &[TermTree]) -> Result<(), NoMemory>
    ensures { OnOk result (out.new.items ≡ out.old.items ++ with_commas (map shown parts.now)) }
{
    let mut first = true;
    for part in parts {
        push_separator(out, first)?;
        push_node(out, part)?;
        first = false;
    }
    Ok(())
}

// Adds the keys and values of a map, with commas between the pairs.
#[cycle(node)]
fn push_pairs(out: &mut Vec<u8>, pairs: &[(TermTree, TermTree)]) -> Result<(), NoMemory>
    ensures { OnOk result
        (out.new.items ≡ out.old.items ++ with_commas (map shown_pair pairs.now)) }
{
    let mut first = true;
    for pair in pairs {
        push_separator(out, first)?;
        push_node(out, &pair.0)?;
        push_bytes(out, b" => ")?;
        push_node(out, &pair.1)?;
        first = false;
    }
    Ok(())
}

// Adds a term.
#[cycle(node)]
#[tactic(auto, using(crate::proofs::Layers::layers))]
pub fn push_node(out: &mut Vec<u8>, node: &TermTree) -> Result<(), NoMemory>
    ensures { OnOk result (out.new.items ≡ out.old.items ++ shown node.now) }
{
    match node {
        TermTree::Int(number) => push_integer(out, *number),
        TermTree::Atom(atom) => push_atom(out, atom.as_slice()),
        TermTree::Bin(bytes) => push_binary(out, bytes.as_slice()),
        TermTree::Nil => push_bytes(out, b"[]"),
        TermTree::List(parts, tail) => {
            push_byte(out, b'[')?;
            push_parts(out, parts.as_slice())?;
            push_tail(out, tail.get())?;
            push_byte(out, b']')
        }
        TermTree::Tuple(parts) => {
            push_byte(out, b'{')?;
            push_parts(out, parts.as_slice())?;
            push_byte(out, b'}')
        }
        TermTree::Map(pairs) => {
            push_bytes(out, b"#{")?;
            push_pairs(out, pairs.as_slice())?;
            push_byte(out, b'}')
        }
        TermTree::Closure(origin, env) => {
            push_bytes(out, b"#fun{")?;
            push_origin(out, origin)?;
            push_byte(out, b'[')?;
            push_parts(out, env.as_slice())?;
            push_bytes(out, b"]}")
        }
    }
}
