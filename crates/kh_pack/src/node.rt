//! The packed bytes of a term, part by part.
ghost use Rattle.std.specs.Prelude.{◌≡◌, ◌<◌, ◌^◌, ◌++◌, ◌∷◌, [], OnOk, map, max};
ghost use Rattle.kh_term.specs.Packed.{packed_of, all_packed_of, pairs_packed_of, short_text};
ghost use Rattle.kh_term.specs.Size.{width_of, greatest};
ghost use Rattle.kh_term.specs.WellFormed.{IsTerm, AreTerms, ArePairs};

use crate::pieces::{push_head, push_integer, push_short};
use crate::tags::{ATOM, BINARY, CLOSURE, INTEGER, LIST, MAP, NIL, TUPLE};
use kh_term::{NoMemory, Origin, TermTree, push_byte, push_bytes};

// Adds a tag, where a function was written, its arity, and the number of captured values.
fn push_origin(out: &mut Vec<u8>, origin: &Origin, captured: usize) -> Result<(), NoMemory>
    requires { captured < 256 }
    ensures { OnOk result (out.new.items ≡ out.old.items
        ++ 8 ∷ (short_text origin.now.module
        ++ (short_text origin.now.name ++ (origin.now.arity ∷ captured ∷ [])))) }
{
    push_byte(out, CLOSURE)?;
    push_short(out, origin.module.as_slice())?;
    push_short(out, origin.name.as_slice())?;
    push_byte(out, origin.arity)?;
    push_byte(out, captured as u8)
}

// Adds terms, one after another.
#[cycle(node)]
fn push_parts(out: &mut Vec<u8>, parts: &[TermTree]) -> Result<(), NoMemory>
    requires fit { AreTerms parts.now }
    requires narrow { greatest (map width_of parts.now) < 2 ^ 32 }
    ensures { OnOk result (out.new.items ≡ out.old.items ++ all_packed_of parts.now) }
{
    for part in parts {
        push_node(out, part)?;
    }
    Ok(())
}

// Adds the keys and values of a map, one after another.
#[cycle(node)]
fn push_pairs(out: &mut Vec<u8>, pairs: &[(TermTree, TermTree)]) -> Result<(), NoMemory>
    requires fit { ArePairs pairs.now }
    requires narrow { greatest (map (λ p. max (width_of p.0) (width_of p.1)) pairs.now) < 2 ^ 32 }
    ensures { OnOk result (out.new.items ≡ out.old.items ++ pairs_packed_of pairs.now) }
{
    for pair in pairs {
        push_node(out, &pair.0)?;
        push_node(out, &pair.1)?;
    }
    Ok(())
}

// Adds a term.
#[cycle(node)]
pub fn push_node(out: &mut Vec<u8>, node: &TermTree) -> Result<(), NoMemory>
    requires fits { IsTerm node.now }
    requires narrow { width_of node.now < 2 ^ 32 }
    ensures { OnOk result (out.new.items ≡ out.old.items ++ packed_of node.now) }
{
    match node {
        TermTree::Int(number) => {
            push_byte(out, INTEGER)?;
            push_integer(out, *number)
        }
        TermTree::Atom(text) => {
            push_byte(out, ATOM)?;
            push_short(out, text.as_slice())
        }
        TermTree::Bin(bytes) => {
            push_head(out, BINARY, bytes.as_slice().len())?;
            push_bytes(out, bytes.as_slice())
        }
        TermTree::Nil => push_byte(out, NIL),
        TermTree::List(parts, tail) => {
            push_head(out, LIST, parts.len())?;
            push_parts(out, parts.as_slice())?;
            push_node(out, tail.get())
        }
        TermTree::Tuple(parts) => {
            push_head(out, TUPLE, parts.len())?;
            push_parts(out, parts.as_slice())
        }
        TermTree::Map(pairs) => {
            push_head(out, MAP, pairs.len())?;
            push_pairs(out, pairs.as_slice())
        }
        TermTree::Closure(origin, env) => {
            push_origin(out, origin, env.len())?;
            push_parts(out, env.as_slice())
        }
    }
}
