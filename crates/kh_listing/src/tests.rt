// Listings and the number of their first form at fault.
use crate::{ListingError, read_listing};
use kh_term::{Atom, NoMemory, Term, Terms, atom, int, list, tuple};
use std::alloc::Global;
use std::test::Fail;

fn word(alloc: Global, text: &[u8]) -> Result<Term, NoMemory> {
    match Atom::new(Vec::from_slice(alloc, text)?) {
        Some(text) => Ok(atom(text)),
        None => Err(NoMemory),
    }
}

fn collected(alloc: Global, terms: Vec<Term>) -> Result<Terms, NoMemory> {
    let mut parts = Terms::new(alloc);
    for term in terms {
        parts.push(term)?;
    }
    Ok(parts)
}

// The last terms, in order.
fn last(alloc: Global, stack: &mut Vec<Term>, count: usize) -> Result<Terms, NoMemory> {
    let at = stack.len().saturating_sub(count);
    collected(alloc, stack.split_off(at)?)
}

fn digit(byte: u8) -> u8 {
    byte.saturating_sub(b'0')
}

// The term of a word in reverse notation: `#2` is a number, `}2` a tuple of the two terms in front of it, `]2` a list of
// them, anything else an atom.
fn term_of(alloc: Global, stack: &mut Vec<Term>, text: &[u8]) -> Result<Term, NoMemory> {
    match text {
        [b'#', number] => Ok(int(i128::from(digit(*number)))),
        [b'}', count] => Ok(tuple(last(alloc, stack, usize::from(digit(*count)))?)),
        [b']', count] => list(alloc, last(alloc, stack, usize::from(digit(*count)))?),
        _ => word(alloc, text),
    }
}

fn push_all(alloc: Global, stack: &mut Vec<Term>, text: &str) -> Result<(), NoMemory> {
    for part in text.split_whitespace() {
        let term = term_of(alloc, stack, part.as_bytes())?;
        stack.push(term)?;
    }
    Ok(())
}

// The number of the form at fault, 0 where there is none, and how many functions were made.
fn answer(alloc: Global, stack: Vec<Term>) -> Result<(u64, usize), Fail> {
    let forms = collected(alloc, stack)?;
    if forms.len() == 0 {
        return Err(Fail::from("no form"));
    }
    match read_listing(alloc, &forms) {
        Ok(module) => Ok((0, module.functions.len())),
        Err(ListingError::BadListing(number)) => Ok((number, 0)),
        Err(ListingError::NoMemory) => Err(Fail::from("no memory")),
    }
}

const MODULE: &str = "module m }2";

const FUNCTION: &str = "module m }2 function f #0 #1 }4 label #1 }2";

// What stands in front and behind, the number of the form at fault, and how many functions are made.
const LISTINGS: [(&str, &str, u64, usize); 19] = [
    ("line", MODULE, 1, 0),
    (MODULE, "", 0, 0),
    (MODULE, "#1", 2, 0),
    (MODULE, "return", 2, 0),
    (MODULE, "exports }1", 2, 0),
    (MODULE, "exports ]0 }2 line exports ]0 }2", 4, 0),
    (FUNCTION, "line line #1 }2 module", 0, 1),
    (FUNCTION, "exports f #0 }2 ]1 }2", 4, 0),
    (FUNCTION, "label #1 }2", 4, 0),
    (FUNCTION, "jump f #9 }2 }2", 4, 0),
    (FUNCTION, "jump f #1 }2 }2 call #0 f #1 }2 }3", 0, 1),
    (
        FUNCTION,
        "call #1 f #2 }2 }3 function f #1 #2 }4 label #2 }2",
        0,
        2,
    ),
    (
        FUNCTION,
        "call #1 f #2 }2 }3 function g #0 #2 }4 label #2 }2",
        4,
        0,
    ),
    (
        FUNCTION,
        "call #0 f #2 }2 }3 function f #0 #2 }4 label #2 }2",
        5,
        0,
    ),
    (
        FUNCTION,
        "make_fun3 f #1 }2 #0 #0 x #0 }2 list nil ]1 }2 }6",
        4,
        0,
    ),
    (FUNCTION, "bif self f #0 }2 ]0 x #0 }2 }5", 0, 1),
    (FUNCTION, "bif self f #9 }2 ]0 x #0 }2 }5", 4, 0),
    (FUNCTION, "try y #0 }2 f #9 }2 }3", 4, 0),
    (
        FUNCTION,
        "call_fun2 f #9 }2 #0 x #0 }2 }4 other f #9 }2 }2",
        0,
        1,
    ),
];

#[test]
fn listings_are_judged(rt: HostRuntime) -> Result<(), Fail> {
    let alloc = rt.alloc();
    for (front, behind, number, functions) in LISTINGS {
        let mut stack = Vec::new(alloc);
        push_all(alloc, &mut stack, front)?;
        push_all(alloc, &mut stack, behind)?;
        let found = answer(alloc, stack)?;
        assert!(rt; found.0 == number);
        assert!(rt; found.1 == functions);
    }
    Ok(())
}
