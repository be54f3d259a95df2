//! The order of terms by a table that was written by hand, and the calls that allocate or ask something.
ghost use Rattle.std.specs.Prelude.{◌≡◌, ◌<◌, IfOk};
ghost use Rattle.kh_term.specs.declared.tree.TermTree.TheVariants as tree;

use crate::{
    Atom, Bytes, Closure, Kind, Name, NoMemory, NodeView, Origin, Pairs, Path, Steps, Term, Terms,
    Text, Texts, atom, bin, closure, compare, copy_of, copy_of_all, copy_of_pairs, depth,
    holds_closure, int, is_large, is_small, list, list_with_tail, map, map_of_one, name_of,
    names_of, nil, origin_of, origin_term, packed_len, pair, pairs_of, path_of, path_term,
    place_of_key, size, triple, tuple, value_of_key, widest,
};
use std::alloc::Global;
use std::cmp::Ordering;
use std::collections::{BTreeMap, HashMap};
use std::marker::Brand;
use std::sync::ledger::{Blank, Ledger};
use std::test::Fail;

fn word(alloc: Global, text: &[u8]) -> Result<Atom, NoMemory> {
    match Atom::new(Vec::from_slice(alloc, text)?) {
        Some(word) => Ok(word),
        None => Err(NoMemory),
    }
}

fn bytes(alloc: Global, bytes: &[u8]) -> Result<Term, NoMemory>
    ensures { IfOk result (λ t. t.node ≡ tree.Bin bytes.now) }
{
    let bytes = Vec::from_slice(alloc, bytes)?;
    Ok(bin(Bytes::new(bytes)))
}

fn numbers(alloc: Global, all: &[i128]) -> Result<Terms, NoMemory> {
    let mut terms = Terms::new(alloc);
    for number in all {
        terms.push(int(*number))?;
    }
    Ok(terms)
}

// The captured values are left out where there are too many.
fn function(
    alloc: Global,
    module: &[u8],
    name: &[u8],
    arity: u8,
    env: &[i128],
) -> Result<Term, NoMemory> {
    let module = word(alloc, module)?;
    let name = word(alloc, name)?;
    let origin = Origin {
        module,
        name,
        arity,
    };
    let env = numbers(alloc, env)?;
    if env.len() > arity as usize {
        return Ok(nil());
    }
    Ok(closure(origin, env))
}

// A map of numbers; the pairs stand in order.
fn pairs(alloc: Global, all: &[(i128, i128)]) -> Result<Term, NoMemory> {
    let mut pairs = Pairs::new(alloc);
    for (key, value) in all {
        pairs.push(int(*key), int(*value))?;
    }
    Ok(map(pairs))
}

// A term by its parts, all of which are numbers.
#[derive(Clone, Copy)]
enum Sample {
    Int(i128),
    Atom(&'static [u8]),
    // module, name, arity and captured values
    Fun(&'static [u8], &'static [u8], u8, &'static [i128]),
    Tuple(&'static [i128]),
    Map(&'static [(i128, i128)]),
    // a list in front of another
    List(&'static [i128], &'static [i128]),
    // a list and a tail that is none
    Number(&'static [i128], i128),
    Text(&'static [i128], &'static [u8]),
    Bin(&'static [u8]),
}

fn built(alloc: Global, sample: Sample) -> Result<Term, NoMemory> {
    match sample {
        Sample::Int(number) => Ok(int(number)),
        Sample::Atom(text) => Ok(atom(word(alloc, text)?)),
        Sample::Fun(module, name, arity, env) => function(alloc, module, name, arity, env),
        Sample::Tuple(parts) => Ok(tuple(numbers(alloc, parts)?)),
        Sample::Map(all) => pairs(alloc, all),
        Sample::List(front, more) => {
            let tail = list(alloc, numbers(alloc, more)?)?;
            list_with_tail(alloc, numbers(alloc, front)?, tail)
        }
        Sample::Number(front, tail) => list_with_tail(alloc, numbers(alloc, front)?, int(tail)),
        Sample::Text(front, tail) => {
            let tail = bytes(alloc, tail)?;
            list_with_tail(alloc, numbers(alloc, front)?, tail)
        }
        Sample::Bin(text) => bytes(alloc, text),
    }
}

// Terms, each above the one before it.
const IN_ORDER: [Sample; 34] = [
    Sample::Int(-170141183460469231731687303715884105728),
    Sample::Int(-1),
    Sample::Int(0),
    Sample::Int(7),
    Sample::Atom(b""),
    Sample::Atom(b"a"),
    Sample::Atom(b"aa"),
    Sample::Atom(b"b"),
    Sample::Fun(b"m", b"f", 0, &[]),
    Sample::Fun(b"m", b"f", 2, &[]),
    Sample::Fun(b"m", b"f", 2, &[5]),
    Sample::Fun(b"m", b"f", 2, &[5, 1]),
    Sample::Fun(b"m", b"g", 0, &[]),
    Sample::Fun(b"n", b"a", 0, &[]),
    Sample::Tuple(&[]),
    Sample::Tuple(&[9]),
    Sample::Tuple(&[1, 1]),
    Sample::Tuple(&[1, 2]),
    Sample::Map(&[]),
    Sample::Map(&[(1, 9)]),
    Sample::Map(&[(2, 1)]),
    Sample::Map(&[(2, 3)]),
    Sample::Map(&[(1, 5), (2, 4)]),
    Sample::Map(&[(1, 5), (3, 0)]),
    Sample::List(&[], &[]),
    Sample::Number(&[1], 0),
    Sample::List(&[1], &[]),
    Sample::List(&[1], &[2]),
    Sample::Text(&[1], b""),
    Sample::List(&[], &[2]),
    Sample::Bin(b""),
    Sample::Bin(b"\0"),
    Sample::Bin(b"\0\0"),
    Sample::Bin(b"a"),
];

#[test]
fn terms_stand_in_order(rt: HostRuntime) -> Result<(), Fail> {
    let mut all = Vec::new(rt.alloc());
    for sample in IN_ORDER {
        all.push(built(rt.alloc(), sample)?)?;
    }
    for (i, x) in all.iter().enumerate() {
        for (j, y) in all.iter().enumerate() {
            assert_eq!(rt; compare(x, y), i.cmp(&j), "at {i} and {j}");
        }
        assert!(rt; x.copy(rt.alloc())? == *x, "at {i}");
    }
    Ok(())
}

// The path of these atoms, and of a binary behind them.
fn path(alloc: Global, names: &[&'static str]) -> Result<Path, NoMemory> {
    let mut all = Vec::new(alloc);
    for name in names {
        all.push(Name::Atom(word(alloc, name.as_bytes())?))?;
    }
    if !names.is_empty() {
        let bytes = Vec::from_slice(alloc, b"x")?;
        all.push(Name::Bin(Bytes::new(bytes)))?;
    }
    match Path::new(all) {
        Some(path) => Ok(path),
        None => Err(NoMemory),
    }
}

#[test]
fn paths_are_keys(rt: HostRuntime) -> Result<(), Fail> {
    let alloc = rt.alloc();
    let mut kept = BTreeMap::new(alloc);
    let rows: [(&[&'static str], u8); 3] = [(&["a"], 1), (&["a", "b"], 2), (&[], 3)];
    for (names, number) in rows {
        kept.insert(path(alloc, names)?, number)?;
    }
    let key = path(alloc, &["a", "b"])?;
    assert_eq!(rt; kept.get(&key).copied(), Some(2));
    for name in [".", "^", ""] {
        assert!(rt; path(alloc, &[name]).is_err(), "at {name}");
    }
    Ok(())
}

// The keys 1, 3 and 5, each with the next number.
fn odd_keys(alloc: Global) -> Result<Pairs, NoMemory> {
    let mut pairs = Pairs::new(alloc);
    for key in [1, 3, 5] {
        pairs.push(int(key), int(key + 1))?;
    }
    Ok(pairs)
}

// A copy of the value beside a key, nil where the key isn't there.
fn found(alloc: Global, pairs: &Pairs, key: i128) -> Result<Term, NoMemory> {
    match value_of_key(pairs.as_slice(), &int(key)) {
        Some(value) => copy_of(alloc, value),
        None => Ok(nil()),
    }
}

#[test]
fn keys_are_found(rt: HostRuntime) -> Result<(), Fail> {
    let alloc = rt.alloc();
    let mut pairs = odd_keys(alloc)?;
    assert_eq!(rt; pairs.push(int(5), nil())?, false);
    assert_eq!(rt; place_of_key(pairs.as_slice(), &int(3)), Ok(1));
    assert_eq!(rt; place_of_key(pairs.as_slice(), &int(4)), Err(2));
    for (key, value) in [(5, int(6)), (0, nil())] {
        assert!(rt; found(alloc, &pairs, key)? == value, "at {key}");
    }
    Ok(())
}

#[test]
fn pairs_are_copied(rt: HostRuntime) -> Result<(), Fail> {
    let pairs = odd_keys(rt.alloc())?;
    let copied = map(copy_of_pairs(rt.alloc(), pairs.as_slice())?);
    assert!(rt; copied == map(pairs.copy(rt.alloc())?));
    Ok(())
}

#[test]
fn parts_are_copied(rt: HostRuntime) -> Result<(), Fail> {
    let parts = numbers(rt.alloc(), &[1, 2])?;
    let copied = tuple(copy_of_all(rt.alloc(), parts.as_slice())?);
    assert!(rt; copied == tuple(parts.copy(rt.alloc())?));
    assert!(rt; parts.get(1).is_some() && parts.get(2).is_none());
    Ok(())
}

#[test]
#[tactic(auto, using(crate::proofs::Layers::sizes, crate::proofs::Layers::depths, crate::proofs::Lengths::lengths))]
fn binaries_are_measured(rt: HostRuntime) -> Result<(), Fail> {
    let rows = [
        ("", 1, 5),
        ("1234567", 2, 12),
        ("12345678", 2, 13),
        ("123456789", 3, 14),
    ];
    for (text, units, packed) in rows {
        let term = bytes(rt.alloc(), text.as_bytes())?;
        assert_eq!(rt; size(&term), units, "at {text}");
        assert_eq!(rt; depth(&term), 0, "at {text}");
        assert_eq!(rt; packed_len(&term), packed, "at {text}");
    }
    Ok(())
}

#[test]
#[tactic(auto, using(crate::proofs::Layers::sizes, crate::proofs::Layers::depths, crate::proofs::Lengths::lengths))]
fn flat_terms_are_measured(rt: HostRuntime) {
    assert_eq!(rt; size(&nil()), 1);
    assert_eq!(rt; depth(&nil()), 1);
    assert_eq!(rt; packed_len(&nil()), 1);
    for (number, packed) in [
        (127, 3),
        (128, 4),
        (-128, 3),
        (-129, 4),
        (170141183460469231731687303715884105727, 18),
    ] {
        assert_eq!(rt; packed_len(&int(number)), packed, "at {number}");
    }
}

#[test]
fn the_last_of_equal_keys_counts(rt: HostRuntime) -> Result<(), Fail> {
    let alloc = rt.alloc();
    // pairs in any order, and the map of them
    let rows: [(&[(i128, i128)], &[(i128, i128)]); 5] = [
        (&[], &[]),
        (&[(1, 2)], &[(1, 2)]),
        (&[(3, 0), (1, 2), (2, 9)], &[(1, 2), (2, 9), (3, 0)]),
        (&[(1, 2), (1, 3), (1, 4)], &[(1, 4)]),
        (&[(2, 0), (1, 5), (2, 7), (1, 6)], &[(1, 6), (2, 7)]),
    ];
    for (given, kept) in rows {
        let mut all = Vec::new(alloc);
        for (key, value) in given {
            all.push((int(*key), int(*value)))?;
        }
        let found = map(pairs_of(alloc, all)?);
        assert!(rt; found == pairs(alloc, kept)?, "at {given:?}");
    }
    Ok(())
}

// Whether a function is read from its term and made into it again.
fn is_read_again(alloc: Global, term: &Term) -> Result<bool, NoMemory> {
    match Closure::of_term(alloc, term)? {
        Some(found) => Ok(found.copy(alloc)?.into_term() == *term),
        None => Ok(false),
    }
}

// Whether an origin is read from its triple.
fn is_origin_again(alloc: Global, origin: &Origin) -> Result<bool, NoMemory> {
    let triple = origin_term(alloc, origin)?;
    match origin_of(alloc, &triple.node)? {
        Some(found) => Ok(found == *origin),
        None => Ok(false),
    }
}

#[test]
fn functions_are_read_and_measured(rt: HostRuntime) -> Result<(), Fail> {
    let alloc = rt.alloc();
    // the names of a function, and the width of its term with one captured value
    for (module, name, width) in [("m", "f", 1), ("", "", 1), ("ab", "c", 2), ("a", "bcd", 3)] {
        let term = function(alloc, module.as_bytes(), name.as_bytes(), 2, &[7])?;
        assert_eq!(rt; widest(&term), width, "at {module}");
        assert!(rt; is_read_again(alloc, &term)?);
        assert!(rt; holds_closure(&map_of_one(alloc, term, nil())?));
    }
    Ok(())
}

#[test]
fn no_function_is_found(rt: HostRuntime) -> Result<(), Fail> {
    let term = built(rt.alloc(), Sample::Tuple(&[1]))?;
    assert!(rt; !holds_closure(&term));
    assert!(rt; Closure::of_term(rt.alloc(), &term)?.is_none());
    Ok(())
}

#[test]
fn origins_are_read_again(rt: HostRuntime) -> Result<(), Fail> {
    let alloc = rt.alloc();
    for arity in [0, 255] {
        let module = word(alloc, b"m")?;
        let name = word(alloc, b"")?;
        let origin = Origin {
            module,
            name,
            arity,
        };
        assert!(rt; is_origin_again(alloc, &origin)?);
    }
    Ok(())
}

#[test]
fn a_path_is_read_again(rt: HostRuntime) -> Result<(), Fail> {
    let key = path(rt.alloc(), &["a", "b"])?;
    let term = path_term(rt.alloc(), &key)?;
    assert!(rt; path_of(rt.alloc(), &term.node)?.ok_or("no path")? == key);
    Ok(())
}

// Whether neither a term nor the list of it stands for names.
fn is_no_name(alloc: Global, term: Term) -> Result<bool, NoMemory> {
    let none = name_of(alloc, &term.node)?.is_none();
    let mut parts = Terms::new(alloc);
    parts.push(term)?;
    let no_names = names_of(alloc, parts.as_slice())?.is_none();
    Ok(none && no_names && path_of(alloc, &list(alloc, parts)?.node)?.is_none())
}

#[test]
fn terms_stand_for_no_names(rt: HostRuntime) -> Result<(), Fail> {
    for sample in [Sample::Int(1), Sample::Atom(b"."), Sample::Bin(b"")] {
        let term = built(rt.alloc(), sample)?;
        assert!(rt; is_no_name(rt.alloc(), term)?);
    }
    for sample in [Sample::Tuple(&[1, 2]), Sample::Tuple(&[1, 2, 3])] {
        let term = built(rt.alloc(), sample)?;
        assert!(rt; origin_of(rt.alloc(), &term.node)?.is_none());
    }
    Ok(())
}

#[test]
fn small_tuples_are_made(rt: HostRuntime) -> Result<(), Fail> {
    let two = pair(rt.alloc(), int(1), nil())?;
    let three = triple(rt.alloc(), crate::word(rt.alloc(), "ok")?, nil(), nil())?;
    assert_eq!(rt; compare(&two, &three), Ordering::Less);
    Ok(())
}

#[test]
fn names_are_hashed(rt: HostRuntime) -> Result<(), Fail> {
    let alloc = rt.alloc();
    let mut counts = HashMap::new(alloc);
    for text in ["a", "b", "a"] {
        counts.insert(Name::Atom(word(alloc, text.as_bytes())?), 1u8)?;
        let bytes = Vec::from_slice(alloc, text.as_bytes())?;
        counts.insert(Name::Bin(Bytes::new(bytes)), 2)?;
    }
    assert_eq!(rt; counts.len(), 4);
    Ok(())
}

#[test]
fn origins_are_hashed(rt: HostRuntime) -> Result<(), Fail> {
    let alloc = rt.alloc();
    let mut origins = HashMap::new(alloc);
    for arity in [1, 2, 1] {
        let module = word(alloc, b"m")?;
        let name = word(alloc, b"f")?;
        let origin = Origin {
            module,
            name,
            arity,
        };
        origins.insert(origin, arity)?;
    }
    assert_eq!(rt; origins.len(), 2);
    Ok(())
}

// Tuples, one in another.
fn nested(alloc: Global, levels: u32) -> Result<Term, NoMemory> {
    let mut term = int(0);
    for _ in 0..levels {
        let mut parts = Terms::new(alloc);
        parts.push(term)?;
        term = tuple(parts);
    }
    Ok(term)
}

// A tuple of so many nils.
fn wide(alloc: Global, count: u32) -> Result<Term, NoMemory> {
    let mut parts = Terms::new(alloc);
    for _ in 0..count {
        parts.push(nil())?;
    }
    Ok(tuple(parts))
}

#[test]
fn limits_are_tested(rt: HostRuntime) -> Result<(), Fail> {
    for (levels, small) in [(200, true), (201, false)] {
        assert_eq!(rt; is_small(&nested(rt.alloc(), levels)?), small);
    }
    for (parts, large) in [(1_048_575, false), (1_048_576, true)] {
        let term = wide(rt.alloc(), parts)?;
        assert_eq!(rt; is_small(&term), !large);
        assert_eq!(rt; is_large(&term), large);
    }
    Ok(())
}

// What a node shows that holds this datum.
fn view(datum: i128) -> NodeView {
    NodeView {
        name: None,
        payload: Kind::Data,
        datum: Some(int(datum)),
        payload_version: 1,
        child_list_version: 1,
        children: 0,
    }
}

#[test]
fn views_are_compared(rt: HostRuntime) {
    for (datum, same) in [(1, true), (2, false)] {
        assert_eq!(rt; view(datum).is_same(&view(1)), same);
    }
}

#[test]
fn texts_are_kept(rt: HostRuntime) -> Result<(), Fail> {
    let text = Text::new(Vec::from_slice(rt.alloc(), b"x")?).ok_or("no text")?;
    let mut texts = Texts::new(rt.alloc());
    texts.push(text.copy(rt.alloc())?)?;
    assert_eq!(rt; Texts::from_vec(texts.into_vec()).len(), 1);
    assert_eq!(rt; text.as_str(), "x");
    Ok(())
}

// Two steps of a counter.
fn two_steps<L: Ledger>(blank: Blank)
    requires name { blank.name ≡ L.name }
    requires parts { blank.parts ≡ L.parts }
    requires some { 0 < blank.parts }
{
    let mut steps = Steps::<L>::new(blank);
    steps.tick();
    steps.tick();
}

#[test]
fn steps_are_counted() {
    two_steps::<Brand>(Blank::new(1));
}
