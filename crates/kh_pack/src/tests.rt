// Packed bytes as they are written and read, by hand.
use crate::{UnpackError, pack, unpack};
use kh_term::{
    Atom, Bytes, Origin, Pairs, Term, Terms, atom, bin, closure, int, list, list_with_tail, map,
    nil, tuple, widest,
};
use std::alloc::Global;
use std::process::Abort;
use std::test::Fail;

// The term has these packed bytes; they are read back, wherever they stand and whatever is behind them.
fn packs(rt: &impl Abort, alloc: Global, term: &Term, expected: &[u8]) -> Result<(), Fail> {
    assert!(rt; widest(term) < 1 << 32);
    let bytes = pack(alloc, term)?;
    assert_eq!(rt; bytes.as_slice(), expected);
    let mut inside = Vec::from_slice(alloc, &[9, 4])?;
    inside.extend_from_slice(expected)?;
    inside.extend_from_slice(&[4, 9])?;
    assert!(rt; inside.len() > 2);
    let (read, end) = unpack(alloc, inside.as_slice(), 2).ok().ok_or("not read")?;
    assert_eq!(rt; end + 2, inside.len());
    assert!(rt; read == *term);
    Ok(())
}

fn refuses(rt: &impl Abort, alloc: Global, bytes: &[u8], at: usize) {
    match unpack(alloc, bytes, at) {
        Err(UnpackError::NotPacked(place)) => assert_eq!(rt; place, at),
        _ => panic!(rt; "read, or out of memory"),
    }
}

fn word(alloc: Global, text: &[u8]) -> Result<Atom, Fail> {
    let text = Vec::from_slice(alloc, text)?;
    Ok(Atom::new(text).ok_or("no atom")?)
}

fn numbers(alloc: Global, all: &[i128]) -> Result<Terms, Fail> {
    let mut terms = Terms::new(alloc);
    for number in all {
        terms.push(int(*number))?;
    }
    Ok(terms)
}

fn binary(alloc: Global, bytes: &[u8]) -> Result<Term, Fail> {
    Ok(bin(Bytes::new(Vec::from_slice(alloc, bytes)?)))
}

#[test]
fn integers(rt: HostRuntime) -> Result<(), Fail> {
    let alloc = rt.alloc();
    let table: [(i128, &[u8]); 9] = [
        (0, &[1, 1, 0]),
        (1, &[1, 1, 1]),
        (-1, &[1, 1, 0xff]),
        (127, &[1, 1, 0x7f]),
        (128, &[1, 2, 0, 0x80]),
        (-128, &[1, 1, 0x80]),
        (-129, &[1, 2, 0xff, 0x7f]),
        (255, &[1, 2, 0, 0xff]),
        (256, &[1, 2, 1, 0]),
    ];
    for (number, bytes) in table {
        packs(&rt, alloc, &int(number), bytes)?;
    }
    let mut most = Vec::from_slice(alloc, &[1, 16, 0x7f])?;
    let mut least = Vec::from_slice(alloc, &[1, 16, 0x80])?;
    for _ in 0..15 {
        most.push(0xff)?;
        least.push(0)?;
    }
    packs(&rt, alloc, &int(i128::MAX), most.as_slice())?;
    packs(&rt, alloc, &int(i128::MIN), least.as_slice())
}

#[test]
fn atoms_and_binaries(rt: HostRuntime) -> Result<(), Fail> {
    let alloc = rt.alloc();
    packs(&rt, alloc, &atom(word(alloc, b"")?), &[2, 0])?;
    packs(&rt, alloc, &atom(word(alloc, b"ok")?), &[2, 2, 0x6f, 0x6b])?;
    packs(&rt, alloc, &binary(alloc, b"")?, &[3, 0, 0, 0, 0])?;
    packs(
        &rt,
        alloc,
        &binary(alloc, &[0xff, 0])?,
        &[3, 0, 0, 0, 2, 0xff, 0],
    )
}

#[test]
fn nil_and_lists(rt: HostRuntime) -> Result<(), Fail> {
    let alloc = rt.alloc();
    packs(&rt, alloc, &nil(), &[4])?;
    packs(&rt, alloc, &tuple(Terms::new(alloc)), &[6, 0, 0, 0, 0])?;
    let improper = list_with_tail(alloc, numbers(alloc, &[1])?, int(2))?;
    packs(&rt, alloc, &improper, &[5, 0, 0, 0, 1, 1, 1, 1, 1, 1, 2])
}

#[test]
fn maps(rt: HostRuntime) -> Result<(), Fail> {
    let alloc = rt.alloc();
    packs(&rt, alloc, &map(Pairs::new(alloc)), &[7, 0, 0, 0, 0])?;
    let mut pairs = Pairs::new(alloc);
    pairs.push(int(1), atom(word(alloc, b"a")?))?;
    pairs.push(int(2), nil())?;
    packs(
        &rt,
        alloc,
        &map(pairs),
        &[7, 0, 0, 0, 2, 1, 1, 1, 2, 1, 0x61, 1, 1, 2, 4],
    )
}

#[test]
fn a_closure(rt: HostRuntime) -> Result<(), Fail> {
    let alloc = rt.alloc();
    let module = word(alloc, b"m")?;
    let name = word(alloc, b"f")?;
    let env = numbers(alloc, &[1])?;
    assert!(rt; env.len() < 2);
    let origin = Origin {
        module,
        name,
        arity: 2,
    };
    let function = closure(origin, env);
    packs(&rt, alloc, &function, &[8, 1, 0x6d, 1, 0x66, 2, 1, 1, 1, 1])
}

// {a,[1,-1],<<"x">>}
const EXAMPLE: [u8; 26] = [
    6, 0, 0, 0, 3, 2, 1, 0x61, 5, 0, 0, 0, 2, 1, 1, 1, 1, 1, 0xff, 4, 3, 0, 0, 0, 1, 0x78,
];

#[test]
fn a_tuple_of_several_kinds(rt: HostRuntime) -> Result<(), Fail> {
    let alloc = rt.alloc();
    let mut parts = Terms::new(alloc);
    parts.push(atom(word(alloc, b"a")?))?;
    parts.push(list(alloc, numbers(alloc, &[1, -1])?)?)?;
    parts.push(binary(alloc, b"x")?)?;
    packs(&rt, alloc, &tuple(parts), &EXAMPLE)
}

#[test]
fn bytes_that_end_early(rt: HostRuntime) {
    for len in 0..EXAMPLE.len() {
        refuses(&rt, rt.alloc(), &EXAMPLE[..len], 0);
    }
}

#[test]
fn what_is_no_spelling(rt: HostRuntime) {
    let table: [&[u8]; 19] = [
        &[0],
        &[9],
        &[1, 0],
        &[1, 2, 0, 1],
        &[1, 2, 0xff, 0xff],
        &[1, 17, 1, 0, 0, 0, 0, 0, 0, 0, 0, 0, 0, 0, 0, 0, 0, 0, 0],
        &[2, 1, 0xff],
        &[2, 2, 0x61],
        &[3, 0, 0, 0, 2, 0x78],
        &[5, 0, 0, 0, 0, 4],
        &[5, 0, 0, 0, 1, 1, 1, 1, 5, 0, 0, 0, 1, 1, 1, 2, 4],
        &[5, 0, 0, 0, 2, 4, 4],
        &[6, 0, 0, 0, 2, 4],
        &[6, 0xff, 0xff, 0xff, 0xff, 4],
        &[7, 0, 0, 0, 2, 1, 1, 2, 4, 1, 1, 1, 4],
        &[7, 0, 0, 0, 2, 1, 1, 1, 4, 1, 1, 1, 4],
        &[7, 0, 0, 0, 1, 4],
        &[8, 1, 0x6d, 1, 0x66, 0, 1, 4],
        &[8, 1, 0x6d, 1, 0xff, 0, 0],
    ];
    for bytes in table {
        refuses(&rt, rt.alloc(), bytes, 0);
    }
    refuses(&rt, rt.alloc(), &[4], 1);
    refuses(&rt, rt.alloc(), &[4, 6, 0, 0, 0, 1], 1);
}

// Tuples or lists of one element, one inside another, round the integer 0.
fn nested(alloc: Global, count: u32, tag: u8) -> Result<Vec<u8>, Fail> {
    let mut bytes = Vec::new(alloc);
    for _ in 0..count {
        bytes.extend_from_slice(&[tag, 0, 0, 0, 1])?;
    }
    bytes.extend_from_slice(&[1, 1, 0])?;
    if tag == 5 {
        for _ in 0..count {
            bytes.push(4)?;
        }
    }
    Ok(bytes)
}

#[test]
fn depth_256_and_no_more(rt: HostRuntime) -> Result<(), Fail> {
    let alloc = rt.alloc();
    for tag in [5, 6] {
        let bytes = nested(alloc, 256, tag)?;
        let (read, end) = unpack(alloc, bytes.as_slice(), 0).ok().ok_or("not read")?;
        assert_eq!(rt; end, bytes.len());
        assert!(rt; widest(&read) < 1 << 32);
        assert_eq!(rt; pack(alloc, &read)?.as_slice(), bytes.as_slice());
        refuses(&rt, alloc, nested(alloc, 257, tag)?.as_slice(), 0);
    }
    Ok(())
}

#[test]
fn nothing_is_packed_past_the_end(rt: HostRuntime) {
    for at in [1, 2, usize::MAX] {
        refuses(&rt, rt.alloc(), &[4], at);
    }
}
