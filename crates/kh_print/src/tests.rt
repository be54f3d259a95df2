// The canonical texts of the format, by hand.
use crate::node::push_node;
use crate::{print, print_line};
use kh_term::{
    Atom, Bytes, Origin, Term, TermTree, Terms, atom, bin, int, list, map_of_one, nil, tuple,
};
use sqlite_items::{Boxed, Items};
use std::alloc::Global;
use std::process::Abort;
use std::test::Fail;

fn prints(rt: &impl Abort, alloc: Global, term: &Term, expected: &[u8]) -> Result<(), Fail> {
    let text = print(alloc, term)?;
    assert_eq!(rt; text.as_slice(), expected);
    Ok(())
}

fn atom_text(alloc: Global, text: &[u8]) -> Result<Atom, Fail> {
    let text = Vec::from_slice(alloc, text)?;
    Ok(Atom::new(text).ok_or("no atom")?)
}

fn atom_of(alloc: Global, text: &[u8]) -> Result<Term, Fail> {
    Ok(atom(atom_text(alloc, text)?))
}

fn bin_of(alloc: Global, bytes: &[u8]) -> Result<Term, Fail> {
    let bytes = Vec::from_slice(alloc, bytes)?;
    Ok(bin(Bytes::new(bytes)))
}

// The words of a text, as atoms.
fn atoms_of(alloc: Global, words: &[&[u8]]) -> Result<Terms, Fail> {
    let mut terms = Terms::new(alloc);
    for word in words {
        terms.push(atom_of(alloc, word)?)?;
    }
    Ok(terms)
}

#[test]
fn integers(rt: HostRuntime) -> Result<(), Fail> {
    let rows: [(i128, &[u8]); 5] = [
        (0, b"0"),
        (-7, b"-7"),
        (100, b"100"),
        (i128::MAX, b"170141183460469231731687303715884105727"),
        (i128::MIN, b"-170141183460469231731687303715884105728"),
    ];
    for (number, expected) in rows {
        prints(&rt, rt.alloc(), &int(number), expected)?;
    }
    Ok(())
}

#[test]
fn atoms(rt: HostRuntime) -> Result<(), Fail> {
    let rows: [(&[u8], &[u8]); 20] = [
        (b"foo", b"foo"),
        (b"a@_Z9", b"a@_Z9"),
        (b"ifs", b"ifs"),
        (b"if", b"'if'"),
        (b"Foo", b"'Foo'"),
        (b"_a", b"'_a'"),
        (b"1", b"'1'"),
        (b"a b", b"'a b'"),
        (b"a-b", b"'a-b'"),
        (b"", b"''"),
        (b"\n", b"'\\n'"),
        (b"\r", b"'\\r'"),
        (b"\t", b"'\\t'"),
        (b"\\", &[39, 92, 92, 39]),
        (b"'", &[39, 92, 39, 39]),
        (b"\"", b"'\"'"),
        (b"\x00\x0f", b"'\\x{0}\\x{f}'"),
        (b"\x10\x1f ", b"'\\x{10}\\x{1f} '"),
        (b"\x7f", &[39, 92, 120, 123, 55, 102, 125, 39]),
        (&[195, 169], &[39, 195, 169, 39]),
    ];
    for (text, expected) in rows {
        prints(&rt, rt.alloc(), &atom_of(rt.alloc(), text)?, expected)?;
    }
    Ok(())
}

#[test]
fn reserved_words(rt: HostRuntime) -> Result<(), Fail> {
    let words: [&[u8]; 25] = [
        b"after", b"and", b"andalso", b"band", b"begin", b"bnot", b"bor", b"bsl", b"bsr", b"bxor",
        b"case", b"catch", b"div", b"end", b"fun", b"if", b"not", b"of", b"or", b"orelse",
        b"receive", b"rem", b"try", b"when", b"xor",
    ];
    let term = tuple(atoms_of(rt.alloc(), &words)?);
    prints(
        &rt,
        rt.alloc(),
        &term,
        b"{'after','and','andalso','band','begin','bnot','bor','bsl','bsr','bxor','case','catch','div','end','fun','if','not','of','or','orelse','receive','rem','try','when','xor'}",
    )
}

#[test]
fn binaries(rt: HostRuntime) -> Result<(), Fail> {
    let rows: [(&[u8], &[u8]); 9] = [
        (b"", b"<<>>"),
        (b"a\"b", b"<<\"a\\\"b\">>"),
        (b"'\\ ~", &[60, 60, 34, 39, 92, 92, 32, 126, 34, 62, 62]),
        (&[1, 2, 255], b"<<1,2,255>>"),
        (&[0], b"<<0>>"),
        (b"\x1f", b"<<31>>"),
        (b"\x7f", b"<<127>>"),
        (b"a\n", b"<<97,10>>"),
        (&[195, 169], b"<<195,169>>"),
    ];
    for (bytes, expected) in rows {
        prints(&rt, rt.alloc(), &bin_of(rt.alloc(), bytes)?, expected)?;
    }
    Ok(())
}

#[test]
fn parts(rt: HostRuntime) -> Result<(), Fail> {
    let alloc = rt.alloc();
    prints(&rt, alloc, &nil(), b"[]")?;
    prints(&rt, alloc, &tuple(Terms::new(alloc)), b"{}")?;
    prints(&rt, alloc, &tuple(atoms_of(alloc, &[b"a"])?), b"{a}")?;
    prints(
        &rt,
        alloc,
        &list(alloc, atoms_of(alloc, &[b"a", b"B", b"c"])?)?,
        b"[a,'B',c]",
    )?;
    let value = list(alloc, atoms_of(alloc, &[b"b"])?)?;
    let map = map_of_one(alloc, atom_of(alloc, b"a")?, value)?;
    prints(&rt, alloc, &map, b"#{a => [b]}")
}

fn tree_of(alloc: Global, text: &[u8]) -> Result<TermTree, Fail> {
    let Term { node } = atom_of(alloc, text)?;
    Ok(node)
}

fn tree_prints(
    rt: &impl Abort,
    alloc: Global,
    tree: &TermTree,
    expected: &[u8],
) -> Result<(), Fail> {
    let mut out = Vec::new(alloc);
    push_node(&mut out, tree)?;
    assert_eq!(rt; out.as_slice(), expected);
    Ok(())
}

#[test]
fn tails_and_pairs(rt: HostRuntime) -> Result<(), Fail> {
    let alloc = rt.alloc();
    let Terms { nodes } = atoms_of(alloc, &[b"a", b"b"])?;
    let tail = Boxed::new(alloc, tree_of(alloc, b"c")?)?;
    tree_prints(&rt, alloc, &TermTree::List(nodes, tail), b"[a,b|c]")?;
    let mut pairs = Items::new(alloc);
    pairs.push((TermTree::Int(-1), tree_of(alloc, b"B")?))?;
    pairs.push((tree_of(alloc, b"a")?, TermTree::Nil))?;
    tree_prints(&rt, alloc, &TermTree::Map(pairs), b"#{-1 => 'B',a => []}")?;
    tree_prints(&rt, alloc, &TermTree::Map(Items::new(alloc)), b"#{}")
}

#[test]
fn closures(rt: HostRuntime) -> Result<(), Fail> {
    let alloc = rt.alloc();
    let origin = Origin {
        module: atom_text(alloc, b"m")?,
        name: atom_text(alloc, b"f")?,
        arity: 1,
    };
    let Terms { nodes: env } = atoms_of(alloc, &[b"x"])?;
    tree_prints(
        &rt,
        alloc,
        &TermTree::Closure(origin, env),
        b"#fun{m,f,1,[x]}",
    )?;
    let origin = Origin {
        module: atom_text(alloc, b"load")?,
        name: atom_text(alloc, b"-row/0-fun-0-")?,
        arity: 255,
    };
    let closure = TermTree::Closure(origin, Items::new(alloc));
    tree_prints(&rt, alloc, &closure, b"#fun{load,'-row/0-fun-0-',255,[]}")
}

#[test]
fn lines(rt: HostRuntime) -> Result<(), Fail> {
    let alloc = rt.alloc();
    let reply = tuple(atoms_of(alloc, &[b"ok", b"undefined"])?);
    assert_eq!(&rt;
        print_line(alloc, &reply)?.as_slice(),
        b"{ok,undefined}.\n".as_slice()
    );
    Ok(())
}
