// Forms as they are read, by hand.
use crate::{Form, ReadError, read_form};
use kh_term::{Name, Path};
use std::alloc::Global;
use std::process::Abort;
use std::test::Fail;

// The names of a path with slashes between them.
fn joined(alloc: Global, path: &Path) -> Result<Vec<u8>, Fail> {
    let mut text = Vec::new(alloc);
    for name in path.names() {
        if !text.is_empty() {
            text.push(b'/')?;
        }
        match name {
            Name::Atom(atom) => text.extend_from_slice(atom.as_slice())?,
            Name::Bin(_) => return Err(Fail::from("a binary")),
        }
    }
    Ok(text)
}

fn reads(
    rt: &impl Abort,
    alloc: Global,
    bytes: &[u8],
    at: usize,
) -> Result<Option<(Form, usize)>, ReadError> {
    assert!(rt; at <= bytes.len());
    read_form(alloc, bytes, at)
}

fn puts(
    rt: &impl Abort,
    alloc: Global,
    bytes: &[u8],
    path: &[u8],
    number: i128,
    end: usize,
) -> Result<(), Fail> {
    let (form, place) = reads(rt, alloc, bytes, 0)?.ok_or("no form")?;
    assert_eq!(rt; place, end);
    match form {
        Form::Put(names, value) => {
            assert_eq!(rt; joined(alloc, &names)?.as_slice(), path);
            assert_eq!(rt; value, number);
            Ok(())
        }
        Form::Get(_) => Err(Fail::from("no put")),
    }
}

fn gets(
    rt: &impl Abort,
    alloc: Global,
    bytes: &[u8],
    at: usize,
    path: &[u8],
    end: usize,
) -> Result<(), Fail> {
    let (form, place) = reads(rt, alloc, bytes, at)?.ok_or("no form")?;
    assert_eq!(rt; place, end);
    match form {
        Form::Get(names) => {
            assert_eq!(rt; joined(alloc, &names)?.as_slice(), path);
            Ok(())
        }
        Form::Put(_, _) => Err(Fail::from("no get")),
    }
}

fn refuses(
    rt: &impl Abort,
    alloc: Global,
    bytes: &[u8],
    at: usize,
    expected: ReadError,
) -> Result<(), Fail> {
    match reads(rt, alloc, bytes, at) {
        Err(error) => {
            assert_eq!(rt; error, expected);
            Ok(())
        }
        Ok(_) => Err(Fail::from("no refusal")),
    }
}

// `a` so many times, in the text of a `get` form.
fn get_of(alloc: Global, len: usize) -> Result<Vec<u8>, Fail> {
    let mut text = Vec::from_slice(alloc, b"{get,[")?;
    for _ in 0..len {
        text.push(b'a')?;
    }
    text.extend_from_slice(b"]}.")?;
    Ok(text)
}

#[test]
fn put_forms(rt: HostRuntime) -> Result<(), Fail> {
    let rows: [(&[u8], &[u8], i128, usize); 8] = [
        (b"{put,[a],0}.", b"a", 0, 12),
        (b"{put,[a],-0}.", b"a", 0, 13),
        (b"{put,[a],007}.", b"a", 7, 14),
        (b"{put,[a],-12}.", b"a", -12, 14),
        (
            b"{put,[a],999999999999999999}.",
            b"a",
            999999999999999999,
            29,
        ),
        (
            b"{put,[a],-999999999999999999}.",
            b"a",
            -999999999999999999,
            30,
        ),
        (b"{put,[a],000000000000000001}.", b"a", 1, 29),
        (b"{put,[a,b_C@9,ifs],5}. ", b"a/b_C@9/ifs", 5, 22),
    ];
    for (bytes, path, number, end) in rows {
        puts(&rt, rt.alloc(), bytes, path, number, end)?;
    }
    Ok(())
}

#[test]
fn get_forms(rt: HostRuntime) -> Result<(), Fail> {
    let rows: [(&[u8], usize, &[u8], usize); 6] = [
        (b"{get,[a]}.", 0, b"a", 10),
        (b"{get,[a]}.{get,[b]}.", 0, b"a", 10),
        (b"{get,[a]}.{get,[b]}.", 10, b"b", 20),
        (b"x{get,[a]}.y", 1, b"a", 11),
        (b"{get,[a]}..", 0, b"a", 10),
        (
            b"{get,[a,b,c,d,e,f,g,h,i,j,k,l,m,n,o,p,q,r,s,t,u,v,w,x,y,z,aa,ab,ac,ad,ae,af]}.",
            0,
            b"a/b/c/d/e/f/g/h/i/j/k/l/m/n/o/p/q/r/s/t/u/v/w/x/y/z/aa/ab/ac/ad/ae/af",
            78,
        ),
    ];
    for (bytes, at, path, end) in rows {
        gets(&rt, rt.alloc(), bytes, at, path, end)?;
    }
    Ok(())
}

#[test]
fn faults(rt: HostRuntime) -> Result<(), Fail> {
    let rows: [(&[u8], usize); 32] = [
        (b"{put,[a],1000000000000000000}.", 0),
        (b"{put,[a],-1000000000000000000}.", 0),
        (b"{put,[a],0000000000000000000", 0),
        (b"{put,[a],}.", 0),
        (b"{put,[a],-}.", 0),
        (b"{put,[a],+1}.", 0),
        (b"{put,[a],1a}.", 0),
        (b"{put,[a]}.", 0),
        (b"{put,a,1}.", 0),
        (b"{put,[],1}.", 0),
        (b"{get,[]}.", 0),
        (b"{get,[a],1}.", 0),
        (b"{get,[a,]}.", 0),
        (b"{get,[,a]}.", 0),
        (b"{get,[a;b]}.", 0),
        (b"{get,['if']}.", 0),
        (b"{get,['a']}.", 0),
        (b"{get,[if]}.", 0),
        (b"{get,[a,xor]}.", 0),
        (b"{get,[Ab]}.", 0),
        (b"{get,[_a]}.", 0),
        (b"{get,[1]}.", 0),
        (b"{get,[a-b]}.", 0),
        (b"{get,[a]}]", 0),
        (b"{del,[a]}.", 0),
        (b" {get,[a]}.", 0),
        (b"{get, [a]}.", 0),
        (b"{get,[a] }.", 0),
        (b"{put,[a], 1}.", 0),
        (b"{get,[a]} .", 0),
        (b"{get,[a]}..", 10),
        (
            b"{get,[a,b,c,d,e,f,g,h,i,j,k,l,m,n,o,p,q,r,s,t,u,v,w,x,y,z,aa,ab,ac,ad,ae,af,ag]}.",
            0,
        ),
    ];
    for (bytes, at) in rows {
        refuses(&rt, rt.alloc(), bytes, at, ReadError::Syntax)?;
    }
    Ok(())
}

#[test]
fn fronts_are_unfinished(rt: HostRuntime) -> Result<(), Fail> {
    let rows: [&[u8]; 4] = [
        b"{put,[a,orelse_],-12}.",
        b"{get,[if@,bc]}.",
        b"{put,[xor9],999999999999999999}.",
        b"{get,[a,b,c,d,e,f,g,h,i,j,k,l,m,n,o,p,q,r,s,t,u,v,w,x,y,z,aa,ab,ac,ad,ae,af]}.",
    ];
    for form in rows {
        for len in 1..form.len() {
            let (front, _) = form.split_at(len);
            refuses(&rt, rt.alloc(), front, 0, ReadError::Incomplete)?;
        }
    }
    Ok(())
}

#[test]
fn long_names(rt: HostRuntime) -> Result<(), Fail> {
    let alloc = rt.alloc();
    let longest = get_of(alloc, 255)?;
    let name = Vec::from_slice(alloc, &[b'a'; 255])?;
    gets(&rt, alloc, longest.as_slice(), 0, name.as_slice(), 264)?;
    let too_long = get_of(alloc, 256)?;
    refuses(&rt, alloc, too_long.as_slice(), 0, ReadError::Syntax)
}

#[test]
fn the_end(rt: HostRuntime) -> Result<(), Fail> {
    let rows: [(&[u8], usize); 2] = [(b"", 0), (b"{get,[a]}.", 10)];
    for (bytes, at) in rows {
        assert!(&rt; reads(&rt, rt.alloc(), bytes, at)?.is_none());
    }
    Ok(())
}
