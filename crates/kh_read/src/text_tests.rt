// Forms of the whole language, by hand.
use crate::text::{ReadError, read_form};
use kh_term::{Term, compare};
use kh_text_defs::Mode;
use std::alloc::Global;
use std::cmp::Ordering;
use std::process::Abort;
use std::test::Fail;

fn reads(
    rt: &impl Abort,
    alloc: Global,
    bytes: &[u8],
    at: usize,
    mode: Mode,
) -> Result<Option<(Term, usize)>, ReadError> {
    assert!(rt; at <= bytes.len());
    read_form(alloc, bytes, at, mode)
}

// The term of a text that is one form.
fn term_of(rt: &impl Abort, alloc: Global, bytes: &[u8], mode: Mode) -> Result<Term, Fail> {
    match reads(rt, alloc, bytes, 0, mode) {
        Ok(Some((term, end))) => {
            assert_eq!(rt; end, bytes.len());
            Ok(term)
        }
        Ok(None) => Err(Fail::from("no form")),
        Err(_) => Err(Fail::from("a fault")),
    }
}

fn same(rt: &impl Abort, alloc: Global, mode: Mode, a: &[u8], b: &[u8]) -> Result<(), Fail> {
    let a = term_of(rt, alloc, a, mode)?;
    let b = term_of(rt, alloc, b, mode)?;
    assert_eq!(rt; compare(&a, &b), Ordering::Equal);
    Ok(())
}

fn refuses(
    rt: &impl Abort,
    alloc: Global,
    bytes: &[u8],
    mode: Mode,
    expected: ReadError,
) -> Result<(), Fail> {
    match reads(rt, alloc, bytes, 0, mode) {
        Err(error) => {
            assert_eq!(rt; error, expected);
            Ok(())
        }
        Ok(_) => Err(Fail::from("no refusal")),
    }
}

// A front and a back so many times round a zero, and a dot.
fn nested(alloc: Global, front: &[u8], back: &[u8], levels: usize) -> Result<Vec<u8>, Fail> {
    let mut text = Vec::new(alloc);
    for _ in 0..levels {
        text.extend_from_slice(front)?;
    }
    text.push(b'0')?;
    for _ in 0..levels {
        text.extend_from_slice(back)?;
    }
    text.push(b'.')?;
    Ok(text)
}

// A character so many times in quotes, with others behind, and a dot.
fn quoted(alloc: Global, unit: &[u8], count: usize, others: &[u8]) -> Result<Vec<u8>, Fail> {
    let mut text = Vec::new(alloc);
    text.push(b'\'')?;
    for _ in 0..count {
        text.extend_from_slice(unit)?;
    }
    text.extend_from_slice(others)?;
    text.extend_from_slice(b"'.")?;
    Ok(text)
}

#[test]
fn one_term_in_two_texts(rt: HostRuntime) -> Result<(), Fail> {
    let rows: [(&[u8], &[u8]); 26] = [
        (b"007.", b"7."),
        (b"-0.", b"0."),
        (b"'\\x{61}b'.", b"ab."),
        (b"'if'.", b"if."),
        (b"''.", b"''."),
        (b"'a\nb\x01'.", b"'a\\nb\\x{1}'."),
        (b"\"ab\".", b"[97,98]."),
        (b"\"\".", b"[]."),
        (b"\"\\\\\\'\\\"\\n\\r\\t\\s\".", b"[92,39,34,10,13,9,32]."),
        (b"\"\xc3\xa9\xe2\x82\xac\".", b"[233,8364]."),
        (
            b"\"\xf0\x9f\x8c\x8d\\x{10ffff}\\x{0}\".",
            b"[127757,1114111,0].",
        ),
        (b"<<\"a\\x{e9}\",98>>.", b"<<97,233,98>>."),
        (b"<< >>.", b"<<>>."),
        (b"<<007,-0>>.", b"<<7,0>>."),
        (b"[1|[2,3]].", b"[1,2,3]."),
        (b"[1|\"\"].", b"[1]."),
        (b"#{1 => a,2=>b,1=>c}.", b"#{2=>b,1=>c}."),
        (b" % a } comment\n{ a,% b\n'b' } .", b"{a,b}."),
        (b"%\xff\xfe\n[%\r \n].", b"[]."),
        (b"#fun{ m,'f' ,02,[ ] }.", b"#fun{m,f,2,[]}."),
        (b"#fun{m,f,255,[a]}.", b"#fun{m,f,0255,[ a ]}."),
        (
            b"170141183460469231731687303715884105727.",
            b"00170141183460469231731687303715884105727.",
        ),
        (
            b"-170141183460469231731687303715884105728.",
            b"-0170141183460469231731687303715884105728.",
        ),
        (b"[a|b] .", b"[ a | b ]."),
        (b"{}.", b"{ }."),
        (b"#{}.", b"#{ }."),
    ];
    for (a, b) in rows {
        same(&rt, rt.alloc(), Mode::Script, a, b)?;
    }
    Ok(())
}

#[test]
fn listings(rt: HostRuntime) -> Result<(), Fail> {
    let rows: [(&[u8], &[u8]); 12] = [
        (b"1.5.", b"'$unsupported'."),
        (b"-0.25e-10 .", b"'$unsupported'."),
        (b"[1.0E9].", b"['$unsupported']."),
        (b"<<1:8,2>>.", b"'$unsupported'."),
        (b"<<1 : 3>>.", b"'$unsupported'."),
        (b"fun lists:map/2.", b"'$unsupported'."),
        (b"fun 'a' : b / 1.", b"'$unsupported'."),
        (b"<<\"\\x{e9}\"/utf8>>.", b"<<195,169>>."),
        (b"<<\"a\" / utf8,1>>.", b"<<97,1>>."),
        (b"{fun,1}.", b"{'fun',1}."),
        (b"[fun].", b"['fun']."),
        (b"1.", b"1."),
    ];
    for (a, b) in rows {
        same(&rt, rt.alloc(), Mode::Listing, a, b)?;
    }
    let faults: [(&[u8], usize); 5] = [
        (b"<<300:16>>.", 4),
        (b"<<\"\\x{100}\">>.", 11),
        (b"1.x", 2),
        (b"{1.}", 3),
        (b"fun a.", 5),
    ];
    for (bytes, place) in faults {
        refuses(
            &rt,
            rt.alloc(),
            bytes,
            Mode::Listing,
            ReadError::Syntax(place),
        )?;
    }
    Ok(())
}

#[test]
fn syntax_faults(rt: HostRuntime) -> Result<(), Fail> {
    let rows: [(&[u8], usize); 36] = [
        (b"1.5", 2),
        (b"{a b}.", 3),
        (b"[1,].", 3),
        (b"[|1].", 1),
        (b"[1|2,3].", 4),
        (b"[1|].", 3),
        (b"{1,}.", 3),
        (b"{1|2}.", 2),
        (b"#{a}.", 3),
        (b"#{a=b}.", 4),
        (b"#{a=>}.", 5),
        (b"# {}.", 1),
        (b"#fun{1,f,0,[]}.", 5),
        (b"#fun{m,f,a,[]}.", 9),
        (b"#fun{m,f,0,\"\"}.", 11),
        (b"#fun{m,f,256,[]}.", 15),
        (b"#fun{m,f,-1,[]}.", 14),
        (b"#fun{m,f,0,[1]}.", 14),
        (b"(1).", 0),
        (b"A.", 0),
        (b"- 1.", 1),
        (b"<1>.", 1),
        (b"<<1> >.", 4),
        (b"<<256>>.", 4),
        (b"<<-1>>.", 3),
        (b"<<1:8>>.", 3),
        (b"<<\"\\x{100}\">>.", 8),
        (b"fun m:f/1.", 4),
        (b"'a\\q'.", 3),
        (b"'\\x{110000}'.", 9),
        (b"'\\x{}'.", 4),
        (b"\"\\x{d800}\".", 8),
        (b"\"\xc0\x80\".", 1),
        (b"\"\xed\xa0\x80\".", 2),
        (b"'\xff'.", 1),
        (b"\xc3\xa9.", 0),
    ];
    for (bytes, place) in rows {
        refuses(
            &rt,
            rt.alloc(),
            bytes,
            Mode::Script,
            ReadError::Syntax(place),
        )?;
    }
    Ok(())
}

#[test]
fn other_faults(rt: HostRuntime) -> Result<(), Fail> {
    let alloc = rt.alloc();
    let rows: [(&[u8], ReadError); 6] = [
        (
            b" [ -170141183460469231731687303715884105729].",
            ReadError::Number(3),
        ),
        (
            b"170141183460469231731687303715884105728",
            ReadError::Number(0),
        ),
        (b"{a,[1", ReadError::Incomplete),
        (b"'a", ReadError::Incomplete),
        (b"a", ReadError::Incomplete),
        (b"a % .", ReadError::Incomplete),
    ];
    for (bytes, expected) in rows {
        refuses(&rt, alloc, bytes, Mode::Script, expected)?;
    }
    let long: [(&[u8], usize, &[u8], usize); 4] = [
        (b"a", 255, b"", 256),
        (b"\xc3\xa9", 127, b"a", 255),
        (b"\xe2\x82\xac", 85, b"", 256),
        (b"\xf0\x9f\x8c\x8d", 63, b"abc", 253),
    ];
    for (unit, most, others, place) in long {
        let name = quoted(alloc, unit, most, others)?;
        term_of(&rt, alloc, name.as_slice(), Mode::Script)?;
        let longer = quoted(alloc, unit, most + 1, others)?;
        refuses(
            &rt,
            alloc,
            longer.as_slice(),
            Mode::Script,
            ReadError::Syntax(place),
        )?;
    }
    Ok(())
}

#[test]
fn depths(rt: HostRuntime) -> Result<(), Fail> {
    let alloc = rt.alloc();
    // what opens and closes a level, and where in the front it opens
    let rows: [(&[u8], &[u8], usize); 5] = [
        (b"[", b"]", 0),
        (b"{", b"}", 0),
        (b"[0|", b"]", 0),
        (b"#{0=>", b"}", 1),
        (b"#fun{m,f,1,[", b"]}", 4),
    ];
    for (front, back, place) in rows {
        let deepest = nested(alloc, front, back, 200)?;
        term_of(&rt, alloc, deepest.as_slice(), Mode::Script)?;
        let deeper = nested(alloc, front, back, 201)?;
        let expected = ReadError::TooDeep(200 * front.len() + place);
        refuses(&rt, alloc, deeper.as_slice(), Mode::Script, expected)?;
    }
    let mut text = Vec::new(alloc);
    for _ in 0..200 {
        text.push(b'[')?;
    }
    text.extend_from_slice(b"\"\"")?;
    refuses(
        &rt,
        alloc,
        text.as_slice(),
        Mode::Script,
        ReadError::TooDeep(200),
    )
}

#[test]
fn sizes(rt: HostRuntime) -> Result<(), Fail> {
    let alloc = rt.alloc();
    // 524,287 code points have size 1,048,575 as a list.
    let mut text = Vec::new(alloc);
    text.extend_from_slice(b" {\"")?;
    for _ in 0..524_287 {
        text.push(b'a')?;
    }
    let mut larger = text.clone()?;
    text.extend_from_slice(b"\"}.")?;
    term_of(&rt, alloc, text.as_slice(), Mode::Script)?;
    larger.extend_from_slice(b"\",0}.")?;
    refuses(
        &rt,
        alloc,
        larger.as_slice(),
        Mode::Script,
        ReadError::TooLarge(1),
    )
}

#[test]
fn places(rt: HostRuntime) -> Result<(), Fail> {
    let alloc = rt.alloc();
    let bytes = b"a. {b}.% c\n  12. % d";
    let rows: [(usize, usize); 3] = [(0, 2), (2, 7), (7, 16)];
    for (at, end) in rows {
        match reads(&rt, alloc, bytes, at, Mode::Script)? {
            Some((_, place)) => assert_eq!(&rt; place, end),
            None => return Err(Fail::from("no form")),
        }
    }
    assert!(&rt; reads(&rt, alloc, bytes, 16, Mode::Script)?.is_none());
    assert!(&rt; reads(&rt, alloc, bytes, 20, Mode::Script)?.is_none());
    for byte in 0..=255_u8 {
        let text = [b'a', b'.', byte];
        match (
            reads(&rt, alloc, &text, 0, Mode::Script),
            b" \t\r\n%".contains(&byte),
        ) {
            (Ok(Some((_, place))), true) => assert_eq!(&rt; place, 2),
            (Err(error), false) => assert_eq!(&rt; error, ReadError::Syntax(2)),
            _ => return Err(Fail::from("another byte follows")),
        }
    }
    Ok(())
}

#[test]
fn reserved_words(rt: HostRuntime) -> Result<(), Fail> {
    let words = "after and andalso band begin bnot bor bsl bsr bxor case catch div end fun if not \
                 of or orelse receive rem try when xor";
    for word in words.split(' ') {
        let plain = format!(in rt.alloc(); "{word}.")?;
        let quoted = format!(in rt.alloc(); "'{word}'.")?;
        same(
            &rt,
            rt.alloc(),
            Mode::Script,
            plain.as_bytes(),
            quoted.as_bytes(),
        )?;
    }
    Ok(())
}
