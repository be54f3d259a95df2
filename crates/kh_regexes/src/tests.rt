//! Both engines through their trait, and searches and refusals by tables that were written by hand.
ghost use Rattle.std.specs.Prelude.{◌≡◌, ◌<◌, ◌-◌, ◌^◌, length};

use crate::{Patterns, PlainPatterns, PrepareError, RegexPatterns};
use std::process::Abort;
use std::test::Fail;

// Each call once: a repeat stands twice, the first place counts, and a cut leaves the front.
fn keeps_its_list<P: Patterns>(rt: &impl Abort, patterns: &mut P) -> Result<(), Fail>
    requires { length (P.texts patterns.old) ≡ 0 }
{
    assert_eq!(rt; patterns.prepare("ab"), Ok(()));
    assert_eq!(rt; patterns.prepare("c"), Ok(()));
    assert_eq!(rt; patterns.prepare("ab"), Ok(()));
    assert_eq!(rt; patterns.count(), 3);
    assert_eq!(rt; patterns.find("ab"), Some(0));
    assert_eq!(rt; patterns.find("c"), Some(1));
    assert_eq!(rt; patterns.find("b"), None);
    assert_eq!(rt; patterns.matches(2, b"xaby")?, true);
    assert_eq!(rt; patterns.matches(1, b"xaby")?, false);
    patterns.cut(1);
    assert_eq!(rt; patterns.count(), 1);
    assert_eq!(rt; patterns.find("c"), None);
    Ok(())
}

#[test]
fn lists_are_kept(rt: HostRuntime) -> Result<(), Fail> {
    let alloc = rt.alloc();
    keeps_its_list(&rt, &mut RegexPatterns::new(alloc)?)?;
    keeps_its_list(&rt, &mut PlainPatterns::new(alloc, Vec::new(alloc))?)?;
    Ok(())
}

#[test]
fn regexes_are_found_anywhere_in_bytes(rt: HostRuntime) -> Result<(), Fail> {
    let rows: [(&'static str, &'static [u8], bool); 9] = [
        ("^oa", b"oak", true),
        ("^oa", b"elm", false),
        ("^oa", b"boa", false),
        ("oa", b"boa", true),
        ("^$", b"", true),
        ("^$", b"a", false),
        ("", b"", true),
        ("(?-u)\\xff", b"a\xff", true),
        ("^.$", b"\xc3\xa9", true),
    ];
    for (text, subject, found) in rows {
        let mut patterns = RegexPatterns::new(rt.alloc())?;
        assert_eq!(rt; patterns.prepare(text), Ok(()), "{text}");
        assert_eq!(rt; patterns.matches(0, subject)?, found, "{text}");
    }
    Ok(())
}

#[test]
fn texts_are_refused(rt: HostRuntime) -> Result<(), Fail> {
    for text in ["(", "[b-a]", "((((a{1000}){1000}){1000}){1000})"] {
        let mut patterns = RegexPatterns::new(rt.alloc())?;
        assert_eq!(rt;
            patterns.prepare(text),
            Err(PrepareError::Refused),
            "{text}"
        );
        assert_eq!(rt; patterns.count(), 0, "{text}");
    }
    Ok(())
}

#[test]
fn listed_calls_are_refused(rt: HostRuntime) -> Result<(), Fail> {
    let listed = [1, 3].to_vec(rt.alloc())?;
    let mut patterns = PlainPatterns::new(rt.alloc(), listed)?;
    for answer in [
        Ok(()),
        Err(PrepareError::Refused),
        Ok(()),
        Err(PrepareError::Refused),
        Ok(()),
    ] {
        let full = patterns.count() > 4;
        assert!(rt; !full);
        assert_eq!(rt; patterns.prepare("."), answer);
    }
    assert_eq!(rt; patterns.count(), 3);
    assert_eq!(rt; patterns.matches(0, b"a.b")?, true);
    assert_eq!(rt; patterns.matches(0, b"ab")?, false);
    Ok(())
}
