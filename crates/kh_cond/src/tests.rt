//! Conditions by tables that were written by hand.
ghost use Rattle.std.specs.Prelude.{◌≡◌, length};

use crate::{
    Comparison, Cond, CondError, Exact, Operator, Regex, cond_term, judge, matches_data,
    pattern_term, prepare, push_cond_texts, push_pattern_texts, push_watching_texts, read_cond,
    read_pattern, read_watching, watching_term,
};
use kh_regexes::{Patterns, PlainPatterns, RegexPatterns};
use kh_term::{
    Atom, Bytes, Kind, Name, NoMemory, NodeView, Origin, Term, Terms, Text, Texts, atom, bin,
    closure, compare, int, list, list_with_tail, map_of_one, nil, pair, tuple,
};
use sqlite_items::{Boxed, Items};
use std::alloc::Global;
use std::process::Abort;
use std::test::Fail;

fn word(alloc: Global, text: &str) -> Result<Atom, NoMemory> {
    match Atom::new(Vec::from_slice(alloc, text.as_bytes())?) {
        Some(word) => Ok(word),
        None => Err(NoMemory),
    }
}

fn name_matches(alloc: Global, text: &str) -> Result<Cond, NoMemory> {
    match Text::new(Vec::from_slice(alloc, text.as_bytes())?) {
        Some(text) => Ok(Cond::NameMatches(Regex::Text(text))),
        None => Err(NoMemory),
    }
}

// The root, a node without a payload, one with the data 7 and one with a procedure, the three named `oak`.
fn view(alloc: Global, which: usize) -> Result<NodeView, NoMemory> {
    let name = match which {
        0 => None,
        _ => Some(Name::Atom(word(alloc, "oak")?)),
    };
    let (payload, datum) = match which {
        2 => (Kind::Data, Some(int(7))),
        3 => (Kind::Sproc, None),
        _ => (Kind::Empty, None),
    };
    Ok(NodeView {
        name,
        payload,
        datum,
        payload_version: 3,
        child_list_version: 1,
        children: 0,
    })
}

// Whether each row holds of a missing node and of the four views.
const ROWS: &str = "-++++ +---- --+++ -++++ --+++ -+--- ----- ---++ -++-- ---+- ----+ \
    -+++- ---+- ---+- +---- +++++ ----- -++++ -++-+ -++++ -++++ -----";

fn row(alloc: Global, at: usize) -> Result<Cond, NoMemory> {
    match at {
        0 => Ok(Cond::NodeExists(true)),
        1 => Ok(Cond::NodeExists(false)),
        2 => Ok(Cond::Name(Name::Atom(word(alloc, "oak")?))),
        3 => Ok(Cond::NameMatches(Regex::Any)),
        4 => name_matches(alloc, "^oa"),
        5 => name_matches(alloc, "^$"),
        6 => Ok(Cond::PathMatches(Regex::Any)),
        7 => Ok(Cond::HasPayload(true)),
        8 => Ok(Cond::HasPayload(false)),
        9 => Ok(Cond::HasData(true)),
        10 => Ok(Cond::HasSproc(true)),
        11 => Ok(Cond::HasSproc(false)),
        12 => Ok(Cond::DataMatches(int(7))),
        13 => Ok(Cond::DataMatches(atom(word(alloc, "_")?))),
        14 => Ok(Cond::Not(Boxed::new(alloc, Cond::NodeExists(true))?)),
        15 => Ok(Cond::All(Items::new(alloc))),
        16 => Ok(Cond::Any(Items::new(alloc))),
        18 => Ok(Cond::HasData(false)),
        19 => Ok(Cond::ChildListVersion(Comparison::Is(1))),
        20 => Ok(Cond::PayloadVersion(Comparison::By(Operator::Greater, -4))),
        21 => Ok(Cond::PayloadVersion(Comparison::By(Operator::AtMost, i128::MIN))),
        _ => Ok(Cond::ChildListLength(Comparison::By(Operator::Less, i128::MAX))),
    }
}

// What a condition is judged on a missing node or on one of the four views.
#[tactic(auto, using(crate::proofs::Prepared::prepared))]
fn judged<P: Patterns>(
    alloc: Global,
    cond: &Cond,
    patterns: &mut P,
    which: usize,
) -> Result<bool, Fail>
    requires { length (P.texts patterns.old) ≡ 0 }
{
    let mut texts = Texts::new(alloc);
    push_cond_texts(alloc, cond, &mut texts)?;
    if texts.len() > 64 {
        return Err(NoMemory.into());
    }
    prepare(&texts, patterns)?;
    if which == 0 {
        return Ok(judge(cond, None, patterns)?);
    }
    let view = view(alloc, which - 1)?;
    Ok(judge(cond, Some(&view), patterns)?)
}

// Whether a row is judged so on a missing node and on the four views.
fn is_judged(alloc: Global, at: usize, wanted: &[u8]) -> Result<bool, Fail> {
    let cond = row(alloc, at)?;
    for (which, holds) in wanted.iter().enumerate() {
        let mut patterns = RegexPatterns::new(alloc)?;
        if judged(alloc, &cond, &mut patterns, which)? != (*holds == b'+') {
            return Ok(false);
        }
    }
    Ok(true)
}

#[test]
fn rows_are_judged(rt: HostRuntime) -> Result<(), Fail> {
    let mut at = 0;
    for wanted in ROWS.split(' ') {
        assert!(rt;
            at < 100 && is_judged(rt.alloc(), at, wanted.as_bytes())?,
            "row {at}"
        );
        at += 1;
    }
    let mut patterns = PlainPatterns::new(rt.alloc(), Vec::new(rt.alloc()))?;
    let in_name = name_matches(rt.alloc(), "ak")?;
    assert_eq!(rt; judged(rt.alloc(), &in_name, &mut patterns, 2)?, true);
    Ok(())
}

// A bare number, or one behind an operator.
fn comparison(operator: Option<Operator>, number: i128) -> Comparison {
    match operator {
        Some(operator) => Comparison::By(operator, number),
        None => Comparison::Is(number),
    }
}

#[test]
fn numbers_are_compared(rt: HostRuntime) -> Result<(), Fail> {
    for (operator, wanted) in [
        (None, "-+-"),
        (Some(Operator::Equal), "-+-"),
        (Some(Operator::NotEqual), "+-+"),
        (Some(Operator::Less), "--+"),
        (Some(Operator::AtMost), "-++"),
        (Some(Operator::Greater), "+--"),
        (Some(Operator::AtLeast), "++-"),
    ] {
        for (at, holds) in wanted.as_bytes().iter().enumerate() {
            let cond = Cond::PayloadVersion(comparison(operator, at as i128 + 2));
            let mut patterns = PlainPatterns::new(rt.alloc(), Vec::new(rt.alloc()))?;
            let found = judged(rt.alloc(), &cond, &mut patterns, 1)?;
            assert_eq!(rt; found, *holds == b'+', "{wanted} at {at}");
        }
    }
    Ok(())
}

fn bytes(alloc: Global, bytes: &[u8]) -> Result<Term, NoMemory> {
    Ok(bin(Bytes::new(Vec::from_slice(alloc, bytes)?)))
}

fn repeated(alloc: Global, count: usize) -> Result<Term, NoMemory> {
    let mut all = Vec::new(alloc);
    for _ in 0..count {
        all.push(b'a')?;
    }
    Ok(bin(Bytes::new(all)))
}

fn numbers(alloc: Global, all: &[i128]) -> Result<Terms, NoMemory> {
    let mut terms = Terms::new(alloc);
    for number in all {
        terms.push(int(*number))?;
    }
    Ok(terms)
}

// The operands of the table of conditions.
fn operand(alloc: Global, letter: u8) -> Result<Term, NoMemory> {
    match letter {
        b't' => Ok(atom(word(alloc, "true")?)),
        b'u' => Ok(atom(word(alloc, "undefined")?)),
        b'1' => Ok(int(1)),
        b'g' => pair(alloc, atom(word(alloc, "gt")?), int(-3)),
        b'a' => pair(alloc, atom(word(alloc, "gt")?), atom(word(alloc, "a")?)),
        b'i' => pair(alloc, atom(word(alloc, "in")?), int(1)),
        b'|' => list_with_tail(alloc, numbers(alloc, &[97])?, int(98)),
        b'p' => list(alloc, numbers(alloc, &[0x61, 0xe9, 0x20ac, 0x1f600])?),
        b's' => list(alloc, numbers(alloc, &[0xd800])?),
        b'x' => bytes(alloc, b"\xff"),
        b'm' => repeated(alloc, 4096),
        b'M' => repeated(alloc, 4097),
        _ => Ok(nil()),
    }
}

// The words of tuples with their operands: `+` before those that are conditions.
const CONDITIONS: [(&str, &str); 9] = [
    ("if_node_exists", "+t -1 - -tu"),
    ("if_payload_version", "+1 +g -a"),
    ("if_child_list_length", "-i"),
    ("if_all", "-|"),
    ("if_any", "+n -nu"),
    ("if_name_matches", "-| +p -s -x +m -M +n - +pu -p1 -puu -xu"),
    ("if_path_matches", "-p -pu"),
    ("if_data_matches", "+i +inu -iu -in -in1 -i1u -inuu"),
    ("if_has_sproc", "-tu"),
];

// The tuple of a word and operands.
fn form(alloc: Global, name: &str, operands: &[u8]) -> Result<Term, NoMemory> {
    let mut parts = Terms::new(alloc);
    parts.push(atom(word(alloc, name)?))?;
    for letter in operands {
        parts.push(operand(alloc, *letter)?)?;
    }
    Ok(tuple(parts))
}

// Whether a tuple is read as the sign says.
fn is_row(alloc: Global, name: &str, row: &[u8]) -> Result<bool, Fail> {
    match row {
        [sign, operands @ ..] => {
            let term = form(alloc, name, operands)?;
            Ok(is_read(alloc, &term)? == (*sign == b'+'))
        }
        [] => Ok(false),
    }
}

// A term is read where it is a condition, and written in a short spelling that is read as the same.
fn is_read(alloc: Global, term: &Term) -> Result<bool, Fail> {
    match read_cond(alloc, term) {
        Ok(cond) => {
            let short = cond_term(alloc, &cond)?;
            let again = read_cond(alloc, &short).map_err(|_| NoMemory)?;
            let again = cond_term(alloc, &again)?;
            Ok(compare(&short, &again).is_eq())
        }
        Err(CondError::BadCondition(1)) => Ok(false),
        Err(_) => Err(NoMemory.into()),
    }
}

#[test]
fn conditions_are_read(rt: HostRuntime) -> Result<(), Fail> {
    for (name, rows) in CONDITIONS {
        for row in rows.split(' ') {
            assert!(rt; is_row(rt.alloc(), name, row.as_bytes())?, "{name} {row}");
        }
    }
    for (name, wanted) in [("a", true), (".", false), ("^", false), ("", false)] {
        let term = atom(word(rt.alloc(), name)?);
        assert_eq!(rt; is_read(rt.alloc(), &term)?, wanted, "{name}");
    }
    for (count, wanted) in [(0, false), (255, true), (256, false)] {
        let term = repeated(rt.alloc(), count)?;
        assert_eq!(rt; is_read(rt.alloc(), &term)?, wanted, "{count}");
    }
    Ok(())
}

// The list of a code point, so often, and letters `a` behind it.
fn points(alloc: Global, point: i128, count: usize, all: usize) -> Result<Term, NoMemory> {
    let mut terms = Terms::new(alloc);
    for at in 0..all {
        terms.push(int(if at < count { point } else { 97 }))?;
    }
    list(alloc, terms)
}

#[test]
fn code_points_are_counted_in_bytes(rt: HostRuntime) -> Result<(), Fail> {
    for (point, count, all) in [
        (0x61, 0, 4096),
        (0xe9, 2048, 2048),
        (0x20ac, 1365, 1366),
        (0x1f600, 1024, 1024),
    ] {
        for more in 0..2 {
            let text = points(rt.alloc(), point, count, all + more)?;
            let term = pair(rt.alloc(), atom(word(rt.alloc(), "if_name_matches")?), text)?;
            assert_eq!(rt; is_read(rt.alloc(), &term)?, more == 0, "{point} {more}");
        }
    }
    Ok(())
}

// A list of so many names, with a number at one place.
fn components(alloc: Global, count: usize, wrong: usize) -> Result<Term, NoMemory> {
    let mut terms = Terms::new(alloc);
    for at in 0..count {
        if at == wrong {
            terms.push(int(1))?;
        } else {
            terms.push(atom(word(alloc, "a")?))?;
        }
    }
    list(alloc, terms)
}

// The number at fault in a pattern; of one that is read, 1,000 and the number of names of its target.
fn number_of(alloc: Global, term: &Term) -> Result<usize, Fail> {
    match read_pattern(alloc, term) {
        Ok(pattern) => {
            let short = pattern_term(alloc, &pattern)?;
            match Exact::new(pattern) {
                Some(exact) if compare(&short, term).is_eq() => {
                    Ok(1000 + exact.target(alloc)?.names().len())
                }
                _ => Ok(0),
            }
        }
        Err(CondError::BadCondition(at)) => Ok(at as usize),
        Err(CondError::NoMemory) => Err(NoMemory.into()),
    }
}

#[test]
fn patterns_are_read(rt: HostRuntime) -> Result<(), Fail> {
    for (count, wrong, number) in [
        (0, 99, 1000),
        (32, 99, 1032),
        (33, 99, 33),
        (33, 4, 5),
        (3, 0, 1),
        (40, 34, 33),
    ] {
        let term = components(rt.alloc(), count, wrong)?;
        assert_eq!(rt; number_of(rt.alloc(), &term)?, number, "{count} {wrong}");
    }
    let rows: [(char, &[i128], usize); 4] = [
        ('i', &[0], 0),
        ('t', &[0], 0),
        ('l', &[97, 98], 1),
        ('l', &[0, 1, 2], 2),
    ];
    for (at, (kind, parts, number)) in rows.iter().enumerate() {
        let term = term(rt.alloc(), *kind, parts)?;
        assert_eq!(rt; number_of(rt.alloc(), &term)?, *number, "row {at}");
    }
    Ok(())
}

fn path_regex(alloc: Global) -> Result<Term, NoMemory> {
    pair(
        alloc,
        atom(word(alloc, "if_path_matches")?),
        atom(word(alloc, "any")?),
    )
}

// A combination of the last term, perhaps behind another.
fn combined(alloc: Global, name: &str, first: Option<Term>, last: Term) -> Result<Term, NoMemory> {
    let mut parts = Terms::new(alloc);
    if let Some(first) = first {
        parts.push(first)?;
    }
    parts.push(last)?;
    pair(alloc, atom(word(alloc, name)?), list(alloc, parts)?)
}

// The component `{if_path_matches,any}`, a name, or a term round the one so far.
fn wrapped(alloc: Global, letter: u8, inner: Term) -> Result<Term, NoMemory> {
    match letter {
        b'p' => path_regex(alloc),
        b'o' => Ok(atom(word(alloc, "oak")?)),
        b'n' => pair(alloc, atom(word(alloc, "if_not")?), inner),
        b'y' => combined(alloc, "if_any", None, inner),
        b'l' => combined(alloc, "if_all", None, inner),
        b'2' => combined(alloc, "if_all", Some(atom(word(alloc, "oak")?)), inner),
        _ => combined(alloc, "if_all", Some(path_regex(alloc)?), inner),
    }
}

// Whether a term is a component, which is written as it was and has no texts.
fn is_component(alloc: Global, component: Term) -> Result<bool, Fail> {
    let mut components = Terms::new(alloc);
    components.push(component)?;
    let term = list(alloc, components)?;
    match read_pattern(alloc, &term) {
        Ok(pattern) => {
            let mut texts = Texts::new(alloc);
            push_pattern_texts(alloc, &pattern, &mut texts)?;
            let again = pattern_term(alloc, &pattern)?;
            Ok(texts.len() == 0 && compare(&again, &term).is_eq())
        }
        Err(CondError::BadCondition(1)) => Ok(false),
        Err(_) => Err(NoMemory.into()),
    }
}

// Whether a component that is built from the inside out is one as the sign says.
fn is_placed(alloc: Global, row: &[u8]) -> Result<bool, Fail> {
    match row {
        [sign, letters @ ..] => {
            let mut term = nil();
            for letter in letters {
                term = wrapped(alloc, *letter, term)?;
            }
            Ok(is_component(alloc, term)? == (*sign == b'+'))
        }
        [] => Ok(false),
    }
}

// `-pn` is `{if_not,{if_path_matches,any}}`, which is none.
#[test]
fn path_regexes_stand_first(rt: HostRuntime) -> Result<(), Fail> {
    for row in "+p +pl +o1 +on1 -pn -py -p2 -p1 -pll -pl2 -pl1 -pn1 -ply -pln".split(' ') {
        assert!(rt; is_placed(rt.alloc(), row.as_bytes())?, "{row}");
    }
    Ok(())
}

// The terms of the table of data patterns; a 0 is the atom `_`.
fn term(alloc: Global, kind: char, parts: &[i128]) -> Result<Term, NoMemory> {
    let mut terms = Terms::new(alloc);
    for part in parts {
        terms.push(part_term(alloc, *part)?)?;
    }
    match kind {
        't' => Ok(tuple(terms)),
        'l' => list(alloc, terms),
        'i' => list_with_tail(alloc, terms, int(5)),
        'c' => closure_of(alloc, terms),
        'k' => map_of_one(alloc, atom(word(alloc, "_")?), tuple(terms)),
        'v' => map_of_one(alloc, int(1), tuple(terms)),
        _ => list_with_tail(alloc, terms, atom(word(alloc, "_")?)),
    }
}

// The closure of a function of up to two arguments that captured these values.
fn closure_of(alloc: Global, captured: Terms) -> Result<Term, NoMemory> {
    if captured.len() > 2 {
        return Err(NoMemory);
    }
    let module = word(alloc, "m")?;
    let name = word(alloc, "f")?;
    let origin = Origin {
        module,
        name,
        arity: 2,
    };
    Ok(closure(origin, captured))
}

fn part_term(alloc: Global, part: i128) -> Result<Term, NoMemory> {
    if part == 0 {
        return Ok(atom(word(alloc, "_")?));
    }
    Ok(int(part))
}

#[test]
fn data_match(rt: HostRuntime) -> Result<(), Fail> {
    let rows: [(char, &[i128], char, &[i128], bool); 14] = [
        ('t', &[0, 7], 't', &[1, 7], true),
        ('t', &[0, 7], 't', &[1, 8], false),
        ('v', &[0], 'v', &[3], true),
        ('k', &[1], 'v', &[1], false),
        ('k', &[1], 'k', &[1], true),
        ('a', &[1], 'l', &[1], true),
        ('a', &[1], 'l', &[1, 2], true),
        ('a', &[1], 'i', &[1], true),
        ('a', &[1], 'l', &[], false),
        ('l', &[1, 2], 'l', &[1], false),
        ('c', &[1], 'c', &[1], true),
        ('c', &[1], 'c', &[2], false),
        ('c', &[0], 'c', &[1], false),
        ('c', &[1], 't', &[1], false),
    ];
    for (at, (kind, pattern, other, datum, wanted)) in rows.iter().enumerate() {
        let pattern = term(rt.alloc(), *kind, pattern)?;
        let datum = term(rt.alloc(), *other, datum)?;
        assert_eq!(rt; matches_data(&pattern, &datum), *wanted, "row {at}");
    }
    Ok(())
}

// The texts `a`, `b`, `a` and `c`.
fn four_texts(alloc: Global) -> Result<Texts, NoMemory> {
    let mut parts = Items::new(alloc);
    for text in ["a", "b", "a", "c"] {
        parts.push(name_matches(alloc, text)?)?;
    }
    let mut texts = Texts::new(alloc);
    push_cond_texts(alloc, &Cond::Any(parts), &mut texts)?;
    Ok(texts)
}

#[test]
fn texts_are_prepared_once(rt: HostRuntime) -> Result<(), Fail> {
    let texts = four_texts(rt.alloc())?;
    for refused in 1..4 {
        let listed = [refused].to_vec(rt.alloc())?;
        let mut patterns = PlainPatterns::new(rt.alloc(), listed)?;
        assert_eq!(rt; patterns.prepare("b"), Ok(()));
        assert!(rt; texts.len() < 100 && patterns.count() < 100);
        let answer = prepare(&texts, &mut patterns);
        assert_eq!(rt; answer.is_ok(), refused > 2);
        assert_eq!(rt; patterns.count(), if refused > 2 { 3 } else { 1 });
    }
    Ok(())
}

fn words(alloc: Global, texts: &[&str]) -> Result<Term, NoMemory> {
    let mut terms = Terms::new(alloc);
    for text in texts {
        terms.push(atom(word(alloc, text)?))?;
    }
    list(alloc, terms)
}

// Whether a path is watched, in a map that it and the condition `{if_name_matches,<<"a">>}` make, which is written as it was.
fn is_watched(alloc: Global, path: Term) -> Result<bool, Fail> {
    let cond = cond_term(alloc, &name_matches(alloc, "a")?)?;
    let term = map_of_one(alloc, path, cond)?;
    match read_watching(alloc, &term) {
        Ok(watching) => {
            let mut texts = Texts::new(alloc);
            push_watching_texts(alloc, &watching, &mut texts)?;
            let again = watching_term(alloc, &watching)?;
            Ok(texts.len() == 1 && compare(&again, &term).is_eq())
        }
        Err(CondError::BadCondition(1)) => Ok(false),
        Err(_) => Err(NoMemory.into()),
    }
}

#[test]
fn watched_paths_are_read(rt: HostRuntime) -> Result<(), Fail> {
    let rows: [(&[&str], bool); 6] = [
        (&[], true),
        (&["."], true),
        (&["^", "a"], true),
        (&["a", "."], false),
        (&[".", "^"], false),
        (&[""], false),
    ];
    for (at, (path, wanted)) in rows.iter().enumerate() {
        let path = words(rt.alloc(), path)?;
        assert_eq!(rt; is_watched(rt.alloc(), path)?, *wanted, "row {at}");
    }
    for (count, wanted) in [(32, true), (33, false)] {
        let path = components(rt.alloc(), count, 99)?;
        assert_eq!(rt; is_watched(rt.alloc(), path)?, wanted, "{count}");
    }
    assert!(rt; read_watching(rt.alloc(), &int(1)).is_err());
    Ok(())
}
