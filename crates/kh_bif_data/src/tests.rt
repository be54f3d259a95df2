// Each operation once where memory is found; the clauses say what it answers.
ghost use Rattle.std.specs.Prelude.{◌≡◌, length, IfOk, IfSome};
ghost use Rattle.kh_heap.specs.Heap.{Holds, HoldsAll};

use crate::{arity, call, extra, operation_of};
use kh_heap::{BifError, Heap, Ref};
use kh_instr::Builtin;
use kh_term::{Bytes, NoMemory, Term, Terms, bin, compare, int, list, map_of_one, nil, pair, word};
use std::alloc::Global;
use std::test::Fail;

const MANY: u32 = 1_000_000;

// Terms as references, where they are few.
fn loaded(alloc: Global, terms: &[Term], heap: &mut Heap) -> Option<Vec<Ref>>
    ensures held { IfSome result (λ rs. HoldsAll heap.new rs.items) }
    ensures count { IfSome result (λ rs. length rs.items ≡ length terms.now) }
{
    let mut refs = Vec::new(alloc);
    for term in terms {
        if heap.len() > MANY {
            return None;
        }
        refs.push(heap.load(term).ok()?).ok()?;
    }
    Some(refs)
}

// Calls a built-in with terms that are loaded first, where they cost little.
fn called(alloc: Global, b: Builtin, args: &[Term], heap: &mut Heap) -> Result<Ref, BifError>
    ensures { IfOk result (Holds heap.new) }
{
    if operation_of(b).is_none() || args.len() != arity(b) {
        return Err(BifError::NoMemory);
    }
    let Some(refs) = loaded(alloc, args, heap) else {
        return Err(BifError::NoMemory);
    };
    let cost = extra(b, refs.as_slice(), heap);
    if heap.len() > MANY || cost > u64::from(MANY) {
        return Err(BifError::NoMemory);
    }
    call(alloc, b, refs.as_slice(), heap)
}

// The value; none where the call raises, and where memory is wanting.
fn answered(alloc: Global, b: Builtin, args: &[Term]) -> Option<Term> {
    let mut heap = Heap::new(alloc);
    match called(alloc, b, args, &mut heap) {
        Ok(value) => heap.store(value).ok(),
        Err(_) => None,
    }
}

fn raises(alloc: Global, b: Builtin, args: &[Term]) -> bool {
    let mut heap = Heap::new(alloc);
    match called(alloc, b, args, &mut heap) {
        Ok(_) => false,
        Err(
            BifError::Raise {
                class: _,
                reason: _,
            },
        ) => true,
        Err(BifError::NoMemory) => false,
    }
}

fn is(found: Option<Term>, wanted: &Term) -> bool {
    match found {
        Some(term) => compare(&term, wanted).is_eq(),
        None => false,
    }
}

// The list of two integers.
fn two(alloc: Global, first: i128, second: i128) -> Result<Term, NoMemory> {
    let mut terms = Terms::new(alloc);
    terms.push(int(first))?;
    terms.push(int(second))?;
    list(alloc, terms)
}

// The list of one term.
fn one(alloc: Global, term: Term) -> Result<Term, NoMemory> {
    let mut terms = Terms::new(alloc);
    terms.push(term)?;
    list(alloc, terms)
}

fn text(alloc: Global, bytes: &[u8]) -> Result<Term, NoMemory> {
    let bytes = Vec::from_slice(alloc, bytes)?;
    Ok(bin(Bytes::new(bytes)))
}

#[test]
fn maps(rt: HostRuntime) -> Result<(), Fail> {
    let alloc = rt.alloc();
    let yes = word(alloc, "true")?;
    let map = map_of_one(alloc, int(1), int(2))?;
    let found = answered(
        alloc,
        Builtin::MapGet,
        &[int(1), map_of_one(alloc, int(1), int(2))?],
    );
    assert!(rt; is(found, &int(2)));
    let found = answered(
        alloc,
        Builtin::IsMapKey,
        &[int(1), map_of_one(alloc, int(1), int(2))?],
    );
    assert!(rt; is(found, &yes));
    let found = answered(
        alloc,
        Builtin::MapsFind,
        &[int(3), map_of_one(alloc, int(1), int(2))?],
    );
    assert!(rt; is(found, &word(alloc, "error")?));
    let found = answered(
        alloc,
        Builtin::MapsPut,
        &[int(1), int(2), map_of_one(alloc, int(1), nil())?],
    );
    assert!(rt; is(found, &map));
    let found = answered(
        alloc,
        Builtin::MapsRemove,
        &[int(3), map_of_one(alloc, int(1), int(2))?],
    );
    assert!(rt; is(found, &map));
    let found = answered(
        alloc,
        Builtin::MapsKeys,
        &[map_of_one(alloc, int(1), int(2))?],
    );
    assert!(rt; is(found, &one(alloc, int(1))?));
    let found = answered(
        alloc,
        Builtin::MapsValues,
        &[map_of_one(alloc, int(1), int(2))?],
    );
    assert!(rt; is(found, &one(alloc, int(2))?));
    let found = answered(
        alloc,
        Builtin::MapsToList,
        &[map_of_one(alloc, int(1), int(2))?],
    );
    assert!(rt; is(found, &one(alloc, pair(alloc, int(1), int(2))?)?));
    let first = map_of_one(alloc, int(1), nil())?;
    let found = answered(
        alloc,
        Builtin::MapsMerge,
        &[first, map_of_one(alloc, int(1), int(2))?],
    );
    assert!(rt; is(found, &map));
    let found = answered(
        alloc,
        Builtin::MapsFromList,
        &[one(alloc, pair(alloc, int(1), int(2))?)?],
    );
    assert!(rt; is(found, &map));
    Ok(())
}

#[test]
fn lists(rt: HostRuntime) -> Result<(), Fail> {
    let alloc = rt.alloc();
    let no = word(alloc, "false")?;
    let found = answered(
        alloc,
        Builtin::Append,
        &[one(alloc, int(1))?, one(alloc, int(2))?],
    );
    assert!(rt; is(found, &two(alloc, 1, 2)?));
    let found = answered(alloc, Builtin::ListsReverse, &[two(alloc, 1, 2)?]);
    assert!(rt; is(found, &two(alloc, 2, 1)?));
    let found = answered(
        alloc,
        Builtin::ListsReverseOnto,
        &[one(alloc, int(1))?, one(alloc, int(2))?],
    );
    assert!(rt; is(found, &two(alloc, 1, 2)?));
    let found = answered(alloc, Builtin::ListsMember, &[int(3), two(alloc, 1, 2)?]);
    assert!(rt; is(found, &no));
    let tuple = pair(alloc, int(1), int(2))?;
    let found = answered(
        alloc,
        Builtin::ListsKeyfind,
        &[int(2), int(2), one(alloc, pair(alloc, int(1), int(2))?)?],
    );
    assert!(rt; is(found, &tuple));
    let found = answered(
        alloc,
        Builtin::Setelement,
        &[int(2), pair(alloc, int(1), nil())?, int(2)],
    );
    assert!(rt; is(found, &tuple));
    let found = answered(alloc, Builtin::TupleToList, &[pair(alloc, int(1), int(2))?]);
    assert!(rt; is(found, &two(alloc, 1, 2)?));
    let found = answered(alloc, Builtin::ListToTuple, &[two(alloc, 1, 2)?]);
    assert!(rt; is(found, &tuple));
    Ok(())
}

#[test]
fn binaries(rt: HostRuntime) -> Result<(), Fail> {
    let alloc = rt.alloc();
    let found = answered(alloc, Builtin::AtomToBinary, &[word(alloc, "a")?]);
    assert!(rt; is(found, &text(alloc, b"a")?));
    let found = answered(alloc, Builtin::IntegerToBinary, &[int(-12)]);
    assert!(rt; is(found, &text(alloc, b"-12")?));
    let found = answered(alloc, Builtin::BinaryToList, &[text(alloc, &[1, 2])?]);
    assert!(rt; is(found, &two(alloc, 1, 2)?));
    let found = answered(alloc, Builtin::IolistToBinary, &[two(alloc, 1, 2)?]);
    assert!(rt; is(found, &text(alloc, &[1, 2])?));
    let found = answered(alloc, Builtin::BinaryToInteger, &[text(alloc, b"+7")?]);
    assert!(rt; is(found, &int(7)));
    assert!(rt; raises(alloc, Builtin::BinaryToInteger, &[text(alloc, b"-")?]));
    assert!(rt; raises(alloc, Builtin::Throw, &[int(7)]));
    Ok(())
}
