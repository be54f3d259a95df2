// That each answer is given where memory is found; the clauses say which it is.
use crate::{bad_map, boolean, integer, made, number, raise, raise_made};
use kh_heap::{BifError, Heap, HeapError, Ref};
use std::test::Fail;

fn is_raise(answer: Result<Ref, BifError>) -> bool {
    match answer {
        Ok(_) => false,
        Err(
            BifError::Raise {
                class: _,
                reason: _,
            },
        ) => true,
        Err(BifError::NoMemory) => false,
    }
}

#[test]
fn values_are_given(rt: HostRuntime) {
    let mut heap = Heap::new(rt.alloc());
    assert!(rt; boolean(rt.alloc(), true, &mut heap).is_ok());
    assert!(rt; boolean(rt.alloc(), false, &mut heap).is_ok());
    assert!(rt; number(rt.alloc(), Some(7), &mut heap).is_ok());
    let eight = heap.int(8);
    assert!(rt; made(rt.alloc(), eight, &mut heap).is_ok());
}

#[test]
fn errors_are_raised(rt: HostRuntime) -> Result<(), Fail> {
    let mut heap = Heap::new(rt.alloc());
    let seven = heap.int(7)?;
    assert_eq!(rt; integer(seven, &heap), Some(7));
    assert!(rt; is_raise(raise(rt.alloc(), "badarg", &mut heap)));
    assert!(rt; is_raise(number(rt.alloc(), None, &mut heap)));
    assert!(rt; is_raise(bad_map(rt.alloc(), seven, &mut heap)));
    assert!(rt; is_raise(made(rt.alloc(), Err(HeapError::TooLarge), &mut heap)));
    assert!(rt; is_raise(raise_made(rt.alloc(), Ok(seven), &mut heap)));
    Ok(())
}
