//! Commands as they are logged, and the room of a log. What is expected was worked out by hand.
use crate::command::{pack_put, read_put};
use crate::replay::has_room;
use kh_term::{Atom, Name, Path};
use std::alloc::Global;
use std::test::Fail;

// A put of -7 to the path `[a,b]`, and the same with a byte more.
const PACKED: &[u8] =
    b"\x06\0\0\0\x04\x02\x03put\x05\0\0\0\x02\x02\x01a\x02\x01b\x04\x01\x01\xf9\x07\0\0\0\0";

const PACKED_AND_MORE: &[u8] =
    b"\x06\0\0\0\x04\x02\x03put\x05\0\0\0\x02\x02\x01a\x02\x01b\x04\x01\x01\xf9\x07\0\0\0\0\0";

// The path `[a,b]`.
fn path_of_two(alloc: Global) -> Result<Path, Fail> {
    let mut names = Vec::new(alloc);
    for text in [b"a", b"b"] {
        let atom = Atom::new(text.to_vec(alloc)?).ok_or("no atom")?;
        names.push(Name::Atom(atom))?;
    }
    Ok(Path::new(names).ok_or("no path")?)
}

#[test]
fn a_put_is_packed_and_read_back(rt: HostRuntime) -> Result<(), Fail> {
    let alloc = rt.alloc();
    let path = path_of_two(alloc)?;
    let bytes = pack_put(alloc, &path, -7)?;
    assert_eq!(rt; bytes.as_slice(), PACKED);
    let (read, number) = read_put(alloc, PACKED)?.ok_or("no put")?;
    assert!(rt; read == path);
    assert_eq!(rt; number, -7);
    for len in 0..30 {
        let front = read_put(alloc, &PACKED[..len])?;
        assert!(rt; front.is_none());
    }
    let more = read_put(alloc, PACKED_AND_MORE)?;
    assert!(rt; more.is_none());
    Ok(())
}

#[test]
fn a_log_has_room_up_to_its_limit(rt: HostRuntime) -> Result<(), Fail> {
    let rows: [(u64, usize, bool); 7] = [
        (0, 0, true),
        (0, 134_217_722, true),
        (0, 134_217_723, false),
        (134_217_695, 27, true),
        (134_217_695, 28, false),
        (134_217_728, 0, false),
        (u64::MAX, usize::MAX, false),
    ];
    for (span, length, has) in rows {
        assert_eq!(rt; has_room(span, length), has);
    }
    Ok(())
}
