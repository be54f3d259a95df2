//! Logs in the files of a host in memory.
use crate::{Log, LogError, prepare};
use kh_io::{FileBytes, Files, Host, MemoryHost};
use std::alloc::Global;
use std::process::Abort;
use std::test::Fail;

const ROOM: u64 = 16_777_216;

// Two records, `ab` and `c`, and a closed gate.
const TWO: &[u8] = b"\xa5\0\0\0\x02ab\xa5\0\0\0\x01c\0";

fn host(alloc: Global, log: &[u8], failing: &[u64]) -> Result<MemoryHost, Fail> {
    let files = Files {
        s0: FileBytes::new(Vec::new(alloc)),
        l0: FileBytes::new(log.to_vec(alloc)?),
        s1: FileBytes::new(Vec::new(alloc)),
        l1: FileBytes::new(Vec::new(alloc)),
    };
    Ok(MemoryHost::new(alloc, Vec::new(alloc), files, failing.to_vec(alloc)?, ROOM)?)
}

// How many records `open` finds, through the trait.
fn count<H: Host>(host: &mut H) -> Result<u64, LogError> {
    let log = Log::open(host, 1)?;
    Ok(log.records())
}

fn check(rt: &impl Abort, got: Result<u64, LogError>, want: Result<u64, LogError>) {
    assert_eq!(rt; got, want);
}

#[test]
fn a_file_is_cut_at_every_length(rt: HostRuntime) -> Result<(), Fail> {
    let alloc = rt.alloc();
    let wanted = [
        Ok(0),
        Ok(0),
        Err(LogError::NotALog(1)),
        Err(LogError::NotALog(1)),
        Err(LogError::NotALog(1)),
        Err(LogError::NotALog(1)),
        Err(LogError::NotALog(1)),
        Err(LogError::NotALog(1)),
        Err(LogError::NotALog(8)),
        Err(LogError::NotALog(8)),
        Err(LogError::NotALog(8)),
        Err(LogError::NotALog(8)),
        Err(LogError::NotALog(8)),
        Err(LogError::NotALog(8)),
        Ok(2),
    ];
    for len in 0..15 {
        let mut host = host(alloc, &TWO[..len], &[])?;
        check(&rt, count(&mut host), wanted[len]);
    }
    Ok(())
}

// A log, and what `open` finds in it.
struct Row {
    log: &'static [u8],
    want: Result<u64, LogError>,
}

static ROWS: [Row; 6] = [
    Row {
        log: b"\0\xa5\0\0\0\0\0",
        want: Ok(0),
    },
    Row {
        log: b"\x01\0\0\0\0\0",
        want: Ok(0),
    },
    Row {
        log: b"\xa5\0\0\0\0\0junk",
        want: Ok(1),
    },
    // an empty record without its next gate
    Row {
        log: b"\xa5\0\0\0\0",
        want: Err(LogError::NotALog(1)),
    },
    // a length that is one too large
    Row {
        log: b"\xa5\0\0\0\x03ab\0",
        want: Err(LogError::NotALog(1)),
    },
    Row {
        log: b"\xa5\0\0\0\x02ab\xa5\0\0\0\x02c\0",
        want: Err(LogError::NotALog(8)),
    },
];

#[test]
fn open_follows_the_gates(rt: HostRuntime) -> Result<(), Fail> {
    let alloc = rt.alloc();
    for row in &ROWS {
        let mut host = host(alloc, row.log, &[])?;
        check(&rt, count(&mut host), row.want);
    }
    Ok(())
}

#[test]
fn a_failed_call_is_a_fault(rt: HostRuntime) -> Result<(), Fail> {
    let alloc = rt.alloc();
    // the length, and then a read at each of three gates
    for number in 0..4 {
        let mut host = host(alloc, TWO, &[number])?;
        check(&rt, count(&mut host), Err(LogError::DiskFault));
    }
    let mut host = host(alloc, TWO, &[4])?;
    check(&rt, count(&mut host), Ok(2));
    Ok(())
}

// Appends two records to a log that has none.
fn append_two<H: Host>(alloc: Global, host: &mut H) -> Result<(), LogError> {
    let first = prepare(alloc, b"ab".to_vec(alloc)?).map_err(|_| LogError::NoMemory)?;
    let second = prepare(alloc, b"c".to_vec(alloc)?).map_err(|_| LogError::NoMemory)?;
    host.sync(1)?;
    if host.len(1)? < 2 {
        return Err(LogError::NotALog(0));
    }
    let mut log = Log::open(host, 1)?;
    if log.records() != 0 || log.end() > 100 {
        return Err(LogError::NotALog(0));
    }
    log.append(host, &first)?;
    if log.end() > 100 {
        return Err(LogError::NotALog(0));
    }
    log.append(host, &second)?;
    Ok(())
}

// How many records stand in file 1 of the crash image after so many calls; they are read and are the first of `ab` and `c`.
fn count_in_image(
    rt: &impl Abort,
    alloc: Global,
    host: &MemoryHost,
    calls: u64,
    fill: Option<u8>,
) -> Result<u64, Fail> {
    if calls > host.calls() {
        return Err(Fail::from("fewer calls were made"));
    }
    let files = host.image(calls, fill)?;
    let mut again = MemoryHost::new(alloc, Vec::new(alloc), files, Vec::new(alloc), ROOM)?;
    let records = count(&mut again)?;
    let (first, second, ended) = read_two(alloc, &mut again)?;
    assert_eq!(rt;
        held(&first),
        if records < 1 {
            b"none".as_slice()
        } else {
            b"ab"
        }
    );
    assert_eq!(rt;
        held(&second),
        if records < 2 {
            b"none".as_slice()
        } else {
            b"c"
        }
    );
    assert_eq!(rt; ended, true);
    Ok(records)
}

fn check_image(
    rt: &impl Abort,
    alloc: Global,
    host: &MemoryHost,
    calls: u64,
    want: &[u64; 3],
) -> Result<(), Fail> {
    let got = [
        count_in_image(rt, alloc, host, calls, None)?,
        count_in_image(rt, alloc, host, calls, Some(0))?,
        count_in_image(rt, alloc, host, calls, Some(0xa5))?,
    ];
    assert_eq!(rt; &got, want);
    Ok(())
}

// The records in each image after a call: as written, filled with `00`, and with open gates.
static IMAGES: [[u64; 3]; 13] = [
    [0, 0, 0],
    [0, 0, 0],
    [0, 0, 0],
    [0, 0, 0],
    [0, 0, 0],
    // the first record is written, its gate not
    [0, 0, 0],
    [0, 0, 0],
    // its gate is written
    [1, 0, 1],
    [1, 1, 1],
    [1, 1, 1],
    [1, 1, 1],
    [2, 1, 2],
    [2, 2, 2],
];

#[test]
fn a_crash_leaves_the_records_before_or_after(rt: HostRuntime) -> Result<(), Fail> {
    let alloc = rt.alloc();
    let mut host = host(alloc, b"\0\0", &[])?;
    let done = append_two(alloc, &mut host);
    assert_eq!(rt; done, Ok(()));
    for calls in 0..13 {
        check_image(&rt, alloc, &host, calls, &IMAGES[calls as usize])?;
    }
    Ok(())
}

#[test]
fn each_failed_call_of_an_append_is_a_fault(rt: HostRuntime) -> Result<(), Fail> {
    let alloc = rt.alloc();
    for number in 0..12 {
        let mut host = host(alloc, b"\0\0", &[number])?;
        let done = append_two(alloc, &mut host);
        assert_eq!(rt; done, Err(LogError::DiskFault));
    }
    Ok(())
}

// The records of a log that has two, and whether nothing stands behind them.
fn read_two<H: Host>(
    alloc: Global,
    host: &mut H,
) -> Result<(Option<Vec<u8>>, Option<Vec<u8>>, bool), LogError> {
    let mut log = Log::open(host, 1)?;
    let first = log.read(alloc, host)?;
    let second = log.read(alloc, host)?;
    let none = log.read(alloc, host)?;
    Ok((first, second, none.is_none()))
}

#[test]
fn records_are_read_in_order(rt: HostRuntime) -> Result<(), Fail> {
    let alloc = rt.alloc();
    let mut host = host(alloc, TWO, &[])?;
    let (first, second, ended) = read_two(alloc, &mut host)?;
    assert_eq!(rt; held(&first), b"ab".as_slice());
    assert_eq!(rt; held(&second), b"c".as_slice());
    assert_eq!(rt; ended, true);
    Ok(())
}

// The length of the first record of a log.
fn first_length<H: Host>(host: &mut H) -> Result<Option<u64>, LogError> {
    let log = Log::open(host, 1)?;
    log.next_length(host)
}

#[test]
fn a_length_is_told_before_its_record_is_read(rt: HostRuntime) -> Result<(), Fail> {
    let alloc = rt.alloc();
    let mut host = host(alloc, TWO, &[])?;
    let length = first_length(&mut host)?;
    assert_eq!(rt; length, Some(2));
    // the length of the file, a read at each of three gates, and one of four bytes
    assert_eq!(rt; host.calls(), 5);
    Ok(())
}

fn held(record: &Option<Vec<u8>>) -> &[u8] {
    match record {
        Some(bytes) => bytes.as_slice(),
        None => b"none",
    }
}
