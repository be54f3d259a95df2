//! Stores that are opened again: over files of known bytes, over damaged ones, and over what a crash leaves.
//! The bytes of the files were worked out by hand.
use super::{ROOM, files_of, run};
use kh_io::{Disk, Files, Host, MemoryHost};
use std::alloc::Global;
use std::process::Abort;
use std::test::Fail;

// The log of one put of 150 to the path `[stock]`, and the gate behind it.
const STOCK: &[u8] =
    b"\xa5\0\0\0\x20\x06\0\0\0\x04\x02\x03put\x05\0\0\0\x01\x02\x05stock\x04\x01\x02\0\x96\x07\0\0\0\0\0";

// The same, and a record behind it that is no command.
const PUT_AND_MORE: &[u8] =
    b"\xa5\0\0\0\x20\x06\0\0\0\x04\x02\x03put\x05\0\0\0\x01\x02\x05stock\x04\x01\x02\0\x96\x07\0\0\0\0\xa5\0\0\0\x01\x04\0";

// The same, and behind it what is left of 50 bytes `z` that stood behind the gate before the put.
const STOCK_AND_REST: &[u8] =
    b"\xa5\0\0\0\x20\x06\0\0\0\x04\x02\x03put\x05\0\0\0\x01\x02\x05stock\x04\x01\x02\0\x96\x07\0\0\0\0\0zzzzzzzzzzzzz";

// The same put behind a gate that is still closed.
const STOCK_BEHIND_ITS_GATE: &[u8] =
    b"\0\0\0\0\x20\x06\0\0\0\x04\x02\x03put\x05\0\0\0\x01\x02\x05stock\x04\x01\x02\0\x96\x07\0\0\0\0\0";

const GET_STOCK: &[u8] = b"{get,[stock]}.\n";

const FOUND: &[u8] = b"{ok,150}.\n";

const NO_STOCK: &[u8] = b"{error,{khepri,node_not_found,#{node_path => [stock]}}}.\n";

// What bytes that aren't yet safe may be found as.
const FILLS: [Option<u8>; 4] = [None, Some(0), Some(0x5a), Some(0xa5)];

// A host over these files, before its first call.
fn host_over(
    alloc: Global,
    files: Files,
    script: &[u8],
    failing: &[u64],
) -> Result<MemoryHost, Fail> {
    let (script, failing) = (script.to_vec(alloc)?, failing.to_vec(alloc)?);
    Ok(MemoryHost::new(alloc, script, files, failing, ROOM)?)
}

// The files that a crash after so many calls may leave.
fn image(host: &MemoryHost, calls: u64, fill: Option<u8>) -> Result<Files, Fail> {
    if calls > host.calls() {
        return Err(Fail::from("fewer calls were made"));
    }
    Ok(host.image(calls, fill)?)
}

// The program over these files answers so.
fn reopens(
    rt: &impl Abort,
    alloc: Global,
    files: Files,
    script: &[u8],
    output: &[u8],
    status: u8,
) -> Result<(), Fail> {
    let mut host = host_over(alloc, files, script, &[])?;
    assert_eq!(rt; run(alloc, &mut host)?, status);
    assert_eq!(rt; host.output(), output);
    Ok(())
}

// The program over a log answers so, and a read finds the log afterwards as it was.
fn leaves(
    rt: &impl Abort,
    alloc: Global,
    log: &[u8],
    output: &[u8],
    status: u8,
) -> Result<(), Fail> {
    let mut host = host_over(alloc, files_of(alloc, log)?, GET_STOCK, &[])?;
    assert_eq!(rt; run(alloc, &mut host)?, status);
    assert_eq!(rt; host.output(), output);
    let after = image(&host, host.calls(), None)?;
    assert_eq!(rt; after.l0.as_slice(), log);
    Ok(())
}

// A log of these records, each shorter than 256 bytes.
fn log_of(alloc: Global, records: &[&[u8]]) -> Result<Vec<u8>, Fail> {
    let mut log = Vec::new(alloc);
    for record in records {
        log.extend_from_slice(&[0xa5, 0, 0, 0, record.len().min(255) as u8])?;
        log.extend_from_slice(record)?;
    }
    log.push(0)?;
    Ok(log)
}

#[test]
fn a_put_is_found_again(rt: HostRuntime) -> Result<(), Fail> {
    let alloc = rt.alloc();
    let mut host = host_over(alloc, files_of(alloc, b"")?, b"{put,[stock],150}.\n", &[])?;
    assert_eq!(rt; run(alloc, &mut host)?, 0);
    assert_eq!(rt; host.output(), b"ok.\n".as_slice());
    let after = image(&host, host.calls(), None)?;
    assert_eq!(rt; after.l0.as_slice(), STOCK);
    reopens(&rt, alloc, after, GET_STOCK, FOUND, 0)
}

// A log, a script and the calls that fail; then the status, and the log afterwards, to the last byte.
struct Logged {
    log: &'static [u8],
    script: &'static [u8],
    failing: &'static [u64],
    status: u8,
    after: &'static [u8],
}

// Over an empty file call 9 takes the script, calls 10 to 13 log the put, call 14 gives its reply, and call 15 takes what comes behind.
static LOGGED: [Logged; 8] = [
    Logged {
        log: b"",
        script: b"{put,[stock],150}.\n",
        failing: &[],
        status: 0,
        after: STOCK,
    },
    Logged {
        log: b"",
        script: b"{put,[stock],150}.\n{put",
        failing: &[],
        status: 2,
        after: STOCK,
    },
    Logged {
        log: b"",
        script: b"{put,[stock],150}.\n",
        failing: &[15],
        status: 3,
        after: STOCK,
    },
    Logged {
        log: b"",
        script: b"{put,[stock],150}.\n{put,[stock],1}.\n",
        failing: &[14],
        status: 4,
        after: STOCK,
    },
    // The sync of the record fails, and that of its gate.
    Logged {
        log: b"",
        script: b"{put,[stock],150}.\n",
        failing: &[11],
        status: 5,
        after: STOCK_BEHIND_ITS_GATE,
    },
    Logged {
        log: b"",
        script: b"{put,[stock],150}.\n",
        failing: &[13],
        status: 5,
        after: STOCK,
    },
    // A gate that is closed by another byte than `00`, and what stands behind it.
    Logged {
        log: b"\x01zzzzzzzzzzzzzzzzzzzzzzzzzzzzzzzzzzzzzzzzzzzzzzzzzz",
        script: b"{put,[stock],150}.\n",
        failing: &[],
        status: 0,
        after: STOCK_AND_REST,
    },
    Logged {
        log: b"\x01zz",
        script: GET_STOCK,
        failing: &[],
        status: 0,
        after: b"\x01zz",
    },
];

#[test]
fn a_log_holds_what_was_executed_and_what_it_held(rt: HostRuntime) -> Result<(), Fail> {
    let alloc = rt.alloc();
    for row in &LOGGED {
        let mut host = host_over(alloc, files_of(alloc, row.log)?, row.script, row.failing)?;
        assert_eq!(rt; run(alloc, &mut host)?, row.status);
        let after = image(&host, host.calls(), None)?;
        assert_eq!(rt; after.l0.as_slice(), row.after);
    }
    Ok(())
}

#[test]
fn a_log_is_cut_at_every_length(rt: HostRuntime) -> Result<(), Fail> {
    let alloc = rt.alloc();
    for len in 0..2 {
        let files = files_of(alloc, &STOCK[..len])?;
        reopens(&rt, alloc, files, GET_STOCK, NO_STOCK, 0)?;
    }
    for len in 2..38 {
        leaves(&rt, alloc, &STOCK[..len], b"{damaged,1,1}.\n", 1)?;
    }
    leaves(&rt, alloc, STOCK, FOUND, 0)
}

#[test]
fn a_file_without_a_log_gets_an_empty_one(rt: HostRuntime) -> Result<(), Fail> {
    let alloc = rt.alloc();
    let rows: [&[u8]; 5] = [b"", b"\0", b"\x01", b"\xa5", b"\xff"];
    for log in rows {
        for script in [b"".as_slice(), GET_STOCK] {
            let mut host = host_over(alloc, files_of(alloc, log)?, script, &[])?;
            assert_eq!(rt; run(alloc, &mut host)?, 0);
            // Four syncs, the length and the cut.
            let cut = image(&host, 6, None)?;
            assert_eq!(rt; cut.l0.as_slice(), b"".as_slice());
            for fill in FILLS {
                let after = image(&host, host.calls(), fill)?;
                assert_eq!(rt; after.l0.as_slice(), b"\0".as_slice());
            }
        }
    }
    Ok(())
}

// A host without input each of whose files was written, and none synced.
fn unsynced_host(alloc: Global) -> Result<MemoryHost, Fail> {
    let mut host = host_over(alloc, files_of(alloc, b"")?, b"", &[])?;
    for file in 0..4 {
        host.write_at(file, 0, STOCK).map_err(|_| "no file")?;
    }
    Ok(host)
}

#[test]
fn the_opening_makes_every_file_safe(rt: HostRuntime) -> Result<(), Fail> {
    let alloc = rt.alloc();
    let mut host = unsynced_host(alloc)?;
    let before = image(&host, host.calls(), Some(0))?;
    assert!(rt; before.l0.as_slice() != STOCK);
    assert_eq!(rt; run(alloc, &mut host)?, 0);
    for fill in FILLS {
        let after = image(&host, host.calls(), fill)?;
        assert_eq!(rt; after.s0.as_slice(), STOCK);
        assert_eq!(rt; after.l0.as_slice(), STOCK);
        assert_eq!(rt; after.s1.as_slice(), STOCK);
        assert_eq!(rt; after.l1.as_slice(), STOCK);
    }
    Ok(())
}

// A put of 150 to the path `[stock]`.
const PUT: &[u8] =
    b"\x06\0\0\0\x04\x02\x03put\x05\0\0\0\x01\x02\x05stock\x04\x01\x02\0\x96\x07\0\0\0\0";

// Records that are no command.
static NO_COMMANDS: [&[u8]; 14] = [
    b"",
    // `get` for `put`
    b"\x06\0\0\0\x04\x02\x03get\x05\0\0\0\x01\x02\x05stock\x04\x01\x02\0\x96\x07\0\0\0\0",
    // a binary for the atom `put`
    b"\x06\0\0\0\x04\x03\0\0\0\x03put\x05\0\0\0\x01\x02\x05stock\x04\x01\x02\0\x96\x07\0\0\0\0",
    // a list for the tuple
    b"\x05\0\0\0\x04\x02\x03put\x05\0\0\0\x01\x02\x05stock\x04\x01\x02\0\x96\x07\0\0\0\0\x04",
    // no map
    b"\x06\0\0\0\x03\x02\x03put\x05\0\0\0\x01\x02\x05stock\x04\x01\x02\0\x96",
    // a map with a pair
    b"\x06\0\0\0\x04\x02\x03put\x05\0\0\0\x01\x02\x05stock\x04\x01\x02\0\x96\x07\0\0\0\x01\x01\x01\x01\x01\x01\x01",
    // an integer as the path
    b"\x06\0\0\0\x04\x02\x03put\x01\x01\x07\x01\x02\0\x96\x07\0\0\0\0",
    // a path without names
    b"\x06\0\0\0\x04\x02\x03put\x04\x01\x02\0\x96\x07\0\0\0\0",
    // a binary as a name
    b"\x06\0\0\0\x04\x02\x03put\x05\0\0\0\x01\x03\0\0\0\x05stock\x04\x01\x02\0\x96\x07\0\0\0\0",
    // a path with a tail
    b"\x06\0\0\0\x04\x02\x03put\x05\0\0\0\x01\x02\x05stock\x01\x01\x07\x01\x02\0\x96\x07\0\0\0\0",
    // an atom for the integer
    b"\x06\0\0\0\x04\x02\x03put\x05\0\0\0\x01\x02\x05stock\x04\x02\x03abc\x07\0\0\0\0",
    // an integer with a spare byte
    b"\x06\0\0\0\x04\x02\x03put\x05\0\0\0\x01\x02\x05stock\x04\x01\x03\0\0\x96\x07\0\0\0\0",
    // a byte more
    b"\x06\0\0\0\x04\x02\x03put\x05\0\0\0\x01\x02\x05stock\x04\x01\x02\0\x96\x07\0\0\0\0\0",
    // a byte fewer
    b"\x06\0\0\0\x04\x02\x03put\x05\0\0\0\x01\x02\x05stock\x04\x01\x02\0\x96\x07\0\0\0",
];

#[test]
fn a_record_that_is_no_command_is_damage(rt: HostRuntime) -> Result<(), Fail> {
    let alloc = rt.alloc();
    leaves(&rt, alloc, &log_of(alloc, &[PUT])?, FOUND, 0)?;
    for record in &NO_COMMANDS {
        leaves(
            &rt,
            alloc,
            &log_of(alloc, &[record])?,
            b"{damaged,1,1}.\n",
            1,
        )?;
        // The second record stands behind the gate at 37, and its length at 38.
        leaves(
            &rt,
            alloc,
            &log_of(alloc, &[PUT, record])?,
            b"{damaged,1,38}.\n",
            1,
        )?;
    }
    Ok(())
}

// A put, and behind it a record of one byte more than any command has.
fn too_long(alloc: Global) -> Result<Vec<u8>, Fail> {
    let mut log = log_of(alloc, &[PUT])?;
    log.resize(37, 0)?;
    log.extend_from_slice(b"\xa5\0\x20\0\x01")?;
    log.resize(42 + 2_097_153 + 1, 0)?;
    Ok(log)
}

#[test]
fn a_record_longer_than_any_command_is_not_read(rt: HostRuntime) -> Result<(), Fail> {
    let alloc = rt.alloc();
    let files = files_of(alloc, &too_long(alloc)?)?;
    let mut host = host_over(alloc, files, GET_STOCK, &[])?;
    assert_eq!(rt; run(alloc, &mut host)?, 1);
    assert_eq!(rt; host.output(), b"{damaged,1,38}.\n".as_slice());
    // Four syncs, two lengths, three gates, the two reads of the put, the length of the record, and the line.
    assert_eq!(rt; host.calls(), 13);
    Ok(())
}

// A log, and how the program answers `{get,[stock]}.` over it.
struct Row {
    log: &'static [u8],
    output: &'static [u8],
    status: u8,
}

static LOGS: [Row; 10] = [
    // The put of 150 with a length that is one too large.
    Row {
        log: b"\xa5\0\0\0\x21\x06\0\0\0\x04\x02\x03put\x05\0\0\0\x01\x02\x05stock\x04\x01\x02\0\x96\x07\0\0\0\0\0",
        output: b"{damaged,1,1}.\n",
        status: 1,
    },
    // A record that lacks a byte stands behind one that is no command.
    Row {
        log: b"\xa5\0\0\0\x01\x04\xa5\0\0\0\x02\x04",
        output: b"{damaged,1,7}.\n",
        status: 1,
    },
    // The same record whole: the first one is damaged.
    Row {
        log: b"\xa5\0\0\0\x01\x04\xa5\0\0\0\x02\x04\x04\0",
        output: b"{damaged,1,1}.\n",
        status: 1,
    },
    // An open gate with nothing behind it.
    Row {
        log: b"\xa5\0\0\0\x20\x06\0\0\0\x04\x02\x03put\x05\0\0\0\x01\x02\x05stock\x04\x01\x02\0\x96\x07\0\0\0\0\xa5",
        output: b"{damaged,1,38}.\n",
        status: 1,
    },
    // A gate that is closed hides the record behind it.
    Row {
        log: b"\0\0\0\0\x20\x06\0\0\0\x04\x02\x03put\x05\0\0\0\x01\x02\x05stock\x04\x01\x02\0\x96\x07\0\0\0\0\0",
        output: NO_STOCK,
        status: 0,
    },
    Row {
        log: b"\x01\0\0\0\x20\x06\0\0\0\x04\x02\x03put\x05\0\0\0\x01\x02\x05stock\x04\x01\x02\0\x96\x07\0\0\0\0\0",
        output: NO_STOCK,
        status: 0,
    },
    Row {
        log: b"\xa4\0\0\0\x20\x06\0\0\0\x04\x02\x03put\x05\0\0\0\x01\x02\x05stock\x04\x01\x02\0\x96\x07\0\0\0\0\0",
        output: NO_STOCK,
        status: 0,
    },
    Row {
        log: b"\x5a\0\0\0\x20\x06\0\0\0\x04\x02\x03put\x05\0\0\0\x01\x02\x05stock\x04\x01\x02\0\x96\x07\0\0\0\0\0",
        output: NO_STOCK,
        status: 0,
    },
    Row {
        log: b"\xff\0\0\0\x20",
        output: NO_STOCK,
        status: 0,
    },
    // What stands behind the closed gate of a record counts for nothing.
    Row {
        log: b"\xa5\0\0\0\x20\x06\0\0\0\x04\x02\x03put\x05\0\0\0\x01\x02\x05stock\x04\x01\x02\0\x96\x07\0\0\0\0\xff\xa5\0\0\0",
        output: FOUND,
        status: 0,
    },
];

#[test]
fn a_log_is_read_to_its_closed_gate(rt: HostRuntime) -> Result<(), Fail> {
    let alloc = rt.alloc();
    for row in &LOGS {
        leaves(&rt, alloc, row.log, row.output, row.status)?;
    }
    Ok(())
}

const TWO_PUTS: &[u8] = b"{put,[a],1}.\n{put,[b],2}.\n";

const GET_TWO: &[u8] = b"{get,[a]}.\n{get,[b]}.\n";

// How they are answered after no put, after the first, and after both.
const NO_PUT: &[u8] =
    b"{error,{khepri,node_not_found,#{node_path => [a]}}}.\n{error,{khepri,node_not_found,#{node_path => [b]}}}.\n";

const FIRST_PUT: &[u8] = b"{ok,1}.\n{error,{khepri,node_not_found,#{node_path => [b]}}}.\n";

const BOTH_PUTS: &[u8] = b"{ok,1}.\n{ok,2}.\n";

// How the images after these numbers of calls answer: where each byte is as written, where the gates that aren't yet safe are
// closed, and where they are open.
struct Crash {
    from: u64,
    until: u64,
    written: &'static [u8],
    closed: &'static [u8],
    open: &'static [u8],
}

// Call 9 takes the script. Calls 10 to 13 write the first put, sync it, open its gate and sync that, and call 14 gives the reply;
// calls 15 to 19 do so for the second.
static CRASHES: [Crash; 5] = [
    Crash {
        from: 0,
        until: 13,
        written: NO_PUT,
        closed: NO_PUT,
        open: NO_PUT,
    },
    Crash {
        from: 13,
        until: 14,
        written: FIRST_PUT,
        closed: NO_PUT,
        open: FIRST_PUT,
    },
    Crash {
        from: 14,
        until: 18,
        written: FIRST_PUT,
        closed: FIRST_PUT,
        open: FIRST_PUT,
    },
    Crash {
        from: 18,
        until: 19,
        written: BOTH_PUTS,
        closed: FIRST_PUT,
        open: BOTH_PUTS,
    },
    Crash {
        from: 19,
        until: 22,
        written: BOTH_PUTS,
        closed: BOTH_PUTS,
        open: BOTH_PUTS,
    },
];

// Each image after so many calls answers as the row says.
fn images_answer(
    rt: &impl Abort,
    alloc: Global,
    host: &MemoryHost,
    calls: u64,
    row: &Crash,
) -> Result<(), Fail> {
    let answers = [
        (None, row.written),
        (Some(0), row.closed),
        (Some(0x5a), row.closed),
        (Some(0xa5), row.open),
    ];
    for (fill, answer) in answers {
        let files = image(host, calls, fill)?;
        reopens(rt, alloc, files, GET_TWO, answer, 0)?;
    }
    Ok(())
}

#[test]
fn a_crash_leaves_the_puts_before_its_gate(rt: HostRuntime) -> Result<(), Fail> {
    let alloc = rt.alloc();
    let mut host = host_over(alloc, files_of(alloc, b"")?, TWO_PUTS, &[])?;
    assert_eq!(rt; run(alloc, &mut host)?, 0);
    assert_eq!(rt; host.calls(), 21);
    for row in &CRASHES {
        for calls in row.from..row.until.min(22) {
            images_answer(&rt, alloc, &host, calls, row)?;
        }
    }
    Ok(())
}

const GET_ALL: &[u8] = b"{get,[a]}.\n{get,[a,b]}.\n{get,[a,b,c]}.\n{get,[c]}.\n{get,[d]}.\n";

// Their replies where a node is missing, and for a node without data.
const NO_A: &[u8] = b"{error,{khepri,node_not_found,#{node_path => [a]}}}.\n";

const NO_AB: &[u8] = b"{error,{khepri,node_not_found,#{node_path => [a,b]}}}.\n";

const NO_ABC: &[u8] = b"{error,{khepri,node_not_found,#{node_path => [a,b,c]}}}.\n";

const NO_C: &[u8] = b"{error,{khepri,node_not_found,#{node_path => [c]}}}.\n";

const NO_D: &[u8] = b"{error,{khepri,node_not_found,#{node_path => [d]}}}.\n";

const NO_DATA: &[u8] = b"{ok,undefined}.\n";

// A script as its forms, each with a reply of one line; how the gets are answered before the first form and after each; and how
// many calls a run over empty files makes.
struct Script {
    forms: &'static [&'static [u8]],
    states: &'static [[&'static [u8]; 5]],
    calls: u64,
}

static SCRIPTS: [Script; 3] = [
    Script {
        forms: &[
            b"{put,[a],1}.\n",
            b"{get,[a]}.\n",
            b"{put,[a,b],-7}.\n",
            b"{get,[c]}.\n",
            b"{put,[c],300}.\n",
        ],
        states: &[
            [NO_A, NO_AB, NO_ABC, NO_C, NO_D],
            [b"{ok,1}.\n", NO_AB, NO_ABC, NO_C, NO_D],
            [b"{ok,1}.\n", NO_AB, NO_ABC, NO_C, NO_D],
            [b"{ok,1}.\n", b"{ok,-7}.\n", NO_ABC, NO_C, NO_D],
            [b"{ok,1}.\n", b"{ok,-7}.\n", NO_ABC, NO_C, NO_D],
            [b"{ok,1}.\n", b"{ok,-7}.\n", NO_ABC, b"{ok,300}.\n", NO_D],
        ],
        calls: 28,
    },
    // Puts over puts.
    Script {
        forms: &[
            b"{get,[a]}.\n",
            b"{put,[a],999999999999999999}.\n",
            b"{put,[a],0}.\n",
            b"{get,[a]}.\n",
            b"{put,[a],-129}.\n",
            b"{put,[a],0}.\n",
            b"{get,[a]}.\n",
        ],
        states: &[
            [NO_A, NO_AB, NO_ABC, NO_C, NO_D],
            [NO_A, NO_AB, NO_ABC, NO_C, NO_D],
            [b"{ok,999999999999999999}.\n", NO_AB, NO_ABC, NO_C, NO_D],
            [b"{ok,0}.\n", NO_AB, NO_ABC, NO_C, NO_D],
            [b"{ok,0}.\n", NO_AB, NO_ABC, NO_C, NO_D],
            [b"{ok,-129}.\n", NO_AB, NO_ABC, NO_C, NO_D],
            [b"{ok,0}.\n", NO_AB, NO_ABC, NO_C, NO_D],
            [b"{ok,0}.\n", NO_AB, NO_ABC, NO_C, NO_D],
        ],
        calls: 34,
    },
    // Puts above and below others.
    Script {
        forms: &[
            b"{put,[a,b,c],5}.\n",
            b"{get,[a,b]}.\n",
            b"{put,[a,b],128}.\n",
            b"{put,[d],-1}.\n",
            b"{put,[a],6}.\n",
            b"{put,[a,b,c],-128}.\n",
        ],
        states: &[
            [NO_A, NO_AB, NO_ABC, NO_C, NO_D],
            [NO_DATA, NO_DATA, b"{ok,5}.\n", NO_C, NO_D],
            [NO_DATA, NO_DATA, b"{ok,5}.\n", NO_C, NO_D],
            [NO_DATA, b"{ok,128}.\n", b"{ok,5}.\n", NO_C, NO_D],
            [NO_DATA, b"{ok,128}.\n", b"{ok,5}.\n", NO_C, b"{ok,-1}.\n"],
            [
                b"{ok,6}.\n",
                b"{ok,128}.\n",
                b"{ok,5}.\n",
                NO_C,
                b"{ok,-1}.\n",
            ],
            [
                b"{ok,6}.\n",
                b"{ok,128}.\n",
                b"{ok,-128}.\n",
                NO_C,
                b"{ok,-1}.\n",
            ],
        ],
        calls: 37,
    },
];

// The text of these lines.
fn joined(alloc: Global, lines: &[&[u8]]) -> Result<Vec<u8>, Fail> {
    let mut text = Vec::new(alloc);
    for line in lines {
        text.extend_from_slice(line)?;
    }
    Ok(text)
}

fn count_lines(text: &[u8]) -> usize {
    let mut count: usize = 0;
    for byte in text {
        if *byte == b'\n' {
            count = count.saturating_add(1);
        }
    }
    count
}

// The program over these files answers by the state after so many forms, or after one more, whose reply had not begun.
fn recovers(
    rt: &impl Abort,
    alloc: Global,
    files: Files,
    script: &Script,
    begun: usize,
) -> Result<(), Fail> {
    let mut host = host_over(alloc, files, GET_ALL, &[])?;
    assert_eq!(rt; run(alloc, &mut host)?, 0);
    let mut is_allowed = false;
    for state in script.states.iter().skip(begun).take(2) {
        is_allowed = is_allowed || joined(alloc, state)?.as_slice() == host.output();
    }
    assert!(rt; is_allowed);
    Ok(())
}

// A run whose call of this number fails, if it has one: each image before that call recovers. Answers the status.
fn crashes_at(rt: &impl Abort, alloc: Global, script: &Script, call: u64) -> Result<u8, Fail> {
    let forms = joined(alloc, script.forms)?;
    let mut host = host_over(alloc, files_of(alloc, b"")?, &forms, &[call])?;
    let status = run(alloc, &mut host)?;
    let begun = count_lines(host.output());
    for fill in FILLS {
        recovers(rt, alloc, image(&host, call, fill)?, script, begun)?;
    }
    Ok(status)
}

#[test]
fn a_crash_leaves_the_state_after_some_commands(rt: HostRuntime) -> Result<(), Fail> {
    let alloc = rt.alloc();
    for script in &SCRIPTS {
        for call in 0..script.calls {
            let status = crashes_at(&rt, alloc, script, call)?;
            assert!(rt; status >= 3 && status <= 5);
        }
        let status = crashes_at(&rt, alloc, script, script.calls)?;
        assert_eq!(rt; status, 0);
    }
    Ok(())
}

// What is left of an input that is shorter than 32 bytes.
fn rest_of(alloc: Global, host: &mut MemoryHost) -> Result<Vec<u8>, Fail> {
    let mut rest = [0u8; 32];
    let count = host.take(&mut rest).map_err(|_| "no input")?;
    let (front, _) = rest.split_at(count.min(32));
    Ok(front.to_vec(alloc)?)
}

// The disk fails at this call, while the store is opened over a log. No input is taken then, the log is as it was or still has fewer
// than 2 bytes, and after a crash the store is as it was.
fn fails_in_opening(
    rt: &impl Abort,
    alloc: Global,
    log: &[u8],
    call: u64,
    answer: &[u8],
) -> Result<(), Fail> {
    let script: &[u8] = b"{put,[stock],1}.\n";
    let mut host = host_over(alloc, files_of(alloc, log)?, script, &[call])?;
    assert_eq!(rt; run(alloc, &mut host)?, 5);
    assert_eq!(rt; host.output(), b"".as_slice());
    let left = rest_of(alloc, &mut host)?;
    assert_eq!(rt; left.as_slice(), script);
    let after = image(&host, host.calls(), None)?;
    assert!(rt; after.l0.as_slice() == log || (log.len() < 2 && after.l0.as_slice().len() < 2));
    for fill in FILLS {
        let files = image(&host, host.calls(), fill)?;
        reopens(rt, alloc, files, GET_STOCK, answer, 0)?;
    }
    Ok(())
}

#[test]
fn a_fault_in_the_opening_loses_nothing(rt: HostRuntime) -> Result<(), Fail> {
    let alloc = rt.alloc();
    // The calls of the opening: over a file that is too short for a log 9, over a log of one record 10.
    let rows: [(&[u8], u64, &[u8]); 3] = [
        (b"", 9, NO_STOCK),
        (b"\xa5", 9, NO_STOCK),
        (STOCK, 10, FOUND),
    ];
    for (log, calls, answer) in rows {
        for call in 0..calls {
            fails_in_opening(&rt, alloc, log, call, answer)?;
        }
    }
    Ok(())
}

// One call fails over a damaged log: the run ends so, after so many calls.
fn fails_over_damage(
    rt: &impl Abort,
    alloc: Global,
    log: &[u8],
    call: u64,
    status: u8,
    calls: u64,
    output: &[u8],
) -> Result<(), Fail> {
    let mut host = host_over(alloc, files_of(alloc, log)?, GET_STOCK, &[call])?;
    assert_eq!(rt; run(alloc, &mut host)?, status);
    assert_eq!(rt; host.output(), output);
    assert_eq!(rt; host.calls(), calls);
    Ok(())
}

#[test]
fn a_fault_is_met_before_damage_or_in_its_line(rt: HostRuntime) -> Result<(), Fail> {
    let alloc = rt.alloc();
    // All calls of a run: four syncs, two lengths, the gates, two reads of each record up to the damaged one, and the line.
    let rows: [(&[u8], u64, &[u8]); 4] = [
        // A record that lacks bytes is met at its gate.
        (&STOCK[..20], 8, b"{damaged,1,1}.\n"),
        // Records that are no command are met behind the last gate.
        (b"\xa5\0\0\0\x01\x04\0", 11, b"{damaged,1,1}.\n"),
        (b"\xa5\0\0\0\0\0", 11, b"{damaged,1,1}.\n"),
        (PUT_AND_MORE, 14, b"{damaged,1,38}.\n"),
    ];
    for (log, calls, line) in rows {
        for call in 0..calls {
            let status = if call + 1 < calls { 5 } else { 4 };
            fails_over_damage(&rt, alloc, log, call, status, call + 1, b"")?;
        }
        // No call is made behind the line.
        fails_over_damage(&rt, alloc, log, calls, 1, calls, line)?;
    }
    Ok(())
}
