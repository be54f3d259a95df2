//! The hosts, called through their trait.
ghost use Rattle.std.specs.Prelude.{◌<◌};

use crate::{Disk, Failed, FileBytes, Files, Host, MemoryHost, RealHost, SoundHost};
use std::alloc::{AllocError, Global};
use std::fs;
use std::process::Abort;
use std::test::Fail;

const ROOM: u64 = 16_777_216;

const INPUT: &[u8] = b"{put,[a],1,#{}}.";

const FIRST: [&[u8]; 4] = [b"", b"abcdef", b"", b"log"];

fn files(alloc: Global) -> Result<Files, AllocError> {
    Ok(Files {
        s0: FileBytes::new(FIRST[0].to_vec(alloc)?),
        l0: FileBytes::new(FIRST[1].to_vec(alloc)?),
        s1: FileBytes::new(FIRST[2].to_vec(alloc)?),
        l1: FileBytes::new(FIRST[3].to_vec(alloc)?),
    })
}

fn host(alloc: Global, input: &[u8], failing: &[u64], room: u64) -> Result<MemoryHost, Fail> {
    Ok(MemoryHost::new(
        alloc,
        input.to_vec(alloc)?,
        files(alloc)?,
        failing.to_vec(alloc)?,
        room,
    )?)
}

// All the input, in pieces of the buffer's length at most.
fn all_taken<H: Host>(
    alloc: Global,
    host: &mut H,
    buffer: &mut [u8],
) -> Result<Vec<u8>, AllocError> {
    let mut all = Vec::new(alloc);
    for _ in 0..1000 {
        match host.take(buffer) {
            Ok(n) if n > 0 => all.extend_from_slice(&buffer[..n])?,
            _ => break,
        }
    }
    Ok(all)
}

// Gives each piece once, and says which were taken whole.
fn all_given<H: Host>(
    alloc: Global,
    host: &mut H,
    pieces: &[&[u8]],
) -> Result<Vec<bool>, AllocError> {
    let mut whole = Vec::new(alloc);
    for piece in pieces {
        let answer = host.give(piece);
        whole.push(answer == Ok(piece.len()))?;
    }
    Ok(whole)
}

#[test]
fn takes_of_any_length_make_up_the_input(rt: HostRuntime) -> Result<(), Fail> {
    let alloc = rt.alloc();
    let mut buffer = [0u8; 32];
    for size in [1, 2, 7, 32] {
        let mut host = host(alloc, INPUT, &[], ROOM)?;
        let all = all_taken(alloc, &mut host, &mut buffer[..size])?;
        assert_eq!(rt; all.as_slice(), INPUT);
        assert_eq!(rt; host.take(&mut buffer[..size]), Ok(0));
    }
    Ok(())
}

#[test]
fn gives_make_up_the_output(rt: HostRuntime) -> Result<(), Fail> {
    let alloc = rt.alloc();
    let mut host = host(alloc, b"", &[], ROOM)?;
    let whole = all_given(alloc, &mut host, &[b"ok", b"", b".\n"])?;
    assert_eq!(rt; whole.as_slice(), [true, true, true].as_slice());
    assert_eq!(rt; host.output(), b"ok.\n".as_slice());
    Ok(())
}

#[test]
fn a_listed_call_fails_and_does_nothing(rt: HostRuntime) -> Result<(), Fail> {
    let alloc = rt.alloc();
    let mut host = host(alloc, b"abc", &[3, 0], ROOM)?;
    let mut buffer = [0u8; 2];
    assert_eq!(rt; host.take(&mut buffer), Err(Failed));
    assert_eq!(rt; host.take(&mut buffer), Ok(2));
    assert_eq!(rt; buffer.as_slice(), b"ab".as_slice());
    assert_eq!(rt; host.give(b"x"), Ok(1));
    assert_eq!(rt; host.give(b"y"), Err(Failed));
    assert_eq!(rt; host.give(b"z"), Ok(1));
    assert_eq!(rt; host.take(&mut buffer), Ok(1));
    assert_eq!(rt; host.output(), b"xz".as_slice());
    Ok(())
}

#[test]
fn a_call_past_the_room_fails_and_is_not_numbered(rt: HostRuntime) -> Result<(), Fail> {
    let alloc = rt.alloc();
    // Two calls and three bytes fit. The call past the room would have been the listed one.
    let mut host = host(alloc, b"abcd", &[1], 131)?;
    let mut buffer = [0u8; 4];
    assert_eq!(rt; host.give(b"xy"), Ok(2));
    assert_eq!(rt; host.give(b"zz"), Err(Failed));
    assert_eq!(rt; host.take(&mut buffer), Err(Failed));
    assert_eq!(rt; host.take(&mut buffer), Err(Failed));
    assert_eq!(rt; host.output(), b"xy".as_slice());
    Ok(())
}

#[test]
fn the_real_host_writes_a_line(rt: HostRuntime) -> Result<(), Fail> {
    let mut host = RealHost::new(rt.clone()?);
    let whole = all_given(rt.alloc(), &mut host, &[b"a line of the host\n", b""])?;
    assert_eq!(rt; whole.as_slice(), [true, true].as_slice());
    Ok(())
}

#[derive(Clone, Copy)]
enum Step {
    Write(u64, &'static [u8]),
    Cut(u64),
    Sync,
}

// One call on file 1.
fn do_step<H: Host>(host: &mut H, step: Step) -> Result<(), Failed> {
    match step {
        Step::Write(at, bytes) => {
            let len = host.len(1)?;
            if at <= len && len < 100 && bytes.len() < 100 {
                host.write_at(1, at, bytes)
            } else {
                Err(Failed)
            }
        }
        Step::Cut(to) => {
            let len = host.len(1)?;
            if to <= len {
                host.cut(1, to)
            } else {
                Err(Failed)
            }
        }
        Step::Sync => host.sync(1),
    }
}

// The bytes of file 1.
fn content<H: Host>(alloc: Global, host: &mut H) -> Result<Vec<u8>, Fail> {
    let mut buffer = [0u8; 64];
    let n = host.read_at(1, 0, &mut buffer)?;
    Ok(buffer[..n].to_vec(alloc)?)
}

// File 1 of a crash image, and file 3 beside it.
fn image(host: &MemoryHost, calls: u64, fill: Option<u8>) -> Result<(FileBytes, FileBytes), Fail> {
    if calls > host.calls() {
        return Err(Fail::from("fewer calls were made"));
    }
    let Files {
        s0: _,
        l0,
        s1: _,
        l1,
    } = host.image(calls, fill)?;
    Ok((l0, l1))
}

// A step, file 1 as a read finds it then, and its crash image in which what isn't yet safe is filled.
struct Row {
    step: Step,
    read: &'static [u8],
    torn: &'static [u8],
}

static STEPS: [Row; 6] = [
    Row {
        step: Step::Write(2, b"XY"),
        read: b"abXYef",
        torn: b"ab..ef",
    },
    Row {
        step: Step::Sync,
        read: b"abXYef",
        torn: b"abXYef",
    },
    Row {
        step: Step::Cut(3),
        read: b"abX",
        torn: b"abX",
    },
    Row {
        step: Step::Write(3, b"Q"),
        read: b"abXQ",
        torn: b"abX.",
    },
    Row {
        step: Step::Sync,
        read: b"abXQ",
        torn: b"abXQ",
    },
    Row {
        step: Step::Write(4, b"long"),
        read: b"abXQlong",
        torn: b"abXQ....",
    },
];

// File 1 after a step: what a read finds, the image as written, and the one in which what isn't yet safe is filled.
fn left(
    alloc: Global,
    host: &mut MemoryHost,
    one: Step,
) -> Result<(Vec<u8>, FileBytes, FileBytes), Fail> {
    do_step(host, one)?;
    let calls = host.calls();
    let read = content(alloc, host)?;
    let (written, _) = image(host, calls, None)?;
    let (torn, _) = image(host, calls, Some(b'.'))?;
    Ok((read, written, torn))
}

fn check(rt: &impl Abort, got: &[u8], want: &[u8]) {
    assert_eq!(rt; got, want);
}

fn check_row(rt: &impl Abort, alloc: Global, host: &mut MemoryHost, row: &Row) -> Result<(), Fail> {
    let (read, written, torn) = left(alloc, host, row.step)?;
    check(rt, &read, row.read);
    check(rt, written.as_slice(), row.read);
    check(rt, torn.as_slice(), row.torn);
    Ok(())
}

#[test]
fn images_fill_what_is_not_yet_safe(rt: HostRuntime) -> Result<(), Fail> {
    let alloc = rt.alloc();
    let mut host = host(alloc, b"", &[], ROOM)?;
    for row in &STEPS {
        check_row(&rt, alloc, &mut host, row)?;
    }
    let (l0, _) = image(&host, 2, Some(b'.'))?;
    assert_eq!(rt; l0.as_slice(), b"ab..ef".as_slice());
    Ok(())
}

// The image after a step on a host whose call of this number fails, where the step failed.
fn failed_image(alloc: Global, number: u64, one: Step) -> Result<FileBytes, Fail> {
    let mut host = host(alloc, b"", &[number], ROOM)?;
    if do_step(&mut host, one).is_ok() {
        return Err(Fail::from("the step did not fail"));
    }
    let (l0, _) = image(&host, 2, Some(b'.'))?;
    Ok(l0)
}

#[test]
fn a_failed_write_or_cut_is_torn(rt: HostRuntime) -> Result<(), Fail> {
    let alloc = rt.alloc();
    let write = failed_image(alloc, 1, Step::Write(2, b"XY"))?;
    assert_eq!(rt; write.as_slice(), b"ab..ef".as_slice());
    let long = failed_image(alloc, 1, Step::Write(5, b"long"))?;
    assert_eq!(rt; long.as_slice(), b"abcde.".as_slice());
    let cut = failed_image(alloc, 1, Step::Cut(3))?;
    assert_eq!(rt; cut.as_slice(), b"abc...".as_slice());
    Ok(())
}

#[test]
fn a_failed_sync_makes_nothing_safe(rt: HostRuntime) -> Result<(), Fail> {
    let alloc = rt.alloc();
    let mut host = host(alloc, b"", &[2], ROOM)?;
    do_step(&mut host, Step::Write(2, b"XY"))?;
    assert_eq!(rt; do_step(&mut host, Step::Sync), Err(Failed));
    let (l0, _) = image(&host, 3, Some(b'.'))?;
    assert_eq!(rt; l0.as_slice(), b"ab..ef".as_slice());
    Ok(())
}

// What a host answers to one call of each kind, as text.
fn answers<H: Host>(alloc: Global, host: &mut H) -> Result<String, Fail> {
    let mut buffer = [0u8; 7];
    let len = host.len(1)?;
    let read = host.read_at(1, 0, &mut buffer)?;
    let taken = host.take(&mut buffer)?;
    let given = host.give(b"ok")?;
    Ok(format!(in alloc; "{len} {read} {taken} {given}")?)
}

fn sound(alloc: Global, room: u64) -> Result<SoundHost, Fail> {
    Ok(SoundHost::new(alloc, INPUT.to_vec(alloc)?, files(alloc)?, room)?)
}

fn sound_answers(alloc: Global, room: u64) -> Result<String, Fail> {
    let mut host = sound(alloc, room)?;
    answers(alloc, &mut host)
}

#[test]
fn a_sound_host_past_its_room_keeps_nothing(rt: HostRuntime) -> Result<(), Fail> {
    let alloc = rt.alloc();
    let within = sound_answers(alloc, ROOM)?;
    assert_eq!(rt; within.as_str(), "6 6 7 2");
    let past = sound_answers(alloc, 64)?;
    assert_eq!(rt; past.as_str(), "6 0 0 2");
    Ok(())
}

// The content after some steps.
fn after_steps<H: Host>(alloc: Global, host: &mut H, rows: &[Row]) -> Result<Vec<u8>, Fail> {
    for row in rows {
        do_step(host, row.step)?;
    }
    content(alloc, host)
}

#[test]
fn a_sound_host_keeps_files(rt: HostRuntime) -> Result<(), Fail> {
    let alloc = rt.alloc();
    let mut host = sound(alloc, ROOM)?;
    let read = after_steps(alloc, &mut host, &STEPS)?;
    assert_eq!(rt; read.as_slice(), b"abXQlong".as_slice());
    let calls = host.calls();
    let image = host.image(calls, Some(b'.'))?;
    assert_eq!(rt; image.l0.as_slice(), b"abXQ....".as_slice());
    Ok(())
}

// Makes a file of one byte, and syncs it.
fn write_alone<H: Host>(host: &mut H, file: u8, byte: u8) -> Result<(), Failed>
    requires { file < 4 }
{
    host.cut(file, 0)?;
    if host.len(file)? > 0 {
        return Err(Failed);
    }
    host.write_at(file, 0, &[byte])?;
    host.sync(file)
}

#[test]
fn the_real_host_reads_what_it_wrote(rt: HostRuntime) -> Result<(), Fail> {
    let alloc = rt.alloc();
    let mut host = RealHost::new(rt.clone()?);
    host.cut(1, 0)?;
    do_step(&mut host, Step::Write(0, b"abcdef"))?;
    let read = after_steps(alloc, &mut host, &STEPS)?;
    assert_eq!(rt; read.as_slice(), b"abXQlong".as_slice());
    let mut again = RealHost::new(rt.clone()?);
    let kept = content(alloc, &mut again)?;
    assert_eq!(rt; kept.as_slice(), b"abXQlong".as_slice());
    for file in 0..4 {
        write_alone(&mut host, file, b'0' + file)?;
    }
    let named = [
        ("khepri.s0", b'0'),
        ("khepri.l0", b'1'),
        ("khepri.s1", b'2'),
        ("khepri.l1", b'3'),
    ];
    for (name, byte) in named {
        let bytes = fs::read(&rt, name)?;
        assert_eq!(rt; bytes.as_slice(), [byte].as_slice());
        fs::remove_file(&rt, name)?;
    }
    Ok(())
}
