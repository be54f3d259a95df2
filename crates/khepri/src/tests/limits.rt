//! A full store: one of as many nodes, and one of as long a log, as there may be.
use super::{files_of, run};
use kh_io::{Files, MemoryHost};
use kh_store::pack_put;
use kh_term::{Atom, Name, Path};
use std::alloc::Global;
use std::process::Abort;
use std::test::Fail;

// The program over these files answers so at status 0. Answers the files as a read finds them then.
fn leaves(
    rt: &impl Abort,
    alloc: Global,
    files: Files,
    room: u64,
    script: &[u8],
    output: &[u8],
) -> Result<Files, Fail> {
    let mut host = MemoryHost::new(alloc, script.to_vec(alloc)?, files, Vec::new(alloc), room)?;
    assert_eq!(rt; run(alloc, &mut host)?, 0);
    assert!(rt; host.output() == output);
    Ok(host.image(host.calls(), None)?)
}

// A path of so many names: the first is its own number in letters, the others are `x`.
fn push_path(script: &mut Vec<u8>, number: usize, count: usize) -> Result<(), Fail> {
    let mut left = number;
    for _ in 0..4 {
        script.push(b'a' + (left % 26) as u8)?;
        left /= 26;
    }
    for _ in 1..count {
        script.extend_from_slice(b",x")?;
    }
    Ok(())
}

// A put that adds so many nodes to a store, and its reply.
fn push_put(
    script: &mut Vec<u8>,
    output: &mut Vec<u8>,
    number: usize,
    count: usize,
) -> Result<(), Fail> {
    script.extend_from_slice(b"{put,[")?;
    push_path(script, number, count)?;
    script.extend_from_slice(b"],1}.\n")?;
    output.extend_from_slice(b"ok.\n")?;
    Ok(())
}

#[test]
fn a_store_has_at_most_200_000_nodes(rt: HostRuntime) -> Result<(), Fail> {
    let alloc = rt.alloc();
    let (mut script, mut output) = (Vec::new(alloc), Vec::new(alloc));
    for number in 0..6_249 {
        push_put(&mut script, &mut output, number, 32)?;
    }
    // 199,999 nodes: there is room for one more, and not for two.
    push_put(&mut script, &mut output, 6_249, 31)?;
    script.extend_from_slice(
        b"{put,[y,z],1}.\n{get,[y]}.\n{put,[y],2}.\n{put,[z],3}.\n{put,[y],4}.\n",
    )?;
    output.extend_from_slice(
        b"{error,store_full}.\n{error,{khepri,node_not_found,#{node_path => [y]}}}.\nok.\n{error,store_full}.\nok.\n",
    )?;
    let files = leaves(&rt, alloc, files_of(alloc, b"")?, 1 << 24, &script, &output)?;
    let script: &[u8] = b"{put,[z],5}.\n{get,[z]}.\n{get,[y]}.\n";
    let output: &[u8] =
        b"{error,store_full}.\n{error,{khepri,node_not_found,#{node_path => [z]}}}.\n{ok,4}.\n";
    leaves(&rt, alloc, files, 1 << 24, script, output)?;
    Ok(())
}

// An open gate and the record of a put of 1 to a path of 32 names: 31 of 254 bytes, and one of so many.
fn push_long_put(alloc: Global, log: &mut Vec<u8>, last: usize) -> Result<(), Fail> {
    let mut names = Vec::new(alloc);
    for _ in 0..31 {
        names.push(name_of(alloc, 254)?)?;
    }
    names.push(name_of(alloc, last)?)?;
    let path = Path::new(names).ok_or("no path")?;
    let record = pack_put(alloc, &path, 1)?;
    let len = u32::try_from(record.len()).ok().ok_or("no record")?;
    log.push(0xa5)?;
    log.extend_from_slice(&len.to_be_bytes())?;
    log.extend_from_slice(&record)?;
    Ok(())
}

fn name_of(alloc: Global, len: usize) -> Result<Name, Fail> {
    let mut text = Vec::new(alloc);
    for _ in 0..len {
        text.push(b'a')?;
    }
    Ok(Name::Atom(Atom::new(text).ok_or("no atom")?))
}

#[test]
fn a_log_has_at_most_134_217_728_bytes(rt: HostRuntime) -> Result<(), Fail> {
    let alloc = rt.alloc();
    // 16,383 records that take 8,192 bytes each with gate and length, and one that leaves 33 bytes, the last gate with them.
    let mut log = Vec::with_capacity(alloc, 134_217_728)?;
    for _ in 0..16_383 {
        push_long_put(alloc, &mut log, 225)?;
    }
    push_long_put(alloc, &mut log, 192)?;
    log.push(0)?;
    assert_eq!(rt; log.len(), 134_217_696);
    // The record of the first put has a byte more than there is room for, and that of the second none.
    let script: &[u8] = b"{put,[a],200}.\n{get,[a]}.\n{put,[a],1}.\n{put,[a],1}.\n{get,[a]}.\n";
    let output: &[u8] =
        b"{error,store_full}.\n{error,{khepri,node_not_found,#{node_path => [a]}}}.\nok.\n{error,store_full}.\n{ok,1}.\n";
    let files = leaves(&rt, alloc, files_of(alloc, &log)?, 1 << 28, script, output)?;
    assert_eq!(rt; files.l0.as_slice().len(), 134_217_728);
    leaves(&rt, alloc, files, 1 << 28, b"{get,[a]}.\n", b"{ok,1}.\n")?;
    Ok(())
}
