//! The top call over hosts in memory. What is expected was worked out by hand.
mod limits;
mod reopening;
mod slow_host;

use crate::memory::answer_in_memory;
use crate::plain::plain_session;
use crate::sound::answer_soundly;
use crate::top::khepri;
use kh_io::{FileBytes, Files, MemoryHost};
use slow_host::SlowHost;
use std::alloc::Global;
use std::process::Abort;
use std::test::Fail;

const ROOM: u64 = 65_536;

const ROWS: [(&[u8], &[u8], u8); 24] = [
    (b"", b"", 0),
    (
        b"{put,[a,b],-7}.\n{get,[a,b]}.\n{get,[a]}.\n{get,[c]}.\n",
        b"ok.\n{ok,-7}.\n{ok,undefined}.\n{error,{khepri,node_not_found,#{node_path => [c]}}}.\n",
        0,
    ),
    (b"{put,[a],1}.\n{put,a,1}.\n", b"ok.\n", 2),
    (b"{put,[a],1}.\n", b"ok.\n", 0),
    (
        b"{put,[a],1}.\n{put,[b],2}.\n{put,[a,b],3}.\n{get,[a]}.\n{get,[a,b]}.\n{get,[b]}.\n",
        b"ok.\nok.\nok.\n{ok,1}.\n{ok,3}.\n{ok,2}.\n",
        0,
    ),
    (
        b"{put,[a],1}.\n{put,[a],2}.\n{get,[a]}.\n",
        b"ok.\nok.\n{ok,2}.\n",
        0,
    ),
    // A reply is by the tree as it stands then.
    (
        b"{get,[a]}.\n{put,[a],1}.\n{get,[a]}.\n",
        b"{error,{khepri,node_not_found,#{node_path => [a]}}}.\nok.\n{ok,1}.\n",
        0,
    ),
    // A put over a node without data, and one below a node with data.
    (
        b"{put,[a,b],1}.\n{put,[a],2}.\n{put,[a,c],3}.\n{get,[a]}.\n{get,[a,b]}.\n",
        b"ok.\nok.\nok.\n{ok,2}.\n{ok,1}.\n",
        0,
    ),
    (
        b"{put,[a],-0}.\n{get,[a]}.\n{put,[a],-12}.\n{get,[a]}.\n{put,[a],007}.\n{get,[a]}.\n",
        b"ok.\n{ok,0}.\nok.\n{ok,-12}.\nok.\n{ok,7}.\n",
        0,
    ),
    (
        b"{put,[a],999999999999999999}.\n{get,[a]}.\n{put,[a],-999999999999999999}.\n{get,[a]}.\n",
        b"ok.\n{ok,999999999999999999}.\nok.\n{ok,-999999999999999999}.\n",
        0,
    ),
    (
        b"{put,[a],1}.\n{put,[a],1000000000000000000}.\n",
        b"ok.\n",
        2,
    ),
    (
        b"{put,[a,b,c,d,e,f,g,h,i,j,k,l,m,n,o,p,q,r,s,t,u,v,w,x,y,z,aa,ab,ac,ad,ae,af],1}.\n{get,[a,b,c]}.\n",
        b"ok.\n{ok,undefined}.\n",
        0,
    ),
    (
        b"{put,[a],1}.\n{put,[a,b,c,d,e,f,g,h,i,j,k,l,m,n,o,p,q,r,s,t,u,v,w,x,y,z,aa,ab,ac,ad,ae,af,ag],1}.\n",
        b"ok.\n",
        2,
    ),
    (
        b"{get,[a,b_C@9]}.\n",
        b"{error,{khepri,node_not_found,#{node_path => [a,b_C@9]}}}.\n",
        0,
    ),
    (b"{put,[a],1}.\n{put,[a], 2}.\n{get,[a]}.\n", b"ok.\n", 2),
    (b"{put,[a],1}.\n{get,['a']}.\n", b"ok.\n", 2),
    (b"{put,[a],1}.\n{get,['if']}.\n", b"ok.\n", 2),
    (b"{put,[a],1}.\n{get,[if]}.\n", b"ok.\n", 2),
    // The last form has no newline.
    (b"{put,[a],1}.\n{get,[a]}.", b"ok.\n{ok,1}.\n", 0),
    // A form is followed by no second newline, and by no other form.
    (b"{put,[a],1}.\n\n{get,[a]}.\n", b"ok.\n", 2),
    (b"{put,[a],1}.{get,[a]}.\n", b"", 2),
    // The script ends inside a form.
    (b"{put,[a],1}.\n{get,[a", b"ok.\n", 2),
    (b"{put,[a],1}.\n{get,[a]}", b"ok.\n", 2),
    (b"{", b"", 2),
];

// Files of which file 1 has these bytes, and the others none.
fn files_of(alloc: Global, log: &[u8]) -> Result<Files, Fail> {
    Ok(Files {
        s0: FileBytes::new(Vec::new(alloc)),
        l0: FileBytes::new(log.to_vec(alloc)?),
        s1: FileBytes::new(Vec::new(alloc)),
        l1: FileBytes::new(Vec::new(alloc)),
    })
}

fn words(alloc: Global, texts: &[&str]) -> Result<Vec<String>, Fail> {
    let mut words = Vec::new(alloc);
    for text in texts {
        words.push(String::from_str(alloc, text)?)?;
    }
    Ok(words)
}

// The status of the program over a host in memory.
fn run(alloc: Global, host: &mut MemoryHost) -> Result<u8, Fail> {
    let words = words(alloc, &["run"])?;
    Ok(answer_in_memory(alloc, words.as_slice(), host))
}

// The whole script comes at once, and each reply is taken whole.
fn answers(
    rt: &impl Abort,
    alloc: Global,
    script: &[u8],
    failing: &[u64],
    output: &[u8],
    status: u8,
) -> Result<(), Fail> {
    let (script, failing) = (script.to_vec(alloc)?, failing.to_vec(alloc)?);
    let files = files_of(alloc, b"")?;
    let mut host = MemoryHost::new(alloc, script, files, failing, ROOM)?;
    assert_eq!(rt; run(alloc, &mut host)?, status);
    assert_eq!(rt; host.output(), output);
    Ok(())
}

// The script comes in pieces of so many bytes at most, and so the replies go.
fn answers_in_pieces(
    rt: &impl Abort,
    alloc: Global,
    script: &[u8],
    step: usize,
    output: &[u8],
    status: u8,
) -> Result<(), Fail> {
    let run = words(alloc, &["run"])?;
    let mut host = SlowHost::new(alloc, script.to_vec(alloc)?, step);
    assert_eq!(rt; answer_soundly(alloc, run.as_slice(), &mut host), status);
    assert_eq!(rt; host.output().ok_or("lost output")?, output);
    Ok(())
}

// The program's output and status are those of the plain session.
fn answers_plainly(rt: &impl Abort, alloc: Global, script: &[u8]) -> Result<(), Fail> {
    let (text, status) = plain_session(alloc, script)?;
    answers(rt, alloc, script, &[], &text, status)?;
    answers_in_pieces(rt, alloc, script, 3, &text, status)
}

// A put to a node whose name has so many bytes.
fn put_of(alloc: Global, len: usize) -> Result<Vec<u8>, Fail> {
    let mut form = Vec::from_slice(alloc, b"{put,[")?;
    for _ in 0..len {
        form.push(b'a')?;
    }
    form.extend_from_slice(b"],1}.\n")?;
    Ok(form)
}

#[test]
fn scripts_are_answered(rt: HostRuntime) -> Result<(), Fail> {
    for (script, output, status) in ROWS {
        answers(&rt, rt.alloc(), script, &[], output, status)?;
    }
    Ok(())
}

#[test]
fn scripts_in_pieces_are_answered_alike(rt: HostRuntime) -> Result<(), Fail> {
    for step in [1, 2, 7] {
        for (script, output, status) in ROWS {
            answers_in_pieces(&rt, rt.alloc(), script, step, output, status)?;
        }
    }
    Ok(())
}

#[test]
fn a_name_has_at_most_255_bytes(rt: HostRuntime) -> Result<(), Fail> {
    let alloc = rt.alloc();
    answers(&rt, alloc, &put_of(alloc, 255)?, &[], b"ok.\n", 0)?;
    let mut forms = put_of(alloc, 1)?;
    forms.extend_from_slice(&put_of(alloc, 256)?)?;
    answers(&rt, alloc, &forms, &[], b"ok.\n", 2)
}

#[test]
fn a_failed_call_ends_the_run(rt: HostRuntime) -> Result<(), Fail> {
    let alloc = rt.alloc();
    // The store is opened in 9 calls, call 9 takes the script, and the last one finds no more of it. Between them each
    // command has its calls, the last of which gives its reply; those before it append a put to the log.
    let commands: [(&[u8], u64, u64, &[u8]); 10] = [
        (b"{put,[a],1}.\n", 10, 14, b"ok.\n"),
        (b"{get,[a]}.\n", 15, 15, b"{ok,1}.\n"),
        (b"{put,[b,c],2}.\n", 16, 20, b"ok.\n"),
        (b"{get,[b]}.\n", 21, 21, b"{ok,undefined}.\n"),
        (b"{get,[b,c]}.\n", 22, 22, b"{ok,2}.\n"),
        (
            b"{get,[d]}.\n",
            23,
            23,
            b"{error,{khepri,node_not_found,#{node_path => [d]}}}.\n",
        ),
        (b"{put,[b],-3}.\n", 24, 28, b"ok.\n"),
        (b"{get,[b]}.\n", 29, 29, b"{ok,-3}.\n"),
        (b"{put,[a],4}.\n", 30, 34, b"ok.\n"),
        (b"{get,[a]}.\n", 35, 35, b"{ok,4}.\n"),
    ];
    let mut script = Vec::new(alloc);
    for (form, _, _, _) in commands {
        script.extend_from_slice(form)?;
    }
    for call in 0..9 {
        answers(&rt, alloc, &script, &[call], b"", 5)?;
    }
    answers(&rt, alloc, &script, &[9], b"", 3)?;
    let mut output = Vec::new(alloc);
    for (_, first, last, reply) in commands {
        for call in first..last {
            answers(&rt, alloc, &script, &[call], &output, 5)?;
        }
        answers(&rt, alloc, &script, &[last], &output, 4)?;
        output.extend_from_slice(reply)?;
    }
    answers(&rt, alloc, &script, &[36], &output, 3)?;
    answers(&rt, alloc, &script, &[37], &output, 0)
}

#[test]
fn other_words_touch_nothing(rt: HostRuntime) -> Result<(), Fail> {
    let alloc = rt.alloc();
    let rows: [&[&str]; 7] = [
        &[],
        &["run", "run"],
        &["run", "5"],
        &["--"],
        &["load"],
        &["Run"],
        &[""],
    ];
    for texts in rows {
        let mut host = SlowHost::new(alloc, b"{put,[a],1}.\n".to_vec(alloc)?, 7);
        let words = words(alloc, texts)?;
        assert_eq!(rt; khepri(alloc, words.as_slice(), &mut host), 7);
        assert_eq!(rt; host.calls(), 0);
    }
    Ok(())
}

#[test]
fn a_script_has_at_most_67_108_864_bytes(rt: HostRuntime) -> Result<(), Fail> {
    let alloc = rt.alloc();
    // 256 bytes, 2^18 times
    let form = put_of(alloc, 244)?;
    let mut script = Vec::with_capacity(alloc, 67_108_865)?;
    let mut output = Vec::new(alloc);
    for _ in 0..262_144 {
        script.extend_from_slice(&form)?;
        output.extend_from_slice(b"ok.\n")?;
    }
    assert_eq!(rt; script.len(), 67_108_864);
    answers_in_pieces(&rt, alloc, &script, 65_536, &output, 0)?;
    script.push(b'{')?;
    answers_in_pieces(&rt, alloc, &script, 65_536, &output, 9)
}

#[test]
fn the_program_answers_as_the_plain_session(rt: HostRuntime) -> Result<(), Fail> {
    let alloc = rt.alloc();
    for (script, _, _) in ROWS {
        answers_plainly(&rt, alloc, script)?;
    }
    let script: &[u8] = b"{put,[a,b],-7}.\n{get,[a]}.\n{get,[c,if@]}.\n{put,[a],12}.\n{get,[a]}.\n";
    for len in 0..script.len() {
        let (front, _) = script.split_at(len);
        answers_plainly(&rt, alloc, front)?;
    }
    Ok(())
}
