//! The store: a script of commands in, a reply for each out.
#![tactic(auto)]

mod damage;
mod input;
mod line;
mod memory;
mod output;
#[cfg(test)]
mod plain;
mod run;
mod session;
mod sound;
#[cfg(test)]
mod tests;
mod top;

use kh_io::{Fault, RealHost, hold_streams, lock_folder};
use std::process::ExitCode;
use std::rt::{Env, Runtime};
use std::{env, io};
use top::{are_right, khepri};

const USAGE: &str = "usage: khepri run";

const DAMAGED: &str =
    "khepri: khepri.l0 is damaged: put the four files of a copy in place of these";

/// The words that the program was called with, without its own name, or the status that says why there are none.
fn words<R: Env + AllocGlobal>(rt: &R) -> Result<Vec<String>, u8> {
    match env::args(rt) {
        Ok(args) => args.skip(1).collect(rt.alloc()).map_err(|_| 6),
        Err(error) => match error.kind() {
            io::ErrorKind::OutOfMemory => Err(6),
            _ => Err(7),
        },
    }
}

fn main(rt: HostRuntime) -> ExitCode {
    // (kept to the end)
    let streams = hold_streams(&rt);
    let closed = streams.as_ref().err().copied();
    let (status, fault) = match words(&rt) {
        Ok(words) => answer(&rt, words.as_slice(), closed),
        Err(status) => (status, None),
    };
    tell(&rt, status, fault);
    ExitCode::from(status)
}

/// Answers the script on the standard streams, over the files of the working folder while it is locked, and returns the status with the
/// first call that failed. Where there is a reason not to open files, or the folder can't be locked, the disk fails.
fn answer(rt: &HostRuntime, words: &[String], closed: Option<Fault>) -> (u8, Option<Fault>) {
    let Ok(own) = rt.clone() else {
        return (6, None);
    };
    let mut host = RealHost::new(own);
    // (kept to the end)
    let folder = match closed {
        Some(fault) => Err(fault),
        None if are_right(words) => lock_folder(rt).map(Some),
        None => Ok(None),
    };
    if let Err(fault) = &folder {
        host.shut(*fault);
    }
    let status = khepri(rt.alloc(), words, &mut host);
    (status, host.fault())
}

/// Says on standard error why a run ended early.
fn tell(rt: &HostRuntime, status: u8, fault: Option<Fault>) {
    let _ = match (status, fault) {
        (1, _) => rt.eprintln(DAMAGED),
        (3..=5, Some(fault)) => eprintln!(rt; "khepri: {fault}"),
        (6, _) => rt.eprintln("khepri: memory ran out"),
        (7, _) => rt.eprintln(USAGE),
        _ => Ok(()),
    };
}
