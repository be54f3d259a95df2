//! Why a call of the real host failed, in words for whoever runs the program.
use std::fs::{self, File, TryLockError};
use std::io;
use std::rt::Files;
use thiserror::Error;

/// What failed: a call on a file or a stream, with the system's word for it, or the lock of the folder, which another process has.
#[derive(Clone, Copy, Debug, Drop, Error)]
pub enum Fault {
    #[error("another process has the store open")]
    InUse,
    #[error("{name}: {call}: {error}")]
    Call {
        name: &'static str,
        call: &'static str,
        error: io::Error,
    },
}

impl Fault {
    /// This call on this file or stream failed.
    pub fn of(name: &'static str, call: &'static str, error: io::Error) -> Fault {
        Fault::Call { name, call, error }
    }
}

/// Opens the null device as often as there are standard streams, so that none that is closed gives its number to a file that is
/// opened later: reading it finds its end, and writing it fails. To be called before any file is opened, and kept to the end.
pub fn hold_streams<R: Files>(rt: &R) -> Result<(R::File, R::File, R::File), Fault> {
    Ok((null(rt)?, null(rt)?, null(rt)?))
}

// The null device, for reading alone.
fn null<R: Files>(rt: &R) -> Result<R::File, Fault> {
    fs::open(rt, "/dev/null").map_err(|error| Fault::of("/dev/null", "open", error))
}

/// Locks the working folder until the file that is returned is closed. The lock is taken by every process that runs the store.
///
/// # Errors
/// `InUse` where another process has it, else the call that failed.
pub fn lock_folder<R: Files<File = File>>(rt: &R) -> Result<File, Fault> {
    let folder = fs::open(rt, ".").map_err(|error| Fault::of(".", "open", error))?;
    match folder.try_lock() {
        Ok(()) => Ok(folder),
        Err(TryLockError::WouldBlock) => Err(Fault::InUse),
        Err(TryLockError::Error(error)) => Err(Fault::of(".", "lock", error)),
    }
}
