//! A whole run: the store is opened, pieces of the input come, and their lines are answered.
ghost use Rattle.std.specs.Prelude.{◌≡◌, ◌≢◌, ◌<◌, ℕ, Err, length, IsSome};
ghost use Rattle.kh_io.specs.Frames.{FilesTold, Causes};
ghost use Rattle.kh_store.specs.Recovery.{Recovery, Recovers};
ghost use Rattle.kh_store.specs.Store.{state_of, Stands};
ghost use Rattle.khepri.specs.Run.{stop_status, run_status, Ends, Runs, FindsDamage};

use crate::damage::report;
use crate::input::{Piece, take_more};
use crate::session::{Stop, serve};
use kh_io::Host;
use kh_store::{OpenError, Store};
use std::alloc::Global;

/// How many bytes are asked for at a time.
const PIECE: usize = 65_536;

impl Stop {
    /// The status of a run that stopped so.
    pub fn status(self) -> u8
        ensures { result ≡ stop_status self }
    {
        match self {
            Stop::Damaged => 1,
            Stop::Syntax => 2,
            Stop::ReadFault => 3,
            Stop::WriteFault => 4,
            Stop::DiskFault => 5,
            Stop::NoMemory => 6,
            Stop::TooLong => 9,
        }
    }
}

/// Opens the store in the files of the host, and answers the script that it gives.
pub fn run<H: Host>(alloc: Global, host: &mut H) -> Result<(), Stop>
    ensures ran { FilesTold (H.view host.old) (H.view host.new)
        (λ files. (found : Recovery) → Recovers files found
        → Runs found (run_status result) (H.view host.old) (H.view host.new)) }
    ensures damage { result ≡ Err Stop.Damaged
        → FilesTold (H.view host.old) (H.view host.new) FindsDamage }
    ensures causes { Causes (result ≡ Err Stop.ReadFault) (result ≡ Err Stop.WriteFault)
        (result ≡ Err Stop.DiskFault) (H.view host.old) (H.view host.new) }
{
    match Store::open(alloc, host) {
        Ok(mut store) => {
            let Ok(mut buffer) = vec![in alloc; 0u8; PIECE] else {
                return Err(Stop::NoMemory);
            };
            answer_script(alloc, host, &mut store, buffer.as_mut_slice())
        }
        Err(OpenError::Damaged { file, offset }) => Err(report(alloc, host, file, offset)),
        Err(OpenError::DiskFault) => Err(Stop::DiskFault),
        Err(OpenError::NoMemory) => Err(Stop::NoMemory),
    }
}

// Answers a script over a store that is open. Its pieces come through the buffer.
#[tactic(none)]
fn answer_script<H: Host>(
    alloc: Global,
    host: &mut H,
    store: &mut Store,
    buffer: &mut [u8],
) -> Result<(), Stop>
    requires stands { Stands store.old (H.view host.old) }
    requires room { 0 < length buffer.old }
    ensures ran { Ends (state_of store.old) (run_status result) (H.view host.old)
        (H.view host.new) }
    ensures stands { result ≢ Err Stop.DiskFault → Stands store.new (H.view host.new) }
    ensures damage { result ≡ Err Stop.Damaged → ⊥ }
    ensures causes { Causes (result ≡ Err Stop.ReadFault) (result ≡ Err Stop.WriteFault)
        (result ≡ Err Stop.DiskFault) (H.view host.old) (H.view host.new) }
    // What is told of the files at exit was told at entry.
    ensures told { (file : ℕ) → file < 4 → IsSome ((H.view host.new).seen file)
        → IsSome ((H.view host.old).seen file) }
{
    let mut input = Vec::new(alloc);
    let mut at = 0;
    'pieces: loop {
        match take_more(host, &mut input, buffer) {
            Ok(Piece::Some) => {}
            Ok(Piece::None) => break,
            Err(stop) => return Err(stop),
        }
        match serve(alloc, host, store, input.as_slice(), at, false) {
            Ok(next) => at = next,
            Err(stop) => return Err(stop),
        }
    }
    match serve(alloc, host, store, input.as_slice(), at, true) {
        Ok(_) => Ok(()),
        Err(stop) => Err(stop),
    }
}
