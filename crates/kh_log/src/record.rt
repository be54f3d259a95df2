//! Records that are ready to be appended.
ghost use Rattle.std.specs.Prelude.{◌≡◌, ◌<◌, ◌^◌, [], ◌∷◌, length, vec_len, IfOk};
ghost use Rattle.kh_log.specs.Records.{open_gate, log_of};

use byteorder::{BigEndian, ByteOrder};
use kh_io::NoMemory;
use std::alloc::Global;
use std::marker::Model;

// a gate that isn't open
const CLOSED: u8 = 0;

/// Records with all the memory that an append of them needs.
#[derive(Debug, Drop)]
pub struct Record {
    // what stands behind the first gate: for each record its length, its bytes and the next gate, of which the last is closed
    pub(crate) bytes: Vec<u8>,
    pub(crate) count: u64,
}

impl Model for Record {
    ghost use Rattle.std.specs.Prelude.{◌≡◌, ◌∷◌, List, ℕ, length};
    ghost use Rattle.kh_log.specs.Records.{open_gate, records_of, log_of};

    ghost Value = { List (List ℕ) };

    ghost view = { λ r. records_of (open_gate ∷ r.bytes.items) };

    ghost invariant = { λ r. (log_of (records_of (open_gate ∷ r.bytes.items)) ≡ open_gate ∷ r.bytes.items) × (r.count ≡ length (records_of (open_gate ∷ r.bytes.items))) };
}

/// One record of these bytes.
pub fn prepare(alloc: Global, bytes: Vec<u8>) -> Result<Record, NoMemory>
    requires { vec_len bytes < 2 ^ 32 }
    ensures { IfOk result (λ r. r ≡ bytes.items ∷ []) }
{
    let bytes = behind_gate(alloc, &bytes)?;
    Ok(Record { bytes, count: 1 })
}

// What stands behind the open gate of one record: its length, its bytes and a closed gate.
fn behind_gate(alloc: Global, body: &[u8]) -> Result<Vec<u8>, NoMemory>
    requires { length body.now < 2 ^ 32 }
    ensures { IfOk result (λ all. open_gate ∷ all.items ≡ log_of (body.now ∷ [])) }
{
    let mut header = [0u8; 4];
    BigEndian::write_u32(&mut header, body.len() as u32);
    let mut all = Vec::with_capacity(alloc, body.len() + 5)?;
    all.extend_from_slice(&header)?;
    all.extend_from_slice(body)?;
    all.push(CLOSED)?;
    Ok(all)
}
