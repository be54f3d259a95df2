//! The gates of a file, one after the other.
ghost use Rattle.std.specs.Prelude.{◌≡◌, ◌≤◌, ◌<◌, ◌+◌, ◌-◌, ◌*◌, ◌^◌, ℕ, List, length, take, drop, None, Some, IfSome, IfNone, IfOk, IsErrOf};
ghost use Rattle.kh_io.specs.Disk.{IsReadAt};
ghost use Rattle.kh_io.specs.Frames.{FileTold, Asks, DiskCause};
ghost use Rattle.kh_log.specs.Records.{length_of, lacking_in, records_of, span, IsClosedAt, IsOpenAt, LacksAt};
ghost use Rattle.kh_log.specs.Log.{EndsAt};

use crate::{LogError, OPEN};
use byteorder::{BigEndian, ByteOrder};
use kh_io::Disk;
use std::alloc::Global;

// an open gate and the length of its record
const HEADER: usize = 5;

/// The place of the gate behind the record at this gate; None where the gate is closed. The file has `len` bytes.
pub(crate) fn gate_behind<D: Disk>(
    disk: &mut D,
    file: u8,
    at: u64,
    len: u64,
) -> Result<Option<u64>, LogError>
    requires file { file < 4 }
    requires within { at < len }
    requires len { IfSome ((D.view disk.old).seen file) (λ bytes. length bytes ≡ len) }
    ensures open { IfOk result (λ n. IfSome n
        (λ next. FileTold file (D.view disk.old) (D.view disk.new)
        (λ was _. IsOpenAt at next was))) }
    ensures on { IfOk result (λ n. IfSome n (λ next. (at + 5 ≤ next) × (next < len))) }
    ensures closed { IfOk result (λ n. IfNone n
        (FileTold file (D.view disk.old) (D.view disk.new) (λ was _. IsClosedAt at was))) }
    ensures lacks { (o : ℕ) → IsErrOf result (LogError.NotALog o)
        → (o ≡ at + 1) × FileTold file (D.view disk.old) (D.view disk.new)
        (λ was _. LacksAt at was) }
    ensures enough_memory { IsErrOf result LogError.NoMemory → ⊥ }
    ensures asks { Asks (D.view disk.old) (D.view disk.new) }
    ensures cause { DiskCause (IsErrOf result LogError.DiskFault) (D.view disk.old)
        (D.view disk.new) }
{
    let mut header = [0u8; HEADER];
    let count = disk.read_at(file, at, &mut header)?;
    next_gate(at, len, &header, count)
}

// The same from the bytes at the gate, of which this many were read.
fn next_gate(at: u64, len: u64, header: &[u8], count: usize) -> Result<Option<u64>, LogError>
    requires within { at < len }
    requires header { length header.now ≡ 5 }
    ensures open { IfOk result (λ n. IfSome n
        (λ next. (bytes : List ℕ) → length bytes ≡ len → IsReadAt bytes at count header.now
        → IsOpenAt at next bytes)) }
    ensures on { IfOk result (λ n. IfSome n (λ next. (at + 5 ≤ next) × (next < len))) }
    ensures closed { IfOk result (λ n. IfNone n
        ((bytes : List ℕ) → length bytes ≡ len → IsReadAt bytes at count header.now
        → IsClosedAt at bytes)) }
    ensures lacks { (o : ℕ) → IsErrOf result (LogError.NotALog o)
        → (o ≡ at + 1) × ((bytes : List ℕ) → length bytes ≡ len → IsReadAt bytes at count header.now
        → LacksAt at bytes) }
    ensures no_other { (e : LogError) → IsErrOf result e → e ≡ LogError.NotALog (at + 1) }
{
    if count == 0 || header[0] != OPEN {
        return Ok(None);
    }
    let lacks = Err(LogError::NotALog(at + 1));
    if count < HEADER {
        return lacks;
    }
    let length = record_length(&header[1..]);
    if len - at - 1 < 5 + length {
        return lacks;
    }
    Ok(Some(at + 5 + length))
}

// The length that these bytes begin with.
fn record_length(bytes: &[u8]) -> u64
    requires { 4 ≤ length bytes.now }
    ensures is { result ≡ length_of bytes.now }
    ensures fits { result < 2 ^ 32 }
{
    BigEndian::read_u32(bytes) as u64
}

/// How many records a file of `len` bytes has, and the place of the gate behind the last.
pub(crate) fn last_gate<D: Disk>(disk: &mut D, file: u8, len: u64) -> Result<(u64, u64), LogError>
    requires file { file < 4 }
    requires some { 2 ≤ len }
    requires len { IfSome ((D.view disk.old).seen file) (λ bytes. length bytes ≡ len) }
    ensures last { IfOk result (λ r. FileTold file (D.view disk.old) (D.view disk.new)
        (λ was _. EndsAt r.1 (records_of was) was × (r.0 ≡ length (records_of was)))) }
    ensures bound { IfOk result (λ r. 5 * r.0 ≤ r.1) }
    ensures fits { IfOk result (λ r. r.1 < 2 ^ 64 - 1) }
    ensures lacks { (o : ℕ) → IsErrOf result (LogError.NotALog o)
        → FileTold file (D.view disk.old) (D.view disk.new) (λ was _. lacking_in was ≡ Some o) }
    ensures enough_memory { IsErrOf result LogError.NoMemory → ⊥ }
    ensures asks { Asks (D.view disk.old) (D.view disk.new) }
    ensures cause { DiskCause (IsErrOf result LogError.DiskFault) (D.view disk.old)
        (D.view disk.new) }
{
    let mut count = 0;
    let mut at = 0;
    while let Some(next) = gate_behind(disk, file, at, len)? {
        count += 1;
        at = next;
    }
    Ok((count, at))
}

/// How many records a file has, and the place of the gate behind the last.
pub(crate) fn count_records<D: Disk>(disk: &mut D, file: u8) -> Result<(u64, u64), LogError>
    requires { file < 4 }
    ensures last { IfOk result (λ r. FileTold file (D.view disk.old) (D.view disk.new)
        (λ was _. (lacking_in was ≡ None) × (r.1 ≡ span (records_of was))
        × (r.0 ≡ length (records_of was)))) }
    ensures closed { IfOk result (λ r. FileTold file (D.view disk.old) (D.view disk.new)
        (λ was _. 2 ≤ length was → IsClosedAt r.1 was)) }
    ensures bound { IfOk result (λ r. 5 * r.0 ≤ r.1) }
    ensures fits { IfOk result (λ r. r.1 < 2 ^ 64 - 1) }
    ensures lacks { (o : ℕ) → IsErrOf result (LogError.NotALog o)
        → FileTold file (D.view disk.old) (D.view disk.new) (λ was _. lacking_in was ≡ Some o) }
    ensures enough_memory { IsErrOf result LogError.NoMemory → ⊥ }
    ensures asks { Asks (D.view disk.old) (D.view disk.new) }
    ensures cause { DiskCause (IsErrOf result LogError.DiskFault) (D.view disk.old)
        (D.view disk.new) }
{
    let len = disk.len(file)?;
    if len < 2 {
        return Ok((0, 0));
    }
    last_gate(disk, file, len)
}

/// The length behind the open gate at this place, of a record that ends at `last` at the latest.
pub(crate) fn length_behind<D: Disk>(
    disk: &mut D,
    file: u8,
    at: u64,
    last: u64,
) -> Result<u64, LogError>
    requires file { file < 4 }
    requires within { at ≤ last }
    requires fits { last < 2 ^ 64 - 1 }
    ensures length { IfOk result (λ n. FileTold file (D.view disk.old) (D.view disk.new)
        (λ was _. n ≡ length_of (drop (at + 1) was))) }
    ensures bound { IfOk result (λ n. at + 5 + n ≤ last) }
    ensures lacks { (o : ℕ) → IsErrOf result (LogError.NotALog o)
        → FileTold file (D.view disk.old) (D.view disk.new)
        (λ was _. (after : ℕ) → IsOpenAt at after was → after ≤ last → ⊥) }
    ensures enough_memory { IsErrOf result LogError.NoMemory → ⊥ }
    ensures asks { Asks (D.view disk.old) (D.view disk.new) }
    ensures cause { DiskCause (IsErrOf result LogError.DiskFault) (D.view disk.old)
        (D.view disk.new) }
{
    let mut header = [0u8; 4];
    let count = disk.read_at(file, at + 1, &mut header)?;
    if count < 4 {
        return Err(LogError::NotALog(at + 1));
    }
    let length = record_length(&header);
    if last - at < 5 + length {
        return Err(LogError::NotALog(at + 1));
    }
    Ok(length)
}

/// So many bytes of the record behind the gate at this place.
pub(crate) fn bytes_at<D: Disk>(
    alloc: Global,
    disk: &mut D,
    file: u8,
    at: u64,
    count: usize,
) -> Result<Vec<u8>, LogError>
    requires file { file < 4 }
    requires fits { at + 5 + count < 2 ^ 64 }
    ensures bytes { IfOk result (λ bytes. FileTold file (D.view disk.old) (D.view disk.new)
        (λ was _. bytes.items ≡ take count (drop (at + 5) was))) }
    ensures length { IfOk result (λ bytes. length bytes.items ≡ count) }
    ensures lacks { (o : ℕ) → IsErrOf result (LogError.NotALog o)
        → FileTold file (D.view disk.old) (D.view disk.new) (λ was _. length was < at + 5 + count) }
    ensures asks { Asks (D.view disk.old) (D.view disk.new) }
    ensures cause { DiskCause (IsErrOf result LogError.DiskFault) (D.view disk.old)
        (D.view disk.new) }
{
    let mut bytes = vec![in alloc; 0u8; count]?;
    let found = disk.read_at(file, at + 5, &mut bytes)?;
    if found < count {
        return Err(LogError::NotALog(at + 1));
    }
    Ok(bytes)
}
