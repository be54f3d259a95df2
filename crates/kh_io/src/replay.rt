//! A file as it stood after some of the calls of a host in memory.
ghost use Rattle.std.specs.Prelude.{◌≡◌, ◌+◌, ◌<◌, ◌≤◌, ℕ, [], ◌∷◌, length, take, reverse, min, if◌then◌else◌, sum_by, fold, slice_index, unwrap_or, vec_len, vec_capacity, IfOk, OnOk};
ghost use Rattle.std.specs.List.{list_any};
ghost use Rattle.kh_io.specs.Disk.{put};
ghost use Rattle.kh_io.specs.FileState.{FileState, synced, written, cut_to, after, is_within};
ghost use Rattle.kh_io.specs.Entry.{byte_count, call_of, calls_of};
ghost use Rattle.kh_io.specs.Replay.{Replayed, Shows, is_loose_at, IsFilled};

use crate::journal::Entry;
use crate::{FileBytes, NoMemory, contents};
use std::alloc::Global;
use std::marker::Model;

/// What a read gave of a file, and what of it a crash might have left otherwise.
#[derive(Drop)]
pub struct Replay {
    bytes: Vec<u8>,
    least: u64,
    loose: Vec<(u64, usize)>,
}

impl Model for Replay {
    ghost use Rattle.std.specs.Prelude.{reverse};
    ghost use Rattle.kh_io.specs.Replay.{Replayed};

    ghost Value = { Replayed };

    ghost view = { λ r. record { bytes = r.bytes.items; least = r.least; loose = reverse r.loose.items } };
}

impl Replay {
    /// A file of which a crash leaves what a read gives.
    pub fn new(alloc: Global, bytes: &[u8]) -> Result<Replay, NoMemory>
        ensures { IfOk result (λ r. r ≡ record {
          bytes = bytes.now;
          least = length bytes.now;
          loose = [];
        }) }
    {
        Ok(Replay {
            bytes: bytes.to_vec(alloc)?,
            least: bytes.len() as u64,
            loose: Vec::new(alloc),
        })
    }

    fn write(&mut self, at: u64, bytes: &[u8], done: bool) -> Result<(), NoMemory>
        ensures { OnOk result (self.new ≡ record {
          bytes = if done then put self.old.bytes at bytes.now else self.old.bytes;
          least = self.old.least;
          loose = (at, length bytes.now) ∷ self.old.loose;
        }) }
    {
        self.loose.push((at, bytes.len()))?;
        if done {
            self.bytes.reserve(bytes.len())?;
            let place = self.bytes.len().min(at as usize);
            contents::put(&mut self.bytes, place, bytes);
        }
        Ok(())
    }

    fn cut(&mut self, len: u64, done: bool)
        ensures { self.new ≡ record {
          bytes = if done then take len self.old.bytes else self.old.bytes;
          least = min self.old.least len;
          loose = self.old.loose;
        } }
    {
        self.least = self.least.min(len);
        if done {
            self.bytes.truncate(len as usize);
        }
    }

    fn sync(&mut self)
        ensures { self.new ≡ record {
          bytes = self.old.bytes;
          least = length self.old.bytes;
          loose = [];
        } }
    {
        self.least = self.bytes.len() as u64;
        self.loose.clear();
    }

    /// The file of this number after one more call.
    pub fn step(&mut self, file: u8, entry: &Entry, bytes: &[u8]) -> Result<(), NoMemory>
        ensures { OnOk result ((s : FileState) → Shows s self.old
            → Shows (after file s (call_of entry.now bytes.now)) self.new) }
    {
        match *entry {
            Entry::Written {
                file: this,
                at,
                done,
                ..
            } if this == file => self.write(at, bytes, done)?,
            Entry::CutTo {
                file: this,
                len,
                done,
            } if this == file => self.cut(len, done),
            Entry::Synced { file: this, done } if this == file && done => self.sync(),
            _ => {}
        }
        Ok(())
    }

    /// The crash image with the length that a read finds, each byte that isn't yet safe as written, or this byte.
    pub fn filled(self, fill: Option<u8>) -> FileBytes
        ensures { (s : FileState) → Shows s self → IsFilled s fill result }
    {
        let Some(byte) = fill else {
            return FileBytes::new(self.bytes);
        };
        let mut bytes = self.bytes;
        overwrite(&mut bytes, self.least, &self.loose, byte);
        FileBytes::new(bytes)
    }
}

// Whether a place lies in a range, given as its place and its length.
fn is_within(range: (u64, usize), i: u64) -> bool
    ensures { result ≡ is_within i range }
{
    range.0 <= i && i - range.0 < range.1 as u64
}

// Whether a place lies in one of the ranges.
fn is_in_any(ranges: &[(u64, usize)], i: u64) -> bool
    ensures { result ≡ list_any (is_within i) ranges.now }
{
    ranges.iter().any(|range| is_within(*range, i))
}

// Puts a byte in the place of each that isn't yet safe.
fn overwrite(bytes: &mut [u8], least: u64, loose: &[(u64, usize)], byte: u8)
    ensures { (i : ℕ) → i < length bytes.new
        → slice_index bytes.new i ≡
        (if is_loose_at least loose.now i then byte else slice_index bytes.old i) }
{
    for (i, old) in bytes.iter_mut().enumerate() {
        if i as u64 >= least || is_in_any(loose, i as u64) {
            *old = byte;
        }
    }
}

/// A file after these entries, whose bytes follow one another.
pub fn replayed(
    alloc: Global,
    first: &[u8],
    entries: &[Entry],
    bytes: &[u8],
    file: u8,
) -> Result<Replay, NoMemory>
    requires { sum_by byte_count entries.now ≤ length bytes.now }
    ensures { IfOk result (λ r. Shows
        (fold (after file) (synced first.now) (calls_of entries.now bytes.now)) r) }
{
    let mut replay = Replay::new(alloc, first)?;
    let mut from = 0;
    for entry in entries {
        let to = from + entry.bytes();
        replay.step(file, entry, &bytes[from..to])?;
        from = to;
    }
    Ok(replay)
}
