//! The calls of a host in memory, with the bytes that they move.
ghost use Rattle.std.specs.Prelude.{◌≡◌, ◌+◌, ◌*◌, ◌/◌, ◌<◌, ◌≤◌, ◌↔◌, ℕ, List, [], ◌∷◌, ◌++◌, length, IfOk, IsTrue, vec_len, vec_capacity, sum_by, fold, take};
ghost use Rattle.kh_io.specs.JournalState.{JournalState, Fits};

use crate::replay::{self, Replay};
use crate::{NoMemory, room};
use std::alloc::Global;
use std::marker::Model;

/// What each call takes of the room beside its bytes.
const PER_CALL: u64 = 64;

/// A call without its bytes.
#[derive(Clone, Copy)]
pub enum Entry {
    Taken {
        asked: usize,
        count: Option<usize>,
    },
    Given {
        len: usize,
        count: Option<usize>,
    },
    Asked {
        file: u8,
        len: Option<u64>,
    },
    Read {
        file: u8,
        at: u64,
        asked: usize,
        count: Option<usize>,
    },
    Written {
        file: u8,
        at: u64,
        len: usize,
        done: bool,
    },
    CutTo {
        file: u8,
        len: u64,
        done: bool,
    },
    Synced {
        file: u8,
        done: bool,
    },
}

impl Entry {
    ghost use Rattle.kh_io.specs.Entry.{byte_count};

    /// How many bytes belong to the entry.
    pub fn bytes(&self) -> usize
        ensures { result ≡ byte_count self.now }
    {
        match *self {
            Entry::Taken { count, .. } | Entry::Read { count, .. } => count.unwrap_or(0),
            Entry::Given { len, .. } | Entry::Written { len, .. } => len,
            Entry::Asked { .. } | Entry::CutTo { .. } | Entry::Synced { .. } => 0,
        }
    }
}

/// The calls so far, and room for more.
#[derive(Drop)]
pub struct Journal {
    entries: Vec<Entry>,
    bytes: Vec<u8>,
    room: u64,
}

impl Model for Journal {
    ghost use Rattle.std.specs.Prelude.{◌≡◌, ◌+◌, ◌*◌, ◌/◌, ◌≤◌, ℕ, length, sum_by, vec_capacity};
    ghost use Rattle.kh_io.specs.JournalState.{JournalState};

    ghost Value = { JournalState };

    ghost use Rattle.kh_io.specs.Entry.{calls_of, byte_count};

    ghost view = { λ j. record { calls = calls_of j.entries.items j.bytes.items; room = j.room } };

    ghost invariant = { λ j. (sum_by byte_count j.entries.items ≡ length j.bytes.items)
        × (64 * length j.entries.items + length j.bytes.items ≤ j.room)
        × (j.room / 64 ≤ vec_capacity j.entries)
        × (j.room ≤ vec_capacity j.bytes) };
}

impl Journal {
    ghost use Rattle.kh_io.specs.Entry.{byte_count, call_of};
    ghost use Rattle.kh_io.specs.FileState.{synced, after};
    ghost use Rattle.kh_io.specs.Replay.{Shows};

    /// An empty journal, which takes the memory of its room.
    pub fn new(alloc: Global, room: u64) -> Result<Journal, NoMemory>
        ensures { IfOk result (λ j. j ≡ record { calls = []; room = room }) }
    {
        let entries = Vec::with_capacity(alloc, (room / PER_CALL) as usize)?;
        let bytes = Vec::with_capacity(alloc, room as usize)?;
        Ok(Journal {
            entries,
            bytes,
            room,
        })
    }

    /// The number of calls.
    pub fn len(&self) -> usize
        ensures { result ≡ length self.now.calls }
    {
        self.entries.len()
    }

    /// Whether one more call that moves n bytes is within the room.
    pub fn fits(&self, n: usize) -> bool
        ensures { IsTrue result ↔ Fits self.now.calls self.now.room n }
    {
        let used = PER_CALL * self.entries.len() as u64 + self.bytes.len() as u64;
        let free = self.room - used;
        free >= PER_CALL && free - PER_CALL >= n as u64
    }

    /// Adds a call.
    pub fn add(&mut self, entry: Entry, bytes: &[u8])
        requires sizes { byte_count entry ≡ length bytes.now }
        requires fits { Fits self.old.calls self.old.room (length bytes.now) }
        ensures { self.new ≡ record {
          calls = self.old.calls ++ call_of entry bytes.now ∷ [];
          room = self.old.room;
        } }
    {
        self.entries.push_reserved(entry);
        room::append(&mut self.bytes, bytes);
    }

    /// A file of these bytes after the first calls.
    pub fn replay(
        &self,
        alloc: Global,
        calls: usize,
        first: &[u8],
        file: u8,
    ) -> Result<Replay, NoMemory>
        requires { calls ≤ length self.now.calls }
        ensures { IfOk result (λ r. Shows
            (fold (after file) (synced first.now) (take calls self.now.calls)) r) }
    {
        replay::replayed(alloc, first, &self.entries[..calls], &self.bytes, file)
    }
}
