//! What the hosts in memory share: the input, the sink, the files, and every call with its answer.
ghost use Rattle.std.specs.Prelude.{◌≡◌, ◌≢◌, ◌+◌, ◌-◌, ◌<◌, ◌≤◌, ◌++◌, ◌↔◌, [], ◌∷◌, ℕ, min, true, false, Some, None, length, take, drop, slice_range, vec_capacity, IfOk, IsTrue};
ghost use Rattle.kh_io.specs.Call.{Take, Give, ReadAt, WriteAt, Cut};
ghost use Rattle.kh_io.specs.Entry.{byte_count, call_of};
ghost use Rattle.kh_io.specs.Disk.{file_of, put, IsReadAt, AreImages};
ghost use Rattle.kh_io.specs.FileState.{state_after};
ghost use Rattle.kh_io.specs.Replay.{IsFilled, AreFilled};
ghost use Rattle.kh_io.specs.Recording.{Recording, left_after, given_in, seen_after, image_after, noted, HasRoom, is_idle};

use crate::contents::Contents;
use crate::journal::{Entry, Journal};
use crate::{FileBytes, Files, NoMemory, room};
use std::alloc::Global;
use std::marker::Model;

/// The calls of a host so far, with what they made of its input, its sink and its files.
#[derive(Drop)]
pub struct Recorder {
    alloc: Global,
    input: Vec<u8>,
    taken: usize,
    output: Vec<u8>,
    first: Files,
    contents: Contents,
    journal: Journal,
}

impl Model for Recorder {
    ghost use Rattle.std.specs.Prelude.{◌≡◌, ◌+◌, ◌<◌, ◌≤◌, ℕ, length, sum_by, vec_capacity};
    ghost use Rattle.kh_io.specs.Call.{cost};
    ghost use Rattle.kh_io.specs.Disk.{file_of};
    ghost use Rattle.kh_io.specs.Recording.{Recording, takes, given_in, seen_after};

    ghost Value = { Recording };

    ghost view = { λ r. record { input = r.input.items; first = r.first; calls = r.journal.calls; room = r.journal.room } };

    ghost invariant = { λ r. (r.taken ≡ sum_by takes r.journal.calls)
        × (r.taken ≤ length r.input.items)
        × (r.output.items ≡ given_in r.journal.calls)
        × (r.journal.room ≤ vec_capacity r.output)
        × (r.journal.room ≤ r.contents.free + cost r.journal.calls)
        × ((file : ℕ) → file < 4 → file_of r.contents.files file ≡ seen_after r.first r.journal.calls file) };
}

/// How many bytes of a file of this length stand from a place on, for a buffer of this length.
pub fn read_count(len: usize, at: u64, asked: usize) -> usize
    ensures { result ≡ min asked (len - at) }
{
    asked.min((len as u64).saturating_sub(at) as usize)
}

impl Recorder {
    /// A host before its first call, which takes the memory of its room.
    pub fn new(alloc: Global, input: Vec<u8>, first: Files, room: u64) -> Result<Recorder, NoMemory>
        ensures { IfOk result (λ r. r ≡ record {
          input = input.items;
          first = first;
          calls = [];
          room = room;
        }) }
    {
        let journal = Journal::new(alloc, room)?;
        let output = Vec::with_capacity(alloc, room as usize)?;
        let contents = Contents::new(alloc, &first, room)?;
        Ok(Recorder {
            alloc,
            input,
            taken: 0,
            output,
            first,
            contents,
            journal,
        })
    }

    /// The number of calls.
    pub fn calls(&self) -> usize
        ensures { result ≡ length self.now.calls }
    {
        self.journal.len()
    }

    /// Whether one more call that moves n bytes is within the room.
    pub fn fits(&self, n: usize) -> bool
        ensures { IsTrue result ↔ HasRoom self.now n }
    {
        self.journal.fits(n)
    }

    /// What the sink has taken.
    pub fn output(&self) -> &[u8]
        ensures { result.now ≡ given_in self.now.calls }
    {
        &self.output
    }

    /// How much input is left.
    pub fn left(&self) -> usize
        ensures { result ≡ length (left_after self.now.input self.now.calls) }
    {
        self.input.len() - self.taken
    }

    /// The bytes of a file, as a read finds them.
    pub fn file(&self, file: u8) -> &[u8]
        requires { file < 4 }
        ensures { result.now ≡ seen_after self.now.first self.now.calls file }
    {
        self.contents.get(file)
    }

    /// Notes a call that changes nothing that is read or given.
    pub fn note(&mut self, entry: Entry, bytes: &[u8])
        requires sizes { byte_count entry ≡ length bytes.now }
        requires room { HasRoom self.old (length bytes.now) }
        requires idle { IsTrue (is_idle (call_of entry bytes.now)) }
        ensures { self.new ≡ noted self.old (call_of entry bytes.now) }
    {
        self.journal.add(entry, bytes);
    }

    /// Takes bytes off the input, into the front of a buffer, and notes it.
    pub fn take(&mut self, into: &mut [u8], count: usize)
        requires buffer { count ≤ length into.old }
        requires left { count ≤ length (left_after self.old.input self.old.calls) }
        requires room { HasRoom self.old count }
        ensures noted { self.new ≡ noted self.old
            (Take (length into.new) (Some (take count
            (left_after self.old.input self.old.calls)))) }
        ensures bytes { take count into.new ≡ take count
            (left_after self.old.input self.old.calls) }
    {
        let bytes = &self.input[self.taken..self.taken + count];
        into[..count].copy_from_slice(bytes);
        self.journal.add(
            Entry::Taken {
                asked: into.len(),
                count: Some(count),
            },
            bytes,
        );
        self.taken += count;
    }

    /// Adds a piece to the sink, and notes it.
    pub fn give(&mut self, bytes: &[u8])
        requires { HasRoom self.old (length bytes.now) }
        ensures { self.new ≡ noted self.old (Give bytes.now (Some (length bytes.now))) }
    {
        self.journal.add(
            Entry::Given {
                len: bytes.len(),
                count: Some(bytes.len()),
            },
            bytes,
        );
        room::append(&mut self.output, bytes);
    }

    /// Reads bytes of a file into the front of a buffer, and notes it.
    pub fn read(&mut self, file: u8, at: u64, into: &mut [u8], count: usize)
        requires file { file < 4 }
        requires count { count ≡ min (length into.old)
            (length (seen_after self.old.first self.old.calls file) - at) }
        requires room { HasRoom self.old count }
        ensures bytes { IsReadAt (seen_after self.old.first self.old.calls file) at count into.new }
        ensures noted { self.new ≡ noted self.old
            (ReadAt file at (length into.new) (Some (take count into.new))) }
    {
        if count > 0 {
            let from = at as usize;
            into[..count].copy_from_slice(&self.contents.get(file)[from..from + count]);
        }
        self.journal.add(
            Entry::Read {
                file,
                at,
                asked: into.len(),
                count: Some(count),
            },
            &into[..count],
        );
    }

    /// Writes bytes into a file, and notes it.
    pub fn write(&mut self, file: u8, at: u64, bytes: &[u8])
        requires file { file < 4 }
        requires place { at ≤ length (seen_after self.old.first self.old.calls file) }
        requires room { HasRoom self.old (length bytes.now) }
        ensures { self.new ≡ noted self.old (WriteAt file at bytes.now true) }
    {
        self.journal.add(
            Entry::Written {
                file,
                at,
                len: bytes.len(),
                done: true,
            },
            bytes,
        );
        self.contents.put(file, at as usize, bytes);
    }

    /// Cuts a file to a length, and notes it.
    pub fn cut(&mut self, file: u8, len: u64)
        requires file { file < 4 }
        requires room { HasRoom self.old 0 }
        ensures { self.new ≡ noted self.old (Cut file len true) }
    {
        self.journal.add(
            Entry::CutTo {
                file,
                len,
                done: true,
            },
            &[],
        );
        self.contents.cut(file, len as usize);
    }

    // One file of a crash image.
    fn file_image(
        &self,
        calls: usize,
        file: u8,
        first: &[u8],
        fill: Option<u8>,
    ) -> Result<FileBytes, NoMemory>
        requires calls { calls ≤ length self.now.calls }
        requires first { first.now ≡ file_of self.now.first file }
        ensures { IfOk result (λ bytes. IsFilled
            (state_after file self.now.first (take calls self.now.calls)) fill bytes) }
    {
        let replay = self.journal.replay(self.alloc, calls, first, file)?;
        Ok(replay.filled(fill))
    }

    /// The crash image after the first calls in which each file has the length that a read finds then, and each byte
    /// that isn't yet safe is as written, or this byte.
    pub fn image(&self, calls: usize, fill: Option<u8>) -> Result<Files, NoMemory>
        requires { calls ≤ length self.now.calls }
        ensures filled { IfOk result (AreFilled self.now.first (take calls self.now.calls) fill) }
        ensures image { IfOk result (AreImages
            (image_after self.now.first (take calls self.now.calls))) }
    {
        Ok(Files {
            s0: self.file_image(calls, 0, self.first.s0.as_slice(), fill)?,
            l0: self.file_image(calls, 1, self.first.l0.as_slice(), fill)?,
            s1: self.file_image(calls, 2, self.first.s1.as_slice(), fill)?,
            l1: self.file_image(calls, 3, self.first.l1.as_slice(), fill)?,
        })
    }
}
