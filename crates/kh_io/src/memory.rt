//! A host in memory, for tests: it keeps every call, and fails where it is told to.
ghost use Rattle.std.specs.Prelude.{◌≡◌, ◌<◌, ◌≤◌, ◌+◌, ◌^◌, true, false, length, take, Some, None, Ok, Err, IfOk, IsTrue, IsFalse};
ghost use Rattle.kh_io.specs.Call.{failed, Take, Give, Len, ReadAt, WriteAt, Cut, Sync};
ghost use Rattle.kh_io.specs.Disk.{IsReadAt, AreImages};
ghost use Rattle.kh_io.specs.Replay.{AreFilled};
ghost use Rattle.kh_io.specs.Recording.{left_after, given_in, seen_after, image_after, left_since, HasRoom};

use crate::journal::Entry;
use crate::recorder::{Recorder, read_count};
use crate::{Disk, Failed, Files, Host, NoMemory};
use std::alloc::Global;
use std::marker::Model;

/// A host in memory.
///
/// Its calls are numbered from 0, and those whose numbers are listed fail and do nothing.
/// It takes its memory when it is made: 64 bytes of room for each call and one for each byte that a call
/// takes, reads or is handed. A call past the room isn't numbered; it does nothing and fails.
#[derive(Drop)]
pub struct MemoryHost {
    recorder: Recorder,
    tells: bool,
    failing: Vec<u64>,
    disk_faults: u64,
    read_faults: u64,
    write_faults: u64,
}

impl Model for MemoryHost {
    ghost use Rattle.kh_io.specs.Memory.{Memory};

    ghost Value = { Memory };

    ghost view = { λ h. record {
      tape = h.recorder;
      tells = h.tells;
      failing = h.failing.items;
      disk_faults = h.disk_faults;
      read_faults = h.read_faults;
      write_faults = h.write_faults;
    } };
}

impl MemoryHost {
    ghost use Rattle.kh_io.specs.Memory.{fresh, is_listed, add_call, stopped, disk_fault, read_fault};
    ghost use Rattle.kh_io.specs.Entry.{byte_count, call_of};
    ghost use Rattle.kh_io.specs.Recording.{is_idle};

    /// A host with this input and these files, whose calls with the listed numbers fail.
    pub fn new(
        alloc: Global,
        input: Vec<u8>,
        files: Files,
        failing: Vec<u64>,
        room: u64,
    ) -> Result<MemoryHost, NoMemory>
        ensures { IfOk result (λ h. h ≡ fresh input.items files failing.items room) }
    {
        Ok(MemoryHost {
            recorder: Recorder::new(alloc, input, files, room)?,
            tells: true,
            failing,
            disk_faults: 0,
            read_faults: 0,
            write_faults: 0,
        })
    }

    /// What the sink has taken.
    pub fn output(&self) -> &[u8]
        ensures { result.now ≡ given_in self.now.tape.calls }
    {
        self.recorder.output()
    }

    /// The number of calls made, without those past the room.
    pub fn calls(&self) -> u64
        ensures { result ≡ length self.now.tape.calls }
    {
        self.recorder.calls() as u64
    }

    /// The crash image after the first calls in which each file has the length that a read finds then, and each byte
    /// that isn't yet safe is as written, or this byte.
    pub fn image(&self, calls: u64, fill: Option<u8>) -> Result<Files, NoMemory>
        requires { calls ≤ length self.now.tape.calls }
        ensures filled { IfOk result (AreFilled self.now.tape.first
            (take calls self.now.tape.calls) fill) }
        ensures image { IfOk result (AreImages
            (image_after self.now.tape.first (take calls self.now.tape.calls))) }
    {
        self.recorder.image(calls as usize, fill)
    }

    // Whether the next call is listed.
    fn is_listed(&self) -> bool
        ensures { result ≡ is_listed self.now }
    {
        self.failing.contains(&(self.recorder.calls() as u64))
    }

    // A disk call that fails, past the room.
    fn refuse(&mut self) -> Failed
        ensures { self.new ≡ disk_fault (stopped self.old) }
    {
        self.tells = false;
        self.disk_faults = self.disk_faults.saturating_add(1);
        Failed
    }

    // A disk call that fails since it is listed.
    fn fail(&mut self, entry: Entry, bytes: &[u8]) -> Failed
        requires sizes { byte_count entry ≡ length bytes.now }
        requires room { HasRoom self.old.tape (length bytes.now) }
        requires idle { IsTrue (is_idle (call_of entry bytes.now)) }
        ensures { self.new ≡ disk_fault (add_call self.old (call_of entry bytes.now)) }
    {
        self.recorder.note(entry, bytes);
        self.disk_faults = self.disk_faults.saturating_add(1);
        Failed
    }

    // A `take` that fails since it is listed.
    fn fail_take(&mut self, asked: usize) -> Failed
        requires { HasRoom self.old.tape 0 }
        ensures { self.new ≡ read_fault (add_call self.old (Take asked None)) }
    {
        let failed = Entry::Taken { asked, count: None };
        self.recorder.note(failed, &[]);
        self.read_faults = self.read_faults.saturating_add(1);
        Failed
    }
}

impl Disk for MemoryHost {
    ghost use Rattle.kh_io.specs.Laws.{seen_is_left, some_not_none, stamp_is, now_since, since_now, now_of};
    ghost use Rattle.kh_io.specs.Memory.{memory_view, is_listed, add_call, stopped, disk_fault, read_moves, read_len};

    ghost view = { memory_view };

    ghost seen_is_image = { λ m file bytes lt same. seen_is_left m.tape.first m.tape.calls file bytes same };

    ghost untold_is_not_left = { λ _ _ _ _ same _. some_not_none same };

    ghost stamp_counts = { λ m bytes same. stamp_is (given_in m.tape.calls) bytes same };

    ghost counts_now = { λ m t files le images. now_since m.tape.first m.tape.calls t files le images };

    ghost only_now = { λ m files s left. now_of (memory_view m) files s (since_now m.tape.first m.tape.calls files s left) };

    fn len(&mut self, file: u8) -> Result<u64, Failed>
        requires { file < 4 }
        ensures past { (HasRoom self.old.tape 0 → ⊥) → (result ≡ Err failed)
            × (self.new ≡ disk_fault (stopped self.old)) }
        ensures listed { HasRoom self.old.tape 0 → IsTrue (is_listed self.old)
            → (result ≡ Err failed) × (self.new ≡ disk_fault (add_call self.old (Len file None))) }
        ensures done { HasRoom self.old.tape 0 → IsFalse (is_listed self.old)
            → (result ≡ Ok (length (seen_after self.old.tape.first self.old.tape.calls file)))
            × (self.new ≡ add_call self.old
            (Len file
            (Some (length (seen_after self.old.tape.first self.old.tape.calls file))))) }
    {
        if !self.recorder.fits(0) {
            return Err(self.refuse());
        }
        if self.is_listed() {
            return Err(self.fail(Entry::Asked { file, len: None }, &[]));
        }
        let len = self.recorder.file(file).len() as u64;
        let entry = Entry::Asked {
            file,
            len: Some(len),
        };
        self.recorder.note(entry, &[]);
        Ok(len)
    }

    fn read_at(&mut self, file: u8, at: u64, into: &mut [u8]) -> Result<usize, Failed>
        requires { file < 4 }
        ensures past { (HasRoom self.old.tape (read_moves self.old file at (length into.old)) → ⊥)
            → (result ≡ Err failed) × (self.new ≡ disk_fault (stopped self.old)) }
        ensures listed { HasRoom self.old.tape (read_moves self.old file at (length into.old))
            → IsTrue (is_listed self.old)
            → (result ≡ Err failed) × (self.new ≡ disk_fault
            (add_call self.old (ReadAt file at (length into.new) None))) }
        ensures done { HasRoom self.old.tape (read_moves self.old file at (length into.old))
            → IsFalse (is_listed self.old)
            → (result ≡ Ok (read_len self.old.tape file at (length into.new)))
            × IsReadAt (seen_after self.old.tape.first self.old.tape.calls file) at
            (read_len self.old.tape file at (length into.new)) into.new
            × (self.new ≡ add_call self.old
            (ReadAt file at (length into.new)
            (Some (take (read_len self.old.tape file at (length into.new)) into.new)))) }
    {
        let listed = self.is_listed();
        let count = if listed {
            0
        } else {
            read_count(self.recorder.file(file).len(), at, into.len())
        };
        if !self.recorder.fits(count) {
            return Err(self.refuse());
        }
        if listed {
            let entry = Entry::Read {
                file,
                at,
                asked: into.len(),
                count: None,
            };
            return Err(self.fail(entry, &[]));
        }
        self.recorder.read(file, at, into, count);
        Ok(count)
    }

    fn write_at(&mut self, file: u8, at: u64, bytes: &[u8]) -> Result<(), Failed>
        requires file { file < 4 }
        requires start { at ≤ length (seen_after self.old.tape.first self.old.tape.calls file) }
        requires end { at + length bytes.now ≤ 2 ^ 62 }
        ensures past { (HasRoom self.old.tape (length bytes.now) → ⊥) → (result ≡ Err failed)
            × (self.new ≡ disk_fault (stopped self.old)) }
        ensures listed { HasRoom self.old.tape (length bytes.now) → IsTrue (is_listed self.old)
            → (result ≡ Err failed) × (self.new ≡ disk_fault
            (add_call self.old (WriteAt file at bytes.now false))) }
        ensures done { HasRoom self.old.tape (length bytes.now) → IsFalse (is_listed self.old)
            → (result ≡ Ok tt) × (self.new ≡ add_call self.old (WriteAt file at bytes.now true)) }
    {
        if !self.recorder.fits(bytes.len()) {
            return Err(self.refuse());
        }
        if self.is_listed() {
            let entry = Entry::Written {
                file,
                at,
                len: bytes.len(),
                done: false,
            };
            return Err(self.fail(entry, bytes));
        }
        self.recorder.write(file, at, bytes);
        Ok(())
    }

    fn cut(&mut self, file: u8, len: u64) -> Result<(), Failed>
        requires file { file < 4 }
        requires len { len ≤ length (seen_after self.old.tape.first self.old.tape.calls file) }
        ensures past { (HasRoom self.old.tape 0 → ⊥) → (result ≡ Err failed)
            × (self.new ≡ disk_fault (stopped self.old)) }
        ensures listed { HasRoom self.old.tape 0 → IsTrue (is_listed self.old)
            → (result ≡ Err failed) × (self.new ≡ disk_fault
            (add_call self.old (Cut file len false))) }
        ensures done { HasRoom self.old.tape 0 → IsFalse (is_listed self.old)
            → (result ≡ Ok tt) × (self.new ≡ add_call self.old (Cut file len true)) }
    {
        if !self.recorder.fits(0) {
            return Err(self.refuse());
        }
        if self.is_listed() {
            let entry = Entry::CutTo {
                file,
                len,
                done: false,
            };
            return Err(self.fail(entry, &[]));
        }
        self.recorder.cut(file, len);
        Ok(())
    }

    fn sync(&mut self, file: u8) -> Result<(), Failed>
        requires { file < 4 }
        ensures past { (HasRoom self.old.tape 0 → ⊥) → (result ≡ Err failed)
            × (self.new ≡ disk_fault (stopped self.old)) }
        ensures listed { HasRoom self.old.tape 0 → IsTrue (is_listed self.old)
            → (result ≡ Err failed) × (self.new ≡ disk_fault
            (add_call self.old (Sync file false))) }
        ensures done { HasRoom self.old.tape 0 → IsFalse (is_listed self.old)
            → (result ≡ Ok tt) × (self.new ≡ add_call self.old (Sync file true)) }
    {
        if !self.recorder.fits(0) {
            return Err(self.refuse());
        }
        if self.is_listed() {
            return Err(self.fail(Entry::Synced { file, done: false }, &[]));
        }
        self.recorder.note(Entry::Synced { file, done: true }, &[]);
        Ok(())
    }
}

impl Host for MemoryHost {
    ghost use Rattle.kh_io.specs.Memory.{is_listed, add_call, stopped, read_fault, write_fault, take_moves, take_len};

    fn take(&mut self, into: &mut [u8]) -> Result<usize, Failed>
        ensures past { (HasRoom self.old.tape (take_moves self.old (length into.old)) → ⊥)
            → (result ≡ Err failed) × (self.new ≡ read_fault (stopped self.old)) }
        ensures listed { HasRoom self.old.tape (take_moves self.old (length into.old))
            → IsTrue (is_listed self.old)
            → (result ≡ Err failed) × (self.new ≡ read_fault
            (add_call self.old (Take (length into.new) None))) }
        ensures done { HasRoom self.old.tape (take_moves self.old (length into.old))
            → IsFalse (is_listed self.old)
            → (result ≡ Ok (take_len self.old.tape (length into.new)))
            × (take (take_len self.old.tape (length into.new)) into.new ≡ take
            (take_len self.old.tape (length into.new))
            (left_after self.old.tape.input self.old.tape.calls))
            × (self.new ≡ add_call self.old
            (Take (length into.new) (Some (take
            (take_len self.old.tape (length into.new)) into.new)))) }
    {
        let listed = self.is_listed();
        let count = if listed {
            0
        } else {
            into.len().min(self.recorder.left())
        };
        if !self.recorder.fits(count) {
            self.tells = false;
            self.read_faults = self.read_faults.saturating_add(1);
            return Err(Failed);
        }
        if listed {
            return Err(self.fail_take(into.len()));
        }
        self.recorder.take(into, count);
        Ok(count)
    }

    fn give(&mut self, bytes: &[u8]) -> Result<usize, Failed>
        ensures past { (HasRoom self.old.tape (length bytes.now) → ⊥) → (result ≡ Err failed)
            × (self.new ≡ write_fault (stopped self.old)) }
        ensures listed { HasRoom self.old.tape (length bytes.now) → IsTrue (is_listed self.old)
            → (result ≡ Err failed) × (self.new ≡ write_fault
            (add_call self.old (Give bytes.now None))) }
        ensures done { HasRoom self.old.tape (length bytes.now) → IsFalse (is_listed self.old)
            → (result ≡ Ok (length bytes.now))
            × (self.new ≡ add_call self.old (Give bytes.now (Some (length bytes.now)))) }
    {
        if !self.recorder.fits(bytes.len()) {
            self.tells = false;
            self.write_faults = self.write_faults.saturating_add(1);
            return Err(Failed);
        }
        if self.is_listed() {
            let entry = Entry::Given {
                len: bytes.len(),
                count: None,
            };
            self.recorder.note(entry, bytes);
            self.write_faults = self.write_faults.saturating_add(1);
            return Err(Failed);
        }
        self.recorder.give(bytes);
        Ok(bytes.len())
    }
}
