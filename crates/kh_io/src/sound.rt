//! A host in memory without faults.
ghost use Rattle.std.specs.Prelude.{◌≡◌, ◌⊎◌, ◌<◌, ◌≤◌, ◌+◌, ◌^◌, true, false, length, take, Some, None, Ok, IfOk, IsTrue, IsFalse};
ghost use Rattle.kh_io.specs.Call.{Take, Give, Len, ReadAt, WriteAt, Cut, Sync};
ghost use Rattle.kh_io.specs.Disk.{IsReadAt, AreImages};
ghost use Rattle.kh_io.specs.Replay.{AreFilled};
ghost use Rattle.kh_io.specs.Memory.{blank, take_len, read_len};
ghost use Rattle.kh_io.specs.Recording.{left_after, given_in, seen_after, image_after, HasRoom};

use crate::journal::Entry;
use crate::recorder::{Recorder, read_count};
use crate::{Disk, Failed, Files, Host, NoMemory};
use std::alloc::Global;
use std::marker::Model;

/// A host in memory whose calls never fail.
///
/// It takes its memory when it is made, as a `MemoryHost` does. A call past the room keeps nothing: it reads 0 bytes,
/// a length of 0, or takes the whole piece. From then on each call is past the room, and nothing is told.
#[derive(Drop)]
pub struct SoundHost {
    recorder: Recorder,
    past: bool,
}

impl Model for SoundHost {
    ghost use Rattle.kh_io.specs.Sound.{Sound};

    ghost Value = { Sound };

    ghost view = { λ h. record { tape = h.recorder; past = h.past } };
}

impl SoundHost {
    /// A host with this input and these files.
    pub fn new(
        alloc: Global,
        input: Vec<u8>,
        files: Files,
        room: u64,
    ) -> Result<SoundHost, NoMemory>
        ensures { IfOk result (λ h. h ≡ record {
          tape = blank input.items files room;
          past = false;
        }) }
    {
        Ok(SoundHost {
            recorder: Recorder::new(alloc, input, files, room)?,
            past: false,
        })
    }

    /// What the sink has taken in the calls within the room.
    pub fn output(&self) -> &[u8]
        ensures { result.now ≡ given_in self.now.tape.calls }
    {
        self.recorder.output()
    }

    /// The number of calls made, without those past the room.
    pub fn calls(&self) -> u64
        ensures { result ≡ length self.now.tape.calls }
    {
        self.recorder.calls() as u64
    }

    /// The crash image after the first calls in which each file has the length that a read finds then, and each byte
    /// that isn't yet safe is as written, or this byte.
    pub fn image(&self, calls: u64, fill: Option<u8>) -> Result<Files, NoMemory>
        requires { calls ≤ length self.now.tape.calls }
        ensures filled { IfOk result (AreFilled self.now.tape.first
            (take calls self.now.tape.calls) fill) }
        ensures image { IfOk result (AreImages
            (image_after self.now.tape.first (take calls self.now.tape.calls))) }
    {
        self.recorder.image(calls as usize, fill)
    }
}

impl Disk for SoundHost {
    ghost use Rattle.kh_io.specs.Laws.{sound_seen_is_left, sound_untold, sound_stamp_is, sound_now_since, sound_since_now, now_of};
    ghost use Rattle.kh_io.specs.Sound.{sound_view, with_call, gone};

    ghost view = { sound_view };

    ghost seen_is_image = { λ h file bytes lt same. sound_seen_is_left h file bytes same };

    ghost untold_is_not_left = { λ h file bytes _ same image. sound_untold h file bytes same image };

    ghost stamp_counts = { λ h bytes same. sound_stamp_is h bytes same };

    ghost counts_now = { λ h t files le images. sound_now_since h t files le images };

    ghost only_now = { λ h files s left. now_of (sound_view h) files s (sound_since_now h files s left) };

    fn len(&mut self, file: u8) -> Result<u64, Failed>
        requires { file < 4 }
        ensures past { IsTrue self.old.past ⊎ (HasRoom self.old.tape 0 → ⊥) → (result ≡ Ok 0)
            × (self.new ≡ gone self.old) }
        ensures done { IsFalse self.old.past → HasRoom self.old.tape 0
            → (result ≡ Ok (length (seen_after self.old.tape.first self.old.tape.calls file)))
            × (self.new ≡ with_call self.old
            (Len file
            (Some (length (seen_after self.old.tape.first self.old.tape.calls file))))) }
    {
        if self.past || !self.recorder.fits(0) {
            self.past = true;
            return Ok(0);
        }
        let len = self.recorder.file(file).len() as u64;
        let entry = Entry::Asked {
            file,
            len: Some(len),
        };
        self.recorder.note(entry, &[]);
        Ok(len)
    }

    fn read_at(&mut self, file: u8, at: u64, into: &mut [u8]) -> Result<usize, Failed>
        requires { file < 4 }
        ensures past { IsTrue self.old.past
            ⊎ (HasRoom self.old.tape (read_len self.old.tape file at (length into.old)) → ⊥)
            → (result ≡ Ok 0) × (self.new ≡ gone self.old) }
        ensures done { IsFalse self.old.past
            → HasRoom self.old.tape (read_len self.old.tape file at (length into.old))
            → (result ≡ Ok (read_len self.old.tape file at (length into.new)))
            × IsReadAt (seen_after self.old.tape.first self.old.tape.calls file) at
            (read_len self.old.tape file at (length into.new)) into.new
            × (self.new ≡ with_call self.old
            (ReadAt file at (length into.new)
            (Some (take (read_len self.old.tape file at (length into.new)) into.new)))) }
    {
        let count = read_count(self.recorder.file(file).len(), at, into.len());
        if self.past || !self.recorder.fits(count) {
            self.past = true;
            return Ok(0);
        }
        self.recorder.read(file, at, into, count);
        Ok(count)
    }

    fn write_at(&mut self, file: u8, at: u64, bytes: &[u8]) -> Result<(), Failed>
        requires file { file < 4 }
        requires start { IsFalse self.old.past
            → at ≤ length (seen_after self.old.tape.first self.old.tape.calls file) }
        requires end { at + length bytes.now ≤ 2 ^ 62 }
        ensures past { IsTrue self.old.past ⊎ (HasRoom self.old.tape (length bytes.now) → ⊥)
            → (result ≡ Ok tt) × (self.new ≡ gone self.old) }
        ensures done { IsFalse self.old.past → HasRoom self.old.tape (length bytes.now)
            → (result ≡ Ok tt) × (self.new ≡ with_call self.old (WriteAt file at bytes.now true)) }
    {
        if self.past || !self.recorder.fits(bytes.len()) {
            self.past = true;
            return Ok(());
        }
        self.recorder.write(file, at, bytes);
        Ok(())
    }

    fn cut(&mut self, file: u8, len: u64) -> Result<(), Failed>
        requires file { file < 4 }
        requires len { IsFalse self.old.past
            → len ≤ length (seen_after self.old.tape.first self.old.tape.calls file) }
        ensures past { IsTrue self.old.past ⊎ (HasRoom self.old.tape 0 → ⊥) → (result ≡ Ok tt)
            × (self.new ≡ gone self.old) }
        ensures done { IsFalse self.old.past → HasRoom self.old.tape 0
            → (result ≡ Ok tt) × (self.new ≡ with_call self.old (Cut file len true)) }
    {
        if self.past || !self.recorder.fits(0) {
            self.past = true;
            return Ok(());
        }
        self.recorder.cut(file, len);
        Ok(())
    }

    fn sync(&mut self, file: u8) -> Result<(), Failed>
        requires { file < 4 }
        ensures past { IsTrue self.old.past ⊎ (HasRoom self.old.tape 0 → ⊥) → (result ≡ Ok tt)
            × (self.new ≡ gone self.old) }
        ensures done { IsFalse self.old.past → HasRoom self.old.tape 0
            → (result ≡ Ok tt) × (self.new ≡ with_call self.old (Sync file true)) }
    {
        if self.past || !self.recorder.fits(0) {
            self.past = true;
            return Ok(());
        }
        self.recorder.note(Entry::Synced { file, done: true }, &[]);
        Ok(())
    }
}

impl Host for SoundHost {
    ghost use Rattle.kh_io.specs.Sound.{with_call, gone};

    fn take(&mut self, into: &mut [u8]) -> Result<usize, Failed>
        ensures past { IsTrue self.old.past
            ⊎ (HasRoom self.old.tape (take_len self.old.tape (length into.old)) → ⊥)
            → (result ≡ Ok 0) × (self.new ≡ gone self.old) }
        ensures done { IsFalse self.old.past
            → HasRoom self.old.tape (take_len self.old.tape (length into.old))
            → (result ≡ Ok (take_len self.old.tape (length into.new)))
            × (take (take_len self.old.tape (length into.new)) into.new ≡ take
            (take_len self.old.tape (length into.new))
            (left_after self.old.tape.input self.old.tape.calls))
            × (self.new ≡ with_call self.old
            (Take (length into.new) (Some (take
            (take_len self.old.tape (length into.new)) into.new)))) }
    {
        let count = into.len().min(self.recorder.left());
        if self.past || !self.recorder.fits(count) {
            self.past = true;
            return Ok(0);
        }
        self.recorder.take(into, count);
        Ok(count)
    }

    fn give(&mut self, bytes: &[u8]) -> Result<usize, Failed>
        ensures past { IsTrue self.old.past ⊎ (HasRoom self.old.tape (length bytes.now) → ⊥)
            → (result ≡ Ok (length bytes.now)) × (self.new ≡ gone self.old) }
        ensures done { IsFalse self.old.past → HasRoom self.old.tape (length bytes.now)
            → (result ≡ Ok (length bytes.now))
            × (self.new ≡ with_call self.old (Give bytes.now (Some (length bytes.now)))) }
    {
        if self.past || !self.recorder.fits(bytes.len()) {
            self.past = true;
            return Ok(bytes.len());
        }
        self.recorder.give(bytes);
        Ok(bytes.len())
    }
}
