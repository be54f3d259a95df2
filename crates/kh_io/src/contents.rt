//! The bytes of the four files of a host in memory, with memory for more.
ghost use Rattle.std.specs.Prelude.{◌≡◌, ◌+◌, ◌-◌, ◌<◌, ◌≤◌, ◌++◌, length, take, drop, vec_len, vec_capacity, IfOk};
ghost use Rattle.kh_io.specs.Disk.{file_of, put};
ghost use Rattle.kh_io.specs.Contents.{Held, with_file};

use crate::{Files, NoMemory, room};
use std::alloc::Global;
use std::marker::Model;

/// The files as a read finds them.
#[derive(Drop)]
pub struct Contents {
    s0: Vec<u8>,
    l0: Vec<u8>,
    s1: Vec<u8>,
    l1: Vec<u8>,
    free: u64,
}

impl Model for Contents {
    ghost use Rattle.std.specs.Prelude.{◌≤◌, ◌+◌, vec_len, vec_capacity};
    ghost use Rattle.kh_io.specs.Contents.{Held};

    ghost Value = { Held };

    ghost view = { λ c. record { files = record { s0 = c.s0.items; l0 = c.l0.items; s1 = c.s1.items; l1 = c.l1.items }; free = c.free } };

    ghost invariant = { λ c. (vec_len c.s0 + c.free ≤ vec_capacity c.s0)
        × (vec_len c.l0 + c.free ≤ vec_capacity c.l0)
        × (vec_len c.s1 + c.free ≤ vec_capacity c.s1)
        × (vec_len c.l1 + c.free ≤ vec_capacity c.l1) };
}

// A copy, with memory for this many bytes more.
fn copied(alloc: Global, bytes: &[u8], free: usize) -> Result<Vec<u8>, NoMemory>
    ensures items { IfOk result (λ v. v.items ≡ bytes.now) }
    ensures free { IfOk result (λ v. vec_len v + free ≤ vec_capacity v) }
{
    let mut all = Vec::new(alloc);
    let len = bytes.len().checked_add(free).ok_or(NoMemory)?;
    all.reserve(len)?;
    room::append(&mut all, bytes);
    Ok(all)
}

/// Puts bytes in the place of those that stand there, and past the end.
pub fn put(into: &mut Vec<u8>, at: usize, bytes: &[u8])
    requires place { at ≤ vec_len into.old }
    requires room { vec_len into.old + length bytes.now ≤ vec_capacity into.old }
    ensures items { into.new.items ≡ put into.old.items at bytes.now }
    ensures len { vec_len into.new ≤ vec_len into.old + length bytes.now }
    ensures capacity { vec_capacity into.old ≤ vec_capacity into.new }
{
    let over = bytes.len().min(into.len() - at);
    into[at..at + over].copy_from_slice(&bytes[..over]);
    room::append(into, &bytes[over..]);
}

impl Contents {
    /// A copy of these files, with memory for this many bytes more in each.
    pub fn new(alloc: Global, files: &Files, free: u64) -> Result<Contents, NoMemory>
        ensures { IfOk result (λ c. c ≡ record { files = files.now; free = free }) }
    {
        Ok(Contents {
            s0: copied(alloc, files.s0.as_slice(), free as usize)?,
            l0: copied(alloc, files.l0.as_slice(), free as usize)?,
            s1: copied(alloc, files.s1.as_slice(), free as usize)?,
            l1: copied(alloc, files.l1.as_slice(), free as usize)?,
            free,
        })
    }

    /// The bytes of a file.
    pub fn get(&self, file: u8) -> &[u8]
        requires { file < 4 }
        ensures { result.now ≡ file_of self.now.files file }
    {
        match file {
            0 => &self.s0,
            1 => &self.l0,
            2 => &self.s1,
            _ => &self.l1,
        }
    }

    /// Puts bytes into a file.
    pub fn put(&mut self, file: u8, at: usize, bytes: &[u8])
        requires file { file < 4 }
        requires place { at ≤ length (file_of self.old.files file) }
        requires room { length bytes.now ≤ self.old.free }
        ensures { self.new ≡ record {
          files = with_file self.old.files file (put (file_of self.old.files file) at bytes.now);
          free = self.old.free - length bytes.now;
        } }
    {
        self.free -= bytes.len() as u64;
        match file {
            0 => put(&mut self.s0, at, bytes),
            1 => put(&mut self.l0, at, bytes),
            2 => put(&mut self.s1, at, bytes),
            _ => put(&mut self.l1, at, bytes),
        }
    }

    /// Cuts a file to a length.
    pub fn cut(&mut self, file: u8, len: usize)
        requires { file < 4 }
        ensures { self.new ≡ record {
          files = with_file self.old.files file (take len (file_of self.old.files file));
          free = self.old.free;
        } }
    {
        match file {
            0 => self.s0.truncate(len),
            1 => self.l0.truncate(len),
            2 => self.s1.truncate(len),
            _ => self.l1.truncate(len),
        }
    }
}
