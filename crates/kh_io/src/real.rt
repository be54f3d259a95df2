//! The host of a process: its standard streams, and four files of the working folder.
ghost use Rattle.std.specs.Prelude.{◌≡◌, ◌<◌, ◌≤◌, length, None, Ok, IfOk, OnOk, OnErr};
ghost use Rattle.kh_io.specs.Told.{Rose};

use crate::{Disk, Failed, Fault, Host};
use std::fs::{self, OpenFile, OpenOptions};
use std::io::{self, ErrorKind, Read, Seek, SeekFrom, Write};
use std::marker::Model;
use std::rt::{Files, Runtime};

/// How often a call that a signal has interrupted is tried.
const TRIES: u32 = 1000;

/// The standard streams of a process, and the files `khepri.s0`, `khepri.l0`, `khepri.s1` and `khepri.l1` of the
/// working folder, which are opened or made at their first use. It tells nothing of what they hold.
#[derive(Drop)]
pub struct RealHost<R: Runtime> {
    rt: R,
    input: R::Reader,
    s0: Option<R::File>,
    l0: Option<R::File>,
    s1: Option<R::File>,
    l1: Option<R::File>,
    /// For each file, whether the folder was synced since the file was first opened. Only then is its name safe, whoever made it.
    named: [bool; 4],
    disk_faults: u64,
    read_faults: u64,
    write_faults: u64,
    /// Whether each call of the disk fails.
    is_shut: bool,
    /// What failed first.
    fault: Option<Fault>,
}

impl<R: Runtime> Model for RealHost<R> {
    ghost use Rattle.kh_io.specs.Told.{Faults};

    ghost Value = { Faults };

    ghost view = { λ h. record { disk = h.disk_faults; reads = h.read_faults; writes = h.write_faults } };
}

impl<R: Runtime> RealHost<R> {
    /// A host over the streams and the working folder of this runtime.
    pub fn new(rt: R) -> RealHost<R>
        ensures { result ≡ record { disk = 0; reads = 0; writes = 0 } }
    {
        let input = rt.reader();
        RealHost {
            rt,
            input,
            s0: None,
            l0: None,
            s1: None,
            l1: None,
            named: [false; 4],
            disk_faults: 0,
            read_faults: 0,
            write_faults: 0,
            is_shut: false,
            fault: None,
        }
    }

    /// From now on each call of the disk fails, for this reason, and touches nothing.
    pub fn shut(&mut self, reason: Fault)
        ensures { self.new ≡ self.old }
    {
        self.is_shut = true;
        self.note(reason);
    }

    /// What failed first, where something did.
    pub fn fault(&self) -> Option<Fault> {
        self.fault
    }

    // Keeps what failed, where nothing failed before.
    fn note(&mut self, fault: Fault)
        ensures { self.new ≡ self.old }
    {
        if self.fault.is_none() {
            self.fault = Some(fault);
        }
    }

    // Takes a file out of the host, opened.
    fn opened(&mut self, file: u8) -> io::Result<R::File>
        requires { file < 4 }
        ensures { self.new ≡ self.old }
    {
        if self.is_shut {
            return Err(io::Error::from(ErrorKind::ResourceBusy));
        }
        let kept = match file {
            0 => self.s0.take(),
            1 => self.l0.take(),
            2 => self.s1.take(),
            _ => self.l1.take(),
        };
        if let Some(opened) = kept {
            return Ok(opened);
        }
        open(&self.rt, name(file))
    }

    // Puts an opened file back.
    fn keep(&mut self, file: u8, opened: R::File)
        ensures { self.new ≡ self.old }
    {
        match file {
            0 => self.s0 = Some(opened),
            1 => self.l0 = Some(opened),
            2 => self.s1 = Some(opened),
            _ => self.l1 = Some(opened),
        }
    }

    // The answer of a call of the disk on a file, with a fault where it failed.
    fn answer<T>(
        &mut self,
        file: u8,
        call: &'static str,
        answer: io::Result<T>,
    ) -> Result<T, Failed>
        ensures ok { OnOk result (self.new ≡ self.old) }
        ensures err { OnErr result (Rose self.old.disk self.new.disk) }
        ensures stands { self.old.disk ≤ self.new.disk }
        ensures reads { self.new.reads ≡ self.old.reads }
        ensures writes { self.new.writes ≡ self.old.writes }
        ensures value { IfOk result (λ v. answer ≡ Ok v) }
    {
        match answer {
            Ok(value) => Ok(value),
            Err(error) => {
                self.note(Fault::of(name(file), call, error));
                self.disk_faults = self.disk_faults.saturating_add(1);
                Err(Failed)
            }
        }
    }

    fn file_len(&mut self, file: u8) -> io::Result<u64>
        requires { file < 4 }
        ensures { self.new ≡ self.old }
    {
        let opened = self.opened(file)?;
        let len = opened.metadata()?.len();
        self.keep(file, opened);
        Ok(len)
    }

    fn read_file(&mut self, file: u8, at: u64, into: &mut [u8]) -> io::Result<usize>
        requires { file < 4 }
        ensures host { self.new ≡ self.old }
        ensures within { IfOk result (λ n. n ≤ length into.new) }
    {
        let mut opened = self.opened(file)?;
        opened.seek(SeekFrom::Start(at))?;
        let count = fill(&mut opened, into)?;
        self.keep(file, opened);
        Ok(count)
    }

    fn write_file(&mut self, file: u8, at: u64, bytes: &[u8]) -> io::Result<()>
        requires { file < 4 }
        ensures { self.new ≡ self.old }
    {
        let mut opened = self.opened(file)?;
        opened.seek(SeekFrom::Start(at))?;
        opened.write_all(bytes)?;
        self.keep(file, opened);
        Ok(())
    }

    fn cut_file(&mut self, file: u8, len: u64) -> io::Result<()>
        requires { file < 4 }
        ensures { self.new ≡ self.old }
    {
        let opened = self.opened(file)?;
        opened.set_len(len)?;
        self.keep(file, opened);
        Ok(())
    }

    fn sync_file(&mut self, file: u8) -> io::Result<()>
        requires { file < 4 }
        ensures { self.new ≡ self.old }
    {
        let opened = self.opened(file)?;
        opened.sync_all()?;
        if !self.named[file as usize] {
            fs::open(&self.rt, ".")?.sync_all()?;
            self.named[file as usize] = true;
        }
        self.keep(file, opened);
        Ok(())
    }
}

// The name of a file.
fn name(file: u8) -> &'static str {
    match file {
        0 => "khepri.s0",
        1 => "khepri.l0",
        2 => "khepri.s1",
        _ => "khepri.l1",
    }
}

// Opens a file, and makes it where it isn't there.
fn open<R: Files>(rt: &R, name: &str) -> io::Result<R::File> {
    let mut options = OpenOptions::new();
    options.read(true).write(true).create(true);
    options.open(rt, name)
}

// Reads once, and again where a signal came between.
fn read_some<I: Read>(input: &mut I, into: &mut [u8]) -> io::Result<usize>
    ensures { IfOk result (λ n. n ≤ length into.new) }
{
    for _ in 0..TRIES {
        match input.read(into) {
            Err(e) if e.kind() == ErrorKind::Interrupted => {}
            answer => return answer,
        }
    }
    Err(io::Error::from(ErrorKind::Interrupted))
}

// Reads until the buffer is full or the input ends.
fn fill<I: Read>(input: &mut I, into: &mut [u8]) -> io::Result<usize>
    ensures { IfOk result (λ n. n ≤ length into.new) }
{
    let mut count = 0;
    while count < into.len() {
        let n = read_some(input, &mut into[count..])?;
        if n == 0 {
            break;
        }
        count += n;
    }
    Ok(count)
}

// Writes once, and again where a signal came between.
fn write_some<W: Write>(output: &mut W, bytes: &[u8]) -> io::Result<usize>
    ensures { IfOk result (λ n. n ≤ length bytes.now) }
{
    for _ in 0..TRIES {
        match output.write(bytes) {
            Err(e) if e.kind() == ErrorKind::Interrupted => {}
            answer => return answer,
        }
    }
    Err(io::Error::from(ErrorKind::Interrupted))
}

impl<R: Runtime> Disk for RealHost<R> {
    ghost use Rattle.kh_io.specs.Laws.{untold_is_left, untold_images};
    ghost use Rattle.kh_io.specs.View.{untold};

    ghost view = { untold };

    ghost seen_is_image = { λ _ _ bytes _ same. untold_is_left bytes same };

    ghost untold_is_not_left = { λ _ _ _ _ _ none. none };

    ghost stamp_counts = { λ _ bytes same. untold_is_left bytes same };

    ghost counts_now = { λ _ _ files _ images. untold_images files images };

    ghost only_now = { λ _ _ _ none. absurd none };

    fn len(&mut self, file: u8) -> Result<u64, Failed> {
        let answer = self.file_len(file);
        self.answer(file, "length", answer)
    }

    fn read_at(&mut self, file: u8, at: u64, into: &mut [u8]) -> Result<usize, Failed> {
        let answer = self.read_file(file, at, into);
        self.answer(file, "read", answer)
    }

    fn write_at(&mut self, file: u8, at: u64, bytes: &[u8]) -> Result<(), Failed> {
        let answer = self.write_file(file, at, bytes);
        self.answer(file, "write", answer)
    }

    fn cut(&mut self, file: u8, len: u64) -> Result<(), Failed> {
        let answer = self.cut_file(file, len);
        self.answer(file, "cut", answer)
    }

    fn sync(&mut self, file: u8) -> Result<(), Failed> {
        let answer = self.sync_file(file);
        self.answer(file, "sync", answer)
    }
}

impl<R: Runtime> Host for RealHost<R> {
    fn take(&mut self, into: &mut [u8]) -> Result<usize, Failed> {
        match read_some(&mut self.input, into) {
            Ok(n) => Ok(n),
            Err(error) => {
                self.note(Fault::of("standard input", "read", error));
                self.read_faults = self.read_faults.saturating_add(1);
                Err(Failed)
            }
        }
    }

    // The writer of a runtime keeps nothing back, so what it took has reached the stream.
    fn give(&mut self, bytes: &[u8]) -> Result<usize, Failed> {
        let taken = write_some(&mut io::writer(&self.rt), bytes);
        let error = match taken {
            Ok(n) if n > 0 || bytes.is_empty() => return Ok(n),
            Ok(_) => io::Error::from(ErrorKind::WriteZero),
            Err(error) => error,
        };
        self.note(Fault::of("standard output", "write", error));
        self.write_faults = self.write_faults.saturating_add(1);
        Err(Failed)
    }
}
