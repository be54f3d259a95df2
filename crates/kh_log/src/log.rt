//! The log.
ghost use Rattle.std.specs.Prelude.{◌≡◌, ◌≤◌, ◌<◌, ◌+◌, ◌^◌, ◌++◌, ℕ, List, [], length, slice_get, Some, IfSome, IfNone, IfOk, OnOk, OnErr, IsErr, IsErrOf};
ghost use Rattle.kh_io.specs.Frames.{FileTold, Asks, Leaves, WritesFile, DiskCause};
ghost use Rattle.kh_log.specs.Records.{records_of, lacking_in, log_of, IsClosedAt};
ghost use Rattle.kh_log.specs.Log.{Place, Holds, EndsAt, MayGain, HasNext, MayRead, IsReady, IsSettled, AtEnd, moved, passed, begun_at, with_records};

use crate::durable::open_behind;
use crate::gates::{bytes_at, count_records, length_behind};
use crate::{LogError, Record};
use kh_io::{Failed, Host};
use std::alloc::Global;
use std::marker::Model;

/// A log in a file: a gate, and while it is open a record and the next gate.
#[derive(Debug, Drop)]
pub struct Log {
    file: u8,
    records: u64,
    read: u64,
    next: u64,
    last: u64,
}

impl Model for Log {
    ghost use Rattle.std.specs.Prelude.{◌<◌, ◌≤◌, ◌*◌, ◌^◌, ◌-◌};
    ghost use Rattle.kh_log.specs.Log.{Place};

    ghost Value = { Place };

    ghost view = { λ l. record { file = l.file; records = l.records; read = l.read; next = l.next; last = l.last } };

    ghost invariant = { λ l. (l.file < 4) × (l.read ≤ l.records) × (5 * l.records ≤ l.last) × (l.next ≤ l.last) × (l.last < 2 ^ 64 - 1) };
}

impl Log {
    /// The log of a file that holds `00` alone, or from place 0 on an open gate and then these records, which count as read.
    pub fn begun(file: u8, group: Option<&Record>) -> Log
        requires { file < 4 }
        ensures none { IfNone group.entry (result ≡ begun_at file []) }
        ensures none_holds { IfNone group.entry (Holds result (log_of [])) }
        ensures none_closed { IfNone group.entry (IsClosedAt result.last (log_of [])) }
        ensures group { IfSome group.entry (λ g. result ≡ begun_at file g.now) }
        ensures group_holds { IfSome group.entry (λ g. Holds result (log_of g.now)) }
        ensures group_closed { IfSome group.entry (λ g. IsClosedAt result.last (log_of g.now)) }
    {
        match group {
            None => Log {
                file,
                records: 0,
                read: 0,
                next: 0,
                last: 0,
            },
            Some(r) => Log::of_group(file, r),
        }
    }

    // The log of a file that holds these records alone.
    fn of_group(file: u8, r: &Record) -> Log
        requires { file < 4 }
        ensures is { result ≡ begun_at file r.now }
        ensures holds { Holds result (log_of r.now) }
        ensures closed { IsClosedAt result.last (log_of r.now) }
    {
        let last = r.bytes.len() as u64;
        Log {
            file,
            records: r.count,
            read: r.count,
            next: last,
            last,
        }
    }

    /// The log in a file, none of whose records is read. It follows the gates to the last record.
    pub fn open<H: Host>(host: &mut H, file: u8) -> Result<Log, LogError>
        requires { file < 4 }
        ensures file { IfOk result (λ log. log.file ≡ file) }
        ensures none_read { IfOk result (λ log. log.read ≡ 0) }
        ensures found { IfOk result (λ log. FileTold file (H.view host.old) (H.view host.new)
            (λ was _. Holds log was)) }
        ensures closed { IfOk result (λ log. FileTold file (H.view host.old) (H.view host.new)
            (λ was _. 2 ≤ length was → IsClosedAt log.last was)) }
        ensures lacking { (o : ℕ) → IsErrOf result (LogError.NotALog o)
            → FileTold file (H.view host.old) (H.view host.new) (λ was _. lacking_in was ≡ Some o) }
        ensures enough_memory { IsErrOf result LogError.NoMemory → ⊥ }
        ensures asks { Asks (H.view host.old) (H.view host.new) }
        ensures cause { DiskCause (IsErrOf result LogError.DiskFault) (H.view host.old)
            (H.view host.new) }
    {
        let (records, last) = count_records(host, file)?;
        Ok(Log {
            file,
            records,
            read: 0,
            next: 0,
            last,
        })
    }

    /// How many records the log has, read or not.
    pub fn records(&self) -> u64
        ensures { result ≡ self.now.records }
    {
        self.records
    }

    /// The file that it stands in.
    pub fn file(&self) -> u8
        ensures is { result ≡ self.now.file }
        ensures below { result < 4 }
    {
        self.file
    }

    /// The place of the last gate.
    pub fn end(&self) -> u64
        ensures { result ≡ self.now.last }
    {
        self.last
    }

    /// The length of the next record, before its bytes are read; None once all records are read.
    pub fn next_length<H: Host>(&self, host: &mut H) -> Result<Option<u64>, LogError>
        requires found { IfSome ((H.view host.old).seen self.now.file) (Holds self.now) }
        ensures next { IfOk result (λ r. IfSome r
            (λ n. IfSome ((H.view host.new).seen self.now.file) (HasNext self.now n))) }
        ensures some { IfOk result (λ r. IfSome r (MayRead self.now)) }
        ensures holds { IfSome ((H.view host.new).seen self.now.file) (Holds self.now) }
        ensures ended { IfOk result (λ r. IfNone r (self.now.read ≡ self.now.records)) }
        // What `open` found lacks nothing.
        ensures lacking { (o : ℕ) → IsErrOf result (LogError.NotALog o)
            → FileTold self.now.file (H.view host.old) (H.view host.new) (λ _ _. ⊥) }
        ensures enough_memory { IsErrOf result LogError.NoMemory → ⊥ }
        ensures asks { Asks (H.view host.old) (H.view host.new) }
        ensures cause { DiskCause (IsErrOf result LogError.DiskFault) (H.view host.old)
            (H.view host.new) }
    {
        if self.read == self.records {
            return Ok(None);
        }
        let length = length_behind(host, self.file, self.next, self.last)?;
        Ok(Some(length))
    }

    /// The bytes of the next record; None once all are read.
    pub fn read<H: Host>(
        &mut self,
        alloc: Global,
        host: &mut H,
    ) -> Result<Option<Vec<u8>>, LogError>
        requires found { IfSome ((H.view host.old).seen self.old.file) (Holds self.old) }
        ensures next { IfOk result (λ r. IfSome r
            (λ bytes. FileTold self.old.file (H.view host.old) (H.view host.new)
            (λ was _. slice_get (records_of was) self.old.read ≡ Some bytes.items))) }
        ensures some { IfOk result (λ r. IfSome r (λ _. self.old.read < self.old.records)) }
        ensures passed { IfOk result (λ r. IfSome r
            (λ bytes. self.new ≡ passed self.old bytes.items)) }
        ensures ended { IfOk result (λ r. IfNone r (AtEnd self.old self.new)) }
        ensures failed { OnErr result (self.new ≡ self.old) }
        ensures holds { IfSome ((H.view host.new).seen self.old.file) (Holds self.new) }
        // What `open` found lacks nothing.
        ensures lacking { (o : ℕ) → IsErrOf result (LogError.NotALog o)
            → FileTold self.old.file (H.view host.old) (H.view host.new) (λ _ _. ⊥) }
        ensures asks { Asks (H.view host.old) (H.view host.new) }
        ensures cause { DiskCause (IsErrOf result LogError.DiskFault) (H.view host.old)
            (H.view host.new) }
    {
        let _file = self.file;
        match self.next_length(host)? {
            None => Ok(None),
            Some(length) => {
                let bytes = self.read_record(alloc, host, length)?;
                Ok(Some(bytes))
            }
        }
    }

    /// The bytes of the next record, whose length `next_length` told.
    pub fn read_record<H: Host>(
        &mut self,
        alloc: Global,
        host: &mut H,
        length: u64,
    ) -> Result<Vec<u8>, LogError>
        requires found { IfSome ((H.view host.old).seen self.old.file) (Holds self.old) }
        requires some { MayRead self.old length }
        requires length { IfSome ((H.view host.old).seen self.old.file) (HasNext self.old length) }
        ensures next { IfOk result (λ bytes. FileTold self.old.file (H.view host.old)
            (H.view host.new)
            (λ was _. slice_get (records_of was) self.old.read ≡ Some bytes.items)) }
        ensures passed { IfOk result (λ bytes. self.new ≡ passed self.old bytes.items) }
        ensures failed { OnErr result (self.new ≡ self.old) }
        ensures holds { IfSome ((H.view host.new).seen self.old.file) (Holds self.new) }
        // What `open` found lacks nothing.
        ensures lacking { (o : ℕ) → IsErrOf result (LogError.NotALog o)
            → FileTold self.old.file (H.view host.old) (H.view host.new) (λ _ _. ⊥) }
        ensures asks { Asks (H.view host.old) (H.view host.new) }
        ensures cause { DiskCause (IsErrOf result LogError.DiskFault) (H.view host.old)
            (H.view host.new) }
    {
        let bytes = bytes_at(alloc, host, self.file, self.next, length as usize)?;
        self.next += 5 + length;
        self.read += 1;
        Ok(bytes)
    }

    /// Adds records behind the last. At `Ok` each crash from then on leaves them; at `DiskFault` the log may no longer be used.
    pub fn append<H: Host>(&mut self, host: &mut H, r: &Record) -> Result<(), Failed>
        requires ready { IsReady self.old (H.view host.old) }
        requires room { self.old.last + length (log_of r.now) ≤ 2 ^ 62 }
        ensures appended { OnOk result (FileTold self.old.file (H.view host.old) (H.view host.new)
            (λ was now. EndsAt self.new.last (records_of was ++ r.now) now)) }
        ensures written { OnOk result (FileTold self.old.file (H.view host.old) (H.view host.new)
            (λ was now. now ≡ with_records self.old.last r.now was)) }
        ensures settled { OnOk result (IsSettled self.old.file self.new (H.view host.new)) }
        ensures moved { OnOk result (self.new ≡ moved self.old r.now) }
        ensures failed { OnErr result (self.new ≡ self.old) }
        ensures images { (bytes : List ℕ) → (H.view host.new).image self.old.file bytes
            → MayGain ((H.view host.old).image self.old.file) self.old.last r.now bytes }
        // A crash at any moment of the call leaves the records from before it, with the new ones or without.
        ensures writes { WritesFile self.old.file
            (Leaves self.old.file (MayGain ((H.view host.old).image self.old.file)
            self.old.last r.now) (H.view host.old)) (H.view host.old) (H.view host.new) }
        ensures cause { DiskCause (IsErr result) (H.view host.old) (H.view host.new) }
    {
        open_behind(host, self.file, self.last, &r.bytes)?;
        self.last += r.bytes.len() as u64;
        self.next = self.last;
        self.records += r.count;
        self.read = self.records;
        Ok(())
    }
}
