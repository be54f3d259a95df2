//! The records of a log are applied, one after another.
ghost use Rattle.std.specs.Prelude.{◌≡◌, ◌≤◌, ◌+◌, ℕ, nat_le, length, slice_get, Some, IfSome, IfNone, IfOk, OnOk, OnErr, Err};
ghost use Rattle.kh_io.specs.Frames.{FileTold, Asks, DiskCause};
ghost use Rattle.kh_log.specs.Records.{records_of};
ghost use Rattle.kh_log.specs.Log.{Holds, AtEnd};
ghost use Rattle.kh_store.specs.declared.store.OpenError.TheVariants as open_error;
ghost use Rattle.kh_store.specs.State.{empty, log_limit};
ghost use Rattle.kh_store.specs.Recovery.{Recovered, Damaged, IsNoRecord, Replays};
ghost use Rattle.kh_store.specs.Opening.{IsRecord, Passes, IsTooLong, IsUnread};

use crate::command::read_put;
use crate::store::OpenError;
use crate::tree::Tree;
use kh_io::Host;
use kh_log::Log;
use kh_read::Form;
use kh_term::NoMemory;
use std::alloc::Global;

/// The greatest length of a log, in bytes.
const LOG_LIMIT: u64 = 134_217_728;

/// The greatest length of a command as it is logged, in bytes.
const COMMAND_LIMIT: u64 = 2_097_152;

/// Whether a log has room for a record of so many bytes behind its last gate: for a length, the bytes and a gate.
pub fn has_room(span: u64, length: usize) -> bool
    ensures { result ≡ nat_le (span + 6 + length) log_limit }
{
    let length = length as u64;
    span <= LOG_LIMIT && length <= LOG_LIMIT && span + 6 + length <= LOG_LIMIT
}

// The tree with a record applied that stands behind so many bytes of the log. None where the store wouldn't have logged it.
fn apply_record(
    alloc: Global,
    tree: &Tree,
    span: u64,
    bytes: &[u8],
) -> Result<Option<Tree>, NoMemory>
    ensures applied { IfOk result (λ next. IfSome next
        (λ new. IsRecord bytes.now (record { nodes = tree.now; span = span })
        (record { nodes = new; span = span + 5 + length bytes.now }))) }
    ensures refused { IfOk result (λ next. IfNone next
        (IsNoRecord bytes.now (record { nodes = tree.now; span = span }))) }
{
    let Some((path, number)) = read_put(alloc, bytes)? else {
        return Ok(None);
    };
    if !has_room(span, bytes.len()) {
        return Ok(None);
    }
    let applied = tree.apply(alloc, Form::Put(path, number))?;
    Ok(applied.tree)
}

// The bytes of the next record, behind so many bytes of the log; None once all are read. One that is longer than any command isn't
// read: it is damage.
fn next_record<H: Host>(
    alloc: Global,
    host: &mut H,
    log: &mut Log,
    span: u64,
) -> Result<Option<Vec<u8>>, OpenError>
    requires found { IfSome ((H.view host.old).seen log.old.file) (Holds log.old) }
    requires span { span ≤ log_limit }
    ensures next { IfOk result (λ r. IfSome r
        (λ bytes. FileTold log.old.file (H.view host.old) (H.view host.new)
        (λ was _. slice_get (records_of was) log.old.read ≡ Some bytes.items))) }
    ensures passed { IfOk result (λ r. IfSome r (λ bytes. Passes log.old log.new bytes.items)) }
    ensures ended { IfOk result (λ r. IfNone r (AtEnd log.old log.new)) }
    ensures failed { OnErr result (log.new ≡ log.old) }
    ensures damaged { (file offset : ℕ) → result ≡ Err (open_error.Damaged file offset)
        → FileTold log.old.file (H.view host.old) (H.view host.new)
        (λ was _. (file ≡ log.old.file) × (offset ≡ span + 1)
        × IsTooLong (records_of was) log.old.read) }
    ensures holds { IfSome ((H.view host.new).seen log.old.file) (Holds log.new) }
    ensures asks { Asks (H.view host.old) (H.view host.new) }
    ensures cause { DiskCause (result ≡ Err open_error.DiskFault) (H.view host.old)
        (H.view host.new) }
{
    let file = log.file();
    let Some(length) = log.next_length(host)? else {
        return Ok(None);
    };
    if length > COMMAND_LIMIT {
        return Err(OpenError::Damaged {
            file,
            offset: span + 1,
        });
    }
    let bytes = log.read_record(alloc, host, length)?;
    Ok(Some(bytes))
}

/// Applies the records of a log in order, from the root alone. Answers `Damaged` at the first that the store wouldn't have logged.
pub fn replay<H: Host>(alloc: Global, host: &mut H, log: &mut Log) -> Result<Tree, OpenError>
    requires { IsUnread log.old (H.view host.old) }
    ensures recovered { IfOk result (λ tree. FileTold 1 (H.view host.old) (H.view host.new)
        (λ was _. Replays empty (records_of was)
        (Recovered (record { nodes = tree; span = log.new.last })))) }
    ensures damaged { (file offset : ℕ) → result ≡ Err (open_error.Damaged file offset)
        → FileTold 1 (H.view host.old) (H.view host.new)
        (λ was _. Replays empty (records_of was) (Damaged file offset)) }
    ensures all_read { OnOk result (log.new.read ≡ log.new.records) }
    ensures file { log.new.file ≡ log.old.file }
    ensures last { log.new.last ≡ log.old.last }
    ensures holds { IfSome ((H.view host.new).seen 1) (Holds log.new) }
    ensures asks { Asks (H.view host.old) (H.view host.new) }
    ensures cause { DiskCause (result ≡ Err open_error.DiskFault) (H.view host.old)
        (H.view host.new) }
{
    let mut tree = Tree::new(alloc)?;
    let mut span = 0;
    'records: while let Some(bytes) = next_record(alloc, host, log, span)? {
        let Some(next) = apply_record(alloc, &tree, span, &bytes)? else {
            return Err(OpenError::Damaged {
                file: 1,
                offset: span + 1,
            });
        };
        tree = next;
        span += 5 + bytes.len() as u64;
    }
    Ok(tree)
}
