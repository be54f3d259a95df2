//! The store: the tree, and the log that keeps it over a crash.
ghost use Rattle.std.specs.Prelude.{◌≡◌, ◌≢◌, ◌↔◌, ◌⊎◌, ◌<◌, ◌++◌, ℕ, IsTrue, IfOk, OnOk, Err, true, false};
ghost use Rattle.kh_io.specs.Told.{Kept};
ghost use Rattle.kh_io.specs.Frames.{FileTold, FilesTold, AreSafe, During, StreamsStay, WritesFile, DiskCause};
ghost use Rattle.kh_log.specs.Records.{records_of};
ghost use Rattle.kh_read.specs.declared.form.Form.{Form};
ghost use Rattle.kh_read.specs.declared.form.Form.TheVariants as form;
ghost use Rattle.kh_store.specs.declared.store.OpenError.TheVariants as open_error;
ghost use Rattle.kh_store.specs.declared.store.StoreError.TheVariants as store_error;
ghost use Rattle.kh_store.specs.Opening.{opening_error};
ghost use Rattle.kh_store.specs.Command.{is_command, is_atom_path};
ghost use Rattle.kh_store.specs.State.{records_logged};
ghost use Rattle.kh_store.specs.Recovery.{Recovered, Damaged, Recovers};
ghost use Rattle.kh_store.specs.Store.{state_of, Stands, StaysOrShort, Begun, Opening, Executing, Executes, LeavesInDoubt};

use crate::command::pack_put;
use crate::machine::{Applied, store_full};
use crate::opening::{begin_log, sync_all};
use crate::replay::{has_room, replay};
use crate::tree::Tree;
use kh_io::{Failed, Host};
use kh_log::{Log, LogError, prepare};
use kh_read::Form;
use kh_term::{NoMemory, Path, Term};
use std::alloc::Global;
use std::marker::Model;
use thiserror::Error;

/// Why no store was opened.
#[derive(Clone, Copy, Debug, PartialEq, Eq, Drop, Error)]
pub enum OpenError {
    /// The first damage, by its file and its offset.
    #[error("file {file} is damaged at offset {offset}")]
    Damaged { file: u8, offset: u64 },
    #[error("the disk has failed")]
    DiskFault,
    #[error("out of memory")]
    NoMemory,
}

impl From<Failed> for OpenError {
    ghost from_gives = { λ _ e. e ≡ open_error.DiskFault };

    fn from(_: Failed) -> Self {
        OpenError::DiskFault
    }
}

impl From<NoMemory> for OpenError {
    ghost from_gives = { λ _ e. e ≡ open_error.NoMemory };

    fn from(_: NoMemory) -> Self {
        OpenError::NoMemory
    }
}

impl From<LogError> for OpenError {
    ghost from_gives = { λ from e. e ≡ opening_error from };

    fn from(error: LogError) -> Self {
        match error {
            LogError::DiskFault => OpenError::DiskFault,
            LogError::NotALog(offset) => OpenError::Damaged { file: 1, offset },
            LogError::NoMemory => OpenError::NoMemory,
        }
    }
}

/// Why a command wasn't executed.
#[derive(Clone, Copy, Debug, PartialEq, Eq, Drop, Error)]
pub enum StoreError {
    /// The disk has failed in this call. The command is in doubt until the store is opened anew.
    #[error("the disk has failed")]
    DiskFault,
    /// The disk has failed in an earlier call of this store.
    #[error("the disk has failed before")]
    Failed,
    #[error("out of memory")]
    NoMemory,
}

impl From<NoMemory> for StoreError {
    ghost from_gives = { λ _ e. e ≡ store_error.NoMemory };

    fn from(_: NoMemory) -> Self {
        StoreError::NoMemory
    }
}

impl From<kh_io::NoMemory> for StoreError {
    ghost from_gives = { λ _ e. e ≡ store_error.NoMemory };

    fn from(_: kh_io::NoMemory) -> Self {
        StoreError::NoMemory
    }
}

/// A store that is open. Its log is file 1.
#[derive(Drop)]
pub struct Store {
    alloc: Global,
    tree: Tree,
    log: Log,
    failed: bool,
}

impl Model for Store {
    ghost use Rattle.std.specs.Prelude.{◌≡◌};
    ghost use Rattle.kh_store.specs.Store.{Opened};

    ghost Value = { Opened };

    ghost view = { λ s. record { nodes = s.tree; place = s.log; failed = s.failed } };

    ghost invariant = { λ s. (s.log.file ≡ 1) × (s.log.read ≡ s.log.records) };
}

impl Store {
    /// Opens the store that is in the files of a host. Answers `Damaged` where they recover to no state.
    pub fn open<H: Host>(alloc: Global, host: &mut H) -> Result<Store, OpenError>
        ensures recovered { IfOk result
            (λ store. FilesTold (H.view host.old) (H.view host.new)
            (λ files. Recovers files (Recovered (state_of store)))) }
        ensures damaged { (file offset : ℕ) → result ≡ Err (open_error.Damaged file offset)
            → FilesTold (H.view host.old) (H.view host.new)
            (λ files. Recovers files (Damaged file offset)) }
        ensures stands { IfOk result (λ store. Stands store (H.view host.new)) }
        ensures safe { result ≢ Err open_error.DiskFault → AreSafe (H.view host.new) }
        ensures begun { result ≢ Err open_error.DiskFault
            → FileTold 1 (H.view host.old) (H.view host.new) Begun }
        ensures reads { FileTold 1 (H.view host.old) (H.view host.new) StaysOrShort }
        ensures others { (file : ℕ) → file < 4 → file ≢ 1
            → Kept ((H.view host.old).seen file) ((H.view host.new).seen file) }
        ensures during { During (Opening (H.view host.old)) (H.view host.old) (H.view host.new) }
        ensures streams { StreamsStay (H.view host.old) (H.view host.new) }
        ensures cause { DiskCause (result ≡ Err open_error.DiskFault) (H.view host.old)
            (H.view host.new) }
    {
        sync_all(host)?;
        begin_log(host)?;
        let mut log = Log::open(host, 1)?;
        let tree = replay(alloc, host, &mut log)?;
        Ok(Store {
            alloc,
            tree,
            log,
            failed: false,
        })
    }

    /// Executes a command, and gives its reply once it is safe in the log. After `DiskFault` the store's state is as it was, and each
    /// later call answers `Failed`.
    pub fn execute<H: Host>(&mut self, host: &mut H, form: Form) -> Result<Term, StoreError>
        requires stands { self.old.failed ≡ false → Stands self.old (H.view host.old) }
        requires command { IsTrue (is_command form) }
        ensures executed { IfOk result (λ reply. Executes form (state_of self.old)
            (state_of self.new) reply.node) }
        ensures stands { OnOk result (Stands self.new (H.view host.new)) }
        // The log gains the record of a command that is logged.
        ensures added { OnOk result (FileTold 1 (H.view host.old) (H.view host.new)
            (λ was now. records_of now ≡ records_of was ++ records_logged form
            (state_of self.old))) }
        ensures failed { (result ≡ Err store_error.Failed) ↔ (self.old.failed ≡ true) }
        ensures refused { (result ≡ Err store_error.NoMemory) ⊎ (result ≡ Err store_error.Failed)
            → (self.new ≡ self.old) × (host.new ≡ host.old) }
        ensures in_doubt { result ≡ Err store_error.DiskFault
            → LeavesInDoubt form self.old self.new }
        ensures writes { self.old.failed ≡ false → WritesFile 1
            (Executing form (state_of self.old) (H.view host.old).stamp)
            (H.view host.old) (H.view host.new) }
        ensures cause { DiskCause (result ≡ Err store_error.DiskFault) (H.view host.old)
            (H.view host.new) }
    {
        if self.failed {
            return Err(StoreError::Failed);
        }
        match form {
            Form::Get(path) => Ok(self.tree.apply(self.alloc, Form::Get(path))?.reply),
            Form::Put(path, number) => self.execute_put(host, path, number),
        }
    }

    // Executes a put. All memory is taken before the first write.
    fn execute_put<H: Host>(
        &mut self,
        host: &mut H,
        path: Path,
        number: i128,
    ) -> Result<Term, StoreError>
        requires stands { Stands self.old (H.view host.old) }
        requires command { IsTrue (is_atom_path path) }
        ensures executed { IfOk result (λ reply. Executes (form.Put path number)
            (state_of self.old) (state_of self.new) reply.node) }
        ensures stands { OnOk result (Stands self.new (H.view host.new)) }
        ensures added { OnOk result (FileTold 1 (H.view host.old) (H.view host.new)
            (λ was now. records_of now ≡ records_of was ++ records_logged (form.Put path number)
            (state_of self.old))) }
        ensures not_failed { result ≡ Err store_error.Failed → ⊥ }
        ensures no_memory { result ≡ Err store_error.NoMemory → (self.new ≡ self.old)
            × (host.new ≡ host.old) }
        ensures in_doubt { result ≡ Err store_error.DiskFault
            → LeavesInDoubt (form.Put path number) self.old self.new }
        ensures writes { WritesFile 1 (Executing (form.Put path number) (state_of self.old)
            (H.view host.old).stamp) (H.view host.old) (H.view host.new) }
        ensures cause { DiskCause (result ≡ Err store_error.DiskFault) (H.view host.old)
            (H.view host.new) }
    {
        let bytes = pack_put(self.alloc, &path, number)?;
        if !has_room(self.log.end(), bytes.len()) {
            return Ok(store_full(self.alloc)?);
        }
        let record = prepare(self.alloc, bytes)?;
        let applied = self.tree.apply(self.alloc, Form::Put(path, number))?;
        let Applied { reply, tree } = applied;
        let Some(tree) = tree else {
            return Ok(reply);
        };
        match self.log.append(host, &record) {
            Ok(()) => {
                self.tree = tree;
                Ok(reply)
            }
            Err(_) => {
                self.failed = true;
                Err(StoreError::DiskFault)
            }
        }
    }
}
