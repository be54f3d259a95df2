//! The bytes of the store's files.
ghost use Rattle.std.specs.Prelude.{◌≡◌};

use std::marker::Model;

/// The bytes of a file.
#[derive(Debug, Drop)]
pub struct FileBytes {
    bytes: Vec<u8>,
}

impl Model for FileBytes {
    ghost use Rattle.std.specs.Prelude.{List, ℕ};

    ghost Value = { List ℕ };

    ghost view = { λ f. f.bytes.items };
}

impl FileBytes {
    pub fn new(bytes: Vec<u8>) -> FileBytes
        ensures { result ≡ bytes.items }
    {
        FileBytes { bytes }
    }

    pub fn as_slice(&self) -> &[u8]
        ensures { result.now ≡ self.now }
    {
        &self.bytes
    }
}

/// The store's four files: two snapshots, and two logs.
#[derive(Debug, Drop)]
pub struct Files {
    pub s0: FileBytes,
    pub l0: FileBytes,
    pub s1: FileBytes,
    pub l1: FileBytes,
}
