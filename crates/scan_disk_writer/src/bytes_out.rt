//! What takes the bytes of a file, in order.
ghost use Rattle.std.specs.Prelude.{◌≡◌, [], Some, None, false, true};

use crate::fault::OutFault;
use std::alloc::Global;
use std::fs::File;
use std::io::Write;
use std::marker::Model;

/// What takes bytes in order.
pub trait BytesOut {
    ghost use Rattle.std.specs.Prelude.{ℕ, List, Bool, Option};

    /// The bytes that were taken, where it tells.
    ghost taken: { Self → Option (List ℕ) };

    /// Whether a write can fail.
    ghost can_fail: { Bool };

    ghost use Rattle.std.specs.Prelude.{◌≡◌, OnOk, IfErr};
    ghost use Rattle.scan_disk_writer.specs.Out.{behind, IsOut};

    /// Takes more bytes.
    ///
    /// # Errors
    /// `Failed` where the write failed, and `NoMemory`. How many of these bytes were taken is not told then.
    fn append(&mut self, bytes: &[u8]) -> Result<(), OutFault>
        ensures taken { OnOk result (taken self.new ≡ behind bytes.now (taken self.old)) }
        ensures fails { IfErr result (IsOut can_fail) };
}

/// A file in memory that is written. Contracts see its bytes.
#[derive(Drop)]
pub struct MemoryOut {
    bytes: Vec<u8>,
}

impl Model for MemoryOut {
    ghost use Rattle.std.specs.Prelude.{ℕ, List};

    ghost Value = { List ℕ };

    ghost view = { λ o. o.bytes.items };
}

impl MemoryOut {
    /// No bytes yet.
    pub fn new(alloc: Global) -> Self
        ensures { result ≡ [] }
    {
        MemoryOut {
            bytes: Vec::new(alloc),
        }
    }

    /// The bytes.
    pub fn into_bytes(self) -> Vec<u8>
        ensures { result.items ≡ self }
    {
        self.bytes
    }
}

impl BytesOut for MemoryOut {
    ghost taken = { λ out. Some out };

    ghost can_fail = { false };

    fn append(&mut self, bytes: &[u8]) -> Result<(), OutFault> {
        match self.bytes.extend_from_slice(bytes) {
            Ok(()) => Ok(()),
            Err(_) => Err(OutFault::NoMemory),
        }
    }
}

impl BytesOut for File {
    ghost taken = { λ file. None };

    ghost can_fail = { true };

    fn append(&mut self, bytes: &[u8]) -> Result<(), OutFault> {
        match self.write_all(bytes) {
            Ok(()) => Ok(()),
            Err(_) => Err(OutFault::Failed),
        }
    }
}
