//! Files that are read by places: those of the system, which tell nothing of their bytes, and those in memory, which
//! tell all of them.
ghost use Rattle.std.specs.Prelude.{◌≡◌, IfOk, None, Some, option_map, true, false};
ghost use Rattle.scan_disk.specs.BytesAt.{part_at};

use scan_segments::ByteBuffer;
use scan_values::NoMemory;
use std::fs::File;
use std::io::ErrorKind;
use std::marker::Model;
use std::os::unix::fs::FileExt;
use std::rc::Rc;
use thiserror::Error;

/// Why a read gave no bytes.
#[derive(Clone, Copy, Debug, PartialEq, Eq, Error)]
pub enum ReadFault {
    /// The file ends before the place does.
    #[error("the file ends before the place does")]
    Outside,
    /// The read failed.
    #[error("the read failed")]
    Failed,
}

/// A file that is read by places, and does not change while it is read.
pub trait BytesAt {
    ghost use Rattle.std.specs.Prelude.{ℕ, List, Bool, Option};

    /// The bytes of the file, where it tells.
    ghost bytes: { Self → Option (List ℕ) };

    /// Whether a read can fail.
    ghost can_fail: { Self → Bool };

    ghost use Rattle.scan_disk.specs.BytesAt.{IsSize, IsFilled};

    /// How many bytes the file has.
    fn size(&self) -> Result<u64, ReadFault>
        ensures { IsSize (bytes self.now) (can_fail self.now) result };

    /// Fills a buffer with the bytes from a place on, in one read.
    ///
    /// # Errors
    /// `Outside` exactly where the file has not so many bytes there; `Failed` where the read failed.
    fn fill(&self, offset: u64, buffer: &mut [u8]) -> Result<(), ReadFault>
        ensures { IsFilled (bytes self.now) (can_fail self.now) offset buffer.new result };
}

impl BytesAt for File {
    ghost bytes = { λ file. None };

    ghost can_fail = { λ file. true };

    fn size(&self) -> Result<u64, ReadFault> {
        match self.metadata() {
            Ok(metadata) => Ok(metadata.len()),
            Err(_) => Err(ReadFault::Failed),
        }
    }

    fn fill(&self, offset: u64, buffer: &mut [u8]) -> Result<(), ReadFault> {
        match self.read_exact_at(buffer, offset) {
            Ok(()) => Ok(()),
            Err(fault) => Err(fault_of(fault.kind())),
        }
    }
}

fn fault_of(kind: ErrorKind) -> ReadFault {
    match kind {
        ErrorKind::UnexpectedEof => ReadFault::Outside,
        _ => ReadFault::Failed,
    }
}

/// A file in memory. Contracts see its bytes.
#[derive(Drop)]
pub struct MemoryFile {
    bytes: ByteBuffer,
}

impl Model for MemoryFile {
    ghost use Rattle.std.specs.Prelude.{ℕ, List};

    ghost Value = { List ℕ };

    ghost view = { λ f. f.bytes };
}

impl MemoryFile {
    /// A file of these bytes.
    pub fn new(bytes: ByteBuffer) -> Self
        ensures { result ≡ bytes }
    {
        MemoryFile { bytes }
    }

    /// The same file. Its bytes are shared.
    pub fn try_clone(&self) -> Result<MemoryFile, NoMemory>
        ensures { IfOk result (λ f. f ≡ self.now) }
    {
        Ok(MemoryFile {
            bytes: self.bytes.try_clone()?,
        })
    }
}

impl BytesAt for MemoryFile {
    ghost bytes = { λ file. Some file };

    ghost can_fail = { λ file. false };

    fn size(&self) -> Result<u64, ReadFault> {
        Ok(self.bytes.as_slice().len() as u64)
    }

    fn fill(&self, offset: u64, buffer: &mut [u8]) -> Result<(), ReadFault> {
        match part_of(self.bytes.as_slice(), offset, buffer.len()) {
            Some(part) => {
                buffer.copy_from_slice(part);
                Ok(())
            }
            None => Err(ReadFault::Outside),
        }
    }
}

/// So many bytes from a place on, where there are so many.
fn part_of(bytes: &[u8], offset: u64, count: usize) -> Option<&[u8]>
    ensures { option_map (λ part. part.now) result ≡ part_at offset count bytes.now }
{
    let size = bytes.len() as u64;
    if offset > size {
        return None;
    }
    if count as u64 > size - offset {
        return None;
    }
    Some(&bytes[offset as usize..][..count])
}

/// A file that is shared, as by the opener and the source of one file.
impl<F: BytesAt> BytesAt for Rc<F> {
    ghost bytes = { λ file. F.bytes file.value };

    ghost can_fail = { λ file. F.can_fail file.value };

    fn size(&self) -> Result<u64, ReadFault> {
        (**self).size()
    }

    fn fill(&self, offset: u64, buffer: &mut [u8]) -> Result<(), ReadFault> {
        (**self).fill(offset, buffer)
    }
}
