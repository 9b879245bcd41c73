//! What stands behind a segment of a file under another dtype.
ghost use Rattle.std.specs.Prelude.{◌≡◌, IfOk, None, true, is_some};
ghost use Rattle.scan_spelling.specs.Decoded.{Gives};
ghost use Rattle.scan_widen.specs.Parts.{IsReadable};
ghost use Rattle.scan_widen.specs.Stores.{inner_id, read_behind, made_behind};

use crate::blank::{blank_segment, valid_segment};
use crate::scalar::ScalarType;
use crate::widen::widen_segment;
use scan_segments::{ByteBuffer, SegmentId};
use scan_spelling::{DecodeFault, Spelling};
use scan_values::NoMemory;
use std::alloc::Global;

/// A segment of a file, of so many rows of a scalar dtype in a spelling, that is read as one of another dtype.
#[derive(Clone, Copy, Debug, PartialEq, Eq)]
pub struct Widening {
    pub id: SegmentId,
    pub rows: u64,
    pub spelling: Spelling,
    pub from: ScalarType,
    pub to: ScalarType,
}

/// What stands behind a segment of a file under another dtype.
#[derive(Clone, Copy, Debug, PartialEq, Eq)]
pub enum Behind {
    /// A segment of the file, as it is.
    Kept(SegmentId),
    /// A segment of the file, read as one of another dtype.
    Widened(Widening),
    /// So many rows that the file does not have: null, or false, 0 and the empty text where the dtype has no null.
    Blank(ScalarType, u64),
    /// The validity of so many rows that are all there.
    Valid(u64),
}

impl Behind {
    /// The segment of the file, where there is one.
    pub fn inner(self) -> Option<SegmentId>
        ensures { result ≡ inner_id self }
    {
        match self {
            Behind::Kept(id) => Some(id),
            Behind::Widened(widening) => Some(widening.id),
            Behind::Blank(_, _) => None,
            Behind::Valid(_) => None,
        }
    }

    /// The segment under the other dtype, of the bytes of the file's one behind it. What is handed on is the same buffer.
    ///
    /// # Errors
    /// `Spelling` exactly where it is widened and the bytes spell no values, and `NoMemory`.
    pub fn read(self, alloc: Global, bytes: ByteBuffer) -> Result<ByteBuffer, DecodeFault>
        requires inner { is_some (inner_id self) ≡ true }
        requires readable { IsReadable self }
        ensures { Gives (λ b. b) result (read_behind bytes self) }
    {
        match self {
            Behind::Kept(_) => Ok(bytes),
            Behind::Widened(widening) => {
                let widened = widen_segment(alloc, &widening, bytes)?;
                Ok(ByteBuffer::new(alloc, widened)?)
            }
            Behind::Blank(_, _) => unreachable!(),
            Behind::Valid(_) => unreachable!(),
        }
    }

    /// The segment under the other dtype, where none of the file's stands behind it.
    ///
    /// # Errors
    /// `NoMemory`.
    pub fn made(self, alloc: Global) -> Result<ByteBuffer, NoMemory>
        requires { inner_id self ≡ None }
        ensures { IfOk result (λ b. b ≡ made_behind self) }
    {
        match self {
            Behind::Blank(scalar, rows) => ByteBuffer::new(
                alloc,
                blank_segment(alloc, scalar, rows)?,
            ),
            Behind::Valid(rows) => ByteBuffer::new(alloc, valid_segment(alloc, rows)?),
            Behind::Kept(_) => unreachable!(),
            Behind::Widened(_) => unreachable!(),
        }
    }
}
