//! An input: bytes that come in pieces, until its end or a fault.
ghost use Rattle.std.specs.Prelude.{◌≡◌, ◌≢◌, ◌<◌, ◌≤◌, ◌+◌, ◌-◌, ◌^◌, ◌↔◌, length, true, IfOk, IfSome};
ghost use Rattle.scan_segments.specs.Faults.{Rose};
ghost use Rattle.scan_run.specs.Io.{InputState};
ghost use Rattle.scan_run.specs.Answers.{IsRead};
ghost use Rattle.scan_run.specs.ReadAll.{GaveAll, TookMore, TookAtMost};

use std::alloc::{AllocError, Global};
use thiserror::Error;

/// The most bytes that are read of an input.
pub const MOST_BYTES: usize = 67_108_864;

/// So many bytes are read at a time: few enough that they stay in the nearest cache until they are copied.
const PIECE: usize = 8_192;

/// What one read gave: so many bytes at the front of the buffer, the end of the input, or a fault.
#[derive(Clone, Copy, Debug, PartialEq, Eq)]
pub enum InputRead {
    Bytes(usize),
    End,
    Failed,
}

/// An input that is read in pieces.
pub trait Input {
    /// The bytes still to come, what was taken, its ends and its faults, and whether it may fail.
    ghost input: { Self → InputState };

    /// Reads at most as many bytes as the buffer has.
    fn read_some(&mut self, buf: &mut [u8]) -> InputRead
        requires { 0 < length buf.old }
        ensures { IsRead (input self.old) (input self.new) buf.new result };
}

/// Why an input was not read to its end.
#[derive(Clone, Copy, Debug, PartialEq, Eq, Error)]
pub enum ReadFault {
    #[error("the input failed")]
    Failed,
    #[error("the input has more than {MOST_BYTES} bytes")]
    TooLong,
    #[error("out of memory")]
    NoMemory,
}

impl From<AllocError> for ReadFault {
    ghost use Rattle.std.specs.Prelude.{◌≡◌};
    ghost use Rattle.scan_run.specs.declared.input.ReadFault.TheVariants.{NoMemory};

    ghost from_gives = { λ _ e. e ≡ NoMemory };

    fn from(_: AllocError) -> ReadFault {
        ReadFault::NoMemory
    }
}

/// The bytes of an input, read to its end. More than `MOST_BYTES` bytes are refused, and then no more are read: whatever
/// is answered, at most 65,536 bytes were read beyond them.
///
/// # Errors
///
/// `Failed` only where the input's count of faults rose, of one that may fail; `TooLong` only where more bytes came than
/// `MOST_BYTES`, which the input has, where it tells them; and `NoMemory`.
#[tactic(auto, using(crate::proofs::Pieces::came_long))]
pub fn read_all<I: Input>(alloc: Global, input: &mut I) -> Result<Vec<u8>, ReadFault>
    ensures ok { IfOk result (λ bytes. GaveAll bytes.items (I.input input.old) (I.input input.new)) }
    ensures failed { result ≡ Err ReadFault.Failed → Rose (I.input input.old).faults (I.input input.new).faults }
    ensures able { result ≡ Err ReadFault.Failed → (I.input input.old).can_fail ≡ true }
    ensures long { result ≡ Err ReadFault.TooLong → TookMore MOST_BYTES (I.input input.old) (I.input input.new) }
    ensures told { result ≡ Err ReadFault.TooLong → IfSome (I.input input.old).left (λ all. MOST_BYTES < length all) }
    ensures short { result ≢ Err ReadFault.NoMemory → result ≢ Err ReadFault.TooLong →
        TookAtMost MOST_BYTES (I.input input.old) (I.input input.new) }
    ensures bound { IfOk result (λ bytes. length bytes.items ≤ MOST_BYTES) }
    ensures stops { (I.input input.new).taken ≤ (I.input input.old).taken + (MOST_BYTES + 65_536) }
    ensures faults { (I.input input.old).faults ≤ (I.input input.new).faults }
{
    let mut bytes = Vec::new(alloc);
    let mut buf = [0u8; PIECE];
    'reading: while bytes.len() <= MOST_BYTES {
        match input.read_some(&mut buf) {
            InputRead::Bytes(n) => bytes.extend_from_slice(&buf[..n])?,
            InputRead::End => return Ok(bytes),
            InputRead::Failed => return Err(ReadFault::Failed),
        }
    }
    Err(ReadFault::TooLong)
}
