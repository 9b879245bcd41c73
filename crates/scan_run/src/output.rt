//! An output: it takes bytes in pieces, or fails.
ghost use Rattle.std.specs.Prelude.{◌≡◌, ◌<◌, ◌++◌, length, option_map, true, OnOk};
ghost use Rattle.scan_segments.specs.Faults.{Rose};
ghost use Rattle.scan_run.specs.Io.{OutputState};
ghost use Rattle.scan_run.specs.Answers.{IsWritten};
ghost use Rattle.scan_run.specs.WriteAll.{WroteFront};

use thiserror::Error;

/// What one write did: it took so many bytes, failed, or found no memory.
#[derive(Clone, Copy, Debug, PartialEq, Eq)]
pub enum OutputWrite {
    Took(usize),
    Failed,
    NoMemory,
}

/// An output that is written in pieces.
pub trait Output {
    /// The bytes that it took, its faults, how often it found no memory, and whether it may fail.
    ghost output: { Self → OutputState };

    /// Takes bytes from the front of these.
    fn write_some(&mut self, bytes: &[u8]) -> OutputWrite
        requires { 0 < length bytes.now }
        ensures { IsWritten bytes.now (output self.old) (output self.new) result };
}

/// Why bytes were not written whole.
#[derive(Clone, Copy, Debug, PartialEq, Eq, Error)]
pub enum WriteFault {
    #[error("the output failed")]
    Failed,
    #[error("out of memory")]
    NoMemory,
}

/// Writes all bytes, in order. After a fault the output has taken a front of them. It takes no memory of its own.
///
/// # Errors
///
/// `Failed` and `NoMemory`, each only where the output's count of these rose, and `Failed` only of one that may fail.
pub fn write_all<O: Output>(output: &mut O, bytes: &[u8]) -> Result<(), WriteFault>
    ensures front { WroteFront bytes.now (O.output output.old) (O.output output.new) }
    ensures ok { OnOk result ((O.output output.new).written ≡
        option_map (λ before. before ++ bytes.now) (O.output output.old).written) }
    ensures failed { result ≡ Err WriteFault.Failed → Rose (O.output output.old).faults (O.output output.new).faults }
    ensures able { result ≡ Err WriteFault.Failed → (O.output output.old).can_fail ≡ true }
    ensures memory { result ≡ Err WriteFault.NoMemory → Rose (O.output output.old).short (O.output output.new).short }
{
    let mut rest = bytes;
    'writing: while !rest.is_empty() {
        match output.write_some(rest) {
            OutputWrite::Took(n) => rest = &rest[n..],
            OutputWrite::Failed => return Err(WriteFault::Failed),
            OutputWrite::NoMemory => return Err(WriteFault::NoMemory),
        }
    }
    Ok(())
}
