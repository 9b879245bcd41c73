//! An output over any writer of std, as standard output. It tells no bytes.
ghost use Rattle.std.specs.Prelude.{◌≡◌, ◌≢◌, ◌<◌, None, IfErr, length};
ghost use Rattle.std.specs.Io.{WritesAtMost};
ghost use Rattle.std.specs.Io.KnownBytes.{WriteAppends};
ghost use Rattle.std.specs.IoError.{error_kind};
ghost use Rattle.scan_run.specs.Answers.{IsWritten};
ghost use Rattle.scan_run.specs.Memory.{state_after_write};
ghost use Rattle.scan_run.specs.Std.{WritesTo, std_output};

use crate::output::{Output, OutputWrite};
use std::io;
use std::io::{Error, ErrorKind, Write};

/// An output over a writer: `rt.stdout()`, a file. A writer that takes nothing is a fault, and a write that a signal
/// interrupts is made again.
#[derive(Drop)]
pub struct StdOutput<W> {
    writer: W,
    faults: u64,
}

impl<W: Write> StdOutput<W> {
    /// An output to the writer.
    pub fn new(writer: W) -> Self
        ensures writer { result.writer ≡ writer }
        ensures faults { result.faults ≡ 0 }
    {
        StdOutput { writer, faults: 0 }
    }
}

/// One write, made again where a signal interrupts it.
fn write_once<W: Write>(writer: &mut W, bytes: &[u8]) -> io::Result<usize>
    ensures bound { WritesAtMost result bytes.now }
    ensures bytes { WriteAppends (W.contents writer.old) (W.contents writer.new) result bytes.now }
    ensures retried { IfErr result (λ e. error_kind e ≢ ErrorKind.Interrupted) }
{
    for _ in 0..u64::MAX {
        match writer.write(bytes) {
            Ok(n) => return Ok(n),
            Err(e) => {
                if e.kind() != ErrorKind::Interrupted {
                    return Err(e);
                }
            }
        }
    }
    Err(Error::from(ErrorKind::TimedOut))
}

impl<W: Write> Output for StdOutput<W> {
    ghost output = { λ s. std_output s.faults };

    fn write_some(&mut self, bytes: &[u8]) -> OutputWrite
        requires { 0 < length bytes.now }
        ensures written { IsWritten bytes.now (std_output self.old.faults) (std_output self.new.faults) result }
        ensures told { WritesTo (W.contents self.old.writer) (W.contents self.new.writer) bytes.now result }
        ensures after { std_output self.new.faults
            ≡ state_after_write bytes.now result (std_output self.old.faults) }
    {
        match write_once(&mut self.writer, bytes) {
            Ok(0) => {
                self.faults = self.faults.saturating_add(1);
                OutputWrite::Failed
            }
            Ok(n) => OutputWrite::Took(n),
            Err(_) => {
                self.faults = self.faults.saturating_add(1);
                OutputWrite::Failed
            }
        }
    }
}
