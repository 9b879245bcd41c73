//! An input over any reader of std, as standard input. It tells no bytes.
ghost use Rattle.std.specs.Prelude.{◌≡◌, ◌≢◌, ◌<◌, None, IfErr, length};
ghost use Rattle.std.specs.Io.{ReadsAtMost};
ghost use Rattle.std.specs.Io.KnownBytes.{ReadConsumes};
ghost use Rattle.std.specs.IoError.{error_kind};
ghost use Rattle.scan_run.specs.Answers.{IsRead};
ghost use Rattle.scan_run.specs.Memory.{state_after_read};
ghost use Rattle.scan_run.specs.Std.{ReadsOf, std_input};

use crate::input::{Input, InputRead};
use std::io;
use std::io::{Error, ErrorKind, Read};

/// An input over a reader: `rt.stdin()`, a file. A read that a signal interrupts is made again.
#[derive(Drop)]
pub struct StdInput<R> {
    reader: R,
    taken: u64,
    ends: u64,
    faults: u64,
}

impl<R: Read> StdInput<R> {
    /// An input of what the reader gives from here on.
    pub fn new(reader: R) -> Self
        ensures reader { result.reader ≡ reader }
        ensures counts { (result.taken ≡ 0) × (result.ends ≡ 0) × (result.faults ≡ 0) }
    {
        StdInput {
            reader,
            taken: 0,
            ends: 0,
            faults: 0,
        }
    }
}

/// One read, made again where a signal interrupts it.
fn read_once<R: Read>(reader: &mut R, buf: &mut [u8]) -> io::Result<usize>
    ensures bound { ReadsAtMost result buf.new }
    ensures bytes { ReadConsumes (R.remaining reader.old) (R.remaining reader.new) result buf.new }
    ensures room { length buf.new ≡ length buf.old }
    ensures retried { IfErr result (λ e. error_kind e ≢ ErrorKind.Interrupted) }
{
    for _ in 0..u64::MAX {
        match reader.read(buf) {
            Ok(n) => return Ok(n),
            Err(e) => {
                if e.kind() != ErrorKind::Interrupted {
                    return Err(e);
                }
            }
        }
    }
    Err(Error::from(ErrorKind::TimedOut))
}

impl<R: Read> Input for StdInput<R> {
    ghost input = { λ s. std_input s.taken s.ends s.faults };

    fn read_some(&mut self, buf: &mut [u8]) -> InputRead
        requires { 0 < length buf.old }
        ensures read { IsRead (std_input self.old.taken self.old.ends self.old.faults)
            (std_input self.new.taken self.new.ends self.new.faults) buf.new result }
        ensures told { ReadsOf (R.remaining self.old.reader) (R.remaining self.new.reader) buf.new result }
        ensures after { std_input self.new.taken self.new.ends self.new.faults
            ≡ state_after_read result (std_input self.old.taken self.old.ends self.old.faults) }
    {
        match read_once(&mut self.reader, buf) {
            Ok(0) => {
                self.ends = self.ends.saturating_add(1);
                InputRead::End
            }
            Ok(n) => {
                self.taken = self.taken.saturating_add(n as u64);
                InputRead::Bytes(n)
            }
            Err(_) => {
                self.faults = self.faults.saturating_add(1);
                InputRead::Failed
            }
        }
    }
}
