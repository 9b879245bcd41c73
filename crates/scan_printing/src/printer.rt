//! What writes the rows of a scan as they come.
ghost use Rattle.std.specs.Prelude.{◌≡◌, ◌∷◌, ◌++◌, [], IfOk, OnOk, option_map};
ghost use Rattle.scan_multi.specs.Output.{IsChunk};
ghost use Rattle.scan_run.specs.Printed.{chunks_lines};
ghost use Rattle.scan_run.specs.WriteAll.{WroteFront};
ghost use Rattle.scan_run.specs.Writers.{WritesAll};

use crate::csv_lines::push_chunk;
use crate::progress::Progress;
use scan_multi::{ChunkSink, ColumnChunk, ColumnOutput, Flow, ScanReport};
use scan_run::{Output, WriteFault, write_all, write_output};
use scan_values::NoMemory;
use std::alloc::Global;
use thiserror::Error;

/// Why rows are not written: the output refuses them, or a chunk has not as many values as rows.
#[derive(Clone, Copy, Debug, PartialEq, Eq, Error)]
pub enum PrintFault {
    #[error("{0}")]
    Write(WriteFault),
    #[error("a scan gave rows without values")]
    Uneven,
}

impl From<WriteFault> for PrintFault {
    ghost use Rattle.std.specs.Prelude.{◌≡◌};
    ghost use Rattle.scan_printing.specs.declared.printer.PrintFault.TheVariants as fault;

    ghost from_gives = { λ w e. e ≡ fault.Write w };

    fn from(fault: WriteFault) -> PrintFault {
        PrintFault::Write(fault)
    }
}

/// Writes each chunk that it takes as lines of JSON, and stops once that fails.
#[derive(Drop)]
pub(crate) struct JsonPrinter<'a, O, P> {
    pub(crate) output: &'a mut O,
    pub(crate) alloc: Global,
    pub(crate) fault: Option<PrintFault>,
    pub(crate) progress: P,
}

/// Why a printer stopped, where it did. What was written stays.
pub(crate) fn fault_of<O, P: Drop>(printer: JsonPrinter<'_, O, P>) -> Option<PrintFault>
    ensures fault { result ≡ printer.entry.fault }
    ensures written { printer.exit.0.now ≡ printer.entry.output.now }
{
    printer.fault
}

fn one_of(alloc: Global, chunk: ColumnChunk) -> Result<Vec<ColumnChunk>, NoMemory>
    ensures { IfOk result (λ chunks. chunks.items ≡ chunk ∷ []) }
{
    let mut chunks = Vec::with_capacity(alloc, 1)?;
    chunks.push(chunk)?;
    Ok(chunks)
}

/// Writes the rows of a chunk, which has as many values, as lines of JSON.
fn write_even<O: Output>(
    alloc: Global,
    output: &mut O,
    chunk: ColumnChunk,
) -> Result<(), WriteFault>
    requires { IsChunk chunk.values.dtype chunk }
    ensures { WritesAll (chunks_lines (chunk ∷ [])) (O.output output.old) (O.output output.new) result }
{
    let out = ColumnOutput {
        chunks: one_of(alloc, chunk)?,
        report: ScanReport::default(),
    };
    write_output(alloc, output, &out)
}

/// Writes the rows of a chunk as lines of JSON.
fn write_json<O: Output>(
    alloc: Global,
    output: &mut O,
    chunk: ColumnChunk,
) -> Result<(), PrintFault>
    ensures front { WroteFront (chunks_lines (chunk ∷ [])) (O.output output.old) (O.output output.new) }
    ensures ok { OnOk result ((O.output output.new).written
        ≡ option_map (λ before. before ++ chunks_lines (chunk ∷ [])) (O.output output.old).written) }
{
    let rows = chunk.rows.len();
    if rows == 0 {
        return Ok(());
    }
    if chunk.values.len() != rows {
        return Err(PrintFault::Uneven);
    }
    write_even(alloc, output, chunk)?;
    Ok(())
}

impl<'a, O: Output, P: Progress> ChunkSink<ColumnChunk> for JsonPrinter<'a, O, P> {
    ghost use Rattle.std.specs.Prelude.{is_some, IsSome};
    ghost use Rattle.scan_printing.specs.Printing.{Prints, prints_taking};

    ghost takes = { Prints (λ s. O.output s.output.now) (λ s. is_some s.fault) (λ s. s.output.ghost_name) };

    ghost full = { λ s. IsSome s.fault };

    ghost taking = { prints_taking (λ s. O.output s.output.now) (λ s. is_some s.fault) (λ s. s.output.ghost_name) };

    fn take(&mut self, chunk: ColumnChunk) -> Result<Flow, NoMemory> {
        if self.fault.is_some() {
            return Ok(Flow::Stop);
        }
        let rows = self.progress.rows_to(&chunk);
        match write_json(self.alloc, self.output, chunk) {
            Ok(()) => {
                self.progress.reach(rows);
                Ok(Flow::More)
            }
            Err(fault) => {
                self.fault = Some(fault);
                Ok(Flow::Stop)
            }
        }
    }
}

/// Writes a line of names and each chunk that it takes as lines of CSV, and stops once that fails.
#[derive(Drop)]
pub(crate) struct CsvPrinter<'a, O, P> {
    pub(crate) output: &'a mut O,
    pub(crate) alloc: Global,
    /// The line of names, until it is written.
    pub(crate) head: Vec<u8>,
    pub(crate) fault: Option<PrintFault>,
    pub(crate) progress: P,
}

/// Writes the rows of a chunk as lines of CSV behind the line of names, which is written once.
fn write_csv<O: Output>(
    alloc: Global,
    output: &mut O,
    head: &mut Vec<u8>,
    chunk: ColumnChunk,
) -> Result<(), PrintFault> {
    write_head(output, head)?;
    let mut text = Vec::new(alloc);
    push_rows(alloc, chunk, &mut text)?;
    write_all(output, text.as_slice())?;
    Ok(())
}

fn push_rows(alloc: Global, chunk: ColumnChunk, out: &mut Vec<u8>) -> Result<(), WriteFault> {
    push_chunk(alloc, &chunk.into_array(alloc)?, out)?;
    Ok(())
}

/// Writes the line of names, if it is not written yet.
fn write_head<O: Output>(output: &mut O, head: &mut Vec<u8>) -> Result<(), WriteFault> {
    write_all(output, head.as_slice())?;
    head.clear();
    Ok(())
}

impl<'a, O: Output, P: Progress> ChunkSink<ColumnChunk> for CsvPrinter<'a, O, P> {
    ghost use Rattle.std.specs.Prelude.{is_some, IsSome};
    ghost use Rattle.scan_printing.specs.Printing.{Stops, stops_taking};

    ghost takes = { Stops (λ s. O.output s.output.now) (λ s. is_some s.fault) (λ s. s.output.ghost_name) };

    ghost full = { λ s. IsSome s.fault };

    ghost taking = { stops_taking (λ s. O.output s.output.now) (λ s. is_some s.fault) (λ s. s.output.ghost_name) };

    fn take(&mut self, chunk: ColumnChunk) -> Result<Flow, NoMemory> {
        if self.fault.is_some() {
            return Ok(Flow::Stop);
        }
        let rows = self.progress.rows_to(&chunk);
        match write_csv(self.alloc, self.output, &mut self.head, chunk) {
            Ok(()) => {
                self.progress.reach(rows);
                Ok(Flow::More)
            }
            Err(fault) => {
                self.fault = Some(fault);
                Ok(Flow::Stop)
            }
        }
    }
}
