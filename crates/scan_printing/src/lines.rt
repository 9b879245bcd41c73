//! Scans whose rows are written as they come.
ghost use Rattle.std.specs.Prelude.{◌≡◌, All, IfErr, None, OnOk, true};
ghost use Rattle.scan_expr.specs.Infer.{infer};
ghost use Rattle.scan_multi.specs.Answer.{answer};
ghost use Rattle.scan_multi.specs.Lawful.{IsIdle, IsLawful, told};
ghost use Rattle.scan_multi.specs.Scans.{IsRefusedFor, ScanMoves};
ghost use Rattle.scan_run.specs.Run.{lines_of};
ghost use Rattle.scan_run.specs.WriteAll.{WroteFront};
ghost use Rattle.scan_printing.specs.Written.{HasScanCause, WroteAll, WroteFrontOf};

use crate::printer::{CsvPrinter, JsonPrinter, PrintFault, fault_of};
use crate::progress::Progress;
use scan_expr::ScanRequest;
use scan_multi::{DriveEnd, Gate, LayoutReaderFactory, ScanFault, ScanFile, ScanReport, scan_into};
use scan_run::{Output, write_all};
use scan_segments::{KeyedSegmentCache, SegmentSource};
use scan_values::DType;
use std::alloc::Global;
use std::thread::Threads;
use thiserror::Error;

/// Why the rows of a scan are not all written: the scan is refused, or they can't be.
#[derive(Clone, Copy, Debug, PartialEq, Eq, Error)]
pub enum LinesFault {
    #[error("{0}")]
    Scan(ScanFault),
    #[error("{0}")]
    Print(PrintFault),
}

/// Scans files into a printer, which stays that of its output.
fn fill<
    R: Threads + Sync,
    F: LayoutReaderFactory + Drop,
    S: SegmentSource + Drop,
    C: KeyedSegmentCache,
    G: Gate,
    O: Output,
    P: Progress,
>(
    rt: &R,
    alloc: Global,
    dtype: &DType,
    files: &mut Vec<ScanFile<F, S>>,
    cache: &mut C,
    request: &ScanRequest,
    workers: usize,
    gate: &G,
    printer: &mut JsonPrinter<'_, O, P>,
) -> Result<DriveEnd, ScanFault>
    requires { All (IsIdle F.opener S.state) files.old.items }
    ensures same { printer.new.output.ghost_name ≡ printer.old.output.ghost_name }
    ensures ok { OnOk result (printer.new.fault ≡ None →
        IsLawful F.opener S.state files.old.items (C.cache cache.old) →
        WroteAll dtype.now request.now (told F.opener S.state files.old.items)
        (O.output printer.old.output.now) (O.output printer.new.output.now)) }
    ensures front { IsLawful F.opener S.state files.old.items (C.cache cache.old) →
        WroteFrontOf dtype.now request.now (told F.opener S.state files.old.items)
        (O.output printer.old.output.now) (O.output printer.new.output.now) }
    ensures ordered { IsLawful F.opener S.state files.old.items (C.cache cache.old) → request.now.ordered ≡ true →
        WroteFront (lines_of (infer dtype.now request.now.projection)
        (answer dtype.now request.now (told F.opener S.state files.old.items)))
        (O.output printer.old.output.now) (O.output printer.new.output.now) }
    ensures err { IfErr result (IsRefusedFor F.opener S.state workers dtype.now request.now
        files.old.items files.new.items (C.cache cache.old) (C.cache cache.new)) }
    ensures moves { ScanMoves F.opener S.state workers dtype.now request.now
        files.old.items files.new.items (C.cache cache.old) (C.cache cache.new) }
{
    scan_into(
        rt, alloc, dtype, files, cache, request, workers, gate, printer,
    )
}

/// Scans files as `scan_into` does, and writes a line of JSON for each row as it is given. Over lawful objects an Ok has
/// written the lines of an output that the request admits, and nothing else; whatever the answer, a front of such lines
/// was written: in order a front of the lines of the row-by-row answer.
///
/// # Errors
/// `Scan` those of `scan_into`, by the same causes; `Print` where the output fails.
pub fn scan_lines<
    R: Threads + Sync,
    F: LayoutReaderFactory + Drop,
    S: SegmentSource + Drop,
    C: KeyedSegmentCache,
    G: Gate,
    O: Output,
    P: Progress + Drop,
>(
    rt: &R,
    alloc: Global,
    dtype: &DType,
    files: &mut Vec<ScanFile<F, S>>,
    cache: &mut C,
    request: &ScanRequest,
    workers: usize,
    gate: &G,
    output: &mut O,
    progress: P,
) -> Result<ScanReport, LinesFault>
    requires { All (IsIdle F.opener S.state) files.old.items }
    ensures ok { OnOk result (IsLawful F.opener S.state files.old.items (C.cache cache.old) →
        WroteAll dtype.now request.now (told F.opener S.state files.old.items)
        (O.output output.old) (O.output output.new)) }
    ensures front { IsLawful F.opener S.state files.old.items (C.cache cache.old) →
        WroteFrontOf dtype.now request.now (told F.opener S.state files.old.items)
        (O.output output.old) (O.output output.new) }
    ensures ordered { IsLawful F.opener S.state files.old.items (C.cache cache.old) → request.now.ordered ≡ true →
        WroteFront (lines_of (infer dtype.now request.now.projection)
        (answer dtype.now request.now (told F.opener S.state files.old.items)))
        (O.output output.old) (O.output output.new) }
    ensures err { IfErr result (HasScanCause F.opener S.state workers dtype.now request.now
        files.old.items files.new.items (C.cache cache.old) (C.cache cache.new)) }
    ensures moves { ScanMoves F.opener S.state workers dtype.now request.now
        files.old.items files.new.items (C.cache cache.old) (C.cache cache.new) }
{
    let mut printer = JsonPrinter {
        output,
        alloc,
        fault: None,
        progress,
    };
    let outcome = fill(
        rt,
        alloc,
        dtype,
        files,
        cache,
        request,
        workers,
        gate,
        &mut printer,
    );
    let fault = fault_of(printer);
    match outcome {
        Ok(end) => match fault {
            None => Ok(end.report),
            Some(fault) => Err(LinesFault::Print(fault)),
        },
        Err(fault) => Err(LinesFault::Scan(fault)),
    }
}

/// Scans files into a printer of CSV.
fn fill_csv<
    R: Threads + Sync,
    F: LayoutReaderFactory + Drop,
    S: SegmentSource + Drop,
    C: KeyedSegmentCache,
    G: Gate,
    O: Output,
    P: Progress,
>(
    rt: &R,
    alloc: Global,
    dtype: &DType,
    files: &mut Vec<ScanFile<F, S>>,
    cache: &mut C,
    request: &ScanRequest,
    workers: usize,
    gate: &G,
    printer: &mut CsvPrinter<'_, O, P>,
) -> Result<DriveEnd, ScanFault>
    requires { All (IsIdle F.opener S.state) files.old.items }
{
    scan_into(
        rt, alloc, dtype, files, cache, request, workers, gate, printer,
    )
}

/// Ends what a printer of CSV wrote: the line of names stands there where no row came.
fn finish_csv<O: Output, P: Drop>(printer: CsvPrinter<'_, O, P>) -> Result<(), PrintFault> {
    let CsvPrinter {
        output,
        alloc: _,
        head,
        fault,
        progress: _progress,
    } = printer;
    if let Some(fault) = fault {
        return Err(fault);
    }
    write_all(output, head.as_slice())?;
    Ok(())
}

/// The same as `scan_lines`, of which the rows are written as CSV, behind a line of names (`head`), which is written where no
/// row comes too.
///
/// # Errors
/// As of `scan_lines`.
pub fn scan_csv<
    R: Threads + Sync,
    F: LayoutReaderFactory + Drop,
    S: SegmentSource + Drop,
    C: KeyedSegmentCache,
    G: Gate,
    O: Output,
    P: Progress + Drop,
>(
    rt: &R,
    alloc: Global,
    dtype: &DType,
    files: &mut Vec<ScanFile<F, S>>,
    cache: &mut C,
    request: &ScanRequest,
    workers: usize,
    gate: &G,
    output: &mut O,
    head: Vec<u8>,
    progress: P,
) -> Result<ScanReport, LinesFault>
    requires { All (IsIdle F.opener S.state) files.old.items }
{
    let mut printer = CsvPrinter {
        output,
        alloc,
        head,
        fault: None,
        progress,
    };
    match fill_csv(
        rt,
        alloc,
        dtype,
        files,
        cache,
        request,
        workers,
        gate,
        &mut printer,
    ) {
        Ok(end) => match finish_csv(printer) {
            Ok(()) => Ok(end.report),
            Err(fault) => Err(LinesFault::Print(fault)),
        },
        Err(fault) => Err(LinesFault::Scan(fault)),
    }
}
