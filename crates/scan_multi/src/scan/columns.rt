//! A scan of files that gives columns. An own call over the Rust's parts.
ghost use Rattle.std.specs.Prelude.{◌≡◌, All, IfOk, IfErr, Some, true, false};
ghost use Rattle.scan_drive.specs.Chunks.{HasRoom};
ghost use Rattle.scan_drive.specs.declared.sink.Flow.TheVariants as flows;
ghost use Rattle.scan_multi.specs.Lawful.{IsIdle};
ghost use Rattle.scan_multi.specs.Placed.{no_counts};
ghost use Rattle.scan_multi.specs.Scans.{IsScan, IsRefusedFor, ScanMoves};
ghost use Rattle.scan_multi.specs.Taken.{EndsScan, TakesFront};

use crate::scan::fault::{ScanFault, placed};
use crate::scan::output::{ColumnChunk, ColumnOutput};
use crate::scan::request::check_request;
use scan_drive::{ChunkSink, DriveEnd, Flow, Gate, Kept, ScanFile, ScanReport, drive_files};
use scan_expr::ScanRequest;
use scan_opener::LayoutReaderFactory;
use scan_segments::{KeyedSegmentCache, SegmentSource};
use scan_values::DType;
use std::alloc::Global;
use std::thread::Threads;

/// Whether a row may be given.
fn has_room(limit: Option<u64>) -> bool
    ensures some { result ≡ true → HasRoom limit }
    ensures none { result ≡ false → limit ≡ Some 0 }
{
    match limit {
        None => true,
        Some(most) => most > 0,
    }
}

/// The end of a scan that asks for nothing.
fn end_of_none() -> DriveEnd
    ensures { result ≡ record { flow = flows.More; report = no_counts } }
{
    DriveEnd {
        flow: Flow::More,
        report: ScanReport::default(),
    }
}

/// Scans files as `scan_files` does, and hands their rows to a sink as they are given: chunk by chunk, each with a
/// column of values, once the rows before it were, or in no order once it is read. No more rows are kept meanwhile
/// than those of the splits that are read at once. Where the sink wants no more nothing else is read, and the answer
/// says so. Where it does not, the sink has taken what `scan_columns_of` gives; after any answer, a fault too, it has
/// taken a front of that: in order the first rows of the answer, else some of its rows, none twice, and over lawful
/// objects none that is damaged.
///
/// # Errors
/// Those of `scan_files`, by the same causes. Want of memory of the sink is `NoMemory`.
#[tactic(none)]
pub fn scan_into<
    R: Threads + Sync,
    O: LayoutReaderFactory + Drop,
    S: SegmentSource + Drop,
    C: KeyedSegmentCache,
    G: Gate,
    K: ChunkSink<ColumnChunk>,
>(
    rt: &R,
    alloc: Global,
    dtype: &DType,
    files: &mut Vec<ScanFile<O, S>>,
    cache: &mut C,
    request: &ScanRequest,
    workers: usize,
    gate: &G,
    sink: &mut K,
) -> Result<DriveEnd, ScanFault>
    requires { All (IsIdle O.opener S.state) files.old.items }
    ensures ok { IfOk result (EndsScan O.opener S.state K.takes workers dtype.now request.now files.old.items
        files.new.items (C.cache cache.old) (C.cache cache.new) (K.full sink.new) sink.old sink.new) }
    ensures front { TakesFront O.opener S.state K.takes dtype.now request.now files.old.items (C.cache cache.old)
        sink.old sink.new }
    ensures err { IfErr result (IsRefusedFor O.opener S.state workers dtype.now request.now
        files.old.items files.new.items (C.cache cache.old) (C.cache cache.new)) }
    ensures moves { ScanMoves O.opener S.state workers dtype.now request.now
        files.old.items files.new.items (C.cache cache.old) (C.cache cache.new) }
{
    let ask = check_request(alloc, dtype, workers, request)?;
    if !has_room(request.limit) {
        return Ok(end_of_none());
    }
    match drive_files(
        rt,
        alloc,
        gate,
        &ask,
        files,
        cache,
        sink,
        workers,
        request.limit,
        request.ordered,
        request.filter.is_none(),
    ) {
        Ok(end) => Ok(end),
        Err(fault) => Err(placed(fault)),
    }
}

/// Scans files as `scan_files` does, and gives columns: what `scan_files` says of its rows, its order, its faults and
/// of what it asks holds of this call word for word. A chunk's column is what the splits' plans made, and no value of
/// it is copied or made an array of.
///
/// # Errors
/// Those of `scan_files`, by the same causes.
#[tactic(none)]
pub fn scan_columns_of<
    R: Threads + Sync,
    O: LayoutReaderFactory + Drop,
    S: SegmentSource + Drop,
    C: KeyedSegmentCache,
    G: Gate,
>(
    rt: &R,
    alloc: Global,
    dtype: &DType,
    files: &mut Vec<ScanFile<O, S>>,
    cache: &mut C,
    request: &ScanRequest,
    workers: usize,
    gate: &G,
) -> Result<ColumnOutput, ScanFault>
    requires { All (IsIdle O.opener S.state) files.old.items }
    ensures ok { IfOk result (IsScan O.opener S.state workers dtype.now request.now
        files.old.items files.new.items (C.cache cache.old) (C.cache cache.new)) }
    ensures err { IfErr result (IsRefusedFor O.opener S.state workers dtype.now request.now
        files.old.items files.new.items (C.cache cache.old) (C.cache cache.new)) }
    ensures moves { ScanMoves O.opener S.state workers dtype.now request.now
        files.old.items files.new.items (C.cache cache.old) (C.cache cache.new) }
{
    let mut kept: Kept<ColumnChunk> = Kept::new(alloc);
    let end = scan_into(
        rt, alloc, dtype, files, cache, request, workers, gate, &mut kept,
    )?;
    Ok(ColumnOutput {
        chunks: kept.chunks,
        report: end.report,
    })
}
