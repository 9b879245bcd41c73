//! A scan of generated files.
ghost use Rattle.std.specs.Prelude.{◌≡◌, ◌≤◌, ◌+◌, IfOk, All, length};
ghost use Rattle.scan_segments.specs.Cache.{empty_cache};
ghost use Rattle.scan_caches.specs.Bounded.{keyed_state};
ghost use Rattle.scan_segments.specs.MemorySource.{source_state};
ghost use Rattle.scan_multi.specs.Lawful.{IsIdle};
ghost use Rattle.scan_multi.specs.Scans.{IsScan, ScanMoves};
ghost use Rattle.scan_run.specs.FileOf.{memory_opener};
ghost use Rattle.scan_run.specs.Generated.{table_type, generated_request};
ghost use Rattle.scan_run.specs.GeneratedFiles.{AreGenerated};
ghost use Rattle.scan_run.specs.GeneratedLine.{IsLineOf, IsOutputOf};
ghost use Rattle.scan_run.specs.Totals.{no_totals, with_chunks, totals_line};

use super::files::make_files;
use super::request::{generated_request, table_type};
use super::totals::{push_totals, totals_of};
use scan_caches::{MokaSegmentCache, SegmentEviction};
use scan_drive::ScanFile;
use scan_expr::ScanRequest;
use scan_layout::Spelling;
use scan_multi::{ColumnOutput, Gate, scan_columns_of};
use scan_opener::MemoryOpener;
use scan_segments::MemorySource;
use scan_values::{DType, NoMemory};
use std::alloc::Global;
use std::thread::Threads;

// An empty cache of 1,048,576 bytes and 1,024 entries.
fn new_cache(alloc: Global) -> Result<MokaSegmentCache, NoMemory>
    ensures { IfOk result (λ c. keyed_state c ≡ empty_cache) }
{
    MokaSegmentCache::new(alloc, 1_048_576, 1024, SegmentEviction::Lru)
}

// What a scan by so many workers gives, over a cache of its own.
fn scan_with<R: Threads + Sync, G: Gate>(
    rt: &R,
    alloc: Global,
    dtype: &DType,
    request: &ScanRequest,
    files: &mut Vec<ScanFile<MemoryOpener, MemorySource>>,
    workers: usize,
    gate: &G,
) -> Result<ColumnOutput, NoMemory>
    requires { All (IsIdle memory_opener source_state) files.old.items }
    ensures ok { IfOk result (λ out. IsOutputOf workers dtype.now request.now files.old.items files.new.items out) }
    ensures idle { All (IsIdle memory_opener source_state) files.new.items }
{
    let mut cache = new_cache(alloc)?;
    match scan_columns_of(rt, alloc, dtype, files, &mut cache, request, workers, gate) {
        Ok(out) => Ok(out),
        Err(_) => Err(NoMemory),
    }
}

// The line of a scan's output.
fn line_of(alloc: Global, rows: u32, out: &ColumnOutput) -> Result<Vec<u8>, NoMemory>
    ensures { IfOk result (λ text. text.items ≡ totals_line rows (with_chunks no_totals out.now.chunks) out.now.report.asks) }
{
    let totals = totals_of(alloc, out.chunks.as_slice())?;
    let mut text = Vec::new(alloc);
    push_totals(
        rows,
        totals.rows,
        totals.ids,
        totals.lengths,
        out.report.asks,
        &mut text,
    )?;
    Ok(text)
}

// The line of a scan by one worker.
fn scan_text<R: Threads + Sync, G: Gate>(
    rt: &R,
    alloc: Global,
    spelling: Spelling,
    rows: u32,
    dtype: &DType,
    request: &ScanRequest,
    files: &mut Vec<ScanFile<MemoryOpener, MemorySource>>,
    gate: &G,
) -> Result<Vec<u8>, NoMemory>
    requires dtype { dtype.now ≡ table_type }
    requires request { request.now ≡ generated_request }
    requires files { AreGenerated spelling rows files.old.items }
    ensures line { IfOk result (λ text. IsLineOf spelling rows text.items) }
    ensures idle { All (IsIdle memory_opener source_state) files.new.items }
{
    let out = scan_with(rt, alloc, dtype, request, files, 1, gate)?;
    let _spelling = spelling;
    line_of(alloc, rows, &out)
}

/// The line of a scan of three generated files by one worker. They are scanned again by four.
pub(crate) fn generated_text<R: Threads + Sync, G: Gate>(
    rt: &R,
    alloc: Global,
    rows: u32,
    spelling: Spelling,
    gate: &G,
) -> Result<Vec<u8>, NoMemory>
    requires { rows ≤ 100_000 }
    ensures { IfOk result (λ text. IsLineOf spelling rows text.items) }
{
    let dtype = table_type(alloc)?;
    let request = generated_request(alloc)?;
    let mut files = make_files(alloc, rows, spelling)?;
    let text = scan_text(
        rt, alloc, spelling, rows, &dtype, &request, &mut files, gate,
    )?;
    scan_with(rt, alloc, &dtype, &request, &mut files, 4, gate)?;
    Ok(text)
}
