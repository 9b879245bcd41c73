//! The scan of files of older schemas under one dtype.
ghost use Rattle.std.specs.Prelude.{◌≡◌, ◌≢◌, ◌<◌, ◌≤◌, [], List, All, IfErr, IfOk, None, Some, length};
ghost use Rattle.scan_segments.specs.Cache.{empty_cache};
ghost use Rattle.scan_drive.specs.declared.files.ScanFile.{ScanFile as FileModel};
ghost use Rattle.scan_multi.specs.Lawful.{IsIdle};
ghost use Rattle.scan_multi.specs.Scans.{IsRefusedFor, IsScan, ScanMoves};
ghost use Rattle.scan_widen.specs.Parts.{IsReadable};
ghost use Rattle.scan_caches.specs.Bounded.{keyed_state};
ghost use Rattle.scan_widened.specs.Sources.{state_of};
ghost use Rattle.scan_union.specs.Made.{memory, IsMadeFault};
ghost use Rattle.scan_union.specs.Seats.{IsOpen, Seated};
ghost use Rattle.scan_union.specs.UnionScans.{IsUnionRefusedFor, IsUnionScan, UnionMoves};

use crate::fault::UnionFault;
use crate::opening::open_files;
use crate::seat::{Seat, UnionFile, fault_behind, put_back, take_apart};
use scan_caches::{MokaSegmentCache, NoOpSegmentCache, SegmentEviction};
use scan_expr::ScanRequest;
use scan_multi::{
    ColumnOutput, Gate, LayoutReaderFactory, ScanFault, ScanFile, ScanOutput, scan_columns_of,
};
use scan_segments::SegmentSource;
use scan_values::DType;
use std::alloc::Global;
use std::thread::Threads;

// What a request gives of no files: nothing, or its first fault.
fn scan_none<R: Threads + Sync, O: LayoutReaderFactory + Drop, S: SegmentSource + Drop, G: Gate>(
    rt: &R,
    alloc: Global,
    dtype: &DType,
    request: &ScanRequest,
    workers: usize,
    gate: &G,
) -> Result<ColumnOutput, ScanFault>
    ensures ok { IfOk result (λ out. IsScan O.opener S.state workers dtype.now request.now [] [] empty_cache empty_cache out) }
    ensures err { IfErr result (IsRefusedFor O.opener S.state workers dtype.now request.now [] [] empty_cache empty_cache) }
{
    let mut none: Vec<ScanFile<O, S>> = Vec::new(alloc);
    let mut cache = NoOpSegmentCache::new();
    scan_columns_of(
        rt, alloc, dtype, &mut none, &mut cache, request, workers, gate,
    )
}

// Scans files that stand under the dtype, and tells a fault as one of the files themselves.
fn scan_made<R: Threads + Sync, S: SegmentSource + Drop, G: Gate>(
    rt: &R,
    alloc: Global,
    dtype: &DType,
    made: &mut Vec<UnionFile<S>>,
    cache: &mut MokaSegmentCache,
    request: &ScanRequest,
    workers: usize,
    gate: &G,
) -> Result<ColumnOutput, UnionFault>
    requires idle { All (IsIdle memory (state_of S.state)) made.old.items }
    ensures ok { IfOk result (IsScan memory (state_of S.state) workers dtype.now request.now
        made.old.items made.new.items (keyed_state cache.old) (keyed_state cache.new)) }
    ensures err { IfErr result (IsMadeFault S.state workers dtype.now request.now
        made.old.items made.new.items (keyed_state cache.old) (keyed_state cache.new)) }
    ensures moves { ScanMoves memory (state_of S.state) workers dtype.now request.now
        made.old.items made.new.items (keyed_state cache.old) (keyed_state cache.new) }
{
    match scan_columns_of(rt, alloc, dtype, made, cache, request, workers, gate) {
        Ok(output) => Ok(output),
        Err(fault) => Err(fault_behind(made.as_slice(), fault)),
    }
}

// Scans opened files, each of which has a seat.
fn scan_seated<R: Threads + Sync, O: LayoutReaderFactory + Drop, S: SegmentSource + Drop, G: Gate>(
    rt: &R,
    alloc: Global,
    dtype: &DType,
    files: &mut Vec<ScanFile<O, S>>,
    seats: Vec<Seat>,
    cache_bytes: u64,
    cache_entries: usize,
    request: &ScanRequest,
    workers: usize,
    gate: &G,
) -> Result<ColumnOutput, UnionFault>
    requires entries { (0 < cache_entries) × (cache_entries ≤ 65536) }
    requires idle { All (IsIdle O.opener S.state) files.old.items }
    requires even { length files.old.items ≡ length seats.items }
    requires readable { All (λ s. All IsReadable s.segments.items) seats.items }
    ensures ok { IfOk result (λ out. (old : List (FileModel O S)) →
        Seated O.opener S.state dtype.now request.now.row_range old files.old.items seats.items →
        IsOpen O.opener S.state workers dtype.now request.now old →
        IsUnionScan O.opener S.state workers dtype.now request.now old files.new.items out) }
    ensures err { IfErr result (λ e. (old : List (FileModel O S)) →
        Seated O.opener S.state dtype.now request.now.row_range old files.old.items seats.items →
        IsOpen O.opener S.state workers dtype.now request.now old →
        IsUnionRefusedFor O.opener S.state workers dtype.now request.now old files.new.items e) }
    ensures moves { (old : List (FileModel O S)) →
        Seated O.opener S.state dtype.now request.now.row_range old files.old.items seats.items →
        IsOpen O.opener S.state workers dtype.now request.now old →
        UnionMoves O.opener S.state workers dtype.now request.now old files.new.items }
{
    let mut cache = MokaSegmentCache::new(alloc, cache_bytes, cache_entries, SegmentEviction::Lru)?;
    let count = files.len();
    let mut rests = Vec::with_capacity(alloc, count)?;
    let mut made: Vec<UnionFile<S>> = Vec::with_capacity(alloc, count)?;
    let opened = std::mem::replace(files, Vec::with_capacity(alloc, count)?);
    take_apart(alloc, opened, seats, &mut rests, &mut made);
    let answer = scan_made(
        rt, alloc, dtype, &mut made, &mut cache, request, workers, gate,
    );
    put_back(rests, made, files);
    answer
}

/// Scans files of older schemas under one dtype, and gives columns: what `scan_union` says of its rows, its order, its faults
/// and of what it asks holds of this call word for word.
///
/// # Errors
/// Those of `scan_union`, by the same causes.
pub fn scan_union_columns<
    R: Threads + Sync,
    O: LayoutReaderFactory + Drop,
    S: SegmentSource + Drop,
    G: Gate,
>(
    rt: &R,
    alloc: Global,
    dtype: &DType,
    files: &mut Vec<ScanFile<O, S>>,
    cache_bytes: u64,
    cache_entries: usize,
    request: &ScanRequest,
    workers: usize,
    gate: &G,
) -> Result<ColumnOutput, UnionFault>
    requires idle { All (IsIdle O.opener S.state) files.old.items }
    requires entries { (0 < cache_entries) × (cache_entries ≤ 65536) }
    ensures ok { IfOk result (IsUnionScan O.opener S.state workers dtype.now request.now files.old.items files.new.items) }
    ensures err { IfErr result (IsUnionRefusedFor O.opener S.state workers dtype.now request.now
        files.old.items files.new.items) }
    ensures moves { UnionMoves O.opener S.state workers dtype.now request.now files.old.items files.new.items }
{
    let none = scan_none::<R, O, S, G>(rt, alloc, dtype, request, workers, gate)?;
    if let Some(0) = request.limit {
        return Ok(none);
    }
    let seats = open_files(alloc, dtype, &request.row_range, files)?;
    scan_seated(
        rt,
        alloc,
        dtype,
        files,
        seats,
        cache_bytes,
        cache_entries,
        request,
        workers,
        gate,
    )
}

/// Scans files of older schemas under one dtype: each file is read as one of that dtype, and the rows given are those that a
/// request over it asks for. A file's dtype fits where its values are values of the other: null only where the other has it,
/// integers within the other's range, elements and fields likewise; fields that the file lacks are null, in whatever order the
/// others stand, and those that the dtype does not name are not read.
///
/// The request is checked first. A limit of 0 asks for nothing, and no file is touched. Then all files are opened in listed
/// order, each to its end, and checked, before any segment is asked. The scan itself is `scan_files` over the files as they
/// are under the dtype, with a cache of its own of `cache_bytes` and of 1 to 65,536 entries, in which each file has a name of
/// its own. A segment whose leaf has the same dtype is handed on as it is, another is widened when it comes; a field that a
/// file lacks asks nothing. The report counts segments under the dtype, those that ask nothing among them.
///
/// # Errors
/// `Concurrency`, `Partitions`, `RowRange(Reversed)` and `Bind`: exactly the first of these in this order, before any file is
/// touched. Want of memory may come in place of `Bind` alone.
///
/// Then those of files, in listed order: `Opener` only where its count of faults rose; exactly the first of `DTypeMismatch`
/// where the file's dtype does not fit, `Layout` where it is not well-formed under its own dtype, `RowRange(Past)`,
/// `TooManyRows` where the rows so far reach 2^64, or those of the file or of a struct in it are the greatest u64, and
/// `TooManySegments` where the file has more than 4294967296 segments under the dtype. They come before any row, whatever the
/// limit.
///
/// Then `Source`, `Corrupt` and `Overflow` by the causes of `scan_files`, read of the files under the dtype; `segment` is the
/// file's own. `NoMemory` may come in place of any answer but the first three; it alone comes of a valid scan of objects that
/// tell and do not fail.
pub fn scan_union<
    R: Threads + Sync,
    O: LayoutReaderFactory + Drop,
    S: SegmentSource + Drop,
    G: Gate,
>(
    rt: &R,
    alloc: Global,
    dtype: &DType,
    files: &mut Vec<ScanFile<O, S>>,
    cache_bytes: u64,
    cache_entries: usize,
    request: &ScanRequest,
    workers: usize,
    gate: &G,
) -> Result<ScanOutput, UnionFault>
    requires idle { All (IsIdle O.opener S.state) files.old.items }
    requires entries { (0 < cache_entries) × (cache_entries ≤ 65536) }
    ensures ok { IfOk result (IsUnionScan O.opener S.state workers dtype.now request.now files.old.items files.new.items) }
    ensures err { IfErr result (IsUnionRefusedFor O.opener S.state workers dtype.now request.now
        files.old.items files.new.items) }
    ensures moves { UnionMoves O.opener S.state workers dtype.now request.now files.old.items files.new.items }
{
    let output = scan_union_columns(
        rt,
        alloc,
        dtype,
        files,
        cache_bytes,
        cache_entries,
        request,
        workers,
        gate,
    )?;
    Ok(output.into_arrays(alloc)?)
}
