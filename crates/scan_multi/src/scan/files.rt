//! The top call of the library: a scan of files. An own call over the Rust's parts.
ghost use Rattle.std.specs.Prelude.{All, IfOk, IfErr};
ghost use Rattle.scan_multi.specs.Lawful.{IsIdle};
ghost use Rattle.scan_multi.specs.Scans.{IsScan, IsRefusedFor, ScanMoves};

use crate::scan::columns::scan_columns_of;
use crate::scan::fault::ScanFault;
use crate::scan::output::ScanOutput;
use scan_drive::{Gate, ScanFile};
use scan_expr::ScanRequest;
use scan_opener::LayoutReaderFactory;
use scan_segments::{KeyedSegmentCache, SegmentSource};
use scan_values::DType;
use std::alloc::Global;
use std::thread::Threads;

/// Scans files: their rows in a range and a selection at which a filter is true, up to a limit, and of each the value
/// of a projection. An ordered request is served in the order of the files and of their rows. An unordered one is
/// served as it is read, so that a file that is slow to open or to read does not hold back what is read beside it: it is
/// promised any rows of the answer, as many as the limit allows and none twice, chunk by chunk.
///
/// The request is checked first. A limit of 0 asks for nothing, and no file is touched. Else openers are polled: those
/// of the first files whose rows are not all given, as many as there are workers. Each layout that one gives is
/// checked. A file that is skipped has no rows. The rows of a file are read split by split, of those splits that have a
/// selected row: one conjunct of the filter after the other, and then the projection at the rows that are left. Four
/// splits for each worker are read at once. Those of them that wait for nothing are polled in one phase, divided in equal
/// parts among at most as many threads as there are workers, which are joined; each worker passes the gate before its
/// first split of a phase. Where a thread can't be made the caller polls its part. Openers, sources and the cache are
/// called by the caller alone.
///
/// What a split reads of a segment is wanted when it is needed. Each want is looked up in the cache first, by a lookup
/// of its own that is polled to its end. What is not there is asked of the file's source, once for all wants that come
/// while it is live, and what comes is put into the cache. A fault of the cache is a miss, and no answer of a put
/// changes what the scan gives. No request is live after any answer.
///
/// # Errors
/// `Concurrency` where there are no workers, `Partitions` where the request restricts them, `RowRange(Reversed)` where
/// the range starts after its end, and `Bind` where the projection or the filter does not type over the dtype: exactly
/// the first of these in this order, before any file is touched. Want of memory may come in place of `Bind` alone.
///
/// Each other fault is of a file, and comes only by its cause; in an ordered scan of lawful objects only once all rows
/// of the files before it were given, fewer than the limit. `Opener` and `Source`: the count of faults of that opener
/// or source rose in this call, and the segment was asked in it. `DTypeMismatch`: the opener gives a layout of another
/// dtype. `Layout`: it gives one of the dtype that is not well-formed, and this is its first fault. `RowRange(Past)`:
/// the range ends past the rows of one that is. `TooManyRows`: with its rows, and with those of the files that were
/// read before it, there are more than a u64 counts. No segment of the file was asked before these four. `Corrupt`: a
/// file of that source name was asked for the segment in this call, or the cache kept it before; over lawful objects it
/// may be asked, and it is missing or damaged. `Overflow`: over lawful objects an expression overflows at a row that is
/// read. `NoMemory` may come in place of any answer but the first three faults; it alone comes of a valid scan of
/// lawful objects where no count of faults rose.
#[tactic(auto, using(crate::proofs::WantOfMemory::refused_after))]
pub fn scan_files<
    R: Threads + Sync,
    O: LayoutReaderFactory + Drop,
    S: SegmentSource + Drop,
    C: KeyedSegmentCache,
    G: Gate,
>(
    rt: &R,
    alloc: Global,
    dtype: &DType,
    files: &mut Vec<ScanFile<O, S>>,
    cache: &mut C,
    request: &ScanRequest,
    workers: usize,
    gate: &G,
) -> Result<ScanOutput, ScanFault>
    requires { All (IsIdle O.opener S.state) files.old.items }
    ensures ok { IfOk result (IsScan O.opener S.state workers dtype.now request.now
        files.old.items files.new.items (C.cache cache.old) (C.cache cache.new)) }
    ensures err { IfErr result (IsRefusedFor O.opener S.state workers dtype.now request.now
        files.old.items files.new.items (C.cache cache.old) (C.cache cache.new)) }
    ensures moves { ScanMoves O.opener S.state workers dtype.now request.now
        files.old.items files.new.items (C.cache cache.old) (C.cache cache.new) }
{
    let output = scan_columns_of(rt, alloc, dtype, files, cache, request, workers, gate)?;
    Ok(output.into_arrays(alloc)?)
}
