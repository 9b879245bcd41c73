//! The table of files.
ghost use Rattle.std.specs.Prelude.{◌≡◌, ◌≢◌, All, IfErr, IfOk, Err};
ghost use Rattle.scan_multi.specs.Lawful.{IsIdle};
ghost use Rattle.scan_multi.specs.declared.scan.fault.ScanFault.{ScanFault};
ghost use Rattle.scan_table.specs.Scans.{IsTable, IsTableRefusedFor, TableMoves};
ghost use Rattle.scan_table.specs.declared.fault.TableFault.{TableFault};

use crate::check::check_table;
use crate::fault::TableFault;
use crate::spec::TableSpec;
use crate::table::{Table, table_of};
use scan_multi::{Gate, LayoutReaderFactory, ScanFault, ScanFile, scan_columns_of};
use scan_segments::{KeyedSegmentCache, SegmentSource};
use scan_values::DType;
use std::alloc::Global;
use std::thread::Threads;

/// The groups of the rows of files by keys, and measures over each group. Rows are scanned in whatever order they come,
/// by so many workers. What it keeps of each row is what keys and measures read.
///
/// # Errors
/// Before any file is touched: no workers, a reversed range, a name that is reserved or repeated, an expression that does
/// not bind, a key or a measure of another dtype. Then those of a scan, and last a sum that is neither an i64 nor a u64.
pub fn scan_table<
    R: Threads + Sync,
    O: LayoutReaderFactory + Drop,
    S: SegmentSource + Drop,
    C: KeyedSegmentCache,
    G: Gate,
>(
    rt: &R,
    alloc: Global,
    dtype: &DType,
    files: &mut Vec<ScanFile<O, S>>,
    cache: &mut C,
    spec: &TableSpec,
    workers: usize,
    gate: &G,
) -> Result<Table, TableFault>
    requires { All (IsIdle O.opener S.state) files.old.items }
    ensures ok { IfOk result (λ t. IsTable O.opener S.state workers dtype.now spec.now
        files.old.items files.new.items (C.cache cache.old) (C.cache cache.new) t.groups.items) }
    ensures err { IfErr result (IsTableRefusedFor O.opener S.state workers dtype.now spec.now
        files.old.items files.new.items (C.cache cache.old) (C.cache cache.new)) }
    ensures moves { TableMoves O.opener S.state workers dtype.now spec.now
        files.old.items files.new.items (C.cache cache.old) (C.cache cache.new) }
    ensures never { result ≢ Err (TableFault.Scan ScanFault.NoMemory) }
{
    let request = check_table(alloc, dtype, spec, workers)?;
    let output = scan_columns_of(rt, alloc, dtype, files, cache, &request, workers, gate)?;
    table_of(alloc, spec, output.chunks)
}
