//! An engine that counts rows.
ghost use Rattle.std.specs.Prelude.{◌≡◌, ◌+◌, All, IfOk, length, drop};
ghost use Rattle.vortex_scan.specs.Segments.Faults.{capped};
ghost use Rattle.vortex_scan.specs.Words.{IsIdle, IsLawful};
ghost use Rattle.uses.specs.Uses.{rows_in, wanted};

use std::alloc::Global;
use std::thread::Threads;
use vortex_scan::dtype::DType;
use vortex_scan::scan::ScanRequest;
use vortex_scan::scan::multi::{
    LayoutReaderFactory, NoGate, ScanChunk, ScanFault, ScanFile, scan_files,
};
use vortex_scan::segments::{KeyedSegmentCache, SegmentSource};

/// How many rows the chunks have together, up to the greatest u64.
fn count_in(chunks: &[ScanChunk]) -> u64
    ensures { result ≡ capped (rows_in chunks.now) }
{
    let mut rows: u64 = 0;
    for chunk in chunks {
        rows = rows.saturating_add(chunk.rows.len() as u64);
    }
    rows
}

/// How many rows a request finds in files, up to its limit. Over lawful objects the number is that of the row-by-row
/// answer, cut at the limit, with or without an order; it stops at the greatest u64.
#[tactic(none)]
pub fn count_rows<
    R: Threads + Sync,
    O: LayoutReaderFactory + Drop,
    S: SegmentSource + Drop,
    C: KeyedSegmentCache,
>(
    rt: &R,
    alloc: Global,
    dtype: &DType,
    files: &mut Vec<ScanFile<O, S>>,
    cache: &mut C,
    request: &ScanRequest,
) -> Result<u64, ScanFault>
    requires { All (IsIdle O.opener S.state) files.old.items }
    ensures count { IfOk result (λ n. IsLawful O.opener S.state files.old.items (C.cache cache.old) →
        n ≡ capped (length (wanted O.opener S.state dtype.now request.now files.old.items))) }
    ensures idle { All (IsIdle O.opener S.state) files.new.items }
    ensures lawful { IsLawful O.opener S.state files.old.items (C.cache cache.old) →
        IsLawful O.opener S.state files.new.items (C.cache cache.new) }
{
    let output = scan_files(rt, alloc, dtype, files, cache, request, 1, &NoGate::new())?;
    Ok(count_in(output.chunks.as_slice()))
}
