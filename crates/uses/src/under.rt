//! An engine that shows the first rows of files of older schemas.
ghost use Rattle.std.specs.Prelude.{◌≡◌, All, IfOk, take};
ghost use Rattle.vortex_scan.specs.Union.UnionAnswer.{union_answer};
ghost use Rattle.vortex_scan.specs.Words.{IsIdle, Tells, given, told};
ghost use Rattle.uses.specs.Uses.{first_of};

use std::alloc::Global;
use std::thread::Threads;
use vortex_scan::dtype::DType;
use vortex_scan::expr::Expression;
use vortex_scan::scan::ScanRequest;
use vortex_scan::scan::multi::{LayoutReaderFactory, NoGate, ScanChunk, ScanFile};
use vortex_scan::scan::union_::{UnionFault, scan_union};
use vortex_scan::segments::SegmentSource;

/// The first rows of files of older schemas, at most so many, as rows of one dtype: where openers and sources tell,
/// those that stand first in the row-by-row answer under that dtype, each with its place and its value. The cache of
/// the scan holds so many bytes.
pub fn first_rows_under<R: Threads + Sync, O: LayoutReaderFactory + Drop, S: SegmentSource + Drop>(
    rt: &R,
    alloc: Global,
    dtype: &DType,
    files: &mut Vec<ScanFile<O, S>>,
    cache_bytes: u64,
    projection: Expression,
    most: u64,
) -> Result<Vec<ScanChunk>, UnionFault>
    requires { All (IsIdle O.opener S.state) files.old.items }
    ensures first { IfOk result (λ chunks. All (Tells O.opener S.state) files.old.items →
        given chunks.items ≡ take most
        (union_answer dtype.now (first_of projection most) (told O.opener S.state files.old.items))) }
    ensures idle { All (IsIdle O.opener S.state) files.new.items }
{
    let mut request = ScanRequest::new(projection);
    request.limit = Some(most);
    let gate = NoGate::new();
    let output = scan_union(
        rt,
        alloc,
        dtype,
        files,
        cache_bytes,
        4096,
        &request,
        1,
        &gate,
    )?;
    Ok(output.chunks)
}
