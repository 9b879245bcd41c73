//! An engine that shows the first rows.
ghost use Rattle.std.specs.Prelude.{◌≡◌, All, IfOk, take};
ghost use Rattle.vortex_scan.specs.Words.{IsIdle, IsLawful, answer, given, told};
ghost use Rattle.uses.specs.Uses.{first_of};

use std::alloc::Global;
use std::thread::Threads;
use vortex_scan::dtype::DType;
use vortex_scan::expr::Expression;
use vortex_scan::scan::ScanRequest;
use vortex_scan::scan::multi::{
    LayoutReaderFactory, NoGate, ScanChunk, ScanFault, ScanFile, scan_files,
};
use vortex_scan::segments::{KeyedSegmentCache, SegmentSource};

/// The first rows of files, at most so many: over lawful objects those that stand first in the row-by-row answer, each
/// with its place and its value.
#[tactic(none)]
pub fn first_rows<
    R: Threads + Sync,
    O: LayoutReaderFactory + Drop,
    S: SegmentSource + Drop,
    C: KeyedSegmentCache,
>(
    rt: &R,
    alloc: Global,
    dtype: &DType,
    files: &mut Vec<ScanFile<O, S>>,
    cache: &mut C,
    projection: Expression,
    most: u64,
) -> Result<Vec<ScanChunk>, ScanFault>
    requires { All (IsIdle O.opener S.state) files.old.items }
    ensures first { IfOk result (λ chunks. IsLawful O.opener S.state files.old.items (C.cache cache.old) →
        given chunks.items ≡ take most
        (answer dtype.now (first_of projection most) (told O.opener S.state files.old.items))) }
    ensures idle { All (IsIdle O.opener S.state) files.new.items }
    ensures lawful { IsLawful O.opener S.state files.old.items (C.cache cache.old) →
        IsLawful O.opener S.state files.new.items (C.cache cache.new) }
{
    let mut request = ScanRequest::new(projection);
    request.limit = Some(most);
    let output = scan_files(rt, alloc, dtype, files, cache, &request, 1, &NoGate::new())?;
    Ok(output.chunks)
}
