//! A client that asks again.
ghost use Rattle.std.specs.Prelude.{◌≡◌, All, IfOk, true};
ghost use Rattle.vortex_scan.specs.Words.{IsIdle, IsLawful, given};

use std::alloc::Global;
use std::thread::Threads;
use vortex_scan::dtype::DType;
use vortex_scan::scan::ScanRequest;
use vortex_scan::scan::multi::{
    LayoutReaderFactory, NoGate, ScanChunk, ScanFault, ScanFile, scan_files,
};
use vortex_scan::segments::{KeyedSegmentCache, SegmentSource};

/// Scans files, and the same files once more over the cache that the first scan has filled. Over lawful objects an
/// ordered request gives the same rows both times, whatever the cache has dropped or kept; and objects that were lawful
/// are lawful in the end.
#[tactic(none)]
pub fn scan_twice<
    R: Threads + Sync,
    O: LayoutReaderFactory + Drop,
    S: SegmentSource + Drop,
    C: KeyedSegmentCache,
>(
    rt: &R,
    alloc: Global,
    dtype: &DType,
    files: &mut Vec<ScanFile<O, S>>,
    cache: &mut C,
    request: &ScanRequest,
) -> Result<(Vec<ScanChunk>, Vec<ScanChunk>), ScanFault>
    requires { All (IsIdle O.opener S.state) files.old.items }
    ensures same { IfOk result (λ both. IsLawful O.opener S.state files.old.items (C.cache cache.old) →
        request.now.ordered ≡ true → given both.1.items ≡ given both.0.items) }
    ensures idle { All (IsIdle O.opener S.state) files.new.items }
    ensures lawful { IsLawful O.opener S.state files.old.items (C.cache cache.old) →
        IsLawful O.opener S.state files.new.items (C.cache cache.new) }
{
    let gate = NoGate::new();
    let first = scan_files(rt, alloc, dtype, files, cache, request, 1, &gate)?;
    let again = scan_files(rt, alloc, dtype, files, cache, request, 1, &gate)?;
    Ok((first.chunks, again.chunks))
}
